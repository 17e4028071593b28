// What is right, said once, over plain lists, and its laws. There is no code here: the functions below do nothing, and their contracts make the laws
// part of the build.
//
//   specs/Words      kinds, places, operations, pieces, blocks, cells; the part of a stretch in a range
//   specs/Lent       lengths of what is lent, and rows
//   specs/Tree       the segment tree as data; Find: the walk of find; Rules: rules 21 to 24 as tests
//   specs/Days       days of 23 and 25 hours: lists of days, the day of a minute, what the clock shows; DaysLaw: what is proved of them
//   specs/Hours      station hours: calendars, open cells, what install takes; HoursLaw: what is proved of them
//   specs/Ledger     what is kept, and what an accepted call leaves; Reads: what the reads give
//   specs/Refusals   refusals 1 to 16 and 25 to 28, a list for each call; Calls: lists of calls, the history, the value of a cell
//   specs/File       the file's bytes, its reader, the loader with refusals 17 to 24
//   specs/Sound      what makes a set of tables well formed
//   specs/Printed    the input and the output of the program `board`
//   specs/Law        what is proved of all this
//   specs/Boards     the boards to try, with what must come of them; Requested, HoursBoards, DaysBoards: those of document 02
//   specs/Sums       sums over the cells of a window; Occupation, Charges: the reports on a closed index; each with its Law; ReportsBoards: their boards
//
//   proofs/ByKind                      places, sets of kinds, the blocks as one kind sees them: one proof for every kind
//   proofs/Clip, Parts, Split, Seen, Cells, Storing, Apart, Reading, Value   pieces and cells
//   proofs/Passing, Steps, EveryList   the law, from call to call
//   proofs/Tree*, Find*, RulesLaws     the segment tree and find
//   proofs/Touching                    touching, next and last
//   proofs/File*, OneTree              the file, there and back
//   proofs/HoursLaws, Installing       station hours, and the calls that go by them
//   proofs/Days*                       lists of days, and the call that installs one
//   proofs/Sums, BlockSums             sums over windows, cell by cell and block by block
//   proofs/ChargesLaws, OccupationLaws charges; counts, fractions, tenths

#![tactic(auto)]

ghost use Rattle.history.specs.Law.{ValueAt, LawOfChange, LawOfCalls, LawOfFind, LawOfTouching, LawOfNeighbours};
ghost use Rattle.history.specs.HoursLaw.{LawOfHours};
ghost use Rattle.history.specs.DaysLaw.{LawOfDays};
ghost use Rattle.history.specs.ChargesLaw.{LawOfCharges};
ghost use Rattle.history.specs.SumsLaw.{LawOfSums};
ghost use Rattle.history.specs.OccupationLaw.{LawOfOccupation};
ghost use Rattle.history.specs.Boards.{MarkedBoards};
ghost use Rattle.history.specs.Requested.{RequestedBoards};
ghost use Rattle.history.specs.ReportsBoards.{ReportsBoards};

// The value of a cell, in the mission's words.
pub fn value_at()
    ensures { ValueAt }
{}

// What an operation changes first is the lowest of the first unknown cell and of its first differences from each piece.
pub fn law_of_change()
    ensures { LawOfChange }
{}

// The ledger after every list of calls: sound, showing what the history has, and faithful to it once finished.
pub fn law_of_calls()
    ensures { LawOfCalls }
{}

// Find over any sound closed index lists exactly the live blocks that start in the window.
pub fn law_of_find()
    ensures { LawOfFind }
{}

// Touching over any sound closed index lists exactly the live blocks that hold a cell of the window, ascending.
pub fn law_of_touching()
    ensures { LawOfTouching }
{}

// Next and last over any sound closed index are the nearest live blocks, and missing exactly when there is none.
pub fn law_of_neighbours()
    ensures { LawOfNeighbours }
{}

// Station hours: open cells, 26 exactly outside hours, 27 fault by fault, and what install leaves.
pub fn law_of_hours()
    ensures { LawOfHours }
{}

// Days of 23 and 25 hours: every minute lies in one day, what the clock shows then, 28 fault by fault, and what installing a list leaves.
pub fn law_of_days()
    ensures { LawOfDays }
{}

/// What the busy cells of a window have together is a sum over the live blocks.
pub fn law_of_sums()
    ensures { LawOfSums }
{}

/// Platform charges: which cells are charged and at which hour, sums of adjoining windows, rounding, bounds, 35 and 36.
pub fn law_of_charges()
    ensures { LawOfCharges }
{}

/// The occupation report: which cells are occupied, a fraction reduced fully, the nearest tenth of a percent, 37 fault by fault.
pub fn law_of_occupation()
    ensures { LawOfOccupation }
{}

// The boards to try come out as they must.
pub fn marked_boards()
    ensures { MarkedBoards }
{}

// And so do those of document 02.
pub fn requested_boards()
    ensures { RequestedBoards }
{}

/// And so do those of the reports.
pub fn report_boards()
    ensures { ReportsBoards }
{}
