// Longer tables stand for the same index: a caller may put zeros behind each table and behind the store between two calls. There is no code here: the
// functions below do nothing, and their contracts make the laws part of the build.
//
//   specs/Longer       tables with zeros behind them, the ledger that is lent so much more, and what is proved of both
//   specs/Steps        calls and growth in any order
//   proofs/Extending   a table that reads as before and is no shorter: what stood in it stands there still
//   proofs/Answering   the answers of a ledger that is lent more
//   proofs/Longer      the tables, the ledger, and well formed again
//   proofs/Steps       growth moved to the start

#![tactic(auto)]

ghost use Rattle.growth.specs.Longer.{LongerTables};
ghost use Rattle.growth.specs.Steps.{GrownBoards};

// Tables with zeros behind them stand for the same ledger, which is lent more and answers alike.
pub fn longer_tables()
    ensures { LongerTables }
{}

// A board whose tables grow is the board of tables that had the room from the start.
pub fn grown_boards()
    ensures { GrownBoards }
{}
