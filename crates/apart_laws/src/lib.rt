// Rule 24 in one linear pass: the laws on which its decision rests, over plain lists and over history's tree. There is no code here: the function below does
// nothing, and its contract makes theorem H part of the build; the other laws are those that the crates above build on.
//
//   specs/Ticks        rule 24 tick by tick: what is destroyed at a tick, and what takes its cells over
//   specs/Ruled        what a walk may rest on: a tree with rules 21 and 23
//   specs/Cover        how many cells stretches have in a range
//   specs/Slots        what a pass keeps for a tick: slots, built of what is created then
//   specs/Parted       a block held against a list of those live at one tick
//   specs/RightFirst   a walk over the segment tree that takes the right half first
//   specs/Law          what is proved
//
//   proofs/Downward    theorem H, by downward induction on the tick
//   proofs/Covering    disjoint stretches with as many cells in a range as the range cover it
//   proofs/Numbers     blocks by their numbers
//   proofs/Slots       a full slot is covered, whatever blocks it counts; Tallying: slots that go on counting
//   proofs/Ways        the way to a tick: spines, and the blocks that are live then
//   proofs/Handing     what is destroyed at each mid is restored there, or left open
//   proofs/RightFirst  the walk shows it
//   proofs/Parting     blocks that are parted from those live before share nothing

#![tactic(auto)]

ghost use Rattle.apart_laws.specs.Law.{TheoremH};

// H1 and H2 make rule 24.
pub fn theorem_h()
    ensures { TheoremH }
{}
