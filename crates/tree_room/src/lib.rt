// How many rows finish needs: bounds of nodes and entries by how often the ticks are halved, by the ticks at which something of a kind was recorded, and by
// the blocks.
// There is no code here: the function below does nothing, and its contract makes the law part of the build.
//
//   specs/Room       the bounds, and what is proved of them
//   proofs/Ticks     how many of some ticks are in an interval
//   proofs/Entries   the entries that one block makes, in the tree of its kind
//   proofs/Nodes     the nodes of a kind's blocks: one has halves only where it has a tick
//   proofs/Noting    the ticks of an open index are those of the accepted calls of their kind
//   proofs/Room      the law

#![tactic(auto)]

ghost use Rattle.tree_room.specs.Room.{LawOfRoom};

// The trees of an index have no more nodes and entries than the bounds say, and finish that is lent so many rows is taken.
pub fn law_of_room()
    ensures { LawOfRoom }
{}
