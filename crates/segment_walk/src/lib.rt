// The way down to a tick in the tree of a closed index, and the rows of a node's entries. No table is tested here. On any contents these functions end;
// on the tables of a closed index they answer as the model of history does. What is looked for on the way stands in the crates above.
//
//   walk   specs/Walking   proofs/Halving           the way down by halves
//   rows   specs/Rowing    proofs/Rowing            a node's rows, and binary search in them
//                          proofs/Windows           its rows in a window
//          proofs/Agreeing                          for callers: by the blocks of the model

#![tactic(auto)]

pub mod rows;
pub mod walk;
