// Parts of the file of a closed index, put into a lent slice one after the other: fields, and the blocks of a kind that have a life. Each function
// answers the place behind what it has put, and puts as far as the slice goes.
//
//   put      proofs/Putting                       bytes and numbers
//   blocks   specs/Living, Parts  proofs/Laying   the blocks that have a life

#![tactic(auto)]

pub mod blocks;
pub mod put;

// The blocks begin behind the kind byte and the block count.
pub const BLOCKS_AT: usize = 9;
