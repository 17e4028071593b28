// The nodes of the file of a closed index, with the new numbers of the blocks. While the nodes are put, the numbers of the written blocks stand where
// the blocks will be, ascending, and a block's new number is its place among them, found by binary search.
//
//   numbers   specs/Numbering   proofs/Listing, Ranking   the new numbers
//   nodes     specs/Nodes       proofs/Treeing            the tree, root first

#![tactic(auto)]

pub mod nodes;
pub mod numbers;
