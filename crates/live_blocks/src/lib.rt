// The blocks that are live at a tick of a closed index: which they are by its tables, and what blocks that share no cell show. There is no code here: the
// crates above, which read cells and blocks at a tick, build on these laws.
//
//   specs/Live      tables of a closed index, and a cell that no block before it reaches
//   proofs/Seeing   what blocks that share no cell show of one
//   proofs/Living   the live blocks of a closed index, from its tables

#![tactic(auto)]
