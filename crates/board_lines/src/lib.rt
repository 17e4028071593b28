// The lines of the program `board` on an open index: those of the refused records, and those of the blocks once it is finished.
//
//   records   specs/Lines   proofs/Standing, Recording   the records one after the other
//   blocks    specs/Lines   proofs/Listing               finish, and the blocks in recorded order
//
// No table is tested here: opening makes them well formed, and each call after it keeps them so.

#![tactic(auto)]

pub mod blocks;
pub mod records;
