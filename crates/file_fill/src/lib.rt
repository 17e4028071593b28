// The loader's second pass: what the file says, written into the lent tables. The file has been scanned and the tables have room, so every row is read
// again without a fault; reads and writes are total, whatever the file. Each row and each entry of the file is met once.
//
//   rows              a row of eight numbers
//   blocks            the block rows, and the blocks' bytes in the store
//   nodes             the node rows and their entries, by halves, with rule 21
//   specs/Fill        the numbers that are written, and what each function leaves

#![tactic(auto)]

pub mod blocks;
pub mod nodes;
pub mod rows;
