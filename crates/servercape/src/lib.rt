// The calls for Rust and C. Each returns 0, or the number of its refusal; what else it gives goes through `&mut` and keeps its value on a refusal.
// A slice is a pointer and a length, in the order of the parameters. The contracts are the relations of the calls behind, at the answer that the
// number and the values stand for.
//
// `servercape_record_all` and `servercape_find_all` alone return no refusal: they return how many calls they made, each with its answer in a slice.
// Callers link by name and pass numbers and slices one by one: so there is a function for each name. `servercape_info` alone hands out a struct, of nine numbers.
//
//   changes, reads, files              the calls by subject
//   answers                            a result handed out, one function for each shape of its value
//   specs/Numbers   proofs/Answering   what the numbers mean; a result as its number

#![tactic(auto)]

ghost use Rattle.std.specs.Prelude.{◌≡◌};
ghost use Rattle.lengths.specs.Lengths.{length_for};

pub mod answers;
pub mod changes;
pub mod files;
pub mod reads;

// The version of the library: major * 1,000,000 + minor * 1,000 + patch.
const VERSION: u64 = 2_000;

// The version of the library that is linked, 0.2.0.
pub fn servercape_version() -> u64
    ensures { result ≡ 2000 }
{
    VERSION
}

// How many numbers (of the store: bytes) to lend for so many rows: table 0 pieces, 1 blocks, 2 store, 3 nodes, 4 entries, 5 scratch. 0 where that is no
// 64-bit number, and for any other table.
pub fn servercape_length(table: u64, rows: u64) -> u64
    ensures { result ≡ length_for table rows }
{
    lengths::length_for(table, rows)
}
