// The new numbers of a kind's blocks. Where some block has no life or is of another kind, the numbers of the others stand in the slice, ascending, from
// the place on where the blocks will be: 8 bytes for each, less than the block takes. Where none is left out, numbers stay.
ghost use mathlib.Core.List.{flat_map};
ghost use Rattle.history.specs.File.{bytes_of};
ghost use Rattle.lists.specs.Puts.{Put};
ghost use Rattle.file_put.specs.Living.{living};
ghost use Rattle.file_nodes.specs.Numbering.{NewNumber, Listed};

use fields::WIDTH;
use file_put::{BLOCKS_AT, blocks, put};

// Puts the numbers of those of the first `count` blocks that are of the kind and have a life.
#[tactic(auto, using(file_put::proofs::Laying::listing))]
fn put_living(blocks: &[u64], kind: u64, count: u64, out: &mut [u8], at: usize) -> usize
    ensures { Put out.old at (flat_map (bytes_of 8) (living blocks.now kind count)) out.new result }
{
    let mut next = at;
    for k in 0..count {
        if blocks::lives(blocks, kind, k + 1) {
            next = put::number(out, next, k);
        }
    }
    next
}

// Lists the numbers of the blocks of the kind that have a life, `living` of `count`, and answers how many are listed: none where all are.
#[tactic(auto, using(crate::proofs::Listing::telling))]
pub fn list(blocks: &[u64], kind: u64, count: u64, living: u64, out: &mut [u8]) -> u64
    ensures { Listed blocks.now kind count living out.old out.new result }
{
    if living == count {
        return 0;
    }
    put_living(blocks, kind, count, out, BLOCKS_AT);
    living
}

// The new number of a block: its place in the list, by binary search. A list that the slice does not hold, which no closed index has, is not searched.
pub fn new_number(out: &[u8], listed: u64, number: u64) -> u64
    ensures { NewNumber out.now listed number result }
{
    if listed == 0 {
        return number;
    }
    let Some(behind) = out.get(BLOCKS_AT..) else {
        return 0;
    };
    let (all, _) = behind.as_chunks::<WIDTH>();
    let Some(list) = all.get(..listed as usize) else {
        return 0;
    };
    list.partition_point(|bytes| u64::from_le_bytes(*bytes) < number) as u64
}
