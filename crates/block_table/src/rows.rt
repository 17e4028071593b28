// The rows of the block table, one by one.
ghost use Rattle.lists.specs.Tests.{Decides};
ghost use Rattle.block_table.specs.Rows.{RowSound, RowsSound};

use tables::{block, kinds};

// What is the same for all rows of an index: the mask of its kinds, end tick and store use.
#[derive(Clone, Copy)]
pub struct Bounds {
    pub kinds: u64,
    pub end: u64,
    pub used: u64,
}

// Whether a row is sound. It subtracts and does not add: in tables that nobody has tested a sum may pass 2^64.
fn test_row(blocks: &[u64], link: u64, bounds: Bounds) -> bool
    ensures { Decides result (RowSound blocks.now bounds link) }
{
    let first = block::get(blocks, link, block::FIRST);
    let length = block::get(blocks, link, block::LENGTH);
    let destroyed = block::get(blocks, link, block::DESTROYED);
    length != 0
        && length <= u64::MAX - first
        && length <= bounds.used
        && block::get(blocks, link, block::OFFSET) <= bounds.used - length
        && block::get(blocks, link, block::CREATED) <= destroyed
        && destroyed <= bounds.end
        && kinds::has(bounds.kinds, block::get(blocks, link, block::OWNER))
}

// Whether the rows 1 to n are sound. Linear in n, and ends at the first fault: from the last row down, so that a count past the table ends at once.
// A `for` and not `.all(..)`: with that the proof did not close.
pub fn test_rows(blocks: &[u64], n: u64, kinds: u64, end: u64, used: u64) -> bool
    ensures { Decides result (RowsSound blocks.now (record { kinds = kinds; end = end; used = used }) 0 n) }
{
    let bounds = Bounds { kinds, end, used };
    for k in (0..n).rev() {
        if !test_row(blocks, k + 1, bounds) {
            return false;
        }
    }
    true
}
