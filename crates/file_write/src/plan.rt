// How long the file is, and its parts: measured before anything is written, and never past the room, so that no sum wraps.
ghost use Rattle.std.specs.Prelude.{◌≡◌};
ghost use Rattle.tables.specs.Columns.{nodes_count};
ghost use Rattle.file_write.specs.Sizes.{share_of, part_size, parts_size, file_size, fitted};

use file_put::{BLOCKS_AT, blocks};
use segment_table::lent::Closed;
use tables::kinds::KINDS;
use tables::{block, entry, node};

// A kind or presence byte and four numbers.
const ROW: usize = 33;
// A node's row, and a byte: there is one absent child more than nodes.
const NODE: u64 = 34;

const ENTRY: u64 = 8;

// Measures those of the first `count` blocks that a kind's part has: how many are written, and the place behind them. None where they do not fit. Blocks may
// share bytes of the store, so their sum is bounded by the room alone.
#[tactic(auto, using(crate::proofs::Planning::sharing))]
pub fn measure_blocks(blocks: &[u64], kind: u64, count: u64, room: usize) -> Option<(u64, usize)>
    ensures { result ≡ share_of blocks.now kind count room }
{
    let mut living = 0;
    let mut left = room.checked_sub(BLOCKS_AT)?;
    for number in 0..count {
        let link = number + 1;
        if blocks::lives(blocks, kind, link) {
            let length = block::get(blocks, link, block::LENGTH) as usize;
            left = left.checked_sub(ROW)?.checked_sub(length)?;
            living += 1;
        }
    }
    Some((living, room - left))
}

// Measures a kind's part without its nodes and entries, but for the one absent child more than nodes. None where it does not fit; a kind without a root
// has no part.
#[tactic(auto, using(crate::proofs::Planning::parting))]
fn measure_part(closed: &Closed<'_>, kind: u64, room: usize) -> Option<usize>
    ensures { result ≡ fitted (part_size closed.now.blocks.now closed.now.nodes.now kind) room }
{
    if tables::get(closed.nodes, 0, kind as usize) == 0 {
        return Some(0);
    }
    let count = block_table::count(closed.blocks);
    let (_, next) = measure_blocks(closed.blocks, kind, count, room)?;
    if room <= next {
        return None;
    }
    Some(next + 1)
}

// Measures the parts of all kinds so.
#[tactic(auto, using(crate::proofs::Planning::summing))]
fn measure_parts(closed: &Closed<'_>, room: usize) -> Option<usize>
    ensures { result ≡ fitted (parts_size closed.now.blocks.now closed.now.nodes.now nodes_count) room }
{
    let mut used = 0;
    for kind in 0..KINDS {
        let more = measure_part(closed, kind, room - used)?;
        used += more;
    }
    Some(used)
}

// Measures the file of a closed index. None where it does not fit.
#[tactic(auto, using(crate::proofs::Planning::planning))]
pub fn measure(closed: &Closed<'_>, room: usize) -> Option<usize>
    ensures { result ≡ fitted (file_size closed.now.blocks.now closed.now.nodes.now closed.now.entries.now) room }
{
    let used = measure_parts(closed, room)?;
    let left = (room - used) as u64;
    let rows = tables::get(closed.nodes, 0, node::COUNT);
    let rest = left.checked_sub(NODE.checked_mul(rows)?)?;
    let numbers = tables::get(closed.entries, 0, entry::COUNT);
    let spare = rest.checked_sub(ENTRY.checked_mul(numbers)?)?;
    Some(room - spare as usize)
}
