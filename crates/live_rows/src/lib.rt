//! What a walk to a window's blocks asks of the rows on its way down: the block of a row, the cells that a block's row names, and the last block that starts
//! before the window. No table is tested here: on any contents these functions end.
//!
//! - `specs/Extents`: what each function gives
//! - `proofs/Latest`: the returns of `later`, and the rows of a node in the table

#![tactic(auto)]

ghost use Rattle.std.specs.Prelude.{◌≡◌, suc, ◌≤◌, ◌<◌, MatchOption};
ghost use Rattle.block_table.specs.Blocks.{Room};
ghost use Rattle.segment_table.specs.Closed.{block_in};
ghost use Rattle.segment_walk.specs.Rowing.{key_at, table_rows};
ghost use Rattle.live_rows.specs.Extents.{ExtentOf, Later};

use segment_near::Neighbour;
use segment_walk::rows::Rows;
use tables::{block, entry};

/// The block of a row.
pub fn block_in(entries: &[u64], row: usize) -> Neighbour
    requires { row < table_rows entries.now }
    ensures { result ≡ record { number = block_in entries.now row; first = key_at entries.now row } }
{
    Neighbour {
        number: entries[entry::HEAD + (entry::WIDTH * row + entry::BLOCK)],
        first: entries[entry::HEAD + (entry::WIDTH * row + entry::KEY)],
    }
}

/// The cells of a block as its row says them: so many from `first` on, with the store's bytes from `offset` on.
#[derive(Clone, Copy)]
pub struct Extent {
    pub first: u64,
    pub length: u64,
    pub offset: u64,
}

/// The row of a block, under one test. None where the table does not have it, as in no closed index.
pub fn extent_of(blocks: &[u64], number: u64) -> Option<Extent>
    ensures { MatchOption result (Room blocks.now (suc number) → ⊥) (λ r. ExtentOf blocks.now number r) }
{
    if tables::rows(blocks.len(), block::HEAD) <= number {
        return None;
    }
    let row = number as usize + 1;
    Some(Extent {
        first: blocks[tables::ROW * row + (block::BASE + block::FIRST)],
        length: blocks[tables::ROW * row + (block::BASE + block::LENGTH)],
        offset: blocks[tables::ROW * row + (block::BASE + block::OFFSET)],
    })
}

/// The later one of `best` and the last block of a node that starts before the window; the rows from `row` on do not.
#[tactic(auto, using(crate::proofs::Latest::latest))]
pub fn later(entries: &[u64], rows: Rows, row: usize, best: Option<Neighbour>) -> Option<Neighbour>
    requires { row ≤ table_rows entries.now }
    ensures { Later entries.now rows row best result }
{
    if row <= rows.from {
        return best;
    }
    let own = block_in(entries, row - 1);
    let Some(block) = best else {
        return Some(own);
    };
    if own.first <= block.first {
        return best;
    }
    Some(own)
}
