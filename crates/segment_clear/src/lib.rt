// A block against others of the tree: those on the way down to a tick are live then, and in each node's run only the last one that starts before the
// block's end is looked at, by a binary search. If a longer one begins before that one and reaches over it, those two share a cell.
//
//   specs/Clear       a block among others of a list, in a run and on a way
//   specs/Above       the nodes above one on a way, of which no two blocks of one share a cell
//   proofs/Clearing   one step for each return and turn; Rising: of `above_clear`

#![tactic(auto)]

ghost use Rattle.std.specs.Prelude.{suc};
ghost use Rattle.lists.specs.Tests.{Decides};
ghost use Rattle.block_table.specs.RowRead.{Reads};
ghost use Rattle.segment_clear.specs.Clear.{EndsBy, Owned, RunClear, WayClear};
ghost use Rattle.segment_clear.specs.Above.{AboveClear};

use block_table::Row;
use segment_table::lent::Closed;
use segment_walk::rows::Rows;
use segment_walk::walk::Node;
use segment_walk::{rows, walk};
use tables::entry;

// The row of block k, whose link is k + 1.
pub fn row(blocks: &[u64], k: u64) -> Row
    ensures { Reads blocks.now (suc k) result }
{
    if k < u64::MAX {
        return block_table::read(blocks, k + 1);
    }
    // no table is so long: past its end all is 0
    Row {
        first: 0,
        length: 0,
        created: 0,
        destroyed: 0,
        owner: 0,
        next: 0,
    }
}

// Whether block k ends at the place or before it.
fn ends_by(blocks: &[u64], k: u64, place: u64) -> bool
    ensures { Decides result (EndsBy blocks.now k place) }
{
    row(blocks, k).ends_by(place)
}

// A block that others are held against: its number, first cell and end.
#[derive(Clone, Copy)]
pub struct Own {
    pub number: u64,
    pub first: u64,
    pub end: u64,
}

impl Own {
    // Block k, as its row says it. An end that passes 2^64, which no sound table has, is cut.
    pub fn new(k: u64, row: Row) -> Own
        ensures { Owned k row result }
    {
        Own {
            number: k,
            first: row.first,
            end: row.end(),
        }
    }

    // Whether the last other block in the rows of a node that starts before the block's end, ends where the block starts or before. A binary search.
    #[tactic(auto, using(crate::proofs::Clearing::run_none))]
    fn run_clear(self, lent: &Closed<'_>, rows: Rows) -> bool
        ensures { RunClear lent.now.blocks.now lent.now.entries.now rows self result }
    {
        let row = rows::lower(lent.entries, rows, self.end);
        if row <= rows.from {
            return true;
        }
        let last = entry::get(lent.entries, (row - 1) as u64, entry::BLOCK);
        if last != self.number {
            return ends_by(lent.blocks, last, self.first);
        }
        if row - 1 <= rows.from {
            return true;
        }
        let other = entry::get(lent.entries, (row - 2) as u64, entry::BLOCK);
        ends_by(lent.blocks, other, self.first)
    }

    // Whether it is so in each node on the way down to the tick. The node's width is halved at each turn: at most 66 turns on any table.
    // No `for` goes over a way down: each node says which is next.
    #[tactic(auto, using(crate::proofs::Clearing::going))]
    pub fn way_clear(self, lent: &Closed<'_>, root: Node, tick: u64) -> bool
        ensures { WayClear lent.now.blocks.now lent.now.nodes.now lent.now.entries.now root tick self result }
    {
        let mut node = root;
        while !walk::absent(node) {
            let rows = rows::rows_of(lent.nodes, lent.entries, node.link);
            if !self.run_clear(lent, rows) {
                return false;
            }
            node = walk::half(lent.nodes, node, tick);
        }
        true
    }

    // Whether the block shares no cell with another one of the nodes above `min` on the way to the tick, from the top on, where no two of a node's blocks share
    // one. The node's width is halved at each turn.
    // It goes down, as the function above.
    #[tactic(auto, using(crate::proofs::Rising::rising))]
    pub fn above_clear(self, lent: &Closed<'_>, top: Node, min: u64, tick: u64) -> bool
        ensures { AboveClear lent.now.blocks.now lent.now.nodes.now lent.now.entries.now top min tick self result }
    {
        let mut node = top;
        while node.min < min {
            if walk::absent(node) {
                return false;
            }
            let rows = rows::rows_of(lent.nodes, lent.entries, node.link);
            if !self.run_clear(lent, rows) {
                return false;
            }
            node = walk::half(lent.nodes, node, tick);
        }
        true
    }
}
