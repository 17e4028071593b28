// Rule 24 of the blocks of an open index, where the rows do not show it: the trees of the blocks are built in the tables that finish builds in, which are
// zeros, are asked, and are taken away again.
ghost use Rattle.segment_test.specs.Test.{lent};
ghost use Rattle.index_finish.specs.Trial.{StandsApart, OrderApart, BlocksApart};

use crate::Head;
use segment_table::lent::{Claim, Closed};
use segment_tree::build::Rows;
use segment_tree::{build, close};

// Whether trees of the blocks stand in the tables and show that no two of them share a cell at a tick.
#[tactic(auto, using(crate::proofs::Trying::asking))]
fn trees_apart(claim: &Claim<'_>) -> bool
    ensures { StandsApart (lent claim.now.tables.blocks.now claim.now.tables.nodes.now claim.now.tables.entries.now)
        claim.now.end claim.now.n result }
{
    segment_test::test_trees(claim) && segment_apart::birth::all_clear(claim)
}

// Whether no two of the n blocks share a cell at a tick, along their order by place, which is taken away again.
#[tactic(auto, using(crate::proofs::Trying::order_tried))]
fn order_apart(blocks: &mut [u64], n: u64) -> bool
    ensures { OrderApart blocks.old n blocks.new result }
{
    ordering::sort(blocks, n);
    let apart = ordering::apart(blocks, n);
    ordering::clear_order(blocks, n);
    apart
}

// Whether no two of the blocks share a cell at a tick. The tables of zeros are zeros again. Only where they have too little room for the trees, so that finish
// is refused in any case, is it along the order of the blocks: n * n / 2 steps for n versions of one cell.
#[tactic(auto, using(crate::proofs::Trying::trying))]
pub fn blocks_apart(blocks: &mut [u64], nodes: &mut [u64], entries: &mut [u64], head: Head) -> bool
    ensures { BlocksApart blocks.old nodes.old entries.old head.end head.count
        blocks.new nodes.new entries.new result }
{
    let Head { end, count } = head;
    let none = [0; 8];
    let rows = Rows {
        blocks,
        n: count,
        pieces: &none,
        m: 0,
        end,
    };
    if build::count_trees(nodes, entries, &rows).is_err() {
        return order_apart(blocks, count);
    }
    close::close_trees(nodes, entries, blocks, count, end);
    let apart = trees_apart(&Claim {
        tables: Closed {
            blocks,
            nodes,
            entries,
        },
        end,
        n: count,
    });
    tables::zero(nodes);
    tables::zero(entries);
    apart
}
