// Touching, next and last of a closed index, without the test of its tables: for callers that have tested them. Live blocks share no cell, so of those
// that start before a place only the last can reach over it.
//
//   specs/Answers     what a neighbour means
//   specs/Reads       what each call hands out of the ledger that the tables stand for
//   proofs/Reaching   where a block ends, and the live one that reaches over a place
//   proofs/Starting   so touching is what starts in the window, behind that one; Listing: the returns of `touching_closed`
//   proofs/Nearing    the returns of `near_closed`

#![tactic(auto)]

ghost use Rattle.refusals.specs.Numbers.{answer_by};
ghost use Rattle.touching_read.specs.Answers.{near_told};
ghost use Rattle.touching_read.specs.Reads.{EndOf, OverAt, TouchingClosed, NearClosed};

use refusals::Refusal;
use segment_near::{Neighbour, Side};
use segment_table::lent::Closed;
use segment_walk::walk::Query;
use tables::{block, kinds};

// The place behind the last cell of a block.
fn end_of(blocks: &[u64], number: u64) -> u64
    ensures { EndOf blocks.now number result }
{
    if block_table::count(blocks) <= number {
        return 0;
    }
    let link = number + 1;
    let first = block::get(blocks, link, block::FIRST);
    first.saturating_add(block::get(blocks, link, block::LENGTH))
}

// The block of a kind that is live at the tick, starts before a place and reaches over it.
fn over(closed: &Closed, kind: u64, tick: u64, place: u64) -> Option<Neighbour>
    ensures { OverAt closed.now.blocks.now closed.now.nodes.now closed.now.entries.now kind tick place result }
{
    let tree = closed.tree(kind);
    let before = segment_near::nearest_live(&tree, tick, Side::Before, place)?;
    if end_of(closed.blocks, before.number) <= place {
        return None;
    }
    Some(before)
}

// The live blocks of a kind that hold a cell of [start, end), ascending: 25, 14, 15 and 16 in their order. The one that reaches over the start comes first; its
// place is kept free until all the others have gone into the answer. An empty window has no cell to hold.
pub fn touching_closed(
    closed: &Closed,
    kind: u64,
    tick: u64,
    start: u64,
    end: u64,
    answer: &mut [u64],
) -> Result<u64, Refusal>
    ensures { TouchingClosed closed.now.blocks.now closed.now.nodes.now closed.now.entries.now kind tick start end
        answer.old answer.new (answer_by (λ n. n) result) }
{
    if !kinds::has(block_table::kinds(closed.blocks), kind) {
        return Err(Refusal::KindNotOpened);
    }
    let tree = closed.tree(kind);
    if tree.end <= tick {
        return Err(Refusal::NoSuchTick);
    }
    if end < start {
        return Err(Refusal::OutOfRange);
    }
    if start == end {
        return Ok(0);
    }
    let query = Query {
        tick,
        start,
        stop: end,
    };
    let before = over(closed, kind, tick, start);
    let at = usize::from(before.is_some());
    let listed = segment_touch::starting(&tree, query, answer, at);
    let Some(count) = listed else {
        return Err(Refusal::ResultTooLong);
    };
    if let Some(block) = before {
        tables::put(answer, 0, 0, block.number);
    }
    Ok(count as u64)
}

// The neighbour of a cell of a kind, or 25 or 14: from it, the first live block that starts at the cell or after it; before it, the last one whose cells are
// all below the cell. Where a block reaches over the cell that is the one before it.
#[tactic(auto, using(crate::proofs::Nearing::nearing))]
pub fn near_closed(
    closed: &Closed,
    side: Side,
    kind: u64,
    tick: u64,
    cell: u64,
) -> Result<Option<u64>, Refusal>
    ensures { NearClosed side closed.now.blocks.now closed.now.nodes.now closed.now.entries.now kind tick cell (answer_by near_told result) }
{
    if !kinds::has(block_table::kinds(closed.blocks), kind) {
        return Err(Refusal::KindNotOpened);
    }
    let tree = closed.tree(kind);
    if tree.end <= tick {
        return Err(Refusal::NoSuchTick);
    }
    let near = segment_near::nearest_live(&tree, tick, side, cell);
    let Some(block) = near else {
        return Ok(None);
    };
    match side {
        Side::From => Ok(Some(block.number)),
        Side::Before if end_of(closed.blocks, block.number) <= cell => Ok(Some(block.number)),
        Side::Before => {
            let earlier = segment_near::nearest_live(&tree, tick, Side::Before, block.first);
            match earlier {
                Some(one) => Ok(Some(one.number)),
                None => Ok(None),
            }
        }
    }
}
