// The reads of a closed index, without the test of its tables: for callers that have tested them.
//
//   specs/Answers   what find and block hand out in the words of layout
//   specs/Reads     what each call hands out of the ledger that the tables stand for
//   proofs/Giving   one step for each return of `block_closed`
//   proofs/Finding  and of `find_closed`

#![tactic(auto)]

ghost use Rattle.refusals.specs.Numbers.{answer_by};
ghost use Rattle.index_read.specs.Answers.{counts_given, fields_given};
ghost use Rattle.index_read.specs.Reads.{BlockClosed, FindClosed};

use refusals::Refusal;
use segment_table::lent::Closed;
use segment_walk::walk::Query;
use tables::{block, kinds};

// What find gives: how many block numbers it lists, and how many nodes it visited.
#[derive(Clone, Copy)]
pub struct Found {
    pub count: u64,
    pub visited: u64,
}

// What block by number gives: the block's fields; its bytes are the store's part of that length at the offset.
#[derive(Clone, Copy)]
pub struct Block {
    pub kind: u64,
    pub first: u64,
    pub length: u64,
    pub created: u64,
    pub destroyed: u64,
    pub offset: u64,
}

// The block of a number: 15 where there is none.
pub fn block_closed(blocks: &[u64], number: u64) -> Result<Block, Refusal>
    ensures { BlockClosed blocks.now number (answer_by fields_given result) }
{
    if block_table::count(blocks) <= number {
        return Err(Refusal::OutOfRange);
    }
    let link = number + 1;
    Ok(Block {
        kind: block::get(blocks, link, block::OWNER),
        first: block::get(blocks, link, block::FIRST),
        length: block::get(blocks, link, block::LENGTH),
        created: block::get(blocks, link, block::CREATED),
        destroyed: block::get(blocks, link, block::DESTROYED),
        offset: block::get(blocks, link, block::OFFSET),
    })
}

// The live blocks of a kind whose first cell is in [start, end): 25, 14, 15 and 16 in their order.
pub fn find_closed(
    closed: &Closed,
    kind: u64,
    tick: u64,
    start: u64,
    end: u64,
    answer: &mut [u64],
) -> Result<Found, Refusal>
    ensures { FindClosed closed.now.blocks.now closed.now.nodes.now closed.now.entries.now kind tick start end
        answer.old answer.new (answer_by counts_given result) }
{
    if !kinds::has(block_table::kinds(closed.blocks), kind) {
        return Err(Refusal::KindNotOpened);
    }
    let tree = closed.tree(kind);
    if tree.end <= tick {
        return Err(Refusal::NoSuchTick);
    }
    if end < start {
        return Err(Refusal::OutOfRange);
    }
    let query = Query {
        tick,
        start,
        stop: end,
    };
    match segment_find::find(&tree, query, answer) {
        Some(listed) => Ok(Found {
            count: listed.count as u64,
            visited: listed.visited as u64,
        }),
        None => Err(Refusal::ResultTooLong),
    }
}
