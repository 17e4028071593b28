// The calls of crate `index` after one test: each takes the state that `index_test::test` found and does not test the tables again. It is true as long as
// calls alone have changed them since, and then each call is the public one, whole. Where the state is false the answer means nothing, but every call
// ends after few steps and hands out no bytes outside the store: what its loops count is held against the lengths first.
//
//   specs/Kept      the state is true of the tables; what is held against the lengths
//   specs/Tested    the calls at a state
//   specs/Law       where states come from
//   proofs/Keeping, Recording, Reading   one step for each return
//   proofs/Closing  the state after finish

#![tactic(auto)]

ghost use Rattle.std.specs.Prelude.{◌≡◌, length};
ghost use Rattle.lists.specs.Tests.{Decides};
ghost use Rattle.refusals.specs.Numbers.{answer_by};
ghost use Rattle.index_record.specs.Calls.{lent_operation, recorded};
ghost use Rattle.index_read.specs.Answers.{counts_given, fields_given};
ghost use Rattle.index_tested.specs.Kept.{BlocksFit, CountsFit};
ghost use Rattle.index_tested.specs.Tested.{RecordedTested, FoundTested, HeldInside, BlockTested, BytesTested};
ghost use Rattle.index_tested.specs.Law.{TestKeeps, FinishCloses};

use index::{Block, Found, Operation};
use index_test::State;
use refusals::Refusal;
use segment_table::lent::Closed;
use tables::{block, piece};

// Whether the block table has the rows that its head counts: loops run to that count.
#[tactic(auto, using(crate::proofs::Keeping::counting))]
pub fn blocks_fit(blocks: &[u64]) -> bool
    ensures { Decides result (BlocksFit blocks.now) }
{
    block_table::count(blocks) <= tables::rows(blocks.len(), block::HEAD)
}

// Whether both tables have the rows that their heads count.
#[tactic(auto, using(crate::proofs::Keeping::counting))]
fn counts_fit(pieces: &[u64], blocks: &[u64]) -> bool
    ensures { Decides result (CountsFit pieces.now blocks.now) }
{
    if !blocks_fit(blocks) {
        return false;
    }
    tables::get(pieces, 0, piece::COUNT) <= tables::rows(pieces.len(), piece::HEAD)
}

// Records an operation. The tables stand one by one, as in `index`.
pub fn record_tested(
    state: State,
    pieces: &mut [u64],
    blocks: &mut [u64],
    store: &mut [u8],
    scratch: &[u64],
    op: Operation,
) -> Result<Option<u64>, Refusal>
    ensures { RecordedTested state pieces.old blocks.old store.old pieces.new blocks.new store.new
        (length scratch.now) (lent_operation op.entry) (answer_by recorded result) }
{
    if scratch.len() < index::LEAST_SCRATCH {
        return Err(Refusal::Malformed);
    }
    state.open()?;
    if !counts_fit(pieces, blocks) {
        return Err(Refusal::Malformed);
    }
    index_record::record_open(pieces, blocks, store, op)
}

// The live blocks of a kind whose first cell is in [start, end) at a tick.
pub fn find_tested(
    state: State,
    closed: &Closed<'_>,
    kind: u8,
    tick: u64,
    start: u64,
    end: u64,
    answer: &mut [u64],
) -> Result<Found, Refusal>
    ensures { FoundTested state closed.now.blocks.now closed.now.nodes.now closed.now.entries.now kind tick start end answer.old answer.new (answer_by counts_given result) }
{
    state.closed()?;
    index_read::find_closed(closed, u64::from(kind), tick, start, end, answer)
}

// A block whose bytes lie in the store; any other is refused 2.
fn in_store(given: Block, store: &[u8]) -> Result<Block, Refusal>
    ensures { HeldInside given (length store.now) result }
{
    let room = store.len() as u64;
    if room < given.length {
        return Err(Refusal::Malformed);
    }
    if room - given.length < given.offset {
        return Err(Refusal::Malformed);
    }
    Ok(given)
}

// The block of a number.
pub fn block_tested(
    state: State,
    blocks: &[u64],
    store: &[u8],
    number: u64,
) -> Result<Block, Refusal>
    ensures { BlockTested state blocks.now store.now number (answer_by fields_given result) }
{
    state.closed()?;
    let given = index_read::block_closed(blocks, number)?;
    in_store(given, store)
}

// The bytes of the block of a number, as that part of the store; the empty part where `block_tested` refuses.
pub fn block_bytes_tested<'a>(
    state: State,
    blocks: &[u64],
    store: &'a [u8],
    number: u64,
) -> &'a [u8]
    ensures { BytesTested state blocks.now store.now number result.now }
{
    match block_tested(state, blocks, store, number) {
        Ok(given) => tables::part(store, given.offset, given.length),
        Err(_) => tables::part(store, 0, 0),
    }
}

// What the test finds is true of the tables.
#[tactic(auto, using(crate::proofs::Keeping::test_keeps))]
pub fn test_keeps()
    ensures { TestKeeps }
{}

// An accepted finish of an open index leaves a closed one.
#[tactic(auto, using(crate::proofs::Closing::finish_closes))]
pub fn finish_closes()
    ensures { FinishCloses }
{}
