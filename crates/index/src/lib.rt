// The public calls on an index: open, record_op, finalize, block by number, find. Each is total: it takes any slices of any lengths and contents, and
// gives its answer or the first refusal of document 01 whose condition holds, after which nothing has changed.
//
//   specs/Answers   what `block_bytes` gives
//   proofs/Opens, Recording, Finishing, Answering   one step for each return
//   The contracts are the relations of `layout`, by which demand 3 links the calls. The work behind them stands in `index_record`, `index_finish` and
//   `index_read`, without the test of the tables; how a read is added is said in `index_test`.

#![tactic(auto)]

ghost use Rattle.std.specs.Prelude.{◌≡◌, length};
ghost use Rattle.history.specs.Results.{done};
ghost use Rattle.refusals.specs.Numbers.{answer_by};
ghost use Rattle.index_record.specs.Calls.{lent_operation, recorded};
ghost use Rattle.layout.specs.Tables.{tables, held};
ghost use Rattle.layout.specs.Relations.{OpenedBy, RecordedBy, FinishedBy, FoundBy, BlockGivenBy};
ghost use Rattle.index_read.specs.Answers.{counts_given, fields_given};
ghost use Rattle.index.specs.Answers.{BytesGivenBy};

pub use index_read::{Block, Found};
pub use index_record::Operation;
use index_test::State;
use layout::Tables;
use refusals::Refusal;
use segment_table::lent::Closed;
use tables::block;

// The type that the calls on an index belong to. It holds nothing: the state stands in the lent tables.
#[derive(Clone, Copy)]
pub struct Index {}

impl Index {
    // The largest end tick.
    pub const MAX_END_TICK: u64 = tables::block::MAX_END_TICK;

    // Opens an index of a set of kinds with an end tick in the lent tables.
    // They stand one by one, as in all calls that change them: of a struct of `&mut` slices each contract would have to say that every one stays lent.
    pub fn open(
        pieces: &mut [u64],
        blocks: &mut [u64],
        store: &[u8],
        nodes: &mut [u64],
        entries: &mut [u64],
        end_tick: u64,
        kinds: &[u8],
    ) -> Result<(), Refusal>
        ensures { OpenedBy end_tick kinds.now
            (tables pieces.old blocks.old store.now nodes.old entries.old)
            (tables pieces.new blocks.new store.now nodes.new entries.new) (answer_by (λ u. u) result) }
    {
        if end_tick == 0 {
            return Err(Refusal::BadOpening);
        }
        if Self::MAX_END_TICK < end_tick {
            return Err(Refusal::BadOpening);
        }
        let mask = kind_mask::mask_of(kinds);
        if mask == 0 {
            return Err(Refusal::BadOpening);
        }
        tables::zero(pieces);
        tables::zero(blocks);
        tables::zero(nodes);
        tables::zero(entries);
        block_table::set_state(blocks, block::OPEN);
        block_table::set_end(blocks, end_tick);
        block_table::set_kinds(blocks, mask);
        Ok(())
    }
}

// The numbers of a scratch that record does with.
pub const LEAST_SCRATCH: usize = 8;

// Records an operation: a read where every cell is known with its byte, else an update, of which the lowest cell that changes is given. Nothing is written
// to the scratch.
pub fn record_op(
    pieces: &mut [u64],
    blocks: &mut [u64],
    store: &mut [u8],
    nodes: &[u64],
    entries: &[u64],
    scratch: &[u64],
    op: Operation,
) -> Result<Option<u64>, Refusal>
    ensures { RecordedBy (length scratch.now) (lent_operation op.entry)
        (tables pieces.old blocks.old store.old nodes.now entries.now)
        (tables pieces.new blocks.new store.new nodes.now entries.now) (answer_by recorded result) }
{
    if scratch.len() < LEAST_SCRATCH {
        return Err(Refusal::Malformed);
    }
    let lent = Tables {
        pieces,
        blocks,
        store,
        nodes,
        entries,
    };
    let state = index_test::test(lent);
    state.open()?;
    index_record::record_open(pieces, blocks, store, op)
}

// Finishes an index: the pieces become blocks, and the blocks get the trees of their kinds.
pub fn finalize(
    pieces: &mut [u64],
    blocks: &mut [u64],
    store: &[u8],
    nodes: &mut [u64],
    entries: &mut [u64],
) -> Result<(), Refusal>
    ensures { FinishedBy (tables pieces.old blocks.old store.now nodes.old entries.old)
        (tables pieces.new blocks.new store.now nodes.new entries.new) (answer_by (λ _. done) result) }
{
    let lent = Tables {
        pieces,
        blocks,
        store,
        nodes,
        entries,
    };
    index_test::test(lent).open()?;
    index_finish::finish_open(pieces, blocks, nodes, entries)
}

// The block of a number.
pub fn block(lent: Tables, number: u64) -> Result<Block, Refusal>
    ensures { BlockGivenBy (held lent.entry) number (answer_by fields_given result) }
{
    index_test::test(lent).closed()?;
    index_read::block_closed(lent.blocks, number)
}

// The live blocks of a kind whose first cell is in [start, end) at a tick: their numbers go into the lent answer. The window is three numbers here and in the
// other reads, as callers pass them.
pub fn find(
    lent: Tables,
    kind: u8,
    tick: u64,
    start: u64,
    end: u64,
    answer: &mut [u64],
) -> Result<Found, Refusal>
    ensures { FoundBy (held lent.entry) kind tick start end
        answer.old answer.new (answer_by counts_given result) }
{
    index_test::test(lent).closed()?;
    let closed = Closed {
        blocks: lent.blocks,
        nodes: lent.nodes,
        entries: lent.entries,
    };
    index_read::find_closed(&closed, u64::from(kind), tick, start, end, answer)
}

// The bytes of the block of a number, as that part of the store; the empty part where `block` refuses. The tables stand one by one, as the store alone is
// lent for as long as the bytes.
pub fn block_bytes<'a>(
    pieces: &[u64],
    blocks: &[u64],
    store: &'a [u8],
    nodes: &[u64],
    entries: &[u64],
    number: u64,
) -> &'a [u8]
    ensures { BytesGivenBy (tables pieces.now blocks.now store.now nodes.now entries.now) number result.now }
{
    let lent = Tables {
        pieces,
        blocks,
        store,
        nodes,
        entries,
    };
    match block(lent, number) {
        Ok(given) => tables::part(store, given.offset, given.length),
        Err(_) => tables::part(store, 0, 0),
    }
}
