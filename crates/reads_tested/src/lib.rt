// Touching, next, last, read cells, write, clock and info after one test: each takes the state that `index_test::test` found and does not test the tables again
// (crate `index_tested`). Where the state is false they end after few steps too: ways down are at most 66 long, no node on the way paints a cell twice, and
// write goes over no more blocks than the table has rows and puts a byte for each node.
//
//   specs/Tested       the calls at a state
//   proofs/Answering   one step for each return

#![tactic(auto)]

ghost use Rattle.touching_read.specs.Answers.{near_told};
ghost use Rattle.refusals.specs.Numbers.{answer_by};
ghost use Rattle.info.specs.Answers.{summary_given};
ghost use Rattle.reads_tested.specs.Tested.{TouchedTested, NearTested, CellsTested, WrittenTested, ClockTested, InfoTested};

use index_test::State;
use info::Summary;
use refusals::Refusal;
use segment_near::Side;
use segment_table::lent::Closed;

// The live blocks of a kind that hold a cell of [start, end) at a tick, ascending by first cell.
pub fn touching_tested(
    state: State,
    closed: &Closed<'_>,
    kind: u8,
    tick: u64,
    start: u64,
    end: u64,
    answer: &mut [u64],
) -> Result<u64, Refusal>
    ensures { TouchedTested state closed.now.blocks.now closed.now.nodes.now closed.now.entries.now kind tick start end
        answer.old answer.new (answer_by (λ n. n) result) }
{
    state.closed()?;
    touching_read::touching_closed(closed, u64::from(kind), tick, start, end, answer)
}

// The live block of a kind next to a cell on one side: the first that starts at it or after it, or the last whose cells are all below it.
pub fn near_tested(
    state: State,
    closed: &Closed<'_>,
    side: Side,
    kind: u8,
    tick: u64,
    cell: u64,
) -> Result<Option<u64>, Refusal>
    ensures { NearTested side state closed.now.blocks.now closed.now.nodes.now closed.now.entries.now kind tick cell (answer_by near_told result) }
{
    state.closed()?;
    touching_read::near_closed(closed, side, u64::from(kind), tick, cell)
}

// The cells of [start, end) of a kind at a tick, into two lent slices.
pub fn cells_tested(
    state: State,
    closed: &Closed<'_>,
    store: &[u8],
    kind: u8,
    tick: u64,
    start: u64,
    end: u64,
    bytes: &mut [u8],
    held: &mut [u8],
) -> Result<(), Refusal>
    ensures { CellsTested state closed.now.blocks.now store.now closed.now.nodes.now closed.now.entries.now kind tick start end
        bytes.old bytes.new held.old held.new (answer_by (λ _. tt) result) }
{
    state.closed()?;
    cells_read::read_closed(
        closed,
        store,
        u64::from(kind),
        tick,
        start,
        end,
        bytes,
        held,
    )
}

// Writes the file of a closed index from the slice's start on. Its loops run to the count of blocks.
pub fn write_tested(
    state: State,
    closed: &Closed<'_>,
    store: &[u8],
    out: &mut [u8],
) -> Result<u64, Refusal>
    ensures { WrittenTested state closed.now.blocks.now store.now closed.now.nodes.now closed.now.entries.now
        out.old out.new (answer_by (λ n. n) result) }
{
    state.closed()?;
    if !index_tested::blocks_fit(closed.blocks) {
        return Err(Refusal::Malformed);
    }
    file_write::write_closed(closed, store, out)
}

// The clock label of a cell, of an open or a closed index.
pub fn clock_tested(state: State, blocks: &[u64], cell: u64) -> Result<u64, Refusal>
    ensures { ClockTested state blocks.now cell (answer_by (λ n. n) result) }
{
    state.formed()?;
    Ok(clock::clock_formed(blocks, cell))
}

// What stands in an index, open or closed.
pub fn info_tested(
    state: State,
    pieces: &[u64],
    blocks: &[u64],
    nodes: &[u64],
    entries: &[u64],
) -> Result<Summary, Refusal>
    ensures { InfoTested state pieces.now blocks.now nodes.now entries.now (answer_by summary_given result) }
{
    state.formed()?;
    Ok(info::info_formed(pieces, blocks, nodes, entries))
}
