// Read cells: for a kind, a tick and [start, end) the byte of each cell, and 1 where a live block holds it; 0 and 0 where none does.
//
//   specs/Answers   the contract
//   specs/Law       the history is shown (proofs/History): a theorem of crate demand, which links it to lists of calls
//   lib             proofs/Answering   2 and 4; the rest stands in cells_read

#![tactic(auto)]

ghost use Rattle.layout.specs.Tables.{held as Tables·held};
ghost use Rattle.refusals.specs.Numbers.{answer_by};
ghost use Rattle.cells.specs.Answers.{CellsReadBy};

use layout::Tables;
use refusals::Refusal;
use segment_table::lent::Closed;

// The cells of [start, end) of a kind at a tick, into two lent slices.
pub fn read_cells(
    lent: Tables,
    kind: u8,
    tick: u64,
    start: u64,
    end: u64,
    bytes: &mut [u8],
    held: &mut [u8],
) -> Result<(), Refusal>
    ensures { CellsReadBy (Tables·held lent.entry) kind tick start end
        bytes.old bytes.new held.old held.new (answer_by (λ _. tt) result) }
{
    index_test::test(lent).closed()?;
    let closed = Closed {
        blocks: lent.blocks,
        nodes: lent.nodes,
        entries: lent.entries,
    };
    cells_read::read_closed(
        &closed,
        lent.store,
        u64::from(kind),
        tick,
        start,
        end,
        bytes,
        held,
    )
}
