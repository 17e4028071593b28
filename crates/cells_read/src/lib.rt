// Read cells of a closed index, without the test of its tables: for callers that have tested them. The refusals, then the long runs at the front of a long
// window, and what is left by crate `cells_paint`.
//
//   specs/Answers    what is handed out
//   proofs/Showing   what is painted are the ledger's cells, and so is what runs show
//   proofs/Reading   25, 14, 15 and 16
//   long             specs/Long   proofs/Running   run by run

#![tactic(auto)]

ghost use Rattle.refusals.specs.Numbers.{answer_by};
ghost use Rattle.cells_read.specs.Answers.{ReadClosed};

use refusals::Refusal;
use segment_table::lent::Closed;
use tables::kinds;

mod long;

// The cells of [start, end) of a kind at a tick: 25, 14, 15 and 16 in their order. Both slices are filled, or nothing has changed.
pub fn read_closed(
    closed: &Closed,
    store: &[u8],
    kind: u64,
    tick: u64,
    start: u64,
    end: u64,
    bytes: &mut [u8],
    held: &mut [u8],
) -> Result<(), Refusal>
    ensures { ReadClosed closed.now.blocks.now store.now closed.now.nodes.now closed.now.entries.now kind tick start end
        bytes.old bytes.new held.old held.new (answer_by (λ _. tt) result) }
{
    if !kinds::has(block_table::kinds(closed.blocks), kind) {
        return Err(Refusal::KindNotOpened);
    }
    if block_table::end(closed.blocks) <= tick {
        return Err(Refusal::NoSuchTick);
    }
    if end < start {
        return Err(Refusal::OutOfRange);
    }
    let many = (end - start) as usize;
    if bytes.len() < many || held.len() < many {
        return Err(Refusal::ResultTooLong);
    }
    let bytes = &mut bytes[..many];
    let held = &mut held[..many];
    let place = long::show_front(closed, store, kind, tick, start, end, bytes, held);
    let done = (place - start) as usize;
    let start = place;
    let bytes = &mut bytes[done..];
    let held = &mut held[done..];
    cells_paint::show(closed, store, kind, tick, start, end, bytes, held);
    Ok(())
}
