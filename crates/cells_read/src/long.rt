// Cells of a closed index from the front of a long window on, run by run: free cells up to a block, then that block's. Each run takes a search of the tree, and
// each of its cells is written once. What is left of the window where the runs are short is for crate `cells_paint`.
ghost use Rattle.std.specs.Prelude.{◌≤◌};
ghost use Rattle.cells_paint.specs.Painting.{Slices};
ghost use Rattle.cells_read.specs.Long.{Freed, Front, Reached, RunShown};

use segment_near::Side;
use segment_table::lent::Closed;
use segment_walk::walk;

// A window of fewer cells is not begun here.
const WINDOW: u64 = 8_192;

// So many cells pay for each node that the search of a run goes through.
const NODE: u64 = 1_024;

// No way has more nodes.
const DEEPEST: u64 = 66;

// One cell of so many of the window is paid ahead, so that a few short runs in front of long ones do not end the walk.
const AHEAD: u64 = 8;

// How many nodes stand on the way to a tick: what a search costs. Time alone rests on it.
fn nodes_to(closed: &Closed, kind: u64, tick: u64) -> u64
    ensures { result ≤ DEEPEST }
{
    let mut node = walk::root(closed.nodes, kind, block_table::end(closed.blocks));
    for passed in 0..DEEPEST {
        if walk::absent(node) {
            return passed;
        }
        node = walk::half(closed.nodes, node, tick);
    }
    DEEPEST
}

// Writes zeros for the cells of [place, past).
fn free(start: u64, place: u64, past: u64, end: u64, bytes: &mut [u8], held: &mut [u8])
    requires window { Slices start end bytes.now held.now }
    requires begun { start ≤ place }
    requires onward { place ≤ past }
    requires inside { past ≤ end }
    ensures { Freed start place past bytes.old bytes.new held.old held.new }
{
    let from = (place - start) as usize;
    let to = (past - start) as usize;
    bytes[from..to].fill(0);
    held[from..to].fill(0);
}

// Shows the cells of the block that starts before the window and reaches into it, if there is one. Gives the place behind them.
fn show_over(
    closed: &Closed,
    store: &[u8],
    kind: u64,
    tick: u64,
    start: u64,
    end: u64,
    bytes: &mut [u8],
    held: &mut [u8],
) -> u64
    requires window { Slices start end bytes.now held.now }
    requires inside { start ≤ end }
    ensures { Reached closed.now.blocks.now store.now closed.now.nodes.now closed.now.entries.now kind tick start end result bytes.new held.new }
{
    let tree = closed.tree(kind);
    let before = segment_near::nearest_live(&tree, tick, Side::Before, start);
    let Some(block) = before else {
        return start;
    };
    cells_paint::paint(
        closed.blocks,
        store,
        block.number,
        start,
        start,
        end,
        bytes,
        held,
    )
}

// Shows the cells from a place on that no block before it reaches over: free ones up to the next block, then that block's. Gives the place behind them.
fn show_run(
    closed: &Closed,
    store: &[u8],
    kind: u64,
    tick: u64,
    start: u64,
    place: u64,
    end: u64,
    bytes: &mut [u8],
    held: &mut [u8],
) -> u64
    requires window { Slices start end bytes.now held.now }
    requires begun { start ≤ place }
    requires inside { place ≤ end }
    ensures { RunShown closed.now.blocks.now store.now closed.now.nodes.now closed.now.entries.now kind tick start place end result
        bytes.old bytes.new held.old held.new }
{
    let tree = closed.tree(kind);
    let next = segment_near::nearest_live(&tree, tick, Side::From, place);
    let Some(block) = next else {
        free(start, place, end, end, bytes, held);
        return end;
    };
    let until = block.first.max(place).min(end);
    free(start, place, until, end, bytes, held);
    cells_paint::paint(
        closed.blocks,
        store,
        block.number,
        start,
        until,
        end,
        bytes,
        held,
    )
}

// Shows the cells of a long window from its start on, as long as the runs pay for their searches. Gives the place behind them.
pub fn show_front(
    closed: &Closed,
    store: &[u8],
    kind: u64,
    tick: u64,
    start: u64,
    end: u64,
    bytes: &mut [u8],
    held: &mut [u8],
) -> u64
    requires window { Slices start end bytes.now held.now }
    requires inside { start ≤ end }
    ensures { Front closed.now.blocks.now store.now closed.now.nodes.now closed.now.entries.now kind tick start end result bytes.new held.new }
{
    if end - start < WINDOW {
        return start;
    }
    let mut place = show_over(closed, store, kind, tick, start, end, bytes, held);
    let run = NODE * nodes_to(closed, kind, tick).max(2);
    let mut paid = run.max((end - start) / AHEAD);
    while run <= paid && place < end {
        let past = show_run(closed, store, kind, tick, start, place, end, bytes, held);
        paid = (paid - run).saturating_add(past - place);
        place = past;
    }
    place
}
