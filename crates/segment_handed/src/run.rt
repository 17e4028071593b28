// One block, and the run of a node: each entry is tested, and its block is held.
ghost use Rattle.std.specs.Prelude.{suc, ◌<◌};
ghost use Rattle.block_table.specs.RowRead.{Reads};
ghost use Rattle.segment_test.specs.Parts.{Inside};
ghost use Rattle.segment_handed.specs.Tree.{Owed, BlockHeld, RunStood, RunHeld};

use block_table::Row;
use segment_clear::Own;
use segment_table::lent::Closed;
use segment_test::place::Place;
use segment_test::read::Tested;
use segment_test::run::{follows, test_entry};
use segment_walk::walk::Node;
use slots::Slots;
use tables::{block, entry};

// Where a node [min, max) stands in the tree of a kind: the root, the highest node that ends where it does, and the node right above, an empty one above the root.
#[derive(Clone, Copy)]
pub struct Spine {
    pub kind: u64,
    pub root: Node,
    pub top: Node,
    pub parent: Node,
}

// The row of block k.
fn read(t: &Tested<'_>, k: u64) -> Row
    requires { k < t.now.n }
    ensures { Reads t.now.blocks.now (suc k) result }
{
    Row {
        first: t.block(k, block::FIRST),
        length: t.block(k, block::LENGTH),
        created: t.block(k, block::CREATED),
        destroyed: t.block(k, block::DESTROYED),
        owner: t.block(k, block::OWNER),
        next: t.block(k, block::NEXT),
    }
}

// Whether nothing is owed for a block of the node that is destroyed at max: it is clear of the nodes above, from the top on, that end then too, and lies in a full
// slot, or is clear of all that are live at the tick before. Nothing more is owed at the end tick. `after` are the slots for max. It stays a call, so that the loop
// over a run has the registers for itself.
#[tactic(auto, using(crate::proofs::Owing::owing))]
#[inline(never)]
fn is_paid(t: &Tested<'_>, spine: &Spine, min: u64, max: u64, after: &Slots, own: Own) -> bool
    requires { 0 < max }
    ensures { Owed t.now.blocks.now t.now.nodes.now t.now.entries.now spine.now.root spine.now.top min max own after.now result }
{
    let lent = Closed {
        blocks: t.blocks,
        nodes: t.nodes,
        entries: t.entries,
    };
    own.above_clear(&lent, spine.top, min, max - 1)
        && (spine.root.max <= max
            || after.hold(own.first, own.end)
            || own.way_clear(&lent, spine.root, max - 1))
}

// Whether a block in the run of the node is held: if it is destroyed at max, nothing may be owed for it; if it is created at min, it is counted in the slots for min.
fn hold_block(
    t: &Tested<'_>,
    spine: &Spine,
    at: Place,
    after: &Slots,
    born: &mut Slots,
    k: u64,
    row: Row,
) -> bool
    requires { 0 < at.max }
    ensures { BlockHeld t.now.blocks.now t.now.nodes.now t.now.entries.now spine.now.root spine.now.top at.min at.max k row after.now born.old born.new result }
{
    let own = Own::new(k, row);
    if row.destroyed == at.max && !is_paid(t, spine, at.min, at.max, after, own) {
        return false;
    }
    born.count(at.min, row.created, own.first, own.end);
    true
}

// Whether each entry of a node's run is right, its block is held, and each block starts where the one before it ends, or behind. It stays a call, so that its
// loop has the registers for itself.
#[inline(never)]
pub fn hold_run(
    t: &Tested<'_>,
    spine: &Spine,
    at: Place,
    first: u64,
    many: u64,
    after: &Slots,
    born: &mut Slots,
) -> bool
    requires inside { Inside t.now.entries.now first many }
    requires some { 0 < at.max }
    ensures stood { RunStood t.now.blocks.now t.now.entries.now t.now.n at.kind first many at.min at.max at.from at.to result }
    ensures held { RunHeld t.now.blocks.now t.now.nodes.now t.now.entries.now spine.now.root spine.now.top first many at.min at.max after.now born.old born.new result }
{
    let mut place = 0;
    for j in 0..many {
        if !test_entry(t, at, first + j) || !follows(t, first, j) {
            return false;
        }
        let k = t.entry(first + j, entry::BLOCK);
        let row = read(t, k);
        if row.first < place {
            return false;
        }
        place = row.end();
        if !hold_block(t, spine, at, after, born, k, row) {
            return false;
        }
    }
    true
}
