// Rule 24 of the blocks in a closed index by theorem H (apart_laws), on the walk that tests the trees: blocks of a kind share no cell if those that are destroyed
// at one tick share none, and the cells of each are created anew then. The walk takes the right half first, so that what is created at a node's max is counted when
// the node is looked at; a block that no slot holds is held against all that are live at the tick before. Those that are destroyed at one tick stand in nodes that
// end then, one below the other: each is held against the blocks of the nodes above its own, of which there are few. Each entry is looked at once, in whatever
// order the blocks were recorded.
//
//   run             one block, and a node's run
//   specs/Rows      the rows as blocks of one kind
//   specs/Tree      what the walk says of a block, of a node's run and of a tree
//   specs/Handed    what is said of the tables
//   proofs/Rows     block k is what its row says
//   proofs/Owing    one block; Holding: a node's run; Halves: a node and its halves
//   proofs/Showing  the walk shows rule 24; Seeing: of all kinds

#![tactic(auto)]

ghost use Rattle.std.specs.Prelude.{◌<◌};
ghost use Rattle.segment_table.specs.Closed.{first_at, count_at};
ghost use Rattle.segment_test.specs.Test.{lent};
ghost use Rattle.segment_handed.specs.Tree.{RunHeld, NodeStood, TreeStood, TreeHeld};
ghost use Rattle.segment_handed.specs.Handed.{KindSeen, Seen};

mod run;

use run::{Spine, hold_run};
use segment_test::head;
use segment_test::place::Place;
use segment_test::read::Tested;
use segment_test::walk::test_row;
use segment_walk::walk;
use segment_walk::walk::Node;
use slots::Slots;
use tables::node;

// Whether a node is right and its run is held; what is created at its min is counted in `born`.
#[tactic(auto, using(crate::proofs::Halves::node_standing))]
fn hold_node(t: &Tested<'_>, spine: &Spine, node: Node, after: &Slots, born: &mut Slots) -> bool
    ensures stands { NodeStood t.now.blocks.now t.now.nodes.now t.now.entries.now t.now.n spine.now node result }
    ensures held { RunHeld t.now.blocks.now t.now.nodes.now t.now.entries.now spine.now.root spine.now.top (first_at t.now.nodes.now node.link) (count_at t.now.nodes.now node.link) node.min node.max after.now born.old born.new result }
{
    if node.max <= node.min {
        return false;
    }
    let at = Place {
        kind: spine.kind,
        min: node.min,
        max: node.max,
        from: spine.parent.min,
        to: spine.parent.max,
    };
    if !test_row(t, node.link, at) {
        return false;
    }
    let first = t.node(node.link, node::FIRST);
    let many = t.node(node.link, node::ENTRIES);
    head::inside(t.entries, first, many) && hold_run(t, spine, at, first, many, after, born)
}

// How many of the rows of nodes are left when each node of the tree at this one was tested, held and took one; none where something is wrong or owed. The right
// half first: its slots for mid are those that the left half is held against. The right half has the same top, the left half is its own. At most 66 frames
// deep, as a node's width is halved.
#[tactic(auto, using(crate::proofs::Halves::tree_hole))]
fn hold_tree(
    t: &Tested<'_>,
    spine: &Spine,
    node: Node,
    after: &Slots,
    born: &mut Slots,
    rows: u64,
) -> Option<u64>
    ensures stood { TreeStood t.now.blocks.now t.now.nodes.now t.now.entries.now t.now.n spine.now node rows result }
    ensures held { TreeHeld t.now.blocks.now t.now.nodes.now t.now.entries.now spine.now.root spine.now.top node after.now born.old born.new result }
{
    if node.link == 0 {
        return Some(rows);
    }
    if rows == 0 || !hold_node(t, spine, node, after, born) {
        return None;
    }
    if node.max - node.min <= 1 {
        return Some(rows - 1);
    }
    let mid = node.min + (node.max - node.min) / 2;
    let upper = Node {
        link: t.node(node.link, node::RIGHT),
        min: mid,
        max: node.max,
    };
    let lower = Node {
        link: t.node(node.link, node::LEFT),
        min: node.min,
        max: mid,
    };
    let mut below = Spine {
        parent: node,
        ..*spine
    };
    let mut mids = Slots::unused();
    let rest = hold_tree(t, &below, upper, after, &mut mids, rows - 1)?;
    below.top = lower;
    hold_tree(t, &below, lower, &mids, born, rest)
}

// How many of the node rows are left when the tree of a kind was tested, and its blocks were seen to share no cell at a tick.
#[tactic(auto, using(crate::proofs::Seeing::kind_seen))]
fn hold_kind(t: &Tested<'_>, kind: u64, end: u64, rows: u64) -> Option<u64>
    ensures { KindSeen (lent t.now.blocks.now t.now.nodes.now t.now.entries.now) t.now.n kind end rows result }
{
    let root = walk::root(t.nodes, kind, end);
    let parent = Node {
        link: 0,
        min: 0,
        max: 0,
    };
    let spine = Spine {
        kind,
        root,
        top: root,
        parent,
    };
    let none = Slots::unused();
    let mut born = none;
    hold_tree(t, &spine, root, &none, &mut born, rows)
}

// Whether a tree stands from the root of each kind on, they take every row in use, and the blocks of each kind are seen to share no cell at a tick. If not, nothing
// is said. Linear in nodes and entries, but for blocks that no slot holds.
pub fn seen(t: &Tested<'_>, end: u64) -> bool
    ensures { Seen (lent t.now.blocks.now t.now.nodes.now t.now.entries.now) t.now.n end result }
{
    let mut rows = t.used();
    for kind in 0..node::COUNT as u64 {
        let Some(left) = hold_kind(t, kind, end, rows) else {
            return false;
        };
        rows = left;
    }
    rows == 0
}
