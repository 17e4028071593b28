// Every node of the trees, from each kind's root down by halves. A row's kind, min and max name its only place, so a walk meets no row twice, whatever the links
// are.
ghost use Rattle.std.specs.Prelude.{◌≤◌};
ghost use Rattle.lists.specs.Tests.{Decides};
ghost use Rattle.segment_table.specs.Closed.{nodes_used};
ghost use Rattle.segment_test.specs.Test.{lent};
ghost use Rattle.segment_test.specs.Parts.{Bare, RowStands, NodeStands, Walked, AllRows};

use crate::place::Place;
use crate::read::Tested;
use crate::{head, run};
use tables::node;

// Whether the node at a link has no half. Constant time.
fn bare(t: &Tested<'_>, link: u64) -> bool
    requires { link ≤ nodes_used t.now.nodes.now }
    ensures { Decides result (Bare t.now.nodes.now link) }
{
    t.node(link, node::LEFT) == 0 && t.node(link, node::RIGHT) == 0
}

// Whether the row of a link is in use and holds the node of the kind; one of width 1 has no halves. Constant time.
pub fn test_row(t: &Tested<'_>, link: u64, at: Place) -> bool
    ensures { Decides result (RowStands t.now.nodes.now at.kind link at.min at.max) }
{
    link != 0
        && link <= t.used()
        && t.node(link, node::MIN) == at.min
        && t.node(link, node::MAX) == at.max
        && t.node(link, node::KIND) == at.kind
        && (1 < at.max - at.min || bare(t, link))
}

// Whether the row of a link and its run of entries are right for the node below the node above. Linear in the run.
fn test_node(t: &Tested<'_>, link: u64, at: Place) -> bool
    ensures { Decides result (NodeStands (lent t.now.blocks.now t.now.nodes.now t.now.entries.now) t.now.n at.kind link at.min at.max at.from at.to) }
{
    if !test_row(t, link, at) {
        return false;
    }
    let first = t.node(link, node::FIRST);
    let many = t.node(link, node::ENTRIES);
    head::inside(t.entries, first, many) && run::test_run(t, at, first, many)
}

// What is left of a budget of node rows after every node at or below a link took one; none where a node is wrong, or there are more nodes.
// Linear in the rows and entries met; at most 64 frames deep up to the largest end tick, 2^63.
#[tactic(auto, using(crate::proofs::Walking::walking))]
fn walk(t: &Tested<'_>, link: u64, at: Place, budget: u64) -> Option<u64>
    ensures { Walked (lent t.now.blocks.now t.now.nodes.now t.now.entries.now) t.now.n at.kind link at.min at.max at.from at.to budget result }
{
    if link == 0 {
        return Some(budget);
    }
    if budget == 0 || !test_node(t, link, at) {
        return None;
    }
    let Place { kind, min, max, .. } = at;
    if max - min <= 1 {
        return Some(budget - 1);
    }
    let mid = min + (max - min) / 2;
    let lower = Place {
        kind,
        min,
        max: mid,
        from: min,
        to: max,
    };
    let upper = Place {
        kind,
        min: mid,
        max,
        from: min,
        to: max,
    };
    let rest = walk(t, t.node(link, node::LEFT), lower, budget - 1)?;
    walk(t, t.node(link, node::RIGHT), upper, rest)
}

// Whether a tree stands from the root of each kind on, and they take every row in use. Linear in nodes and entries.
pub fn test_nodes(t: &Tested<'_>, end: u64) -> bool
    ensures { Decides result (AllRows (lent t.now.blocks.now t.now.nodes.now t.now.entries.now) t.now.n end) }
{
    let mut rest = t.used();
    for kind in 0..node::COUNT as u64 {
        let root = tables::get(t.nodes, 0, kind as usize);
        let all = Place {
            kind,
            min: 0,
            max: end,
            from: 0,
            to: 0,
        };
        let Some(left) = walk(t, root, all, rest) else {
            return false;
        };
        rest = left;
    }
    rest == 0
}
