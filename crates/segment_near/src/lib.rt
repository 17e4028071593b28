// The block next to a place among those that are live at a tick: a binary search in each node on the way down, keeping the best. No table is tested
// here; on any contents these functions end, at most 66 calls deep.
//
//   specs/Neighbours      the nearest block of a list on one side of a place, and in the tables
//   proofs/Neighbouring   the returns; Agreeing: for callers, by the blocks of the model; a neighbour is the only one

#![tactic(auto)]

ghost use Rattle.std.specs.Prelude.{◌≡◌};
ghost use Rattle.segment_table.specs.Closed.{block_in};
ghost use Rattle.segment_walk.specs.Rowing.{key_at};
ghost use Rattle.segment_near.specs.Neighbours.{OwnNeighbour, Nearer, NearestBelow, NearestLive};

use segment_table::Tree;
use segment_walk::rows::Rows;
use segment_walk::walk::Node;
use segment_walk::{rows, walk};

// Where a neighbour of a place is looked for: among the blocks that start at it or after it, or among those that start before it.
#[derive(Clone, Copy)]
pub enum Side {
    From,
    Before,
}

// A block next to a place, with its first cell.
#[derive(Clone, Copy)]
pub struct Neighbour {
    pub number: u64,
    pub first: u64,
}

// The block of a row.
fn block_in(entries: &[u64], row: usize) -> Neighbour
    ensures { result ≡ record { number = block_in entries.now row; first = key_at entries.now row } }
{
    Neighbour {
        number: tables::entry::get(entries, row as u64, tables::entry::BLOCK),
        first: tables::entry::get(entries, row as u64, tables::entry::KEY),
    }
}

// The neighbour of a place among the rows of one node.
fn own_neighbour(entries: &[u64], rows: Rows, side: Side, place: u64) -> Option<Neighbour>
    ensures { OwnNeighbour entries.now rows side place result }
{
    let row = rows::lower(entries, rows, place);
    match side {
        Side::From if row < rows.to => Some(block_in(entries, row)),
        Side::Before if rows.from < row => Some(block_in(entries, row - 1)),
        _ => None,
    }
}

// The nearer one of two.
fn nearer(side: Side, own: Option<Neighbour>, below: Option<Neighbour>) -> Option<Neighbour>
    ensures { Nearer side own below result }
{
    let Some(here) = own else {
        return below;
    };
    let Some(there) = below else {
        return own;
    };
    match side {
        Side::From if there.first < here.first => below,
        Side::Before if here.first < there.first => below,
        _ => own,
    }
}

// The nearer one of `best` and the neighbour of a place on the way down to the tick from a node. It calls itself at its end, with the node as three
// numbers, so that it becomes a loop. The node's width falls at each call.
fn nearest(
    tree: &Tree,
    link: u64,
    min: u64,
    max: u64,
    tick: u64,
    side: Side,
    place: u64,
    best: Option<Neighbour>,
) -> Option<Neighbour>
    ensures { NearestBelow tree.now.nodes.now tree.now.entries.now (record { link = link; min = min; max = max }) tick side place best result }
{
    let node = Node { link, min, max };
    if walk::absent(node) {
        return best;
    }
    let rows = rows::rows_of(tree.nodes, tree.entries, link);
    let own = own_neighbour(tree.entries, rows, side, place);
    let near = nearer(side, best, own);
    let half = walk::half(tree.nodes, node, tick);
    nearest(tree, half.link, half.min, half.max, tick, side, place, near)
}

// The block of a tree that is live at the tick and next to the place on one side: the first that starts at it or after it, or the last that starts before it.
pub fn nearest_live(tree: &Tree, tick: u64, side: Side, place: u64) -> Option<Neighbour>
    ensures { NearestLive tree.now.nodes.now tree.now.entries.now tree.now.kind tree.now.end tick side place result }
{
    let root = walk::root(tree.nodes, tree.kind, tree.end);
    nearest(tree, root.link, root.min, root.max, tick, side, place, None)
}
