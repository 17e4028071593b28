// Find in the tree of a closed index: `search` and `extend_from_self` of segment_tree.rs. No table is tested here. On any contents these functions
// end, at most 66 calls deep: the width of a node, below 2^64, is halved at each call. On the tables of a closed index they answer as the model of
// history does.
//
//   specs/Notes        what is noted on the way: the links of the nodes met, then in their place the rows that are listed
//   specs/Listing      what find answers, and what it leaves in the answer
//   proofs/Searching   the way down; Windowing: the rows of its nodes; Extending: the writing; Finding: all together. Noting: laws of what is noted
//   proofs/Agreeing    for callers: by the blocks of the model

#![tactic(auto)]

ghost use Rattle.std.specs.Prelude.{◌≡◌, length};
ghost use Rattle.std.proofs.lemmas.List.Edits.{sets};
ghost use Rattle.segment_walk.specs.Rowing.{blocks_in};
ghost use Rattle.segment_find.specs.Notes.{Deep, Searched, Places, Windowed, Room, Fitting, Written};
ghost use Rattle.segment_find.specs.Listing.{Finds};

use segment_table::Tree;
use segment_walk::rows::Rows;
use segment_walk::walk::{Node, Query};
use segment_walk::{rows, walk};

// How many blocks are listed, and how many nodes were visited.
#[derive(Clone, Copy)]
pub struct Found {
    pub count: usize,
    pub visited: usize,
}

// More nodes than these are on no way down. Each has a place in the notes, where its link stands as `from` until rows stand there.
const MOST: usize = 66;

// Goes down to the tick from a node and notes the links of the nodes met, from place `depth` on; gives the place after the last one. It calls itself at
// its end, with the node as three numbers, and leaves the rows to loops, so that a call is short. The node's width falls at each call.
#[tactic(auto, using(crate::proofs::Searching::searching))]
fn search(
    nodes: &[u64],
    link: u64,
    min: u64,
    max: u64,
    tick: u64,
    notes: &mut [Rows; MOST],
    depth: usize,
) -> usize
    requires { Deep min max depth }
    ensures { Searched nodes.now link min max tick notes.old depth notes.new result }
{
    let node = Node { link, min, max };
    if walk::absent(node) {
        return depth;
    }
    notes[depth].from = link as usize;
    let below = walk::half(nodes, node, tick);
    search(
        nodes,
        below.link,
        below.min,
        below.max,
        tick,
        notes,
        depth + 1,
    )
}

// Notes the rows in [start, stop) of the first `depth` nodes noted, of each that has any, over the links that it has read: how many nodes have some.
// None where so many places do not hold the rows.
fn windows(
    tree: &Tree,
    notes: &mut [Rows; MOST],
    depth: usize,
    query: Query,
    places: usize,
) -> Option<usize>
    requires { Places notes.old depth }
    ensures { Windowed tree.now.nodes.now tree.now.entries.now notes.old depth query.start query.stop places notes.new result }
{
    let Tree { nodes, entries, .. } = *tree;
    let Query { start, stop, .. } = query;
    let mut count = 0;
    let mut room = places;
    for k in 0..depth {
        let rows = rows::in_window(nodes, entries, notes[k].from as u64, start, stop);
        let many = rows.to - rows.from;
        if room < many {
            return None;
        }
        if many == 0 {
            continue;
        }
        notes[count] = rows;
        count += 1;
        room -= many;
    }
    Some(count)
}

// Writes the block numbers of the rows to the answer, from place `at` on.
fn extend_from_self(entries: &[u64], rows: Rows, answer: &mut [u64], at: usize)
    requires { Room entries.now rows answer.old at }
    ensures { answer.new ≡ sets answer.old at (blocks_in entries.now rows) }
{
    let from = rows.from;
    for i in 0..rows.to - from {
        answer[at + i] = entries[tables::entry::HEAD
            + (tables::entry::WIDTH * (from + i) + tables::entry::BLOCK)];
    }
}

// Writes the block numbers of the rows noted to the answer: how many.
fn write(entries: &[u64], notes: &[Rows; MOST], count: usize, answer: &mut [u64]) -> usize
    requires { Fitting entries.now notes.now count (length answer.old) }
    ensures { Written entries.now notes.now count answer.old answer.new result }
{
    let mut at = 0;
    for k in 0..count {
        let rows = notes[k];
        extend_from_self(entries, rows, answer, at);
        at += rows.to - rows.from;
    }
    at
}

// Lists the blocks of a tree that are live at the tick and have their first cell in [start, stop): root first, ascending in each node.
// None where the answer is too small for them: it is left as it is.
pub fn find(tree: &Tree, query: Query, answer: &mut [u64]) -> Option<Found>
    ensures { Finds tree.now.nodes.now tree.now.entries.now tree.now.kind tree.now.end query.tick query.start query.stop answer.old answer.new result }
{
    let root = walk::root(tree.nodes, tree.kind, tree.end);
    let mut notes = [Rows { from: 0, to: 0 }; MOST];
    let visited = search(
        tree.nodes, root.link, root.min, root.max, query.tick, &mut notes, 0,
    );
    let runs = windows(tree, &mut notes, visited, query, answer.len())?;
    let count = write(tree.entries, &notes, runs, answer);
    Some(Found { count, visited })
}
