// Whether a piece table is well formed: a walk through its tree, in order.
ghost use Rattle.lists.specs.Tests.{Decides};
ghost use Rattle.history.specs.Words.{cell_place};
ghost use Rattle.piece_table.specs.Test.{RowStands, RowFits, Walked, WellFormed};

use crate::{DEEPEST, read};
use tables::kinds;
use tables::piece::{COUNT, DEPTH, LEFT, RIGHT, ROOT};

// What the pieces of a table may be: how many, their kinds as a mask, the bytes in use, the last accepted tick.
#[derive(Clone, Copy)]
pub struct Limits {
    pub count: u64,
    pub kinds: u64,
    pub used: u64,
    pub last: u64,
}

// How far a walk through the tree has come: how many pieces it has seen, and the kind and cell where the last one ends.
#[derive(Clone, Copy)]
pub struct Walk {
    pub seen: u64,
    pub kind: u64,
    pub end: u64,
}

// Whether the row of a link can be a node of the tree, at most `fuel` deep: its depth and its children's say so. It is asked before the walk goes down.
fn row_stands(table: &[u64], count: u64, link: u64, fuel: u64) -> bool
    ensures { Decides result (RowStands table.now count link fuel) }
{
    let own = tables::get(table, link, DEPTH);
    let d = merge_set::depth(table, tables::get(table, link, LEFT));
    let e = merge_set::depth(table, tables::get(table, link, RIGHT));
    link <= count && own != 0 && own <= fuel && d.abs_diff(e) <= 1 && own - 1 == d.max(e)
}

// Whether the piece of a link is allowed, and starts past those that the walk has seen.
fn row_fits(table: &[u64], link: u64, walk: Walk, limits: Limits) -> bool
    ensures { Decides result (RowFits table.now link (cell_place walk.kind walk.end) limits) }
{
    let piece = read(table, link);
    !merge_set::starts_below(table, link, walk.kind, walk.end)
        && piece.size != 0
        && piece.size <= u64::MAX - piece.first
        && piece.size <= limits.used
        && piece.offset <= limits.used - piece.size
        && piece.written <= limits.last
        && kinds::has(limits.kinds, piece.owner)
}

// Walks on through the tree at `link` in order. It is at most `fuel` deep, and its pieces start past those that the walk has seen. It ends at the first
// fault. A row that comes again starts before the last end, so every row passes once: after `count` rows and at most `fuel` more on the way down it has
// ended, on any table.
#[tactic(auto, using(crate::proofs::Testing::walking))]
fn walk_tree(table: &[u64], limits: Limits, link: u64, walk: Walk, fuel: u64) -> Option<Walk>
    ensures { Walked table.now limits link walk fuel result }
{
    if link == 0 {
        return Some(walk);
    }
    if fuel == 0 || !row_stands(table, limits.count, link, fuel) {
        return None;
    }
    let left = walk_tree(
        table,
        limits,
        tables::get(table, link, LEFT),
        walk,
        fuel - 1,
    )?;
    if limits.count <= left.seen || !row_fits(table, link, left, limits) {
        return None;
    }
    let piece = read(table, link);
    let here = Walk {
        seen: left.seen + 1,
        kind: piece.owner,
        end: piece.end(),
    };
    walk_tree(
        table,
        limits,
        tables::get(table, link, RIGHT),
        here,
        fuel - 1,
    )
}

// Whether a piece table is well formed, for an index of the mask's kinds, with so many bytes of the store in use and that last accepted tick.
#[tactic(auto, using(crate::proofs::Testing::testing))]
pub fn test_pieces(table: &[u64], kinds: u64, used: u64, last: u64) -> bool
    ensures { Decides result (WellFormed table.now kinds used last) }
{
    let count = tables::get(table, 0, COUNT);
    if tables::rows(table.len(), 0) <= count {
        return false;
    }
    let limits = Limits {
        count,
        kinds,
        used,
        last,
    };
    let root = tables::get(table, 0, ROOT);
    let start = Walk {
        seen: 0,
        kind: 0,
        end: 0,
    };
    let Some(walk) = walk_tree(table, limits, root, start, DEEPEST) else {
        return false;
    };
    walk.seen == count
}
