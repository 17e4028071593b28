// The rows of a node's entries, which ascend by key, the first of them from a key on, and those in a window.
ghost use Rattle.std.specs.Prelude.{◌≡◌, ◌≤◌, ◌<◌, ◌^◌, cond};
ghost use Rattle.segment_walk.specs.Rowing.{rows_at, table_rows, key_at, Lower, Between, InWindow};

use crate::walk;

// Rows of the entry table, [from, to).
#[derive(Clone, Copy)]
pub struct Rows {
    pub from: usize,
    pub to: usize,
}

// The rows of a node's run. Of a run that does not stand in the table, which no closed index has, none.
#[tactic(auto, unfolding(crate::specs::Rowing::rows_at))]
pub fn rows_of(nodes: &[u64], entries: &[u64], link: u64) -> Rows
    ensures { result ≡ rows_at nodes.now entries.now link }
{
    let from = walk::in_row(nodes, link, tables::node::FIRST) as usize;
    let count = walk::in_row(nodes, link, tables::node::ENTRIES) as usize;
    let room = tables::entry::rows(entries) as usize;
    if count <= room && from <= room - count {
        Rows {
            from,
            to: from + count,
        }
    } else {
        Rows { from: 0, to: 0 }
    }
}

// The key of a row that the table has.
#[inline(always)]
fn key_at(entries: &[u64], row: usize) -> u64
    requires { row < table_rows entries.now }
    ensures { result ≡ key_at entries.now row }
{
    entries[tables::entry::HEAD + (tables::entry::WIDTH * row + tables::entry::KEY)]
}

// So few rows are tried one by one.
const FEW: usize = 4;

// `half` if it is passed, else 0. By shifts: what is known as a choice or a product the compiler makes a branch, which in a search is foreseen half the time.
fn step(half: usize, passed: bool) -> usize
    requires { half < 2 ^ 63 }
    ensures { result ≡ cond passed half 0 }
{
    (half << passed as u32) - half
}

// Halves the rows until few are left among which the first is whose key is not below `key`, or behind which it is.
fn halved(entries: &[u64], rows: Rows, key: u64) -> Rows
    requires order { rows.from ≤ rows.to }
    requires room { rows.to ≤ table_rows entries.now }
    ensures { Between entries.now rows key result.from result.to }
{
    let mut from = rows.from;
    let mut left = rows.to - from;
    while left > FEW {
        let half = left / 2;
        let passed = key_at(entries, from + half - 1) < key;
        from += step(half, passed);
        left -= half;
    }
    Rows {
        from,
        to: from + left,
    }
}

// The first of the rows whose key is not below `key`, or their end. A window often has all rows of a node, so the first and the last of them are looked at
// before any halving. Rows past the table's end, which `rows_of` does not give, are not searched.
pub fn lower(entries: &[u64], rows: Rows, key: u64) -> usize
    ensures { Lower entries.now rows key result }
{
    let Rows { from, to } = rows;
    if tables::entry::rows(entries) < to as u64 || to <= from {
        return from;
    }
    if key <= key_at(entries, from) {
        return from;
    }
    if key_at(entries, to - 1) < key {
        return to;
    }
    let few = halved(entries, rows, key);
    for row in few.from..few.to {
        if key <= key_at(entries, row) {
            return row;
        }
    }
    few.to
}

// So many rows are tried before halving.
const STEPS: usize = 8;

// The same as `lower`, where the answer is likely to be one of the first rows: up to eight steps, then a binary search in the rest.
fn lower_near(entries: &[u64], rows: Rows, key: u64) -> usize
    ensures { Lower entries.now rows key result }
{
    let Rows { from, to } = rows;
    if tables::entry::rows(entries) < to as u64 {
        return from;
    }
    let near = from.saturating_add(STEPS).min(to);
    for row in from..near {
        if key <= key_at(entries, row) {
            return row;
        }
    }
    lower(entries, Rows { from: near, to }, key)
}

// The rows of a node whose key is in [start, stop). The second search begins where the first one ended, and tries the next rows first, since most windows are small.
#[tactic(auto, using(crate::proofs::Windows::in_window))]
pub fn in_window(nodes: &[u64], entries: &[u64], link: u64, start: u64, stop: u64) -> Rows
    ensures { InWindow nodes.now entries.now link start stop result }
{
    let rows = rows_of(nodes, entries, link);
    let from = lower(entries, rows, start);
    let to = lower_near(entries, Rows { from, to: rows.to }, stop);
    Rows { from, to }
}
