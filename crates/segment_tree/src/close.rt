// Closing the counted trees: each node gets its run of the entry table, the blocks fill the runs in recorded order, and each run is sorted.
ghost use Rattle.std.specs.Prelude.{◌≡◌, ◌+◌, ◌*◌, set};
ghost use Rattle.history.specs.Lent.{row_width};
ghost use Rattle.tables.specs.Columns.{column, node_first, node_entries};
ghost use Rattle.segment_tree.specs.Count.{Lasts, Splits};
ghost use Rattle.segment_tree.specs.Runs.{AssignedRuns};
ghost use Rattle.segment_tree.specs.Fill.{HalfRead, PutEntry, Written, WrittenWhole, WrittenAll, ClosedRuns, lent_tables, ClosedTrees};

use crate::{Life, Owned, Place, Span};
use tables::{ROW, entry, node};

// Gives a row its run, which begins at the entry `at`, and tells how many entries it has. One test a row here and below, as in `build`.
#[inline(always)]
fn give_run(nodes: &mut [u64], link: u64, at: u64) -> u64
    ensures run { nodes.new ≡ set nodes.old (row_width * link + node_first) at }
    ensures count { result ≡ column nodes.old link node_entries }
{
    let row = link as usize;
    if row < nodes.len() / ROW {
        let count = nodes[ROW * row + node::ENTRIES];
        nodes[ROW * row + node::FIRST] = at;
        return count;
    }
    let count = tables::get(nodes, link, node::ENTRIES);
    tables::put(nodes, link, node::FIRST, at);
    count
}

// Gives each of the rows 1 to n its run, in row order, and returns how many entries they have. The counts stay, so that runs can be given out
// again when they are filled.
pub(crate) fn assign_runs(nodes: &mut [u64], n: u64) -> u64
    ensures { AssignedRuns nodes.old nodes.new n result }
{
    let mut at: u64 = 0;
    for j in 0..n {
        let link = j + 1;
        let count = give_run(nodes, link, at);
        at = at.saturating_add(count);
    }
    at
}

// What a node lists of a block: its number, and its first cell.
#[derive(Clone, Copy)]
struct Entry {
    block: u64,
    key: u64,
}

// The link of a half of the node of `link`; 0 where the table has no such row.
#[inline(always)]
fn half(nodes: &[u64], link: u64, place: Place) -> u64
    ensures { HalfRead nodes.now link place result }
{
    let row = link as usize;
    if row < nodes.len() / ROW && place.col < ROW {
        return nodes[ROW * row + place.col];
    }
    0
}

// An entry at the next free place of the node of `link`, where the tables have its row and the place.
#[inline(always)]
fn write_entry(nodes: &mut [u64], entries: &mut [u64], link: u64, entry: Entry)
    ensures { PutEntry nodes.old entries.old nodes.new entries.new link entry.block entry.key }
{
    let row = link as usize;
    if row < nodes.len() / ROW {
        let next = nodes[ROW * row + node::FIRST];
        if next < entry::rows(entries) {
            let at = next as usize;
            entries[entry::HEAD + (entry::WIDTH * at + entry::BLOCK)] = entry.block;
            entries[entry::HEAD + (entry::WIDTH * at + entry::KEY)] = entry.key;
            nodes[ROW * row + node::FIRST] = next + 1;
        }
    }
}

// An entry in the node of `link`, if there is one.
#[tactic(auto, using(crate::proofs::WritingWays::whole_node))]
#[inline(always)]
fn write_whole(nodes: &mut [u64], entries: &mut [u64], link: u64, entry: Entry)
    ensures { WrittenWhole nodes.old entries.old nodes.new entries.new link entry.block entry.key }
{
    if link != 0 {
        write_entry(nodes, entries, link, entry);
    }
}

// Writes an entry into the nodes from that of `from` on that list it, where its life lasts over the end of this node, or from its beginning on. It goes the
// way of `build::add_way`, as far, by a loop as there; but no node is made here, so that nothing can fail, and one function for both would carry a failure.
// It stays a call, as there.
#[inline(never)]
fn write_way<const TO_END: bool>(
    nodes: &mut [u64],
    entries: &mut [u64],
    from: u64,
    whole: Span,
    life: Life,
    entry: Entry,
)
    requires { Lasts TO_END whole.lo whole.hi life }
    ensures { Written nodes.old entries.old nodes.new entries.new from whole.lo whole.hi life entry.block entry.key }
{
    let mut link = from;
    let mut span = whole;
    while link != 0 {
        if life.covers_rest::<TO_END>(span) {
            write_entry(nodes, entries, link, entry);
            return;
        }
        let (sure, other) = span.sides::<TO_END>();
        let next = half(nodes, link, sure);
        if life.meets::<TO_END>(other.span) {
            write_whole(nodes, entries, next, entry);
            link = half(nodes, link, other);
            span = other.span;
        } else {
            link = next;
            span = sure.span;
        }
    }
}

// Writes an entry into the two halves of the node of `link`, where its life begins in the left one and ends in the right one.
fn write_both(
    nodes: &mut [u64],
    entries: &mut [u64],
    link: u64,
    span: Span,
    life: Life,
    entry: Entry,
)
    requires { Splits link span.lo span.hi life }
    ensures { Written nodes.old entries.old nodes.new entries.new link span.lo span.hi life entry.block entry.key }
{
    let (left, right) = span.halves();
    let first = half(nodes, link, left);
    write_way::<true>(nodes, entries, first, left.span, life, entry);
    let second = half(nodes, link, right);
    write_way::<false>(nodes, entries, second, right.span, life, entry);
}

// Writes an entry with its life into the nodes of the tree at `root` that list it. It goes the way of `build::add_location`, by a loop as there.
#[tactic(auto, using(crate::proofs::WritingWays::way_onto))]
fn write_location(
    nodes: &mut [u64],
    entries: &mut [u64],
    root: u64,
    end: u64,
    life: Life,
    entry: Entry,
)
    ensures { Written nodes.old entries.old nodes.new entries.new root 0 end life entry.block entry.key }
{
    let mut link = root;
    let mut span = Span { lo: 0, hi: end };
    while link != 0 {
        if life.covers(span) {
            write_entry(nodes, entries, link, entry);
            return;
        }
        if !span.has_halves() {
            return;
        }
        let (left, right) = span.halves();
        let mid = right.span.lo;
        if life.created < mid {
            if mid < life.destroyed {
                write_both(nodes, entries, link, span, life, entry);
                return;
            }
            link = half(nodes, link, left);
            span = left.span;
        } else {
            if life.destroyed <= mid {
                return;
            }
            link = half(nodes, link, right);
            span = right.span;
        }
    }
}

// Writes the blocks 1 to n into the trees of their kinds, in recorded order: blocks that follow one another live at about the same ticks, so that they
// meet the same nodes.
#[tactic(auto, using(crate::proofs::WritingAll::onward))]
fn write_blocks(nodes: &mut [u64], entries: &mut [u64], blocks: &[u64], n: u64, end: u64)
    ensures { WrittenAll blocks.now nodes.old entries.old nodes.new entries.new end 0 n }
{
    for j in 0..n {
        let link = j + 1;
        let owned = Owned::of_block(blocks, link);
        let entry = Entry {
            block: j,
            key: block_table::read(blocks, link).first,
        };
        let root = tables::get(nodes, 0, owned.kind as usize);
        write_location(nodes, entries, root, end, owned.life, entry);
    }
}

// Gives each of the rows 1 to n its run again, sorts the runs, and returns how many entries they have.
fn close_runs(nodes: &mut [u64], entries: &mut [u64], n: u64) -> u64
    ensures { ClosedRuns nodes.old entries.old nodes.new entries.new n result }
{
    let mut at: u64 = 0;
    for j in 0..n {
        let link = j + 1;
        let count = give_run(nodes, link, at);
        let to = at.saturating_add(count);
        entry_sort::sort_rows(entries, at, to);
        at = to;
    }
    at
}

// Closes the counted trees: the n blocks fill the runs, which begin where they began, and each run is sorted by first cell.
#[tactic(auto, using(crate::proofs::Closing::closed_trees))]
pub fn close_trees(nodes: &mut [u64], entries: &mut [u64], blocks: &[u64], n: u64, end: u64)
    ensures { ClosedTrees (lent_tables blocks.now nodes.old entries.old) (lent_tables blocks.now nodes.new entries.new) n end }
{
    write_blocks(nodes, entries, blocks, n, end);
    let used = tables::get(nodes, 0, node::COUNT);
    let total = close_runs(nodes, entries, used);
    tables::put(entries, 0, entry::COUNT, total);
}
