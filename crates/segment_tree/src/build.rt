// Building the trees in the node table: each life goes down from the root of its kind, nodes are made, entries are counted.
ghost use Rattle.std.specs.Prelude.{◌≡◌, true, false, cond, map, ◌+◌, ◌≤◌, ◌<◌, length};
ghost use Rattle.lists.specs.Lists.{count_from};
ghost use Rattle.history.specs.Lent.{row_width, node_head};
ghost use Rattle.tables.specs.Columns.{column};
ghost use Rattle.segment_tree.specs.Count.{rows_in, spot_in, Bumped, Reached, Added, AddedAt, Lasts, Splits};
ghost use Rattle.segment_tree.specs.Lives.{block_life, piece_life, root_spot, AddedRows, rows_to_count, CountedTrees};

use crate::{Life, Owned, Place, Span};
use refusals::Refusal;
use tables::{ROW, entry, node};

// One entry more in the node of `link`, where the table has its row. One test a row, here and below: that is most of what the ways down do.
#[inline(always)]
fn bump(nodes: &mut [u64], link: u64)
    ensures { Bumped nodes.old nodes.new link }
{
    let row = link as usize;
    if row < nodes.len() / ROW {
        let count = nodes[ROW * row + node::ENTRIES];
        nodes[ROW * row + node::ENTRIES] = count.saturating_add(1);
    }
}

// A new node at a place in the row of `parent`; 0 if the rows are spent.
#[inline(always)]
fn make(nodes: &mut [u64], parent: usize, place: Place, kind: u64) -> u64
    requires there { parent ≤ rows_in nodes.old × node_head ≤ length nodes.old × place.col < row_width }
    requires free { column nodes.old parent place.col ≡ 0 }
    ensures { Reached nodes.old nodes.new (spot_in kind parent place) result }
{
    let used = nodes[node::COUNT];
    if tables::rows(nodes.len(), node::HEAD) <= used {
        return 0;
    }
    let link = used + 1;
    let row = link as usize;
    nodes[node::COUNT] = link;
    nodes[ROW * parent + place.col] = link;
    nodes[ROW * row + node::MIN] = place.span.lo;
    nodes[ROW * row + node::MAX] = place.span.hi;
    nodes[ROW * row + node::KIND] = kind;
    link
}

// The node at a place in the row of `parent`, made where there is none; 0 if the rows are spent, or have no such parent. A link and no Option, as it goes on
// as the parent of the next.
#[inline(always)]
fn reach(nodes: &mut [u64], parent: u64, place: Place, kind: u64) -> u64
    ensures { Reached nodes.old nodes.new (spot_in kind parent place) result }
{
    let row = parent as usize;
    if nodes.len() / ROW <= row || ROW <= place.col {
        return 0;
    }
    let there = nodes[ROW * row + place.col];
    if there != 0 {
        return there;
    }
    make(nodes, row, place, kind)
}

// One entry more in the node of `link` if `here`, and else none: a sum, so that there is no branch to guess.
#[inline(always)]
fn bump_if(nodes: &mut [u64], link: u64, here: bool)
    ensures more { here ≡ true → Bumped nodes.old nodes.new link }
    ensures same { here ≡ false → nodes.new ≡ nodes.old }
{
    let row = link as usize;
    if row < nodes.len() / ROW {
        let count = nodes[ROW * row + node::ENTRIES];
        nodes[ROW * row + node::ENTRIES] = count.saturating_add(u64::from(here));
    }
}

// x if it is the first one, else y.
fn choose(first: bool, x: Place, y: Place) -> Place
    ensures { result ≡ cond first x y }
{
    if first { x } else { y }
}

// Adds a life that lasts over the end of the node of `from`, or from its beginning on, at this node, which was reached last. Where it meets both halves of
// a node, it covers the one at that end. Which halves it meets is no branch: it could be guessed only half the time. No `for` goes down: the row says
// which node is next. It stays a call, so that its loop has the registers for itself.
#[tactic(auto, using(crate::proofs::Ways::one_way))]
#[inline(never)]
fn add_way<const TO_END: bool>(
    nodes: &mut [u64],
    from: u64,
    whole: Span,
    life: Life,
    kind: u64,
) -> bool
    requires { Lasts TO_END whole.lo whole.hi life }
    ensures { AddedAt nodes.old nodes.new kind from whole.lo whole.hi life result }
{
    let mut link = from;
    let mut span = whole;
    while link != 0 {
        if life.covers_rest::<TO_END>(span) {
            bump(nodes, link);
            return true;
        }
        let (sure, other) = span.sides::<TO_END>();
        let next = reach(nodes, link, sure, kind);
        if next == 0 {
            return false;
        }
        let both = life.meets::<TO_END>(other.span);
        bump_if(nodes, next, both);
        let way = choose(both, other, sure);
        link = reach(nodes, link, way, kind);
        span = way.span;
    }
    false
}

// Adds a life to both halves of the node of `link`: it lasts to the end of the left one, and from the beginning of the right one on.
#[tactic(auto, using(crate::proofs::Ways::both_halves))]
fn add_both(nodes: &mut [u64], link: u64, span: Span, life: Life, kind: u64) -> bool
    requires { Splits link span.lo span.hi life }
    ensures { AddedAt nodes.old nodes.new kind link span.lo span.hi life result }
{
    let (left, right) = span.halves();
    let first = reach(nodes, link, left, kind);
    if !add_way::<true>(nodes, first, left.span, life, kind) {
        return false;
    }
    let second = reach(nodes, link, right, kind);
    add_way::<false>(nodes, second, right.span, life, kind)
}

// Adds a life at the root: down to the node of which it meets both halves, and from there on two ways. No `for`, as in `add_way`.
#[tactic(auto, using(crate::proofs::Ways::way_down))]
fn add_down(nodes: &mut [u64], root: u64, whole: Span, life: Life, kind: u64) -> bool
    ensures { AddedAt nodes.old nodes.new kind root whole.lo whole.hi life result }
{
    let mut link = root;
    let mut span = whole;
    while link != 0 {
        if life.covers(span) {
            bump(nodes, link);
            return true;
        }
        if !span.has_halves() {
            return true;
        }
        let (left, right) = span.halves();
        let mid = right.span.lo;
        if life.created < mid {
            if mid < life.destroyed {
                return add_both(nodes, link, span, life, kind);
            }
            link = reach(nodes, link, left, kind);
            span = left.span;
        } else {
            if life.destroyed <= mid {
                return true;
            }
            link = reach(nodes, link, right, kind);
            span = right.span;
        }
    }
    false
}

// Adds a life to the tree of a kind: one entry more in each node that it covers, and nodes where there are none. False if the rows are spent. Each turn of a
// loop halves the width: whatever the table holds, there are at most 64 of them on a way for an end up to 2^63.
fn add_location(nodes: &mut [u64], end: u64, life: Life, kind: u64) -> bool
    ensures { Added nodes.old nodes.new (root_spot kind end) life result }
{
    let span = Span { lo: 0, hi: end };
    let place = Place {
        col: kind as usize,
        span,
    };
    let root = reach(nodes, 0, place, kind);
    add_down(nodes, root, span, life, kind)
}

// Adds the lives of the blocks 1 to n, each to the tree of its kind. False if the rows are spent.
#[tactic(auto, using(crate::proofs::AddingRows::onward))]
fn add_blocks(nodes: &mut [u64], blocks: &[u64], n: u64, end: u64) -> bool
    ensures { AddedRows nodes.old nodes.new end (map (block_life blocks.now) (count_from 1 n)) result }
{
    for j in 0..n {
        let owned = Owned::of_block(blocks, j + 1);
        if !add_location(nodes, end, owned.life, owned.kind) {
            return false;
        }
    }
    true
}

// Adds the lives of the pieces 1 to n, which last to the end. False if the rows are spent.
#[tactic(auto, using(crate::proofs::AddingRows::onward))]
fn add_pieces(nodes: &mut [u64], pieces: &[u64], n: u64, end: u64) -> bool
    ensures { AddedRows nodes.old nodes.new end (map (piece_life pieces.now end) (count_from 1 n)) result }
{
    for j in 0..n {
        let owned = Owned::of_piece(pieces, j + 1, end);
        if !add_location(nodes, end, owned.life, owned.kind) {
            return false;
        }
    }
    true
}

// What is counted: the blocks 1 to n, and the pieces 1 to m, which live up to the end.
#[derive(Clone, Copy)]
pub struct Rows<'a> {
    pub blocks: &'a [u64],
    pub n: u64,
    pub pieces: &'a [u64],
    pub m: u64,
    pub end: u64,
}

// Counts the trees of the rows in a node table of zeros, in whatever order they are. Where the nodes or the entries of all of them do not fit, the table is
// zeros again.
#[tactic(auto, using(crate::proofs::Counting::counting))]
pub fn count_trees(nodes: &mut [u64], entries: &[u64], rows: &Rows<'_>) -> Result<(), Refusal>
    ensures { CountedTrees (rows_to_count rows.now.blocks.now rows.now.n rows.now.pieces.now rows.now.m rows.now.end) nodes.old entries.now nodes.new result }
{
    let Rows {
        blocks,
        n,
        pieces,
        m,
        end,
    } = *rows;
    if !add_blocks(nodes, blocks, n, end) {
        tables::zero(nodes);
        return Err(Refusal::NodesFull);
    }
    if !add_pieces(nodes, pieces, m, end) {
        tables::zero(nodes);
        return Err(Refusal::NodesFull);
    }
    let used = tables::get(nodes, 0, node::COUNT);
    let total = crate::close::assign_runs(nodes, used);
    if entry::rows(entries) < total {
        tables::zero(nodes);
        return Err(Refusal::EntriesFull);
    }
    Ok(())
}
