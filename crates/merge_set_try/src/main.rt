// Builds tables of pieces in ascending, descending and shuffled order, and thins the last one by every second piece. Of each it compares how many pieces are
// found at their first cells, how deep the tree is, and that the table is well formed. Then it tests tables that no call leaves: a chain of many rows, a row
// that is its own child, and rows that many paths share. Prints one line: how many were compared, how many of them differ, and how many tables were refused.

#![tactic(auto)]

ghost use Rattle.std.specs.Prelude.{◌<◌};

use piece_table::Piece;
use tables::piece;
use tally::Tally;

const PIECES: u64 = 4096;
// A head and as many rows.
const NUMBERS: usize = 32776;
// Each piece has so many cells, and its first cell stands so far from the one before.
const CELLS: u64 = 5;

const APART: u64 = 10;

// All pieces are of one kind, and the mask has it alone.
const KIND: u64 = 0;

const KINDS: u64 = 1;

// The step of the shuffled order, which is odd.
const STEP: u64 = 1597;

fn main(rt: HostRuntime) {
    let mut tally = Tally::default();
    let mut table = [0; NUMBERS];
    let mut line = [0; tally::LINE];
    try_orders(&mut tally, &mut table);
    try_spoiled(&mut tally, &mut table);
    tally.print(&rt.stdout(), &mut line, b" tables refused");
}

// The depths are those that a balanced tree gets by rotations: 4,096 pieces need 13, and 2,048 need 12.
fn try_orders(tally: &mut Tally, table: &mut [u64]) {
    build(table, 0, 1);
    try_pieces(tally, table, PIECES, 13);
    build(table, PIECES - 1, PIECES - 1);
    try_pieces(tally, table, PIECES, 13);
    build(table, 0, STEP);
    try_pieces(tally, table, PIECES, 14);
    thin(table);
    try_pieces(tally, table, PIECES / 2, 12);
}

fn try_spoiled(tally: &mut Tally, table: &mut [u64]) {
    chain(table);
    try_test(tally, table, false);
    own_child(table);
    try_test(tally, table, false);
    shared(table);
    try_test(tally, table, false);
}

// Compares how many pieces are found and how deep the tree is; the table is well formed.
fn try_pieces(tally: &mut Tally, table: &[u64], many: u64, deep: u64) {
    let root = tables::get(table, 0, piece::ROOT);
    tally.compare(found(table) as u64 == many);
    tally.compare(merge_set::depth(table, root) == deep);
    try_test(tally, table, true);
}

// Tests the table, which is well formed or not.
fn try_test(tally: &mut Tally, table: &[u64], right: bool) {
    let yes = piece_table::test::test_pieces(table, KINDS, CELLS * PIECES, 1);
    tally.compare(yes == right);
    if !yes {
        tally.refuse();
    }
}

// Inserts the pieces, each `step` after the one before, from number `start` on. An odd step comes to all of them.
fn build(table: &mut [u64], start: u64, step: u64)
    requires { (start < 4096) × (step < 4096) }
{
    table.fill(0);
    let mut n = start;
    for _piece in 0..PIECES {
        let piece = Piece {
            first: APART * n,
            size: CELLS,
            written: 1,
            offset: CELLS * n,
            owner: KIND,
        };
        piece_table::insert_piece(table, piece);
        n = (n + step) % PIECES;
    }
}

// Removes every second piece.
fn thin(table: &mut [u64]) {
    for pair in 0..PIECES / 2 {
        if let Some(link) = piece_table::seek(table, KIND, APART * (2 * pair + 1)) {
            piece_table::remove_piece(table, link);
        }
    }
}

// How many of the pieces a seek finds at their first cell.
fn found(table: &[u64]) -> usize {
    (0..PIECES).filter(|i| starts_at(table, APART * *i)).count()
}

// Whether the lowest piece that ends after a cell starts there.
fn starts_at(table: &[u64], cell: u64) -> bool {
    piece_table::seek(table, KIND, cell).is_some_and(|link| tables::get(table, link, piece::FIRST)
        == cell)
}

// Writes a row as it may stand in a table that nobody has tested.
fn row(table: &mut [u64], link: u64, left: u64, right: u64, depth: u64)
    requires { link < 4097 }
{
    tables::put(table, link, piece::FIRST, APART * link);
    tables::put(table, link, piece::LENGTH, CELLS);
    tables::put(table, link, piece::WRITTEN, 1);
    tables::put(table, link, piece::LEFT, left);
    tables::put(table, link, piece::RIGHT, right);
    tables::put(table, link, piece::DEPTH, depth);
}

fn head(table: &mut [u64], count: u64) {
    table.fill(0);
    tables::put(table, 0, piece::ROOT, 1);
    tables::put(table, 0, piece::COUNT, count);
}

// Every row is the right child of the one before, with the depth that it has.
fn chain(table: &mut [u64]) {
    head(table, PIECES);
    for i in 1..PIECES {
        row(table, i, 0, i + 1, PIECES + 1 - i);
    }
    row(table, PIECES, 0, 0, 1);
}

// One row, its own left child.
fn own_child(table: &mut [u64]) {
    head(table, 1);
    row(table, 1, 1, 0, 1);
}

// Both children of a row are the next one, as deep as can be: as many paths as there are numbers of 91 bits.
fn shared(table: &mut [u64]) {
    head(table, piece_table::DEEPEST);
    for i in 1..piece_table::DEEPEST {
        row(table, i, i + 1, i + 1, piece_table::DEEPEST + 1 - i);
    }
    row(table, piece_table::DEEPEST, 0, 0, 1);
}
