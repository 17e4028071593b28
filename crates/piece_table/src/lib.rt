// Which pieces the piece table stands for, and the calls that change one of them. Links of rows are used between calls; callers above speak of pieces.
//
//   specs/Piece     a row's piece on the line of places, its parts, and the order
//   specs/Rep       which pieces a table stands for: the layout
//   specs/Calls     what each function ensures
//   specs/Test      what makes a table well formed
//   specs/Shown     the ledger's piece that a row's piece stands for
//   proofs/Order    lists in order
//   proofs/Clipping what `clip` gives
//   proofs/Lines    a piece lies on the line of its kind
//   proofs/Parts    the parts of pieces below a place, in a range and from a place on
//   proofs/Showing  clipping rows is clipping the ledger's pieces
//   proofs/Cells    which byte a row's piece has for a cell
//   proofs/Seeing   what a search sees
//   proofs/Seeking, Removing, Writing    one step for each return
//   proofs/Testing  the test decides it
//   proofs/Held     the contracts by links are contracts by pieces
//   test            whether a table is well formed

#![tactic(auto)]

ghost use Rattle.std.specs.Prelude.{◌≡◌};
ghost use Rattle.history.specs.Words.{cell_place};
ghost use Rattle.tables.specs.Sums.{plus_up_to};
ghost use Rattle.piece_table.specs.Piece.{read_at, row_of};
ghost use Rattle.piece_table.specs.Calls.{Clipped, HeadSet, WroteRow, EndsPast, EndsAfter, SoughtFrom, IfAny, link_of, Sought, HasCell, Ended, RemovedPiece, ReplacedPiece, InsertedPiece, TrimmedBack, TrimmedFront};
ghost use Rattle.lists.specs.Tests.{Decides};

pub mod test;

use tables::piece::{COUNT, FIRST, LEFT, LENGTH, OFFSET, OWNER, RIGHT, ROOT, WRITTEN};

// No balanced tree of fewer than 2^63 rows is deeper.
pub const DEEPEST: u64 = 92;

// So many cells from `first` on, written at a tick; their bytes stand in the store from `offset` on. The owner is the kind of the piece.
#[derive(Clone, Copy)]
pub struct Piece {
    pub first: u64,
    pub size: u64,
    pub written: u64,
    pub offset: u64,
    pub owner: u64,
}

impl Piece {
    // The cell after the last one, or the largest number where that is passed: in tables that nobody has tested.
    pub fn end(self) -> u64
        ensures { result ≡ plus_up_to self.first self.size }
    {
        self.first.saturating_add(self.size)
    }

    // The part of the piece that lies in [from, to), cells of its kind, if there is any. First cell and offset move together.
    pub fn clip(self, from: u64, to: u64) -> Option<Piece>
        ensures { Clipped self from to result }
    {
        let first = from.max(self.first);
        let end = to.min(self.end());
        if end <= first {
            return None;
        }
        Some(Piece {
            first,
            size: end - first,
            offset: self.offset.checked_add(first - self.first)?,
            ..self
        })
    }
}

// Reads the row of a link, under one test where the table has it: record does so for every piece that it meets.
pub fn read(table: &[u64], link: u64) -> Piece
    ensures { result ≡ read_at table.now link }
{
    let row = link as usize;
    if row < table.len() / tables::ROW {
        return Piece {
            first: table[tables::ROW * row + FIRST],
            size: table[tables::ROW * row + LENGTH],
            written: table[tables::ROW * row + WRITTEN],
            offset: table[tables::ROW * row + OFFSET],
            owner: table[tables::ROW * row + OWNER],
        };
    }
    Piece {
        first: tables::get(table, link, FIRST),
        size: tables::get(table, link, LENGTH),
        written: tables::get(table, link, WRITTEN),
        offset: tables::get(table, link, OFFSET),
        owner: tables::get(table, link, OWNER),
    }
}

// Sets the head of the table.
fn set_head(table: &mut [u64], root: u64, count: u64)
    ensures { HeadSet table.old table.new root count }
{
    tables::put(table, 0, ROOT, root);
    tables::put(table, 0, COUNT, count);
}

// Takes the piece of a link out. The last row moves to the freed one, so that the rows stay dense.
#[tactic(auto, using(crate::proofs::Removing::removing))]
pub fn remove_piece(table: &mut [u64], link: u64)
    ensures { RemovedPiece table.old table.new link }
{
    let root = tables::get(table, 0, ROOT);
    let count = tables::get(table, 0, COUNT);
    if count == 0 {
        return;
    }
    let top = merge_set::remove(table, root, link, DEEPEST);
    if link == count {
        set_head(table, top, count - 1);
        return;
    }
    merge_set::copy_row(table, count, link);
    let moved = merge_set::relink(table, top, count, link, DEEPEST);
    set_head(table, moved, count - 1);
}

// Whether so many cells of a kind from `first` on end after another kind's cell. It subtracts and does not add: in tables that nobody has tested the sum may
// pass 2^64. The cells are compared before the kinds are, so that the loop of the seek has no branch to guess.
#[tactic(auto, using(crate::proofs::Seeking::ending))]
fn ends_past(owner: u64, first: u64, length: u64, kind: u64, cell: u64) -> bool
    ensures { EndsPast owner first length kind cell result }
{
    let own = cell < first || cell - first < length;
    if owner == kind { own } else { kind < owner }
}

// Whether the piece of a link ends after a kind's cell.
#[tactic(auto, using(crate::proofs::Seeking::ending))]
pub fn ends_after(table: &[u64], link: u64, kind: u64, cell: u64) -> bool
    ensures { EndsAfter table.now link kind cell result }
{
    let owner = tables::get(table, link, OWNER);
    let first = tables::get(table, link, FIRST);
    let length = tables::get(table, link, LENGTH);
    ends_past(owner, first, length, kind, cell)
}

// What a search finds: the link of the lowest piece that ends after a kind's cell. `after` is a guess for `search_next`: the next piece's link, where the found
// one has none right below it; any number.
#[derive(Clone, Copy)]
pub struct Found {
    pub link: u64,
    pub after: u64,
}

impl Found {
    // None where the link is 0, as in the tables.
    fn if_any(self) -> Option<Found>
        ensures { IfAny self result }
    {
        (0 < self.link).then_some(self)
    }
}

// The link of the lowest piece of the tree at `link`, at most `fuel` deep, that ends after a kind's cell; 0, as in the tables, if there is none. One test a row:
// this is where record spends most of its time.
#[tactic(auto, using(crate::proofs::Seeking::sinking))]
fn seek_from(table: &[u64], link: u64, kind: u64, cell: u64, fuel: u64) -> Found
    ensures { SoughtFrom table.now link (cell_place kind cell) 0 fuel result.link }
{
    let rows = table.len() / tables::ROW;
    let mut at = link;
    let mut found: u64 = 0;
    let mut after: u64 = 0;
    for _turn in 0..fuel {
        let row = at as usize;
        if row == 0 || rows <= row {
            break;
        }
        let owner = table[tables::ROW * row + OWNER];
        let first = table[tables::ROW * row + FIRST];
        let length = table[tables::ROW * row + LENGTH];
        let below = table[tables::ROW * row + LEFT];
        let above = table[tables::ROW * row + RIGHT];
        if ends_past(owner, first, length, kind, cell) {
            after = found;
            found = at;
            at = below;
        } else {
            at = above;
        }
    }
    Found { link: found, after }
}

// Searches the lowest piece that ends after a kind's cell.
#[tactic(auto, using(crate::proofs::Seeking::search_done))]
pub fn search(table: &[u64], kind: u64, cell: u64) -> Option<Found>
    ensures { Sought table.now (cell_place kind cell) (link_of result) }
{
    let root = tables::get(table, 0, ROOT);
    seek_from(table, root, kind, cell, DEEPEST).if_any()
}

// The link of the lowest piece that ends after a kind's cell.
pub fn seek(table: &[u64], kind: u64, cell: u64) -> Option<u64>
    ensures { Sought table.now (cell_place kind cell) result }
{
    Some(search(table, kind, cell)?.link)
}

// Whether the row of a link is in use, and its piece is of the kind and has the cell.
fn has_cell(table: &[u64], link: u64, kind: u64, cell: u64) -> bool
    ensures { Decides result (HasCell table.now link kind cell) }
{
    link != 0
        && link <= tables::get(table, 0, COUNT)
        && tables::get(table, link, OWNER) == kind
        && tables::get(table, link, FIRST) <= cell
        && cell - tables::get(table, link, FIRST) < tables::get(table, link, LENGTH)
}

// Whether the row of a link is in use, and its piece ends at a kind's cell or before.
#[tactic(auto, using(crate::proofs::Seeking::ending))]
fn has_ended(table: &[u64], link: u64, kind: u64, cell: u64) -> bool
    ensures { Ended table.now link kind cell result }
{
    link != 0 && link <= tables::get(table, 0, COUNT) && !ends_after(table, link, kind, cell)
}

// The same as `search`, by guesses that may be any numbers: where `near` or `after` is the link of the piece that has the cell, or the piece stands
// right below that of `near`, which ends before it, no way down from the root is needed.
#[tactic(auto, using(crate::proofs::Seeking::seeking))]
pub fn search_next(table: &[u64], kind: u64, cell: u64, near: u64, after: u64) -> Option<Found>
    ensures { Sought table.now (cell_place kind cell) (link_of result) }
{
    if has_cell(table, after, kind, cell) {
        return Some(Found {
            link: after,
            after: 0,
        });
    }
    if has_ended(table, near, kind, cell) {
        let right = tables::get(table, near, RIGHT);
        let found = seek_from(table, right, kind, cell, DEEPEST);
        if let Some(found) = found.if_any() {
            return Some(found);
        }
    }
    search(table, kind, cell)
}

// The same as `seek`, where the link of the piece that has the cell, or of the one before it, may be known: `near` is any number.
pub fn seek_near(table: &[u64], kind: u64, cell: u64, near: u64) -> Option<u64>
    ensures { Sought table.now (cell_place kind cell) result }
{
    Some(search_next(table, kind, cell, near, near)?.link)
}

// Writes a piece to the row of a link, and leaves its place in the tree.
fn write_row(table: &mut [u64], link: u64, piece: Piece)
    ensures { WroteRow table.old table.new link (row_of piece) }
{
    tables::put(table, link, FIRST, piece.first);
    tables::put(table, link, LENGTH, piece.size);
    tables::put(table, link, WRITTEN, piece.written);
    tables::put(table, link, OFFSET, piece.offset);
    tables::put(table, link, OWNER, piece.owner);
}

// Puts another piece in the place of a link's: in its row, so that the tree stays as it is.
#[tactic(auto, using(crate::proofs::Writing::writing))]
pub fn replace_piece(table: &mut [u64], link: u64, piece: Piece)
    ensures { ReplacedPiece table.old table.new link (row_of piece) }
{
    write_row(table, link, piece);
}

// Inserts a piece that meets no other, where there is a row for it.
#[tactic(auto, using(crate::proofs::Writing::writing))]
pub fn insert_piece(table: &mut [u64], piece: Piece)
    ensures { InsertedPiece table.old table.new (row_of piece) }
{
    let root = tables::get(table, 0, ROOT);
    let count = tables::get(table, 0, COUNT);
    if tables::rows(table.len(), 0) <= count {
        return;
    }
    let link = count + 1;
    write_row(table, link, piece);
    let top = merge_set::insert(table, root, link, DEEPEST);
    set_head(table, top, link);
}

// Cuts the piece of a link to what it has below the cell `end` of its kind.
#[tactic(auto, using(crate::proofs::Writing::writing))]
pub fn trim_back(table: &mut [u64], link: u64, end: u64)
    ensures { TrimmedBack table.old table.new link end }
{
    let Some(size) = end.checked_sub(tables::get(table, link, FIRST)) else {
        return;
    };
    tables::put(table, link, LENGTH, size);
}

// Cuts the piece of a link to what it has from the cell `first` of its kind on. Cell and offset move together.
#[tactic(auto, using(crate::proofs::Writing::writing))]
pub fn trim_front(table: &mut [u64], link: u64, first: u64)
    ensures { TrimmedFront table.old table.new link first }
{
    let Some(rest) = read(table, link).clip(first, u64::MAX) else {
        return;
    };
    tables::put(table, link, FIRST, rest.first);
    tables::put(table, link, LENGTH, rest.size);
    tables::put(table, link, OFFSET, rest.offset);
}
