// The columns of the lent tables by name (docs/LAYOUT.md). Reads and writes are total: past a table's end `get_or` is 0 and `set` changes nothing, and
// so do these, so that no caller owes an index.
//
//   specs/Columns   where each column stands
//   specs/Sums      sums of numbers that nobody has tested
//   specs/Parts     parts of bytes
//   specs/Kinds     the code of each kind
//   specs/Masks     a set of kinds as a mask
//   specs/Places    which place is below another
//   piece, block, node, entry   its names in code
//   kind            the kinds by name
//   kinds           sets of kinds
//   place           places in order

#![tactic(auto)]

ghost use Rattle.std.specs.Prelude.{◌≡◌, ℕ, ◌+◌, ◌-◌, ◌*◌, ◌/◌, ◌^◌, ◌≤◌, length, get_or, set, replicate, MatchOption};
ghost use Rattle.std.proofs.lemmas.List.Edits.{sets};
ghost use Rattle.lists.specs.Tests.{Decides};
ghost use Rattle.history.specs.Lent.{row_width, entry_width, entry_head};
ghost use Rattle.tables.specs.Columns.{column, block_column, block_base, entry_column};
ghost use Rattle.tables.specs.Parts.{part_of};

pub mod block;
pub mod entry;
pub mod kind;
pub mod kinds;
pub mod node;
pub mod piece;
pub mod place;

// Numbers in a row of pieces, blocks or nodes.
pub const ROW: usize = 8;

// Where a place of a row stands, in a table of rows of `WIDTH` numbers; none where that is no 64-bit number, which no table reaches.
fn index<const WIDTH: usize>(row: u64, place: usize) -> Option<usize>
    ensures { MatchOption result (2 ^ 64 ≤ WIDTH * row + place) (λ at. at ≡ WIDTH * row + place) }
{
    (row as usize).checked_mul(WIDTH)?.checked_add(place)
}

// The number at a place of a row; 0 past the table's end.
fn cell<const WIDTH: usize>(table: &[u64], row: u64, place: usize) -> u64
    ensures { result ≡ get_or table.now (WIDTH * row + place) 0 }
{
    let Some(at) = index::<WIDTH>(row, place) else {
        return 0;
    };
    table.get(at).copied().unwrap_or(0)
}

// Sets the number at a place of a row; past the table's end nothing changes.
fn set_cell<const WIDTH: usize>(table: &mut [u64], row: u64, place: usize, value: u64)
    ensures { table.new ≡ set table.old (WIDTH * row + place) value }
{
    let Some(at) = index::<WIDTH>(row, place) else {
        return;
    };
    if at < table.len() {
        table[at] = value;
    }
}

// Column `col` of the row of `link`, of a piece or node table.
pub fn get(table: &[u64], link: u64, col: usize) -> u64
    ensures { result ≡ column table.now link col }
{
    cell::<ROW>(table, link, col)
}

// Sets column `col` of the row of `link`, of a piece or node table.
pub fn put(table: &mut [u64], link: u64, col: usize, value: u64)
    ensures { table.new ≡ set table.old (row_width * link + col) value }
{
    set_cell::<ROW>(table, link, col, value);
}

// How many rows of eight numbers a table of so many numbers has behind its head.
pub fn rows(numbers: usize, head: usize) -> u64
    ensures { result ≡ (numbers - head) / row_width }
{
    (numbers.saturating_sub(head) / ROW) as u64
}

// Every number of the table becomes 0.
pub fn zero(table: &mut [u64])
    ensures { table.new ≡ replicate (length table.old) 0 }
{
    table.fill(0);
}

// Whether every number of a part is 0. It goes over all of them and has no branch, so that several are read at once.
fn part_zero(part: &[u64]) -> bool
    ensures { Decides result (part.now ≡ replicate (length part.now) 0) }
{
    let mut bits = 0;
    for i in 0..part.len() {
        bits |= part[i];
    }
    bits == 0
}

// Numbers that are read before the next test.
const PART: usize = 512;

// Whether every number of the table is 0. It ends with the first part that has another one.
pub fn all_zero(table: &[u64]) -> bool
    ensures { Decides result (table.now ≡ replicate (length table.now) 0) }
{
    let mut from = 0;
    while from < table.len() {
        let to = table.len().min(from.saturating_add(PART));
        if !part_zero(&table[from..to]) {
            return false;
        }
        from = to;
    }
    true
}

// Copies bytes into the store from place `at` on, as far as the store goes.
// A loop, as `copy_from_slice` would have callers in C link a further function of the C library.
pub fn copy_in(store: &mut [u8], at: usize, bytes: &[u8])
    ensures { store.new ≡ sets store.old at bytes.now }
{
    if store.len() <= at {
        return;
    }
    let many = bytes.len().min(store.len() - at);
    for i in 0..many {
        store[at + i] = bytes[i];
    }
}

// So many bytes from an offset on; none where there are not so many.
#[tactic(auto, using(crate::proofs::Parts::part_none), unfolding(crate::specs::Parts::part_of))]
pub fn part<'a>(bytes: &'a [u8], offset: u64, many: u64) -> &'a [u8]
    ensures { result.now ≡ part_of bytes.now offset many }
{
    let Some(to) = offset.checked_add(many) else {
        return &[];
    };
    match bytes.get(offset as usize..to as usize) {
        Some(part) => part,
        None => &[],
    }
}
