// The columns of an entry's row. Rows are numbered from 0 and stand behind a head whose first number is their count.
ghost use Rattle.std.specs.Prelude.{◌≡◌, ◌+◌, ◌-◌, ◌*◌, ◌/◌, length, set};
ghost use Rattle.history.specs.Lent.{entry_width, entry_head};
ghost use Rattle.tables.specs.Columns.{entry_column};

pub const BLOCK: usize = 0;
// The first cell of the entry's block: a binary search stays in this table.
pub const KEY: usize = 1;

pub const COUNT: usize = 0;

// Numbers in the head, and in a row.
pub const HEAD: usize = 8;

pub const WIDTH: usize = 2;

// How many rows the table has.
pub fn rows(entries: &[u64]) -> u64
    ensures { result ≡ (length entries.now - entry_head) / entry_width }
{
    (entries.len().saturating_sub(HEAD) / WIDTH) as u64
}

// Column `col` of an entry row.
pub fn get(entries: &[u64], row: u64, col: usize) -> u64
    ensures { result ≡ entry_column entries.now row col }
{
    super::cell::<WIDTH>(entries, row, HEAD.saturating_add(col))
}

// Sets column `col` of an entry row.
pub fn put(entries: &mut [u64], row: u64, col: usize, value: u64)
    ensures { entries.new ≡ set entries.old (entry_head + (entry_width * row + col)) value }
{
    super::set_cell::<WIDTH>(entries, row, HEAD.saturating_add(col), value);
}
