// The columns of a block's row, and of the head, whose last row is the row of link 0.
ghost use Rattle.std.specs.Prelude.{◌≡◌, ◌+◌, ◌*◌, set};
ghost use Rattle.history.specs.Lent.{row_width};
ghost use Rattle.tables.specs.Columns.{block_column, block_base};

pub const FIRST: usize = 0;

pub const LENGTH: usize = 1;

pub const CREATED: usize = 2;

pub const DESTROYED: usize = 3;

pub const OFFSET: usize = 4;
// The kind of the block.
pub const OWNER: usize = 5;
// Finish's to work with while it decides rule 24, in rows and in the head: 0 in an open index; in a closed one nothing reads it.
pub const NEXT: usize = 6;
// Not used; 0 in a new row.
pub const SPARE: usize = 7;

pub const STATE: usize = 0;

pub const END: usize = 1;

// The set of kinds, as a mask.
pub const KINDS: usize = 2;

pub const COUNT: usize = 3;

pub const USED: usize = 4;

pub const LAST: usize = 5;

// The largest number in the head's column END.
pub const MAX_END_TICK: u64 = 1 << 63;

// What stands in the head's column STATE.
pub const OPEN: u64 = 1;

pub const CLOSED: u64 = 2;

// Numbers in the head.
pub const HEAD: usize = 2048;
// Numbers in front of the row of link 0: the front of the head.
pub const BASE: usize = HEAD - super::ROW;

// Places in the front of the head, each behind the one before it. All but the calendar and the list of days are free until the requests that fill them:
// zeros from open or load on, and no call reads them. A planner's floor, and how many pieces he holds.
pub const FLOORS: usize = 0;

pub const COUNTS: usize = FLOORS + 16;
// The calendar: whether installed; seven days of 17; how many days of its own, and 64 of 18.
pub const CALENDAR: usize = COUNTS + 16;
// The list of days: how many, and 64 of 2.
pub const DAYS: usize = CALENDAR + (1 + 7 * 17 + 1 + 64 * 18);
// How many marks there are.
pub const MARK_COUNT: usize = DAYS + (1 + 64 * 2);
// How many calls were accepted.
pub const CALLS: usize = MARK_COUNT + 1;
// 32 marks of 16: twelve bytes of the name, number, block count, store use, last tick.
pub const MARKS: usize = CALLS + 1;
// What stands behind is free.
pub const REST: usize = MARKS + 32 * 16;

// Column `col` of the row of `link`.
pub fn get(blocks: &[u64], link: u64, col: usize) -> u64
    ensures { result ≡ block_column blocks.now link col }
{
    super::get(blocks, link, BASE.saturating_add(col))
}

// Sets column `col` of the row of `link`.
pub fn put(blocks: &mut [u64], link: u64, col: usize, value: u64)
    ensures { blocks.new ≡ set blocks.old (row_width * link + (block_base + col)) value }
{
    super::put(blocks, link, BASE.saturating_add(col), value);
}
