// The reads of an index: block by number, find, read cells, write; and the clock, which needs none. A slice that is lent for an answer must be as it was
// where the answer does not reach, and after a refusal everywhere.
use crate::lent::Tables;
use crate::rows::{self, Call, Row};
use crate::{alike, damage};

const BLOCK_NUMBER: usize = 2;

const BLOCK_KIND: usize = 3;

const BLOCK_FIRST: usize = 4;

const BLOCK_LENGTH: usize = 5;

const BLOCK_CREATED: usize = 6;

const BLOCK_DESTROYED: usize = 7;

const BLOCK_START: usize = 8;

pub const TICK: usize = 2;

pub const START: usize = 3;

pub const END: usize = 4;

pub const FIND_ROOM: usize = 5;

pub const FIND_COUNT: usize = 6;

const FIND_VISITED: usize = 7;

pub const FIND_LISTED: usize = 8;

const CELLS_BYTE_ROOM: usize = 5;

const CELLS_HELD_ROOM: usize = 6;

const CELLS_BYTES: usize = 7;

const CELLS_HELD: usize = 8;

const WRITE_ROOM: usize = 2;

const WRITE_START: usize = 3;

const WRITE_LENGTH: usize = 4;

const CLOCK_CELL: usize = 2;

const CLOCK_LABEL: usize = 3;

// The most numbers of an answer, and cells of a window.
pub const ANSWER: usize = 64;

const WINDOW: usize = 64;

// After a refusal the block's bytes are none, and so are those of the row.
pub fn block(t: &Tables<'_>, call: Call<'_>, told: &mut Row) {
    let number = call.get(BLOCK_NUMBER);
    match index::block(t.lent(), number) {
        Ok(given) => {
            told.tell(BLOCK_KIND, given.kind);
            told.tell(BLOCK_FIRST, given.first);
            told.tell(BLOCK_LENGTH, given.length);
            told.tell(BLOCK_CREATED, given.created);
            told.tell(BLOCK_DESTROYED, given.destroyed);
        }
        Err(refusal) => told.refuse(u64::from(refusal)),
    }
    let bytes = index::block_bytes(t.pieces, t.blocks, t.store, t.nodes, t.entries, number);
    told.must(bytes == call.part(BLOCK_START, BLOCK_LENGTH));
}

pub fn find(t: &Tables<'_>, call: Call<'_>, told: &mut Row) {
    let mut answer = [u64::from(alike::UNTOUCHED); ANSWER];
    let room = call.get(FIND_ROOM) as usize;
    if ANSWER < room {
        told.must(false);
        return;
    }
    let asked = index::find(
        t.lent(),
        call.row.kind(),
        call.get(TICK),
        call.get(START),
        call.get(END),
        &mut answer[..room],
    );
    match asked {
        Ok(found) => {
            told.tell(FIND_COUNT, found.count);
            told.tell(FIND_VISITED, found.visited);
        }
        Err(refusal) => told.refuse(u64::from(refusal)),
    }
    told.must(alike::is_filled(&answer, call.part(FIND_LISTED, FIND_COUNT)));
}

// How many cells must be shown.
fn shown(row: &Row) -> u64 {
    if row.get(rows::REFUSAL) != 0 {
        return 0;
    }
    row.get(END).saturating_sub(row.get(START))
}

pub fn cells(t: &Tables<'_>, call: Call<'_>, told: &mut Row) {
    let mut bytes = [alike::UNTOUCHED; WINDOW];
    let mut held = [alike::UNTOUCHED; WINDOW];
    let byte_room = call.get(CELLS_BYTE_ROOM) as usize;
    let held_room = call.get(CELLS_HELD_ROOM) as usize;
    if WINDOW < byte_room || WINDOW < held_room {
        told.must(false);
        return;
    }
    let read = cells::read_cells(
        t.lent(),
        call.row.kind(),
        call.get(TICK),
        call.get(START),
        call.get(END),
        &mut bytes[..byte_room],
        &mut held[..held_room],
    );
    match read {
        Ok(()) => {}
        Err(refusal) => told.refuse(u64::from(refusal)),
    }
    let many = shown(call.row);
    let right_bytes = tables::part(call.pool, call.get(CELLS_BYTES), many);
    let right_held = tables::part(call.pool, call.get(CELLS_HELD), many);
    told.must(alike::is_filled(&bytes, right_bytes));
    told.must(alike::is_filled(&held, right_held));
}

pub fn write(t: &Tables<'_>, call: Call<'_>, told: &mut Row) {
    let mut out = [alike::UNTOUCHED; damage::FILE];
    let room = call.get(WRITE_ROOM) as usize;
    if damage::FILE < room {
        told.must(false);
        return;
    }
    let lent = &mut out[..room];
    match spacetime_file::serialize_to(t.lent(), lent) {
        Ok(many) => told.tell(WRITE_LENGTH, many),
        Err(refusal) => told.refuse(u64::from(refusal)),
    }
    told.must(alike::is_filled(&out, call.part(WRITE_START, WRITE_LENGTH)));
}

pub fn clock(t: &Tables<'_>, call: Call<'_>, told: &mut Row) {
    let cell = call.get(CLOCK_CELL);
    match clock::clock(t.lent(), cell) {
        Ok(label) => told.tell(CLOCK_LABEL, label),
        Err(refusal) => told.refuse(u64::from(refusal)),
    }
}
