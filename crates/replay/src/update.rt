// The calls that change an index: open, record, finish, load.
use crate::lent::Tables;
use crate::rows::{self, Call, Row};
use index::{Index, Operation};
use tables::{entry, node};

const OPEN_END: usize = 2;

// Where the kinds start in the pool, and how many there are.
const OPEN_KINDS: usize = 3;

const OPEN_LENGTH: usize = 4;

const RECORD_TICK: usize = 2;

const RECORD_FIRST: usize = 3;

const RECORD_START: usize = 4;

const RECORD_LENGTH: usize = 5;

// 1 and the first cell that changes, of an update; 0 and 0 of a read.
const RECORD_UPDATED: usize = 6;

const RECORD_CELL: usize = 7;

const FINISH_BLOCKS: usize = 2;

const FINISH_NODES: usize = 3;

const FINISH_ENTRIES: usize = 4;

const LOAD_AT: usize = 2;

const LOAD_START: usize = 3;

const LOAD_LENGTH: usize = 4;

const LOAD_NEXT: usize = 5;

const LOAD_END: usize = 6;

// The mask of the one kind.
const LOAD_KINDS: usize = 7;

const LOAD_BLOCKS: usize = 8;

// The most rows of pieces, and numbers in the scratch.
pub const PIECES: usize = 64;

const SCRATCH: usize = PIECES * tables::ROW + 7;

pub fn open(t: &mut Tables<'_>, call: Call<'_>, told: &mut Row) {
    let kinds = call.part(OPEN_KINDS, OPEN_LENGTH);
    let end = call.get(OPEN_END);
    let store = &mut *t.store;
    match Index::open(t.pieces, t.blocks, store, t.nodes, t.entries, end, kinds) {
        Ok(()) => {}
        Err(refusal) => told.refuse(u64::from(refusal)),
    }
}

pub fn record(t: &mut Tables<'_>, lent: u64, call: Call<'_>, told: &mut Row) {
    let scratch = [0; SCRATCH];
    let nodes = &mut *t.nodes;
    let entries = &mut *t.entries;
    let op = Operation {
        kind: u64::from(call.row.kind()),
        tick: call.get(RECORD_TICK),
        first: call.get(RECORD_FIRST),
        bytes: call.part(RECORD_START, RECORD_LENGTH),
    };
    let answer = index::record_op(
        t.pieces,
        t.blocks,
        t.store,
        nodes,
        entries,
        &scratch[..rows::at_most(lent, SCRATCH)],
        op,
    );
    match answer {
        Ok(None) => {
            told.tell(RECORD_UPDATED, 0);
            told.tell(RECORD_CELL, 0);
        }
        Ok(Some(cell)) => {
            told.tell(RECORD_UPDATED, 1);
            told.tell(RECORD_CELL, cell);
        }
        Err(refusal) => told.refuse(u64::from(refusal)),
    }
}

// How many blocks, nodes and entries a closed index has.
pub fn finish(t: &mut Tables<'_>, told: &mut Row) {
    let store = &mut *t.store;
    match index::finalize(t.pieces, t.blocks, store, t.nodes, t.entries) {
        Ok(()) => {
            told.tell(FINISH_BLOCKS, block_table::count(t.blocks));
            told.tell(FINISH_NODES, tables::get(t.nodes, 0, node::COUNT));
            told.tell(FINISH_ENTRIES, tables::get(t.entries, 0, entry::COUNT));
        }
        Err(refusal) => told.refuse(u64::from(refusal)),
    }
}

// Where a load ended, and what the index has.
pub fn load(t: &mut Tables<'_>, call: Call<'_>, told: &mut Row) {
    let file = call.part(LOAD_START, LOAD_LENGTH);
    let at = call.get(LOAD_AT) as usize;
    match spacetime_file::deserialize(t.pieces, t.blocks, t.store, t.nodes, t.entries, file, at) {
        Ok(next) => {
            told.tell(LOAD_NEXT, next as u64);
            told.tell(LOAD_END, block_table::end(t.blocks));
            told.tell(LOAD_KINDS, block_table::kinds(t.blocks));
            told.tell(LOAD_BLOCKS, block_table::count(t.blocks));
        }
        Err(refusal) => told.refuse(u64::from(refusal)),
    }
}
