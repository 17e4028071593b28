// The calls after one test, for Rust and C: each takes the number of the state that `servercape_state` gave in place of a test of its own, then what the
// public call takes, less the tables that it does not use. Where the state is true of the tables each is the public call of its name, by number and
// values (crate `servercape`). Where it is false the answer means nothing, but every call ends and stays in its slices. There is a function for each name, as
// there.
//
//   specs/States       the calls at the state that a number stands for (crate `index_test`)
//   proofs/Numbering   one step for each return

#![tactic(auto)]

ghost use Rattle.std.specs.Prelude.{length};
ghost use Rattle.layout.specs.Tables.{tables};
ghost use Rattle.index_record.specs.Calls.{operation};
ghost use Rattle.servercape.specs.Numbers.{changes, counts, near, fields, summary, report};
ghost use Rattle.servercape_tested.specs.States.{StateTold, RecordedAs, FoundAs, BlockAs, TouchedAs, NextAs, LastAs, CellsAs, WrittenAs, ClockAs, InfoAs, OccupationAs};

use index::Operation;
use index_test::State;
use layout::Tables;
use segment_near::Side;
use segment_table::lent::Closed;
use servercape::answers;

// Tests the tables: 0 not well formed, 1 open, 2 closed.
pub fn servercape_state(
    pieces: &[u64],
    blocks: &[u64],
    store: &[u8],
    nodes: &[u64],
    entries: &[u64],
) -> u64
    ensures { StateTold (tables pieces.now blocks.now store.now nodes.now entries.now) result }
{
    let lent = Tables {
        pieces,
        blocks,
        store,
        nodes,
        entries,
    };
    u64::from(index_test::test(lent))
}

// Records an operation of a kind.
pub fn servercape_record_tested(
    state: u64,
    pieces: &mut [u64],
    blocks: &mut [u64],
    store: &mut [u8],
    scratch: &[u64],
    kind: u8,
    tick: u64,
    first: u64,
    bytes: &[u8],
    updated: &mut u64,
    cell: &mut u64,
) -> u64
    ensures { RecordedAs state pieces.old blocks.old store.old pieces.new blocks.new store.new
        (length scratch.now) (operation kind tick first bytes.now) result
        (changes updated.old cell.old) (changes updated.new cell.new) }
{
    let op = Operation {
        kind: u64::from(kind),
        tick,
        first,
        bytes,
    };
    let recorded = index_tested::record_tested(
        State::from(state),
        pieces,
        blocks,
        store,
        scratch,
        op,
    );
    answers::maybe(recorded, updated, cell)
}

// The block of a number: its bytes are the store's part of that length at the offset.
pub fn servercape_block_tested(
    state: u64,
    blocks: &[u64],
    store: &[u8],
    number: u64,
    kind: &mut u64,
    first: &mut u64,
    length: &mut u64,
    created: &mut u64,
    destroyed: &mut u64,
    offset: &mut u64,
) -> u64
    ensures { BlockAs state blocks.now store.now number result
        (fields kind.old first.old length.old created.old destroyed.old offset.old)
        (fields kind.new first.new length.new created.new destroyed.new offset.new) }
{
    let given = index_tested::block_tested(State::from(state), blocks, store, number);
    answers::block(given, kind, first, length, created, destroyed, offset)
}

// The live blocks of a kind whose first cell is in [start, end) at a tick: their numbers go into the lent answer.
pub fn servercape_find_tested(
    state: u64,
    blocks: &[u64],
    nodes: &[u64],
    entries: &[u64],
    kind: u8,
    tick: u64,
    start: u64,
    end: u64,
    answer: &mut [u64],
    count: &mut u64,
    visited: &mut u64,
) -> u64
    ensures { FoundAs state blocks.now nodes.now entries.now kind tick start end answer.old answer.new result
        (counts count.old visited.old) (counts count.new visited.new) }
{
    let closed = Closed {
        blocks,
        nodes,
        entries,
    };
    let asked = index_tested::find_tested(
        State::from(state),
        &closed,
        kind,
        tick,
        start,
        end,
        answer,
    );
    answers::found(asked, count, visited)
}

// The live blocks of a kind that hold a cell of [start, end) at a tick, ascending by first cell: their numbers go into the lent answer.
pub fn servercape_touching_tested(
    state: u64,
    blocks: &[u64],
    nodes: &[u64],
    entries: &[u64],
    kind: u8,
    tick: u64,
    start: u64,
    end: u64,
    answer: &mut [u64],
    count: &mut u64,
) -> u64
    ensures { TouchedAs state blocks.now nodes.now entries.now kind tick start end answer.old answer.new result
        count.old count.new }
{
    let closed = Closed {
        blocks,
        nodes,
        entries,
    };
    let touched = reads_tested::touching_tested(
        State::from(state),
        &closed,
        kind,
        tick,
        start,
        end,
        answer,
    );
    answers::number(touched, count)
}

// The first live block of a kind that starts at the cell or after it: 1 and its number, or 0 and 0 where there is none.
pub fn servercape_next_tested(
    state: u64,
    blocks: &[u64],
    nodes: &[u64],
    entries: &[u64],
    kind: u8,
    tick: u64,
    cell: u64,
    found: &mut u64,
    number: &mut u64,
) -> u64
    ensures { NextAs state blocks.now nodes.now entries.now kind tick cell result
        (near found.old number.old) (near found.new number.new) }
{
    let closed = Closed {
        blocks,
        nodes,
        entries,
    };
    let block = reads_tested::near_tested(
        State::from(state),
        &closed,
        Side::From,
        kind,
        tick,
        cell,
    );
    answers::maybe(block, found, number)
}

// The last live block of a kind whose cells are all below the cell: 1 and its number, or 0 and 0 where there is none.
pub fn servercape_last_tested(
    state: u64,
    blocks: &[u64],
    nodes: &[u64],
    entries: &[u64],
    kind: u8,
    tick: u64,
    cell: u64,
    found: &mut u64,
    number: &mut u64,
) -> u64
    ensures { LastAs state blocks.now nodes.now entries.now kind tick cell result
        (near found.old number.old) (near found.new number.new) }
{
    let closed = Closed {
        blocks,
        nodes,
        entries,
    };
    let block = reads_tested::near_tested(
        State::from(state),
        &closed,
        Side::Before,
        kind,
        tick,
        cell,
    );
    answers::maybe(block, found, number)
}

// The byte of each cell of [start, end) of a kind at a tick, and 1 where a live block holds it.
pub fn servercape_read_cells_tested(
    state: u64,
    blocks: &[u64],
    store: &[u8],
    nodes: &[u64],
    entries: &[u64],
    kind: u8,
    tick: u64,
    start: u64,
    end: u64,
    bytes: &mut [u8],
    held: &mut [u8],
) -> u64
    ensures { CellsAs state blocks.now store.now nodes.now entries.now kind tick start end
        bytes.old bytes.new held.old held.new result }
{
    let closed = Closed {
        blocks,
        nodes,
        entries,
    };
    let read = reads_tested::cells_tested(
        State::from(state),
        &closed,
        store,
        kind,
        tick,
        start,
        end,
        bytes,
        held,
    );
    answers::done(read)
}

/// The occupation of some windows of a kind at a tick: occupied cells over all cells, reduced fully, and in tenths of a percent.
pub fn servercape_occupation_tested(
    state: u64,
    blocks: &[u64],
    store: &[u8],
    nodes: &[u64],
    entries: &[u64],
    kind: u8,
    tick: u64,
    windows: &[u64],
    occupied: &mut u64,
    cells: &mut u64,
    tenths: &mut u64,
) -> u64
    ensures { OccupationAs state blocks.now store.now nodes.now entries.now kind tick windows.now result
        (report occupied.old cells.old tenths.old) (report occupied.new cells.new tenths.new) }
{
    let closed = Closed {
        blocks,
        nodes,
        entries,
    };
    let reported = reports_tested::occupation_tested(
        State::from(state),
        &closed,
        store,
        kind,
        tick,
        windows,
    );
    answers::report(reported, occupied, cells, tenths)
}

// Writes the file of a finished or loaded index from the start of `out` on: how many bytes.
pub fn servercape_write_tested(
    state: u64,
    blocks: &[u64],
    store: &[u8],
    nodes: &[u64],
    entries: &[u64],
    out: &mut [u8],
    written: &mut u64,
) -> u64
    ensures { WrittenAs state blocks.now store.now nodes.now entries.now out.old out.new result
        written.old written.new }
{
    let closed = Closed {
        blocks,
        nodes,
        entries,
    };
    let count = reads_tested::write_tested(State::from(state), &closed, store, out);
    answers::number(count, written)
}

// The clock label of a cell, by the list of days of an open or a closed index.
pub fn servercape_clock_tested(state: u64, blocks: &[u64], cell: u64, label: &mut u64) -> u64
    ensures { ClockAs state blocks.now cell result label.old label.new }
{
    let shown = reads_tested::clock_tested(State::from(state), blocks, cell);
    answers::number(shown, label)
}

// What stands in an index, open or closed.
pub fn servercape_info_tested(
    state: u64,
    pieces: &[u64],
    blocks: &[u64],
    nodes: &[u64],
    entries: &[u64],
    info: &mut answers::Info,
) -> u64
    ensures { InfoAs state pieces.now blocks.now nodes.now entries.now result
        (summary info.old) (summary info.new) }
{
    let told = reads_tested::info_tested(State::from(state), pieces, blocks, nodes, entries);
    answers::standing(told, info)
}
