// The exports of the library for Rust and C, after one test: each calls the function of `servercape_tested` of its name and has its clauses. C callers link the archive that this crate makes.
// Callers link by name and pass numbers and slices one by one: so there is an export for each name. `servercape_info_tested` alone hands out a struct, of nine numbers.
// tools/bindings writes the parameters from bindings/servercape_tested.h; contracts and bodies are written by hand.

#![tactic(auto)]

ghost use Rattle.std.specs.Prelude.{length};
ghost use Rattle.layout.specs.Tables.{tables};
ghost use Rattle.index_record.specs.Calls.{operation};
ghost use Rattle.servercape.specs.Numbers.{changes, counts, near, fields, summary, report};
ghost use Rattle.servercape_tested.specs.States.{StateTold, RecordedAs, FoundAs, BlockAs, TouchedAs, NextAs, LastAs, CellsAs, WrittenAs, ClockAs, InfoAs, OccupationAs};

use servercape::answers::Info;

// Tests the tables: 0 not well formed, 1 open, 2 closed.
#[unsafe(no_mangle)]
pub extern "C" fn servercape_state(
    pieces: &[u64],
    blocks: &[u64],
    store: &[u8],
    nodes: &[u64],
    entries: &[u64],
) -> u64
    ensures { StateTold (tables pieces.now blocks.now store.now nodes.now entries.now) result }
{
    servercape_tested::servercape_state(pieces, blocks, store, nodes, entries)
}

// Records an operation of a kind.
#[unsafe(no_mangle)]
pub extern "C" fn servercape_record_tested(
    state: u64,
    pieces: &mut [u64],
    blocks: &mut [u64],
    store: &mut [u8],
    scratch: &[u64],
    kind: u8,
    tick: u64,
    first: u64,
    bytes: &[u8],
    updated: &mut u64,
    cell: &mut u64,
) -> u64
    ensures { RecordedAs state pieces.old blocks.old store.old pieces.new blocks.new store.new
        (length scratch.now) (operation kind tick first bytes.now) result
        (changes updated.old cell.old) (changes updated.new cell.new) }
{
    servercape_tested::servercape_record_tested(
        state, pieces, blocks, store, scratch, kind, tick, first, bytes, updated, cell,
    )
}

// The block of a number: its bytes are the store's part of that length at the offset.
#[unsafe(no_mangle)]
pub extern "C" fn servercape_block_tested(
    state: u64,
    blocks: &[u64],
    store: &[u8],
    number: u64,
    kind: &mut u64,
    first: &mut u64,
    length: &mut u64,
    created: &mut u64,
    destroyed: &mut u64,
    offset: &mut u64,
) -> u64
    ensures { BlockAs state blocks.now store.now number result
        (fields kind.old first.old length.old created.old destroyed.old offset.old)
        (fields kind.new first.new length.new created.new destroyed.new offset.new) }
{
    servercape_tested::servercape_block_tested(
        state, blocks, store, number, kind, first, length, created, destroyed, offset,
    )
}

// The live blocks of a kind whose first cell is in [start, end) at a tick: their numbers go into the lent answer.
#[unsafe(no_mangle)]
pub extern "C" fn servercape_find_tested(
    state: u64,
    blocks: &[u64],
    nodes: &[u64],
    entries: &[u64],
    kind: u8,
    tick: u64,
    start: u64,
    end: u64,
    answer: &mut [u64],
    count: &mut u64,
    visited: &mut u64,
) -> u64
    ensures { FoundAs state blocks.now nodes.now entries.now kind tick start end answer.old answer.new result
        (counts count.old visited.old) (counts count.new visited.new) }
{
    servercape_tested::servercape_find_tested(
        state, blocks, nodes, entries, kind, tick, start, end, answer, count, visited,
    )
}

// The live blocks of a kind that hold a cell of [start, end) at a tick, ascending by first cell: their numbers go into the lent answer.
#[unsafe(no_mangle)]
pub extern "C" fn servercape_touching_tested(
    state: u64,
    blocks: &[u64],
    nodes: &[u64],
    entries: &[u64],
    kind: u8,
    tick: u64,
    start: u64,
    end: u64,
    answer: &mut [u64],
    count: &mut u64,
) -> u64
    ensures { TouchedAs state blocks.now nodes.now entries.now kind tick start end answer.old answer.new result
        count.old count.new }
{
    servercape_tested::servercape_touching_tested(
        state, blocks, nodes, entries, kind, tick, start, end, answer, count,
    )
}

// The first live block of a kind that starts at the cell or after it: 1 and its number, or 0 and 0 where there is none.
#[unsafe(no_mangle)]
pub extern "C" fn servercape_next_tested(
    state: u64,
    blocks: &[u64],
    nodes: &[u64],
    entries: &[u64],
    kind: u8,
    tick: u64,
    cell: u64,
    found: &mut u64,
    number: &mut u64,
) -> u64
    ensures { NextAs state blocks.now nodes.now entries.now kind tick cell result
        (near found.old number.old) (near found.new number.new) }
{
    servercape_tested::servercape_next_tested(
        state, blocks, nodes, entries, kind, tick, cell, found, number,
    )
}

// The last live block of a kind whose cells are all below the cell: 1 and its number, or 0 and 0 where there is none.
#[unsafe(no_mangle)]
pub extern "C" fn servercape_last_tested(
    state: u64,
    blocks: &[u64],
    nodes: &[u64],
    entries: &[u64],
    kind: u8,
    tick: u64,
    cell: u64,
    found: &mut u64,
    number: &mut u64,
) -> u64
    ensures { LastAs state blocks.now nodes.now entries.now kind tick cell result
        (near found.old number.old) (near found.new number.new) }
{
    servercape_tested::servercape_last_tested(
        state, blocks, nodes, entries, kind, tick, cell, found, number,
    )
}

// The byte of each cell of [start, end) of a kind at a tick, and 1 where a live block holds it.
#[unsafe(no_mangle)]
pub extern "C" fn servercape_read_cells_tested(
    state: u64,
    blocks: &[u64],
    store: &[u8],
    nodes: &[u64],
    entries: &[u64],
    kind: u8,
    tick: u64,
    start: u64,
    end: u64,
    bytes: &mut [u8],
    held: &mut [u8],
) -> u64
    ensures { CellsAs state blocks.now store.now nodes.now entries.now kind tick start end
        bytes.old bytes.new held.old held.new result }
{
    servercape_tested::servercape_read_cells_tested(
        state, blocks, store, nodes, entries, kind, tick, start, end, bytes, held,
    )
}

/// The occupation of some windows of a kind at a tick: occupied cells over all cells, reduced fully, and in tenths of a percent.
#[unsafe(no_mangle)]
pub extern "C" fn servercape_occupation_tested(
    state: u64,
    blocks: &[u64],
    store: &[u8],
    nodes: &[u64],
    entries: &[u64],
    kind: u8,
    tick: u64,
    windows: &[u64],
    occupied: &mut u64,
    cells: &mut u64,
    tenths: &mut u64,
) -> u64
    ensures { OccupationAs state blocks.now store.now nodes.now entries.now kind tick windows.now result
        (report occupied.old cells.old tenths.old) (report occupied.new cells.new tenths.new) }
{
    servercape_tested::servercape_occupation_tested(
        state, blocks, store, nodes, entries, kind, tick, windows, occupied, cells, tenths,
    )
}

// Writes the file of a finished or loaded index from the start of `out` on: how many bytes.
#[unsafe(no_mangle)]
pub extern "C" fn servercape_write_tested(
    state: u64,
    blocks: &[u64],
    store: &[u8],
    nodes: &[u64],
    entries: &[u64],
    out: &mut [u8],
    written: &mut u64,
) -> u64
    ensures { WrittenAs state blocks.now store.now nodes.now entries.now out.old out.new result
        written.old written.new }
{
    servercape_tested::servercape_write_tested(state, blocks, store, nodes, entries, out, written)
}

// The clock label of a cell, by the list of days of an open or a closed index.
#[unsafe(no_mangle)]
pub extern "C" fn servercape_clock_tested(
    state: u64,
    blocks: &[u64],
    cell: u64,
    label: &mut u64,
) -> u64
    ensures { ClockAs state blocks.now cell result label.old label.new }
{
    servercape_tested::servercape_clock_tested(state, blocks, cell, label)
}

// What stands in an index, open or closed.
#[unsafe(no_mangle)]
pub extern "C" fn servercape_info_tested(
    state: u64,
    pieces: &[u64],
    blocks: &[u64],
    nodes: &[u64],
    entries: &[u64],
    info: &mut Info,
) -> u64
    ensures { InfoAs state pieces.now blocks.now nodes.now entries.now result
        (summary info.old) (summary info.new) }
{
    servercape_tested::servercape_info_tested(state, pieces, blocks, nodes, entries, info)
}
