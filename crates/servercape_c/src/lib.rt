// The exports of the library for Rust and C: each calls the function of `servercape` of its name and has its clauses. C callers link the archive that this crate makes.
// Callers link by name and pass numbers and slices one by one: so there is an export for each name. `servercape_info` alone hands out a struct, of nine numbers.
// tools/bindings writes the parameters from bindings/servercape.h; contracts and bodies are written by hand.

#![tactic(auto)]

ghost use Rattle.std.specs.Prelude.{◌≡◌, length};
ghost use Rattle.layout.specs.Tables.{tables};
ghost use Rattle.layout.specs.Relations.{OpenedBy, RecordedBy, FinishedBy, InstalledBy, DaysInstalledBy, ClockGivenBy, BlockGivenBy, FoundBy, TouchedBy, NextGivenBy, LastGivenBy};
ghost use Rattle.history.specs.Results.{done};
ghost use Rattle.layout.specs.Files.{WrittenBy, LoadedBy};
ghost use Rattle.index_record.specs.Calls.{operation};
ghost use Rattle.cells.specs.Answers.{CellsReadBy};
ghost use Rattle.occupation_read.specs.Answers.{OccupationReportedBy};
ghost use Rattle.record_all.specs.Many.{RecordedAll};
ghost use Rattle.find_all.specs.Many.{FoundAll};
ghost use Rattle.lengths.specs.Lengths.{length_for};
ghost use Rattle.info.specs.Info.{InfoGivenBy};
ghost use Rattle.servercape.specs.Numbers.{ByNumber, ToldAs, changes, changes_of, counts, near, fields, summary, report};

use servercape::answers::Info;

// The version of the library that is linked, 0.2.0: major * 1,000,000 + minor * 1,000 + patch.
#[unsafe(no_mangle)]
pub extern "C" fn servercape_version() -> u64
    ensures { result ≡ 2000 }
{
    servercape::servercape_version()
}

// How many numbers (of the store: bytes) to lend for so many rows: table 0 pieces, 1 blocks, 2 store, 3 nodes, 4 entries, 5 scratch. 0 where that is no
// 64-bit number, and for any other table.
#[unsafe(no_mangle)]
pub extern "C" fn servercape_length(table: u64, rows: u64) -> u64
    ensures { result ≡ length_for table rows }
{
    servercape::servercape_length(table, rows)
}

// Opens an index in the lent tables, for a set of kinds: a byte for each.
#[unsafe(no_mangle)]
pub extern "C" fn servercape_open(
    pieces: &mut [u64],
    blocks: &mut [u64],
    store: &[u8],
    nodes: &mut [u64],
    entries: &mut [u64],
    end_tick: u64,
    kinds: &[u8],
) -> u64
    ensures { ByNumber (OpenedBy end_tick kinds.now
        (tables pieces.old blocks.old store.now nodes.old entries.old)
        (tables pieces.new blocks.new store.now nodes.new entries.new)) result tt tt }
{
    servercape::changes::servercape_open(pieces, blocks, store, nodes, entries, end_tick, kinds)
}

// Records an operation of a kind.
#[unsafe(no_mangle)]
pub extern "C" fn servercape_record(
    pieces: &mut [u64],
    blocks: &mut [u64],
    store: &mut [u8],
    nodes: &[u64],
    entries: &[u64],
    scratch: &[u64],
    kind: u8,
    tick: u64,
    first: u64,
    bytes: &[u8],
    updated: &mut u64,
    cell: &mut u64,
) -> u64
    ensures { ByNumber (ToldAs changes_of (RecordedBy (length scratch.now) (operation kind tick first bytes.now)
        (tables pieces.old blocks.old store.old nodes.now entries.now)
        (tables pieces.new blocks.new store.new nodes.now entries.now))) result
        (changes updated.old cell.old) (changes updated.new cell.new) }
{
    servercape::changes::servercape_record(
        pieces, blocks, store, nodes, entries, scratch, kind, tick, first, bytes, updated, cell,
    )
}

// Records the operations of a list, all of one kind, with one test of the tables for all: how many were played, and the position behind them.
#[unsafe(no_mangle)]
pub extern "C" fn servercape_record_all(
    pieces: &mut [u64],
    blocks: &mut [u64],
    store: &mut [u8],
    nodes: &[u64],
    entries: &[u64],
    scratch: &[u64],
    kind: u8,
    operations: &[u8],
    answers: &mut [u64],
    next: &mut u64,
) -> u64
    ensures { RecordedAll (length scratch.now) kind operations.now
        (tables pieces.old blocks.old store.old nodes.now entries.now)
        (tables pieces.new blocks.new store.new nodes.now entries.now)
        answers.old answers.new result next.new }
{
    servercape::changes::servercape_record_all(
        pieces, blocks, store, nodes, entries, scratch, kind, operations, answers, next,
    )
}

// Finishes an index.
#[unsafe(no_mangle)]
pub extern "C" fn servercape_finish(
    pieces: &mut [u64],
    blocks: &mut [u64],
    store: &[u8],
    nodes: &mut [u64],
    entries: &mut [u64],
) -> u64
    ensures { ByNumber (FinishedBy
        (tables pieces.old blocks.old store.now nodes.old entries.old)
        (tables pieces.new blocks.new store.now nodes.new entries.new)) result done done }
{
    servercape::changes::servercape_finish(pieces, blocks, store, nodes, entries)
}

// Installs a calendar into an open index, in place of the one before.
#[unsafe(no_mangle)]
pub extern "C" fn servercape_install_calendar(
    pieces: &[u64],
    blocks: &mut [u64],
    store: &[u8],
    nodes: &[u64],
    entries: &[u64],
    calendar: &[u64],
) -> u64
    ensures { ByNumber (InstalledBy calendar.now
        (tables pieces.now blocks.old store.now nodes.now entries.now)
        (tables pieces.now blocks.new store.now nodes.now entries.now)) result done done }
{
    servercape::changes::servercape_install_calendar(
        pieces, blocks, store, nodes, entries, calendar,
    )
}

// Installs a list of days of 23 and 25 hours into an open or a closed index, in place of the one before.
#[unsafe(no_mangle)]
pub extern "C" fn servercape_install_days(
    pieces: &[u64],
    blocks: &mut [u64],
    store: &[u8],
    nodes: &[u64],
    entries: &[u64],
    days: &[u64],
) -> u64
    ensures { ByNumber (DaysInstalledBy days.now
        (tables pieces.now blocks.old store.now nodes.now entries.now)
        (tables pieces.now blocks.new store.now nodes.now entries.now)) result done done }
{
    servercape::changes::servercape_install_days(pieces, blocks, store, nodes, entries, days)
}

// The block of a number: its bytes are the store's part of that length at the offset.
#[unsafe(no_mangle)]
pub extern "C" fn servercape_block(
    pieces: &[u64],
    blocks: &[u64],
    store: &[u8],
    nodes: &[u64],
    entries: &[u64],
    number: u64,
    kind: &mut u64,
    first: &mut u64,
    length: &mut u64,
    created: &mut u64,
    destroyed: &mut u64,
    offset: &mut u64,
) -> u64
    ensures { ByNumber (BlockGivenBy
        (tables pieces.now blocks.now store.now nodes.now entries.now) number) result
        (fields kind.old first.old length.old created.old destroyed.old offset.old)
        (fields kind.new first.new length.new created.new destroyed.new offset.new) }
{
    servercape::reads::servercape_block(
        pieces, blocks, store, nodes, entries, number, kind, first, length, created, destroyed,
        offset,
    )
}

// The live blocks of a kind whose first cell is in [start, end) at a tick: their numbers go into the lent answer.
#[unsafe(no_mangle)]
pub extern "C" fn servercape_find(
    pieces: &[u64],
    blocks: &[u64],
    store: &[u8],
    nodes: &[u64],
    entries: &[u64],
    kind: u8,
    tick: u64,
    start: u64,
    end: u64,
    answer: &mut [u64],
    count: &mut u64,
    visited: &mut u64,
) -> u64
    ensures { ByNumber (FoundBy
        (tables pieces.now blocks.now store.now nodes.now entries.now) kind tick start end
        answer.old answer.new) result
        (counts count.old visited.old) (counts count.new visited.new) }
{
    servercape::reads::servercape_find(
        pieces, blocks, store, nodes, entries, kind, tick, start, end, answer, count, visited,
    )
}

// Asks the queries of a list, all of one kind, with one test of the tables for all: how many were asked.
#[unsafe(no_mangle)]
pub extern "C" fn servercape_find_all(
    pieces: &[u64],
    blocks: &[u64],
    store: &[u8],
    nodes: &[u64],
    entries: &[u64],
    kind: u8,
    queries: &[u64],
    answers: &mut [u64],
    numbers: &mut [u64],
) -> u64
    ensures { FoundAll
        (tables pieces.now blocks.now store.now nodes.now entries.now) kind
        queries.now answers.old answers.new numbers.old numbers.new result }
{
    servercape::reads::servercape_find_all(
        pieces, blocks, store, nodes, entries, kind, queries, answers, numbers,
    )
}

// The live blocks of a kind that hold a cell of [start, end) at a tick, ascending by first cell: their numbers go into the lent answer.
#[unsafe(no_mangle)]
pub extern "C" fn servercape_touching(
    pieces: &[u64],
    blocks: &[u64],
    store: &[u8],
    nodes: &[u64],
    entries: &[u64],
    kind: u8,
    tick: u64,
    start: u64,
    end: u64,
    answer: &mut [u64],
    count: &mut u64,
) -> u64
    ensures { ByNumber (TouchedBy
        (tables pieces.now blocks.now store.now nodes.now entries.now) kind tick start end
        answer.old answer.new) result count.old count.new }
{
    servercape::reads::servercape_touching(
        pieces, blocks, store, nodes, entries, kind, tick, start, end, answer, count,
    )
}

// The first live block of a kind that starts at the cell or after it: 1 and its number, or 0 and 0 where there is none.
#[unsafe(no_mangle)]
pub extern "C" fn servercape_next(
    pieces: &[u64],
    blocks: &[u64],
    store: &[u8],
    nodes: &[u64],
    entries: &[u64],
    kind: u8,
    tick: u64,
    cell: u64,
    found: &mut u64,
    number: &mut u64,
) -> u64
    ensures { ByNumber (NextGivenBy
        (tables pieces.now blocks.now store.now nodes.now entries.now) kind tick cell) result
        (near found.old number.old) (near found.new number.new) }
{
    servercape::reads::servercape_next(
        pieces, blocks, store, nodes, entries, kind, tick, cell, found, number,
    )
}

// The last live block of a kind whose cells are all below the cell: 1 and its number, or 0 and 0 where there is none.
#[unsafe(no_mangle)]
pub extern "C" fn servercape_last(
    pieces: &[u64],
    blocks: &[u64],
    store: &[u8],
    nodes: &[u64],
    entries: &[u64],
    kind: u8,
    tick: u64,
    cell: u64,
    found: &mut u64,
    number: &mut u64,
) -> u64
    ensures { ByNumber (LastGivenBy
        (tables pieces.now blocks.now store.now nodes.now entries.now) kind tick cell) result
        (near found.old number.old) (near found.new number.new) }
{
    servercape::reads::servercape_last(
        pieces, blocks, store, nodes, entries, kind, tick, cell, found, number,
    )
}

// The byte of each cell of [start, end) of a kind at a tick, and 1 where a live block holds it.
#[unsafe(no_mangle)]
pub extern "C" fn servercape_read_cells(
    pieces: &[u64],
    blocks: &[u64],
    store: &[u8],
    nodes: &[u64],
    entries: &[u64],
    kind: u8,
    tick: u64,
    start: u64,
    end: u64,
    bytes: &mut [u8],
    held: &mut [u8],
) -> u64
    ensures { ByNumber (CellsReadBy
        (tables pieces.now blocks.now store.now nodes.now entries.now) kind tick start end
        bytes.old bytes.new held.old held.new) result tt tt }
{
    servercape::reads::servercape_read_cells(
        pieces, blocks, store, nodes, entries, kind, tick, start, end, bytes, held,
    )
}

/// The occupation of some windows of a kind at a tick: occupied cells over all cells, reduced fully, and in tenths of a percent. Windows are pairs, start and end.
#[unsafe(no_mangle)]
pub extern "C" fn servercape_occupation(
    pieces: &[u64],
    blocks: &[u64],
    store: &[u8],
    nodes: &[u64],
    entries: &[u64],
    kind: u8,
    tick: u64,
    windows: &[u64],
    occupied: &mut u64,
    cells: &mut u64,
    tenths: &mut u64,
) -> u64
    ensures { ByNumber (OccupationReportedBy
        (tables pieces.now blocks.now store.now nodes.now entries.now) kind tick windows.now) result
        (report occupied.old cells.old tenths.old) (report occupied.new cells.new tenths.new) }
{
    servercape::reads::servercape_occupation(
        pieces, blocks, store, nodes, entries, kind, tick, windows, occupied, cells, tenths,
    )
}

// Writes the file of a finished or loaded index from the start of `out` on: how many bytes.
#[unsafe(no_mangle)]
pub extern "C" fn servercape_write(
    pieces: &[u64],
    blocks: &[u64],
    store: &[u8],
    nodes: &[u64],
    entries: &[u64],
    out: &mut [u8],
    written: &mut u64,
) -> u64
    ensures { ByNumber (WrittenBy
        (tables pieces.now blocks.now store.now nodes.now entries.now)
        out.old out.new) result written.old written.new }
{
    servercape::files::servercape_write(pieces, blocks, store, nodes, entries, out, written)
}

// Loads a finished index from a file, from a position on: the position after it.
#[unsafe(no_mangle)]
pub extern "C" fn servercape_load(
    pieces: &mut [u64],
    blocks: &mut [u64],
    store: &mut [u8],
    nodes: &mut [u64],
    entries: &mut [u64],
    file: &[u8],
    at: u64,
    next: &mut u64,
) -> u64
    ensures { ByNumber (LoadedBy file.now at
        (tables pieces.old blocks.old store.old nodes.old entries.old)
        (tables pieces.new blocks.new store.new nodes.new entries.new)) result
        next.old next.new }
{
    servercape::files::servercape_load(pieces, blocks, store, nodes, entries, file, at, next)
}

// The clock label of a cell, by the list of days of an open or a closed index.
#[unsafe(no_mangle)]
pub extern "C" fn servercape_clock(
    pieces: &[u64],
    blocks: &[u64],
    store: &[u8],
    nodes: &[u64],
    entries: &[u64],
    cell: u64,
    label: &mut u64,
) -> u64
    ensures { ByNumber (ClockGivenBy
        (tables pieces.now blocks.now store.now nodes.now entries.now) cell) result
        label.old label.new }
{
    servercape::reads::servercape_clock(pieces, blocks, store, nodes, entries, cell, label)
}

// What stands in an index, open or closed.
#[unsafe(no_mangle)]
pub extern "C" fn servercape_info(
    pieces: &[u64],
    blocks: &[u64],
    store: &[u8],
    nodes: &[u64],
    entries: &[u64],
    info: &mut Info,
) -> u64
    ensures { ByNumber (InfoGivenBy
        (tables pieces.now blocks.now store.now nodes.now entries.now)) result
        (summary info.old) (summary info.new) }
{
    servercape::reads::servercape_info(pieces, blocks, store, nodes, entries, info)
}
