// The reads: block by number, find, touching, next, last, read cells, the occupation report, the clock and info.
ghost use Rattle.layout.specs.Tables.{tables};
ghost use Rattle.layout.specs.Relations.{ClockGivenBy, BlockGivenBy, FoundBy, TouchedBy, NextGivenBy, LastGivenBy};
ghost use Rattle.cells.specs.Answers.{CellsReadBy};
ghost use Rattle.occupation_read.specs.Answers.{OccupationReportedBy};
ghost use Rattle.find_all.specs.Many.{FoundAll};
ghost use Rattle.info.specs.Info.{InfoGivenBy};
ghost use Rattle.servercape.specs.Numbers.{ByNumber, counts, near, fields, summary, report};

use crate::answers;
use layout::Tables;
use touching::Side;

// The block of a number: its bytes are the store's part of that length at the offset.
pub fn servercape_block(
    pieces: &[u64],
    blocks: &[u64],
    store: &[u8],
    nodes: &[u64],
    entries: &[u64],
    number: u64,
    kind: &mut u64,
    first: &mut u64,
    length: &mut u64,
    created: &mut u64,
    destroyed: &mut u64,
    offset: &mut u64,
) -> u64
    ensures { ByNumber (BlockGivenBy
        (tables pieces.now blocks.now store.now nodes.now entries.now) number) result
        (fields kind.old first.old length.old created.old destroyed.old offset.old)
        (fields kind.new first.new length.new created.new destroyed.new offset.new) }
{
    let lent = Tables {
        pieces,
        blocks,
        store,
        nodes,
        entries,
    };
    let given = index::block(lent, number);
    answers::block(given, kind, first, length, created, destroyed, offset)
}

// The live blocks of a kind whose first cell is in [start, end) at a tick: their numbers go into the lent answer.
pub fn servercape_find(
    pieces: &[u64],
    blocks: &[u64],
    store: &[u8],
    nodes: &[u64],
    entries: &[u64],
    kind: u8,
    tick: u64,
    start: u64,
    end: u64,
    answer: &mut [u64],
    count: &mut u64,
    visited: &mut u64,
) -> u64
    ensures { ByNumber (FoundBy
        (tables pieces.now blocks.now store.now nodes.now entries.now) kind tick start end
        answer.old answer.new) result
        (counts count.old visited.old) (counts count.new visited.new) }
{
    let lent = Tables {
        pieces,
        blocks,
        store,
        nodes,
        entries,
    };
    let asked = index::find(lent, kind, tick, start, end, answer);
    answers::found(asked, count, visited)
}

// Asks the queries of a list, all of one kind, with one test of the tables for all: how many were asked.
pub fn servercape_find_all(
    pieces: &[u64],
    blocks: &[u64],
    store: &[u8],
    nodes: &[u64],
    entries: &[u64],
    kind: u8,
    queries: &[u64],
    answers: &mut [u64],
    numbers: &mut [u64],
) -> u64
    ensures { FoundAll
        (tables pieces.now blocks.now store.now nodes.now entries.now) kind
        queries.now answers.old answers.new numbers.old numbers.new result }
{
    let lent = Tables {
        pieces,
        blocks,
        store,
        nodes,
        entries,
    };
    find_all::find_all(lent, kind, queries, answers, numbers) as u64
}

// The live blocks of a kind that hold a cell of [start, end) at a tick, ascending by first cell: their numbers go into the lent answer.
pub fn servercape_touching(
    pieces: &[u64],
    blocks: &[u64],
    store: &[u8],
    nodes: &[u64],
    entries: &[u64],
    kind: u8,
    tick: u64,
    start: u64,
    end: u64,
    answer: &mut [u64],
    count: &mut u64,
) -> u64
    ensures { ByNumber (TouchedBy
        (tables pieces.now blocks.now store.now nodes.now entries.now) kind tick start end
        answer.old answer.new) result count.old count.new }
{
    let lent = Tables {
        pieces,
        blocks,
        store,
        nodes,
        entries,
    };
    let touched = touching::touching(lent, kind, tick, start, end, answer);
    answers::number(touched, count)
}

// The first live block of a kind that starts at the cell or after it: 1 and its number, or 0 and 0 where there is none.
pub fn servercape_next(
    pieces: &[u64],
    blocks: &[u64],
    store: &[u8],
    nodes: &[u64],
    entries: &[u64],
    kind: u8,
    tick: u64,
    cell: u64,
    found: &mut u64,
    number: &mut u64,
) -> u64
    ensures { ByNumber (NextGivenBy
        (tables pieces.now blocks.now store.now nodes.now entries.now) kind tick cell) result
        (near found.old number.old) (near found.new number.new) }
{
    let lent = Tables {
        pieces,
        blocks,
        store,
        nodes,
        entries,
    };
    let block = touching::near(lent, Side::From, kind, tick, cell);
    answers::maybe(block, found, number)
}

// The last live block of a kind whose cells are all below the cell: 1 and its number, or 0 and 0 where there is none.
pub fn servercape_last(
    pieces: &[u64],
    blocks: &[u64],
    store: &[u8],
    nodes: &[u64],
    entries: &[u64],
    kind: u8,
    tick: u64,
    cell: u64,
    found: &mut u64,
    number: &mut u64,
) -> u64
    ensures { ByNumber (LastGivenBy
        (tables pieces.now blocks.now store.now nodes.now entries.now) kind tick cell) result
        (near found.old number.old) (near found.new number.new) }
{
    let lent = Tables {
        pieces,
        blocks,
        store,
        nodes,
        entries,
    };
    let block = touching::near(lent, Side::Before, kind, tick, cell);
    answers::maybe(block, found, number)
}

// The byte of each cell of [start, end) of a kind at a tick, and 1 where a live block holds it.
pub fn servercape_read_cells(
    pieces: &[u64],
    blocks: &[u64],
    store: &[u8],
    nodes: &[u64],
    entries: &[u64],
    kind: u8,
    tick: u64,
    start: u64,
    end: u64,
    bytes: &mut [u8],
    held: &mut [u8],
) -> u64
    ensures { ByNumber (CellsReadBy
        (tables pieces.now blocks.now store.now nodes.now entries.now) kind tick start end
        bytes.old bytes.new held.old held.new) result tt tt }
{
    let lent = Tables {
        pieces,
        blocks,
        store,
        nodes,
        entries,
    };
    let read = cells::read_cells(lent, kind, tick, start, end, bytes, held);
    answers::done(read)
}

/// The occupation of some windows of a kind at a tick: occupied cells over all cells, reduced fully, and in tenths of a percent. Windows are pairs, start and end.
pub fn servercape_occupation(
    pieces: &[u64],
    blocks: &[u64],
    store: &[u8],
    nodes: &[u64],
    entries: &[u64],
    kind: u8,
    tick: u64,
    windows: &[u64],
    occupied: &mut u64,
    cells: &mut u64,
    tenths: &mut u64,
) -> u64
    ensures { ByNumber (OccupationReportedBy
        (tables pieces.now blocks.now store.now nodes.now entries.now) kind tick windows.now) result
        (report occupied.old cells.old tenths.old) (report occupied.new cells.new tenths.new) }
{
    let lent = Tables {
        pieces,
        blocks,
        store,
        nodes,
        entries,
    };
    let reported = reports::occupation(lent, kind, tick, windows);
    answers::report(reported, occupied, cells, tenths)
}

// The clock label of a cell, by the list of days of an open or a closed index.
pub fn servercape_clock(
    pieces: &[u64],
    blocks: &[u64],
    store: &[u8],
    nodes: &[u64],
    entries: &[u64],
    cell: u64,
    label: &mut u64,
) -> u64
    ensures { ByNumber (ClockGivenBy
        (tables pieces.now blocks.now store.now nodes.now entries.now) cell) result
        label.old label.new }
{
    let lent = Tables {
        pieces,
        blocks,
        store,
        nodes,
        entries,
    };
    let shown = clock::clock(lent, cell);
    answers::number(shown, label)
}

// What stands in an index, open or closed.
pub fn servercape_info(
    pieces: &[u64],
    blocks: &[u64],
    store: &[u8],
    nodes: &[u64],
    entries: &[u64],
    info: &mut answers::Info,
) -> u64
    ensures { ByNumber (InfoGivenBy
        (tables pieces.now blocks.now store.now nodes.now entries.now)) result
        (summary info.old) (summary info.new) }
{
    let lent = Tables {
        pieces,
        blocks,
        store,
        nodes,
        entries,
    };
    answers::standing(info::info(lent), info)
}
