// The calls that change an index: open, record, finish, and the two install calls.
ghost use Rattle.std.specs.Prelude.{length};
ghost use Rattle.layout.specs.Tables.{tables};
ghost use Rattle.layout.specs.Relations.{OpenedBy, RecordedBy, FinishedBy, InstalledBy, DaysInstalledBy};
ghost use Rattle.history.specs.Results.{done};
ghost use Rattle.index_record.specs.Calls.{operation};
ghost use Rattle.record_all.specs.Many.{RecordedAll};
ghost use Rattle.servercape.specs.Numbers.{ByNumber, ToldAs, changes, changes_of};

use crate::answers;
use index::{Index, Operation};

// Opens an index in the lent tables, for a set of kinds: a byte for each.
pub fn servercape_open(
    pieces: &mut [u64],
    blocks: &mut [u64],
    store: &[u8],
    nodes: &mut [u64],
    entries: &mut [u64],
    end_tick: u64,
    kinds: &[u8],
) -> u64
    ensures { ByNumber (OpenedBy end_tick kinds.now
        (tables pieces.old blocks.old store.now nodes.old entries.old)
        (tables pieces.new blocks.new store.now nodes.new entries.new)) result tt tt }
{
    answers::done(Index::open(pieces, blocks, store, nodes, entries, end_tick, kinds))
}

// Records an operation of a kind.
pub fn servercape_record(
    pieces: &mut [u64],
    blocks: &mut [u64],
    store: &mut [u8],
    nodes: &[u64],
    entries: &[u64],
    scratch: &[u64],
    kind: u8,
    tick: u64,
    first: u64,
    bytes: &[u8],
    updated: &mut u64,
    cell: &mut u64,
) -> u64
    ensures { ByNumber (ToldAs changes_of (RecordedBy (length scratch.now) (operation kind tick first bytes.now)
        (tables pieces.old blocks.old store.old nodes.now entries.now)
        (tables pieces.new blocks.new store.new nodes.now entries.now))) result
        (changes updated.old cell.old) (changes updated.new cell.new) }
{
    let op = Operation {
        kind: u64::from(kind),
        tick,
        first,
        bytes,
    };
    let recorded = index::record_op(pieces, blocks, store, nodes, entries, scratch, op);
    answers::maybe(recorded, updated, cell)
}

// Records the operations of a list, all of one kind, with one test of the tables for all: how many were played, and the position behind them.
pub fn servercape_record_all(
    pieces: &mut [u64],
    blocks: &mut [u64],
    store: &mut [u8],
    nodes: &[u64],
    entries: &[u64],
    scratch: &[u64],
    kind: u8,
    operations: &[u8],
    answers: &mut [u64],
    next: &mut u64,
) -> u64
    ensures { RecordedAll (length scratch.now) kind operations.now
        (tables pieces.old blocks.old store.old nodes.now entries.now)
        (tables pieces.new blocks.new store.new nodes.now entries.now)
        answers.old answers.new result next.new }
{
    let played = record_all::record_all(
        pieces, blocks, store, nodes, entries, scratch, kind, operations, answers,
    );
    *next = played.next as u64;
    played.count as u64
}

// Finishes an index.
pub fn servercape_finish(
    pieces: &mut [u64],
    blocks: &mut [u64],
    store: &[u8],
    nodes: &mut [u64],
    entries: &mut [u64],
) -> u64
    ensures { ByNumber (FinishedBy
        (tables pieces.old blocks.old store.now nodes.old entries.old)
        (tables pieces.new blocks.new store.now nodes.new entries.new)) result done done }
{
    answers::done(index::finalize(pieces, blocks, store, nodes, entries))
}

// Installs a calendar into an open index, in place of the one before.
pub fn servercape_install_calendar(
    pieces: &[u64],
    blocks: &mut [u64],
    store: &[u8],
    nodes: &[u64],
    entries: &[u64],
    calendar: &[u64],
) -> u64
    ensures { ByNumber (InstalledBy calendar.now
        (tables pieces.now blocks.old store.now nodes.now entries.now)
        (tables pieces.now blocks.new store.now nodes.now entries.now)) result done done }
{
    answers::done(install::install_calendar(pieces, blocks, store, nodes, entries, calendar))
}

// Installs a list of days of 23 and 25 hours into an open or a closed index, in place of the one before.
pub fn servercape_install_days(
    pieces: &[u64],
    blocks: &mut [u64],
    store: &[u8],
    nodes: &[u64],
    entries: &[u64],
    days: &[u64],
) -> u64
    ensures { ByNumber (DaysInstalledBy days.now
        (tables pieces.now blocks.old store.now nodes.now entries.now)
        (tables pieces.now blocks.new store.now nodes.now entries.now)) result done done }
{
    answers::done(install::install_days(pieces, blocks, store, nodes, entries, days))
}
