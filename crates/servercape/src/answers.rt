// A result for Rust and C: 0, and what it gives through `&mut`; or the number of its refusal, and every value as it was.
ghost use Rattle.std.specs.Prelude.{◌≡◌};
ghost use Rattle.index_read.specs.Answers.{counts_given, fields_given};
ghost use Rattle.info.specs.Answers.{summary_given};
ghost use Rattle.servercape.specs.Numbers.{Handed, told_by, flagged, counts, fields, summary, report};
ghost use Rattle.occupation.specs.Windows.{report_given};

use index::{Block, Found};
use info::Summary;
use refusals::Refusal;
use reports::Report;

// A result that gives nothing.
pub fn done(answer: Result<(), Refusal>) -> u64
    ensures { result ≡ told_by answer }
{
    match answer {
        Ok(()) => 0,
        Err(refusal) => u64::from(refusal),
    }
}

// A number.
pub fn number(answer: Result<u64, Refusal>, value: &mut u64) -> u64
    ensures { Handed (λ n. n) answer result value.old value.new }
{
    match answer {
        Ok(given) => {
            *value = given;
            0
        }
        Err(refusal) => u64::from(refusal),
    }
}

// A number that may be missing: 1 and the number, or 0 and 0.
pub fn maybe(answer: Result<Option<u64>, Refusal>, some: &mut u64, value: &mut u64) -> u64
    ensures { Handed flagged answer result (some.old, value.old) (some.new, value.new) }
{
    match answer {
        Ok(found) => {
            *some = u64::from(found.is_some());
            *value = found.unwrap_or(0);
            0
        }
        Err(refusal) => u64::from(refusal),
    }
}

// What find counted.
pub fn found(answer: Result<Found, Refusal>, count: &mut u64, visited: &mut u64) -> u64
    ensures { Handed counts_given answer result
        (counts count.old visited.old) (counts count.new visited.new) }
{
    match answer {
        Ok(counted) => {
            *count = counted.count;
            *visited = counted.visited;
            0
        }
        Err(refusal) => u64::from(refusal),
    }
}

// The fields of a block.
pub fn block(
    answer: Result<Block, Refusal>,
    kind: &mut u64,
    first: &mut u64,
    length: &mut u64,
    created: &mut u64,
    destroyed: &mut u64,
    offset: &mut u64,
) -> u64
    ensures { Handed fields_given answer result
        (fields kind.old first.old length.old created.old destroyed.old offset.old)
        (fields kind.new first.new length.new created.new destroyed.new offset.new) }
{
    match answer {
        Ok(row) => {
            *kind = row.kind;
            *first = row.first;
            *length = row.length;
            *created = row.created;
            *destroyed = row.destroyed;
            *offset = row.offset;
            0
        }
        Err(refusal) => u64::from(refusal),
    }
}

// What info gives, in numbers: the state is 1 open or 2 closed.
#[repr(C)]
#[derive(Clone, Copy)]
pub struct Info {
    pub state: u64,
    pub end_tick: u64,
    pub last_tick: u64,
    pub kinds: u64,
    pub pieces: u64,
    pub blocks: u64,
    pub store: u64,
    pub nodes: u64,
    pub entries: u64,
}

// What stands in an index.
pub fn standing(answer: Result<Summary, Refusal>, info: &mut Info) -> u64
    ensures { Handed summary_given answer result (summary info.old) (summary info.new) }
{
    match answer {
        Ok(told) => {
            *info = Info {
                state: u64::from(told.state),
                end_tick: told.end_tick,
                last_tick: told.last_tick,
                kinds: told.kinds,
                pieces: told.pieces,
                blocks: told.blocks,
                store: told.store,
                nodes: told.nodes,
                entries: told.entries,
            };
            0
        }
        Err(refusal) => u64::from(refusal),
    }
}

/// The occupation report: its fraction reduced, and tenths of a percent.
pub fn report(
    answer: Result<Report, Refusal>,
    occupied: &mut u64,
    cells: &mut u64,
    tenths: &mut u64,
) -> u64
    ensures { Handed report_given answer result
        (report occupied.old cells.old tenths.old) (report occupied.new cells.new tenths.new) }
{
    match answer {
        Ok(reported) => {
            *occupied = reported.fraction.part;
            *cells = reported.fraction.whole;
            *tenths = reported.tenths;
            0
        }
        Err(refusal) => u64::from(refusal),
    }
}
