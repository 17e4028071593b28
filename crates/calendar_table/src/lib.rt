// The calendar in the front of the block table's head (docs/LAYOUT.md): whether it closes a cell, whether install would take it, and writing it. Every
// function answers on any table.
//
//   specs/Calendars    which calendar stands there, and what the functions ensure
//   proofs/Calendars   one calendar for each table; what is kept and what is written; each return

#![tactic(auto)]

ghost use Rattle.std.specs.Prelude.{◌≡◌};
ghost use Rattle.lists.specs.Tests.{Decides};
ghost use Rattle.calendar_table.specs.Calendars.{flag_in, numbers_in, ClosedTold, CalendarFormed, installed_in};

use tables::block;

// What stands in the flag.
const INSTALLED: u64 = 1;

// The numbers of a calendar.
const WIDTH: usize = 1272;

// Whether there is a calendar: what stands in the flag.
fn flag(blocks: &[u64]) -> u64
    ensures { result ≡ flag_in blocks.now }
{
    days::number(blocks, block::CALENDAR)
}

// The numbers behind the flag.
#[tactic(auto, using(crate::proofs::Calendars::numbers_none))]
fn numbers<'a>(blocks: &'a [u64]) -> &'a [u64]
    ensures { result.now ≡ numbers_in blocks.now }
{
    match blocks.get(block::CALENDAR + 1..) {
        Some(numbers) => numbers,
        None => &[],
    }
}

// Whether some byte that is not 0 falls on a cell that the calendar closes; days and labels go by the list that stands behind it. Without a calendar this
// is one test.
#[tactic(auto, using(crate::proofs::Calendars::closed_none, crate::proofs::Calendars::closed_some))]
pub fn closed(blocks: &[u64], first: u64, bytes: &[u8]) -> bool
    ensures { ClosedTold blocks.now first bytes.now result }
{
    flag(blocks) != 0 && hours::closed_cell(numbers(blocks), day_table::list(blocks), first, bytes)
}

// Whether there is no calendar, or one that install takes.
#[tactic(auto, using(crate::proofs::Calendars::formed_none, crate::proofs::Calendars::formed_no_flag, crate::proofs::Calendars::formed_taken))]
pub fn formed(blocks: &[u64]) -> bool
    ensures { Decides result (CalendarFormed blocks.now) }
{
    match flag(blocks) {
        0 => true,
        INSTALLED => hours::takes(numbers(blocks)),
        _ => false,
    }
}

// Writes a calendar in place of the one before, all its numbers, so that nothing of that one stays.
#[tactic(auto, using(crate::proofs::Calendars::install_done))]
pub fn install(blocks: &mut [u64], calendar: &[u64])
    ensures { blocks.new ≡ installed_in blocks.old calendar.now }
{
    tables::put(blocks, 0, block::CALENDAR, INSTALLED);
    day_table::write(blocks, block::CALENDAR + 1, WIDTH, calendar);
}
