// The public calls that install a calendar and a list of days: total, as the calls of `index` are.
//
//   specs/Answers           what installing into tested tables ensures
//   proofs/Installing       one step for each return, of a calendar
//   proofs/InstallingDays   the same of a list of days

#![tactic(auto)]

ghost use Rattle.layout.specs.Tables.{tables};
ghost use Rattle.layout.specs.Relations.{InstalledBy, DaysInstalledBy};
ghost use Rattle.refusals.specs.Numbers.{answer_by};
ghost use Rattle.history.specs.Results.{done};
ghost use Rattle.install.specs.Answers.{InstalledOpen, DaysInstalled};

use layout::Tables;
use refusals::Refusal;

// Installs a calendar into the tables of an open index, in place of the one before.
#[tactic(auto, using(crate::proofs::Installing::openings))]
pub fn install_open(blocks: &mut [u64], calendar: &[u64]) -> Result<(), Refusal>
    ensures { InstalledOpen blocks.old blocks.new calendar.now result }
{
    if !hours::takes(calendar) {
        return Err(Refusal::BadCalendar);
    }
    calendar_table::install(blocks, calendar);
    Ok(())
}

// Installs a calendar: seven times a count and eight windows, a count, and as many special days, each with its number, a count and eight windows. A
// number past the slice's end is 0. The tables stand one by one, as in `index`; so in `install_days`.
pub fn install_calendar(
    pieces: &[u64],
    blocks: &mut [u64],
    store: &[u8],
    nodes: &[u64],
    entries: &[u64],
    calendar: &[u64],
) -> Result<(), Refusal>
    ensures { InstalledBy calendar.now
        (tables pieces.now blocks.old store.now nodes.now entries.now)
        (tables pieces.now blocks.new store.now nodes.now entries.now) (answer_by (λ _. done) result) }
{
    let lent = Tables {
        pieces,
        blocks,
        store,
        nodes,
        entries,
    };
    index_test::test(lent).open()?;
    install_open(blocks, calendar)
}

// Installs a list of days into the tables of an open or a closed index, in place of the one before.
#[tactic(auto, using(crate::proofs::InstallingDays::formed))]
pub fn install_days_formed(blocks: &mut [u64], days: &[u64]) -> Result<(), Refusal>
    ensures { DaysInstalled blocks.old blocks.new days.now result }
{
    if !days::takes(days) {
        return Err(Refusal::BadDays);
    }
    day_table::install(blocks, days);
    Ok(())
}

// Installs a list of days of 23 and 25 hours: pairs of a day and its minutes. A last day without its minutes has none, and is refused.
pub fn install_days(
    pieces: &[u64],
    blocks: &mut [u64],
    store: &[u8],
    nodes: &[u64],
    entries: &[u64],
    days: &[u64],
) -> Result<(), Refusal>
    ensures { DaysInstalledBy days.now
        (tables pieces.now blocks.old store.now nodes.now entries.now)
        (tables pieces.now blocks.new store.now nodes.now entries.now) (answer_by (λ _. done) result) }
{
    let lent = Tables {
        pieces,
        blocks,
        store,
        nodes,
        entries,
    };
    index_test::test(lent).formed()?;
    install_days_formed(blocks, days)
}
