// The list of days in the front of the block table's head (docs/LAYOUT.md): the list, whether install would take it, and writing it. Every function
// answers on any table.
//
//   specs/DayLists    which list stands there, and what the functions ensure
//   proofs/DayLists   one list for each table; what is kept and what is written; each return
//   proofs/Writing    the numbers written, from one turn to the next

#![tactic(auto)]

ghost use Rattle.std.specs.Prelude.{◌≡◌, ◌+◌, ◌^◌, ◌<◌};
ghost use Rattle.std.proofs.lemmas.List.Edits.{sets};
ghost use Rattle.lists.specs.Tests.{Decides};
ghost use Rattle.day_table.specs.DayLists.{count_in, list_in, DaysFormed, padded, days_installed_in};

use tables::block;

// The most days, and the numbers of as many pairs.
const MOST: u64 = days::MOST as u64;

const WIDTH: usize = 2 * days::MOST;

// How many days there are said to be.
fn count(blocks: &[u64]) -> u64
    ensures { result ≡ count_in blocks.now }
{
    days::number(blocks, block::DAYS)
}

// The list, as it stands in the table: the numbers of those days that have a place.
#[tactic(auto, using(crate::proofs::DayLists::list_none, crate::proofs::DayLists::list_some))]
pub fn list<'a>(blocks: &'a [u64]) -> &'a [u64]
    ensures { result.now ≡ list_in blocks.now }
{
    let Some(rest) = blocks.get(block::DAYS + 1..) else {
        return &[];
    };
    let many = 2 * count(blocks).min(MOST) as usize;
    &rest[..many.min(rest.len())]
}

// Whether the list is one that install takes. The count is tested first: no more than 64 days are looked at.
#[tactic(auto, using(crate::proofs::DayLists::formed_many, crate::proofs::DayLists::formed_rest))]
pub fn formed(blocks: &[u64]) -> bool
    ensures { Decides result (DaysFormed blocks.now) }
{
    count(blocks) <= MOST && days::takes(list(blocks))
}

// Writes `width` numbers from place `at` on, zeros where the slice is shorter.
#[tactic(auto, using(crate::proofs::Writing::writing))]
pub fn write(table: &mut [u64], at: usize, width: usize, numbers: &[u64])
    requires { at + width < 2 ^ 32 }
    ensures { table.new ≡ sets table.old at (padded numbers.now width) }
{
    for i in 0..width {
        tables::put(table, 0, at + i, days::number(numbers, i));
    }
}

// Writes a list in place of the one before, all its numbers, so that nothing of that one stays.
#[tactic(auto, using(crate::proofs::Writing::install_done))]
pub fn install(blocks: &mut [u64], days: &[u64])
    ensures { blocks.new ≡ days_installed_in blocks.old days.now }
{
    tables::put(blocks, 0, block::DAYS, days::count(days) as u64);
    write(blocks, block::DAYS + 1, WIDTH, days);
}
