// The clock: the label of a cell, by the list of days that stands in the tables of an open or a closed index.
//
//   specs/Answers    what the clock of tested tables ensures
//   proofs/Telling   one step for each return

#![tactic(auto)]

ghost use Rattle.layout.specs.Tables.{held};
ghost use Rattle.layout.specs.Relations.{ClockGivenBy};
ghost use Rattle.refusals.specs.Numbers.{answer_by};
ghost use Rattle.clock.specs.Answers.{ClockTold};

use layout::Tables;
use refusals::Refusal;

// The label of a cell, hours times 100 plus minutes, of tables that are not tested here.
#[tactic(auto, using(crate::proofs::Telling::label_told))]
pub fn clock_formed(blocks: &[u64], cell: u64) -> u64
    ensures { ClockTold blocks.now cell result }
{
    days::cell_label(day_table::list(blocks), cell)
}

// The label of a cell.
pub fn clock(lent: Tables, cell: u64) -> Result<u64, Refusal>
    ensures { ClockGivenBy (held lent.entry) cell (answer_by (λ n. n) result) }
{
    index_test::test(lent).formed()?;
    Ok(clock_formed(lent.blocks, cell))
}
