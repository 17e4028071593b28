//! The reports on a closed index. Each names a kind and a tick, and is total: it takes any slices of any lengths and contents.
//!
//! - occupation: occupied cells over all cells of some windows (`occupation_read`)
//! - `proofs/Answering`: 2 and 4; the rest stands in the crates below

#![tactic(auto)]

ghost use Rattle.layout.specs.Tables.{held};
ghost use Rattle.refusals.specs.Numbers.{answer_by};
ghost use Rattle.occupation.specs.Windows.{report_given};
ghost use Rattle.occupation_read.specs.Answers.{OccupationReportedBy};

use layout::Tables;
pub use occupation::Report;
use refusals::Refusal;
use segment_table::lent::Closed;

/// The occupation of some windows of a kind at a tick: cells that hold a byte other than 0 over all cells, windows added together with repeats counted, as a
/// fraction reduced fully, and in tenths of a percent. Windows are pairs, start and end.
pub fn occupation(lent: Tables, kind: u8, tick: u64, windows: &[u64]) -> Result<Report, Refusal>
    ensures { OccupationReportedBy (held lent.entry) kind tick windows.now (answer_by report_given result) }
{
    index_test::test(lent).closed()?;
    let closed = Closed {
        blocks: lent.blocks,
        nodes: lent.nodes,
        entries: lent.entries,
    };
    occupation_read::report_closed(&closed, lent.store, u64::from(kind), tick, windows)
}
