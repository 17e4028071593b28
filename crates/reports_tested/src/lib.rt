//! The reports after one test: each takes the state that `index_test::test` found and does not test the tables again (crate `index_tested`). Where the
//! state is false they end too: a walk down the tree for each window, of which there are at most 256.
//!
//! - `specs/Tested`: the calls at a state
//! - `proofs/Answering`: one step for each return

#![tactic(auto)]

ghost use Rattle.refusals.specs.Numbers.{answer_by};
ghost use Rattle.occupation.specs.Windows.{report_given};
ghost use Rattle.reports_tested.specs.Tested.{OccupationTested};

use index_test::State;
use occupation::Report;
use refusals::Refusal;
use segment_table::lent::Closed;

/// The occupation of some windows of a kind at a tick.
pub fn occupation_tested(
    state: State,
    closed: &Closed<'_>,
    store: &[u8],
    kind: u8,
    tick: u64,
    windows: &[u64],
) -> Result<Report, Refusal>
    ensures { OccupationTested state closed.now.blocks.now store.now closed.now.nodes.now closed.now.entries.now kind tick
        windows.now (answer_by report_given result) }
{
    state.closed()?;
    occupation_read::report_closed(closed, store, u64::from(kind), tick, windows)
}
