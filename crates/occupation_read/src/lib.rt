//! The occupation report of a closed index, without the test of its tables: for callers that have tested them. A walk down the tree for each window
//! (crate `busy_sum`); on any tables it ends, allocates nothing and writes nothing.
//!
//! - `specs/Answers`: what is answered, and the relation of the public call
//! - `proofs/Counting`: one window after another
//! - `proofs/Answering`: 25, 14, 15 and 37, and the report

#![tactic(auto)]

ghost use Rattle.std.specs.Prelude.{◌≡◌, ◌≤◌, IsFalse};
ghost use Rattle.history.specs.Ledger.{Ledger};
ghost use Rattle.history.specs.Occupation.{windows_of, given_by, occupied_by, unreported};
ghost use Rattle.refusals.specs.Numbers.{answer_by};
ghost use Rattle.live_blocks.specs.Live.{ClosedAt};
ghost use Rattle.occupation.specs.Windows.{report_given};
ghost use Rattle.occupation_read.specs.Answers.{ReportClosed};

use busy_sum::{Weight, busy_sum};
use occupation::{Report, Window};
use refusals::Refusal;
use segment_table::lent::Closed;
use tables::kinds;

/// How many cells of the windows are occupied, repeats counted. A window counts no more cells than it has, whatever the tables are.
fn occupied_cells(closed: &Closed, store: &[u8], kind: u64, tick: u64, windows: &[u64]) -> u64
    requires { IsFalse (unreported (windows_of windows.now)) }
    ensures within { result ≤ given_by (windows_of windows.now) }
    ensures of_ledger { (l : Ledger)
        → ClosedAt closed.now.blocks.now store.now closed.now.nodes.now closed.now.entries.now kind tick l
        → result ≡ occupied_by l kind tick (windows_of windows.now) }
{
    let mut occupied = 0;
    for k in 0..occupation::count(windows) {
        let Window { start, end } = Window::at(windows, k);
        let busy = busy_sum(closed, store, kind, tick, start, end, Weight::One);
        occupied += busy.min(end.saturating_sub(start));
    }
    occupied
}

/// The occupation of the windows of a kind at a tick: 25, 14, 15 of every window, and 37 in their order; else the report.
pub fn report_closed(
    closed: &Closed,
    store: &[u8],
    kind: u64,
    tick: u64,
    windows: &[u64],
) -> Result<Report, Refusal>
    ensures { ReportClosed closed.now.blocks.now store.now closed.now.nodes.now closed.now.entries.now kind tick
        windows.now (answer_by report_given result) }
{
    if !kinds::has(block_table::kinds(closed.blocks), kind) {
        return Err(Refusal::KindNotOpened);
    }
    if block_table::end(closed.blocks) <= tick {
        return Err(Refusal::NoSuchTick);
    }
    if !occupation::are_forward(windows) {
        return Err(Refusal::OutOfRange);
    }
    let Some(cells) = occupation::total_cells(windows) else {
        return Err(Refusal::BadWindows);
    };
    let occupied = occupied_cells(closed, store, kind, tick, windows);
    Ok(occupation::report_on(occupied, cells))
}
