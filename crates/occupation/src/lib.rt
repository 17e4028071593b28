//! The occupation report without tables: the windows of a slice, how many cells they have, a fraction reduced fully, and tenths of a percent. Windows are a
//! slice of pairs, start and end, past whose end all numbers are 0: every function answers on any slice.
//!
//! - `specs/Windows`: a window of a slice, and what the functions ensure beside `Occupation` of crate `history`
//! - `proofs/Pairs`: the pairs of a slice, from one turn to the next
//! - `proofs/Totals`: the returns of `are_forward` and `total_cells`
//! - `proofs/Fractions`: the divisor that Euclid's loop ends with; the bounds of the tenths

#![tactic(auto)]

ghost use Rattle.std.specs.Prelude.{◌≡◌, ◌+◌, ◌-◌, ◌*◌, ◌/◌, ◌%◌, ◌^◌, ◌<◌, ◌≤◌, length, MatchOption, IsTrue, IsFalse};
ghost use Rattle.std.specs.List.{list_all};
ghost use Rattle.history.specs.Occupation.{windows_of, most_cells, given_by, forward, unreported, divisor, reduced, tenths_of, report_of};
ghost use Rattle.occupation.specs.Windows.{window_at, fraction_given, report_given};

/// The most windows.
const MOST: usize = 256;

/// The most cells that all windows may have together.
const MOST_CELLS: u64 = 1 << 32;

/// How many windows a slice has. A last start without its end is one.
#[tactic(auto, using(crate::proofs::Pairs::windows_count))]
pub fn count(windows: &[u64]) -> usize
    ensures { result ≡ length (windows_of windows.now) }
{
    windows.len().div_ceil(2)
}

/// The cells [start, end).
#[derive(Clone, Copy)]
pub struct Window {
    pub start: u64,
    pub end: u64,
}

impl Window {
    /// The window at a place of a slice. What the slice lacks is 0.
    pub fn at(windows: &[u64], k: usize) -> Self
        requires { k < 2 ^ 63 }
        ensures start { result.start ≡ (window_at windows.now k).start }
        ensures end { result.end ≡ (window_at windows.now k).stop }
    {
        Window {
            start: days::number(windows, 2 * k),
            end: days::number(windows, 2 * k + 1),
        }
    }
}

/// Whether no window ends before it starts. All are looked at, however many they are.
#[tactic(auto, using(crate::proofs::Totals::turning))]
pub fn are_forward(windows: &[u64]) -> bool
    ensures { result ≡ list_all forward (windows_of windows.now) }
{
    for k in 0..count(windows) {
        let window = Window::at(windows, k);
        if window.end < window.start {
            return false;
        }
    }
    true
}

/// The sum of two lengths, none above 2^32. It subtracts first: a length may be as long as 2^64.
fn add(cells: u64, length: u64) -> Option<u64>
    requires { cells ≤ most_cells }
    ensures { MatchOption result (most_cells < cells + length) (λ sum. (sum ≡ cells + length) × (sum ≤ most_cells)) }
{
    if MOST_CELLS - cells < length {
        return None;
    }
    Some(cells + length)
}

/// How many cells the windows have together, repeats counted. None where they cannot be reported on: no cell, more than 256 windows, or more than 2^32
/// cells.
#[tactic(auto, using(crate::proofs::Totals::adding))]
pub fn total_cells(windows: &[u64]) -> Option<u64>
    ensures { MatchOption result (IsTrue (unreported (windows_of windows.now)))
        (λ cells. IsFalse (unreported (windows_of windows.now)) × (cells ≡ given_by (windows_of windows.now))) }
{
    let count = count(windows);
    if MOST < count {
        return None;
    }
    let mut cells = 0;
    for k in 0..count {
        let window = Window::at(windows, k);
        let Some(sum) = add(cells, window.end.saturating_sub(window.start)) else {
            return None;
        };
        cells = sum;
    }
    if cells == 0 {
        return None;
    }
    Some(cells)
}

/// The greatest common divisor: the second number falls at each turn.
fn divisor(a: u64, b: u64) -> u64
    ensures { result ≡ divisor a b }
{
    let mut x = a;
    let mut y = b;
    while y != 0 {
        let rest = x % y;
        x = y;
        y = rest;
    }
    x
}

/// A part of a whole.
#[derive(Clone, Copy)]
pub struct Fraction {
    pub part: u64,
    pub whole: u64,
}

/// A part over a whole, so that no number above 1 divides both.
#[tactic(auto, using(crate::proofs::Fractions::divisor_positive), unfolding(history::specs::Occupation::reduced))]
fn reduced(part: u64, whole: u64) -> Fraction
    requires { 0 < whole }
    ensures { fraction_given result ≡ reduced part whole }
{
    let divisor = divisor(part, whole);
    Fraction {
        part: part / divisor,
        whole: whole / divisor,
    }
}

/// The nearest tenth of a percent, of two the even one.
#[tactic(auto, using(crate::proofs::Fractions::tenths_small, crate::proofs::Fractions::rounded_down, crate::proofs::Fractions::rounded_up, crate::proofs::Fractions::rounded_even))]
fn tenths(part: u64, whole: u64) -> u64
    requires some { 0 < whole }
    requires within { part ≤ whole }
    requires most { whole ≤ most_cells }
    ensures { result ≡ tenths_of part whole }
{
    let tenths = 1000 * part / whole;
    let rest = 1000 * part % whole;
    if 2 * rest < whole {
        return tenths;
    }
    if whole < 2 * rest {
        return tenths + 1;
    }
    tenths + tenths % 2
}

/// Occupied cells over all, reduced, and in tenths of a percent.
#[derive(Clone, Copy)]
pub struct Report {
    pub fraction: Fraction,
    pub tenths: u64,
}

/// The report of so many occupied cells of so many.
pub fn report_on(occupied: u64, cells: u64) -> Report
    requires some { 0 < cells }
    requires within { occupied ≤ cells }
    requires most { cells ≤ most_cells }
    ensures { report_given result ≡ report_of occupied cells }
{
    Report {
        fraction: reduced(occupied, cells),
        tenths: tenths(occupied, cells),
    }
}
