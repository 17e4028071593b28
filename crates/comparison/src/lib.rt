// The comparison of an operation with one piece: the first cell in common with another byte, or that there is none.
//
//   specs/Comparison   what each function ensures
//   proofs/Comparing   one step for each return

#![tactic(auto)]

ghost use Rattle.std.specs.Prelude.{◌+◌, ◌≤◌, length};
ghost use Rattle.comparison.specs.Comparison.{Matching, Compared};

use piece_table::Piece;

// How many of the bytes from `from` on are the store's from `at` on, `run` at most.
// A loop: by `zip` and `position`, or by `(0..run).find(..)`, the search did not find the proof of the return.
fn matching(store: &[u8], at: usize, bytes: &[u8], from: usize, run: usize) -> usize
    requires { (at + run ≤ length store.now) × (from + run ≤ length bytes.now) }
    ensures { Matching store.now at bytes.now from run result }
{
    for j in 0..run {
        if store[at + j] != bytes[from + j] {
            return j;
        }
    }
    run
}

// Compares the operation's bytes, of a kind from `first` on, with a piece: the first cell that differs, or none. A piece of another kind has no cell in common.
#[tactic(auto, using(crate::proofs::Comparing::comparing))]
pub fn first_difference(
    store: &[u8],
    piece: Piece,
    kind: u64,
    first: u64,
    bytes: &[u8],
) -> Option<u64>
    ensures { Compared store.now piece kind first bytes.now result }
{
    if piece.owner != kind {
        return None;
    }
    let skip = first.saturating_sub(piece.first);
    let from = piece.first.saturating_sub(first);
    let ours = (bytes.len() as u64).saturating_sub(from);
    let theirs = piece.size.saturating_sub(skip);
    let run = theirs.min(ours);
    let at = piece.offset.saturating_add(skip);
    if run == 0 || (store.len() as u64).saturating_sub(at) < run {
        return None;
    }
    let same = matching(store, at as usize, bytes, from as usize, run as usize) as u64;
    if run <= same {
        return None;
    }
    Some(first.saturating_add(from).saturating_add(same))
}
