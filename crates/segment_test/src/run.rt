// One node's entries: their numbers, keys, lives and order.
ghost use Rattle.std.specs.Prelude.{◌≡◌, ◌+◌, ◌<◌};
ghost use Rattle.lists.specs.Tests.{Decides};
ghost use Rattle.segment_test.specs.Parts.{own_created, own_destroyed, Inside, EntryRow, Follows, RunRows};

use crate::place::Place;
use crate::read::Tested;
use tables::{block, entry};

// The life of block k as the tree of a kind sees it: ticks of creation and destruction. A block of another kind has none. Constant time.
fn own_life(t: &Tested<'_>, kind: u64, k: u64) -> (u64, u64)
    requires { k < t.now.n }
    ensures created { result.0 ≡ own_created t.now.blocks.now kind k }
    ensures destroyed { result.1 ≡ own_destroyed t.now.blocks.now kind k }
{
    if t.block(k, block::OWNER) != kind {
        return (0, 0);
    }
    (t.block(k, block::CREATED), t.block(k, block::DESTROYED))
}

// Whether an entry row names a block below n with its first cell as key, whose life, as the kind sees it, covers the node and not the node above. Constant time.
pub fn test_entry(t: &Tested<'_>, at: Place, row: u64) -> bool
    requires { Inside t.now.entries.now row 1 }
    ensures { Decides result (EntryRow t.now.blocks.now t.now.entries.now t.now.n at.kind row at.min at.max at.from at.to) }
{
    let k = t.entry(row, entry::BLOCK);
    if t.n <= k {
        return false;
    }
    let (created, destroyed) = own_life(t, at.kind, k);
    t.entry(row, entry::KEY) == t.block(k, block::FIRST)
        && !at.is_covered_above(created, destroyed)
        && at.is_covered(created, destroyed)
}

// Whether the j-th of the entry rows from `first` on has a key above that of the row before it, if j is not the first. Constant time.
pub fn follows(t: &Tested<'_>, first: u64, j: u64) -> bool
    requires { Inside t.now.entries.now first (j + 1) }
    ensures { Decides result (Follows t.now.entries.now first j) }
{
    j == 0 || t.entry(first + (j - 1), entry::KEY) < t.entry(first + j, entry::KEY)
}

// Whether each of `many` entry rows from `first` on is right for the node below the node above, and keys ascend strictly. Linear in `many`.
// A `for` and not `.all(..)`: with that the proof did not close.
#[tactic(auto, using(crate::proofs::Running::run_more))]
pub fn test_run(t: &Tested<'_>, at: Place, first: u64, many: u64) -> bool
    requires { Inside t.now.entries.now first many }
    ensures { Decides result (RunRows t.now.blocks.now t.now.entries.now t.now.n at.kind first many at.min at.max at.from at.to) }
{
    for j in 0..many {
        if !test_entry(t, at, first + j) || !follows(t, first, j) {
            return false;
        }
    }
    true
}
