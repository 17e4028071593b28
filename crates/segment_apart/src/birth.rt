// Each block against those of its kind that are live at its created tick. They stand on the way down to it (segment_clear); if a longer one reaches over the one
// that is looked at, these two share a cell, and it is found where the later one of them is created.
ghost use Rattle.segment_test.specs.Test.{lent};
ghost use Rattle.segment_apart.specs.Birth.{BirthClear};
ghost use Rattle.segment_apart.specs.Apart.{ClosedApart};

use segment_clear::Own;
use segment_table::lent::Claim;
use segment_walk::walk;

// Whether block k is clear of those of its kind that are live when it is created.
fn birth_clear(claim: &Claim<'_>, k: u64) -> bool
    ensures { BirthClear claim.now.tables.blocks.now claim.now.tables.nodes.now claim.now.tables.entries.now claim.now.end k result }
{
    let lent = &claim.tables;
    let row = segment_clear::row(lent.blocks, k);
    !row.lives()
        || Own::new(k, row).way_clear(
            lent,
            walk::root(lent.nodes, row.owner, claim.end),
            row.created,
        )
}

// Whether each of the n blocks is clear of those of its kind that are live when it is created: then no two share a cell at any tick. For each block at most 64
// nodes are met, up to the largest end tick, and in each a binary search is made: O(n log E log n) steps. To be called only where the table has n rows.
pub fn all_clear(claim: &Claim<'_>) -> bool
    ensures { ClosedApart (lent claim.now.tables.blocks.now claim.now.tables.nodes.now claim.now.tables.entries.now)
        claim.now.end claim.now.n result }
{
    (0..claim.n).all(|k| birth_clear(claim, k))
}
