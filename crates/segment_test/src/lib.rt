// Whether lent tables hold the trees of a closed index: the layout, a root for each kind with blocks, and rules 21 and 23 of document 01, on any tables at
// all. No pass over the tables meets a row twice, whatever stands in it, so the test takes time linear in the rows that they have.
//
//   specs/Test         what is decided
//   specs/Parts        the parts that inner tests decide
//   specs/Total        sums
//   head               counts inside the tables, roots
//   read               the tables under test, and numbers of rows that are known to lie in them
//   place              a node and the node above, and the lives that cover them
//   run                one node's entries
//   walk               every node, by halves
//   total              runs one after the other; rule 23's sum, one total over all entries of all kinds
//
// Inner tests are public for `segment_handed`, which tests nodes and runs on the one walk on which it looks for rule 24.

#![tactic(auto)]

ghost use Rattle.std.specs.Prelude.{List};
ghost use Rattle.lists.specs.Tests.{Decides};
ghost use Rattle.history.specs.Words.{Block};
ghost use Rattle.segment_test.specs.Test.{lent, BlockRows, ClosedTrees};
ghost use Rattle.segment_test.specs.Parts.{Frame};

pub mod head;
pub mod place;
pub mod read;
pub mod run;
pub mod total;
pub mod walk;

use read::Tested;
use segment_table::lent::Claim;

// Whether the tables are right but for the nodes' places and runs: roots are those of kinds with blocks, runs follow one another, and the widths of all entries
// add up to all lives. Linear in the rows of blocks and nodes.
pub fn test_frame(t: &Tested<'_>) -> bool
    ensures { Decides result (Frame (lent t.now.blocks.now t.now.nodes.now t.now.entries.now) t.now.n) }
{
    if !head::roots_owned(t) {
        return false;
    }
    if !total::test_runs(t) {
        return false;
    }
    total::test_lives(t, total::entry_widths(t))
}

// Whether the claim holds: the tables hold the trees of a closed index with the end tick, whose blocks are the first n rows of the block table. Linear in the
// rows of the three tables, of malformed ones too: counts are tested to lie inside, and runs to follow one another, before any row is read by them, and the
// walks meet no row twice. At most 64 frames deep up to the largest end tick, 2^63.
pub fn test_trees(claim: &Claim<'_>) -> bool
    ensures { (bs : List Block) → BlockRows claim.now.tables.blocks.now claim.now.n bs → Decides result
        (ClosedTrees (lent claim.now.tables.blocks.now claim.now.tables.nodes.now claim.now.tables.entries.now) claim.now.end bs) }
{
    if !head::test_heads(claim) {
        return false;
    }
    let t = Tested {
        blocks: claim.tables.blocks,
        nodes: claim.tables.nodes,
        entries: claim.tables.entries,
        n: claim.n,
    };
    test_frame(&t) && walk::test_nodes(&t, claim.end)
}
