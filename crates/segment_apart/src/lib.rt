// The test of a closed index: whether its trees stand, and rule 24: no two live blocks share a cell; those of two kinds never do. What any list of calls leaves is
// seen to be so by one walk over each kind's tree (segment_handed). For the rest the trees are tested alone (segment_test), and answer: if two blocks share a
// cell, they do when the later one of them is created.
//
//   birth   specs/Birth      a block against those live at its created tick
//           proofs/Creation  blocks that are parted whenever one is created share nothing
//           proofs/Deciding  all blocks, and the whole test
//   specs/Apart  proofs/Agreeing         what is decided; for callers, in the words of history

#![tactic(auto)]

ghost use Rattle.std.specs.Prelude.{List};
ghost use Rattle.lists.specs.Tests.{Decides};
ghost use Rattle.history.specs.Words.{Block};
ghost use Rattle.segment_test.specs.Test.{lent, BlockRows, ClosedTrees};
ghost use Rattle.segment_apart.specs.Apart.{ClosedApart};

pub mod birth;

use segment_table::lent::Claim;
use segment_test::read::Tested;
use segment_test::{head, walk};

// What the test finds: whether the tables hold the trees that are claimed, and whether rule 24 holds of them.
#[derive(Clone, Copy)]
pub struct Found {
    pub trees: bool,
    pub apart: bool,
}

// Whether the claim holds, and rule 24 of its n blocks. Linear in the rows where cells are handed on from block to block; O(n log E log n) for rule 24 of any
// others: see `birth`. At most 66 frames deep up to the largest end tick, 2^63.
pub fn test(claim: &Claim<'_>) -> Found
    ensures trees { (bs : List Block) → BlockRows claim.now.tables.blocks.now claim.now.n bs → Decides result.trees
        (ClosedTrees (lent claim.now.tables.blocks.now claim.now.tables.nodes.now claim.now.tables.entries.now) claim.now.end bs) }
    ensures apart { ClosedApart (lent claim.now.tables.blocks.now claim.now.tables.nodes.now claim.now.tables.entries.now)
        claim.now.end claim.now.n result.apart }
{
    let wrong = Found {
        trees: false,
        apart: false,
    };
    if !head::test_heads(claim) {
        return wrong;
    }
    let t = Tested {
        blocks: claim.tables.blocks,
        nodes: claim.tables.nodes,
        entries: claim.tables.entries,
        n: claim.n,
    };
    if !segment_test::test_frame(&t) {
        return wrong;
    }
    if segment_handed::seen(&t, claim.end) {
        return Found {
            trees: true,
            apart: true,
        };
    }
    if !walk::test_nodes(&t, claim.end) {
        return wrong;
    }
    Found {
        trees: true,
        apart: birth::all_clear(claim),
    }
}
