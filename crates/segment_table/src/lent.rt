// The tables of a closed index as one value, and what is claimed of them until a test has decided it.
ghost use Rattle.segment_table.specs.Closed.{TreeOf};

use crate::Tree;
use tables::block;

// The tables that the trees of a closed index stand in, with the blocks that they list.
#[derive(Clone, Copy)]
pub struct Closed<'a> {
    pub blocks: &'a [u64],
    pub nodes: &'a [u64],
    pub entries: &'a [u64],
}

impl<'a> Closed<'a> {
    // The tree of a kind, up to the end tick of the head of the blocks.
    pub fn tree(&self, kind: u64) -> Tree<'a>
        ensures { TreeOf self.now.blocks.now self.now.nodes.now self.now.entries.now kind
            result.nodes.now result.entries.now result.kind result.end }
    {
        Tree {
            nodes: self.nodes,
            entries: self.entries,
            kind,
            end: block::get(self.blocks, 0, block::END),
        }
    }
}

// What is claimed of such tables and tested: trees with the end tick stand there, and their blocks are the first n rows.
#[derive(Clone, Copy)]
pub struct Claim<'a> {
    pub tables: Closed<'a>,
    pub end: u64,
    pub n: u64,
}
