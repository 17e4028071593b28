// Which trees of history stand in the lent node and entry tables, and the tables of one tree as a value. Building, finding and testing stand above.
//
//   lent           the tables with their blocks as one value, and what is claimed of them
//   specs/Closed   a closed index: nodes with their runs of entries, a root for each kind; which tree a kind's is
//   proofs/Closed  its laws: the tables tell the trees, runs apart, reads by place

#![tactic(auto)]

pub mod lent;

// The tree of a kind in the lent tables; its ticks are those below `end`.
#[derive(Clone, Copy)]
pub struct Tree<'a> {
    pub nodes: &'a [u64],
    pub entries: &'a [u64],
    pub kind: u64,
    pub end: u64,
}
