// The heads: counts inside the tables, and roots of kinds with blocks.
ghost use Rattle.lists.specs.Tests.{Decides};
ghost use Rattle.tables.specs.Columns.{nodes_count};
ghost use Rattle.segment_test.specs.Test.{lent};
ghost use Rattle.segment_test.specs.Parts.{Room, Inside, HasBlock, RootOwned, RootsOwned, Heads};

use crate::read::Tested;
use segment_table::lent::{Claim, Closed};
use tables::{block, entry, node};

// Whether a table has room for its head and this many rows. Constant time.
fn room(table: &[u64], head: usize, rows: u64) -> bool
    ensures { Decides result (Room table.now head rows) }
{
    head <= table.len() && rows <= tables::rows(table.len(), head)
}

// Whether `many` entry rows from `first` on lie in the table. Constant time.
pub fn inside(entries: &[u64], first: u64, many: u64) -> bool
    ensures { Decides result (Inside entries.now first many) }
{
    if entries.len() < entry::HEAD {
        return false;
    }
    let rows = entry::rows(entries);
    first <= rows && many <= rows - first
}

// Whether one of the blocks is of the kind. Linear in their count.
fn has_block(t: &Tested<'_>, kind: u64) -> bool
    ensures { Decides result (HasBlock t.now.blocks.now t.now.n kind) }
{
    (0..t.n).any(|k| t.block(k, block::OWNER) == kind)
}

// Whether a kind that has a root has a block. Linear in the blocks; where the first one is of the kind, constant.
fn root_owned(t: &Tested<'_>, kind: u64) -> bool
    ensures { Decides result (RootOwned t.now.blocks.now t.now.nodes.now t.now.n kind) }
{
    tables::get(t.nodes, 0, kind as usize) == 0 || has_block(t, kind)
}

// Whether every kind that has a root has a block.
pub fn roots_owned(t: &Tested<'_>) -> bool
    ensures { Decides result (RootsOwned t.now.blocks.now t.now.nodes.now t.now.n nodes_count) }
{
    (0..node::COUNT as u64).all(|kind| root_owned(t, kind))
}

// Whether the counts are inside the tables. Constant time.
pub fn test_heads(claim: &Claim<'_>) -> bool
    ensures { Decides result
        (Heads (lent claim.now.tables.blocks.now claim.now.tables.nodes.now claim.now.tables.entries.now) claim.now.n) }
{
    let Closed {
        blocks,
        nodes,
        entries,
    } = claim.tables;
    let used = tables::get(nodes, 0, node::COUNT);
    let listed = tables::get(entries, 0, entry::COUNT);
    room(blocks, block::HEAD, claim.n)
        && room(nodes, node::HEAD, used)
        && inside(entries, 0, listed)
}
