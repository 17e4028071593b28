// All rows of nodes, one after the other: their runs, and rule 23's total, the widths of all entries against the lives of all blocks, which 64 bits do not hold.
ghost use Rattle.std.specs.Prelude.{◌≡◌, ◌^◌, ◌<◌};
ghost use Rattle.lists.specs.Tests.{Decides};
ghost use Rattle.segment_table.specs.Closed.{nodes_used};
ghost use Rattle.segment_test.specs.Total.{sum_to, entries_of_row, widths_of_row};
ghost use Rattle.segment_test.specs.Parts.{Tiled, LivesAre};

use crate::read::Tested;
use tables::{block, entry, node};

// Whether runs begin where those before end, and end with the entry count. Linear in the node count.
#[tactic(auto, using(crate::proofs::Totalling::tiled_more))]
pub fn test_runs(t: &Tested<'_>) -> bool
    ensures { Decides result (Tiled t.now.nodes.now t.now.entries.now) }
{
    let total = tables::get(t.entries, 0, entry::COUNT);
    let mut begin = 0;
    for k in 0..t.used() {
        if t.node(k + 1, node::FIRST) != begin {
            return false;
        }
        let many = t.node(k + 1, node::ENTRIES);
        if total - begin < many {
            return false;
        }
        begin += many;
    }
    begin == total
}

// The widths of all entries, added up: each row's width once for each of its entries. Linear in the node count.
pub fn entry_widths(t: &Tested<'_>) -> u128
    requires { sum_to (entries_of_row t.now.nodes.now) (nodes_used t.now.nodes.now) < 2 ^ 64 }
    ensures { result ≡ sum_to (widths_of_row t.now.nodes.now) (nodes_used t.now.nodes.now) }
{
    let mut sum = 0;
    for row in 0..t.used() {
        let min = t.node(row + 1, node::MIN);
        let max = t.node(row + 1, node::MAX);
        let many = t.node(row + 1, node::ENTRIES);
        sum += u128::from(many) * u128::from(max.saturating_sub(min));
    }
    sum
}

// Whether the kind of each block has a root, and all lives add up to a total. Linear in the blocks.
pub fn test_lives(t: &Tested<'_>, total: u128) -> bool
    ensures { Decides result (LivesAre t.now.blocks.now t.now.nodes.now t.now.n total) }
{
    let mut sum = 0;
    for k in 0..t.n {
        let kind = t.block(k, block::OWNER);
        if tables::get(t.nodes, 0, kind as usize) == 0 {
            return false;
        }
        let created = t.block(k, block::CREATED);
        let destroyed = t.block(k, block::DESTROYED);
        sum += u128::from(destroyed.saturating_sub(created));
    }
    sum == total
}
