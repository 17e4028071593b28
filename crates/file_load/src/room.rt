// Rule 20: whether what the file has goes into the tables.
ghost use Rattle.std.specs.Prelude.{◌≡◌, length};
ghost use Rattle.file_load.specs.Load.{room_for};

use file_scan::Counts;
use tables::{block, entry, node};

// Whether the rows and bytes go in.
#[tactic(auto, unfolding(crate::specs::Load::room_for))]
pub fn room(blocks: &[u64], store: &[u8], nodes: &[u64], entries: &[u64], counts: Counts) -> bool
    ensures { result ≡ room_for (length blocks.now) (length store.now) (length nodes.now) (length entries.now) counts.blocks counts.bytes counts.nodes counts.entries }
{
    counts.blocks <= tables::rows(blocks.len(), block::HEAD)
        && counts.nodes <= tables::rows(nodes.len(), node::HEAD)
        && counts.entries <= entry::rows(entries)
        && counts.bytes <= store.len() as u64
}
