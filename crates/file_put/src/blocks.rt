// The blocks of a kind's part of the file, in recorded order: those that have a life.
ghost use Rattle.std.specs.Prelude.{◌≡◌};
ghost use Rattle.file_put.specs.Living.{lives_at};
ghost use Rattle.file_put.specs.Parts.{PutBlock, PutBlocks};

use super::put;
use tables::block;

// Whether the block of a link is of the kind and has a life. In a closed index exactly these blocks have an entry in the kind's tree.
pub fn lives(blocks: &[u64], kind: u64, link: u64) -> bool
    ensures { result ≡ lives_at blocks.now kind link }
{
    let row = block_table::read(blocks, link);
    row.owner == kind && row.created < row.destroyed
}

// The block of a link: its row, and its bytes from the store. Of bytes that are not in the store, which no closed index has, nothing is put.
#[tactic(auto, using(crate::proofs::Laying::blocking))]
fn put_block(blocks: &[u64], store: &[u8], link: u64, out: &mut [u8], at: usize) -> usize
    ensures { PutBlock store.now blocks.now link out.old at out.new result }
{
    let kind = block::get(blocks, link, block::OWNER);
    let first = block::get(blocks, link, block::FIRST);
    let length = block::get(blocks, link, block::LENGTH);
    let created = block::get(blocks, link, block::CREATED);
    let destroyed = block::get(blocks, link, block::DESTROYED);
    let from = block::get(blocks, link, block::OFFSET) as usize;
    let many = length as usize;
    if store.len() < many {
        return at;
    }
    if store.len() - many < from {
        return at;
    }
    let next = put::row(out, at, kind, first, length, created, destroyed);
    let to = from + many;
    put::bytes(out, next, &store[from..to])
}

// Those of the first `count` blocks that are of the kind and have a life.
#[tactic(auto, using(crate::proofs::Laying::laying))]
pub fn put_blocks(
    blocks: &[u64],
    store: &[u8],
    kind: u64,
    count: u64,
    out: &mut [u8],
    at: usize,
) -> usize
    ensures { PutBlocks store.now blocks.now kind count out.old at out.new result }
{
    let mut next = at;
    for k in 0..count {
        if lives(blocks, kind, k + 1) {
            next = put_block(blocks, store, k + 1, out, next);
        }
    }
    next
}
