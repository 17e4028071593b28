// The calls on files: write and load.
ghost use Rattle.layout.specs.Tables.{tables};
ghost use Rattle.layout.specs.Files.{WrittenBy, LoadedBy};
ghost use Rattle.servercape.specs.Numbers.{ByNumber};

use crate::answers;
use layout::Tables;

// Writes the file of a finished or loaded index from the start of `out` on: how many bytes.
pub fn servercape_write(
    pieces: &[u64],
    blocks: &[u64],
    store: &[u8],
    nodes: &[u64],
    entries: &[u64],
    out: &mut [u8],
    written: &mut u64,
) -> u64
    ensures { ByNumber (WrittenBy
        (tables pieces.now blocks.now store.now nodes.now entries.now)
        out.old out.new) result written.old written.new }
{
    let lent = Tables {
        pieces,
        blocks,
        store,
        nodes,
        entries,
    };
    let count = spacetime_file::serialize_to(lent, out);
    answers::number(count, written)
}

// Loads a finished index from a file, from a position on: the position after it.
pub fn servercape_load(
    pieces: &mut [u64],
    blocks: &mut [u64],
    store: &mut [u8],
    nodes: &mut [u64],
    entries: &mut [u64],
    file: &[u8],
    at: u64,
    next: &mut u64,
) -> u64
    ensures { ByNumber (LoadedBy file.now at
        (tables pieces.old blocks.old store.old nodes.old entries.old)
        (tables pieces.new blocks.new store.new nodes.new entries.new)) result
        next.old next.new }
{
    match spacetime_file::deserialize(pieces, blocks, store, nodes, entries, file, at as usize) {
        Ok(position) => {
            *next = position as u64;
            0
        }
        Err(refusal) => u64::from(refusal),
    }
}
