// Finish, and the blocks in recorded order, those of no life too.
ghost use Rattle.layout.specs.Tables.{tables};
ghost use Rattle.board_lines.specs.Lines.{ListedOne, Listed, FinishPut};

use board_text::Output;

// The line of the block of a number.
fn list_one(blocks: &[u64], store: &[u8], number: u64, out: &mut Output<'_>)
    ensures { ListedOne blocks.now store.now number out.old out.new }
{
    match index_read::block_closed(blocks, number) {
        Err(_) => {}
        Ok(block) => {
            let bytes = tables::part(store, block.offset, block.length);
            out.block_line(block.first, block.created, block.destroyed, bytes);
        }
    }
}

// The lines of all blocks.
fn list(blocks: &[u64], store: &[u8], out: &mut Output<'_>)
    ensures { Listed blocks.now store.now out.old out.new }
{
    let count = block_table::count(blocks);
    for number in 0..count {
        list_one(blocks, store, number, out);
    }
}

// Finishes the index: the lines of its blocks, or that of the refusal.
pub fn finish(
    pieces: &mut [u64],
    blocks: &mut [u64],
    store: &[u8],
    nodes: &mut [u64],
    entries: &mut [u64],
    out: &mut Output<'_>,
)
    ensures { FinishPut (tables pieces.old blocks.old store.now nodes.old entries.old)
        out.old out.new }
{
    match index_finish::finish_open(pieces, blocks, nodes, entries) {
        Ok(()) => list(blocks, store, out),
        Err(refusal) => out.finish_refused(u64::from(refusal)),
    }
}
