// The blocks of the file: a row for each, and its bytes behind those of the blocks before it.
ghost use Rattle.file_fill.specs.Fill.{FilledBlocks};

use crate::rows::put_row;
use fields::Reader;
use file_scan::rows;
use file_scan::rows::BlockRow;
use tables::block;

// Fills the rows from link 1 on, and the store from its start on. Linear in the blocks and their bytes. The kind is a number, as any may be filled in.
pub fn fill_blocks(
    blocks: &mut [u64],
    store: &mut [u8],
    file: &[u8],
    kind: u64,
    count: u64,
    at: usize,
)
    ensures { FilledBlocks file.now kind count at blocks.old store.old blocks.new store.new }
{
    let mut reader = Reader { file, at };
    let mut used: u64 = 0;
    for rows in 0..count {
        let Ok(
            BlockRow {
                first,
                created,
                destroyed,
                bytes,
            },
        ) = rows::block(&mut reader, kind)
        else {
            return;
        };
        let length = bytes.len() as u64;
        let row = [first, length, created, destroyed, used, kind, 0, 0];
        put_row(blocks, block::BASE, rows + 1, row);
        tables::copy_in(store, used as usize, bytes);
        used += length;
    }
}
