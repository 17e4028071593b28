// Writing the file of a closed index (`serialize_to` of spacetime_index.rs), without the test of its tables: for callers that have tested them. The trees are
// written one after the other by kind code, each with its own blocks; a kind without a tree writes nothing.
//
// The file is measured first, so that a refusal has written nothing. Blocks of no life have no entry and are not written; the others are numbered anew
// in each part. While the nodes of a part are written, the numbers of its blocks stand where the blocks will be, ascending, and a block's new number is
// its place among them, found by binary search. Nothing past the file is touched, and no memory but the lent slice is used.
//
//   lib    specs/Answers   proofs/Agreeing, Answering   the file in parts, as the ledger has it; 16
//   plan   specs/Sizes     proofs/Planning              how long the file is

#![tactic(auto)]

ghost use Rattle.refusals.specs.Numbers.{answer_by};
ghost use Rattle.file_write.specs.Answers.{PartWritten, PartPut, AllWritten, WrittenClosed};

mod plan;

use file_nodes::nodes::{Place, Tree};
use file_nodes::numbers;
use file_put::{BLOCKS_AT, blocks, put};
use refusals::Refusal;
use segment_table::lent::Closed;
use tables::kinds::KINDS;

// Writes a kind's part of the file from the front of the slice on, and gives how long it is: the list of its blocks, if it is needed, then by it the nodes,
// then the blocks over it. A kind without a root has none.
fn write_part(closed: &Closed<'_>, store: &[u8], kind: u64, out: &mut [u8]) -> usize
    ensures { PartWritten closed.now.blocks.now store.now closed.now.nodes.now closed.now.entries.now kind out.old out.new result }
{
    let Closed {
        blocks,
        nodes,
        entries,
    } = *closed;
    let root = tables::get(nodes, 0, kind as usize);
    if root == 0 {
        return 0;
    }
    let count = block_table::count(blocks);
    let end = block_table::end(blocks);
    let Some((living, next)) = plan::measure_blocks(blocks, kind, count, out.len()) else {
        return 0;
    };
    let listed = numbers::list(blocks, kind, count, living, out);
    let tree = Tree {
        nodes,
        entries,
        listed,
    };
    let whole = Place {
        link: root,
        min: 0,
        max: end,
    };
    let size = tree.put(whole, out, next);
    blocks::put_blocks(blocks, store, kind, count, out, BLOCKS_AT);
    let count_at = put::byte(out, 0, kind);
    put::number(out, count_at, living);
    size
}

// Writes a kind's part from a place on, and gives the place behind it.
#[tactic(auto, using(crate::proofs::Answering::placing))]
fn put_part(closed: &Closed<'_>, store: &[u8], kind: u64, out: &mut [u8], at: usize) -> usize
    ensures { PartPut closed.now.blocks.now store.now closed.now.nodes.now closed.now.entries.now kind out.old at out.new result }
{
    if out.len() < at {
        return at;
    }
    let size = write_part(closed, store, kind, &mut out[at..]);
    if out.len() - at < size {
        return at;
    }
    at + size
}

// Writes the parts of all kinds, one behind the other.
#[tactic(auto, using(crate::proofs::Answering::laying))]
fn write_parts(closed: &Closed<'_>, store: &[u8], out: &mut [u8])
    ensures { AllWritten closed.now.blocks.now store.now closed.now.nodes.now closed.now.entries.now out.old out.new }
{
    let mut at = 0;
    for kind in 0..KINDS {
        at = put_part(closed, store, kind, out, at);
    }
}

// Writes the file of a closed index, and gives how many bytes it has: 16 if it exceeds the slice, and nothing has changed. An index without blocks
// writes nothing.
pub fn write_closed(closed: &Closed<'_>, store: &[u8], out: &mut [u8]) -> Result<u64, Refusal>
    ensures { WrittenClosed closed.now.blocks.now store.now closed.now.nodes.now closed.now.entries.now out.old out.new (answer_by (λ n. n) result) }
{
    let size = plan::measure(closed, out.len()).ok_or(Refusal::ResultTooLong)?;
    write_parts(closed, store, out);
    Ok(size as u64)
}
