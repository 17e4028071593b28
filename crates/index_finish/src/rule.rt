// Rule 24 for finish: no two blocks share a cell at a tick, each piece counted as live up to the end.
ghost use Rattle.index_finish.specs.Apart.{PiecesClear, BlockClear, BlocksClear};
ghost use Rattle.index_finish.specs.Finish.{AllApart};

use crate::Head;

// Whether no piece that ends after the kind's cell `first` and starts before `end` was written before the tick `destroyed`. A seek for the first of them,
// and one for each that follows.
// No `for` goes over them: the next place is where a piece ends.
#[tactic(auto, using(crate::proofs::Clearing::seeking))]
fn pieces_clear(pieces: &[u64], kind: u64, first: u64, end: u64, destroyed: u64) -> bool
    ensures { PiecesClear pieces.now kind first end destroyed result }
{
    let mut place = first;
    while place < u64::MAX {
        let Some(link) = piece_table::seek(pieces, kind, place) else {
            return true;
        };
        if !merge_set::starts_below(pieces, link, kind, end) {
            return true;
        }
        let piece = piece_table::read(pieces, link);
        if piece.written < destroyed {
            return false;
        }
        let next = piece.end();
        // a piece that is sought ends after the place
        if next <= place {
            return true;
        }
        place = next;
    }
    true
}

// Whether the block of `link` shares no cell at a tick with a piece. A block of no life shares nothing.
#[tactic(auto, using(crate::proofs::Clearing::clearing))]
fn block_clear(pieces: &[u64], blocks: &[u64], link: u64) -> bool
    ensures { BlockClear pieces.now blocks.now link result }
{
    let row = block_table::read(blocks, link);
    !row.lives() || pieces_clear(pieces, row.owner, row.first, row.end(), row.destroyed)
}

// Whether none of the blocks 1 to `n` shares a cell at a tick with a piece.
#[tactic(auto, using(crate::proofs::Clearing::passing))]
fn blocks_clear(pieces: &[u64], blocks: &[u64], n: u64) -> bool
    ensures { BlocksClear pieces.now blocks.now n result }
{
    for k in 0..n {
        if !block_clear(pieces, blocks, k + 1) {
            return false;
        }
    }
    true
}

// Whether no two of the blocks and of the pieces share a cell at a tick. What any list of calls leaves is seen to be so along the rows, in near-linear
// time; other tables are tried in the tables of zeros, which are zeros again, and by a seek for each block. The block table is as it was.
#[tactic(auto, using(crate::proofs::Finishing::parting))]
pub fn all_apart(
    pieces: &[u64],
    blocks: &mut [u64],
    nodes: &mut [u64],
    entries: &mut [u64],
    head: Head,
) -> bool
    ensures { AllApart pieces.now blocks.old nodes.old entries.old head.end head.count
        blocks.new nodes.new entries.new result }
{
    handed_rows::handed_on(pieces, blocks, head.count)
        || crate::trial::blocks_apart(blocks, nodes, entries, head)
            && blocks_clear(pieces, blocks, head.count)
}
