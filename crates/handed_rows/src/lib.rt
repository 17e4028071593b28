// Rule 24 of an open index along the rows, in near-linear time and without a tree: theorem H of apart_laws. Every cell of a block is taken over, when it
// is destroyed, by blocks or pieces that are created then. How many are is counted in the block's own row, in the column NEXT, which has no other use in
// an open index; at the end it is zeros again.
//
//   specs/Numbered   block and piece rows as blocks, pieces destroyed after all others
//   specs/Handed     what each function does
//   proofs/Numbered  a block by its number is what its row says
//   proofs/Along     the rows of a tick: one step for each turn and each return
//   proofs/Tallying  what is counted for each row, and one step for each turn and each return of the loops over blocks and pieces
//   proofs/Handing   rows that are taken over whole show rule 24: theorem H

#![tactic(auto)]

ghost use Rattle.std.specs.Prelude.{◌≡◌, ◌≤◌, set};
ghost use Rattle.history.specs.Words.{cell_place};
ghost use Rattle.tables.specs.Columns.{column, pieces_count};
ghost use Rattle.ordering.specs.Order.{next_place};
ghost use Rattle.handed_rows.specs.Handed.{Common, HandsOn, TalliedRows, TalliedPieces, TakenOver, AllTaken, SeenHanded};

use block_table::Row;
use row_seek::Guide;
use tables::{block, piece};

// How many rows of a tick are passed over before the cell is sought among them, and again after that.
const MANY: u64 = 64;

// Cells of a kind that are taken over at a tick by what is created then.
#[derive(Clone, Copy)]
struct Stretch {
    kind: u64,
    first: u64,
    length: u64,
    tick: u64,
}

// How many cells the row has in common with a stretch.
#[tactic(auto, using(crate::proofs::Along::common_told, crate::proofs::Along::common_none))]
fn common(row: Row, stretch: Stretch) -> u64
    ensures { Common row stretch.kind stretch.first stretch.length result }
{
    if row.owner != stretch.kind {
        return 0;
    }
    let lo = row.first.max(stretch.first);
    let end = stretch.first.saturating_add(stretch.length);
    let hi = row.end().min(end);
    hi.saturating_sub(lo)
}

// The row before the next one to look at, when so many more may be passed over.
fn passed(blocks: &[u64], i: u64, n: u64, stretch: Stretch, left: u64) -> u64
    ensures { i ≤ result }
{
    if left != MANY {
        return i;
    }
    row_seek::search(blocks, i, n, stretch.tick, stretch.kind, stretch.first)
}

// Sets what is counted in a row, under one test where the table has it, as `block_table::read`: this is done for each of them.
#[inline(always)]
fn set_next(blocks: &mut [u64], link: u64, count: u64)
    ensures { blocks.new ≡ set blocks.old (next_place link) count }
{
    let row = link as usize;
    if block::HEAD <= blocks.len() && row <= (blocks.len() - block::HEAD) / tables::ROW {
        blocks[tables::ROW * row + (block::BASE + block::NEXT)] = count;
        return;
    }
    block::put(blocks, link, block::NEXT, count);
}

// Counts a stretch for the rows that are destroyed at its tick and have cells in common with it. Where a row is full already, two stretches have a cell
// in common, and no more is counted.
// No `for` goes over the rows: a turn may jump to where the cell is sought.
#[tactic(auto, using(crate::proofs::Along::along))]
fn hand_on(blocks: &mut [u64], n: u64, guide: &Guide, stretch: Stretch)
    ensures { HandsOn blocks.old blocks.new n (cell_place stretch.kind stretch.first) stretch.length stretch.tick }
{
    let mut i = row_seek::seek(blocks, n, guide, stretch.tick);
    let mut left = 2 * MANY;
    while i < n {
        i += 1;
        let row = block_table::read(blocks, i);
        if row.destroyed != stretch.tick {
            return;
        }
        let part = common(row, stretch);
        if part == 0 {
            if left == 0 {
                return;
            }
            left -= 1;
            i = passed(blocks, i, n, stretch, left);
        } else {
            if row.length <= row.next {
                return;
            }
            set_next(blocks, i, row.next.saturating_add(part));
        }
    }
}

// Counts the blocks 1 to n that have a life.
#[tactic(auto, using(crate::proofs::Tallying::rows))]
fn tally_rows(blocks: &mut [u64], n: u64, guide: &Guide)
    ensures { TalliedRows blocks.old blocks.new n }
{
    for k in 0..n {
        let row = block_table::read(blocks, k + 1);
        if row.lives() {
            let stretch = Stretch {
                kind: row.owner,
                first: row.first,
                length: row.length,
                tick: row.created,
            };
            hand_on(blocks, n, guide, stretch);
        }
    }
}

// Counts the pieces of the rows 1 to m, in whatever order they stand.
#[tactic(auto, using(crate::proofs::Tallying::pieces))]
fn tally_pieces(pieces: &[u64], m: u64, blocks: &mut [u64], n: u64, guide: &Guide)
    ensures { TalliedPieces pieces.now m blocks.old blocks.new n }
{
    for k in 0..m {
        let stretch = Stretch {
            kind: tables::get(pieces, k + 1, piece::OWNER),
            first: tables::get(pieces, k + 1, piece::FIRST),
            length: tables::get(pieces, k + 1, piece::LENGTH),
            tick: tables::get(pieces, k + 1, piece::WRITTEN),
        };
        hand_on(blocks, n, guide, stretch);
    }
}

// Whether the row has no life or as many cells as are counted in it, or fewer.
fn taken_over(row: Row) -> bool
    ensures { TakenOver row result }
{
    !row.lives() || row.length <= row.next
}

// Whether all rows 1 to n are so.
fn all_taken(blocks: &[u64], n: u64) -> bool
    ensures { AllTaken blocks.now n result }
{
    (0..n).all(|k| taken_over(block_table::read(blocks, k + 1)))
}

// Whether no two of the blocks 1 to n and of the pieces are seen to share a cell at a tick, each piece counted as live for ever; if not, nothing is said.
// The block table, which has no order yet, is as it was. To be called only where the tables have n rows and as many as the pieces say.
#[tactic(auto, using(crate::proofs::Handing::handing))]
pub fn handed_on(pieces: &[u64], blocks: &mut [u64], n: u64) -> bool
    ensures { SeenHanded pieces.now blocks.old n (column pieces.now 0 pieces_count) blocks.new result }
{
    if !ends_apart::ends_apart(blocks, n) {
        return false;
    }
    let mut guide = Guide::new();
    guide.mark_rows(blocks, n);
    tally_rows(blocks, n, &guide);
    let m = tables::get(pieces, 0, piece::COUNT);
    tally_pieces(pieces, m, blocks, n, &guide);
    let all = all_taken(blocks, n);
    ordering::clear_order(blocks, n);
    all
}
