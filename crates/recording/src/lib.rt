// What one update of the board does to the pieces, and the blocks that it records. Ports the overlaps of merge_set.rs and `Indexer` of mod.rs.
//
//   specs/Recorded     the blocks that pieces become
//   specs/Calls        what each function ensures
//   proofs/Recorded    laws of recording them
//   proofs/Clearing    one step for each return: of `record_part`, `meet_one`, `clear_one`, `clear`
//   proofs/Placing     of `clear_after`, `take_place`
//   proofs/Updating    of `split`, `cut_first`, `apply_update`
//   proofs/Extracting  of `extract_members`
//   proofs/Telling     what the tables then stand for is the ledger's update

#![tactic(auto)]

ghost use Rattle.std.specs.Prelude.{◌≡◌, ◌+◌, ◌<◌, ◌^◌};
ghost use Rattle.history.specs.Words.{cell_place};
ghost use Rattle.piece_table.specs.Piece.{row_of};
ghost use Rattle.piece_table.specs.Calls.{own_place};
ghost use Rattle.recording.specs.Recorded.{block_row_of};
ghost use Rattle.recording.specs.Calls.{RecordedPart, Extracted, ExtractedMembers, MetOne, ClearedOne, Cleared, ClearedAfter, SplitPiece, CutFirst, TookPlace, AppliedUpdate};

use block_table::Block;
use piece_table::Piece;
use tables::piece;

// The cells [first, end) of a kind that an operation at `tick` takes. `near` is a guess: the link of a piece that has the first cell or ends there, or
// any number.
#[derive(Clone, Copy)]
struct Cells {
    tick: u64,
    kind: u64,
    first: u64,
    end: u64,
    near: u64,
}

// The block that a piece becomes when it is destroyed.
#[tactic(auto, using(crate::proofs::Recorded::block_is))]
fn block_of(piece: Piece, destroyed: u64) -> Block
    ensures { result ≡ block_row_of destroyed (row_of piece) }
{
    Block {
        first: piece.first,
        size: piece.size,
        created: piece.written,
        destroyed,
        offset: piece.offset,
        owner: piece.owner,
    }
}

// Records the part of a link's piece in the cells of its kind, which it meets, as a block.
#[tactic(auto, using(crate::proofs::Clearing::recording))]
fn record_part(pieces: &[u64], blocks: &mut [u64], link: u64, cells: Cells)
    ensures { RecordedPart pieces.now blocks.old blocks.new link cells.tick
        (own_place pieces.now link cells.first) (own_place pieces.now link cells.end) }
{
    if let Some(part) = piece_table::read(pieces, link).clip(cells.first, cells.end) {
        block_table::append(blocks, block_of(part, cells.tick));
    }
}

// Cuts the cells [from, to) out of the piece of a link, which reaches over both ends: the left part stays in its row, the right one gets a new row.
#[tactic(auto, using(crate::proofs::Updating::splitting))]
fn split(pieces: &mut [u64], link: u64, from: u64, to: u64)
    ensures { SplitPiece pieces.old pieces.new link
        (own_place pieces.old link from) (own_place pieces.old link to) }
{
    let Some(right) = piece_table::read(pieces, link).clip(to, u64::MAX) else {
        return;
    };
    piece_table::trim_back(pieces, link, from);
    piece_table::insert_piece(pieces, right);
}

// Records what the lowest piece in the cells has there, and gives its link, if it lies in there wholly; cuts it at the end, if it reaches on.
#[tactic(auto, using(crate::proofs::Clearing::meeting))]
fn meet_one(pieces: &mut [u64], blocks: &mut [u64], cells: Cells) -> Option<u64>
    ensures { MetOne pieces.old pieces.new blocks.old blocks.new cells.tick
        (cell_place cells.kind cells.first) (cell_place cells.kind cells.end) result }
{
    let link = piece_table::seek_near(pieces, cells.kind, cells.first, cells.near)?;
    if !merge_set::starts_below(pieces, link, cells.kind, cells.end) {
        return None;
    }
    record_part(pieces, blocks, link, cells);
    if piece_table::ends_after(pieces, link, cells.kind, cells.end) {
        piece_table::trim_front(pieces, link, cells.end);
        return None;
    }
    Some(link)
}

// Takes the lowest piece in the cells out, and records it; or cuts it at the end and stops; stops if there is none. Tells whether to go on.
#[tactic(auto, using(crate::proofs::Clearing::clearing))]
fn clear_one(pieces: &mut [u64], blocks: &mut [u64], cells: Cells) -> bool
    ensures { ClearedOne pieces.old pieces.new blocks.old blocks.new cells.tick
        (cell_place cells.kind cells.first) (cell_place cells.kind cells.end) result }
{
    let Some(link) = meet_one(pieces, blocks, cells) else {
        return false;
    };
    piece_table::remove_piece(pieces, link);
    true
}

// Takes out and records all that the pieces have in the cells, where none reaches over the first one.
// The first one is sought anew in each round, as the tree has changed; there are no more rounds than pieces, so that it ends on any table.
#[tactic(auto, using(crate::proofs::Clearing::rounds))]
fn clear(pieces: &mut [u64], blocks: &mut [u64], cells: Cells)
    ensures { Cleared pieces.old pieces.new blocks.old blocks.new cells.tick
        (cell_place cells.kind cells.first) (cell_place cells.kind cells.end) }
{
    let count = tables::get(pieces, 0, piece::COUNT);
    for _round in 0..count {
        if !clear_one(pieces, blocks, cells) {
            return;
        }
    }
}

// Takes out and records all that the pieces behind a link's have below the cell `end` of its kind.
#[tactic(auto, using(crate::proofs::Placing::clearing_after))]
fn clear_after(pieces: &mut [u64], blocks: &mut [u64], tick: u64, link: u64, end: u64)
    ensures { ClearedAfter pieces.old pieces.new blocks.old blocks.new tick link
        (own_place pieces.old link end) }
{
    let row = piece_table::read(pieces, link);
    let first = row.end();
    if end <= first {
        return;
    }
    let cells = Cells {
        tick,
        kind: row.owner,
        first,
        end,
        near: link,
    };
    clear(pieces, blocks, cells);
}

// Cuts what lies in the cells off a piece that reaches over the first one, and records it. Tells whether there may be more in there.
#[tactic(auto, using(crate::proofs::Updating::cutting))]
fn cut_first(pieces: &mut [u64], blocks: &mut [u64], cells: Cells) -> bool
    ensures { CutFirst pieces.old pieces.new blocks.old blocks.new cells.tick
        (cell_place cells.kind cells.first) (cell_place cells.kind cells.end) result }
{
    let Some(link) = piece_table::seek_near(pieces, cells.kind, cells.first, cells.near) else {
        return false;
    };
    if !merge_set::starts_below(pieces, link, cells.kind, cells.first) {
        return true;
    }
    record_part(pieces, blocks, link, cells);
    if piece_table::ends_after(pieces, link, cells.kind, cells.end) {
        split(pieces, link, cells.first, cells.end);
        return false;
    }
    piece_table::trim_back(pieces, link, cells.first);
    true
}

// Puts the piece of an update where no piece reaches over its first cell. It takes the row of the lowest piece that it covers; all else in its cells
// is taken out. What is taken out is recorded, ascending, as blocks destroyed at the tick at which the piece is written. `near` is a guess, as in `Cells`.
#[tactic(auto, using(crate::proofs::Placing::placing))]
fn take_place(pieces: &mut [u64], blocks: &mut [u64], piece: Piece, near: u64)
    requires { piece.first + piece.size < 2 ^ 64 }
    ensures { TookPlace pieces.old pieces.new blocks.old blocks.new (row_of piece) }
{
    let cells = Cells {
        tick: piece.written,
        kind: piece.owner,
        first: piece.first,
        end: piece.first + piece.size,
        near,
    };
    let Some(link) = meet_one(pieces, blocks, cells) else {
        piece_table::insert_piece(pieces, piece);
        return;
    };
    let was = tables::get(pieces, link, piece::FIRST);
    clear_after(pieces, blocks, cells.tick, link, cells.end);
    let Some(row) = piece_table::seek_near(pieces, piece.owner, was, link) else {
        return;
    };
    piece_table::replace_piece(pieces, row, piece);
}

// What an update does to the pieces and the blocks: its piece is written at the tick of the operation, and its bytes stand in the store. `near` is a
// guess for the piece that has the first cell.
#[tactic(auto, using(crate::proofs::Updating::updating))]
pub fn apply_update(pieces: &mut [u64], blocks: &mut [u64], piece: Piece, near: u64)
    ensures { AppliedUpdate pieces.old pieces.new blocks.old blocks.new (row_of piece) }
{
    let Some(end) = piece.first.checked_add(piece.size) else {
        return;
    };
    let cells = Cells {
        tick: piece.written,
        kind: piece.owner,
        first: piece.first,
        end,
        near,
    };
    if cut_first(pieces, blocks, cells) {
        take_place(pieces, blocks, piece, near);
        return;
    }
    piece_table::insert_piece(pieces, piece);
}

// Records the pieces of the tree at `link`, which is at most `fuel` deep, as blocks destroyed at `end`.
#[tactic(auto, using(crate::proofs::Extracting::extracting))]
fn extract(pieces: &[u64], blocks: &mut [u64], link: u64, end: u64, fuel: u64)
    ensures { Extracted pieces.now blocks.old blocks.new link end fuel }
{
    if link == 0 || fuel == 0 {
        return;
    }
    let l = tables::get(pieces, link, piece::LEFT);
    let r = tables::get(pieces, link, piece::RIGHT);
    extract(pieces, blocks, l, end, fuel - 1);
    block_table::append(blocks, block_of(piece_table::read(pieces, link), end));
    extract(pieces, blocks, r, end, fuel - 1);
}

// Records all pieces, ascending, as blocks destroyed at `end`. The piece table stays as it is.
#[tactic(auto, using(crate::proofs::Extracting::extracting))]
pub fn extract_members(pieces: &[u64], blocks: &mut [u64], end: u64)
    ensures { ExtractedMembers pieces.now blocks.old blocks.new end }
{
    let root = tables::get(pieces, 0, piece::ROOT);
    extract(pieces, blocks, root, end, piece_table::DEEPEST);
}
