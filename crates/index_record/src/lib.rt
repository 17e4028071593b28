// Record on the tables of an open index: `record_op` of mod.rs. First which refusal of document 01 there is, or whether the operation is a read or an
// update, read-only; then what it does.
//
//   specs/Refusing    the refusals by the numbers that they depend on
//   specs/Calls       what each function ensures
//   proofs/Refusing   the refusals of the ledger from those of the numbers
//   proofs/Judging    one step for each return of what reads
//   proofs/Storing    bytes written behind the used part of the store
//   proofs/Reading    the tables after a read
//   proofs/Updating   the tables after an update
//   proofs/Recording  one step for each return of `record_open`

#![tactic(auto)]

ghost use Rattle.std.specs.Prelude.{◌≡◌, ◌+◌, ◌-◌, ltb, length};
ghost use Rattle.index_record.specs.Refusing.{CallTested, SpaceTested};
ghost use Rattle.index_record.specs.Calls.{lent_operation, Judged, ReadApplied, UpdateApplied, RecordedOpen};

use piece_table::Piece;
use refusals::Refusal;
use tables::{block, kinds, piece};

// What is recorded: at a tick, the bytes of a kind's cells from the first on.
#[derive(Clone, Copy)]
pub struct Operation<'a> {
    pub kind: u64,
    pub tick: u64,
    pub first: u64,
    pub bytes: &'a [u8],
}

// What an update changes: the lowest cell that was unknown or had another byte, and a guess for the link of the lowest piece that it meets.
#[derive(Clone, Copy, PartialEq, Eq, Debug)]
pub struct Change {
    pub cell: u64,
    pub near: u64,
}

// ── refusals ──

// Whether a + b is above the limit; the sum itself may pass 2^64.
fn exceeds(limit: u64, a: u64, b: u64) -> bool
    ensures { result ≡ ltb limit (a + b) }
{
    a.checked_add(b).is_none_or(|sum| limit < sum)
}

// Whether 25 or which of 5 to 8 the call is refused for.
#[tactic(auto, using(crate::proofs::Judging::calling))]
fn call_refusal(blocks: &[u64], op: Operation) -> Result<(), Refusal>
    ensures { CallTested blocks.now op.entry.kind op.entry.tick op.entry.first (length op.entry.bytes.now) result }
{
    if !kinds::has(block_table::kinds(blocks), op.kind) {
        return Err(Refusal::KindNotOpened);
    }
    let size = op.bytes.len() as u64;
    if size == 0 {
        return Err(Refusal::NoCells);
    }
    if exceeds(u64::MAX, op.first, size) {
        return Err(Refusal::EndTooHigh);
    }
    if block_table::end(blocks) <= op.tick {
        return Err(Refusal::TickTooHigh);
    }
    if op.tick < block_table::last(blocks) {
        return Err(Refusal::TickTooLow);
    }
    Ok(())
}

// Which of 9 to 11 an update of so many bytes is refused for: it leaves `left` pieces and records `made` blocks.
#[tactic(auto, using(crate::proofs::Judging::spacing))]
fn space_refusal(
    pieces: &[u64],
    blocks: &[u64],
    store: &[u8],
    left: u64,
    made: u64,
    size: u64,
) -> Result<(), Refusal>
    ensures { SpaceTested pieces.now blocks.now store.now left made size result }
{
    if tables::rows(pieces.len(), piece::HEAD) < left {
        return Err(Refusal::PiecesFull);
    }
    let space = tables::rows(blocks.len(), block::HEAD);
    let count = block_table::count(blocks);
    if exceeds(space, count, made) {
        return Err(Refusal::BlocksFull);
    }
    if exceeds(space, count + made, left) {
        return Err(Refusal::BlocksFull);
    }
    let used = block_table::used(blocks);
    if exceeds(store.len() as u64, used, size) {
        return Err(Refusal::StoreFull);
    }
    Ok(())
}

// What an operation changes, nothing where it is a read; or its refusal.
pub fn refusal(
    pieces: &[u64],
    blocks: &[u64],
    store: &[u8],
    op: Operation,
) -> Result<Option<Change>, Refusal>
    ensures { Judged pieces.now blocks.now store.now (lent_operation op.entry) result }
{
    call_refusal(blocks, op)?;
    if calendar_table::closed(blocks, op.first, op.bytes) {
        return Err(Refusal::CellClosed);
    }
    let after = survey::survey(pieces, store, op.kind, op.first, op.bytes);
    let size = op.bytes.len() as u64;
    let same = after.same;
    let near = after.near;
    if size <= same {
        return Ok(None);
    }
    let left = after.pieces;
    let made = after.blocks;
    space_refusal(pieces, blocks, store, left, made, size)?;
    let cell = op.first + same;
    Ok(Some(Change { cell, near }))
}

// ── what an accepted operation does ──

// A read: nothing changes but the last accepted tick.
pub fn enter_read(blocks: &mut [u64], tick: u64)
    ensures { ReadApplied blocks.old blocks.new tick }
{
    block_table::set_last(blocks, tick);
}

// An update: its bytes enter the store behind the used part, pieces are cut and recorded as blocks, and the operation becomes a piece. `near` is
// a guess for the link of the lowest piece that it meets.
#[tactic(auto, using(crate::proofs::Updating::updating))]
pub fn enter_update(
    pieces: &mut [u64],
    blocks: &mut [u64],
    store: &mut [u8],
    op: Operation,
    near: u64,
)
    ensures { UpdateApplied pieces.old blocks.old store.old pieces.new blocks.new store.new
        (lent_operation op.entry) }
{
    let used = block_table::used(blocks);
    let size = op.bytes.len() as u64;
    let Some(after) = used.checked_add(size) else {
        return;
    };
    tables::copy_in(store, used as usize, op.bytes);
    let piece = Piece {
        first: op.first,
        size,
        written: op.tick,
        offset: used,
        owner: op.kind,
    };
    recording::apply_update(pieces, blocks, piece, near);
    block_table::set_used(blocks, after);
    block_table::set_last(blocks, op.tick);
}

// Records an operation in the tables of an open index, and gives the lowest cell that it changes, none of a read. Nothing is written to a scratch, so
// none is lent here.
// The tables stand one by one: of a struct of `&mut` slices each contract would have to say that every one stays lent.
#[tactic(auto, using(crate::proofs::Recording::opening))]
pub fn record_open(
    pieces: &mut [u64],
    blocks: &mut [u64],
    store: &mut [u8],
    op: Operation,
) -> Result<Option<u64>, Refusal>
    ensures { RecordedOpen pieces.old blocks.old store.old pieces.new blocks.new store.new
        (lent_operation op.entry) result }
{
    match refusal(pieces, blocks, store, op)? {
        None => {
            enter_read(blocks, op.tick);
            Ok(None)
        }
        Some(change) => {
            enter_update(pieces, blocks, store, op, change.near);
            Ok(Some(change.cell))
        }
    }
}
