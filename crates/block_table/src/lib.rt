// The block table: which blocks its rows stand for, its head by name, appending, and the test of its rows.
//
//   rows    whether rows are sound, one by one
//   specs/Blocks      what a row says, and the block of history that it stands for
//   specs/RowRead     a row read at once
//   specs/Appended    blocks appended behind those that the table has
//   specs/Rows        what document 01 asks of a row
//   proofs/Blocks     how many blocks the rows stand for, which, and what they depend on
//   proofs/Keeping    what leaves the rows as they were
//   proofs/Appending  laws of appending

#![tactic(auto)]

ghost use Rattle.std.specs.Prelude.{◌≡◌, ◌+◌, set, leb, ltb};
ghost use Rattle.lists.specs.Tests.{Decides};
ghost use Rattle.tables.specs.Sums.{plus_up_to};
ghost use Rattle.tables.specs.Columns.{block_column, head_state, head_end, head_kinds, head_count, head_used, head_last, block_next};
ghost use Rattle.block_table.specs.Blocks.{head_place, StartsBefore};
ghost use Rattle.block_table.specs.RowRead.{Reads};
ghost use Rattle.block_table.specs.Appended.{WroteRow, AppendedRow};

pub mod rows;

use tables::{block, place};

// ── the head ──
// A function for each field: `block::get` with a column says the same, but callers speak of the head by name.

// What there is: no index, an open one, a closed one.
pub fn state(blocks: &[u64]) -> u64
    ensures { result ≡ block_column blocks.now 0 head_state }
{
    block::get(blocks, 0, block::STATE)
}

// The end tick.
pub fn end(blocks: &[u64]) -> u64
    ensures { result ≡ block_column blocks.now 0 head_end }
{
    block::get(blocks, 0, block::END)
}

// The set of kinds, as a mask.
pub fn kinds(blocks: &[u64]) -> u64
    ensures { result ≡ block_column blocks.now 0 head_kinds }
{
    block::get(blocks, 0, block::KINDS)
}

// How many blocks there are.
pub fn count(blocks: &[u64]) -> u64
    ensures { result ≡ block_column blocks.now 0 head_count }
{
    block::get(blocks, 0, block::COUNT)
}

// How many bytes of the store are in use.
pub fn used(blocks: &[u64]) -> u64
    ensures { result ≡ block_column blocks.now 0 head_used }
{
    block::get(blocks, 0, block::USED)
}

// The last accepted tick.
pub fn last(blocks: &[u64]) -> u64
    ensures { result ≡ block_column blocks.now 0 head_last }
{
    block::get(blocks, 0, block::LAST)
}

// The link of the first block in order.
pub fn first(blocks: &[u64]) -> u64
    ensures { result ≡ block_column blocks.now 0 block_next }
{
    block::get(blocks, 0, block::NEXT)
}

pub fn set_state(blocks: &mut [u64], value: u64)
    ensures { blocks.new ≡ set blocks.old (head_place head_state) value }
{
    block::put(blocks, 0, block::STATE, value);
}

pub fn set_end(blocks: &mut [u64], value: u64)
    ensures { blocks.new ≡ set blocks.old (head_place head_end) value }
{
    block::put(blocks, 0, block::END, value);
}

pub fn set_kinds(blocks: &mut [u64], value: u64)
    ensures { blocks.new ≡ set blocks.old (head_place head_kinds) value }
{
    block::put(blocks, 0, block::KINDS, value);
}

pub fn set_count(blocks: &mut [u64], value: u64)
    ensures { blocks.new ≡ set blocks.old (head_place head_count) value }
{
    block::put(blocks, 0, block::COUNT, value);
}

pub fn set_used(blocks: &mut [u64], value: u64)
    ensures { blocks.new ≡ set blocks.old (head_place head_used) value }
{
    block::put(blocks, 0, block::USED, value);
}

pub fn set_last(blocks: &mut [u64], value: u64)
    ensures { blocks.new ≡ set blocks.old (head_place head_last) value }
{
    block::put(blocks, 0, block::LAST, value);
}

pub fn set_first(blocks: &mut [u64], value: u64)
    ensures { blocks.new ≡ set blocks.old (head_place block_next) value }
{
    block::put(blocks, 0, block::NEXT, value);
}

// ── rows ──

// A block as its row says it: so many cells from `first` on; their bytes stand in the store from `offset` on. The owner is the kind of the block.
#[derive(Clone, Copy)]
pub struct Block {
    pub first: u64,
    pub size: u64,
    pub created: u64,
    pub destroyed: u64,
    pub offset: u64,
    pub owner: u64,
}

// What is read of a row at once.
#[derive(Clone, Copy)]
pub struct Row {
    pub first: u64,
    pub length: u64,
    pub created: u64,
    pub destroyed: u64,
    pub owner: u64,
    pub next: u64,
}

impl Row {
    // The cell after the last one, or the largest number where that is passed: in tables that nobody has tested.
    pub fn end(self) -> u64
        ensures { result ≡ plus_up_to self.first self.length }
    {
        self.first.saturating_add(self.length)
    }

    // Whether the row ends at the place or before it. It subtracts and does not add, as an end may pass 2^64.
    pub fn ends_by(self, place: u64) -> bool
        ensures { result ≡ leb (self.first + self.length) place }
    {
        self.first <= place && self.length <= place - self.first
    }

    // Whether the block has a life: one that is destroyed at the tick of its creation has none.
    pub fn lives(self) -> bool
        ensures { result ≡ ltb self.created self.destroyed }
    {
        self.created < self.destroyed
    }
}

// Reads the row of a link, under one test where the table has it: for loops that go over many rows.
pub fn read(blocks: &[u64], link: u64) -> Row
    ensures { Reads blocks.now link result }
{
    let row = link as usize;
    if block::HEAD <= blocks.len() && row <= (blocks.len() - block::HEAD) / tables::ROW {
        return Row {
            first: blocks[tables::ROW * row + (block::BASE + block::FIRST)],
            length: blocks[tables::ROW * row + (block::BASE + block::LENGTH)],
            created: blocks[tables::ROW * row + (block::BASE + block::CREATED)],
            destroyed: blocks[tables::ROW * row + (block::BASE + block::DESTROYED)],
            owner: blocks[tables::ROW * row + (block::BASE + block::OWNER)],
            next: blocks[tables::ROW * row + (block::BASE + block::NEXT)],
        };
    }
    Row {
        first: block::get(blocks, link, block::FIRST),
        length: block::get(blocks, link, block::LENGTH),
        created: block::get(blocks, link, block::CREATED),
        destroyed: block::get(blocks, link, block::DESTROYED),
        owner: block::get(blocks, link, block::OWNER),
        next: block::get(blocks, link, block::NEXT),
    }
}

// Whether the block of `one` starts before that of `other`: by kind, then by cell. No other function compares the places of blocks.
pub fn starts_before(blocks: &[u64], one: u64, other: u64) -> bool
    ensures { Decides result (StartsBefore blocks.now one other) }
{
    let owner = block::get(blocks, one, block::OWNER);
    let first = block::get(blocks, one, block::FIRST);
    let kind = block::get(blocks, other, block::OWNER);
    let cell = block::get(blocks, other, block::FIRST);
    place::below(owner, first, kind, cell)
}

// Writes the row of a link. It is in no order yet.
pub fn write_row(blocks: &mut [u64], link: u64, block: Block)
    ensures { WroteRow blocks.old blocks.new link block }
{
    block::put(blocks, link, block::FIRST, block.first);
    block::put(blocks, link, block::LENGTH, block.size);
    block::put(blocks, link, block::CREATED, block.created);
    block::put(blocks, link, block::DESTROYED, block.destroyed);
    block::put(blocks, link, block::OFFSET, block.offset);
    block::put(blocks, link, block::OWNER, block.owner);
    block::put(blocks, link, block::NEXT, 0);
    block::put(blocks, link, block::SPARE, 0);
}

// Appends a block behind those that the table has.
#[tactic(auto, using(crate::proofs::Appending::append_done))]
pub fn append(blocks: &mut [u64], block: Block)
    ensures { AppendedRow blocks.old blocks.new block }
{
    let Some(link) = count(blocks).checked_add(1) else {
        return;
    };
    write_row(blocks, link, block);
    set_count(blocks, link);
}
