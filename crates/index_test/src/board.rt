// What any index has, open or closed: heads, numbers, calendar, list of days, rows of blocks, pieces.
ghost use Rattle.std.specs.Prelude.{◌≡◌, false, length, ◌+◌, ◌-◌, ◌/◌, ◌≤◌};
ghost use Rattle.lists.specs.Tests.{Decides};
ghost use Rattle.history.specs.Lent.{too_short, row_width, block_head};
ghost use Rattle.layout.specs.Tables.{held, lengths_of};
ghost use Rattle.index_test.specs.Board.{Numbers, HeadFormed, BoardFormed};

use layout::Tables;
use tables::{block, entry, node, piece};

// Whether each table holds its head.
#[tactic(auto, using(crate::proofs::BoardTested::fitting))]
fn test_heads(lent: Tables) -> bool
    ensures { Decides result (too_short (lengths_of (held lent.entry)) ≡ false) }
{
    if lent.pieces.len() < piece::HEAD {
        return false;
    }
    if lent.blocks.len() < block::HEAD {
        return false;
    }
    if lent.nodes.len() < node::HEAD {
        return false;
    }
    if lent.entries.len() < entry::HEAD {
        return false;
    }
    true
}

// Whether there are block rows for so many blocks and pieces. It subtracts, as the sum may pass 2^64.
fn rows_fit(blocks: &[u64], count: u64, pieces: u64) -> bool
    ensures { Decides result (count + pieces ≤ (length blocks.now - block_head) / row_width) }
{
    let rows = tables::rows(blocks.len(), block::HEAD);
    count <= rows && pieces <= rows - count
}

// Whether the numbers of the head are those of an index.
#[tactic(auto, using(crate::proofs::BoardTested::numbering))]
fn test_numbers(lent: Tables) -> bool
    ensures { Decides result (Numbers (held lent.entry)) }
{
    let end = block_table::end(lent.blocks);
    if end == 0 {
        return false;
    }
    if block::MAX_END_TICK < end {
        return false;
    }
    let kinds = block_table::kinds(lent.blocks);
    if kinds == 0 {
        return false;
    }
    if tables::kinds::ALL < kinds {
        return false;
    }
    if end <= block_table::last(lent.blocks) {
        return false;
    }
    if lent.store.len() < block_table::used(lent.blocks) as usize {
        return false;
    }
    let count = block_table::count(lent.blocks);
    rows_fit(
        lent.blocks,
        count,
        tables::get(lent.pieces, 0, piece::COUNT),
    )
}

// Whether the heads are those of an index: lengths, numbers, calendar, list of days.
#[tactic(auto, using(crate::proofs::BoardTested::heading))]
fn test_head(lent: Tables) -> bool
    ensures { Decides result (HeadFormed (held lent.entry)) }
{
    if !test_heads(lent) {
        return false;
    }
    if !test_numbers(lent) {
        return false;
    }
    if !calendar_table::formed(lent.blocks) {
        return false;
    }
    day_table::formed(lent.blocks)
}

// Whether the tables have what any index has. Linear in the rows in use.
#[tactic(auto, using(crate::proofs::BoardTested::boarding))]
pub fn test_board(lent: Tables) -> bool
    ensures { Decides result (BoardFormed (held lent.entry)) }
{
    if !test_head(lent) {
        return false;
    }
    let kinds = block_table::kinds(lent.blocks);
    let end = block_table::end(lent.blocks);
    let used = block_table::used(lent.blocks);
    let last = block_table::last(lent.blocks);
    let count = block_table::count(lent.blocks);
    if !block_table::rows::test_rows(lent.blocks, count, kinds, end, used) {
        return false;
    }
    piece_table::test::test_pieces(lent.pieces, kinds, used, last)
}
