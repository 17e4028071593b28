// The work of finish on tables that stand for an open index. Ports `Indexer::finalize` of mod.rs and the building of spacetime_index.rs.
//
//   rule              rule 24, each piece counted as live up to the end
//   trial             rule 24 of the blocks alone, by trees of theirs, where the rows do not show it
//   specs/Apart       which blocks and pieces share a cell at a tick, and what the tests decide
//   specs/Trial       the same of blocks alone
//   specs/Finish      what finish answers and leaves
//   specs/Answers     the contract of `finish_open`
//   proofs/Lists      laws of lists that know nothing of tables
//   proofs/Clearing   one step for each turn and each return of the tests
//   proofs/Standing   what tables that stand for an open ledger have
//   proofs/Agreeing   rule 24 over rows is history's over all blocks
//   proofs/Handed     what is seen along the rows is rule 24
//   proofs/Counting   the trees that are counted are those of all blocks, and the answer is the ledger's
//   proofs/Settling   an accepted finish leaves the tables of the finished ledger
//   proofs/Trying     one step for each return of the trial
//   proofs/Finishing  one step for each return of the others
//   proofs/Public     so finish does what layout's relation says: one step for each return of `finish_open`

#![tactic(auto)]

ghost use Rattle.std.specs.Prelude.{◌≡◌};
ghost use Rattle.tables.specs.Columns.{block_column, head_end, head_count};
ghost use Rattle.history.specs.Results.{done};
ghost use Rattle.refusals.specs.Numbers.{answer_by};
ghost use Rattle.index_finish.specs.Finish.{TestedBlank, Prepared, SettledTables};
ghost use Rattle.index_finish.specs.Answers.{FinishesOpen};

use refusals::Refusal;
use segment_tree::build::Rows;
use segment_tree::{build, close};
use tables::{block, piece};

mod rule;
mod trial;

// What the tests and the tree take from the head of the block table.
#[derive(Clone, Copy)]
struct Head {
    end: u64,
    count: u64,
}

impl Head {
    fn of(blocks: &[u64]) -> Head
        ensures end { result.end ≡ block_column blocks.now 0 head_end }
        ensures count { result.count ≡ block_column blocks.now 0 head_count }
    {
        Head {
            end: block_table::end(blocks),
            count: block_table::count(blocks),
        }
    }
}

// Whether the tables that finish builds in are zeros.
#[tactic(auto, using(crate::proofs::Finishing::blanking))]
fn blank(nodes: &[u64], entries: &[u64]) -> bool
    ensures { TestedBlank nodes.now entries.now result }
{
    tables::all_zero(nodes) && tables::all_zero(entries)
}

// Tests rule 24 and counts the trees of all blocks and pieces; or gives the refusal, and leaves everything as it was. Refusals 12 and 13 come from the
// count.
#[tactic(auto, using(crate::proofs::Finishing::preparing))]
fn prepare(
    pieces: &[u64],
    blocks: &mut [u64],
    nodes: &mut [u64],
    entries: &mut [u64],
) -> Result<(), Refusal>
    ensures { Prepared pieces.now blocks.old nodes.old entries.old
        blocks.new nodes.new entries.new (answer_by (λ _. done) result) }
{
    if !blank(nodes, entries) {
        return Err(Refusal::Malformed);
    }
    let head = Head::of(blocks);
    if !rule::all_apart(pieces, blocks, nodes, entries, head) {
        return Err(Refusal::Malformed);
    }
    let m = tables::get(pieces, 0, piece::COUNT);
    let Head { end, count } = head;
    let rows = Rows {
        blocks,
        n: count,
        pieces,
        m,
        end,
    };
    build::count_trees(nodes, entries, &rows)
}

// Turns the pieces into blocks, and closes the trees that are counted already.
#[tactic(auto, using(crate::proofs::Settling::settle_done))]
fn settle(pieces: &mut [u64], blocks: &mut [u64], nodes: &mut [u64], entries: &mut [u64])
    ensures { SettledTables pieces.old blocks.old nodes.old entries.old
        pieces.new blocks.new nodes.new entries.new }
{
    let end = block_table::end(blocks);
    recording::extract_members(pieces, blocks, end);
    block_table::set_state(blocks, block::CLOSED);
    let all = block_table::count(blocks);
    close::close_trees(nodes, entries, blocks, all, end);
    tables::zero(pieces);
}

// Finishes an index whose tables stand for an open ledger; or tells the refusal, and leaves everything as it was. To be called only after the test of
// the tables: their counts are the numbers of steps.
// The tables stand one by one: of a struct of `&mut` slices each contract would have to say that every one stays lent.
pub fn finish_open(
    pieces: &mut [u64],
    blocks: &mut [u64],
    nodes: &mut [u64],
    entries: &mut [u64],
) -> Result<(), Refusal>
    ensures { FinishesOpen pieces.old blocks.old nodes.old entries.old
        pieces.new blocks.new nodes.new entries.new (answer_by (λ _. done) result) }
{
    prepare(pieces, blocks, nodes, entries)?;
    settle(pieces, blocks, nodes, entries);
    Ok(())
}
