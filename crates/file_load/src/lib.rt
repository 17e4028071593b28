// Loading an index from the bytes of a file into lent tables. Ports the reading half of spacetime_index.rs. The first pass (`file_scan`) writes nothing
// and gives 17, 18 and 19; then 20. The second pass (`file_fill`) fills the tables, with 21 on the way down; 22, 23 and 24 are tested on the filled
// tables. After 21 to 24 everything lent is zeros.
//
// A load takes O(B + P) steps for whatever a list of calls left: B bytes of the file are read, P numbers of the piece table become zeros. For other files rule 24
// may look for each of n blocks at no more than 64 nodes, by binary search (`segment_apart`): O(n log n log E). A refusal of 21 to 24 zeroes all that is lent.
// No count of the file is taken on trust, and no call is deeper than 66 frames.
//
//   room              20
//   judge             22 to 24, on filled tables
//   specs/Load        what each part answers
//   proofs/Faults     the reader of a file gives 17, 18 and 19 alone
//   proofs/OneKind    an index of one kind
//   proofs/Holding    numbers that stand in a table
//   proofs/Rows       the filled block rows are the file's blocks
//   proofs/Trees      the filled node and entry tables hold the file's tree
//   proofs/Standing   filled tables stand for the file's index
//   proofs/Judging    one step for each return of the tests
//   proofs/Building   one step for each return of `build`
//   proofs/Loading    one step for each return of `load`

#![tactic(auto)]

ghost use Rattle.layout.specs.Tables.{tables};
ghost use Rattle.layout.specs.Files.{LoadedBy};
ghost use Rattle.refusals.specs.Numbers.{answer_by};
ghost use Rattle.tables.specs.Kinds.{code_of};
ghost use Rattle.file_load.specs.Load.{HeadPut, Built, Zeroed};

use file_fill::nodes::Source;
use file_fill::{blocks, rows};
use file_scan::Counts;
use refusals::Refusal;
use segment_table::lent::{Claim, Closed};
use tables::block;

mod judge;
mod room;

// Everything but the pieces becomes zeros.
fn zero_all(blocks: &mut [u64], store: &mut [u8], nodes: &mut [u64], entries: &mut [u64])
    ensures { Zeroed blocks.old store.old nodes.old entries.old blocks.new store.new nodes.new entries.new }
{
    blocks.fill(0);
    store.fill(0);
    nodes.fill(0);
    entries.fill(0);
}

// The head of a loaded index, opened for its kind alone: zeros in its front, and its last row.
fn put_head(blocks: &mut [u64], end: u64, kind: u64, n: u64, used: u64)
    ensures { HeadPut blocks.old blocks.new end kind n used }
{
    rows::put_zeros(blocks, block::BASE);
    let kinds = kind_mask::mask_of(&[(kind % 256) as u8]);
    let row = [block::CLOSED, end, kinds, n, used, 0, 0, 0];
    rows::put_row(blocks, block::BASE, 0, row);
}

// Fills the tables from a file that was scanned and has room in them, and tests rules 21 to 24: the first that does not hold.
fn build(
    blocks: &mut [u64],
    store: &mut [u8],
    nodes: &mut [u64],
    entries: &mut [u64],
    file: &[u8],
    counts: Counts,
) -> Result<(), Refusal>
    ensures { Built file.now (code_of counts.kind) counts.blocks counts.bytes counts.blocks_at counts.nodes_at
        blocks.old store.old nodes.old entries.old blocks.new store.new nodes.new entries.new (answer_by (λ u. u) result) }
{
    let n = counts.blocks;
    let kind = u64::from(counts.kind);
    blocks::fill_blocks(blocks, store, file, kind, n, counts.blocks_at);
    let source = Source { blocks, file, kind };
    let end = source
        .fill_nodes(nodes, entries, counts.nodes_at)
        .ok_or(Refusal::FileTree)?;
    put_head(blocks, end, kind, n, counts.bytes);
    let tables = Closed {
        blocks,
        nodes,
        entries,
    };
    judge::judge(&Claim { tables, end, n })
}

// Loads the file at a position: the next position, and tables that stand for its index; or a refusal. The tables stand one by one: of a struct of `&mut`
// slices each contract would have to say that every one stays lent.
pub fn load(
    pieces: &mut [u64],
    blocks: &mut [u64],
    store: &mut [u8],
    nodes: &mut [u64],
    entries: &mut [u64],
    file: &[u8],
    at: usize,
) -> Result<usize, Refusal>
    ensures { LoadedBy file.now at (tables pieces.old blocks.old store.old nodes.old entries.old) (tables pieces.new blocks.new store.new nodes.new entries.new) (answer_by (λ n. n) result) }
{
    let counts = file_scan::scan(file, at)?;
    if !room::room(blocks, store, nodes, entries, counts) {
        return Err(Refusal::FileRoom);
    }
    let built = build(blocks, store, nodes, entries, file, counts);
    pieces.fill(0);
    match built {
        Ok(()) => Ok(counts.next),
        Err(refusal) => {
            zero_all(blocks, store, nodes, entries);
            Err(refusal)
        }
    }
}
