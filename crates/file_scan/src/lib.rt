// The loader's first pass over a file: nothing is written. Fields are read one after the other, in loops, so that no file is too deep; every count is
// bounded by the bytes that were read for it. A turn reads one block, node or absent child and passes its bytes or entries by, so there are fewer
// turns than bytes. The second pass reads the same rows.
//
//   rows              a block or a node of the file, without what follows its numbers
//   blocks, nodes     all of them, counted
//   specs/Rows        what a row says, in the words of `history`
//   specs/Counts      what is counted of the file

#![tactic(auto)]

ghost use Rattle.std.specs.Prelude.{◌≡◌};
ghost use Rattle.history.specs.File.{read_file};
ghost use Rattle.refusals.specs.Numbers.{answer_by};
ghost use Rattle.file_scan.specs.Counts.{scanned, scan_of};

use fields::Reader;
use refusals::Refusal;
use tables::kind::Kind;

pub mod blocks;
pub mod nodes;
pub mod rows;

// What the tables must hold, and where blocks and nodes begin.
#[derive(Clone, Copy)]
pub struct Counts {
    pub kind: Kind,
    pub blocks: u64,
    pub bytes: u64,
    pub nodes: u64,
    pub entries: u64,
    pub blocks_at: usize,
    pub nodes_at: usize,
    pub next: usize,
}

// Reads a file from a position on, and counts what it has.
pub fn scan(file: &[u8], at: usize) -> Result<Counts, Refusal>
    ensures { answer_by scanned result ≡ scan_of at (read_file file.now at) }
{
    let mut reader = Reader { file, at };
    let code = reader.byte().ok_or(Refusal::FileEnds)?;
    let Ok(kind) = Kind::try_from(code) else {
        return Err(Refusal::FileKind);
    };
    let count = reader.number().ok_or(Refusal::FileEnds)?;
    let blocks_at = reader.at;
    let bytes = blocks::pass(&mut reader, code, count)?;
    let nodes_at = reader.at;
    let nodes = nodes::pass(&mut reader)?;
    Ok(Counts {
        kind,
        blocks: count,
        bytes,
        nodes: nodes.nodes,
        entries: nodes.entries,
        blocks_at,
        nodes_at,
        next: reader.at,
    })
}
