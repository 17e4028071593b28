// The program `board`, but for reading and writing: the input is played on tables of the lengths that document 01 lends, and all that is to be printed
// is put into a lent buffer.
//
//   specs/Room      what `run` ensures, and how much is printed at most
//   specs/Runs      what each part puts; the lines of records and blocks stand in `board_lines`
//   proofs/Running  one step for each return
//   proofs/Sizes, Room   every byte recorded is printed once, so there is room for all that is printed

#![tactic(auto)]

ghost use Rattle.std.specs.Prelude.{◌≡◌, [], ◌∷◌, length};
ghost use Rattle.layout.specs.Tables.{tables};
ghost use Rattle.layout.specs.Relations.{OpenedBy};
ghost use Rattle.refusals.specs.Numbers.{answer_by};
ghost use Rattle.board_run.specs.Runs.{OpenPut, PlayPut, LendPut, printed_of};
ghost use Rattle.board_run.specs.Room.{output_most, PrintsBoard};
ghost use Rattle.board_text.specs.Wrote.{Wrote};

use board_input::Start;
use board_lines::{blocks, records};
use board_text::Output;
use index::Index;
use refusals::Refusal;
use tables::{block, entry, node, piece};

// What is lent: 512 pieces, 1,024 blocks, 65,536 store bytes, 1,024 nodes, 4,096 entries, each table behind its head.
const PIECES: usize = piece::HEAD + tables::ROW * 512;

const BLOCKS: usize = block::HEAD + tables::ROW * 1024;

const STORE: usize = 65536;

const NODES: usize = node::HEAD + tables::ROW * 1024;

const ENTRIES: usize = entry::HEAD + entry::WIDTH * 4096;
// How many bytes of the input are read.
pub const INPUT: usize = 65536;
// No output is longer: the header; a line for each of at most 3,276 records; a line for each block, and two digits for each byte of the store.
pub const OUTPUT: usize = 27 + 53 * 3276 + 90 * 1024 + 2 * 65536;

// A buffer that has room for all that is printed. The `ensures` gives only the length, which lending it needs.
pub fn buffer() -> [u8; OUTPUT]
    ensures { output_most ≡ length result }
{
    [0; OUTPUT]
}

// Plays the records, none of which is bad, on an open index: the header, the lines of refused records, then the last lines.
fn play_open(
    input: &[u8],
    pieces: &mut [u64],
    blocks: &mut [u64],
    store: &mut [u8],
    nodes: &mut [u64],
    entries: &mut [u64],
    kind: u64,
    out: &mut Output<'_>,
)
    ensures { OpenPut (tables pieces.old blocks.old store.old nodes.old entries.old)
        input.now kind out.old out.new }
{
    out.header();
    records::record_all(input, pieces, blocks, store, kind, out);
    blocks::finish(pieces, blocks, store, nodes, entries, out);
}

// Opens an index of one kind: a single kind byte is the set of that kind.
fn open_one(
    pieces: &mut [u64],
    blocks: &mut [u64],
    store: &[u8],
    nodes: &mut [u64],
    entries: &mut [u64],
    start: Start,
) -> Result<(), Refusal>
    ensures { OpenedBy start.end (start.kind ∷ [])
        (tables pieces.old blocks.old store.now nodes.old entries.old)
        (tables pieces.new blocks.new store.now nodes.new entries.new) (answer_by (λ u. u) result) }
{
    let kinds = [start.kind];
    Index::open(pieces, blocks, store, nodes, entries, start.end, &kinds)
}

// Opens the index for the one kind, which is that of all records, and plays them.
fn play(
    input: &[u8],
    pieces: &mut [u64],
    blocks: &mut [u64],
    store: &mut [u8],
    nodes: &mut [u64],
    entries: &mut [u64],
    start: Start,
    out: &mut Output<'_>,
)
    ensures { PlayPut (tables pieces.old blocks.old store.old nodes.old entries.old)
        input.now start out.old out.new }
{
    let kind = u64::from(start.kind);
    match open_one(pieces, blocks, store, nodes, entries, start) {
        Ok(()) => play_open(input, pieces, blocks, store, nodes, entries, kind, out),
        Err(refusal) => out.open_refused(u64::from(refusal)),
    }
}

// Opens and plays on tables of its own.
fn lend(input: &[u8], start: Start, out: &mut Output<'_>)
    ensures { LendPut input.now start out.old out.new }
{
    let mut pieces = [0u64; PIECES];
    let mut blocks = [0u64; BLOCKS];
    let mut store = [0u8; STORE];
    let mut nodes = [0u64; NODES];
    let mut entries = [0u64; ENTRIES];
    play(
        input,
        &mut pieces,
        &mut blocks,
        &mut store,
        &mut nodes,
        &mut entries,
        start,
        out,
    );
}

// All that `board` prints of the first 65,536 bytes of an input, or of all where there are fewer.
fn run_first(input: &[u8], out: &mut Output<'_>)
    ensures { Wrote out.old (printed_of input.now) out.new }
{
    let Some(start) = board_input::opening(input) else {
        out.bad_record(0);
        return;
    };
    match board_input::check_records(input) {
        Ok(()) => lend(input, start, out),
        Err(k) => out.bad_record(k),
    }
}

// All that `board` prints of an input, from the buffer's start on, as far as the buffer goes; answers the position behind it.
pub fn run(input: &[u8], out: &mut [u8]) -> usize
    ensures { PrintsBoard input.now out.old out.new result }
{
    let mut output = Output { buffer: out, at: 0 };
    run_first(&input[..input.len().min(INPUT)], &mut output);
    output.at
}
