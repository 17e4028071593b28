// Lends tables of any contents and many lengths to the public calls of `index` and to the reports: each
// refuses them with 2 and leaves them as they were. Opening takes them all, and what is opened is refused 2
// where a table cannot hold its head, 9 where it has no row, and takes a call else. Prints one line: how
// many answers were compared, how many of them differ, and how many calls were refused.

#![tactic(auto)]

ghost use Rattle.std.specs.Prelude.{◌≤◌};

use index::{Index, Operation};
use tables::{ROW, block};
use tally::Tally;

const KIND: u8 = 1;

// Tables have up to so many numbers.
const LENGTHS: usize = 40;
// The block table is shorter than a row, and again as long behind what stands in front of the last row of its head.
const FRONT: usize = block::HEAD - ROW;

const BLOCKS: usize = FRONT + LENGTHS;

// The refusal of tables that are no index.
const NO_INDEX: Option<u64> = Some(2);

// ── tables ──

// What stands in the tables.
#[derive(Clone, Copy)]
enum Garbage {
    Zeros,
    Largest,
    Ones,
    Small,
    High,
    Spread,
}

impl Garbage {
    // What stands at a place.
    fn at(self, place: usize) -> u64 {
        match self {
            Garbage::Zeros => 0,
            Garbage::Largest => u64::MAX,
            Garbage::Ones => 1,
            Garbage::Small => place as u64 % 7,
            Garbage::High => 1 << 63,
            Garbage::Spread => place as u64 % 1000 * 2654435761 % 65537,
        }
    }

    fn fill(self, table: &mut [u64]) {
        for (place, number) in table.iter_mut().enumerate() {
            *number = self.at(place);
        }
    }

    fn stays(self, table: &[u64]) -> bool {
        table
            .iter()
            .enumerate()
            .all(|(place, &number)| number == self.at(place))
    }
}

// The five tables that each call is lent.
#[derive(Drop)]
struct Tables<'a> {
    pieces: &'a mut [u64],
    blocks: &'a mut [u64],
    store: &'a mut [u8],
    nodes: &'a mut [u64],
    entries: &'a mut [u64],
}

impl Tables<'_> {
    // For a call that reads them.
    fn lent(&self) -> layout::Tables<'_> {
        layout::Tables {
            pieces: self.pieces,
            blocks: self.blocks,
            store: self.store,
            nodes: self.nodes,
            entries: self.entries,
        }
    }
}

// ── calls ──

fn try_record(tally: &mut Tally, t: &mut Tables<'_>, wanted: Option<u64>) {
    let scratch = [0; 72];
    let nodes = &mut *t.nodes;
    let entries = &mut *t.entries;
    let op = Operation {
        kind: u64::from(KIND),
        tick: 0,
        first: 5,
        bytes: b"1",
    };
    let answer = index::record_op(t.pieces, t.blocks, t.store, nodes, entries, &scratch, op);
    let told = match answer {
        Ok(_) => None,
        Err(refusal) => Some(u64::from(refusal)),
    };
    tally.compare_answer(told, wanted);
}

fn try_finish(tally: &mut Tally, t: &mut Tables<'_>) {
    let store = &mut *t.store;
    let told = match index::finalize(t.pieces, t.blocks, store, t.nodes, t.entries) {
        Ok(()) => None,
        Err(refusal) => Some(u64::from(refusal)),
    };
    tally.compare_answer(told, NO_INDEX);
}

// A refused block has no bytes.
fn try_block(tally: &mut Tally, t: &Tables<'_>) {
    let bytes = index::block_bytes(t.pieces, t.blocks, t.store, t.nodes, t.entries, 0);
    tally.compare(bytes.is_empty());
    let told = match index::block(t.lent(), 0) {
        Ok(_) => None,
        Err(refusal) => Some(u64::from(refusal)),
    };
    tally.compare_answer(told, NO_INDEX);
}

fn try_find(tally: &mut Tally, t: &Tables<'_>) {
    let mut answer = [0; 9];
    let asked = index::find(t.lent(), KIND, 0, 0, 9, &mut answer);
    let told = match asked {
        Ok(_) => None,
        Err(refusal) => Some(u64::from(refusal)),
    };
    tally.compare_answer(told, NO_INDEX);
}

fn try_occupation(tally: &mut Tally, t: &Tables<'_>) {
    let windows = [0, 9];
    let told = match reports::occupation(t.lent(), KIND, 0, &windows) {
        Ok(_) => None,
        Err(refusal) => Some(u64::from(refusal)),
    };
    tally.compare_answer(told, NO_INDEX);
}

// ── what is tried ──

fn all_stay(t: &Tables<'_>, garbage: Garbage) -> bool {
    garbage.stays(t.pieces)
        && garbage.stays(t.blocks)
        && garbage.stays(t.nodes)
        && garbage.stays(t.entries)
}

// Garbage is refused by each call, and nothing has changed.
fn try_refused(tally: &mut Tally, t: &mut Tables<'_>, garbage: Garbage) {
    try_record(tally, t, NO_INDEX);
    try_finish(tally, t);
    try_block(tally, t);
    try_find(tally, t);
    try_occupation(tally, t);
    tally.compare(all_stay(t, garbage));
}

// What comes of a record in an opened block table of a length.
fn comes(length: usize) -> Option<u64> {
    if length < block::HEAD {
        NO_INDEX
    } else if length < block::HEAD + ROW {
        Some(9)
    } else {
        None
    }
}

// Garbage is opened.
fn try_opened(tally: &mut Tally, t: &mut Tables<'_>) {
    let wanted = comes(t.blocks.len());
    let kinds = [KIND];
    let store = &mut *t.store;
    let told = match Index::open(t.pieces, t.blocks, store, t.nodes, t.entries, 8, &kinds) {
        Ok(()) => None,
        Err(refusal) => Some(u64::from(refusal)),
    };
    tally.compare_answer(told, None);
    try_record(tally, t, wanted);
}

fn try_length(tally: &mut Tally, length: usize, of_blocks: usize, garbage: Garbage)
    requires within { length ≤ LENGTHS }
    requires blocks_within { of_blocks ≤ BLOCKS }
{
    let mut pieces = [0; LENGTHS];
    let mut blocks = [0; BLOCKS];
    let mut store = [0; LENGTHS];
    let mut nodes = [0; LENGTHS];
    let mut entries = [0; LENGTHS];
    garbage.fill(&mut pieces);
    garbage.fill(&mut blocks);
    garbage.fill(&mut nodes);
    garbage.fill(&mut entries);
    let mut t = Tables {
        pieces: &mut pieces[..length],
        blocks: &mut blocks[..of_blocks],
        store: &mut store[..length],
        nodes: &mut nodes[..length],
        entries: &mut entries[..length],
    };
    try_refused(tally, &mut t, garbage);
    try_opened(tally, &mut t);
}

fn try_garbage(tally: &mut Tally, garbage: Garbage) {
    for length in 0..LENGTHS + 1 {
        try_length(tally, length, length % ROW, garbage);
        try_length(tally, length, FRONT + length, garbage);
    }
}

fn main(rt: HostRuntime) {
    let mut tally = Tally::default();
    let mut line = [0; tally::LINE];
    try_garbage(&mut tally, Garbage::Zeros);
    try_garbage(&mut tally, Garbage::Largest);
    try_garbage(&mut tally, Garbage::Ones);
    try_garbage(&mut tally, Garbage::Small);
    try_garbage(&mut tally, Garbage::High);
    try_garbage(&mut tally, Garbage::Spread);
    tally.print(&rt.stdout(), &mut line, b" calls refused");
}
