// Plays a part of the stored list, row after row, in lent tables.
use crate::counts::Counts;
use crate::input::Reader;
use crate::lent::Tables;
use crate::rows::{self, Call, Code, Row};
use crate::{damage, installs, near, read, report, update};
use std::io::Stdout;
use touching::Side;

// As many rows as a part can have.
const ROWS: usize = 65536;

fn tell_read(t: &Tables<'_>, code: Code, call: Call<'_>, told: &mut Row) {
    match code {
        Code::Block => read::block(t, call, told),
        Code::Find => read::find(t, call, told),
        Code::Cells => read::cells(t, call, told),
        Code::Write => read::write(t, call, told),
        Code::Clock => read::clock(t, call, told),
        Code::Touching => near::touching(t, call, told),
        Code::Next => near::near(t, Side::From, call, told),
        Code::Last => near::near(t, Side::Before, call, told),
        Code::Occupation => report::occupation(t, call, told),
        _ => told.must(false),
    }
}

// Reads, and counts what came.
fn play_read(stdout: &Stdout, counts: &mut Counts, t: &Tables<'_>, code: Code, call: Call<'_>) {
    let mut told = call.row.taken();
    tell_read(t, code, call, &mut told);
    counts.count_answer(stdout, code, told == *call.row);
}

fn tell_update(t: &mut Tables<'_>, scratch: u64, code: Code, call: Call<'_>, told: &mut Row) {
    match code {
        Code::Open => update::open(t, call, told),
        Code::Record => update::record(t, scratch, call, told),
        Code::Finish => update::finish(t, told),
        Code::Load => update::load(t, call, told),
        Code::Calendar | Code::Days => installs::play(t, code, call, told),
        _ => told.must(false),
    }
}

// Updates, and counts what came. After a refused call the tables must be left as they were, or as zeros.
fn play_update(
    stdout: &Stdout,
    counts: &mut Counts,
    t: &mut Tables<'_>,
    code: Code,
    call: Call<'_>,
) {
    let mut told = call.row.taken();
    let before = t.sum();
    tell_update(t, counts.lent.get(rows::SCRATCH), code, call, &mut told);
    let left = t.are_left(before, told.get(rows::REFUSAL));
    told.must(left);
    counts.count_answer(stdout, code, told == *call.row);
}

// A row that is no case: a call, a damaged file, or another scratch, which is no call.
fn play_lent(stdout: &Stdout, counts: &mut Counts, t: &mut Tables<'_>, code: Code, call: Call<'_>) {
    match code {
        Code::Lend => {}
        Code::Damaged => damage::play(stdout, counts, t, call),
        Code::Open | Code::Record | Code::Finish | Code::Load | Code::Calendar | Code::Days => {
            play_update(stdout, counts, t, code, call);
        }
        _ => play_read(stdout, counts, t, code, call),
    }
}

// The row with the parts of the tables that are lent. The check has no rule yet for parts of several fields behind a reference, so the fields are parameters.
fn lend(
    stdout: &Stdout,
    counts: &mut Counts,
    pieces: &mut [u64],
    blocks: &mut [u64],
    store: &mut [u8],
    nodes: &mut [u64],
    entries: &mut [u64],
    code: Code,
    call: Call<'_>,
) {
    let of_pieces = rows::at_most(counts.lent.get(rows::PIECES), pieces.len());
    let of_blocks = rows::at_most(counts.lent.get(rows::BLOCKS), blocks.len());
    let of_store = rows::at_most(counts.lent.get(rows::STORE), store.len());
    let of_nodes = rows::at_most(counts.lent.get(rows::NODES), nodes.len());
    let of_entries = rows::at_most(counts.lent.get(rows::ENTRIES), entries.len());
    let mut lent = Tables {
        pieces: &mut pieces[..of_pieces],
        blocks: &mut blocks[..of_blocks],
        store: &mut store[..of_store],
        nodes: &mut nodes[..of_nodes],
        entries: &mut entries[..of_entries],
    };
    play_lent(stdout, counts, &mut lent, code, call);
}

// Plays a row: the start of a case, with garbage in the tables, or a call.
fn play_row(stdout: &Stdout, counts: &mut Counts, t: &mut Tables<'_>, code: Code, call: Call<'_>) {
    if matches!(code, Code::Case | Code::Own) {
        t.spoil();
        counts.count_case(code == Code::Own);
    } else {
        counts.count_row(call.row, code);
        lend(
            stdout, counts, t.pieces, t.blocks, t.store, t.nodes, t.entries, code, call,
        );
    }
}

// Plays a part: how many bytes its pool has, the pool, the rows. A number that is no code stands for a calendar.
pub fn play(stdout: &Stdout, counts: &mut Counts, t: &mut Tables<'_>, part: &[u8]) {
    let mut list = Reader::new(part);
    let many = list.number();
    let pool = list.part(many);
    for _ in 0..ROWS {
        let row = list.row();
        match row.code().unwrap_or(Code::Calendar) {
            Code::End => return,
            code => play_row(stdout, counts, t, code, Call { row: &row, pool }),
        }
    }
}
