// Replays a stored list of calls with their answers through the public calls (docs/STORED.md). Prints the cases that differ, how many answers were compared
// and how many differ, and the same of the files among them.
//
//   input          the list as it is read
//   rows           the columns and codes of its rows, and what is told in them
//   play           row after row
//   update, installs, read, near, report   each call
//   damage         a file damaged at each place of a run
//   listed         numbers that a call is lent
//   lent           the tables that a call is lent, and whether it leaves them as it must
//   alike          slices compared
//   counts         what is counted, and what is lent

#![tactic(auto)]

use crate::counts::Counts;
use crate::lent::Tables;
use std::io::{self, Read, Stdout};
use tables::{ROW, block, entry, node, piece};

mod alike;
mod counts;
mod damage;
mod input;
mod installs;
mod lent;
mod listed;
mod near;
mod play;
mod read;
mod report;
mod rows;
mod update;

// More parts than a list has, and the bytes of one.
const PARTS: usize = 1000;

const PART: usize = 65536;

// Numbers in each table: the rows that tools/stored.py may lend, and part of one more.
const PIECES: usize = piece::HEAD + update::PIECES * ROW + 7;

const BLOCKS: usize = block::HEAD + 256 * ROW + 7;

const STORE: usize = 4103;

const NODES: usize = node::HEAD + 4096 * ROW + 7;

const ENTRIES: usize = entry::HEAD + 8195 * entry::WIDTH + 1;

// Reads part after part, and plays it.
fn replay<R: Read>(input: &mut R, stdout: &Stdout, counts: &mut Counts) -> io::Result<()> {
    let mut pieces = [0; PIECES];
    let mut blocks = [0; BLOCKS];
    let mut store = [0; STORE];
    let mut nodes = [0; NODES];
    let mut entries = [0; ENTRIES];
    let mut part = [0; PART];
    let mut tables = Tables {
        pieces: &mut pieces,
        blocks: &mut blocks,
        store: &mut store,
        nodes: &mut nodes,
        entries: &mut entries,
    };
    for _ in 0..PARTS {
        let got = read_full::read_full(input, &mut part)?;
        if got == 0 {
            break;
        }
        play::play(stdout, counts, &mut tables, &part);
    }
    Ok(())
}

fn main(rt: HostRuntime) -> io::Result<()> {
    let stdout = rt.stdout();
    let mut counts = Counts::new();
    replay(&mut rt.reader(), &stdout, &mut counts)?;
    counts.print(&stdout);
    Ok(())
}
