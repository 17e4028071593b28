// A file loaded again and again, damaged at each place of a run: cut there, or with the byte raised. A file that is taken must be written as the bytes read.
use crate::alike;
use crate::counts::Counts;
use crate::lent::Tables;
use crate::rows::{self, Call, Code};
use std::io::Stdout;

const AT: usize = 2;

const START: usize = 3;

const LENGTH: usize = 4;

// By how much the byte is raised; 0 where the file is cut.
const BY: usize = 5;

const FROM: usize = 6;

const MANY: usize = 7;

// What comes where the tables are not left as they must be, or the file is not written again: no number of an answer.
const WRONG: u64 = 99;

// Bytes of the longest file.
pub const FILE: usize = 16384;

// Whether writing the index gives the bytes of a file from a place up to the next.
fn is_written(t: &Tables<'_>, file: &[u8], at: usize, next: usize) -> bool {
    let mut out = [alike::UNTOUCHED; FILE];
    match spacetime_file::serialize_to(t.lent(), &mut out) {
        Ok(many) => {
            tally::skip(file, at, many) == next
                && alike::is_filled(&out, tables::part(file, at as u64, many))
        }
        Err(_) => false,
    }
}

// The number of a file's refusal, 0 where it is taken; none where the tables are not left as they must be, or the file is not written again.
fn load(t: &mut Tables<'_>, file: &[u8], at: usize) -> Option<u64> {
    let before = t.sum();
    match spacetime_file::deserialize(t.pieces, t.blocks, t.store, t.nodes, t.entries, file, at) {
        Ok(next) => is_written(t, file, at, next).then_some(0),
        Err(refusal) => {
            let n = u64::from(refusal);
            t.are_left(before, n).then_some(n)
        }
    }
}

fn raise(file: &mut [u8; FILE], place: usize, by: u8) {
    if place < FILE {
        file[place] = file[place].wrapping_add(by);
    }
}

// Damages the file at a place, loads it, up to there where it is cut, and makes it whole again.
fn load_damaged(
    t: &mut Tables<'_>,
    file: &mut [u8; FILE],
    call: Call<'_>,
    place: usize,
) -> Option<u64> {
    let by = (call.get(BY) % 256) as u8;
    let loaded = if by == 0 {
        place as u64
    } else {
        call.get(LENGTH)
    };
    raise(file, place, by);
    let number = load(t, tables::part(file, 0, loaded), call.get(AT) as usize);
    raise(file, place, by.wrapping_neg());
    number
}

// Loads the file damaged at each place of the run.
pub fn play(stdout: &Stdout, counts: &mut Counts, t: &mut Tables<'_>, call: Call<'_>) {
    let mut file = [0; FILE];
    let whole = call.part(START, LENGTH);
    tables::copy_in(&mut file, 0, whole);
    let from = call.get(FROM) as usize;
    for place in from..tally::skip(whole, from, call.get(MANY)) {
        let number = load_damaged(t, &mut file, call, place);
        let alike = number.unwrap_or(WRONG) == call.get(rows::REFUSAL);
        counts.count_answer(stdout, Code::Damaged, alike);
    }
}
