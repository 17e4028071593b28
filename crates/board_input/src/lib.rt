// The input of the program `board`: end tick, kind, then records. The caller lends the first 65,536 bytes of what it was given, or all where there
// are fewer.
//
//   specs/Input   what the functions answer, by what history reads
//   specs/Walk    the bookings that one meets from record to record
//
//   proofs/Numbers, Records, Checking   the returns and loops; Walking, Meeting: from record to record

#![tactic(auto)]

ghost use Rattle.std.specs.Prelude.{◌≡◌, ◌+◌, ◌≤◌, length};
ghost use Rattle.board_input.specs.Walk.{LawOfInput};
ghost use Rattle.board_input.specs.Input.{NumberAt, start_of, item_at, check_of, records_of};

// Widths of the fields, in bytes.
const NUMBER: usize = 8;

const KIND: usize = 1;

const MARK: usize = 2;

const LENGTH: usize = 2;
// Hexadecimal B7 4F, as a number.
const MARKED: u64 = 0x4fb7;
// A record's bytes stand behind its mark, tick, first cell and length.
const FRONT: usize = MARK + NUMBER + NUMBER + LENGTH;
// The first record's place.
pub const RECORDS: usize = NUMBER + KIND;

// What the index is opened with.
#[derive(Clone, Copy, Debug, PartialEq, Eq)]
pub struct Start {
    pub end: u64,
    pub kind: u8,
}

// A record, whose bytes stand from `start` up to `next`, where the next record does.
#[derive(Clone, Copy, Debug, PartialEq, Eq)]
pub struct Record {
    pub tick: u64,
    pub first: u64,
    pub start: usize,
    pub next: usize,
}

// A wrong mark, or a record that the input's end cuts.
#[derive(Clone, Copy, Debug, PartialEq, Eq)]
pub struct BadRecord;

// The number of the `width` bytes from `at` on, little-endian, so the last byte is read first.
#[tactic(auto, using(crate::proofs::Numbers::reading))]
fn number_at(input: &[u8], at: usize, width: usize) -> u64
    requires inside { at + width ≤ length input.now }
    requires few { width ≤ 8 }
    ensures { NumberAt input.now at width result }
{
    let mut value = 0;
    for i in (0..width).rev() {
        value = value * 256 + u64::from(input[at + i]);
    }
    value
}

// The end tick and the kind; none where the input is too short.
#[tactic(auto, using(crate::proofs::Records::start_short))]
pub fn opening(input: &[u8]) -> Option<Start>
    ensures { result ≡ start_of input.now }
{
    if input.len() < RECORDS {
        return None;
    }
    let end = number_at(input, 0, NUMBER);
    let kind = input[NUMBER];
    Some(Start { end, kind })
}

// What stands at `at`: nothing at the input's end, else a record or a bad one.
#[tactic(auto, using(crate::proofs::Records::refusing))]
pub fn record_at(input: &[u8], at: usize) -> Option<Result<Record, BadRecord>>
    ensures { result ≡ item_at input.now at }
{
    if input.len() <= at {
        return None;
    }
    if input.len() - at < FRONT || number_at(input, at, MARK) != MARKED {
        return Some(Err(BadRecord));
    }
    let start = at + FRONT;
    let length = number_at(input, start - LENGTH, LENGTH) as usize;
    if input.len() - start < length {
        return Some(Err(BadRecord));
    }
    Some(Ok(Record {
        tick: number_at(input, at + MARK, NUMBER),
        first: number_at(input, at + MARK + NUMBER, NUMBER),
        start,
        next: start + length,
    }))
}

// Looks for the first wrong mark or cut record, whose number is the error. Records count from 1; input too short to open with is record 0.
// Records have their own lengths: each says where the next one stands.
#[tactic(auto, using(crate::proofs::Checking::checking))]
pub fn check_records(input: &[u8]) -> Result<(), u64>
    ensures { result ≡ check_of (records_of input.now) }
{
    if input.len() < RECORDS {
        return Err(0);
    }
    let mut at = RECORDS;
    let mut k = 1;
    while let Some(item) = record_at(input, at) {
        let Ok(record) = item else { return Err(k) };
        at = record.next;
        k += 1;
    }
    Ok(())
}

// What the answers above say of the input, as part of the build.
#[tactic(auto, using(crate::proofs::Meeting::law_of_input))]
pub fn law_of_input()
    ensures { LawOfInput }
{}
