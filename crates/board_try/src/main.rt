// Plays the boards of its data through `board_run` and compares what is printed of each with what must be. The data is made by tools/printed.py: a
// count, then for each board the input's length, the input, the output's length and the output. Prints the number of each board that differs, from 0 on,
// and then how many were compared and how many differ.

#![tactic(auto)]

ghost use Rattle.std.specs.Prelude.{◌≡◌, ◌<◌, ◌^◌, length};

use std::io::{self, Print, Stdout};
use tally::Tally;

// As much data is read.
const DATA: usize = 1000000;
// No more boards are played.
const BOARDS: usize = 1000;
// Bytes of a count or a length.
const NUMBER: usize = 4;

// The number at a position of the data, little-endian; 0 where there is none.
fn number_at(data: &[u8], at: usize) -> usize
    ensures { result < 2 ^ 32 }
{
    let Some(bytes) = data.get(at..at.saturating_add(NUMBER)) else {
        return 0;
    };
    let Ok(number) = <[u8; NUMBER]>::try_from(bytes) else {
        return 0;
    };
    u32::from_le_bytes(number) as usize
}

// The text whose length stands at a position; the empty one where the data is cut.
fn text_at<'a>(data: &'a [u8], at: usize) -> &'a [u8] {
    let start = tally::skip(data, at, NUMBER as u64);
    tables::part(data, start as u64, number_at(data, at) as u64)
}

// The position behind that text, or the end of the data.
fn behind(data: &[u8], at: usize) -> usize {
    tally::skip(data, at, (NUMBER + number_at(data, at)) as u64)
}

// Whether the board of an input is printed as it must be.
fn prints(input: &[u8], wanted: &[u8], out: &mut [u8]) -> bool {
    let printed = board_run::run(input, out);
    &out[..printed] == wanted
}

// Prints the number of a board that differs.
fn say(stdout: &Stdout, board: u64) {
    let mut line = [0; tally::LINE];
    let _is_written = stdout.write_all(b"differs: ").is_ok();
    tally::print_count(stdout, &mut line, board, b"\n");
}

// Plays the board at a position.
fn play_one(stdout: &Stdout, tally: &mut Tally, data: &[u8], at: usize, out: &mut [u8]) {
    let input = text_at(data, at);
    let wanted = text_at(data, behind(data, at));
    let alike = prints(input, wanted, out);
    if !alike {
        say(stdout, tally.compared);
    }
    tally.compare(alike);
}

fn play_all(stdout: &Stdout, tally: &mut Tally, data: &[u8], out: &mut [u8]) {
    let mut at = NUMBER;
    for _ in 0..number_at(data, 0).min(BOARDS) {
        play_one(stdout, tally, data, at, out);
        at = behind(data, behind(data, at));
    }
}

fn buffer() -> [u8; DATA]
    ensures { 1000000 ≡ length result }
{
    [0; DATA]
}

fn main(rt: HostRuntime) -> io::Result<()> {
    let stdout = rt.stdout();
    let mut tally = Tally::default();
    let mut line = [0; tally::LINE];
    let mut data = buffer();
    let mut out = board_run::buffer();
    let given = read_full::read_full(&mut rt.reader(), &mut data)?;
    play_all(&stdout, &mut tally, &data[..given], &mut out);
    tally::print_count(&stdout, &mut line, tally.compared, b" boards compared, ");
    tally::print_count(&stdout, &mut line, tally.differ, b" differ\n");
    Ok(())
}
