// Reads a board's input and prints the blocks of its history: document 01, "Added: cells and clock".

#![tactic(auto)]

ghost use Rattle.std.specs.Prelude.{◌≡◌, length};

use std::io::{self, Print};

// As much of the input is read as `board_run` plays.
fn buffer() -> [u8; board_run::INPUT]
    ensures { 65536 ≡ length result }
{
    [0; board_run::INPUT]
}

fn main(rt: HostRuntime) -> io::Result<()> {
    let mut input = buffer();
    let mut out = board_run::buffer();
    let given = read_full::read_full(&mut rt.reader(), &mut input)?;
    let printed = board_run::run(&input[..given], &mut out);
    rt.stdout().write_all(&out[..printed])
}
