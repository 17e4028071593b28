// The input of a program, read into a buffer that it has.
//
//   specs/Filled   which bytes of the input stand in the buffer

#![tactic(auto)]

ghost use Rattle.std.specs.Prelude.{IfOk, OnErr};
ghost use Rattle.std.specs.Io.{ReadsAtMost};
ghost use Rattle.read_full.specs.Filled.{TakenInto, FullOrEnded, SomeTaken};

#[cfg(test)]
mod tests;

use std::io::{self, Read};

// Reads until the buffer is full or the input ends, and answers how many bytes stand at the buffer's start.
// How many bytes a turn reads is for the input to say, so no `for` counts the turns.
pub fn read_full<R: Read>(input: &mut R, buffer: &mut [u8]) -> io::Result<usize>
    ensures bound { ReadsAtMost result buffer.new }
    // They are the bytes that the input had next,
    ensures bytes { IfOk result (TakenInto (R.remaining input.old) (R.remaining input.new) buffer.new) }
    // and fewer than the buffer holds only where it has no more.
    ensures whole { IfOk result (FullOrEnded (R.remaining input.new) buffer.new) }
    // Where a read failed, what those before it took stands there.
    ensures failed { OnErr result (SomeTaken (R.remaining input.old) (R.remaining input.new) buffer.new) }
{
    let mut done = 0;
    while done < buffer.len() {
        let got = input.read(&mut buffer[done..])?;
        if got == 0 {
            break;
        }
        done += got;
    }
    Ok(done)
}
