// Fields written to a lent slice. Past its end nothing changes.
ghost use Rattle.std.specs.Prelude.{◌≡◌};
ghost use Rattle.std.proofs.lemmas.List.Edits.{sets};
ghost use Rattle.history.specs.File.{bytes_of};

use crate::WIDTH;

// Writes a byte, the lowest of a value.
#[tactic(auto, using(crate::proofs::Writing::writing))]
pub fn put_byte(out: &mut [u8], at: usize, value: u64)
    ensures { out.new ≡ sets out.old at (bytes_of 1 value) }
{
    if at < out.len() {
        out[at] = value.to_le_bytes()[0];
    }
}

// Writes a number: with one test, where all of it goes in; else each byte that goes in, as a copy of so many bytes would be a call of the C library.
#[tactic(auto, using(crate::proofs::Writing::writing))]
pub fn put_number(out: &mut [u8], at: usize, value: u64)
    ensures { out.new ≡ sets out.old at (bytes_of 8 value) }
{
    let bytes = value.to_le_bytes();
    if WIDTH <= out.len() && at <= out.len() - WIDTH {
        out[at..at + WIDTH].copy_from_slice(&bytes);
    } else if at < out.len() {
        for i in 0..WIDTH {
            if at + i < out.len() {
                out[at + i] = bytes[i];
            }
        }
    }
}
