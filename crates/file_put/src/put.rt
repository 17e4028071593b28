// Bytes put into a lent slice one part after the other, as far as it goes. Each function answers the place behind what it has put.
// A slice and a place, and no struct of both: the nodes are put at a place that was measured, before the blocks in front of them.
ghost use Rattle.std.specs.Prelude.{◌≡◌, length};
ghost use Rattle.history.specs.File.{bytes_of};
ghost use Rattle.lists.specs.Puts.{behind, Put};
ghost use Rattle.file_put.specs.Parts.{row_bytes};

use fields::{WIDTH, write};

// The place behind so many bytes.
fn past(out: &[u8], at: usize, many: usize) -> usize
    ensures { result ≡ behind (length out.now) at many }
{
    if many <= out.len() && at <= out.len() - many {
        at + many
    } else {
        out.len().max(at)
    }
}

// A byte, the lowest of a value.
#[tactic(auto, using(crate::proofs::Putting::put_field))]
pub fn byte(out: &mut [u8], at: usize, value: u64) -> usize
    ensures { Put out.old at (bytes_of 1 value) out.new result }
{
    write::put_byte(out, at, value);
    past(out, at, 1)
}

// A number at the end of the slice, which may not have all of it.
#[tactic(auto, using(crate::proofs::Putting::put_field))]
fn last_number(out: &mut [u8], at: usize, value: u64) -> usize
    ensures { Put out.old at (bytes_of 8 value) out.new result }
{
    write::put_number(out, at, value);
    past(out, at, WIDTH)
}

// A number. One that goes in returns by itself, so that the next one is not made to wait for the place behind it.
#[tactic(auto, using(crate::proofs::Putting::put_field))]
pub fn number(out: &mut [u8], at: usize, value: u64) -> usize
    ensures { Put out.old at (bytes_of 8 value) out.new result }
{
    if out.len() < WIDTH || out.len() - WIDTH < at {
        return last_number(out, at, value);
    }
    write::put_number(out, at, value);
    at + WIDTH
}

// Bytes.
pub fn bytes(out: &mut [u8], at: usize, bytes: &[u8]) -> usize
    ensures { Put out.old at bytes.now out.new result }
{
    tables::copy_in(out, at, bytes);
    past(out, at, bytes.len())
}

// A byte and four numbers: what a block and a node begin with.
pub fn row(out: &mut [u8], at: usize, mark: u64, a: u64, b: u64, c: u64, d: u64) -> usize
    ensures { Put out.old at (row_bytes mark a b c d) out.new result }
{
    let a_at = byte(out, at, mark);
    let b_at = number(out, a_at, a);
    let c_at = number(out, b_at, b);
    let d_at = number(out, c_at, c);
    number(out, d_at, d)
}
