// How long a slice must be to hold so many rows, for callers that know neither heads nor widths.
//
//   specs/Lengths    the length of each table, as a 64-bit number
//   proofs/Holding   a slice of that length has the rows asked for

#![tactic(auto)]

ghost use Rattle.std.specs.Prelude.{◌≡◌, ◌+◌, ◌*◌, ◌^◌, ◌≤◌, MatchOption};
ghost use Rattle.lengths.specs.Lengths.{length_for, LengthsHold};

// Table 0 pieces, 1 blocks, 2 store, 3 nodes, 4 entries, 5 scratch; 0 for any other, and where the length is no 64-bit number, as C asks.
// C calls it, so that it has numbers alone; behind it the length is an Option.
#[tactic(auto, unfolding(crate::specs::Lengths::length_for, crate::specs::Lengths::whole))]
pub fn length_for(table: u64, rows: u64) -> u64
    ensures { result ≡ length_for table rows }
{
    let length = match table {
        0 => length(tables::piece::HEAD, tables::ROW, rows),
        1 => length(tables::block::HEAD, tables::ROW, rows),
        2 => Some(rows),
        3 => length(tables::node::HEAD, tables::ROW, rows),
        4 => length(tables::entry::HEAD, tables::entry::WIDTH, rows),
        5 => length(0, tables::ROW, rows),
        _ => None,
    };
    length.unwrap_or(0)
}

// A head and so many rows of `width` numbers; none where that is no 64-bit number.
fn length(head: usize, width: usize, rows: u64) -> Option<u64>
    ensures { MatchOption result (2 ^ 64 ≤ head + width * rows) (λ n. n ≡ head + width * rows) }
{
    rows.checked_mul(width as u64)?.checked_add(head as u64)
}

// A slice of the length that `length_for` gives has the rows asked for.
pub fn lengths_hold()
    ensures { LengthsHold }
{}
