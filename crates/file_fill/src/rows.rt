// A row of eight numbers, and zeros from a table's start on.
ghost use Rattle.std.specs.Prelude.{◌≡◌, ◌+◌, ◌*◌, ◌≤◌};
ghost use Rattle.std.proofs.lemmas.List.Edits.{sets};
ghost use Rattle.history.specs.Lent.{row_width};
ghost use Rattle.file_fill.specs.Fill.{ZerosFirst};

use tables::ROW;

// The row of `link`, in a table whose row of link 0 stands at `base`: with one test, where all of it goes in; else so much of it as the table holds.
pub fn put_row(table: &mut [u64], base: usize, link: u64, row: [u64; ROW])
    requires { base ≤ 4096 }
    ensures { table.new ≡ sets table.old (row_width * link + base) row }
{
    if link < (table.len() / ROW) as u64 {
        let at = ROW * link as usize + base;
        if at <= table.len() - ROW {
            table[at..at + ROW].copy_from_slice(&row);
            return;
        }
    }
    for (col, &value) in row.iter().enumerate() {
        tables::put(table, link, base + col, value);
    }
}

// The first `n` numbers of the table become 0, as far as it goes.
pub fn put_zeros(table: &mut [u64], n: usize)
    ensures { ZerosFirst table.old table.new n }
{
    let n = n.min(table.len());
    table[..n].fill(0);
}
