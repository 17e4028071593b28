// All blocks of the file, one after the other.
ghost use Rattle.history.specs.File.{many, read_block};
ghost use Rattle.fields.specs.Fields.{Moves};
ghost use Rattle.file_scan.specs.Rows.{answer_of};
ghost use Rattle.file_scan.specs.Counts.{blocks_from};

use crate::rows;
use fields::Reader;
use refusals::Refusal;

// Passes `count` blocks, of a kind by its number, as any may be asked for: how many bytes they hold. Each takes bytes of the file, so a count that is too
// high is found where they end.
pub fn pass(reader: &mut Reader<'_>, kind: u64, count: u64) -> Result<u64, Refusal>
    ensures { Moves (λ file at. blocks_from 0 (many (read_block kind) count file at)) (answer_of (λ n. n) result) reader.old reader.new }
{
    let mut bytes: u64 = 0;
    for _ in 0..count {
        let row = rows::block(reader, kind)?;
        bytes += row.bytes.len() as u64;
    }
    Ok(bytes)
}
