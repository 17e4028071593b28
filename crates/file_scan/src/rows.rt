// One row of the file: a kind or presence byte, then four numbers, then a block's bytes or a node's entries, which are passed by.
ghost use Rattle.std.specs.Prelude.{◌<◌, ◌^◌, OnOk};
ghost use Rattle.history.specs.File.{read_block};
ghost use Rattle.fields.specs.Fields.{Moves, read_of};
ghost use Rattle.file_scan.specs.Rows.{four_of, read_four, answer_of, block_of, read_node};

use fields::Reader;
use refusals::Refusal;

// The presence bytes.
const ABSENT: u64 = 0;

const PRESENT: u64 = 1;

// Bytes in an entry.
const ENTRY: u64 = 8;

// A block of the kind that was asked for.
#[derive(Clone, Copy)]
pub struct BlockRow<'a> {
    pub first: u64,
    pub created: u64,
    pub destroyed: u64,
    pub bytes: &'a [u8],
}

// A node, with the place of its entries and how many there are, or an absent child.
#[derive(Clone, Copy)]
pub enum NodeRow {
    Present {
        min: u64,
        max: u64,
        middle: u64,
        count: u64,
        entries: usize,
    },
    Absent,
}

// Four numbers, one after the other.
#[tactic(auto, using(crate::proofs::RowReads::numbering))]
fn four(reader: &mut Reader<'_>) -> Option<(u64, u64, u64, u64)>
    ensures { Moves read_four (read_of four_of result) reader.old reader.new }
{
    Some((
        reader.number()?,
        reader.number()?,
        reader.number()?,
        reader.number()?,
    ))
}

// The block at a position, if it is of the kind: a number, as any may be asked for.
pub fn block<'a>(reader: &mut Reader<'a>, kind: u64) -> Result<BlockRow<'a>, Refusal>
    ensures read { Moves (read_block kind) (answer_of (block_of kind) result) reader.old reader.new }
    ensures within { OnOk result (reader.new.at < 2 ^ 64) }
{
    let own = reader.byte().ok_or(Refusal::FileEnds)?;
    if own != kind {
        return Err(Refusal::FileKind);
    }
    let (first, length, created, destroyed) = four(reader).ok_or(Refusal::FileEnds)?;
    let bytes = reader.bytes(length).ok_or(Refusal::FileEnds)?;
    Ok(BlockRow {
        first,
        created,
        destroyed,
        bytes,
    })
}

// The node at a position, or an absent child. A count of more entries than bytes are left is answered at once.
pub fn node(reader: &mut Reader<'_>) -> Result<NodeRow, Refusal>
    ensures read { Moves read_node (answer_of (λ row. row) result) reader.old reader.new }
    ensures within { OnOk result (reader.new.at < 2 ^ 64) }
{
    let presence = reader.byte().ok_or(Refusal::FileEnds)?;
    if PRESENT < presence {
        return Err(Refusal::FilePresence);
    }
    if presence == ABSENT {
        return Ok(NodeRow::Absent);
    }
    let (min, max, middle, count) = four(reader).ok_or(Refusal::FileEnds)?;
    let entries = reader.at;
    let size = count.saturating_mul(ENTRY);
    reader.bytes(size).ok_or(Refusal::FileEnds)?;
    Ok(NodeRow::Present {
        min,
        max,
        middle,
        count,
        entries,
    })
}
