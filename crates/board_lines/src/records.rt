// The records of the input, one after the other.
ghost use Rattle.index_record.specs.Calls.{lent_operation};
ghost use Rattle.board_lines.specs.Lines.{RecordedOne, RecordedAll};

use board_text::Output;
use index_record::Operation;

// Records an operation; a refused one is record k, and its line is put. Nothing is written to a scratch, so none is made.
fn record_one(
    pieces: &mut [u64],
    blocks: &mut [u64],
    store: &mut [u8],
    op: Operation,
    k: u64,
    out: &mut Output<'_>,
)
    ensures { RecordedOne pieces.old blocks.old store.old pieces.new blocks.new store.new
        (lent_operation op.entry) k out.old out.new }
{
    match index_record::record_open(pieces, blocks, store, op) {
        Ok(_) => {}
        Err(refusal) => out.op_refused(k, u64::from(refusal)),
    }
}

// Records the operations of the input, all of one kind and none bad, and puts a line for each refused one.
// Records have their own lengths: each says where the next one stands.
pub fn record_all(
    input: &[u8],
    pieces: &mut [u64],
    blocks: &mut [u64],
    store: &mut [u8],
    kind: u64,
    out: &mut Output<'_>,
)
    ensures { RecordedAll input.now pieces.old blocks.old store.old pieces.new blocks.new store.new kind
        out.old out.new }
{
    let mut position = board_input::RECORDS;
    let mut k = 1;
    while let Some(Ok(record)) = board_input::record_at(input, position) {
        let op = Operation {
            kind,
            tick: record.tick,
            first: record.first,
            bytes: &input[record.start..record.next],
        };
        record_one(pieces, blocks, store, op, k, out);
        position = record.next;
        k += 1;
    }
}
