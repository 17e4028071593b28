// Many record calls of one kind with one test of the tables: the operations of a lent list one after the other, three numbers for each answer. It is proved equal to
// that many calls of `record_op` on any tables: the first finds them as they are lent, each other one as the one before left them.
//
//   specs/Many       what `record_all` does
//   specs/Law        it stands in every list of calls (proofs/Written)
//   proofs/Playing   one step for each return, and for each turn of the loop

#![tactic(auto)]

ghost use Rattle.std.specs.Prelude.{◌+◌, ◌*◌, ◌≤◌, length};
ghost use Rattle.layout.specs.Tables.{tables};
ghost use Rattle.index_record.specs.Calls.{lent_operation};
ghost use Rattle.record_all.specs.Many.{AnswerPut, RecordedOne, RecordedAll};
ghost use Rattle.record_all.specs.Law.{WrittenOut};

use call_lists::Item;
use index::Operation;
use index_test::State;
use layout::Tables;
use refusals::Refusal;

// How many operations were played, and the position behind them.
#[derive(Clone, Copy)]
pub struct Played {
    pub count: usize,
    pub next: usize,
}

// Puts an answer at its place: the refusal or 0, 1 of an update, its lowest changed cell.
fn put_answer(answers: &mut [u64], at: usize, recorded: Result<Option<u64>, Refusal>)
    requires { at + 3 ≤ length answers.old }
    ensures { AnswerPut recorded answers.old at answers.new }
{
    match recorded {
        Ok(None) => call_lists::put_three(answers, at, 0, 0, 0),
        Ok(Some(cell)) => call_lists::put_three(answers, at, 0, 1, cell),
        Err(refusal) => call_lists::put_three(answers, at, u64::from(refusal), 0, 0),
    }
}

// Records an operation, and puts its answer behind `count` others.
fn record_one(
    state: State,
    pieces: &mut [u64],
    blocks: &mut [u64],
    store: &mut [u8],
    scratch: &[u64],
    op: Operation,
    answers: &mut [u64],
    count: usize,
)
    requires { 3 * count + 3 ≤ length answers.old }
    ensures { RecordedOne state pieces.old blocks.old store.old pieces.new blocks.new store.new
        (length scratch.now) (lent_operation op.entry) answers.old (3 * count) answers.new }
{
    let recorded = index_tested::record_tested(state, pieces, blocks, store, scratch, op);
    put_answer(answers, 3 * count, recorded);
}

// Records the operations of the list as long as there are whole ones and places for their answers. The tables stand one by one, as in `index`.
pub fn record_all(
    pieces: &mut [u64],
    blocks: &mut [u64],
    store: &mut [u8],
    nodes: &[u64],
    entries: &[u64],
    scratch: &[u64],
    kind: u8,
    list: &[u8],
    answers: &mut [u64],
) -> Played
    ensures { RecordedAll (length scratch.now) kind list.now
        (tables pieces.old blocks.old store.old nodes.now entries.now)
        (tables pieces.new blocks.new store.new nodes.now entries.now)
        answers.old answers.new result.count result.next }
{
    let lent = Tables {
        pieces,
        blocks,
        store,
        nodes,
        entries,
    };
    let state = index_test::test(lent);
    let most = answers.len() / 3;
    let mut at = 0;
    for count in 0..most {
        let Some(
            Item {
                tick,
                first,
                start,
                next,
            },
        ) = call_lists::operation_at(list, at)
        else {
            return Played { count, next: at };
        };
        let op = Operation {
            kind: u64::from(kind),
            tick,
            first,
            bytes: &list[start..next],
        };
        record_one(state, pieces, blocks, store, scratch, op, answers, count);
        at = next;
    }
    Played {
        count: most,
        next: at,
    }
}

// Every list of calls with `record_all` is the list with its record calls written out.
#[tactic(auto, using(crate::proofs::Written::written_out_lem))]
pub fn records_written_out()
    ensures { WrittenOut }
{}
