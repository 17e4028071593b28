// Many finds of one kind with one test of the tables: the queries of a lent list one after the other, three numbers for each answer, and the block numbers of
// all in one lent slice. It is proved equal to that many calls of `find` on any tables: each is lent the numbers behind those that the ones before have taken.
//
//   specs/Many      what `find_all` does
//   proofs/Asking   one step for each return, and for each turn of the loop

#![tactic(auto)]

ghost use Rattle.std.specs.Prelude.{◌+◌, ◌*◌, ◌≤◌, min, ◌≡◌, length};
ghost use Rattle.layout.specs.Tables.{held};
ghost use Rattle.refusals.specs.Numbers.{answer_by};
ghost use Rattle.index_read.specs.Answers.{counts_given};
ghost use Rattle.find_all.specs.Many.{FoundBehind, FoundOne, FoundAll};

use index::Found;
use index_test::State;
use layout::Tables;
use refusals::Refusal;
use segment_table::lent::Closed;

// The place behind so many numbers more, held to the room that there is.
fn behind(used: usize, count: u64, room: usize) -> usize
    ensures { result ≡ min (used + count) room }
{
    (used as u64).saturating_add(count).min(room as u64) as usize
}

// Asks query i, lent the numbers behind `used` others.
fn find_behind(
    state: State,
    lent: Tables,
    kind: u8,
    queries: &[u64],
    i: usize,
    numbers: &mut [u64],
    used: usize,
) -> Result<Found, Refusal>
    requires i_in_bounds { 3 * i + 3 ≤ length queries.now }
    requires used_in_bounds { used ≤ length numbers.old }
    ensures { FoundBehind state lent.entry.blocks.now lent.entry.nodes.now lent.entry.entries.now kind queries.now i
        numbers.old used numbers.new (answer_by counts_given result) }
{
    let at = 3 * i;
    let tick = queries[at];
    let start = queries[at + 1];
    let end = queries[at + 2];
    let closed = Closed {
        blocks: lent.blocks,
        nodes: lent.nodes,
        entries: lent.entries,
    };
    index_tested::find_tested(state, &closed, kind, tick, start, end, &mut numbers[used..])
}

// Asks query i and puts its answer. The place behind its numbers.
fn find_one(
    state: State,
    lent: Tables,
    kind: u8,
    queries: &[u64],
    i: usize,
    answers: &mut [u64],
    numbers: &mut [u64],
    used: usize,
) -> usize
    requires i_in_bounds { 3 * i + 3 ≤ length queries.now }
    requires i_in_bounds_2 { 3 * i + 3 ≤ length answers.old }
    requires used_in_bounds { used ≤ length numbers.old }
    ensures { FoundOne state lent.entry.blocks.now lent.entry.nodes.now lent.entry.entries.now kind queries.now i
        answers.old answers.new numbers.old numbers.new used result }
{
    let room = numbers.len();
    match find_behind(state, lent, kind, queries, i, numbers, used) {
        Ok(found) => {
            call_lists::put_three(answers, 3 * i, 0, found.count, found.visited);
            behind(used, found.count, room)
        }
        Err(refusal) => {
            call_lists::put_three(answers, 3 * i, u64::from(refusal), 0, 0);
            used
        }
    }
}

// Asks the queries as long as there are whole ones and places for their answers.
pub fn find_all(
    lent: Tables,
    kind: u8,
    queries: &[u64],
    answers: &mut [u64],
    numbers: &mut [u64],
) -> usize
    ensures { FoundAll (held lent.entry) kind
        queries.now answers.old answers.new numbers.old numbers.new result }
{
    let state = index_test::test(lent);
    let most = queries.len().min(answers.len()) / 3;
    let mut used = 0;
    for i in 0..most {
        used = find_one(state, lent, kind, queries, i, answers, numbers, used);
    }
    most
}
