// Whether lent tables are well formed: the tests behind refusal 2, on any tables at all.
//
//   board   what any index has, open or closed
//   specs/Board     what is decided
//   specs/Law       so the test is exact (proofs/Deciding)
//   proofs/Ledgers  tables that pass stand for a ledger, and those of a sound ledger pass
//   proofs/Numbers  the number of a state and back
//   proofs/Told     what the test found turned into 2, 3 and 4, for every call
//
// How a read of a closed index is written, as find, read cells and write are:
//   1. `history` says what the ledger gives and the refusals, made of `read_refusals` or `tick_refusals`: `xAnswer : Ledger → .. → Answer A`.
//   2. An inner call `x_closed` answers without a test of the tables; its contract is `ClosedBy` (layout, `Reads`) at `xAnswer`, whatever else is
//      lent, and what is handed out: `HandedInto` for values and one slice, a record of its own for more. Its refusals are steps by `closed_refuses`
//      and the laws of `ReadLaws` (`window_14`, `window_15`, `window_rest`).
//   3. The relation of the public call is a record of one field, `read : ReadBy t (λ l. xAnswer l ..) (HandedInto ..)`.
//   4. The public call is lent `layout::Tables`, asks `test(lent).closed()?` and hands on the inner call. Its two returns are `read_not_closed` and
//      `closed_read` (proofs/Told).

#![tactic(auto)]

ghost use Rattle.std.specs.Prelude.{◌≡◌};
ghost use Rattle.layout.specs.Tables.{held};
ghost use Rattle.index_test.specs.Board.{Outcome, TestedClosed};
ghost use Rattle.index_test.specs.Law.{TestDecides};
ghost use Rattle.index_test.specs.States.{when_formed, when_open, when_closed, state_number, state_numbered};

mod board;

use layout::Tables;
use refusals::Refusal;
use segment_table::lent::{Claim, Closed};
use tables::{block, piece};

// What tables are found to be, with the numbers that C is given.
#[derive(Clone, Copy)]
pub enum State {
    Bad = 0,
    Open = 1,
    Closed = 2,
}

// The state of a number; one that no test gives stands for tables that are not well formed.
impl From<u64> for State {
    ghost from_gives = { λ n state. state ≡ state_numbered n };

    #[tactic(auto, using(crate::proofs::Numbers::states))]
    fn from(number: u64) -> State {
        match number {
            1 => State::Open,
            2 => State::Closed,
            _ => State::Bad,
        }
    }
}

impl From<State> for u64 {
    ghost from_gives = { λ state n. n ≡ state_number state };

    fn from(state: State) -> u64 {
        state as u64
    }
}

// What a call is refused for by the state of its tables.
impl State {
    // A call on an open or a closed index.
    pub fn formed(self) -> Result<(), Refusal>
        ensures { result ≡ when_formed self }
    {
        match self {
            State::Bad => Err(Refusal::Malformed),
            State::Open | State::Closed => Ok(()),
        }
    }

    // A call on an open index alone.
    pub fn open(self) -> Result<(), Refusal>
        ensures { result ≡ when_open self }
    {
        match self {
            State::Bad => Err(Refusal::Malformed),
            State::Closed => Err(Refusal::Finished),
            State::Open => Ok(()),
        }
    }

    // A call on a closed index alone.
    pub fn closed(self) -> Result<(), Refusal>
        ensures { result ≡ when_closed self }
    {
        match self {
            State::Bad => Err(Refusal::Malformed),
            State::Open => Err(Refusal::NotFinished),
            State::Closed => Ok(()),
        }
    }
}

// Whether the tables that pass as a board are those of a closed index. Linear in the rows in use for whatever calls leave; rule 24 of other tables may take
// O(n log E log n) steps.
#[tactic(auto, using(crate::proofs::Tested::closing))]
fn test_closed(lent: Tables) -> bool
    ensures { TestedClosed (held lent.entry) result }
{
    if tables::get(lent.pieces, 0, piece::COUNT) != 0 {
        return false;
    }
    let claim = Claim {
        tables: Closed {
            blocks: lent.blocks,
            nodes: lent.nodes,
            entries: lent.entries,
        },
        end: block_table::end(lent.blocks),
        n: block_table::count(lent.blocks),
    };
    let found = segment_apart::test(&claim);
    found.trees && found.apart
}

// What the tables are: of an open index, of a closed one, or not well formed.
#[tactic(auto, using(crate::proofs::Tested::testing))]
pub fn test(lent: Tables) -> State
    ensures { Outcome result (held lent.entry) }
{
    if !board::test_board(lent) {
        return State::Bad;
    }
    let state = block_table::state(lent.blocks);
    if state == block::OPEN {
        if ordering::unordered(lent.blocks, block_table::count(lent.blocks)) {
            return State::Open;
        }
        return State::Bad;
    }
    if state != block::CLOSED {
        return State::Bad;
    }
    if test_closed(lent) {
        return State::Closed;
    }
    State::Bad
}

// The test decides exactly whether tables are well formed, and of which index.
#[tactic(auto, using(crate::proofs::Deciding::test_decides))]
pub fn test_decides()
    ensures { TestDecides }
{}
