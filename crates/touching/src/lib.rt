// Touching, next and last: all live blocks that hold a cell of a window, the first that starts at or after a cell, the last whose cells are all below it
// (document 02, Item 1). Each names a kind, and is total: it takes any slices of any lengths and contents.
//
//   The contracts are the relations of `layout`. The work stands in `touching_read`, without the test of the tables; what is proved of the ledger's
//   lists stands in `history` (`law_of_touching`, `law_of_neighbours`).
//   specs/Sides        next and last as one relation over the side
//   proofs/Answering   one step for each return

#![tactic(auto)]

ghost use Rattle.layout.specs.Tables.{held};
ghost use Rattle.layout.specs.Relations.{TouchedBy};
ghost use Rattle.refusals.specs.Numbers.{answer_by};
ghost use Rattle.touching_read.specs.Answers.{near_told};
ghost use Rattle.touching.specs.Sides.{NearGivenBy};

use layout::Tables;
use refusals::Refusal;
pub use segment_near::Side;
use segment_table::lent::Closed;

// The live blocks of a kind that hold a cell of [start, end) at a tick, ascending by first cell: their numbers go into the lent answer.
pub fn touching(
    lent: Tables,
    kind: u8,
    tick: u64,
    start: u64,
    end: u64,
    answer: &mut [u64],
) -> Result<u64, Refusal>
    ensures { TouchedBy (held lent.entry) kind tick start end answer.old answer.new (answer_by (λ n. n) result) }
{
    index_test::test(lent).closed()?;
    let closed = Closed {
        blocks: lent.blocks,
        nodes: lent.nodes,
        entries: lent.entries,
    };
    touching_read::touching_closed(&closed, u64::from(kind), tick, start, end, answer)
}

// The live block of a kind next to a cell on one side: the first that starts at it or after it, or the last whose cells are all below it.
pub fn near(
    lent: Tables,
    side: Side,
    kind: u8,
    tick: u64,
    cell: u64,
) -> Result<Option<u64>, Refusal>
    ensures { NearGivenBy side (held lent.entry) kind tick cell (answer_by near_told result) }
{
    index_test::test(lent).closed()?;
    let closed = Closed {
        blocks: lent.blocks,
        nodes: lent.nodes,
        entries: lent.entries,
    };
    touching_read::near_closed(&closed, side, u64::from(kind), tick, cell)
}
