// Info: what stands in an index, open or closed. So callers need to know nothing of the columns of docs/LAYOUT.md.
//
//   specs/Info       what a ledger says, and the public contract
//   specs/Answers    what the read of tested tables ensures
//   proofs/Telling   one step for each return

#![tactic(auto)]

ghost use Rattle.layout.specs.Tables.{held};
ghost use Rattle.refusals.specs.Numbers.{answer_by};
ghost use Rattle.info.specs.Info.{InfoGivenBy};
ghost use Rattle.info.specs.Answers.{InfoTold, summary_given};

use index_test::State;
use layout::Tables;
use refusals::Refusal;
use tables::{entry, node, piece};

// What stands in an index: its state, end tick and last accepted tick; its kinds as a mask, bit k for kind k; the rows in use of four tables, and the bytes
// in use of the store. An open index has no nodes and no entries.
#[derive(Clone, Copy)]
pub struct Summary {
    pub state: State,
    pub end_tick: u64,
    pub last_tick: u64,
    pub kinds: u64,
    pub pieces: u64,
    pub blocks: u64,
    pub store: u64,
    pub nodes: u64,
    pub entries: u64,
}

// What stands in tables that are not tested here.
#[tactic(auto, using(crate::proofs::Telling::telling))]
pub fn info_formed(pieces: &[u64], blocks: &[u64], nodes: &[u64], entries: &[u64]) -> Summary
    ensures { InfoTold pieces.now blocks.now nodes.now entries.now result }
{
    let open = Summary {
        state: State::from(block_table::state(blocks)),
        end_tick: block_table::end(blocks),
        last_tick: block_table::last(blocks),
        kinds: block_table::kinds(blocks),
        pieces: tables::get(pieces, 0, piece::COUNT),
        blocks: block_table::count(blocks),
        store: block_table::used(blocks),
        nodes: 0,
        entries: 0,
    };
    match open.state {
        State::Closed => Summary {
            nodes: tables::get(nodes, 0, node::COUNT),
            entries: tables::get(entries, 0, entry::COUNT),
            ..open
        },
        State::Open | State::Bad => open,
    }
}

// What stands in an index, open or closed.
pub fn info(lent: Tables) -> Result<Summary, Refusal>
    ensures { InfoGivenBy (held lent.entry) (answer_by summary_given result) }
{
    index_test::test(lent).formed()?;
    Ok(info_formed(lent.pieces, lent.blocks, lent.nodes, lent.entries))
}
