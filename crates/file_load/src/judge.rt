// Rules 22, 23 and 24 on tables that were filled.
ghost use Rattle.std.specs.Prelude.{◌≡◌};
ghost use Rattle.segment_test.specs.Test.{lent};
ghost use Rattle.refusals.specs.Numbers.{answer_by};
ghost use Rattle.file_load.specs.Load.{lives_at, TestedLives, Judged};

use refusals::Refusal;
use segment_table::lent::Claim;
use tables::block;

// Whether the block of a link has cells, no end above the largest number, and a life that ends by `end`. It subtracts and does not add.
#[tactic(auto, unfolding(crate::specs::Load::lives_at))]
fn lives_at(blocks: &[u64], link: u64, end: u64) -> bool
    ensures { result ≡ lives_at blocks.now link end }
{
    let length = block::get(blocks, link, block::LENGTH);
    let destroyed = block::get(blocks, link, block::DESTROYED);
    0 < length
        && block::get(blocks, link, block::FIRST) <= u64::MAX - length
        && block::get(blocks, link, block::CREATED) < destroyed
        && destroyed <= end
}

// Rule 22: some block, and each of them lives.
fn all_live(blocks: &[u64], n: u64, end: u64) -> bool
    ensures { TestedLives blocks.now n end result }
{
    for k in 0..n {
        if !lives_at(blocks, k + 1, end) {
            return false;
        }
    }
    0 < n
}

// The first rule of 22 to 24 that the index in the tables breaks.
pub fn judge(claim: &Claim<'_>) -> Result<(), Refusal>
    ensures { Judged (lent claim.now.tables.blocks.now claim.now.tables.nodes.now claim.now.tables.entries.now)
        claim.now.end claim.now.n (answer_by (λ u. u) result) }
{
    if !all_live(claim.tables.blocks, claim.n, claim.end) {
        return Err(Refusal::FileBlocks);
    }
    let found = segment_apart::test(claim);
    if !found.trees {
        return Err(Refusal::FileEntries);
    }
    if !found.apart {
        return Err(Refusal::FileShared);
    }
    Ok(())
}
