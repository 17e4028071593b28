// A set of kinds as a mask: bit k for kind k.
ghost use Rattle.tables.specs.Masks.{Opens};

// How many kinds there are.
pub const KINDS: u64 = 5;

// The mask of all of them.
pub const ALL: u64 = 31;

// Whether the set has a kind.
#[tactic(auto, using(crate::proofs::Masks::opening))]
pub fn has(mask: u64, kind: u64) -> bool
    ensures { Opens mask kind result }
{
    if kind < KINDS {
        return (mask >> kind) % 2 == 1;
    }
    false
}
