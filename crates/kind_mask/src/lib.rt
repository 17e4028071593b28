// The set of kinds that an index is opened for, as a mask: bit k for kind k.
//
//   specs/Masks     the mask of kinds that are given, and what the functions do
//   proofs/Masks    its bits and its kinds, and one mask for each set
//   proofs/Masking  one step for each turn and each return

#![tactic(auto)]

ghost use Rattle.std.specs.Prelude.{◌<◌, ◌^◌};
ghost use Rattle.kind_mask.specs.Masks.{WithKind, MaskGiven};

use tables::kinds;

// The mask with one kind more.
#[tactic(auto, using(crate::proofs::Masking::adding, crate::proofs::Masking::bit_low, crate::proofs::Masking::shifted))]
fn with_kind(mask: u64, kind: u64) -> u64
    requires { (mask < 2 ^ 5) × (kind < 5) }
    ensures { WithKind mask kind result }
{
    if kinds::has(mask, kind) {
        return mask;
    }
    mask + (1 << kind)
}

// The mask of a set of kinds; 0 where there is none, or one above 4. A kind may be named twice.
#[tactic(auto, using(crate::proofs::Masking::masking, crate::proofs::Masking::from_below))]
pub fn mask_of(given: &[u8]) -> u64
    ensures { MaskGiven given.now result }
{
    let mut mask = 0;
    for i in (0..given.len()).rev() {
        let kind = u64::from(given[i]);
        if kinds::KINDS <= kind {
            return 0;
        }
        mask = with_kind(mask, kind);
    }
    mask
}
