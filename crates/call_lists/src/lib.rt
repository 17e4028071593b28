// Lists of calls: operations in a row of bytes, and three numbers for each answer.
//
//   specs/Operations   proofs/Reading   an operation of the list, read
//   specs/Threes       proofs/Threes    answers in a row

#![tactic(auto)]

ghost use Rattle.std.specs.Prelude.{◌≡◌, [], ◌∷◌, ◌+◌, ◌≤◌, length};
ghost use Rattle.std.proofs.lemmas.List.Edits.{sets};
ghost use Rattle.call_lists.specs.Operations.{ItemRead};

use fields::Reader;

// An operation of the list, its bytes from `start` up to `next`.
#[derive(Clone, Copy)]
pub struct Item {
    pub tick: u64,
    pub first: u64,
    pub start: usize,
    pub next: usize,
}

// The operation at a position: tick, first cell and length, 8 bytes each, then its bytes. None where the list ends before or inside one.
pub fn operation_at(list: &[u8], at: usize) -> Option<Item>
    ensures { ItemRead list.now at result }
{
    let mut reader = Reader { file: list, at };
    let tick = reader.number()?;
    let first = reader.number()?;
    let length = reader.number()?;
    let start = reader.at;
    reader.bytes(length)?;
    Some(Item {
        tick,
        first,
        start,
        next: reader.at,
    })
}

// Puts the numbers of an answer at their place.
#[tactic(auto, using(crate::proofs::Threes::three_put))]
pub fn put_three(answers: &mut [u64], at: usize, refusal: u64, one: u64, other: u64)
    requires { at + 3 ≤ length answers.old }
    ensures { answers.new ≡ sets answers.old at (refusal ∷ one ∷ other ∷ []) }
{
    answers[at] = refusal;
    answers[at + 1] = one;
    answers[at + 2] = other;
}
