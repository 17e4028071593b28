// What a walk counts for a tick: four slots, each a range of cells and how many of them were counted. Which slot takes a block in is a guess, and every
// guess is sound (apart_laws); a good one leaves few ticks to the tree. Two updates at one tick lie far apart, and what one of them created lies close
// together: so a block goes to the first slot that it lies near, else to one that is not used yet, else to the last.
//
//   specs/Steps    slots in code as the laws have them, and what each function does
//   proofs/Steps   one step for each function

#![tactic(auto)]

ghost use Rattle.std.specs.Prelude.{◌≤◌};
ghost use Rattle.lists.specs.Tests.{Decides};
ghost use Rattle.slots.specs.Steps.{Unused, TookIn, Restores, Takes, Holds, Counts};

// How far a block may lie from a slot to go to it.
const NEAR: u64 = 1024;

// The slot that takes in what suits none before it.
const LAST: usize = 3;

#[derive(Clone, Copy)]
pub struct Slot {
    pub lo: u64,
    pub hi: u64,
    pub sum: u64,
}

// First and end go as two numbers: a caller has them as fields of its row, and would build a value of both for each call.
impl Slot {
    // The slot with [first, end) taken in.
    fn take_in(self, first: u64, end: u64) -> Slot
        requires { first ≤ end }
        ensures { TookIn self first end result }
    {
        Slot {
            lo: self.lo.min(first),
            hi: self.hi.max(end),
            sum: self.sum.saturating_add(end - first),
        }
    }

    // Whether [first, end) is to go to the slot: it counts nothing yet, or lies near. A guess: nothing rests on it.
    fn suits(self, first: u64, end: u64) -> bool {
        self.sum == 0
            || first.saturating_sub(self.hi) <= NEAR && self.lo.saturating_sub(end) <= NEAR
    }

    // Whether the slot is full and has [first, end).
    fn restores(self, first: u64, end: u64) -> bool
        ensures { Decides result (Restores self first end) }
    {
        self.lo <= first && end <= self.hi && self.hi.saturating_sub(self.lo) <= self.sum
    }
}

// Four in an array, as nothing is allocated.
#[derive(Clone, Copy)]
pub struct Slots {
    pub each: [Slot; 4],
}

impl Slots {
    // Four that count nothing yet.
    #[tactic(auto, using(lists::specs::Lists::all_cons, lists::specs::Lists::all_nil))]
    pub fn unused() -> Slots
        ensures { Unused result }
    {
        let s = Slot {
            lo: u64::MAX,
            hi: 0,
            sum: 0,
        };
        Slots { each: [s; 4] }
    }

    // Takes [first, end) in by one of them.
    #[tactic(auto, using(crate::proofs::Steps::take_at))]
    pub fn take(&mut self, first: u64, end: u64)
        requires { first ≤ end }
        ensures { Takes self.old first end self.new }
    {
        let at = self.each[..LAST]
            .iter()
            .position(|s| s.suits(first, end))
            .unwrap_or(LAST);
        self.each[at] = self.each[at].take_in(first, end);
    }

    // Whether one of the slots is full and has [first, end).
    #[tactic(auto, using(crate::proofs::Steps::held))]
    pub fn hold(&self, first: u64, end: u64) -> bool
        ensures { Holds self.now first end result }
    {
        self.each.iter().any(|s| s.restores(first, end))
    }

    // A block [first, end) has been looked at, for the slots of `min`: it is taken in, if it is created then.
    #[tactic(auto, using(crate::proofs::Steps::count_other))]
    pub fn count(&mut self, min: u64, created: u64, first: u64, end: u64)
        requires { first ≤ end }
        ensures { Counts self.old min created first end self.new }
    {
        if created == min {
            self.take(first, end);
        }
    }
}
