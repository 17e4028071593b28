// Where the rows of a tick stand, along rows whose destroyed ticks rise. It is a hint: whatever it says, what is counted there is counted rightly, and
// a wrong place only leaves rule 24 to be decided in another way. So the functions promise no more than that they stay among the rows, that a search
// goes on from where it starts, and that a guide sends no search behind a row of its tick.
//
//   specs/Slots     what stands in the slots of a guide
//   proofs/Marking  one step for each turn of the loops that make one

#![tactic(auto)]

ghost use Rattle.std.specs.Prelude.{◌≡◌, ◌≤◌, max, length, replicate};
ghost use Rattle.row_seek.specs.Slots.{slot_at, Marked, Filled, Guides};

use block_table::Row;
use tables::place;

// Ticks that differ in their lowest bits alone share a slot. So many bits tell the slots apart, and they stand in an array, as nothing is allocated.
const BITS: u32 = 12;

const SLOTS: usize = 1 << BITS;

// So few rows are looked at one by one, and not halved: their next one is guessed better than a half.
const FEW: u64 = 8;

// For each slot the row before the first one that is destroyed at a tick of it or later: a search for a tick starts at that of its slot, and ends at
// that of the next.
#[derive(Drop)]
pub struct Guide {
    shift: u32,
    rows: [u32; SLOTS],
}

// The slot of a tick, where slots are as wide as 2^shift ticks.
fn slot_of(tick: u64, shift: u32) -> usize
    ensures { result ≡ slot_at tick shift }
{
    (tick >> (shift % 64)) as usize
}

// Marks the slots of the rows 1 to n: from the last row on, so that the first one of a slot stays.
#[tactic(auto, using(crate::proofs::Marking::marking))]
fn mark(slots: &mut [u32], blocks: &[u64], n: u64, shift: u32)
    ensures marked { Marked slots.new blocks.now shift 0 n }
    ensures long { length slots.new ≡ length slots.old }
{
    for k in (0..n).rev() {
        let slot = slot_of(block_table::read(blocks, k + 1).destroyed, shift);
        if slot < slots.len() {
            slots[slot] = u32::try_from(k).unwrap_or(u32::MAX);
        }
    }
}

// Gives a slot without rows the row of the next one.
#[tactic(auto, using(crate::proofs::Marking::filling))]
fn fill(slots: &mut [u32])
    ensures { Filled slots.old slots.new 0 }
{
    let mut next = u32::MAX;
    for slot in (0..slots.len()).rev() {
        next = next.min(slots[slot]);
        slots[slot] = next;
    }
}

impl Guide {
    // A guide of no rows. It is made before it is marked, and stays where it is: to move it would copy all its slots.
    pub fn new() -> Guide
        ensures { result.rows ≡ replicate SLOTS u32.MAX }
    {
        Guide {
            shift: 0,
            rows: [u32::MAX; SLOTS],
        }
    }

    // Makes it the guide of the rows 1 to n, where it is new. Slots are so wide that the last row's tick has one.
    pub fn mark_rows(&mut self, blocks: &[u64], n: u64)
        ensures { Guides self.new.rows blocks.now self.new.shift n }
    {
        let last = block_table::read(blocks, n).destroyed;
        self.shift = (64 - last.leading_zeros()).saturating_sub(BITS);
        mark(&mut self.rows, blocks, n, self.shift);
        let used = slot_of(last, self.shift).saturating_add(1).min(SLOTS);
        fill(&mut self.rows[..used]);
    }

    // What stands in a slot, as one of the rows up to n; behind the last slot n.
    fn row(&self, slot: usize, n: u64) -> u64
        ensures { result ≤ n }
    {
        if SLOTS <= slot {
            return n;
        }
        n.min(u64::from(self.rows[slot]))
    }
}

// Whether the row is destroyed before the tick, or at it and ends at the kind's cell or before.
fn comes_before(row: Row, tick: u64, kind: u64, cell: u64) -> bool {
    row.destroyed < tick || row.destroyed == tick && !place::below(kind, cell, row.owner, row.end())
}

// How many rows come before the tick and the kind's cell, of those above `from` up to `to`, one by one, and those up to `from` besides.
fn walk(blocks: &[u64], from: u64, to: u64, tick: u64, kind: u64, cell: u64) -> u64
    ensures onward { from ≤ result }
    ensures within { result ≤ max from to }
{
    for k in from..to {
        if !comes_before(block_table::read(blocks, k + 1), tick, kind, cell) {
            return k;
        }
    }
    from.max(to)
}

// The same, by halves where they are many.
// No `partition_point` of std, which takes a slice.
pub fn search(blocks: &[u64], from: u64, to: u64, tick: u64, kind: u64, cell: u64) -> u64
    ensures onward { from ≤ result }
    ensures within { result ≤ max from to }
{
    let mut lo = from;
    let mut hi = to;
    while FEW < hi.saturating_sub(lo) {
        let mid = lo + (hi - lo) / 2;
        if comes_before(block_table::read(blocks, mid + 1), tick, kind, cell) {
            lo = mid + 1;
        } else {
            hi = mid;
        }
    }
    walk(blocks, lo, hi, tick, kind, cell)
}

// The row before the first one that is destroyed at the tick.
pub fn seek(blocks: &[u64], n: u64, guide: &Guide, tick: u64) -> u64
    ensures { result ≤ n }
{
    let slot = slot_of(tick, guide.shift);
    let from = guide.row(slot, n);
    let to = guide.row(slot.saturating_add(1), n);
    search(blocks, from, to, tick, 0, 0)
}
