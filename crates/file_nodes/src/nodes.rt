// The nodes of the file: root first, left before right. The tree is walked by halves: whatever the tables hold, at most 65 calls deep.
ghost use Rattle.std.specs.Prelude.{◌++◌, ◌≤◌};
ghost use Rattle.history.specs.File.{bytes_of};
ghost use Rattle.lists.specs.Puts.{Put};
ghost use Rattle.file_nodes.specs.Nodes.{PutEntries, PutNode, PutTree};

use super::numbers;
use file_put::put;
use tables::{entry, node};

// The presence bytes.
const ABSENT: u64 = 0;

const PRESENT: u64 = 1;

// The tables of the tree, and how many numbers are listed.
#[derive(Clone, Copy)]
pub struct Tree<'a> {
    pub nodes: &'a [u64],
    pub entries: &'a [u64],
    pub listed: u64,
}

// A link with the interval of the node that stands there.
#[derive(Clone, Copy)]
pub struct Place {
    pub link: u64,
    pub min: u64,
    pub max: u64,
}

// Two absent halves.
fn put_no_halves(out: &mut [u8], at: usize) -> usize
    ensures { Put out.old at (bytes_of 1 0 ++ bytes_of 1 0) out.new result }
{
    let next = put::byte(out, at, ABSENT);
    put::byte(out, next, ABSENT)
}

impl Tree<'_> {
    // The block numbers of a run of entries, renumbered. Of a run that does not stand in the table, which no closed index has, nothing is put.
    #[tactic(auto, using(crate::proofs::Treeing::entering))]
    fn put_entries(&self, first: u64, count: u64, out: &mut [u8], at: usize) -> usize
        ensures { PutEntries self.now.entries.now first count self.now.listed out.old at out.new result }
    {
        let room = self.entries.len() as u64;
        if room < count {
            return at;
        }
        if room - count < first {
            return at;
        }
        let mut next = at;
        for i in 0..count {
            let number = entry::get(self.entries, first + i, entry::BLOCK);
            let new = numbers::new_number(out, self.listed, number);
            next = put::number(out, next, new);
        }
        next
    }

    // A node without its halves (`begin_rtree_serialization`, and its block numbers).
    #[tactic(auto, using(crate::proofs::Treeing::noding))]
    fn put_node(&self, place: Place, out: &mut [u8], at: usize) -> usize
        requires { place.min ≤ place.max }
        ensures { PutNode self.now.nodes.now self.now.entries.now place.link place.min place.max self.now.listed out.old at out.new result }
    {
        let Place { link, min, max } = place;
        let first = tables::get(self.nodes, link, node::FIRST);
        let count = tables::get(self.nodes, link, node::ENTRIES);
        let mid = min + (max - min) / 2;
        let next = put::row(out, at, PRESENT, min, max, mid, count);
        self.put_entries(first, count, out, next)
    }

    // The tree at a place. Its width falls at each call, and a full slice ends it: where the table holds no tree, the calls are no more than the bytes.
    #[tactic(auto, using(crate::proofs::Treeing::noding))]
    pub fn put(&self, place: Place, out: &mut [u8], at: usize) -> usize
        requires { place.min ≤ place.max }
        ensures { PutTree self.now.nodes.now self.now.entries.now place.link place.min place.max self.now.listed out.old at out.new result }
    {
        let Place { link, min, max } = place;
        if out.len() <= at {
            return at;
        }
        if link == 0 {
            return put::byte(out, at, ABSENT);
        }
        let left_at = self.put_node(place, out, at);
        if max - min <= 1 {
            return put_no_halves(out, left_at);
        }
        let mid = min + (max - min) / 2;
        let left = tables::get(self.nodes, link, node::LEFT);
        let right = tables::get(self.nodes, link, node::RIGHT);
        let left = Place {
            link: left,
            min,
            max: mid,
        };
        let right = Place {
            link: right,
            min: mid,
            max,
        };
        let right_at = self.put(left, out, left_at);
        self.put(right, out, right_at)
    }
}
