// The nodes of the file, root first, left before right: a row for each, and its entries behind those of the nodes before it. Rule 21 is tested on the
// way down, so that no chain of nodes is followed further than intervals can be halved.
ghost use Rattle.std.specs.Prelude.{◌≡◌, [], ◌∷◌, ◌+◌, ◌*◌, ◌≤◌, ◌<◌};
ghost use Rattle.std.proofs.lemmas.List.Edits.{sets};
ghost use Rattle.history.specs.Lent.{entry_width, entry_head};
ghost use Rattle.history.specs.Tree.{mid};
ghost use Rattle.file_scan.specs.Rows.{read_head};
ghost use Rattle.layout.specs.Rows.{node_head_numbers};
ghost use Rattle.file_fill.specs.Fill.{first_cell_of, is_place, right_start, half_of, root_end, FilledEntries, FilledTree, FilledNodes};

use crate::rows::put_row;
use fields::Reader;
use file_scan::rows;
use file_scan::rows::NodeRow;
use tables::{ROW, block, entry, node};

// What stands at a position where the node of an interval is awaited: that node, or no node.
#[derive(Clone, Copy)]
pub enum Half {
    Present {
        count: u64,
        entries: usize,
        next: usize,
    },
    Absent {
        next: usize,
    },
}

// A position in the file, with how many node and entry rows are in use there.
#[derive(Clone, Copy)]
pub struct Position {
    pub at: usize,
    pub rows: u64,
    pub runs: u64,
}

// A tree that was filled: the link of its root, or 0 for none, and the position behind it.
#[derive(Clone, Copy)]
pub struct Filled {
    pub root: u64,
    pub behind: Position,
}

// What the nodes are filled from: the file, its kind, and its blocks as they were filled.
#[derive(Clone, Copy)]
pub struct Source<'a> {
    pub blocks: &'a [u64],
    pub file: &'a [u8],
    // a number, as any may be filled in
    pub kind: u64,
}

// Whether a node that says low, high and middle is the node [min, max), which has a tick.
#[tactic(auto, unfolding(crate::specs::Fill::is_place))]
fn is_place(min: u64, max: u64, low: u64, high: u64, middle: u64) -> bool
    ensures { result ≡ is_place min max low high middle }
{
    min < max && low == min && high == max && middle == middle_of(min, max)
}

// The middle of [min, max).
fn middle_of(min: u64, max: u64) -> u64
    ensures { min < max → result ≡ mid min max }
{
    min + max.saturating_sub(min) / 2
}

// Where the right half of [min, max) starts. A node of width 1 has none: from max on no node can stand.
fn right_start(min: u64, max: u64) -> u64
    ensures { min < max → result ≡ right_start min max }
{
    if max.saturating_sub(min) <= 1 {
        max
    } else {
        middle_of(min, max)
    }
}

// The node at a position, if it is [min, max).
fn half_at(file: &[u8], at: usize, min: u64, max: u64) -> Option<Half>
    ensures { result ≡ half_of min max at (read_head file.now at) }
{
    let mut reader = Reader { file, at };
    let row = rows::node(&mut reader).ok()?;
    let next = reader.at;
    match row {
        NodeRow::Absent => Some(Half::Absent { next }),
        NodeRow::Present {
            min: low,
            max: high,
            middle,
            count,
            entries,
        } => {
            if !is_place(min, max, low, high, middle) {
                return None;
            }
            Some(Half::Present {
                count,
                entries,
                next,
            })
        }
    }
}

// The first cell of a block by its number, which the file may give too high: then 0.
fn first_cell(blocks: &[u64], number: u64) -> u64
    ensures { result ≡ first_cell_of blocks.now number }
{
    if number < blocks.len() as u64 {
        return block::get(blocks, number + 1, block::FIRST);
    }
    0
}

// One entry row.
fn put_entry(entries: &mut [u64], row: u64, number: u64, cell: u64)
    ensures { entries.new ≡ sets entries.old (entry_head + entry_width * row) (number ∷ cell ∷ []) }
{
    entry::put(entries, row, entry::BLOCK, number);
    entry::put(entries, row, entry::KEY, cell);
}

// The end tick that the root at a position says; none without a root, or where it is out of range.
fn root_end(file: &[u8], at: usize) -> Option<u64>
    ensures { result ≡ root_end (read_head file.now at) }
{
    let mut reader = Reader { file, at };
    match rows::node(&mut reader).ok()? {
        NodeRow::Absent => None,
        NodeRow::Present { max, .. } => {
            if max == 0 || block::MAX_END_TICK < max {
                return None;
            }
            Some(max)
        }
    }
}

// The head of the node table: one root, of link 1 in the column of its kind, and the count.
fn put_node_head(nodes: &mut [u64], kind: u64, count: u64)
    ensures { nodes.new ≡ sets nodes.old 0 (node_head_numbers kind count) }
{
    let mut row = [0; ROW];
    if kind < node::COUNT as u64 {
        row[kind as usize] = 1;
    }
    row[node::COUNT] = count;
    put_row(nodes, 0, 0, row);
}

impl Source<'_> {
    // The entries of one node: the `count` numbers at a position, each with the first cell of its block.
    fn fill_entries(&self, entries: &mut [u64], at: usize, first: u64, count: u64)
        requires { first ≤ at }
        ensures { FilledEntries self.now.blocks.now self.now.file.now at first count entries.old entries.new }
    {
        let mut reader = Reader {
            file: self.file,
            at,
        };
        for more in 0..count {
            let Some(number) = reader.number() else {
                return;
            };
            put_entry(
                entries,
                first + more,
                number,
                first_cell(self.blocks, number),
            );
        }
    }

    // Fills the tree at a position, whose root is to be [min, max), behind the node and entry rows in use; none if it is not. The interval halves: at
    // most 65 calls deep for an end up to 2^63. Linear in the nodes and entries met.
    fn fill_tree(
        &self,
        nodes: &mut [u64],
        entries: &mut [u64],
        min: u64,
        max: u64,
        from: Position,
    ) -> Option<Filled>
        requires rows_le_at { from.rows ≤ from.at }
        requires runs_le_at { from.runs ≤ from.at }
        ensures { FilledTree self.now.blocks.now self.now.file.now self.now.kind min max from.at from.rows from.runs
            nodes.old entries.old nodes.new entries.new result }
    {
        let Position { at, rows, runs } = from;
        let half = half_at(self.file, at, min, max)?;
        match half {
            Half::Absent { next } => Some(Filled {
                root: 0,
                behind: Position {
                    at: next,
                    rows,
                    runs,
                },
            }),
            Half::Present {
                count,
                entries: entries_at,
                next,
            } => {
                let link = rows + 1;
                let more = runs + count;
                let mid = middle_of(min, max);
                let start = right_start(min, max);
                self.fill_entries(entries, entries_at, runs, count);
                let own = Position {
                    at: next,
                    rows: link,
                    runs: more,
                };
                let left = self.fill_tree(nodes, entries, min, mid, own)?;
                let right = self.fill_tree(nodes, entries, start, max, left.behind)?;
                let row = [min, max, left.root, right.root, runs, count, self.kind, 0];
                put_row(nodes, 0, link, row);
                Some(Filled {
                    root: link,
                    ..right
                })
            }
        }
    }

    // Fills the nodes at a position, with their entries, and the heads of the two tables. Gives the end tick; none where rule 21 is broken.
    pub fn fill_nodes(&self, nodes: &mut [u64], entries: &mut [u64], at: usize) -> Option<u64>
        ensures { FilledNodes self.now.blocks.now self.now.file.now self.now.kind at nodes.old entries.old nodes.new entries.new result }
    {
        let end = root_end(self.file, at)?;
        let start = Position {
            at,
            rows: 0,
            runs: 0,
        };
        let filled = self.fill_tree(nodes, entries, 0, end, start)?;
        put_node_head(nodes, self.kind, filled.behind.rows);
        put_row(entries, 0, 0, [filled.behind.runs, 0, 0, 0, 0, 0, 0, 0]);
        Some(end)
    }
}
