// The pieces in order: a balanced tree over the rows of a lent table. Ports merge_set.rs, whose merging of overlaps is `recording`'s work here.
//
// Links are numbers, 0 for no row, and no Options: what a function gives is stored in a column of the tree.
//
//   specs/Tree        the model: trees of links, each operation a function
//   specs/Table       which tree stands in the table, and what each function ensures
//   proofs/Links      lists of links: one put in, one left out, one exchanged
//   proofs/Order      operations keep the order
//   proofs/Balance    and the balance
//   proofs/Heights    how few links a balanced tree of some height has, so how deep it can be
//   proofs/Frame, Turns, Inserting, Removing, Relinking    the table steps, one for each return

#![tactic(auto)]

ghost use Rattle.std.specs.Prelude.{◌≡◌, ◌<◌};
ghost use Rattle.tables.specs.Columns.{column, piece_left, piece_right};
ghost use Rattle.merge_set.specs.Tree.{node, rotated_left, rotated_right, updated};
ghost use Rattle.merge_set.specs.Table.{StartsBelow, StartsBefore, deep_at, Made, Higher, Inserted, Least, WithoutLeast, Glued, Removed, Relinked, CopiedRow};

use tables::piece::{DEPTH, FIRST, LEFT, OWNER, RIGHT};
use tables::place;

// The rotations that an update may make after an insertion or a removal: one level suffices, so that the tree is balanced after every call. It is no leave to
// stop early: with fewer the balance is lost.
const TURNS: u64 = 1;

// The depth of the tree at `link`.
pub fn depth(table: &[u64], link: u64) -> u64
    ensures { result ≡ deep_at table.now link }
{
    if link == 0 {
        return 0;
    }
    tables::get(table, link, DEPTH)
}

// Whether the piece of `link` starts before a kind's cell: by kind, then by cell.
pub fn starts_below(table: &[u64], link: u64, kind: u64, cell: u64) -> bool
    ensures { StartsBelow table.now link kind cell result }
{
    let owner = tables::get(table, link, OWNER);
    let first = tables::get(table, link, FIRST);
    place::below(owner, first, kind, cell)
}

// Whether the piece of `one` starts before that of `other`. This function and the one above alone compare the places of pieces.
pub fn starts_before(table: &[u64], one: u64, other: u64) -> bool
    ensures { StartsBefore table.now one other result }
{
    let kind = tables::get(table, other, OWNER);
    let cell = tables::get(table, other, FIRST);
    starts_below(table, one, kind, cell)
}

// The links of the two subtrees of a row.
fn children(table: &[u64], link: u64) -> (u64, u64)
    ensures left { result.0 ≡ column table.now link piece_left }
    ensures right { result.1 ≡ column table.now link piece_right }
{
    (
        tables::get(table, link, LEFT),
        tables::get(table, link, RIGHT),
    )
}

// Whether the tree at `right` is higher than the tree at `left` by more than `n`.
#[tactic(auto, using(crate::proofs::Frame::higher_by))]
fn higher(table: &[u64], left: u64, right: u64, n: u64) -> bool
    ensures { Higher table.now left right n result }
{
    n < depth(table, right).saturating_sub(depth(table, left))
}

// Makes `row` the root over the trees at `left` and `right`. No other function writes tree columns.
#[tactic(auto, using(crate::proofs::Frame::joined))]
fn join(table: &mut [u64], left: u64, row: u64, right: u64)
    ensures { Made table.old table.new left row right node row }
{
    let deeper = depth(table, left).max(depth(table, right));
    tables::put(table, row, LEFT, left);
    tables::put(table, row, RIGHT, right);
    tables::put(table, row, DEPTH, deeper.saturating_add(1));
}

// Makes a tree of the trees at `left` and `right` and the row between them, with `turns` levels of rotations left, and gives its link.
#[tactic(auto, using(crate::proofs::Turns::turning))]
#[cycle(rotate_left_rotate_right_update)]
fn update(table: &mut [u64], left: u64, row: u64, right: u64, turns: u64) -> u64
    ensures { Made table.old table.new left row right (updated turns) result }
{
    if turns == 0 {
        join(table, left, row, right);
        return row;
    }
    if higher(table, left, right, 1) {
        let (b, c) = children(table, right);
        if higher(table, c, b, 0) {
            let m = rotate_right(table, b, right, c, turns - 1);
            return rotate_left(table, left, row, m, turns - 1);
        }
        return rotate_left(table, left, row, right, turns - 1);
    }
    if higher(table, right, left, 1) {
        let (a, b) = children(table, left);
        if higher(table, a, b, 0) {
            let m = rotate_left(table, a, left, b, turns - 1);
            return rotate_right(table, m, row, right, turns - 1);
        }
        return rotate_right(table, left, row, right, turns - 1);
    }
    join(table, left, row, right);
    row
}

// Turns left: the root of the tree at `right` becomes the root.
// A function for each way: one over a side would ask at each step which columns are meant.
#[tactic(auto, using(crate::proofs::Turns::turning))]
#[cycle(rotate_left_rotate_right_update)]
fn rotate_left(table: &mut [u64], left: u64, row: u64, right: u64, turns: u64) -> u64
    ensures { Made table.old table.new left row right (rotated_left (updated turns)) result }
{
    if right == 0 {
        join(table, left, row, right);
        return row;
    }
    let (b, c) = children(table, right);
    let m = update(table, left, row, b, turns);
    update(table, m, right, c, turns)
}

// Turns right: the root of the tree at `left` becomes the root.
#[tactic(auto, using(crate::proofs::Turns::turning))]
#[cycle(rotate_left_rotate_right_update)]
fn rotate_right(table: &mut [u64], left: u64, row: u64, right: u64, turns: u64) -> u64
    ensures { Made table.old table.new left row right (rotated_right (updated turns)) result }
{
    if left == 0 {
        join(table, left, row, right);
        return row;
    }
    let (a, b) = children(table, left);
    let m = update(table, b, row, right, turns);
    update(table, a, left, m, turns)
}

// Inserts a row into the tree at `link`, which is at most `fuel` deep, by its first cell, and gives the new link.
#[tactic(auto, using(crate::proofs::Inserting::inserting))]
pub fn insert(table: &mut [u64], link: u64, row: u64, fuel: u64) -> u64
    ensures { Inserted table.old table.new link row fuel result }
{
    if link == 0 {
        join(table, 0, row, 0);
        return row;
    }
    if fuel == 0 {
        return link;
    }
    let (l, r) = children(table, link);
    if starts_before(table, row, link) {
        let m = insert(table, l, row, fuel - 1);
        return update(table, m, link, r, TURNS);
    }
    let m = insert(table, r, row, fuel - 1);
    update(table, l, link, m, TURNS)
}

// The first link of the tree at `link`, which is at most `fuel` deep.
#[tactic(auto, using(crate::proofs::Removing::removing))]
fn least(table: &[u64], link: u64, fuel: u64) -> u64
    ensures { Least table.now link fuel result }
{
    if fuel == 0 {
        return link;
    }
    let l = tables::get(table, link, LEFT);
    if l == 0 {
        return link;
    }
    least(table, l, fuel - 1)
}

// Takes the first link out of the tree at `link`, which is at most `fuel` deep.
#[tactic(auto, using(crate::proofs::Removing::removing))]
fn without_least(table: &mut [u64], link: u64, fuel: u64) -> u64
    ensures { WithoutLeast table.old table.new link fuel result }
{
    if fuel == 0 {
        return link;
    }
    let (l, r) = children(table, link);
    if l == 0 {
        return r;
    }
    let m = without_least(table, l, fuel - 1);
    update(table, m, link, r, TURNS)
}

// Makes one tree of the trees at `left` and `right`, of which the second is at most `fuel` deep.
#[tactic(auto, using(crate::proofs::Removing::removing))]
fn glue(table: &mut [u64], left: u64, right: u64, fuel: u64) -> u64
    ensures { Glued table.old table.new left right fuel result }
{
    if right == 0 {
        return left;
    }
    let x = least(table, right, fuel);
    let r = without_least(table, right, fuel);
    update(table, left, x, r, TURNS)
}

// Takes a row out of the tree at `link`, which is at most `fuel` deep.
#[tactic(auto, using(crate::proofs::Removing::removing))]
pub fn remove(table: &mut [u64], link: u64, row: u64, fuel: u64) -> u64
    ensures { Removed table.old table.new link row fuel result }
{
    if link == 0 || fuel == 0 {
        return link;
    }
    let (l, r) = children(table, link);
    if starts_before(table, row, link) {
        let m = remove(table, l, row, fuel - 1);
        return update(table, m, link, r, TURNS);
    }
    if starts_before(table, link, row) {
        let m = remove(table, r, row, fuel - 1);
        return update(table, l, link, m, TURNS);
    }
    glue(table, l, r, fuel)
}

// Makes the row `new` a copy of the row `old`, which is another.
// Column by column: std copies within a slice only where both rows stand in it.
pub fn copy_row(table: &mut [u64], old: u64, new: u64)
    requires { new ≡ old → ⊥ }
    ensures { CopiedRow table.old table.new old new }
{
    for i in 0..tables::ROW {
        let v = tables::get(table, old, i);
        tables::put(table, new, i, v);
    }
}

// Puts the row `new`, a copy of the row `old`, in the place of `old` in the tree at `link`, which is at most `fuel` deep.
#[tactic(auto, using(crate::proofs::Relinking::relinking))]
pub fn relink(table: &mut [u64], link: u64, old: u64, new: u64, fuel: u64) -> u64
    ensures { Relinked table.old table.new link old new fuel result }
{
    if link == 0 {
        return link;
    }
    if link == old {
        return new;
    }
    if fuel == 0 {
        return link;
    }
    let (l, r) = children(table, link);
    if starts_before(table, old, link) {
        let m = relink(table, l, old, new, fuel - 1);
        join(table, m, link, r);
        return link;
    }
    let m = relink(table, r, old, new, fuel - 1);
    join(table, l, link, m);
    link
}
