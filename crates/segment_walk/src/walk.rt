// The way down to a tick: from the root, at each node to the half that has the tick.
ghost use Rattle.std.specs.Prelude.{◌≡◌, ◌<◌};
ghost use Rattle.lists.specs.Tests.{Decides};
ghost use Rattle.history.specs.Lent.{row_width};
ghost use Rattle.tables.specs.Columns.{column};
ghost use Rattle.segment_walk.specs.Walking.{root_at, Absent, half_at};

// A node of the tree, [min, max), by the link of its row; link 0 is no node.
// No Option of a node: the link of a half is what stands in the row, and 0 is no node there.
#[derive(Clone, Copy)]
pub struct Node {
    pub link: u64,
    pub min: u64,
    pub max: u64,
}

// What is asked on the way: the blocks live at a tick whose first cell is in [start, stop).
#[derive(Clone, Copy)]
pub struct Query {
    pub tick: u64,
    pub start: u64,
    pub stop: u64,
}

// Column `col` of a node's row: one test where the whole row stands in the table, and `tables::get` where it does not.
pub fn in_row(nodes: &[u64], link: u64, col: usize) -> u64
    requires { col < row_width }
    ensures { result ≡ column nodes.now link col }
{
    let row = link as usize;
    if row < nodes.len() / tables::ROW {
        return nodes[tables::ROW * row + col];
    }
    tables::get(nodes, link, col)
}

// The root of a kind.
pub fn root(nodes: &[u64], kind: u64, end: u64) -> Node
    ensures { result ≡ root_at nodes.now kind end }
{
    Node {
        link: tables::get(nodes, 0, kind as usize),
        min: 0,
        max: end,
    }
}

// Whether there is no node.
pub fn absent(node: Node) -> bool
    ensures { Decides result (Absent node) }
{
    node.link == 0 || node.max <= node.min
}

// The half that has the tick: left if it is below mid. A node of width 1 has none.
#[tactic(auto, unfolding(crate::specs::Walking::half_at))]
pub fn half(nodes: &[u64], node: Node, tick: u64) -> Node
    ensures { result ≡ half_at nodes.now tick node }
{
    let Node { link, min, max } = node;
    if max <= min || max - min <= 1 {
        return Node {
            link: 0,
            min: 0,
            max: 0,
        };
    }
    let mid = min + (max - min) / 2;
    if tick < mid {
        Node {
            link: in_row(nodes, link, tables::node::LEFT),
            min,
            max: mid,
        }
    } else {
        Node {
            link: in_row(nodes, link, tables::node::RIGHT),
            min: mid,
            max,
        }
    }
}
