// The tables under test, and numbers of rows that are known to lie in them: reads without a test.
ghost use Rattle.std.specs.Prelude.{◌≡◌, ◌+◌, ◌*◌, ◌<◌, ◌≤◌, length};
ghost use Rattle.history.specs.Lent.{row_width, entry_width, block_head, node_head, entry_head};
ghost use Rattle.tables.specs.Columns.{column, block_column, entry_column};
ghost use Rattle.segment_table.specs.Closed.{nodes_used, entries_used};

// The lent tables, of n blocks, when their heads are tested: all counts lie inside.
// The three slices stand here, not a Closed: in a struct within one, the check did not find that row numbers are in range.
#[derive(Clone, Copy)]
pub struct Tested<'a> {
    pub blocks: &'a [u64],
    pub nodes: &'a [u64],
    pub entries: &'a [u64],
    pub n: u64,
    ghost block_room: { block_head + row_width * n ≤ length blocks.now },
    ghost node_room: { node_head + row_width * nodes_used nodes.now ≤ length nodes.now },
    ghost entry_room: { entry_head + entry_width * entries_used entries.now ≤ length entries.now },
}

impl Tested<'_> {
    // Column `col` of block k, whose link is k + 1.
    pub fn block(&self, k: u64, col: usize) -> u64
        requires known { k < self.now.n }
        requires in_row { col < row_width }
        ensures { result ≡ block_column self.now.blocks.now (k + 1) col }
    {
        self.blocks[tables::block::HEAD + (tables::ROW * (k as usize) + col)]
    }

    // Column `col` of the row of a node.
    pub fn node(&self, link: u64, col: usize) -> u64
        requires used { link ≤ nodes_used self.now.nodes.now }
        requires in_row { col < row_width }
        ensures { result ≡ column self.now.nodes.now link col }
    {
        self.nodes[tables::ROW * (link as usize) + col]
    }

    // How many nodes there are.
    pub fn used(&self) -> u64
        ensures { result ≡ nodes_used self.now.nodes.now }
    {
        self.node(0, tables::node::COUNT)
    }

    // Column `col` of an entry row.
    pub fn entry(&self, row: u64, col: usize) -> u64
        requires { entry_head + (entry_width * row + col) < length self.now.entries.now }
        ensures { result ≡ entry_column self.now.entries.now row col }
    {
        self.entries[tables::entry::HEAD + (tables::entry::WIDTH * (row as usize) + col)]
    }
}
