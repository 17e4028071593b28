// The columns of a node's row, and of the head, which is the row of link 0: the root of kind k stands in its column k.
pub const MIN: usize = 0;

pub const MAX: usize = 1;

pub const LEFT: usize = 2;

pub const RIGHT: usize = 3;
// The first row of the node's run of entries, and how many there are.
pub const FIRST: usize = 4;

pub const ENTRIES: usize = 5;

pub const KIND: usize = 6;

pub const COUNT: usize = 5;

// Numbers in the head.
pub const HEAD: usize = 8;
