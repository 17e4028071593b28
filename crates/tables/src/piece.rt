// The columns of a piece's row, and of the head, which is the row of link 0.
pub const FIRST: usize = 0;

pub const LENGTH: usize = 1;

pub const WRITTEN: usize = 2;

pub const OFFSET: usize = 3;

pub const LEFT: usize = 4;

pub const RIGHT: usize = 5;

pub const DEPTH: usize = 6;
// The kind of the piece.
pub const OWNER: usize = 7;

pub const ROOT: usize = 0;

pub const COUNT: usize = 1;

// Numbers in the head.
pub const HEAD: usize = 8;
