// The segment trees of blocks, one for each kind, in the lent node and entry tables. Ports segment_tree.rs: building here, finding in crates above.
//
//   build                lives go down, nodes are made, entries are counted; too little room is told
//   close                each node gets its run of the entry table, the blocks fill the runs, and each run is sorted
//   specs/Count          the node table while it is counted, and what adding a life leaves
//   specs/Lives          the lives in the block and piece tables, the trees of all kinds, and the whole count
//   specs/Runs           the runs of entries
//   specs/Fill           the tables while they are filled, and the whole closing
//   proofs/Adding        a life at one node: what the model makes of it
//   proofs/Ways          and on its way down, one step for each turn and each return of the loops of `build`
//   proofs/ByKind        a tree for each kind: one changes, the others stay
//   proofs/WritingDown   a block at one node
//   proofs/WritingWays   and on its way down, for the loops of `close`

#![tactic(auto)]

ghost use Rattle.std.specs.Prelude.{◌≡◌, ◌+◌, ◌<◌, not};
ghost use Rattle.history.specs.Tree.{covers, halves};
ghost use Rattle.segment_tree.specs.Count.{left_half, right_half, half_on, Lasts, meets};
ghost use Rattle.segment_tree.specs.Lives.{block_life, piece_life};

use tables::{node, piece};

pub mod build;
pub mod close;

// The ticks [lo, hi) of a node.
#[derive(Clone, Copy)]
struct Span {
    lo: u64,
    hi: u64,
}

// Where a node hangs: the column of its link in the row of its parent, and its ticks.
#[derive(Clone, Copy)]
struct Place {
    col: usize,
    span: Span,
}

impl Span {
    // A node of one tick has none.
    fn has_halves(self) -> bool
        ensures { result ≡ halves self.lo self.hi }
    {
        self.lo < self.hi && 1 < self.hi - self.lo
    }

    // The left half and the right one.
    fn halves(self) -> (Place, Place)
        requires { self.lo + 1 < self.hi }
        ensures { result ≡ (left_half self, right_half self) }
    {
        let mid = self.lo + (self.hi - self.lo) / 2;
        let left = Place {
            col: node::LEFT,
            span: Span { hi: mid, ..self },
        };
        let right = Place {
            col: node::RIGHT,
            span: Span { lo: mid, ..self },
        };
        (left, right)
    }

    // The half that a life which lasts over that end of the node meets in any case, and the other one.
    fn sides<const TO_END: bool>(self) -> (Place, Place)
        requires { self.lo + 1 < self.hi }
        ensures { result ≡ (half_on TO_END self, half_on (not TO_END) self) }
    {
        let (left, right) = self.halves();
        if TO_END { (right, left) } else { (left, right) }
    }
}

// A life [created, destroyed).
#[derive(Clone, Copy)]
struct Life {
    created: u64,
    destroyed: u64,
}

impl Life {
    fn covers(self, span: Span) -> bool
        ensures { result ≡ covers self.created self.destroyed span.lo span.hi }
    {
        self.created <= span.lo && span.hi <= self.destroyed
    }

    // The same where it lasts over that end: the other end tells.
    fn covers_rest<const TO_END: bool>(self, span: Span) -> bool
        requires { Lasts TO_END span.lo span.hi self }
        ensures { result ≡ covers self.created self.destroyed span.lo span.hi }
    {
        if TO_END {
            self.created <= span.lo
        } else {
            span.hi <= self.destroyed
        }
    }

    // Whether it meets the half that lies away from that end.
    fn meets<const TO_END: bool>(self, half: Span) -> bool
        ensures { result ≡ meets TO_END self half }
    {
        if TO_END {
            self.created < half.hi
        } else {
            half.lo < self.destroyed
        }
    }
}

// A life, and the kind to whose tree it goes.
#[derive(Clone, Copy)]
struct Owned {
    kind: u64,
    life: Life,
}

impl Owned {
    // That of a block.
    fn of_block(blocks: &[u64], link: u64) -> Owned
        ensures { result ≡ block_life blocks.now link }
    {
        let row = block_table::read(blocks, link);
        Owned {
            kind: row.owner,
            life: Life {
                created: row.created,
                destroyed: row.destroyed,
            },
        }
    }

    // That of a piece, which lasts to the end.
    fn of_piece(pieces: &[u64], link: u64, end: u64) -> Owned
        ensures { result ≡ piece_life pieces.now end link }
    {
        Owned {
            kind: tables::get(pieces, link, piece::OWNER),
            life: Life {
                created: tables::get(pieces, link, piece::WRITTEN),
                destroyed: end,
            },
        }
    }
}
