// A node's place in the tree, and the lives that cover it.
ghost use Rattle.std.specs.Prelude.{◌≡◌, ◌≤◌};
ghost use Rattle.history.specs.Tree.{covers};
ghost use Rattle.segment_test.specs.Parts.{covers_above};

// The node [min, max) of a kind, and the node above, which is [from, to); an empty interval stands for none, above the root.
#[derive(Clone, Copy)]
pub struct Place {
    pub kind: u64,
    pub min: u64,
    pub max: u64,
    pub from: u64,
    pub to: u64,
    ghost order: { min ≤ max },
}

impl Place {
    // Whether a life covers the node. Constant time.
    pub fn is_covered(self, created: u64, destroyed: u64) -> bool
        ensures { result ≡ covers created destroyed self.min self.max }
    {
        created <= self.min && self.max <= destroyed
    }

    // Whether a life covers the node above. Constant time.
    pub fn is_covered_above(self, created: u64, destroyed: u64) -> bool
        ensures { result ≡ covers_above created destroyed self.from self.to }
    {
        self.from < self.to && created <= self.from && self.to <= destroyed
    }
}
