// H1 of apart_laws along the rows of a block table: no two blocks with a life that are destroyed at one tick share a cell. In recorded order destroyed
// ticks rise, and what one update destroys ascends; so each row is held against the one end that the rows of its tick and kind have reached. Where a tick
// has several updates of a kind, a row is held against the rows of its tick one by one.
//
//   specs/Rows       what a row says, and which cells it has
//   specs/Turns      H1, how far each kind has got, the rows of the last tick, and what the test says
//   proofs/Topping   the ends that the kinds have reached
//   proofs/Turning   a row more: one step for each turn, and for each return of `with`

#![tactic(auto)]

ghost use Rattle.std.specs.Prelude.{IfSome};
ghost use Rattle.ends_apart.specs.Turns.{Parted, ClearBack, SeenApart};

use block_table::Row;

// How many rows of its tick a row is held against.
const MANY: u64 = 64;

// Whether the row has no life or shares no cell with the other.
fn parted(row: Row, own: Row) -> bool
    ensures { Parted row own result }
{
    !row.lives() || row.owner != own.owner || row.ends_by(own.first) || own.ends_by(row.first)
}

// Whether each of the rows above `low` up to k is parted from the other; of many nothing is said.
fn clear_back(blocks: &[u64], low: u64, k: u64, own: Row) -> bool
    ensures { ClearBack blocks.now low k own result }
{
    if MANY < k.saturating_sub(low) {
        return false;
    }
    (low..k).all(|i| parted(block_table::read(blocks, i + 1), own))
}

// The end that each kind has reached.
#[derive(Clone, Copy, Default)]
struct Tops {
    constant: u64,
    memory: u64,
    register: u64,
    unique: u64,
    other: u64,
}

impl Tops {
    ghost use Rattle.ends_apart.specs.Turns.{TopOf, Raised, Pushed};

    // That of a kind; kinds above 4, which no sound table has, count as the last.
    #[tactic(auto, using(crate::proofs::Topping::topping))]
    fn top_of(self, kind: u64) -> u64
        ensures { TopOf self kind result }
    {
        match kind {
            0 => self.constant,
            1 => self.memory,
            2 => self.register,
            3 => self.unique,
            _ => self.other,
        }
    }

    // With another end for a kind.
    #[tactic(auto, using(crate::proofs::Topping::topping))]
    fn raised(self, kind: u64, end: u64) -> Tops
        ensures { Raised self kind end result }
    {
        match kind {
            0 => Tops {
                constant: end,
                ..self
            },
            1 => Tops {
                memory: end,
                ..self
            },
            2 => Tops {
                register: end,
                ..self
            },
            3 => Tops {
                unique: end,
                ..self
            },
            _ => Tops { other: end, ..self },
        }
    }

    // With the end for a kind, where that is higher.
    fn pushed(self, kind: u64, end: u64) -> Tops
        ensures { Pushed self kind end result }
    {
        self.raised(kind, self.top_of(kind).max(end))
    }
}

// The rows of the last tick that was met: those above `low`, none of which ends after the top of its kind.
#[derive(Clone, Copy, Default)]
struct Run {
    tick: u64,
    tops: Tops,
    low: u64,
}

impl Run {
    ghost use Rattle.ends_apart.specs.Turns.{Follows, Continues};

    // Whether the rows of the run up to k share no cell with the other.
    fn clear_of(self, blocks: &[u64], k: u64, own: Row) -> bool
        ensures { Follows blocks.now self k own result }
    {
        self.tops.top_of(own.owner) <= own.first || clear_back(blocks, self.low, k, own)
    }

    // The last run with the row behind k, or none where that may share a cell with a row of its tick.
    #[tactic(auto, using(crate::proofs::Turning::going))]
    fn with(self, blocks: &[u64], k: u64, row: Row) -> Option<Run>
        ensures { IfSome result (Continues blocks.now self k row) }
    {
        if !row.lives() {
            return Some(self);
        }
        let end = row.end();
        if self.tick < row.destroyed {
            return Some(Run {
                tick: row.destroyed,
                tops: Tops::default().pushed(row.owner, end),
                low: k,
            });
        }
        if row.destroyed < self.tick || !self.clear_of(blocks, k, row) {
            return None;
        }
        Some(Run {
            tops: self.tops.pushed(row.owner, end),
            ..self
        })
    }
}

// Whether the rows 1 to n are seen to have H1; if not, nothing is said. Linear. To be called only where the table has n rows.
#[tactic(auto, using(crate::proofs::Turning::turning))]
pub fn ends_apart(blocks: &[u64], n: u64) -> bool
    ensures { SeenApart blocks.now n result }
{
    let mut run = Run::default();
    for k in 0..n {
        let row = block_table::read(blocks, k + 1);
        let Some(next) = run.with(blocks, k, row) else {
            return false;
        };
        run = next;
    }
    true
}
