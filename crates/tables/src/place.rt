// Places: a kind, and a cell of it. A place does not fit 64 bits, so code compares pairs, and does so here alone.
ghost use Rattle.tables.specs.Places.{PlaceBelow};

// Whether the place of a kind's cell is below another: by kind, then by cell.
#[tactic(auto, using(crate::proofs::Places::placing))]
pub fn below(kind: u64, cell: u64, other: u64, limit: u64) -> bool
    ensures { PlaceBelow kind cell other limit result }
{
    if kind == other {
        return cell < limit;
    }
    kind < other
}
