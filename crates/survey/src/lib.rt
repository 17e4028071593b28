// The survey of an operation: what record asks before it changes anything. It reads only, and goes on from piece to piece, mostly without a new way down.
//
//   specs/Survey      what each function ensures
//   proofs/Holding    which bytes the pieces hold for a cell
//   proofs/Changing   the first change, from one piece to the next
//   proofs/Weighing   pieces, blocks and rests as sums over the pieces
//   proofs/Matching   one step for each return, of what compares
//   proofs/Surveying  and of the rest
//   proofs/Telling    what is told is what the ledger says

#![tactic(auto)]

ghost use Rattle.survey.specs.Survey.{HeldBytes, RestsOf, Made, Surveyed};

use piece_table::{Found, Piece};
use tables::piece;

// What an operation meets: how many of its leading cells the pieces hold with its bytes, how many pieces there would be after an update, and how many
// blocks it records. `near` is a guess for the update: the link of the lowest piece that is met.
#[derive(Clone, Copy)]
pub struct Report {
    pub same: u64,
    pub pieces: u64,
    pub blocks: u64,
    pub near: u64,
}

// How far a survey has come: the cells of the operation's kind below `place` are looked at; so many leading cells are held with their bytes, all below `place`,
// or up to a change; so many pieces are met, `low` is the link of the lowest of them, and they leave so many rests.
#[derive(Clone, Copy, Default)]
struct Seen {
    place: u64,
    same: u64,
    met: u64,
    rests: u64,
    low: u64,
}

impl Seen {
    // The numbers of a survey of so many pieces.
    fn report(self, count: u64) -> Report
        ensures { Made count self.met self.rests self.same result }
    {
        let left = count.saturating_sub(self.met);
        Report {
            same: self.same,
            pieces: left.saturating_add(self.rests).saturating_add(1),
            blocks: self.met,
            near: self.low,
        }
    }
}

// How many leading cells are held with their bytes, once the lowest piece that ends after `place` is looked at too, which is of the operation's kind.
#[tactic(auto, using(crate::proofs::Matching::holding))]
fn held_bytes(store: &[u8], kind: u64, first: u64, bytes: &[u8], piece: Piece, seen: Seen) -> u64
    ensures { HeldBytes store.now bytes.now piece kind first seen.place seen.same result }
{
    if seen.place < first || seen.place - first != seen.same {
        return seen.same;
    }
    if seen.place < piece.first {
        return seen.same;
    }
    match comparison::first_difference(store, piece, kind, first, bytes) {
        Some(cell) => cell.saturating_sub(first),
        None => piece.end().saturating_sub(first).min(bytes.len() as u64),
    }
}

// How many rests a piece [was, next) that meets [first, end) leaves.
#[tactic(auto, using(crate::proofs::Surveying::rests_told))]
fn rests_of(was: u64, next: u64, first: u64, end: u64) -> u64
    ensures { RestsOf was next first end result }
{
    u64::from(was < first) + u64::from(end < next)
}

// Surveys an operation of a kind. Each turn looks at the lowest piece that ends after the place, mostly without a way down from the root: the search before it
// has left guesses. The place rises, so that it ends on any table.
// No `for` goes over the pieces: the next place is where one ends.
#[tactic(auto, using(crate::proofs::Surveying::survey_start))]
pub fn survey(pieces: &[u64], store: &[u8], kind: u64, first: u64, bytes: &[u8]) -> Report
    ensures { Surveyed pieces.now store.now kind first bytes.now result }
{
    let count = tables::get(pieces, 0, piece::COUNT);
    let end = first.saturating_add(bytes.len() as u64);
    let mut guess = Found { link: 0, after: 0 };
    let mut seen = Seen {
        place: first,
        ..Seen::default()
    };
    while seen.place < end {
        let Some(found) = piece_table::search_next(
            pieces,
            kind,
            seen.place,
            guess.link,
            guess.after,
        ) else {
            break;
        };
        guess = found;
        let link = found.link;
        if !merge_set::starts_below(pieces, link, kind, end) {
            break;
        }
        let piece = piece_table::read(pieces, link);
        let next = piece.end();
        if next <= seen.place {
            break;
        }
        let rests = rests_of(piece.first, next, first, end);
        let low = if seen.met == 0 { link } else { seen.low };
        seen = Seen {
            place: next,
            same: held_bytes(store, kind, first, bytes, piece, seen),
            met: seen.met.saturating_add(1),
            rests: seen.rests.saturating_add(rests),
            low,
        };
    }
    seen.report(count)
}
