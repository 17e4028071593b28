// Installing a calendar or a list of days, whose numbers stand in the pool.
use crate::lent::Tables;
use crate::listed;
use crate::rows::{self, Call, Code, Row};

const START: usize = 2;

const LENGTH: usize = 3;

const COUNT: usize = 4;

// Installs what a row has: a list of days, or a calendar.
pub fn play(t: &mut Tables<'_>, code: Code, call: Call<'_>, told: &mut Row) {
    let mut numbers = [0; listed::MOST];
    let many = rows::at_most(call.get(COUNT), listed::MOST);
    listed::fill(&mut numbers, call.part(START, LENGTH), many);
    let lent = &numbers[..many];
    let pieces = &mut *t.pieces;
    let store = &mut *t.store;
    let nodes = &mut *t.nodes;
    let entries = &mut *t.entries;
    let answer = if code == Code::Days {
        install::install_days(pieces, t.blocks, store, nodes, entries, lent)
    } else {
        install::install_calendar(pieces, t.blocks, store, nodes, entries, lent)
    };
    if let Err(refusal) = answer {
        told.refuse(u64::from(refusal));
    }
}
