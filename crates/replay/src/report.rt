// Reports on an index, of windows whose numbers stand in the pool.
use crate::lent::Tables;
use crate::rows::{self, Call, Row};
use crate::{listed, read};

const START: usize = 3;

const LENGTH: usize = 4;

const COUNT: usize = 5;

const OCCUPIED: usize = 6;

const CELLS: usize = 7;

const TENTHS: usize = 8;

pub fn occupation(t: &Tables<'_>, call: Call<'_>, told: &mut Row) {
    let mut numbers = [0; listed::MOST];
    let many = rows::at_most(call.get(COUNT), listed::MOST);
    listed::fill(&mut numbers, call.part(START, LENGTH), many);
    let tick = call.get(read::TICK);
    let windows = &numbers[..many];
    match reports::occupation(t.lent(), call.row.kind(), tick, windows) {
        Ok(report) => {
            told.tell(OCCUPIED, report.fraction.part);
            told.tell(CELLS, report.fraction.whole);
            told.tell(TENTHS, report.tenths);
        }
        Err(refusal) => told.refuse(u64::from(refusal)),
    }
}
