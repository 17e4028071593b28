// Touching, next and last of an index. What is lent for an answer must be as it was where the answer does not reach, and after a refusal everywhere.
use crate::lent::Tables;
use crate::rows::{Call, Row};
use crate::{alike, read};
use refusals::Refusal;
use touching::Side;

const CELL: usize = 3;

const FOUND: usize = 4;

const NUMBER: usize = 5;

pub fn touching(t: &Tables<'_>, call: Call<'_>, told: &mut Row) {
    let mut answer = [u64::from(alike::UNTOUCHED); read::ANSWER];
    let room = call.get(read::FIND_ROOM) as usize;
    if read::ANSWER < room {
        told.must(false);
        return;
    }
    let touched = touching::touching(
        t.lent(),
        call.row.kind(),
        call.get(read::TICK),
        call.get(read::START),
        call.get(read::END),
        &mut answer[..room],
    );
    match touched {
        Ok(count) => told.tell(read::FIND_COUNT, count),
        Err(refusal) => told.refuse(u64::from(refusal)),
    }
    told.must(alike::is_filled(&answer, call.part(read::FIND_LISTED, read::FIND_COUNT)));
}

fn tell_nearest(told: &mut Row, nearest: Result<Option<u64>, Refusal>) {
    match nearest {
        Ok(Some(number)) => {
            told.tell(FOUND, 1);
            told.tell(NUMBER, number);
        }
        Ok(None) => {
            told.tell(FOUND, 0);
            told.tell(NUMBER, 0);
        }
        Err(refusal) => told.refuse(u64::from(refusal)),
    }
}

pub fn near(t: &Tables<'_>, side: Side, call: Call<'_>, told: &mut Row) {
    let (tick, cell) = (call.get(read::TICK), call.get(CELL));
    let nearest = touching::near(t.lent(), side, call.row.kind(), tick, cell);
    tell_nearest(told, nearest);
}
