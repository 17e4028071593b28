// The stored list as it is read. Every read is total: past the end stand zeros, and a row of zeros ends the list.
use crate::rows::{COLUMNS, Row};

// A byte below this is a number; one of LONG + k stands in front of a number of k + 1 bytes, the highest first.
const LONG: u64 = 248;

const BASE: u64 = 256;

// What lies above this is pushed out by another byte.
const UPPER: u64 = 1 << 56;

// The bytes that are still to be read.
#[derive(Drop)]
pub struct Reader<'a> {
    left: &'a [u8],
}

impl<'a> Reader<'a> {
    pub fn new(left: &'a [u8]) -> Reader<'a> {
        Reader { left }
    }

    fn byte(&mut self) -> u8 {
        let Some((&byte, left)) = self.left.split_first() else {
            return 0;
        };
        self.left = left;
        byte
    }

    pub fn number(&mut self) -> u64 {
        let lead = u64::from(self.byte());
        if lead < LONG {
            return lead;
        }
        let mut value = 0;
        for _ in 0..lead - LONG + 1 {
            value = value % UPPER * BASE + u64::from(self.byte());
        }
        value
    }

    // So many bytes, which are none where there are not so many.
    pub fn part(&mut self, many: u64) -> &'a [u8] {
        let part = tables::part(self.left, 0, many);
        self.left = &self.left[tally::skip(self.left, 0, many)..];
        part
    }

    // A row: how many numbers it has, and these.
    pub fn row(&mut self) -> Row {
        let mut row = Row::zeros();
        let many = self.number();
        for col in 0..COLUMNS {
            if (col as u64) < many {
                row.tell(col, self.number());
            }
        }
        row
    }
}
