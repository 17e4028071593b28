// Numbers that stand in the pool as they stand in a row, one behind the other.
use crate::input::Reader;

// The most that tools/stored.py may lend.
pub const MOST: usize = 1300;

// Reads so many.
pub fn fill(numbers: &mut [u64; MOST], part: &[u8], many: usize) {
    let mut list = Reader::new(part);
    for number in numbers.iter_mut().take(many) {
        *number = list.number();
    }
}
