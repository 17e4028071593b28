// Whether the slices that came are those that must come.

// What a lent slice is filled with before a call: where the call must not write, it is still there.
pub const UNTOUCHED: u8 = 165;

// Whether a slice has these numbers, then nothing but the filling.
pub fn is_filled<T: Copy + Into<u64>>(slice: &[T], wanted: &[u8]) -> bool {
    if slice.len() < wanted.len() {
        return false;
    }
    for (i, &number) in slice.iter().enumerate() {
        if number.into() != u64::from(wanted.get(i).copied().unwrap_or(UNTOUCHED)) {
            return false;
        }
    }
    true
}
