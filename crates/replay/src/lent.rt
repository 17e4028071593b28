// The tables that a call is lent, and what it finds and leaves there: garbage at first, the same after a refusal, or zeros.

// What stands in the tables and in the store when a case starts: not an index.
const GARBAGE: u64 = 11936128518282651045;

const GARBAGE_BYTE: u8 = 165;

// The first and last refusal of a file for its contents, after which the tables hold zeros; every other one leaves them.
const ZEROED: u64 = 21;

const LAST_ZEROED: u64 = 24;

#[derive(Drop)]
pub struct Tables<'a> {
    pub pieces: &'a mut [u64],
    pub blocks: &'a mut [u64],
    pub store: &'a mut [u8],
    pub nodes: &'a mut [u64],
    pub entries: &'a mut [u64],
}

impl Tables<'_> {
    // For a call that reads them.
    pub fn lent(&self) -> layout::Tables<'_> {
        layout::Tables {
            pieces: self.pieces,
            blocks: self.blocks,
            store: self.store,
            nodes: self.nodes,
            entries: self.entries,
        }
    }

    pub fn spoil(&mut self) {
        self.pieces.fill(GARBAGE);
        self.blocks.fill(GARBAGE);
        self.store.fill(GARBAGE_BYTE);
        self.nodes.fill(GARBAGE);
        self.entries.fill(GARBAGE);
    }

    // Whether all tables hold zeros.
    fn are_zero(&self) -> bool {
        tables::all_zero(self.pieces)
            && tables::all_zero(self.blocks)
            && self.store.iter().all(|&byte| byte == 0)
            && tables::all_zero(self.nodes)
            && tables::all_zero(self.entries)
    }

    // A sum over all tables: after a refused call it must be what it was.
    pub fn sum(&self) -> u64 {
        let up_to_pieces = sum_of(self.pieces, 1);
        let up_to_blocks = sum_of(self.blocks, up_to_pieces);
        let up_to_store = sum_of(self.store, up_to_blocks);
        let up_to_nodes = sum_of(self.nodes, up_to_store);
        sum_of(self.entries, up_to_nodes)
    }

    // Whether the tables are left as they must be after a call: as the sum before says where it was refused, zeros where a file was refused for its contents.
    pub fn are_left(&self, before: u64, refusal: u64) -> bool {
        match refusal {
            0 => true,
            ZEROED..=LAST_ZEROED => self.are_zero(),
            _ => self.sum() == before,
        }
    }
}

// Numbers into a sum in which each place counts: nine times the sum so far, and the number.
fn sum_of<T: Copy + Into<u64>>(numbers: &[T], from: u64) -> u64 {
    let mut sum = from;
    for &number in numbers {
        sum = sum.wrapping_add(sum << 3) ^ number.into();
    }
    sum
}
