// A row of the stored list (tools/stored.py): sixteen numbers, of which the first two are the same for all. Each call names its others beside it:
// arguments, then what must come. What came is told in a copy of the row, which is then the same.
ghost use Rattle.std.specs.Prelude.{◌≤◌};

pub const COLUMNS: usize = 16;

// What the row is.
pub const CODE: usize = 0;

// The number of the refusal that must come, 0 where the call is taken.
pub const REFUSAL: usize = 1;

// The kind that a record or a read of cells names.
const KIND: usize = 9;

// The lengths of what is lent, in a row that opens, loads or lends.
pub const PIECES: usize = 10;

pub const SCRATCH: usize = 11;

pub const BLOCKS: usize = 12;

pub const STORE: usize = 13;

pub const NODES: usize = 14;

pub const ENTRIES: usize = 15;

// The end of the list; a case of the oracle's list, a case of our own; the calls; another scratch; a file damaged at each place of a run.
#[derive(Clone, Copy, Debug, PartialEq, Eq)]
pub enum Code {
    End,
    Case,
    Own,
    Open,
    Record,
    Finish,
    Block,
    Find,
    Cells,
    Write,
    Load,
    Clock,
    Lend,
    Damaged,
    Touching,
    Next,
    Last,
    Calendar,
    Days,
    Occupation,
}

// A number that is no code.
#[derive(Clone, Copy, Debug, PartialEq, Eq)]
pub struct NoCode;

impl TryFrom<u64> for Code {
    type Error = NoCode;

    fn try_from(number: u64) -> Result<Code, NoCode> {
        let code = match number {
            0 => Code::End,
            1 => Code::Case,
            2 => Code::Own,
            3 => Code::Open,
            4 => Code::Record,
            5 => Code::Finish,
            6 => Code::Block,
            7 => Code::Find,
            8 => Code::Cells,
            9 => Code::Write,
            10 => Code::Load,
            11 => Code::Clock,
            12 => Code::Lend,
            13 => Code::Damaged,
            14 => Code::Touching,
            15 => Code::Next,
            16 => Code::Last,
            17 => Code::Calendar,
            18 => Code::Days,
            19 => Code::Occupation,
            _ => return Err(NoCode),
        };
        Ok(code)
    }
}

#[derive(Clone, Copy, Debug, PartialEq, Eq)]
pub struct Row {
    columns: [u64; COLUMNS],
}

impl Row {
    pub fn zeros() -> Row {
        Row {
            columns: [0; COLUMNS],
        }
    }

    pub fn code(&self) -> Result<Code, NoCode> {
        Code::try_from(self.get(CODE))
    }

    pub fn get(&self, col: usize) -> u64 {
        self.columns.get(col).copied().unwrap_or(0)
    }

    // The kind of a call.
    pub fn kind(&self) -> u8 {
        (self.get(KIND) % 256) as u8
    }

    // What is told before a call: the row as if the call were taken.
    pub fn taken(&self) -> Row {
        let mut told = *self;
        told.tell(REFUSAL, 0);
        told
    }

    // Tells what came in a column.
    pub fn tell(&mut self, col: usize, value: u64) {
        if col < COLUMNS {
            self.columns[col] = value;
        }
    }

    pub fn refuse(&mut self, number: u64) {
        self.tell(REFUSAL, number);
    }

    // Tells what no column can say: where it is not so, the row is another.
    pub fn must(&mut self, so: bool) {
        if !so {
            self.tell(CODE, 0);
        }
    }
}

// A call: its row, and the pool, which has its bytes.
#[derive(Clone, Copy)]
pub struct Call<'a> {
    pub row: &'a Row,
    pub pool: &'a [u8],
}

impl<'a> Call<'a> {
    pub fn get(&self, col: usize) -> u64 {
        self.row.get(col)
    }

    // The part of the pool whose start and length stand in two columns.
    pub fn part(&self, start: usize, length: usize) -> &'a [u8] {
        tables::part(self.pool, self.get(start), self.get(length))
    }
}

// A length that is lent, at most that of what there is.
pub fn at_most(wanted: u64, most: usize) -> usize
    ensures { result ≤ most }
{
    (wanted as usize).min(most)
}
