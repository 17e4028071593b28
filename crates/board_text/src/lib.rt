// The lines that the program `board` prints. Each method of `Output` puts its text into the lent buffer behind what was put before, as far as the buffer
// goes, and moves the place behind it; past the buffer's end nothing is put and the place stays.
//
// A block's line may be longer than a buffer: `block_front`, `hex` of its bytes part after part, and a newline are its line.
//
//   specs/Wrote            what a method puts
//   specs/Line             a block's line in parts
//   proofs/Digits, Lines   the returns and loops, and lines in parts

#![tactic(auto)]

ghost use Rattle.std.specs.Prelude.{◌≡◌, ◌<◌};
ghost use Rattle.history.specs.Printed.{digit as Printed·digit, hex_digit};
ghost use Rattle.board_text.specs.Line.{LawOfLines};

// No number of 64 bits has more digits.
const DIGITS: usize = 20;
// No front of a block's line is longer: four numbers, the label, and a space behind each.
pub const FRONT: usize = 4 * (DIGITS + 1) + 5;

const SPACE: u8 = b' ';

const NEWLINE: u8 = b'\n';

// What is printed, put into a lent buffer: the next text stands at `at`.
#[derive(Drop)]
pub struct Output<'a> {
    pub buffer: &'a mut [u8],
    pub at: usize,
}

fn digit(d: u64) -> u8
    requires { d < 10 }
    ensures { result ≡ Printed·digit d }
{
    b'0' + d as u8
}

#[tactic(auto, using(crate::proofs::Digits::hex_low, crate::proofs::Digits::hex_high))]
fn hex_digit(d: u8) -> u8
    requires { d < 16 }
    ensures { result ≡ hex_digit d }
{
    if d < 10 { b'0' + d } else { b'a' + (d - 10) }
}

// Each method's contract says that the buffer is still the lent one, as each call of it must know.
impl Output<'_> {
    ghost use Rattle.std.specs.Prelude.{[], ◌∷◌, ◌++◌};
    ghost use Rattle.history.specs.Reads.{clock_label};
    ghost use Rattle.history.specs.Printed.{decimal as Printed·decimal, four_digits, hex_bytes, newline, space};
    ghost use Rattle.history.specs.Printed.{header_text, bad_record_text, open_text, op_text, finish_text, refused_text, refused_line};
    ghost use Rattle.board_text.specs.Line.{block_front, block_line_of};
    ghost use Rattle.board_text.specs.Wrote.{Wrote};

    // ── characters ──

    // One character.
    #[tactic(auto, using(lists::proofs::Puts::put_past))]
    pub fn put(&mut self, character: u8)
        ensures { Wrote self.old (character ∷ []) self.new }
    {
        if self.at < self.buffer.len() {
            self.buffer[self.at] = character;
            self.at += 1;
        }
    }

    // Characters one after the other.
    pub fn text(&mut self, characters: &[u8])
        ensures { Wrote self.old characters.now self.new }
    {
        let behind = self.at.saturating_add(characters.len());
        tables::copy_in(self.buffer, self.at, characters);
        self.at = behind.min(self.buffer.len()).max(self.at);
    }

    // ── numbers ──

    // A number in decimal. Its digits are spelled from the last to the first.
    // How many there are shows when the last turn is done, so no `for` counts them.
    #[tactic(auto, using(crate::proofs::Digits::spelling_none, crate::proofs::Digits::spelling_room))]
    pub fn decimal(&mut self, n: u64)
        ensures { Wrote self.old (Printed·decimal n []) self.new }
    {
        let mut digits = [0u8; DIGITS];
        let mut start = DIGITS - 1;
        let mut rest = n;
        while 10 <= rest {
            digits[start] = digit(rest % 10);
            rest /= 10;
            start -= 1;
        }
        digits[start] = digit(rest);
        self.text(&digits[start..]);
    }

    // A byte in hexadecimal.
    fn hex_byte(&mut self, byte: u8)
        ensures { Wrote self.old (hex_bytes (byte ∷ []) []) self.new }
    {
        self.put(hex_digit(byte / 16));
        self.put(hex_digit(byte % 16));
    }

    // Bytes in lower-case hexadecimal.
    #[tactic(auto, using(crate::proofs::Lines::hex_all))]
    pub fn hex(&mut self, bytes: &[u8])
        ensures { Wrote self.old (hex_bytes bytes.now []) self.new }
    {
        for &byte in bytes {
            self.hex_byte(byte);
        }
    }

    // The clock label of a cell, in four digits; no day is listed.
    fn label(&mut self, cell: u64)
        ensures { Wrote self.old (four_digits (clock_label [] cell) []) self.new }
    {
        let n = days::cell_label(&[], cell);
        let digits = [
            digit(n / 1000 % 10),
            digit(n / 100 % 10),
            digit(n / 10 % 10),
            digit(n % 10),
        ];
        self.text(&digits);
    }

    // ── lines ──
    // A method for each line or part of a line that the program prints: some differ in a word alone.

    // A number and a space.
    fn field(&mut self, n: u64)
        ensures { Wrote self.old (Printed·decimal n (space ∷ [])) self.new }
    {
        self.decimal(n);
        self.put(SPACE);
    }

    // A number and the end of the line.
    fn last_field(&mut self, n: u64)
        ensures { Wrote self.old (Printed·decimal n (newline ∷ [])) self.new }
    {
        self.decimal(n);
        self.put(NEWLINE);
    }

    // A block's line up to the hexadecimal.
    pub fn block_front(&mut self, first: u64, length: u64, created: u64, destroyed: u64)
        ensures { Wrote self.old (block_front first length created destroyed) self.new }
    {
        self.field(first);
        self.field(length);
        self.field(created);
        self.field(destroyed);
        self.label(first);
        self.put(SPACE);
    }

    // A block's line.
    pub fn block_line(&mut self, first: u64, created: u64, destroyed: u64, bytes: &[u8])
        ensures { Wrote self.old (block_line_of first created destroyed bytes.now) self.new }
    {
        self.block_front(first, bytes.len() as u64, created, destroyed);
        self.hex(bytes);
        self.put(NEWLINE);
    }

    // The line of names above the blocks.
    pub fn header(&mut self)
        ensures { Wrote self.old (header_text ++ (newline ∷ [])) self.new }
    {
        self.text(b"cell n from to clock bytes\n");
    }

    // `bad record K`.
    pub fn bad_record(&mut self, k: u64)
        ensures { Wrote self.old (bad_record_text ++ Printed·decimal k (newline ∷ [])) self.new }
    {
        self.text(b"bad record ");
        self.last_field(k);
    }

    // What follows the name of a refused call.
    fn refused(&mut self, number: u64)
        ensures { Wrote self.old (refused_text ++ Printed·decimal number (newline ∷ [])) self.new }
    {
        self.text(b" refused ");
        self.last_field(number);
    }

    // `open refused N`.
    pub fn open_refused(&mut self, number: u64)
        ensures { Wrote self.old (refused_line open_text number) self.new }
    {
        self.text(b"open");
        self.refused(number);
    }

    // `op K refused N`.
    pub fn op_refused(&mut self, k: u64, number: u64)
        ensures { Wrote self.old (refused_line (op_text ++ Printed·decimal k []) number) self.new }
    {
        self.text(b"op ");
        self.decimal(k);
        self.refused(number);
    }

    // `finish refused N`.
    pub fn finish_refused(&mut self, number: u64)
        ensures { Wrote self.old (refused_line finish_text number) self.new }
    {
        self.text(b"finish");
        self.refused(number);
    }
}

// A block's line is its parts, as part of the build.
#[tactic(auto, using(crate::proofs::Lines::law_of_lines))]
pub fn law_of_lines()
    ensures { LawOfLines }
{}
