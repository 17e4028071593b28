// What the programs that try the crates have in common: what they count, the line that they print, and a place in their data.
//
//   specs/Counts     what a tally holds after each thing that is counted
//   specs/Lines      what is printed of it
//   proofs/Putting   the text of a line, put part after part

#![tactic(auto)]

ghost use Rattle.std.specs.Prelude.{◌≡◌, ◌≢◌, true, false, length};
ghost use Rattle.lists.specs.Puts.{Put, behind};
ghost use Rattle.board_text.specs.Wrote.{Wrote};
ghost use Rattle.tally.specs.Lines.{count_text};

use board_text::Output;
use std::io::Print;

// Bytes lent for a line: none that the programs print is longer.
pub const LINE: usize = 128;

// Answers compared, those that differ, and calls or tables refused.
#[derive(Clone, Copy, Debug, Default, PartialEq, Eq)]
pub struct Tally {
    pub compared: u64,
    pub differ: u64,
    pub refused: u64,
}

impl Tally {
    ghost use Rattle.tally.specs.Counts.{with_answer, with_refused, with_refusal};
    ghost use Rattle.tally.specs.Lines.{tally_line};

    pub fn compare(&mut self, alike: bool)
        ensures { self.new ≡ with_answer self.old alike }
    {
        self.compared = self.compared.saturating_add(1);
        if !alike {
            self.differ = self.differ.saturating_add(1);
        }
    }

    pub fn refuse(&mut self)
        ensures { self.new ≡ with_refused self.old }
    {
        self.refused = self.refused.saturating_add(1);
    }

    // Compares the number of a refusal, which is none where the call is accepted.
    pub fn compare_answer(&mut self, told: Option<u64>, wanted: Option<u64>)
        ensures alike { told ≡ wanted → self.new ≡ with_refusal (with_answer self.old true) told }
        ensures differs { told ≢ wanted → self.new ≡ with_refusal (with_answer self.old false) told }
    {
        self.compare(told == wanted);
        if told.is_some() {
            self.refuse();
        }
    }

    // Puts how many were compared, how many of them differ, and how many were refused.
    fn put_line(&self, line: &mut Output<'_>, words: &[u8])
        ensures { Wrote line.old (tally_line self.now words.now) line.new }
    {
        put_count(line, self.compared, b" compared, ");
        put_count(line, self.differ, b" differ, ");
        put_count(line, self.refused, words);
        line.put(b'\n');
    }

    // Prints these counts. No contract can say what is written, so it says what is put into the lent line, of which the part up to the answer is written.
    pub fn print<W: Print>(&self, out: &W, line: &mut [u8], words: &[u8]) -> usize
        ensures { Put line.old 0 (tally_line self.now words.now) line.new result }
    {
        let mut put = Output {
            buffer: line,
            at: 0,
        };
        self.put_line(&mut put, words);
        let many = put.at;
        let _is_written = out.write_all(&line[..many]).is_ok();
        many
    }
}

// Puts a count, then words.
fn put_count(line: &mut Output<'_>, count: u64, words: &[u8])
    ensures { Wrote line.old (count_text count words.now) line.new }
{
    line.decimal(count);
    line.text(words);
}

// Prints a count, then words, in the same way.
pub fn print_count<W: Print>(out: &W, line: &mut [u8], count: u64, words: &[u8]) -> usize
    ensures { Put line.old 0 (count_text count words.now) line.new result }
{
    let mut put = Output {
        buffer: line,
        at: 0,
    };
    put_count(&mut put, count, words);
    let many = put.at;
    let _is_written = out.write_all(&line[..many]).is_ok();
    many
}

// The place so many bytes further on, no further than the end.
pub fn skip(bytes: &[u8], at: usize, many: u64) -> usize
    ensures { result ≡ behind (length bytes.now) at many }
{
    at.saturating_add(many as usize).min(bytes.len()).max(at)
}
