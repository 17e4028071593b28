// Fields of a file: a byte, a number of eight bytes, little-endian, or so many bytes. Reads and writes are total: a read that the file's end cuts gives
// none, and what is written past the end of a slice changes nothing.
//
//   Reader                   a file from a position on   proofs/Reading
//   write                    the same fields, written    proofs/Writing
//   specs/Fields             what a read gives, and where it leaves its reader, in the words of `history`; proofs/Moving: one read after another

#![tactic(auto)]

ghost use Rattle.std.specs.Prelude.{◌≡◌, ◌<◌, ◌^◌, IfNone};
ghost use Rattle.history.specs.File.{number, field};
ghost use Rattle.fields.specs.Fields.{Moves, read_of};

pub mod write;

// Bytes in a number.
pub const WIDTH: usize = 8;

// A file from a position on. A read gives what stands there and moves behind it; one that the file's end cuts gives none and stays.
#[derive(Clone, Copy)]
pub struct Reader<'a> {
    pub file: &'a [u8],
    pub at: usize,
}

impl<'a> Reader<'a> {
    // A byte.
    #[tactic(auto, using(crate::proofs::Reading::reading))]
    pub fn byte(&mut self) -> Option<u64>
        ensures given { Moves (number 1) (read_of (λ n. n) result) self.old self.new }
        ensures stays { IfNone result (self.new ≡ self.old) }
        ensures within { self.new.at < 2 ^ 64 }
    {
        let byte = *self.file.get(self.at)?;
        self.at += 1;
        Some(u64::from(byte))
    }

    // A number.
    #[tactic(auto, using(crate::proofs::Reading::reading))]
    pub fn number(&mut self) -> Option<u64>
        ensures given { Moves (number 8) (read_of (λ n. n) result) self.old self.new }
        ensures stays { IfNone result (self.new ≡ self.old) }
        ensures within { self.new.at < 2 ^ 64 }
    {
        let next = self.at.checked_add(WIDTH)?;
        let bytes = <[u8; WIDTH]>::try_from(self.file.get(self.at..next)?).ok()?;
        self.at = next;
        Some(u64::from_le_bytes(bytes))
    }

    // So many bytes.
    #[tactic(auto, using(crate::proofs::Reading::reading))]
    pub fn bytes(&mut self, count: u64) -> Option<&'a [u8]>
        ensures given { Moves (field count) (read_of (λ bytes. bytes.now) result) self.old self.new }
        ensures stays { IfNone result (self.new ≡ self.old) }
        ensures within { self.new.at < 2 ^ 64 }
    {
        let next = self.at.checked_add(count as usize)?;
        let bytes = self.file.get(self.at..next)?;
        self.at = next;
        Some(bytes)
    }
}
