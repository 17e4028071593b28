// The kinds of an index by name, with their codes. The lent tables, the file and the C interface hold the code.
ghost use Rattle.std.specs.Prelude.{◌≡◌};
ghost use Rattle.tables.specs.Kinds.{code_of, Decodes};

#[derive(Clone, Copy, PartialEq, Eq, Debug)]
pub enum Kind {
    Constant = 0,
    Memory = 1,
    Register = 2,
    Unique = 3,
    Other = 4,
}

// A number that is no kind's code.
#[derive(Clone, Copy, PartialEq, Eq, Debug)]
pub struct NoKind;

impl From<Kind> for u64 {
    ghost from_gives = { λ kind n. n ≡ code_of kind };

    fn from(kind: Kind) -> u64 {
        kind as u64
    }
}

impl TryFrom<u64> for Kind {
    type Error = NoKind;

    ghost try_from_gives = { Decodes };

    fn try_from(code: u64) -> Result<Kind, NoKind> {
        match code {
            0 => Ok(Kind::Constant),
            1 => Ok(Kind::Memory),
            2 => Ok(Kind::Register),
            3 => Ok(Kind::Unique),
            4 => Ok(Kind::Other),
            _ => Err(NoKind),
        }
    }
}

impl TryFrom<u8> for Kind {
    type Error = NoKind;

    ghost try_from_gives = { Decodes };

    fn try_from(code: u8) -> Result<Kind, NoKind> {
        Kind::try_from(u64::from(code))
    }
}
