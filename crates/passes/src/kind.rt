ghost use Rattle.std.specs.Prelude.{◌≡◌};
ghost use Rattle.passes.specs.Kinds.{kind_byte, NamesKind};

use refusals::Reason;
use std::fmt;

/// The kind of a pass. Its number is the first byte of the written forms of that kind.
#[derive(Clone, Copy, PartialEq, Eq)]
pub enum PassKind {
    Tag = 0x54,
    Chip = 0x43,
}

impl From<PassKind> for u8 {
    ghost from_gives = { λ kind n. n ≡ kind_byte kind };

    fn from(kind: PassKind) -> u8 {
        kind as u8
    }
}

impl TryFrom<u8> for PassKind {
    type Error = Reason;

    ghost try_from_gives = { NamesKind };

    fn try_from(byte: u8) -> Result<Self, Reason> {
        match byte {
            0x54 => Ok(PassKind::Tag),
            0x43 => Ok(PassKind::Chip),
            _ => Err(Reason::BadValue),
        }
    }
}

impl fmt::Display for PassKind {
    fn fmt<W: fmt::Write>(&self, f: &mut fmt::Formatter<W>) -> fmt::Result {
        f.write_str(match self {
            PassKind::Tag => "tag",
            PassKind::Chip => "chip",
        })
    }
}
