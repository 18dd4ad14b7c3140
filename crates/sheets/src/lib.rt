//! What a day sheet holds, its bytes, and the laws of their layout.
#![tactic(auto)]

ghost use Rattle.std.specs.Prelude.{◌≡◌};
ghost use Rattle.sheets.specs.Sides.{side_byte, NamesSide};
ghost use Rattle.sheets.specs.Sheets.{word_field};
ghost use Rattle.sheets.specs.Stages.{word_of};

use fields::written::{Written, header};
use refusals::Reason;
use std::fmt;

/// The tag of the field of the head.
pub const HEAD: u8 = 0x21;

/// The tag of the field of a word.
pub const WORD: u8 = 0x22;

/// What a word says of a pass. Its number is the byte that says so.
#[derive(Clone, Copy, PartialEq, Eq)]
pub enum Side {
    Good = 0,
    Blocked = 1,
}

impl From<Side> for u8 {
    ghost from_gives = { λ side n. n ≡ side_byte side };

    fn from(side: Side) -> u8 {
        side as u8
    }
}

impl TryFrom<u8> for Side {
    type Error = Reason;

    ghost try_from_gives = { NamesSide };

    fn try_from(byte: u8) -> Result<Self, Reason> {
        match byte {
            0 => Ok(Side::Good),
            1 => Ok(Side::Blocked),
            _ => Err(Reason::BadValue),
        }
    }
}

impl fmt::Display for Side {
    fn fmt<W: fmt::Write>(&self, f: &mut fmt::Formatter<W>) -> fmt::Result {
        f.write_str(match self {
            Side::Good => "good",
            Side::Blocked => "blocked",
        })
    }
}

/// The head of a sheet: the publication number, and the step.
#[derive(Clone, Copy)]
pub struct SheetHead {
    pub number: u32,
    pub step: u16,
}

/// A word of a sheet: a side, and the written form of a pass.
#[derive(Clone, Copy)]
pub struct SheetWord<'a> {
    pub side: Side,
    pub form: &'a [u8],
}

impl Written for SheetWord<'_> {
    ghost bytes = { λ w. word_field (word_of w) };

    fn size(&self) -> usize {
        4 + self.form.len()
    }

    fn write(&self, out: &mut [u8]) -> Option<usize> {
        let n = self.form.len();
        if out.len() < 4 + n {
            return None;
        }
        let [tag, high, low] = header(WORD, 1 + n);
        out[0..4].copy_from_slice(&[tag, high, low, self.side.into()]);
        out[4..4 + n].copy_from_slice(self.form);
        Some(4 + n)
    }
}

/// What a field of a sheet holds.
// The end is a field, the check, which is read and judged as the others are: so a case, and no `None`.
#[derive(Clone, Copy)]
pub enum SheetField<'a> {
    Head(SheetHead),
    Word(SheetWord<'a>),
    End,
}

/// A sheet that was read: its head, and how many words it has.
#[derive(Clone, Copy)]
pub struct SheetSummary {
    pub head: SheetHead,
    pub words: usize,
}

/// Which field is due: the head, a word or the check with room for so many words, or none.
#[derive(Clone, Copy)]
pub enum Stage {
    Head,
    Words(u16),
    Done,
}
