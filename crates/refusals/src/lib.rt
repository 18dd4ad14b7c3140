//! Why a call refuses: the reason with its number, a tag and a place.
#![tactic(auto)]

ghost use Rattle.std.specs.Prelude.{◌≡◌};
ghost use Rattle.refusals.specs.Numbers.{number_of, plain, refused};

use std::fmt;

/// Every reason to refuse, in the order of its number.
#[derive(Clone, Copy)]
pub enum Reason {
    /// a field's header or body runs past the end
    CutShort = 11,
    /// another tag than is due
    WrongTag = 12,
    /// a length that isn't allowed
    BadLength = 13,
    /// a value or row that isn't allowed, or a row cut short
    BadValue = 14,
    /// forms not ascending, or a coverage row repeated
    NotAscending = 15,
    /// a check that is not the hash of the bytes before it
    WrongCheck = 16,
    /// bytes after the check
    BytesLeft = 17,
    /// another publication number than the gate's
    OtherNumber = 21,
    /// a step that isn't the gate's plus 1
    OtherStep = 22,
    /// more than 256 rows would stand in the sheet table
    TooManyRows = 23,
    /// a publication of another make than the gate's
    OtherMake = 24,
    /// a register without a pass
    EmptyRegister = 31,
    /// a register above 4,096 passes
    LongRegister = 32,
    /// a register whose forms are not strictly ascending
    UnsortedRegister = 33,
    /// a plan value or filter setting that isn't allowed
    BadSetting = 34,
    /// coverage rows that are none, too many, not allowed or repeated
    BadCoverage = 35,
    /// at every salt some put was not taken
    NotTaken = 36,
    /// output or work bytes too short for the publisher
    NoRoom = 37,
    /// output too short for a sheet
    ShortOutput = 42,
    /// a sheet above 256 words
    TooManyWords = 44,
    /// a catch-up that needs no word
    NoWord = 45,
    /// a chip serial that has not 1 to 20 bytes
    BadSerial = 51,
}

impl Reason {
    /// A refusal of a field for this reason: the field's tag and the place of its first byte.
    pub fn at(self, tag: u8, place: usize) -> Refusal
        ensures { result ≡ refused self tag place }
    {
        Refusal {
            reason: self,
            tag,
            place,
        }
    }
}

/// The number that the reason goes by.
impl From<Reason> for u8 {
    ghost from_gives = { λ reason n. n ≡ number_of reason };

    fn from(reason: Reason) -> u8 {
        reason as u8
    }
}

/// A refusal: the reason, the tag of the field at fault and its place, each 0 if there is none.
// No `Option`: a refusal is three numbers wherever it is shown, and of bytes left it has a place without a tag.
#[derive(Clone, Copy)]
pub struct Refusal {
    pub reason: Reason,
    pub tag: u8,
    pub place: usize,
}

/// A refusal that names no field.
impl From<Reason> for Refusal {
    ghost from_gives = { λ reason r. r ≡ plain reason };

    fn from(reason: Reason) -> Refusal {
        Refusal {
            reason,
            tag: 0,
            place: 0,
        }
    }
}

impl fmt::Display for Refusal {
    fn fmt<W: fmt::Write>(&self, f: &mut fmt::Formatter<W>) -> fmt::Result {
        let number = u8::from(self.reason);
        write!(f, "refused {number} tag {} place {}", self.tag, self.place)
    }
}
