ghost use Rattle.std.specs.Prelude.{◌≡◌, ℕ, ◌+◌, ◌%◌, ◌≤◌, true, false, List, ◌∷◌, ◌++◌, length, is_ok, MatchResult};
ghost use Rattle.refusals.specs.declared.Reason.TheVariants.{BadSerial};
ghost use Rattle.refusals.specs.Numbers.{plain};
ghost use Rattle.passes.specs.Bytes.{be2, firsts};
ghost use Rattle.passes.specs.Forms.{spelled, chip_form, stored_form};
ghost use Rattle.passes.specs.Lawful.{chip_lawful, stored_lawful};
ghost use Rattle.passes.specs.Made.{serial_fits, first_chip, chip_of, filled};

use crate::form::Form;
use crate::identifier::Identifier;
use crate::kind::PassKind;
use refusals::{Reason, Refusal};
use std::fmt;

/// A stored chip pass. Gates have no heap, so it is a plain record with its serial in place: n is read as a serial of 1 + n mod 20 bytes.
#[derive(Clone, Copy)]
pub struct ChipPass {
    pub issuer: u16,
    pub n: u8,
    pub serial: [u8; 20],
}

impl ChipPass {
    /// The chip pass held at first: issuer 0, serial 0x00.
    pub fn new() -> ChipPass
        ensures { result ≡ first_chip }
    {
        ChipPass {
            issuer: 0,
            n: 0,
            serial: [0; 20],
        }
    }

    /// The bytes of its serial.
    pub fn serial_bytes(&self) -> &[u8]
        ensures { result.now ≡ firsts (1 + self.now.n % 20) self.now.serial }
    {
        let k = 1 + (self.n % 20) as usize;
        &self.serial[0..k]
    }

    /// Makes it the pass of this issuer and serial; a serial that has not 1 to 20 bytes is refused and leaves it.
    pub fn fill(&mut self, issuer: u16, serial: &[u8]) -> Result<(), Refusal>
        ensures after { (result, self.new) ≡ filled self.old issuer serial.now }
        ensures form { is_ok result ≡ true → stored_form self.new ≡ 0x43 ∷ (be2 issuer ++ serial.now) }
    {
        // The bound is tested here and in `ChipRef::new`, where what follows asks for it: a call would hand on one comparison.
        let k = serial.len();
        if k < 1 || k > 20 {
            return Err(Reason::BadSerial.into());
        }
        *self = stored(issuer, serial);
        Ok(())
    }
}

/// The stored chip pass of an issuer and a serial, with zeros behind it.
fn stored(issuer: u16, serial: &[u8]) -> ChipPass
    requires { (1 ≤ length serial.now) × (length serial.now ≤ 20) }
    ensures is { result ≡ chip_of issuer serial.now }
    ensures form { stored_form result ≡ 0x43 ∷ (be2 issuer ++ serial.now) }
{
    let k = serial.len();
    let mut bytes = [0; 20];
    bytes[0..k].copy_from_slice(serial);
    ChipPass {
        issuer,
        n: (k - 1) as u8,
        serial: bytes,
    }
}

impl Identifier for ChipPass {
    ghost form = { stored_form };

    ghost lawful = { stored_lawful };

    fn written(&self) -> Form {
        write_chip(self.issuer, self.serial_bytes())
    }
}

impl fmt::Display for ChipPass {
    fn fmt<W: fmt::Write>(&self, f: &mut fmt::Formatter<W>) -> fmt::Result {
        let issuer = self.issuer;
        let serial = self.serial_bytes();
        write!(f, "{}", ChipRef { issuer, serial })
    }
}

/// A chip pass whose serial is borrowed from a message.
// That its serial has 1 to 20 bytes is no invariant, and what stores or writes it takes issuer and serial by themselves: of a slice in a field the
// check does not know that its numbers are bytes ("no proof of `get_or c.args.chip.serial.now i 0 < 256` was found"), of a parameter it does.
#[derive(Clone, Copy)]
pub struct ChipRef<'a> {
    pub(crate) issuer: u16,
    pub(crate) serial: &'a [u8],
}

impl<'a> ChipRef<'a> {
    /// The pass of this issuer and serial, if the serial has 1 to 20 bytes.
    pub fn new(issuer: u16, serial: &'a [u8]) -> Result<ChipRef<'a>, Refusal>
        ensures test { is_ok result ≡ serial_fits serial.now }
        ensures cases { MatchResult result (λ c. (c.issuer ≡ issuer) × (c.serial.now ≡ serial.now)) (λ e. e ≡ plain BadSerial) }
    {
        if serial.len() < 1 || serial.len() > 20 {
            return Err(Reason::BadSerial.into());
        }
        Ok(ChipRef { issuer, serial })
    }
}

impl<'a> Identifier for ChipRef<'a> {
    ghost form = { λ c. chip_form c.issuer c.serial.now };

    ghost lawful = { λ c. chip_lawful c.issuer c.serial.now };

    fn written(&self) -> Form {
        write_chip(self.issuer, self.serial)
    }
}

/// The serial in capital hexadecimal digits.
impl fmt::Display for ChipRef<'_> {
    fn fmt<W: fmt::Write>(&self, f: &mut fmt::Formatter<W>) -> fmt::Result {
        write!(f, "{} {} ", PassKind::Chip, self.issuer)?;
        for byte in self.serial {
            write!(f, "{byte:02X}")?;
        }
        Ok(())
    }
}

/// The written form of a chip pass.
fn write_chip(issuer: u16, serial: &[u8]) -> Form
    ensures { spelled result ≡ chip_form issuer serial.now }
{
    let i = issuer.to_be_bytes();
    let k = serial.len().min(20);
    let mut bytes = [0; 23];
    bytes[0..3].copy_from_slice(&[PassKind::Chip.into(), i[0], i[1]]);
    bytes[3..3 + k].copy_from_slice(&serial[0..k]);
    Form {
        len: 3 + k.max(1) as u8,
        bytes,
    }
}
