ghost use Rattle.std.specs.Prelude.{◌≡◌, ◌+◌, ◌*◌, ◌≤◌, false, length, is_some, Decides, MatchOption, slice_index};
ghost use Rattle.passes.specs.declared.reading.Pass.TheVariants.{Tag as AsTag, Chip as AsChip};
ghost use Rattle.passes.specs.Forms.{tag_form, chip_form};
ghost use Rattle.passes.specs.Lawful.{Lawful, lawful, begins};

use crate::chip::ChipRef;
use crate::kind::PassKind;
use crate::tag::Tag;
use std::fmt;

/// A pass read from a message.
#[derive(Clone, Copy)]
pub enum Pass<'a> {
    Tag(Tag),
    Chip(ChipRef<'a>),
}

impl fmt::Display for Pass<'_> {
    fn fmt<W: fmt::Write>(&self, f: &mut fmt::Formatter<W>) -> fmt::Result {
        match self {
            Pass::Tag(tag) => write!(f, "{tag}"),
            Pass::Chip(chip) => write!(f, "{chip}"),
        }
    }
}

/// Whether a form of n bytes, 4 or more, may begin with this byte.
fn may_begin(first: u8, n: usize) -> bool
    ensures { result ≡ begins first n }
{
    match PassKind::try_from(first) {
        Ok(PassKind::Tag) => n == 11,
        Ok(PassKind::Chip) => n <= 23,
        Err(_) => false,
    }
}

/// Whether the bytes are a written form.
pub fn is_lawful(bytes: &[u8]) -> bool
    ensures value { result ≡ lawful bytes.now }
    ensures meaning { Decides result (Lawful bytes.now) }
{
    if bytes.len() < 4 {
        return false;
    }
    may_begin(bytes[0], bytes.len())
}

/// The issuer in a written form.
fn issuer_of(bytes: &[u8]) -> u16
    requires { 4 ≤ length bytes.now }
    ensures { result ≡ slice_index bytes.now 1 * 256 + slice_index bytes.now 2 }
{
    u16::from_be_bytes([bytes[1], bytes[2]])
}

/// The pass of a written form; none if the bytes have no lawful shape. No `TryFrom`: of bytes that are no form there is no more to say.
pub fn read_form(bytes: &[u8]) -> Option<Pass<'_>>
    ensures test { is_some result ≡ lawful bytes.now }
    ensures form { MatchOption result (Lawful bytes.now → ⊥) (λ p. elim p [ AsTag t ↦ tag_form t ≡ bytes.now | AsChip c ↦ chip_form c.issuer c.serial.now ≡ bytes.now ]) }
{
    if !is_lawful(bytes) {
        return None;
    }
    let issuer = issuer_of(bytes);
    match PassKind::try_from(bytes[0]).ok()? {
        PassKind::Tag => {
            let number = u64::from_be_bytes([
                bytes[3], bytes[4], bytes[5], bytes[6], bytes[7], bytes[8], bytes[9], bytes[10],
            ]);
            Some(Pass::Tag(Tag { issuer, number }))
        }
        PassKind::Chip => Some(Pass::Chip(ChipRef {
            issuer,
            serial: &bytes[3..],
        })),
    }
}
