ghost use Rattle.std.specs.Prelude.{◌≡◌, ℕ, ◌+◌, ◌≤◌, List, length, is_ok, Ok, Err, MatchResult};
ghost use Rattle.fields.specs.Fields.{tag_at, header_at, body_at, stepped};
ghost use Rattle.fields.specs.Reading.{field_at, check_at};

use crate::Header;
use crate::checks::{CHECK, check_in, check_of};
use refusals::{Reason, Refusal};

/// Reads an input field by field; it stands at the first byte not read yet.
/// That a step keeps the input is said by clauses: it joins the reader before and after, and an invariant sees one of them.
#[derive(Drop)]
pub struct Reader<'a> {
    input: &'a [u8],
    at: usize,
    ghost inside: { at ≤ length input.now },
}

impl<'a> Reader<'a> {
    /// A reader at the first byte of an input.
    pub fn new(input: &'a [u8]) -> Reader<'a>
        ensures { (result.input.now ≡ input.now) × (result.at ≡ 0) }
    {
        Reader { input, at: 0 }
    }

    /// The place of the first byte not read yet.
    pub fn place(&self) -> usize
        ensures { result ≡ self.now.at }
    {
        let here = self.at;
        here
    }

    /// The tag of the header at hand; none if the three bytes of a header are not there.
    pub fn peek(&self) -> Option<u8>
        ensures { result ≡ tag_at self.now.input.now self.now.at }
    {
        let place = self.at;
        if self.input.len() - place < 3 {
            return None;
        }
        Some(self.input[place])
    }

    /// Reads the header of the field whose tag is due.
    pub fn header(&mut self, due: u8) -> Result<Header, Refusal>
        ensures value { result ≡ header_at self.old.input.now self.old.at due }
        ensures at { self.new.at ≡ stepped (is_ok result) self.old.at 3 }
        ensures input { self.new.input.now ≡ self.old.input.now }
    {
        let place = self.at;
        if self.input.len() - place < 3 {
            return Err(Reason::CutShort.at(due, place));
        }
        if self.input[place] != due {
            return Err(Reason::WrongTag.at(due, place));
        }
        let len = u16::from_be_bytes([self.input[place + 1], self.input[place + 2]]) as usize;
        self.at = place + 3;
        Ok(Header {
            tag: due,
            place,
            len,
        })
    }

    /// Reads the body behind a header.
    pub fn body(&mut self, header: Header) -> Result<&'a [u8], Refusal>
        ensures value { MatchResult result (λ b. body_at self.old.input.now self.old.at header ≡ Ok b.now) (λ e. body_at self.old.input.now self.old.at header ≡ Err e) }
        ensures at { self.new.at ≡ stepped (is_ok result) self.old.at header.len }
        ensures input { self.new.input.now ≡ self.old.input.now }
    {
        let start = self.at;
        if self.input.len() - start < header.len {
            return Err(Reason::CutShort.at(header.tag, header.place));
        }
        let end = start + header.len;
        self.at = end;
        Ok(&self.input[start..end])
    }

    /// Reads the field whose tag is due, with a length of `low` to `high`; the body is a part of the input.
    pub fn field(&mut self, due: u8, low: usize, high: usize) -> Result<&'a [u8], Refusal>
        ensures verdict { MatchResult result
            (λ b. (field_at due low high self.old.input.now self.old.at ≡ Ok b.now) × (self.new.at ≡ self.old.at + (3 + length b.now)) × (low ≤ length b.now) × (length b.now ≤ high))
            (λ e. field_at due low high self.old.input.now self.old.at ≡ Err e) }
        ensures input { self.new.input.now ≡ self.old.input.now }
    {
        let header = self.header(due)?;
        if header.len < low || header.len > high {
            return Err(Reason::BadLength.at(due, header.place));
        }
        self.body(header)
    }

    /// Reads the check, which is that of all bytes before it; nothing may stand behind it.
    pub fn check(&mut self) -> Result<(), Refusal>
        ensures verdict { MatchResult result
            (λ _. (check_at self.old.input.now self.old.at ≡ Ok tt) × (self.new.at ≡ self.old.at + 7))
            (λ e. check_at self.old.input.now self.old.at ≡ Err e) }
        ensures input { self.new.input.now ≡ self.old.input.now }
    {
        let place = self.at;
        let body = self.field(CHECK, 4, 4)?;
        if check_in(body) != check_of(self.input, place) {
            return Err(Reason::WrongCheck.at(CHECK, place));
        }
        let end = self.at;
        if end < self.input.len() {
            return Err(Reason::BytesLeft.at(0, end));
        }
        Ok(())
    }
}
