//! What the body of each field holds.
ghost use Rattle.std.specs.Prelude.{◌≡◌, ◌+◌, ◌≤◌, ◌&&◌, length, Ok, Err, MatchResult, nat_le};
ghost use Rattle.passes.specs.Lawful.{lawful};
ghost use Rattle.passes.specs.Order.{before};
ghost use Rattle.sheets.specs.Sides.{side_of};
ghost use Rattle.sheets.specs.Reading.{head_in, head_at, word_in, word_at, behind};
ghost use Rattle.sheets.specs.Stages.{word_of};

use fields::in_field;
use fields::reader::Reader;
use passes::order::precedes;
use passes::reading::is_lawful;
use refusals::{Reason, Refusal};
use sheets::{HEAD, SheetHead, SheetWord, Side, WORD};

/// The head in a body of 7 bytes. No `TryFrom`: the type is of a crate below.
fn head_in(body: &[u8]) -> Result<SheetHead, Reason>
    requires { 7 ≤ length body.now }
    ensures { result ≡ head_in body.now }
{
    let number = u32::from_be_bytes([body[1], body[2], body[3], body[4]]);
    let step = u16::from_be_bytes([body[5], body[6]]);
    if body[0] != 1 || number == 0 || step == 0 {
        return Err(Reason::BadValue);
    }
    Ok(SheetHead { number, step })
}

/// The word in a body of 5 bytes or more; its form is a part of the body.
fn word_in<'a>(last: &[u8], body: &'a [u8]) -> Result<SheetWord<'a>, Reason>
    requires { 1 ≤ length body.now }
    ensures { MatchResult result (λ w. word_in last.now body.now ≡ Ok (word_of w)) (λ e. word_in last.now body.now ≡ Err e) }
{
    let side = Side::try_from(body[0])?;
    let form = &body[1..];
    if !is_lawful(form) {
        return Err(Reason::BadValue);
    }
    if !precedes(last, form) {
        return Err(Reason::NotAscending);
    }
    Ok(SheetWord { side, form })
}

/// Reads the head.
pub(crate) fn read_head(reader: &mut Reader<'_>) -> Result<SheetHead, Refusal>
    ensures verdict { MatchResult result
        (λ h. (head_at reader.old.input.now reader.old.at ≡ Ok h) × (reader.new.at ≡ reader.old.at + 10))
        (λ e. head_at reader.old.input.now reader.old.at ≡ Err e) }
    ensures input { reader.new.input.now ≡ reader.old.input.now }
{
    let place = reader.place();
    let body = reader.field(HEAD, 7, 7)?;
    in_field(HEAD, place, head_in(body))
}

/// Reads a word, whose form has to stand above the last one.
pub(crate) fn read_word<'a>(last: &[u8], reader: &mut Reader<'a>) -> Result<SheetWord<'a>, Refusal>
    ensures verdict { MatchResult result
        (λ w. (word_at last.now reader.old.input.now reader.old.at ≡ Ok (word_of w)) × (reader.new.at ≡ behind reader.old.at (word_of w)))
        (λ e. word_at last.now reader.old.input.now reader.old.at ≡ Err e) }
    ensures input { reader.new.input.now ≡ reader.old.input.now }
{
    let place = reader.place();
    let body = reader.field(WORD, 5, 24)?;
    in_field(WORD, place, word_in(last, body))
}
