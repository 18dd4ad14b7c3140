//! The head of a publication.
ghost use Rattle.std.specs.Prelude.{◌≡◌, ◌+◌, ◌≤◌, length, Ok, Err, MatchResult};
ghost use Rattle.publications.specs.Reading.{head_in, head_at};

use crate::known::KnownMakes;
use fields::in_field;
use fields::reader::Reader;
use filters::allows_hashes;
use publications::{HEAD, PublicationHead};
use refusals::{Reason, Refusal};

/// The head in a body of 9 bytes. No `TryFrom`: the type is of a crate below, and the makes that are known are given.
fn head_in<M: KnownMakes>(makes: &M, body: &[u8]) -> Result<PublicationHead, Reason>
    requires { 9 ≤ length body.now }
    ensures { result ≡ head_in (M.makes makes.now) body.now }
{
    let number = u32::from_be_bytes([body[5], body[6], body[7], body[8]]);
    let known = makes.knows(body[1]);
    if body[0] != 1 || !known || !allows_hashes(body[2]) || number == 0 {
        return Err(Reason::BadValue);
    }
    Ok(PublicationHead {
        make: body[1],
        hashes: body[2],
        salt: u16::from_be_bytes([body[3], body[4]]),
        number,
    })
}

/// Reads the head.
pub(crate) fn read_head<M: KnownMakes>(
    makes: &M,
    reader: &mut Reader<'_>,
) -> Result<PublicationHead, Refusal>
    ensures verdict { MatchResult result
        (λ h. (head_at (M.makes makes.now) reader.old.input.now reader.old.at ≡ Ok h) × (reader.new.at ≡ reader.old.at + 12))
        (λ e. head_at (M.makes makes.now) reader.old.input.now reader.old.at ≡ Err e) }
    ensures input { reader.new.input.now ≡ reader.old.input.now }
{
    let place = reader.place();
    let body = reader.field(HEAD, 9, 9)?;
    in_field(HEAD, place, head_in(makes, body))
}
