//! What commands do to the bytes of a buffer.
ghost use Rattle.std.specs.Prelude.{◌≡◌, ◌++◌, OnOk};
ghost use Rattle.fields.specs.Fields.{field};
ghost use Rattle.fields.specs.Reading.{checked};
ghost use Rattle.desk.specs.Bytes.{flipped, shortened, resealed};

use crate::faults::Fault;
use fields::checks::CHECK;
use fields::written::header;
use std::alloc::AllocError;

/// Replaces the byte at an offset by its exclusive or with another.
pub(crate) fn flip(bytes: &mut [u8], offset: usize, byte: u8) -> Result<(), Fault>
    ensures { (result, bytes.new) ≡ flipped offset byte bytes.old }
{
    if offset >= bytes.len() {
        return Err(Fault::PastTheEnd);
    }
    bytes[offset] ^= byte;
    Ok(())
}

/// Keeps the first bytes.
pub(crate) fn shorten(bytes: &mut Vec<u8>, length: usize) -> Result<(), Fault>
    ensures { (result, bytes.new.items) ≡ shortened length bytes.old.items }
{
    if length > bytes.len() {
        return Err(Fault::PastTheEnd);
    }
    bytes.truncate(length);
    Ok(())
}

/// Adds a field at the end: the tag, the length in two bytes, and the body.
pub(crate) fn add_field(bytes: &mut Vec<u8>, tag: u8, body: &[u8]) -> Result<(), AllocError>
    ensures { OnOk result (bytes.new.items ≡ bytes.old.items ++ field tag body.now) }
{
    bytes.extend_from_slice(&header(tag, body.len()))?;
    bytes.extend_from_slice(body)
}

/// Adds the check of all bytes at the end.
#[tactic(auto, unfolding(fields::specs::Reading::check_field))]
pub(crate) fn add_check(bytes: &mut Vec<u8>) -> Result<(), AllocError>
    ensures { OnOk result (bytes.new.items ≡ checked bytes.old.items) }
{
    let check = murmur::hash(0, bytes).to_be_bytes();
    add_field(bytes, CHECK, &check)
}

/// Writes over the last four bytes the check of all bytes but the last seven.
#[tactic(auto, unfolding(crate::specs::Bytes::with_check))]
pub(crate) fn reseal(bytes: &mut [u8]) -> Result<(), Fault>
    ensures { (result, bytes.new) ≡ resealed bytes.old }
{
    let n = bytes.len();
    if n < 7 {
        return Err(Fault::PastTheEnd);
    }
    let check = murmur::hash(0, &bytes[..n - 7]).to_be_bytes();
    bytes[n - 4..n].copy_from_slice(&check);
    Ok(())
}
