//! What the words behind a command stand for.
use crate::buffers::LONGEST;
use crate::faults::Fault;
use crate::line::Words;
use crate::numbers::Numbers;
use crate::pass::Pass;
use crate::register::{MOST, Sides};
use crate::span::{Span, SpanKind};
use levels::Side;
use passes::chip::ChipPass;
use passes::tag::Tag;
use std::alloc::Global;
use words::{hex, names, numbers};

/// A number from `low` to `high`, in a type that has room for it.
fn within<T: TryFrom<u64>>(word: &[u8], low: u64, high: u64) -> Result<T, Fault>
where
    T::Error: Drop,
{
    let number = numbers::number(word, low, high).ok_or(Fault::Usage)?;
    T::try_from(number).map_err(|_| Fault::Usage)
}

/// A number that its type has room for: of one byte, as a make, a hash count or an edition; of two, as an issuer, a day, a salt, a step or a
/// table size; of four, as a seed or the number of a publication; or of eight, as the number of a tag or of a span.
pub(crate) fn number<T: TryFrom<u64>>(word: &[u8]) -> Result<T, Fault>
where
    T::Error: Drop,
{
    within(word, 0, u64::MAX)
}

/// A level.
pub(crate) fn level(word: &[u8]) -> Result<u8, Fault> {
    within(word, 1, 7)
}

/// How many bytes the serials of a span have.
fn serial_length(word: &[u8]) -> Result<u8, Fault> {
    within(word, 1, 20)
}

/// How many passes: of a span, or from one blocked pass to the next.
pub(crate) fn count(word: &[u8]) -> Result<u16, Fault> {
    within(word, 1, MOST as u64)
}

/// The index of a pass in the register, or a distance in it.
pub(crate) fn index(word: &[u8]) -> Result<usize, Fault> {
    within(word, 0, MOST as u64)
}

/// A number of bytes: the length of a buffer, an offset in it, or that of work bytes.
pub(crate) fn length(word: &[u8]) -> Result<usize, Fault> {
    within(word, 0, LONGEST as u64)
}

/// A table size.
pub(crate) fn table_size(word: &[u8]) -> Result<usize, Fault> {
    within(word, 0, 0xFFFF)
}

/// Bytes in hexadecimal digits. The heap is lent by the caller, as std has it.
pub(crate) fn bytes(heap: Global, word: &[u8]) -> Result<Vec<u8>, Fault> {
    hex::bytes(heap, word)?.ok_or(Fault::Usage)
}

/// One byte in two hexadecimal digits.
pub(crate) fn byte(heap: Global, word: &[u8]) -> Result<u8, Fault> {
    let bytes = bytes(heap, word)?;
    match bytes.as_slice() {
        [byte] => Ok(*byte),
        _ => Err(Fault::Usage),
    }
}

/// The name of a buffer.
pub(crate) fn name(word: &[u8]) -> Result<&str, Fault> {
    names::name(word).ok_or(Fault::Usage)
}

/// A pass; a chip serial that has not 1 to 20 bytes is refused.
pub(crate) fn pass(heap: Global, words: Words<'_>) -> Result<Pass, Fault> {
    match words {
        [b"tag", issuer, number] => {
            let issuer = self::number(issuer)?;
            let number = self::number(number)?;
            Ok(Pass::Tag(Tag { issuer, number }))
        }
        [b"chip", issuer, serial] => {
            let issuer = number(issuer)?;
            let serial = bytes(heap, serial)?;
            let mut chip = ChipPass::new();
            chip.fill(issuer, &serial)?;
            Ok(Pass::Chip(chip))
        }
        _ => Err(Fault::Usage),
    }
}

/// A side: blocked is for, good is against. The type is of a crate below, so no `TryFrom` can say it here.
pub(crate) fn side(word: &[u8]) -> Result<Side, Fault> {
    match word {
        b"blocked" => Ok(Side::For),
        b"good" => Ok(Side::Against),
        _ => Err(Fault::Usage),
    }
}

/// Whether a word says that a distance follows.
fn is_every(word: &[u8]) -> bool {
    matches!(word, b"every")
}

/// Many passes with their sides.
pub(crate) fn sided_span(words: Words<'_>) -> Result<(Span, Sides), Fault> {
    // not `[passes @ .., b"every", distance]`: a pattern with text behind `..` gets no proof
    let [front @ .., last] = words else {
        return Err(Fault::Usage);
    };
    let [passes @ .., word] = front else {
        return Err(Fault::Usage);
    };
    if is_every(word) {
        let sides = Sides::Every(count(last)?);
        Ok((span(passes)?, sides))
    } else {
        let sides = Sides::All(side(last)?);
        Ok((span(front)?, sides))
    }
}

/// The numbers of a span.
fn span_numbers(first: &[u8], step: &[u8], count: &[u8]) -> Result<Numbers, Fault> {
    let first = number(first)?;
    let step = number(step)?;
    let count = self::count(count)?;
    Numbers::new(first, step, count).ok_or(Fault::NumberTooLarge)
}

/// Many passes.
pub(crate) fn span(words: Words<'_>) -> Result<Span, Fault> {
    match words {
        [b"tag", issuer, first, step, count] => {
            let issuer = number(issuer)?;
            let numbers = span_numbers(first, step, count)?;
            Ok(Span::new(SpanKind::Tags, issuer, numbers))
        }
        [b"chip", issuer, length, first, step, count] => {
            let issuer = number(issuer)?;
            let length = serial_length(length)?;
            let numbers = span_numbers(first, step, count)?;
            Ok(Span::new(SpanKind::Chips(length), issuer, numbers))
        }
        _ => Err(Fault::Usage),
    }
}
