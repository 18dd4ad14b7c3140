//! The commands that compose a sheet by hand.
ghost use Rattle.std.specs.Prelude.{◌≡◌, ◌+◌, ◌-◌, ◌^◌, min, true, ◌∷◌, ◌++◌, IfOk, OnOk};
ghost use Rattle.passes.specs.Bytes.{be2};
ghost use Rattle.desk.specs.Drafts.{more_fields, more_words, more_rows};
ghost use Rattle.desk.specs.Faults.{undone};

use crate::arguments;
use crate::buffers::Buffer;
use crate::draft::{Draft, More, row_field, span_words, word_field};
use crate::faults::Fault;
use crate::line::{Line, Words};
use crate::shown::in_sheet;
use passes::identifier::Identifier;
use passes::kind::PassKind;
use std::alloc::{AllocError, Global};
use std::fmt::Write;

/// The byte of a side, or the number given: words that are not allowed can be composed too.
fn side_byte(word: &[u8]) -> Result<u8, Fault> {
    match arguments::side(word) {
        Ok(side) => Ok(in_sheet(side).into()),
        Err(_) => arguments::number(word),
    }
}

/// The byte of a kind of pass, or the number given: rows that are not allowed can be composed too, so it is no `PassKind`.
fn kind_byte(word: &[u8]) -> Result<u8, Fault> {
    match word {
        b"tag" => Ok(PassKind::Tag.into()),
        b"chip" => Ok(PassKind::Chip.into()),
        _ => arguments::number(word),
    }
}

/// The form of a chip pass whose serial may have any length.
fn chip_form(heap: Global, issuer: u16, serial: &[u8]) -> Result<Vec<u8>, AllocError>
    ensures { IfOk result (λ v. v.items ≡ 0x43 ∷ (be2 issuer ++ serial.now)) }
{
    let i = issuer.to_be_bytes();
    let mut form = vec![in heap; u8::from(PassKind::Chip), i[0], i[1]]?;
    form.extend_from_slice(serial)?;
    Ok(form)
}

/// The form in a word: that of a pass, with a serial of any length, or any bytes.
fn form(heap: Global, words: Words<'_>) -> Result<Vec<u8>, Fault> {
    match words {
        [b"form", bytes] => arguments::bytes(heap, bytes),
        [b"chip", issuer, serial] => {
            let issuer = arguments::number(issuer)?;
            let serial = arguments::bytes(heap, serial)?;
            Ok(chip_form(heap, issuer, &serial)?)
        }
        _ => {
            let form = arguments::pass(heap, words)?.written();
            Ok(Vec::from_slice(heap, form.as_bytes())?)
        }
    }
}

/// A sheet that is begun.
pub(crate) fn begin(line: &mut Line<'_>) -> Result<Draft, Fault> {
    let (name, number, step, edition) = match line.words {
        [name, number, step] => (name, number, step, 1),
        [name, number, step, edition] => (name, number, step, arguments::number(edition)?),
        _ => return Err(Fault::Usage),
    };
    let name = arguments::name(name)?;
    let number = arguments::number(number)?;
    let step = arguments::number(step)?;
    let draft = Draft::new(line.heap, name, edition, number, step)?;
    line.say(format_args!("sheet of number {number} step {step}"))?;
    Ok(draft)
}

/// A word for the sheet.
pub(crate) fn word(line: &Line<'_>) -> Result<More, Fault>
    ensures { IfOk result (λ m. (more_words m ≡ 1) × (more_rows m ≡ 0)) }
{
    let [side, form @ ..] = line.words else {
        return Err(Fault::Usage);
    };
    let side = side_byte(side)?;
    let form = self::form(line.heap, form)?;
    Ok(More::Words(word_field(line.heap, side, &form)?, 1))
}

/// A word for each pass of a span.
pub(crate) fn words(line: &Line<'_>) -> Result<More, Fault>
    ensures { IfOk result (λ m. more_rows m ≡ 0) }
{
    let [side, span @ ..] = line.words else {
        return Err(Fault::Usage);
    };
    let side = side_byte(side)?;
    let span = arguments::span(span)?;
    let fields = span_words(line.heap, side, &span)?;
    Ok(More::Words(fields, u64::from(span.count())))
}

/// A coverage row for the sheet.
pub(crate) fn row(line: &Line<'_>) -> Result<More, Fault>
    ensures { IfOk result (λ m. (more_words m ≡ 0) × (more_rows m ≡ 1)) }
{
    let [kind, issuer, first, last] = line.words else {
        return Err(Fault::Usage);
    };
    let kind = kind_byte(kind)?;
    let issuer = arguments::number(issuer)?;
    let first = arguments::number(first)?;
    let last = arguments::number(last)?;
    Ok(More::Row(row_field(line.heap, kind, issuer, first, last)?))
}

/// Adds to the sheet, all or nothing, and says how many words or rows there are.
pub(crate) fn add(draft: &mut Draft, more: More, line: &mut Line<'_>) -> Result<(), Fault>
    ensures added { OnOk result ((draft.new.bytes.items ≡ draft.old.bytes.items ++ more_fields more) × (draft.new.words ≡ min (draft.old.words + more_words more) (2 ^ 64 - 1)) × (draft.new.rows ≡ min (draft.old.rows + more_rows more) (2 ^ 64 - 1)) × (draft.new.name ≡ draft.old.name)) }
    ensures kept { undone result ≡ true → draft.new ≡ draft.old }
{
    draft.add(&more)?;
    match more {
        More::Words(..) => line.say(format_args!("word {}", draft.words))?,
        More::Row(_) => line.say(format_args!("row {}", draft.rows))?,
    }
    Ok(())
}

/// The sheet with its check, as its buffer is to hold it.
pub(crate) fn end(draft: &Draft, line: &mut Line<'_>) -> Result<Buffer, Fault> {
    if !line.words.is_empty() {
        return Err(Fault::Usage);
    }
    let Draft {
        name,
        words,
        rows,
        ..
    } = draft;
    let sheet = Buffer::new(line.heap, name, draft.sheet(line.heap)?)?;
    let length = sheet.len();
    let out = &mut line.answer;
    write!(out, "written {name} length {length} words {words}")?;
    if *rows > 0 {
        write!(out, " rows {rows}")?;
    }
    writeln!(out)?;
    Ok(sheet)
}
