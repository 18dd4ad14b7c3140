//! A sheet that is being composed by hand.
ghost use Rattle.std.specs.Prelude.{◌≡◌, ◌+◌, ◌-◌, ◌^◌, min, true, ◌∷◌, ◌++◌, length, IfOk, vec_len, string_bytes, OnOk, nat_lt, false, is_ok};
ghost use Rattle.passes.specs.Bytes.{be2};
ghost use Rattle.fields.specs.Reading.{checked};
ghost use Rattle.desk.specs.Faults.{undone};
ghost use Rattle.desk.specs.Drafts.{head_field, word_field, row_field, span_words, more_fields, more_words, more_rows};

use crate::buffers::LONGEST;
use crate::bytes::{add_check, add_field};
use crate::faults::Fault;
use crate::span::Span;
use passes::identifier::Identifier;
use sheets::{HEAD, WORD};
use std::alloc::{AllocError, Global};

/// The tag of the field of a coverage row.
const ROW: u8 = 0x23;

/// The name of the buffer to be written, the fields so far, and how many words and rows are among them.
#[derive(Drop)]
pub struct Draft {
    pub(crate) name: String,
    pub(crate) bytes: Vec<u8>,
    pub(crate) words: u64,
    pub(crate) rows: u64,
}

/// What is to be added to a sheet.
#[derive(Drop)]
pub enum More {
    /// the fields of so many words
    Words(Vec<u8>, u64),
    /// the field of a coverage row
    Row(Vec<u8>),
}

impl More {
    /// Its fields.
    fn fields(&self) -> &[u8]
        ensures { result.now ≡ more_fields self.now }
    {
        match self {
            More::Words(fields, _) | More::Row(fields) => fields,
        }
    }

    /// How many words it has.
    fn words(&self) -> u64
        ensures { result ≡ more_words self.now }
    {
        match self {
            More::Words(_, count) => *count,
            More::Row(_) => 0,
        }
    }

    /// How many coverage rows it has.
    fn rows(&self) -> u64
        ensures { result ≡ more_rows self.now }
    {
        match self {
            More::Words(..) => 0,
            More::Row(_) => 1,
        }
    }
}

/// The field of a word: the byte of its side, and a form. The side is a byte, since any can be composed.
pub(crate) fn word_field(heap: Global, side: u8, form: &[u8]) -> Result<Vec<u8>, AllocError>
    ensures { IfOk result (λ v. v.items ≡ word_field side form.now) }
{
    let mut body = vec![in heap; side]?;
    body.extend_from_slice(form)?;
    let mut fields = Vec::new(heap);
    add_field(&mut fields, WORD, &body)?;
    Ok(fields)
}

/// The fields of a word for each pass of a span, under the byte of a side.
#[tactic(auto, unfolding(crate::specs::Drafts::span_words))]
pub(crate) fn span_words(heap: Global, side: u8, span: &Span) -> Result<Vec<u8>, AllocError>
    ensures { IfOk result (λ v. v.items ≡ span_words side span.now span.now.numbers.count) }
{
    let mut fields = Vec::new(heap);
    // by place, as `Span::how_many`
    'passes: for i in 0..span.count() {
        let form = span.pass(i).written();
        fields.extend_from_slice(&word_field(heap, side, form.as_bytes())?)?;
    }
    Ok(fields)
}

/// The field of a coverage row. Its kind is a byte, since any can be composed.
pub(crate) fn row_field(
    heap: Global,
    kind: u8,
    issuer: u16,
    first: u16,
    last: u16,
) -> Result<Vec<u8>, AllocError>
    ensures { IfOk result (λ v. v.items ≡ row_field kind issuer first last) }
{
    let i = issuer.to_be_bytes();
    let f = first.to_be_bytes();
    let l = last.to_be_bytes();
    let mut fields = Vec::new(heap);
    add_field(
        &mut fields,
        ROW,
        &[kind, i[0], i[1], f[0], f[1], l[0], l[1]],
    )?;
    Ok(fields)
}

impl Draft {
    /// A sheet with its head, and no word or row.
    pub(crate) fn new(
        heap: Global,
        name: &str,
        edition: u8,
        number: u32,
        step: u16,
    ) -> Result<Draft, AllocError>
        ensures { IfOk result (λ d. (string_bytes d.name ≡ name.now) × (d.bytes.items ≡ head_field edition number step) × (d.words ≡ 0) × (d.rows ≡ 0)) }
    {
        let n = number.to_be_bytes();
        let s = step.to_be_bytes();
        let mut bytes = Vec::new(heap);
        add_field(
            &mut bytes,
            HEAD,
            &[edition, n[0], n[1], n[2], n[3], s[0], s[1]],
        )?;
        let name = String::from_str(heap, name)?;
        Ok(Draft {
            name,
            bytes,
            words: 0,
            rows: 0,
        })
    }

    /// Adds fields at the end and counts their words and rows, unless the sheet with its check would be longer than a buffer may be.
    pub(crate) fn add(&mut self, more: &More) -> Result<(), Fault>
        ensures added { OnOk result ((self.new.bytes.items ≡ self.old.bytes.items ++ more_fields more.now) × (self.new.words ≡ min (self.old.words + more_words more.now) (2 ^ 64 - 1)) × (self.new.rows ≡ min (self.old.rows + more_rows more.now) (2 ^ 64 - 1))) }
        ensures uncounted { is_ok result ≡ false → (self.new.words ≡ self.old.words) × (self.new.rows ≡ self.old.rows) }
        ensures named { self.new.name ≡ self.old.name }
        ensures judged { undone result ≡ nat_lt 65536 (vec_len self.old.bytes + length (more_fields more.now) + 7) }
        ensures kept { undone result ≡ true → self.new ≡ self.old }
    {
        let fields = more.fields();
        let length = self.bytes.len().saturating_add(fields.len());
        if length.saturating_add(7) > LONGEST {
            return Err(Fault::BufferTooLong);
        }
        self.bytes.extend_from_slice(fields)?;
        self.words = self.words.saturating_add(more.words());
        self.rows = self.rows.saturating_add(more.rows());
        Ok(())
    }

    /// The whole sheet: its fields and the check of them.
    pub(crate) fn sheet(&self, heap: Global) -> Result<Vec<u8>, AllocError>
        ensures { IfOk result (λ v. v.items ≡ checked self.now.bytes.items) }
    {
        let mut bytes = Vec::from_slice(heap, &self.bytes)?;
        add_check(&mut bytes)?;
        Ok(bytes)
    }
}
