//! Reading a sheet field by field, without memory of its own.
ghost use Rattle.std.specs.Prelude.{◌≡◌, ◌&&◌, ◌||◌, [], Ok, Err, MatchResult, ◌==◌, nat_lt};
ghost use Rattle.sheets.specs.declared.Stage.TheVariants.{Head as AtHead};
ghost use Rattle.sheets.specs.Reading.{is_check};
ghost use Rattle.sheets.specs.Stages.{content_of, standing, next_at};

use crate::parts::{read_head, read_word};
use fields::checks::CHECK;
use fields::reader::Reader;
use refusals::Refusal;
use sheets::{SheetField, Stage};

/// Whether the check is due, with room for so many words and this tag next.
fn is_check_due(room: u16, tag: Option<u8>) -> bool
    ensures { result ≡ (room == 0 || (nat_lt room 256 && is_check tag)) }
{
    room == 0 || room < 256 && tag == Some(CHECK)
}

/// Reads a sheet field by field: the head, the words, and the end behind the check.
#[derive(Drop)]
pub struct SheetReader<'a> {
    reader: Reader<'a>,
    last: &'a [u8],
    stage: Stage,
}

impl<'a> SheetReader<'a> {
    /// A reader at the first byte of an input, where the head is due.
    pub fn new(input: &'a [u8]) -> SheetReader<'a>
        ensures { (result.reader.input.now ≡ input.now) × (result.reader.at ≡ 0) × (result.last.now ≡ []) × (result.stage ≡ AtHead) }
    {
        SheetReader {
            reader: Reader::new(input),
            last: &[],
            stage: Stage::Head,
        }
    }

    /// Reads the next field and moves on; behind the check there is only the end. After a refusal the reader is of no more use:
    /// what it gives then is not said.
    pub fn next(&mut self) -> Result<SheetField<'a>, Refusal>
        ensures step { MatchResult result
            (λ f. next_at self.old.reader.input.now self.old.stage self.old.last.now self.old.reader.at ≡ Ok (content_of f, standing self.new.stage self.new.last.now self.new.reader.at))
            (λ e. next_at self.old.reader.input.now self.old.stage self.old.last.now self.old.reader.at ≡ Err e) }
        ensures input { self.new.reader.input.now ≡ self.old.reader.input.now }
    {
        match (self.stage, self.reader.peek()) {
            (Stage::Head, _) => {
                let head = read_head(&mut self.reader)?;
                self.stage = Stage::Words(256);
                Ok(SheetField::Head(head))
            }
            (Stage::Words(room), tag) if is_check_due(room, tag) => {
                self.reader.check()?;
                self.stage = Stage::Done;
                Ok(SheetField::End)
            }
            (Stage::Words(room), _) => {
                let word = read_word(self.last, &mut self.reader)?;
                self.last = word.form;
                self.stage = Stage::Words(room - 1);
                Ok(SheetField::Word(word))
            }
            (Stage::Done, _) => Ok(SheetField::End),
        }
    }
}
