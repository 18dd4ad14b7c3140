//! Judging a whole input.
ghost use Rattle.std.specs.Prelude.{◌≡◌, is_ok, Ok, Decides};
ghost use Rattle.fields.specs.Reading.{then};
ghost use Rattle.sheets.specs.Reading.{reads, summary};
ghost use Rattle.sheets.specs.Layout.{Written, LayoutLaw};

use crate::reader::SheetReader;
use refusals::Refusal;
use sheets::{SheetField, SheetHead, SheetSummary};

/// Reads a whole input as a sheet. It is accepted exactly if it is the writing of a content that is allowed.
pub fn judge_sheet(input: &[u8]) -> Result<SheetSummary, Refusal>
    ensures value { result ≡ then (reads input.now) (λ s. Ok (summary s)) }
    ensures meaning { Decides (is_ok result) (Written input.now) }
    ensures law { LayoutLaw }
{
    let mut reader = SheetReader::new(input);
    let mut sheet = SheetSummary {
        head: SheetHead { number: 0, step: 0 },
        words: 0,
    };
    // What the reader gives says where the fields end.
    'fields: loop {
        match reader.next()? {
            SheetField::Head(head) => sheet.head = head,
            SheetField::Word(_) => sheet.words += 1,
            SheetField::End => return Ok(sheet),
        }
    }
}
