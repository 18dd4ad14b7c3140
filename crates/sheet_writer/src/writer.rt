//! Writing a sheet into an output lent by the caller.
ghost use Rattle.std.specs.Prelude.{◌≡◌, ◌+◌, ◌≤◌, ◌++◌, map, length, drop, Some, nat_le};
ghost use Rattle.fields.specs.Reading.{be4};
ghost use Rattle.passes.specs.Outputs.{written_to};
ghost use Rattle.sheets.specs.Sheets.{head_field, word_field, word_fields, writes};
ghost use Rattle.fields.specs.Fields.{field};
ghost use Rattle.sheets.specs.Stages.{word_of, sheet_of};
ghost use Rattle.sheets.specs.Layout.{LayoutLaw};

use fields::checks::seal;
use fields::written::{room_left, write_each};
use sheets::{HEAD, SheetHead, SheetWord};

/// Whether a sheet with these words fits into so many bytes, under any head.
fn has_room(words: &[SheetWord<'_>], room: usize) -> bool
    ensures { (h : SheetHead) → result ≡ nat_le (length (writes (sheet_of h words.now))) room }
{
    let Some(left) = room_left(words, room) else {
        return false;
    };
    left >= 17
}

/// Writes the field of the head.
fn write_head(head: SheetHead, out: &mut [u8])
    requires { 10 ≤ length out.old }
    ensures { out.new ≡ head_field head ++ drop 10 out.old }
{
    let number = head.number.to_be_bytes();
    let step = head.step.to_be_bytes();
    out[0..10].copy_from_slice(&[
        HEAD, 0, 7, 1, number[0], number[1], number[2], number[3], step[0], step[1],
    ]);
}

/// Writes a sheet that fits, and says how many bytes it has.
fn fill_sheet(head: SheetHead, words: &[SheetWord<'_>], out: &mut [u8]) -> Option<usize>
    requires { length (writes (sheet_of head words.now)) ≤ length out.old }
    ensures { (result, out.new) ≡ written_to (writes (sheet_of head words.now)) out.old }
{
    write_head(head, out);
    let end = 10 + write_each(words, &mut out[10..])?;
    seal(end, out)
}

/// Writes a sheet to the front of the output and says how many bytes it has; none, and nothing is written, if it does not fit.
pub fn write_sheet(head: SheetHead, words: &[SheetWord<'_>], out: &mut [u8]) -> Option<usize>
    ensures written { (result, out.new) ≡ written_to (writes (sheet_of head words.now)) out.old }
    ensures law { LayoutLaw }
{
    if !has_room(words, out.len()) {
        return None;
    }
    fill_sheet(head, words, out)
}
