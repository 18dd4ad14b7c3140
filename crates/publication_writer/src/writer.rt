//! Writing a publication into an output lent by the caller.
ghost use Rattle.std.specs.Prelude.{◌≡◌, ℕ, ◌+◌, ◌*◌, ◌≤◌, List, ◌++◌, length, drop, nat_le};
ghost use Rattle.passes.specs.Outputs.{written_to};
ghost use Rattle.publications.specs.Publications.{head_field, row_bytes, rows_bytes, coverage_field, published};
ghost use Rattle.publications.specs.Layout.{WriterLaw};

use fields::checks::seal;
use fields::written::{header, room_left, write_each};
use levels::decider::{Decider, Tabled};
use publications::{COVERAGE, CoverageRow, HEAD, PublicationHead, ROW_SIZE};

/// Writes the field of the head.
fn write_head(head: PublicationHead, out: &mut [u8])
    requires { 12 ≤ length out.old }
    ensures { out.new ≡ head_field head ++ drop 12 out.old }
{
    let salt = head.salt.to_be_bytes();
    let number = head.number.to_be_bytes();
    out[0..12].copy_from_slice(&[
        HEAD,
        0,
        9,
        1,
        head.make,
        head.hashes,
        salt[0],
        salt[1],
        number[0],
        number[1],
        number[2],
        number[3],
    ]);
}

/// Writes the field of the coverage, which fits, and says how many bytes it has.
fn write_coverage(rows: &[CoverageRow], out: &mut [u8]) -> Option<usize>
    requires { length (coverage_field rows.now) ≤ length out.old }
    ensures { (result, out.new) ≡ written_to (coverage_field rows.now) out.old }
{
    out[0..3].copy_from_slice(&header(COVERAGE, ROW_SIZE * rows.len()));
    Some(3 + write_each(rows, &mut out[3..])?)
}

// Rows and levels are lent by a caller who holds them apart: a struct of both would be made for one call.
/// Whether a publication with these rows and levels fits into so many bytes, under any head.
fn has_room<D: Decider>(rows: &[CoverageRow], levels: &D, room: usize) -> bool
    ensures { (h : PublicationHead) → result ≡ nat_le (length (published h rows.now (D.Decider.decider.saved 1 (D.Decider.state levels.now)))) room }
{
    let Some(left) = room_left(rows, room) else {
        return false;
    };
    left >= 22 && levels.fits(1, left - 22)
}

/// Writes a publication that fits, and says how many bytes it has.
fn fill_publication<D: Decider>(
    head: PublicationHead,
    rows: &[CoverageRow],
    levels: &D,
    out: &mut [u8],
) -> Option<usize>
    requires { length (published head rows.now (D.Decider.decider.saved 1 (D.Decider.state levels.now))) ≤ length out.old }
    ensures { (result, out.new) ≡ written_to (published head rows.now (D.Decider.decider.saved 1 (D.Decider.state levels.now))) out.old }
{
    write_head(head, out);
    let start = 12 + write_coverage(rows, &mut out[12..])?;
    let end = start + levels.save(1, &mut out[start..])?;
    seal(end, out)
}

/// Writes a publication with the tables of levels to the front of the output and says how many bytes it has; none, and nothing is
/// written, if it does not fit.
pub fn write_publication<D: Tabled>(
    head: PublicationHead,
    rows: &[CoverageRow],
    levels: &D,
    out: &mut [u8],
) -> Option<usize>
    ensures written { (result, out.new) ≡ written_to (published head rows.now (D.Decider.decider.saved 1 (D.Decider.state levels.now))) out.old }
    ensures law { WriterLaw D.Decider.decider D.Decider.saves }
{
    if !has_room(rows, levels, out.len()) {
        return None;
    }
    fill_publication(head, rows, levels, out)
}
