ghost use Rattle.std.specs.Prelude.{◌≡◌, ℕ, ◌+◌, List, length, Ok, Err, MatchResult};
ghost use Rattle.passes.specs.Outputs.{written_to};
ghost use Rattle.fields.specs.Fields.{field};
ghost use Rattle.levels.specs.Deciders.{Table, table_of, table_in, judged_as, tag_of};

use fields::in_field;
use fields::reader::Reader;
use fields::written::header;
use filters::Filter;
use refusals::{Reason, Refusal};
use std::marker::PhantomData;

/// What judges the body of a field that is a table: which lengths fit, and whether bytes of such a length are accepted.
pub trait Judge {
    ghost table: { Table };

    /// Whether bytes of this length fit.
    fn measures(len: usize) -> bool
        ensures { result ≡ table.measures len };

    /// Whether bytes of a fitting length are accepted under a hash count, as a filter's judge; the error is the reason why not.
    fn judge(hashes: u8, body: &[u8]) -> Result<(), Reason>
        ensures { result ≡ judged_as (table.judged hashes body.now) };
}

/// Judges as load of a kind of filter does.
pub struct Loadable<F>(PhantomData<F>);

impl<F: Filter> Judge for Loadable<F> {
    ghost table = { table_of F.Filter.kind };

    fn measures(len: usize) -> bool {
        F::measures(len)
    }

    fn judge(hashes: u8, body: &[u8]) -> Result<(), Reason> {
        // a filter's refusal names no field, so its reason is all of it
        F::judge(hashes, body).map_err(|refusal| refusal.reason)
    }
}

/// The tag of a level's field.
pub fn tag_of(level: u8) -> u8
    ensures { result ≡ tag_of level }
{
    level.saturating_add(16)
}

/// Reads the field of a table and judges it; the body is a part of the input.
pub fn read_table<'a, J: Judge>(
    tag: u8,
    hashes: u8,
    reader: &mut Reader<'a>,
) -> Result<&'a [u8], Refusal>
    ensures verdict { MatchResult result
        (λ b. (table_in J.table tag hashes reader.old.input.now reader.old.at ≡ Ok b.now) × (reader.new.at ≡ reader.old.at + 3 + length b.now))
        (λ e. table_in J.table tag hashes reader.old.input.now reader.old.at ≡ Err e) }
    ensures input { reader.new.input.now ≡ reader.old.input.now }
{
    let header = reader.header(tag)?;
    if !J::measures(header.len) {
        return Err(Reason::BadLength.at(tag, header.place));
    }
    let body = reader.body(header)?;
    in_field(tag, header.place, J::judge(hashes, body))?;
    Ok(body)
}

/// Writes a filter's table as a field to the front of the output.
pub(crate) fn write_table<F: Filter>(tag: u8, filter: &F, out: &mut [u8]) -> Option<usize>
    ensures { (result, out.new) ≡ written_to (field tag (F.Filter.kind.saved (F.Filter.view filter.now))) out.old }
{
    let n = filter.saved_len();
    if out.len() < 3 || out.len() - 3 < n {
        return None;
    }
    out[0..3].copy_from_slice(&header(tag, n));
    let _ = filter.save(&mut out[3..]);
    Some(3 + n)
}
