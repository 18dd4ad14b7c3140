//! Reading a whole input as a publication.
ghost use Rattle.std.specs.Prelude.{◌≡◌, is_ok, Ok, Err, Decides, MatchResult};
ghost use Rattle.publications.specs.Reading.{reads};
ghost use Rattle.publications.specs.Layout.{Holds, Written, LayoutLaw};

use crate::coverage::Coverage;
use crate::heads::read_head;
use crate::known::KnownMakes;
use fields::reader::Reader;
use levels::tables::read_table;
use publications::{COVERAGE, Publication};
use refusals::Refusal;

/// Reads a whole input as a publication of a make that is known. It is accepted exactly if it is the writing of a content that is
/// allowed.
pub fn read_publication<'a, M: KnownMakes>(
    makes: &M,
    input: &'a [u8],
) -> Result<Publication<'a>, Refusal>
    ensures value { MatchResult result
        (λ p. Holds (M.makes makes.now) input.now p)
        (λ e. reads (M.makes makes.now) input.now ≡ Err e) }
    ensures meaning { Decides (is_ok result) (Written (M.makes makes.now) input.now) }
    ensures law { LayoutLaw (M.makes makes.now) }
{
    let mut reader = Reader::new(input);
    let head = read_head(makes, &mut reader)?;
    let coverage = read_table::<Coverage>(COVERAGE, head.hashes, &mut reader)?;
    let start = reader.place();
    makes.judge(head, &mut reader)?;
    let end = reader.place();
    reader.check()?;
    Ok(Publication {
        head,
        coverage,
        tables: &input[start..end],
    })
}
