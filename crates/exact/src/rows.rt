//! Rows: written forms packed one behind the other, each behind its length. They stand as they are saved, since gates have no heap and
//! the list is loaded and saved by one copy.
ghost use Rattle.std.specs.Prelude.{◌≡◌, ◌+◌, ◌≤◌, [], ◌∷◌, ◌++◌, length, take, drop, is_ok, Decides, MatchOption, slice_index};
ghost use Rattle.std.specs.Iterator.{YieldsFirstRef, item_count};
ghost use Rattle.passes.specs.Order.{before};
ghost use Rattle.filters.specs.Kind.{content_reason};
ghost use Rattle.filters.specs.Answers.{answered};
ghost use Rattle.exact.specs.Rows.{row, first_form, behind_first, forms_of, stands, place, whole, judge_rows};
ghost use Rattle.exact.specs.Packing.{Packing, PackingLaw};

use crate::table::MOST_ROWS;
use passes::order::precedes;
use passes::reading::is_lawful;
use refusals::{Reason, Refusal};

/// The form of the first row and what is behind the row; none if there is no row.
fn split_row(rows: &[u8]) -> Option<(&[u8], &[u8])>
    ensures { MatchOption result (rows.now ≡ []) (λ p. (p.0.now ≡ first_form rows.now) × (p.1.now ≡ behind_first rows.now) × (1 ≤ length rows.now) × (forms_of rows.now ≡ p.0.now ∷ forms_of p.1.now)) }
{
    if rows.len() == 0 {
        return None;
    }
    let end = (1 + rows[0] as usize).min(rows.len());
    Some((&rows[1..end], &rows[end..]))
}

/// Whether the first row has a length of 4 to 23 and is not cut short.
fn is_whole(rows: &[u8]) -> bool
    requires { 1 ≤ length rows.now }
    ensures { result ≡ whole (slice_index rows.now 0) (drop 1 rows.now) }
{
    let n = rows[0] as usize;
    (4..=23).contains(&n) && n < rows.len()
}

/// Judges rows: at most 64, each whole and lawful, and in ascending order.
pub fn judge_rows(body: &[u8]) -> Result<(), Refusal>
    ensures value { result ≡ answered (content_reason (judge_rows body.now)) }
    ensures meaning { Decides (is_ok result) (Packing body.now) }
    ensures law { PackingLaw }
{
    // No `Rows` here: whether a row is cut short shows in what is left of the body, and not in its form.
    let mut left = body;
    let mut last = &body[0..0];
    let mut room = MOST_ROWS;
    'rows: while let Some((form, rest)) = split_row(left) {
        if room == 0 || !is_whole(left) || !is_lawful(form) {
            return Err(Reason::BadValue.into());
        }
        if !precedes(last, form) {
            return Err(Reason::NotAscending.into());
        }
        room -= 1;
        last = form;
        left = rest;
    }
    Ok(())
}

/// Goes over the forms of rows; of a row that is cut short it gives what there is.
#[derive(Drop)]
struct Rows<'a>(&'a [u8]);

impl<'a> Iterator for Rows<'a> {
    type Item = &'a [u8];

    ghost next_gives = { YieldsFirstRef (λ s. forms_of s.0.now) };

    ghost remaining = { item_count (λ s. forms_of s.0.now) };

    fn next(&mut self) -> Option<&'a [u8]> {
        let (form, rest) = split_row(self.0)?;
        self.0 = rest;
        Some(form)
    }
}

/// Whether a form is among those of the rows.
pub fn has_form(rows: &[u8], form: &[u8]) -> bool
    ensures { result ≡ stands form.now (forms_of rows.now) }
{
    Rows(rows).any(|here| here == form)
}

/// How many rows there are.
pub(crate) fn count_rows(rows: &[u8]) -> usize
    ensures { result ≡ length (forms_of rows.now) }
{
    Rows(rows).count()
}

/// How many bytes the rows have that stand before a form.
pub(crate) fn place_of(rows: &[u8], form: &[u8]) -> usize
    ensures { result ≡ place form.now (forms_of rows.now) }
{
    Rows(rows)
        .take_while(|here| precedes(here, form))
        .map(|here| 1 + here.len())
        .sum()
}

/// Puts the row of a form between the first `at` of `n` bytes in use and the others.
pub(crate) fn insert_row(table: &mut [u8], n: usize, at: usize, form: &[u8])
    requires { (at ≤ n) × (n + (1 + length form.now) ≤ length table.old) × (length form.now ≤ 23) }
    ensures { take (n + (1 + length form.now)) table.new ≡ take at (take n table.old) ++ (row form.now ++ drop at (take n table.old)) }
{
    let end = n + 1 + form.len();
    table[n] = form.len() as u8;
    table[n + 1..end].copy_from_slice(form);
    table[at..end].rotate_right(1 + form.len());
}
