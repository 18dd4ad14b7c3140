//! The coverage rows of a publication.
ghost use Rattle.std.specs.Prelude.{◌≡◌, ◌*◌, ◌/◌, ◌≤◌, ◌+◌, length, if◌then◌else◌, Some, None, MatchResult, nat_lt};
ghost use Rattle.std.specs.List.{list_any};
ghost use Rattle.refusals.specs.declared.Reason.TheVariants.{BadValue};
ghost use Rattle.fields.specs.Reading.{two};
ghost use Rattle.publications.specs.Reading.{row_at, rows_in, coverage_judge, JudgesAs};
ghost use Rattle.publications.specs.Chunks.{same_two};

use levels::tables::Judge;
use passes::kind::PassKind;
use publications::{CoverageRow, MOST_ROWS, ROW_SIZE};
use refusals::Reason;

/// The number in two bytes from a place on.
fn two_at(row: &[u8; ROW_SIZE], at: usize) -> u16
    requires { at + 2 ≤ length row.now }
    ensures { result ≡ two row.now at }
{
    u16::from_be_bytes([row[at], row[at + 1]])
}

/// The row in seven bytes; one that isn't allowed is a bad value. No `TryFrom`: the type is of a crate below.
fn row_in(row: &[u8; ROW_SIZE]) -> Result<CoverageRow, Reason>
    ensures { MatchResult result (λ r. row_at row.now 0 ≡ Some r) (λ e. (row_at row.now 0 ≡ None) × (e ≡ BadValue)) }
{
    let kind = PassKind::try_from(row[0])?;
    let issuer = two_at(row, 1);
    let first = two_at(row, 3);
    let last = two_at(row, 5);
    if first > last {
        return Err(Reason::BadValue);
    }
    Ok(CoverageRow {
        kind,
        issuer,
        first,
        last,
    })
}

/// Whether two rows have the same kind and issuer: these are numbers of a row, where `==` on a part of it would compare bytes.
fn same_key(x: &[u8; ROW_SIZE], y: &[u8; ROW_SIZE]) -> bool
    ensures { result ≡ same_two x.now y.now }
{
    x[0] == y[0] && two_at(x, 1) == two_at(y, 1)
}

/// Whether one of the rows before a row has its kind and issuer.
fn repeats(before: &[[u8; ROW_SIZE]], row: &[u8; ROW_SIZE]) -> bool
    ensures { result ≡ list_any (λ x. same_two x row.now) before.now }
{
    before.iter().any(|other| same_key(other, row))
}

/// Judges rows one by one: not allowed, then repeated.
fn judge_rows(bytes: &[u8]) -> Result<(), Reason>
    ensures { JudgesAs result (rows_in bytes.now) }
{
    let (rows, _) = bytes.as_chunks::<ROW_SIZE>();
    for (i, row) in rows.iter().enumerate() {
        row_in(row)?;
        if repeats(&rows[..i], row) {
            return Err(Reason::NotAscending);
        }
    }
    Ok(())
}

/// Judges coverage: 1 to 64 rows, each allowed, and no kind and issuer twice.
pub struct Coverage;

impl Judge for Coverage {
    ghost table = { coverage_judge };

    fn measures(len: usize) -> bool {
        (ROW_SIZE..=MOST_ROWS * ROW_SIZE).contains(&len) && len % ROW_SIZE == 0
    }

    fn judge(_hashes: u8, body: &[u8]) -> Result<(), Reason> {
        judge_rows(body)
    }
}

/// The coverage row at an index of the bytes of coverage rows; none if it isn't there or isn't allowed.
pub fn coverage_row(bytes: &[u8], index: usize) -> Option<CoverageRow>
    ensures { result ≡ (if nat_lt index (length bytes.now / 7) then row_at bytes.now (7 * index) else None) }
{
    let (rows, _) = bytes.as_chunks::<ROW_SIZE>();
    row_in(rows.get(index)?).ok()
}
