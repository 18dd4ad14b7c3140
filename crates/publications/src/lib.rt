//! What a publication holds, its bytes, and the laws of their layout.
#![tactic(auto)]

ghost use Rattle.publications.specs.Publications.{row_bytes};

use fields::written::Written;
use passes::kind::PassKind;
use std::fmt;

/// The tag of the field of the head.
pub const HEAD: u8 = 0x01;

/// The tag of the field of the coverage.
pub const COVERAGE: u8 = 0x02;

/// How many bytes a coverage row has.
pub const ROW_SIZE: usize = 7;

/// The most coverage rows of a publication.
pub const MOST_ROWS: usize = 64;

/// A coverage row: the issue days of an issuer's passes of a kind that are known, from the first to the last.
#[derive(Clone, Copy)]
pub struct CoverageRow {
    pub kind: PassKind,
    pub issuer: u16,
    pub first: u16,
    pub last: u16,
}

impl fmt::Display for CoverageRow {
    fn fmt<W: fmt::Write>(&self, f: &mut fmt::Formatter<W>) -> fmt::Result {
        write!(
            f,
            "{} {} {} {}",
            self.kind, self.issuer, self.first, self.last
        )
    }
}

impl Written for CoverageRow {
    ghost bytes = { row_bytes };

    fn size(&self) -> usize {
        ROW_SIZE
    }

    fn write(&self, out: &mut [u8]) -> Option<usize> {
        if out.len() < ROW_SIZE {
            return None;
        }
        let issuer = self.issuer.to_be_bytes();
        let first = self.first.to_be_bytes();
        let last = self.last.to_be_bytes();
        out[0..ROW_SIZE].copy_from_slice(&[
            self.kind.into(),
            issuer[0],
            issuer[1],
            first[0],
            first[1],
            last[0],
            last[1],
        ]);
        Some(ROW_SIZE)
    }
}

/// The head of a publication: its make, its hash count, the salt and the publication number.
/// The make is a number and no enum, since a reader may know one of its own.
#[derive(Clone, Copy)]
pub struct PublicationHead {
    pub make: u8,
    pub hashes: u8,
    pub salt: u16,
    pub number: u32,
}

/// A publication that was read: its head, the bytes of its coverage rows, and the fields of its tables, as parts of the input.
// The rows stay bytes, as the input has them, since nothing is copied; `publication_layout::coverage::coverage_row` gives one.
#[derive(Clone, Copy)]
pub struct Publication<'a> {
    pub head: PublicationHead,
    pub coverage: &'a [u8],
    pub tables: &'a [u8],
}
