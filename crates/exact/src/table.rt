ghost use Rattle.std.specs.Prelude.{◌≡◌, ◌≤◌, true, length, take};
ghost use Rattle.filters.specs.Kind.{hashes_allowed};
ghost use Rattle.exact.specs.Rows.{pack, forms_of, keepable};

use filters::Hashing;

/// The most rows of an exact list.
pub const MOST_ROWS: usize = 64;

/// The most bytes of a row: its length, and a form of at most 23 bytes.
pub const ROW_SIZE: usize = 24;

/// The bytes of the table.
pub const TABLE_SIZE: usize = MOST_ROWS * ROW_SIZE;

/// An exact list: rows packed in ascending order at the front of a table that holds the most rows.
// A buffer with its length beside it: nothing allocates here.
#[derive(Drop)]
pub struct ExactList {
    pub(crate) table: [u8; TABLE_SIZE],
    pub(crate) len: usize,
    pub(crate) count: usize,
    pub(crate) hashing: Hashing,
    ghost sized: { (length table ≡ 1536) × (len ≤ 1536) × (hashes_allowed hashing.hashes ≡ true) },
    ghost filled: { (keepable (forms_of (take len table)) ≡ true) × (pack (forms_of (take len table)) ≡ take len table) × (count ≡ length (forms_of (take len table))) },
}
