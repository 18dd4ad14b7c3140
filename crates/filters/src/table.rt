//! The memory of a filter whose state is a table of bytes.
ghost use Rattle.std.specs.Prelude.{◌≡◌, ◌≤◌, true, length, take};
ghost use Rattle.passes.specs.Bytes.{bytes};
ghost use Rattle.filters.specs.Tables.{zeroed, refilled, bounded, pair_of};

use crate::{Hashing, Settings};
use passes::identifier::{HashPair, Identifier};

/// The most bytes that a table has.
pub const MOST_BYTES: usize = 2048;

/// A table of bytes of which the front is in use, as much as the settings say; so it stands in place, since a gate has no heap.
// Its fields are public: its kinds read the settings and write single bytes of the buffer. The check does not cover a method that hands out a part of
// the buffer for writing: "a part of a struct that has a ghost field is returned as `&mut`, where it .. is made a slice".
#[derive(Drop)]
pub struct Table {
    pub buffer: [u8; MOST_BYTES],
    pub settings: Settings,
    ghost fits: { settings.size ≤ 2048 },
    ghost real: { (length buffer ≡ 2048) × (bytes buffer ≡ true) },
}

impl Table {
    ghost use Rattle.filters.specs.Memory.{view_of};

    /// An empty table under these settings; a size above the most bytes counts as the most.
    pub fn new(settings: Settings) -> Table
        ensures { view_of result ≡ zeroed (bounded settings) }
    {
        Table {
            buffer: [0; MOST_BYTES],
            settings: Settings {
                size: settings.size.min(MOST_BYTES),
                ..settings
            },
        }
    }

    /// The bytes in use.
    pub fn front(&self) -> &[u8]
        ensures { result.now ≡ (view_of self.now).table }
    {
        &self.buffer[..self.settings.size]
    }

    /// The two hashes of an identifier under its settings.
    pub fn pair_of<I: Identifier>(&self, id: &I) -> HashPair
        ensures { result ≡ pair_of self.now.settings (I.form id.now) }
    {
        let at = self.settings.hashing;
        id.hashes(at.salt, at.level)
    }

    /// Takes over bytes as the whole of the table in use; of more than the most bytes the front.
    pub fn refill(&mut self, hashing: Hashing, body: &[u8])
        ensures { view_of self.new ≡ refilled hashing (take MOST_BYTES body.now) }
    {
        let size = body.len().min(MOST_BYTES);
        self.buffer[0..size].copy_from_slice(&body[0..size]);
        self.settings = Settings { hashing, size };
    }
}
