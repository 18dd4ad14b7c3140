ghost use Rattle.std.specs.Prelude.{◌≡◌, true};
ghost use Rattle.bloom.specs.Setting.{bloom_allows};

use filters::table::Table;

/// A Bloom filter: a table of bits.
#[derive(Drop)]
pub struct Bloom {
    pub(crate) table: Table,
    ghost allowed: { bloom_allows table.settings.size table.settings.hashing.hashes ≡ true },
}
