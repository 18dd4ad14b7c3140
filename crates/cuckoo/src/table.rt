ghost use Rattle.std.specs.Prelude.{◌≡◌, true};
ghost use Rattle.cuckoo.specs.Setting.{cuckoo_allows};

use filters::table::Table;

/// A cuckoo filter: buckets of four one-byte cells, in a table.
#[derive(Drop)]
pub struct Cuckoo {
    pub(crate) table: Table,
    ghost allowed: { cuckoo_allows table.settings.size table.settings.hashing.hashes ≡ true },
}
