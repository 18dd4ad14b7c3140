//! The cuckoo filter.
#![tactic(auto)]

ghost use Rattle.std.specs.Prelude.{◌≡◌, true};
ghost use Rattle.filters.specs.Memory.{view_of};
ghost use Rattle.cuckoo.specs.Cuckoo.{CuckooView, cuckoo_kind};
ghost use Rattle.cuckoo.specs.Laws.{CuckooLaws};
ghost use Rattle.cuckoo.specs.Rules.{cuckoo_rules, cuckoo_sound};

use filters::table::{MOST_BYTES, Table};
use filters::{Filter, Hashing, Settings, Stored, allows_hashes, write_saved};
use passes::identifier::Identifier;
use refusals::Refusal;

mod cells;
pub mod table;

use cells::BUCKET_SIZE;
use table::Cuckoo;

/// Partners lead back, table sizes are powers of two, and a put of what is found changes nothing.
pub fn table_laws() -> bool
    ensures { (CuckooLaws) × (result ≡ true) }
{
    true
}

impl Filter for Cuckoo {
    ghost View = { CuckooView };

    ghost kind = { cuckoo_kind };

    ghost rules = { cuckoo_rules };

    ghost view = { λ c. view_of c.table };

    ghost sound = { λ c. cuckoo_sound c.table.settings c.table.buffer c.table.real.0 c.table.real.1 c.allowed };

    // From here to `take_over` the kinds over a table are alike but for sizes. A trait of kinds over a table, with one impl of `Filter` for all of
    // them, is no shorter for two: each would give that trait its sizes, its table, its put and its answer, and the impl hand on all ten calls.
    fn blank() -> Cuckoo {
        let settings = Settings {
            hashing: Hashing::FIRST,
            size: BUCKET_SIZE,
        };
        Cuckoo {
            table: Table::new(settings),
        }
    }

    fn allows(size: usize, hashes: u8) -> bool {
        <Cuckoo as Filter>::measures(size) && allows_hashes(hashes)
    }

    fn measures(len: usize) -> bool {
        (BUCKET_SIZE..=MOST_BYTES).contains(&len) && len.is_power_of_two()
    }

    fn judge_content(_body: &[u8]) -> Result<(), Refusal> {
        Ok(())
    }

    fn settings(&self) -> Settings {
        self.table.settings
    }

    fn saved_len(&self) -> usize {
        self.table.front().len()
    }

    fn save(&self, out: &mut [u8]) -> Option<usize> {
        write_saved(self.table.front(), out)
    }

    fn empty(&mut self, settings: Settings) {
        self.table = Table::new(settings);
    }

    fn take_over(&mut self, hashing: Hashing, body: &[u8]) {
        self.table.refill(hashing, body);
    }

    fn put<I: Identifier>(&mut self, id: &I) -> bool {
        let place = self.place(self.table.pair_of(id));
        self.store(place)
    }

    fn ask<I: Identifier>(&self, id: &I) -> bool {
        self.stands(self.place(self.table.pair_of(id)))
    }
}

impl Stored for Cuckoo {
    fn saved(&self) -> &[u8] {
        self.table.front()
    }
}
