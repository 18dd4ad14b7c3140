//! The Bloom filter.
#![tactic(auto)]

ghost use Rattle.std.specs.Prelude.{◌≡◌, ◌*◌, ◌<◌, true};
ghost use Rattle.filters.specs.Memory.{view_of};
ghost use Rattle.bloom.specs.Bits.{bit, position, SetsThese};
ghost use Rattle.bloom.specs.Bloom.{BloomView, bloom_kind, says_pair, with_pair};
ghost use Rattle.bloom.specs.Rules.{bloom_rules, bloom_sound};

use filters::table::{MOST_BYTES, Table};
use filters::{Filter, Hashing, Settings, Stored, allows_hashes, write_saved};
use passes::identifier::{HashPair, Identifier};
use refusals::Refusal;

pub mod table;

use table::Bloom;

/// A put sets the bits of the identifier's positions and leaves every other bit as it was.
pub fn put_sets_these() -> bool
    ensures { (SetsThese) × (result ≡ true) }
{
    true
}

impl Bloom {
    /// Position i of a hash pair among the bits in use, in exact whole numbers.
    fn position(&self, pair: HashPair, i: u8) -> usize
        ensures is { result ≡ position pair.h1 pair.h2 (8 * self.now.table.settings.size) i }
        ensures low { result < 8 * self.now.table.settings.size }
    {
        let bits = 8 * self.table.settings.size as u64;
        ((pair.h1 as u64 + i as u64 * pair.h2 as u64) % bits) as usize
    }

    /// Sets the positions of a hash pair.
    fn set(&mut self, pair: HashPair)
        ensures { view_of self.new.table ≡ with_pair (view_of self.old.table) pair }
    {
        for i in 0..self.table.settings.hashing.hashes {
            let n = self.position(pair, i);
            self.table.buffer[n / 8] |= 1 << (n % 8);
        }
    }

    /// Whether bit n of the table in use is set.
    fn bit(&self, n: usize) -> bool
        requires { n < 8 * self.now.table.settings.size }
        ensures { result ≡ bit (view_of self.now.table).table n }
    {
        self.table.front()[n / 8] >> (n % 8) & 1 == 1
    }

    /// Whether the positions of a hash pair are all set.
    fn has(&self, pair: HashPair) -> bool
        ensures { result ≡ says_pair (view_of self.now.table) pair }
    {
        (0..self.table.settings.hashing.hashes).all(|i| self.bit(self.position(pair, i)))
    }
}

impl Filter for Bloom {
    ghost View = { BloomView };

    ghost kind = { bloom_kind };

    ghost rules = { bloom_rules };

    ghost view = { λ b. view_of b.table };

    ghost sound = { λ b. bloom_sound b.table.settings b.table.buffer b.table.real.0 b.table.real.1 b.allowed };

    // From here to `take_over` the kinds over a table are alike but for sizes. A trait of kinds over a table, with one impl of `Filter` for all of
    // them, is no shorter for two: each would give that trait its sizes, its table, its put and its answer, and the impl hand on all ten calls.
    fn blank() -> Bloom {
        let settings = Settings {
            hashing: Hashing::FIRST,
            size: 1,
        };
        Bloom {
            table: Table::new(settings),
        }
    }

    fn allows(size: usize, hashes: u8) -> bool {
        <Bloom as Filter>::measures(size) && allows_hashes(hashes)
    }

    fn measures(len: usize) -> bool {
        (1..=MOST_BYTES).contains(&len)
    }

    fn judge_content(_body: &[u8]) -> Result<(), Refusal> {
        Ok(())
    }

    fn settings(&self) -> Settings {
        self.table.settings
    }

    fn saved_len(&self) -> usize {
        self.table.front().len()
    }

    fn save(&self, out: &mut [u8]) -> Option<usize> {
        write_saved(self.table.front(), out)
    }

    fn empty(&mut self, settings: Settings) {
        self.table = Table::new(settings);
    }

    fn take_over(&mut self, hashing: Hashing, body: &[u8]) {
        self.table.refill(hashing, body);
    }

    fn put<I: Identifier>(&mut self, id: &I) -> bool {
        let pair = self.table.pair_of(id);
        self.set(pair);
        true
    }

    fn ask<I: Identifier>(&self, id: &I) -> bool {
        self.has(self.table.pair_of(id))
    }
}

impl Stored for Bloom {
    fn saved(&self) -> &[u8] {
        self.table.front()
    }
}
