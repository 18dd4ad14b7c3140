ghost use Rattle.std.specs.Prelude.{◌≡◌, ◌+◌, ◌*◌, ◌<◌, slice_range, position, ◌==◌};
ghost use Rattle.filters.specs.Memory.{view_of};
ghost use Rattle.filters.specs.Tables.{after_try};
ghost use Rattle.cuckoo.specs.Cells.{fingerprint, partner, holds, put_into, kicked, settled, stands, stored};
ghost use Rattle.cuckoo.specs.Cuckoo.{buckets, bucket_of};
ghost use Rattle.cuckoo.specs.Tried.{tried};

use crate::table::Cuckoo;
use passes::identifier::HashPair;

/// How many cells a bucket has.
pub(crate) const BUCKET_SIZE: usize = 4;

/// How often fingerprints are kicked on before a put gives up.
const MOST_KICKS: usize = 64;

/// A fingerprint, and a bucket for it. It doesn't know its table, so each call that is given one asks for a bucket of the table.
#[derive(Clone, Copy)]
pub(crate) struct Place {
    bucket: usize,
    fingerprint: u8,
}

impl Cuckoo {
    /// The fingerprint of a hash pair, and its first bucket.
    pub(crate) fn place(&self, pair: HashPair) -> Place
        ensures is { (result.bucket ≡ bucket_of self.now.table.settings pair) × (result.fingerprint ≡ fingerprint pair.h2) }
        ensures low { result.bucket < buckets self.now.table.settings }
    {
        Place {
            bucket: pair.h1 as usize % (self.table.settings.size / BUCKET_SIZE),
            fingerprint: 1 + (pair.h2 % 255) as u8,
        }
    }

    /// The same fingerprint, and the partner of its bucket.
    fn partner(&self, at: Place) -> Place
        requires { at.bucket < buckets self.now.table.settings }
        ensures is { (result.bucket ≡ partner (buckets self.now.table.settings) at.bucket at.fingerprint) × (result.fingerprint ≡ at.fingerprint) }
        ensures low { result.bucket < buckets self.now.table.settings }
    {
        let spread = (at.fingerprint as u32).wrapping_mul(0x5BD1_E995) as usize;
        Place {
            bucket: at.bucket ^ (spread % (self.table.settings.size / BUCKET_SIZE)),
            fingerprint: at.fingerprint,
        }
    }

    /// The cells of a bucket.
    fn bucket(&self, i: usize) -> &[u8]
        requires { i < buckets self.now.table.settings }
        ensures { result.now ≡ slice_range (view_of self.now.table).table (4 * i) (4 * i + 4) }
    {
        let first = BUCKET_SIZE * i;
        &self.table.front()[first..first + BUCKET_SIZE]
    }

    /// Whether a fingerprint stands in its bucket.
    fn holds(&self, at: Place) -> bool
        requires { at.bucket < buckets self.now.table.settings }
        ensures { result ≡ holds (view_of self.now.table).table (4 * at.bucket) 4 at.fingerprint }
    {
        self.bucket(at.bucket).contains(&at.fingerprint)
    }

    /// Which cell of a bucket is the lowest empty one.
    fn empty_cell(&self, i: usize) -> Option<usize>
        requires { i < buckets self.now.table.settings }
        ensures { result ≡ position (λ cell. cell == 0) (slice_range (view_of self.now.table).table (4 * i) (4 * i + 4)) }
    {
        self.bucket(i).iter().position(|&cell| cell == 0)
    }

    /// Puts a fingerprint into the lowest empty cell of its bucket, and says whether there was one.
    fn fill(&mut self, at: Place) -> bool
        requires { at.bucket < buckets self.old.table.settings }
        ensures { (result, view_of self.new.table) ≡ after_try (put_into (view_of self.old.table).table (4 * at.bucket) 4 at.fingerprint) (view_of self.old.table) }
    {
        let Some(k) = self.empty_cell(at.bucket) else {
            return false;
        };
        self.table.buffer[BUCKET_SIZE * at.bucket + k] = at.fingerprint;
        true
    }

    /// Whether a fingerprint stands in its bucket or the partner.
    pub(crate) fn stands(&self, at: Place) -> bool
        requires { at.bucket < buckets self.now.table.settings }
        ensures { result ≡ stands (partner (buckets self.now.table.settings)) (view_of self.now.table).table at.bucket at.fingerprint }
    {
        self.holds(at) || self.holds(self.partner(at))
    }

    /// Puts a fingerprint into an empty cell of its bucket, else of the partner.
    fn settle(&mut self, at: Place) -> bool
        requires { at.bucket < buckets self.old.table.settings }
        ensures { (result, view_of self.new.table) ≡ after_try (settled (partner (buckets self.old.table.settings)) (view_of self.old.table).table at.bucket at.fingerprint) (view_of self.old.table) }
    {
        if self.fill(at) {
            return true;
        }
        let other = self.partner(at);
        self.fill(other)
    }

    /// Kicks fingerprints on from a bucket, until one finds an empty cell or the kicks are used up.
    fn kick(&mut self, first: Place) -> bool
        requires { first.bucket < buckets self.old.table.settings }
        ensures put { kicked (partner (buckets self.old.table.settings)) 64 0 first.bucket first.fingerprint (view_of self.old.table).table ≡ tried result (view_of self.new.table).table }
        ensures kept { self.new.table.settings ≡ self.old.table.settings }
    {
        let mut at = first;
        let mut found = false;
        'search: for n in 0..MOST_KICKS {
            let cell = BUCKET_SIZE * at.bucket + n % BUCKET_SIZE;
            let kicked = self.table.buffer[cell];
            self.table.buffer[cell] = at.fingerprint;
            at = self.partner(Place {
                bucket: at.bucket,
                fingerprint: kicked,
            });
            // The lowest empty cell ends the search from within the walk over the bucket's cells: the project has such a search end at a label.
            let first = BUCKET_SIZE * at.bucket;
            for cell in &mut self.table.buffer[first..first + BUCKET_SIZE] {
                if *cell == 0 {
                    *cell = at.fingerprint;
                    found = true;
                    break 'search;
                }
            }
        }
        found
    }

    /// Puts a fingerprint, and says whether it was taken; one that isn't leaves every cell as it was.
    pub(crate) fn store(&mut self, at: Place) -> bool
        requires { at.bucket < buckets self.old.table.settings }
        ensures { (result, view_of self.new.table) ≡ after_try (stored (partner (buckets self.old.table.settings)) (view_of self.old.table).table at.bucket at.fingerprint) (view_of self.old.table) }
    {
        if self.stands(at) || self.settle(at) {
            return true;
        }
        let before = self.table.buffer;
        if self.kick(at) {
            return true;
        }
        self.table.buffer = before;
        false
    }
}
