ghost use Rattle.std.specs.Prelude.{◌≡◌, ℕ, List};
ghost use Rattle.murmur.specs.Hash.{murmur};
ghost use Rattle.passes.specs.Forms.{spelled};
ghost use Rattle.passes.specs.Lawful.{Lawful};
ghost use Rattle.passes.specs.Seeds.{hash_pair};

use crate::form::Form;

/// The two hashes of a form at a salt and level, from which every filter works.
#[derive(Clone, Copy)]
pub struct HashPair {
    pub h1: u32,
    pub h2: u32,
}

/// What names a pass. Its meaning is its written form, which is lawful; its hash is that of the form.
pub trait Identifier {
    ghost form: { Self → List ℕ };

    ghost lawful: { (x : Self) → Lawful (form x) };

    /// The written form.
    fn written(&self) -> Form
        ensures { spelled result ≡ form self.now };

    /// The hash of the written form.
    fn hash(&self, seed: u32) -> u32
        ensures { result ≡ murmur seed (form self.now) }
    {
        let form = self.written();
        murmur::hash(seed, form.as_bytes())
    }

    /// The two hashes at a salt and level; the form is written once.
    fn hashes(&self, salt: u16, level: u8) -> HashPair
        ensures { result ≡ hash_pair salt level (form self.now) }
    {
        let form = self.written();
        let first = 256 * salt as u32 + level as u32;
        let h1 = murmur::hash(first, form.as_bytes());
        let h2 = murmur::hash(first + 0x100_0000, form.as_bytes());
        HashPair { h1, h2 }
    }
}
