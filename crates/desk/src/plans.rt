ghost use Rattle.std.specs.Prelude.{◌≡◌};

use filters::Hashing;

/// How a register is to be built; it is not judged before the build.
#[derive(Clone, Copy)]
pub struct Plan {
    // any number: the build says whether there is such a make
    pub(crate) make: u8,
    pub(crate) hashes: u8,
    pub(crate) sizes: [usize; 6],
    pub(crate) salt: u16,
    pub(crate) number: u32,
}

impl Plan {
    /// How the first level hashes at the first salt.
    pub(crate) fn hashing(&self) -> Hashing
        ensures { result ≡ record { salt = self.now.salt; level = 1; hashes = self.now.hashes } }
    {
        Hashing::at_top(self.salt, self.hashes)
    }
}
