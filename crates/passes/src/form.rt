ghost use Rattle.std.specs.Prelude.{◌≡◌};
ghost use Rattle.passes.specs.Forms.{spelled};

/// The written form of an identifier: 4 to 23 bytes. They are held in place with their number beside them, since a gate has no heap.
#[derive(Clone, Copy)]
pub struct Form {
    pub(crate) len: u8,
    pub(crate) bytes: [u8; 23],
}

impl Form {
    /// The bytes of the form.
    pub fn as_bytes(&self) -> &[u8]
        ensures { result.now ≡ spelled self.now }
    {
        let n = (self.len as usize).min(23);
        &self.bytes[0..n]
    }
}
