//! Fields: reading them one after the other from an input, writing them one behind the other, and the check that ends them.
#![tactic(auto)]

ghost use Rattle.std.specs.Prelude.{◌≡◌};
ghost use Rattle.fields.specs.Reading.{in_field};

use refusals::{Reason, Refusal};

pub mod checks;
pub mod reader;
pub mod written;

/// The header of a field: its tag, the place of its first byte, and the length of its body.
#[derive(Clone, Copy)]
pub struct Header {
    pub tag: u8,
    pub place: usize,
    pub len: usize,
}

/// What was found in the body of a field, or the refusal of that field for the reason that came.
pub fn in_field<T>(tag: u8, place: usize, found: Result<T, Reason>) -> Result<T, Refusal>
    ensures { result ≡ in_field tag place found }
{
    found.map_err(|reason| reason.at(tag, place))
}
