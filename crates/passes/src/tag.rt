ghost use Rattle.passes.specs.Forms.{tag_form};
ghost use Rattle.passes.specs.Lawful.{tag_lawful};

use crate::form::Form;
use crate::identifier::Identifier;
use crate::kind::PassKind;
use std::fmt;

/// A window tag: two numbers.
#[derive(Clone, Copy)]
pub struct Tag {
    pub issuer: u16,
    pub number: u64,
}

impl Identifier for Tag {
    ghost form = { tag_form };

    ghost lawful = { tag_lawful };

    fn written(&self) -> Form {
        let i = self.issuer.to_be_bytes();
        let n = self.number.to_be_bytes();
        let mut bytes = [0; 23];
        bytes[0..11].copy_from_slice(&[
            PassKind::Tag.into(),
            i[0],
            i[1],
            n[0],
            n[1],
            n[2],
            n[3],
            n[4],
            n[5],
            n[6],
            n[7],
        ]);
        Form { len: 11, bytes }
    }
}

impl fmt::Display for Tag {
    fn fmt<W: fmt::Write>(&self, f: &mut fmt::Formatter<W>) -> fmt::Result {
        write!(f, "{} {} {}", PassKind::Tag, self.issuer, self.number)
    }
}
