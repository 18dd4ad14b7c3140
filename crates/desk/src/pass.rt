ghost use Rattle.std.specs.Prelude.{◌≡◌};
ghost use Rattle.desk.specs.Passes.{pass_form, pass_kind, pass_lawful};

use passes::chip::ChipPass;
use passes::form::Form;
use passes::identifier::Identifier;
use passes::kind::PassKind;
use passes::tag::Tag;

/// A pass of either kind, as a line names it. It holds its serial, where `passes::reading::Pass` borrows one from the bytes read; one type for both would
/// need a parameter with a contract for its form, for two enums of two lines.
#[derive(Clone, Copy)]
pub enum Pass {
    Tag(Tag),
    Chip(ChipPass),
}

impl Pass {
    /// Its kind.
    pub(crate) fn kind(&self) -> PassKind
        ensures { result ≡ pass_kind self.now }
    {
        match self {
            Pass::Tag(_) => PassKind::Tag,
            Pass::Chip(_) => PassKind::Chip,
        }
    }
}

impl Identifier for Pass {
    ghost form = { pass_form };

    ghost lawful = { pass_lawful };

    fn written(&self) -> Form {
        match self {
            Pass::Tag(tag) => tag.written(),
            Pass::Chip(chip) => chip.written(),
        }
    }
}
