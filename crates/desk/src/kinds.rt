//! The kinds of filter, behind one type.
ghost use Rattle.std.specs.Prelude.{◌≡◌, false, not, IfOk, is_ok, box_value};
ghost use Rattle.passes.specs.Outputs.{written_to};
ghost use Rattle.filters.specs.Kind.{allowed};
ghost use Rattle.desk.specs.Faults.{undone};
ghost use Rattle.desk.specs.Passes.{pass_form};
ghost use Rattle.desk.specs.Filters.{any_view, any_settings, any_says, any_saved, any_cleared, any_allows, any_put, any_load, NamesKind};

use crate::faults::Fault;
use crate::pass::Pass;
use bloom::table::Bloom;
use cuckoo::table::Cuckoo;
use exact::table::ExactList;
use filters::{Filter, Settings};
use refusals::Refusal;
use std::alloc::Global;
use std::fmt;

/// The kind of a filter.
#[derive(Clone, Copy)]
pub enum Kind {
    Bloom,
    Cuckoo,
    Exact,
}

impl TryFrom<&[u8]> for Kind {
    type Error = Fault;

    ghost try_from_gives = { λ word r. NamesKind word.now r };

    fn try_from(word: &[u8]) -> Result<Self, Fault> {
        match word {
            b"bloom" => Ok(Kind::Bloom),
            b"cuckoo" => Ok(Kind::Cuckoo),
            b"exact" => Ok(Kind::Exact),
            _ => Err(Fault::Usage),
        }
    }
}

impl fmt::Display for Kind {
    fn fmt<W: fmt::Write>(&self, f: &mut fmt::Formatter<W>) -> fmt::Result {
        f.write_str(match self {
            Kind::Bloom => "bloom",
            Kind::Cuckoo => "cuckoo",
            Kind::Exact => "exact",
        })
    }
}

/// A filter of some kind.
#[derive(Drop)]
pub enum AnyFilter {
    Bloom(Box<Bloom>),
    Cuckoo(Box<Cuckoo>),
    Exact(Box<ExactList>),
}

/// Does the same with a filter of whichever kind. The filter itself isn't given out as a `dyn Filter`: the interface is generic, and a function that
/// hands out a `dyn` is refused.
macro_rules! whichever {
    ($any:expr, $filter:ident => $call:expr) => {
        match $any {
            AnyFilter::Bloom($filter) => $call,
            AnyFilter::Cuckoo($filter) => $call,
            AnyFilter::Exact($filter) => $call,
        }
    };
}

/// A filter that says yes to none, under these settings.
fn empty<F: Filter + Drop>(heap: Global, settings: Settings) -> Result<Box<F>, Fault>
    ensures made { IfOk result (λ b. F.Filter.view (box_value b) ≡ F.Filter.kind.cleared settings) }
    ensures judged { undone result ≡ not (allowed F.Filter.kind settings) }
{
    let mut filter = F::blank();
    filter.clear(settings)?;
    Ok(Box::new(heap, filter)?)
}

impl AnyFilter {
    /// A filter of a kind that says yes to none, under these settings.
    pub(crate) fn new(heap: Global, kind: Kind, settings: Settings) -> Result<AnyFilter, Fault>
        ensures made { IfOk result (λ f. any_view f ≡ any_cleared kind settings) }
        ensures judged { undone result ≡ not (any_allows kind settings) }
    {
        match kind {
            Kind::Bloom => Ok(AnyFilter::Bloom(empty(heap, settings)?)),
            Kind::Cuckoo => Ok(AnyFilter::Cuckoo(empty(heap, settings)?)),
            Kind::Exact => Ok(AnyFilter::Exact(empty(heap, settings)?)),
        }
    }

    /// The settings under which it stands.
    pub(crate) fn settings(&self) -> Settings
        ensures { result ≡ any_settings (any_view self.now) }
    {
        whichever!(self, filter => filter.settings())
    }

    /// Adds a pass, and says whether it was taken.
    pub(crate) fn put(&mut self, pass: &Pass) -> bool
        ensures { (result, any_view self.new) ≡ any_put (any_view self.old) (pass_form pass.now) }
    {
        whichever!(self, filter => filter.put(pass))
    }

    /// Whether it says yes to a pass.
    pub(crate) fn ask(&self, pass: &Pass) -> bool
        ensures { result ≡ any_says (any_view self.now) (pass_form pass.now) }
    {
        whichever!(self, filter => filter.ask(pass))
    }

    /// Writes its bytes to the front of the output and says how many; none if they don't fit.
    pub(crate) fn save(&self, out: &mut [u8]) -> Option<usize>
        ensures { (result, out.new) ≡ written_to (any_saved (any_view self.now)) out.old }
    {
        whichever!(self, filter => filter.save(out))
    }

    /// Takes over saved bytes under its present salt, level and hash count.
    pub(crate) fn load(&mut self, body: &[u8]) -> Result<(), Refusal>
        ensures loaded { (result, any_view self.new) ≡ any_load (any_view self.old) body.now }
        ensures kept { is_ok result ≡ false → any_view self.new ≡ any_view self.old }
    {
        let hashing = self.settings().hashing;
        whichever!(self, filter => filter.load(hashing, body))
    }
}
