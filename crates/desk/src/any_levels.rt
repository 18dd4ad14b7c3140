//! The makes of levels, behind one type.
ghost use Rattle.std.specs.Prelude.{◌≡◌, ℕ, IfOk, Ok, box_value};
ghost use Rattle.levels.specs.Rows.{listed};
ghost use Rattle.passes.specs.Outputs.{written_to};
ghost use Rattle.piles.specs.Tries.{built_in};
ghost use Rattle.desk.specs.Passes.{pass_form};
ghost use Rattle.desk.specs.Sources.{ComesOf};
ghost use Rattle.desk.specs.Makes.{NamesMake, make_of};
ghost use Rattle.desk.specs.declared.any_levels.Make.TheVariants.{AllBloom as MakeAllBloom, CuckooFirst as MakeCuckooFirst};
ghost use Rattle.desk.specs.declared.any_levels.AnyLevels.TheVariants.{AllBloom, CuckooFirst};

use crate::faults::Fault;
use crate::pass::Pass;
use crate::plans::Plan;
use crate::saving::saved;
use bloom::table::Bloom;
use cuckoo::table::Cuckoo;
use filters::{Filter, Hashing};
use levels::decider::Decider;
use levels::{Entry, Side};
use makes::BloomBelow;
use piles::pile::load_fields;
use piles::retry::Retry;
use std::alloc::Global;

/// A make of levels that can be had, with its number.
#[derive(Clone, Copy)]
pub enum Make {
    /// every level is Bloom
    AllBloom = 1,
    /// the first level is cuckoo
    CuckooFirst = 2,
}

impl TryFrom<u8> for Make {
    type Error = Fault;

    ghost try_from_gives = { NamesMake };

    fn try_from(number: u8) -> Result<Self, Fault> {
        match number {
            1 => Ok(Make::AllBloom),
            2 => Ok(Make::CuckooFirst),
            _ => Err(Fault::NoSuchMake),
        }
    }
}

/// Six levels, the first of some kind and the others Bloom, over an exact end, and the retry layer above.
pub type Tower<F> = Retry<BloomBelow<F>>;

/// Levels of some make. The interface of levels is generic, so they can't be a `dyn Decider`.
#[derive(Drop)]
pub enum AnyLevels {
    AllBloom(Box<Tower<Bloom>>),
    CuckooFirst(Box<Tower<Cuckoo>>),
}

/// Levels with the salt of level 1, and the fields that they save.
#[derive(Drop)]
pub struct Levels {
    any: AnyLevels,
    pub(crate) salt: u16,
    pub(crate) fields: Vec<u8>,
}

/// What new levels come from.
#[derive(Clone, Copy)]
pub enum Source<'a> {
    /// a list that is built by a plan, with so many work bytes
    Register {
        plan: Plan,
        list: &'a [Entry<Pass>],
        room: usize,
    },
    /// the fields at the front of an input
    Fields {
        hashing: Hashing,
        input: &'a [u8],
    },
}

/// New levels that are built from a list by a plan, and the salt that succeeded.
fn built<D: Decider + Drop>(
    heap: Global,
    plan: &Plan,
    list: &[Entry<Pass>],
    room: usize,
) -> Result<(Box<Retry<D>>, u16), Fault>
    ensures { IfOk result (λ p. built_in D.Decider.decider (record { salt = plan.now.salt; level = 1; hashes = plan.now.hashes }) plan.now.sizes (listed pass_form list.now) room ≡ Ok (p.1, D.Decider.state (box_value p.0).below)) }
{
    let mut work = vec![in heap; 0; room]?;
    let mut levels = Box::new(heap, Retry::<D>::blank())?;
    let salt = levels.build_register(plan.hashing(), &plan.sizes, list, &mut work)?;
    Ok((levels, salt))
}

/// New levels that are loaded from the fields at the front of an input, and where the fields end.
fn loaded<D: Decider + Drop>(
    heap: Global,
    hashing: Hashing,
    input: &[u8],
) -> Result<(Box<Retry<D>>, usize), Fault>
    ensures { IfOk result (λ p. D.Decider.decider.loads hashing input.now 0 ≡ Ok (D.Decider.state (box_value p.0).below, p.1)) }
{
    let mut levels = Box::new(heap, Retry::<D>::blank())?;
    let end = load_fields(&mut *levels, hashing, input)?;
    Ok((levels, end))
}

/// The fields that levels save, the first being level 1.
fn fields<D: Decider>(heap: Global, levels: &D) -> Result<Vec<u8>, Fault>
    ensures { IfOk result (λ v. v.items ≡ D.Decider.decider.saved 1 (D.Decider.state levels.now)) }
{
    saved(
        heap,
        |out|
            ensures { (result, out.new) ≡ written_to (D.Decider.decider.saved 1 (D.Decider.state levels.entry.now)) out.old }
        { levels.save(1, out) },
    )
}

/// New levels from a source, with the salt of level 1.
fn sourced<D: Decider + Drop>(
    heap: Global,
    source: Source<'_>,
) -> Result<(Box<Retry<D>>, u16), Fault>
    ensures { IfOk result (λ p. ComesOf D.Decider.decider source.entry (D.Decider.state (box_value p.0).below) p.1) }
{
    match source {
        Source::Register { plan, list, room } => built(heap, &plan, list, room),
        Source::Fields { hashing, input } => {
            let (levels, _) = loaded(heap, hashing, input)?;
            Ok((levels, hashing.salt))
        }
    }
}

/// New levels from a source, with the salt of level 1 and the fields that they save.
fn fresh<D: Decider + Drop>(
    heap: Global,
    source: Source<'_>,
) -> Result<(Box<Retry<D>>, u16, Vec<u8>), Fault>
    ensures sourced { IfOk result (λ p. ComesOf D.Decider.decider source.entry (D.Decider.state (box_value p.0).below) p.1) }
    ensures saved { IfOk result (λ p. p.2.items ≡ D.Decider.decider.saved 1 (D.Decider.state (box_value p.0).below)) }
{
    let (levels, salt) = sourced(heap, source)?;
    let fields = fields(heap, &*levels)?;
    Ok((levels, salt, fields))
}

impl Levels {
    /// New levels of a make.
    pub(crate) fn new(heap: Global, make: Make, source: Source<'_>) -> Result<Levels, Fault>
        ensures make { IfOk result (λ l. make_of l.any ≡ make) }
        ensures sourced { IfOk result (λ l. elim l.any [
          | AllBloom b ↦ (make ≡ MakeAllBloom) × ComesOf ⟦<BloomBelow<Bloom> as Decider>⟧.decider source.entry (⟦<BloomBelow<Bloom> as Decider>⟧.state (box_value b).below) l.salt
          | CuckooFirst b ↦ (make ≡ MakeCuckooFirst) × ComesOf ⟦<BloomBelow<Cuckoo> as Decider>⟧.decider source.entry (⟦<BloomBelow<Cuckoo> as Decider>⟧.state (box_value b).below) l.salt
        ]) }
        ensures saved { IfOk result (λ l. elim l.any [
          | AllBloom b ↦ l.fields.items ≡ ⟦<BloomBelow<Bloom> as Decider>⟧.decider.saved 1 (⟦<BloomBelow<Bloom> as Decider>⟧.state (box_value b).below)
          | CuckooFirst b ↦ l.fields.items ≡ ⟦<BloomBelow<Cuckoo> as Decider>⟧.decider.saved 1 (⟦<BloomBelow<Cuckoo> as Decider>⟧.state (box_value b).below)
        ]) }
    {
        let (any, salt, fields) = match make {
            Make::AllBloom => {
                let (levels, salt, fields) = fresh(heap, source)?;
                (AnyLevels::AllBloom(levels), salt, fields)
            }
            Make::CuckooFirst => {
                let (levels, salt, fields) = fresh(heap, source)?;
                (AnyLevels::CuckooFirst(levels), salt, fields)
            }
        };
        Ok(Levels { any, salt, fields })
    }

    /// Their make.
    pub(crate) fn make(&self) -> Make
        ensures { result ≡ make_of self.now.any }
    {
        match self.any {
            AnyLevels::AllBloom(_) => Make::AllBloom,
            AnyLevels::CuckooFirst(_) => Make::CuckooFirst,
        }
    }

    /// The side of a pass, and the source of the decision.
    pub(crate) fn ask(&self, pass: &Pass) -> (Side, u8)
        ensures { elim self.now.any [
          | AllBloom b ↦ (result.0, result.1) ≡ ⟦<BloomBelow<Bloom> as Decider>⟧.decider.decides (⟦<BloomBelow<Bloom> as Decider>⟧.state (box_value b).below) (pass_form pass.now)
          | CuckooFirst b ↦ (result.0, result.1) ≡ ⟦<BloomBelow<Cuckoo> as Decider>⟧.decider.decides (⟦<BloomBelow<Cuckoo> as Decider>⟧.state (box_value b).below) (pass_form pass.now)
        ] }
    {
        match &self.any {
            AnyLevels::AllBloom(levels) => levels.ask(pass),
            AnyLevels::CuckooFirst(levels) => levels.ask(pass),
        }
    }
}
