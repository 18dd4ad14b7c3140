//! The register: passes with their sides.
ghost use Rattle.std.specs.Prelude.{◌≡◌, ◌+◌, ◌-◌, ◌*◌, ◌<◌, true, [], ◌∷◌, ◌++◌, length, OnOk};
ghost use Rattle.desk.specs.Faults.{undone};
ghost use Rattle.desk.specs.Registers.{side_at, entries, turned_at, turned};

use crate::faults::Fault;
use crate::pass::Pass;
use crate::span::Span;
use levels::{Entry, Side};
use passes::kind::PassKind;
use std::alloc::Global;

/// How many passes a register has at most.
pub(crate) const MOST: usize = 8192;

/// The sides of many passes.
#[derive(Clone, Copy)]
pub enum Sides {
    /// one side for all
    All(Side),
    /// the first is blocked, and each at this distance after it
    Every(u16),
}

impl Sides {
    /// The side of the pass at a place, from 0.
    fn at(self, i: u16) -> Side
        ensures { result ≡ side_at self i }
    {
        match self {
            Sides::All(side) => side,
            Sides::Every(distance) => {
                if i % distance.max(1) == 0 {
                    Side::For
                } else {
                    Side::Against
                }
            }
        }
    }
}

/// Turns the side of the entry at a place.
#[tactic(auto, using(crate::proofs::Turned::set_turns), unfolding(crate::specs::Registers::turned_at))]
fn turn_at(list: &mut [Entry<Pass>], at: usize)
    requires { at < length list.old }
    ensures { list.new ≡ turned_at at list.old }
{
    list[at].side = !list[at].side;
}

/// Turns the sides of so many entries at equal distances, one after the other.
#[tactic(auto, using(crate::proofs::Reach::reach), unfolding(crate::specs::Registers::turned))]
fn turn_all(list: &mut [Entry<Pass>], index: usize, step: usize, count: u16)
    requires { index + step * (count - 1) < length list.old }
    ensures { list.new ≡ turned index step count list.old }
{
    // by index, since a step may be 0
    'turns: for i in 0..count {
        turn_at(list, index + step * i as usize);
    }
}

/// Passes with their sides, all tags or all chip passes, in the order in which they were entered.
#[derive(Drop)]
pub struct Register {
    list: Vec<Entry<Pass>>,
}

impl Register {
    /// A register without a pass.
    pub(crate) fn new(heap: Global) -> Register
        ensures { result.list.items ≡ [] }
    {
        Register {
            list: Vec::new(heap),
        }
    }

    /// Its passes, each with its side.
    pub(crate) fn list(&self) -> &[Entry<Pass>]
        ensures { result.now ≡ self.now.list.items }
    {
        self.list.as_slice()
    }

    /// Takes every pass out.
    pub(crate) fn clear(&mut self)
        ensures { self.new.list.items ≡ [] }
    {
        self.list.clear();
    }

    /// Whether so many more passes of a kind may be entered.
    fn admit(&self, kind: PassKind, more: usize) -> Result<(), Fault> {
        let first = self.list.as_slice().first();
        if first.is_some_and(|first| first.id.kind() != kind) {
            return Err(Fault::RegisterMixed);
        }
        if more > MOST.saturating_sub(self.list.len()) {
            return Err(Fault::RegisterFull);
        }
        Ok(())
    }

    /// One pass more at the end.
    // That what is refused changes nothing joins a value before and after, here as elsewhere: an invariant sees one of them.
    pub(crate) fn add(&mut self, id: Pass, side: Side) -> Result<(), Fault>
        ensures added { OnOk result (self.new.list.items ≡ self.old.list.items ++ record { id = id; side = side } ∷ []) }
        ensures kept { undone result ≡ true → self.new ≡ self.old }
    {
        self.admit(id.kind(), 1)?;
        self.list.push(Entry { id, side })?;
        Ok(())
    }

    /// All passes of a span more at the end.
    #[tactic(auto, unfolding(crate::specs::Registers::entries))]
    pub(crate) fn add_all(&mut self, span: &Span, sides: Sides) -> Result<(), Fault>
        ensures added { OnOk result (self.new.list.items ≡ self.old.list.items ++ entries sides span.now span.now.numbers.count) }
        ensures kept { undone result ≡ true → self.new ≡ self.old }
    {
        self.admit(span.kind(), span.count() as usize)?;
        // by place, as `Span::how_many`; the side goes by place too
        'passes: for i in 0..span.count() {
            let id = span.pass(i);
            let side = sides.at(i);
            self.list.push(Entry { id, side })?;
        }
        Ok(())
    }

    /// Turns the side of the pass at an index, and of those that follow at a distance, so many in all.
    pub(crate) fn turn(&mut self, index: usize, step: usize, count: u16) -> Result<(), Fault>
        ensures turned { OnOk result (self.new.list.items ≡ turned index step count self.old.list.items) }
        ensures kept { undone result ≡ true → self.new ≡ self.old }
    {
        let reach = step.saturating_mul(count.saturating_sub(1) as usize);
        if index.saturating_add(reach) >= self.list.len() {
            return Err(Fault::PastTheEnd);
        }
        turn_all(&mut self.list, index, step, count);
        Ok(())
    }
}
