ghost use Rattle.std.specs.Prelude.{◌≡◌, ℕ, List, map, length, Ok, Err, MatchResult};
ghost use Rattle.levels.specs.Marks.{mark_number};
ghost use Rattle.levels.specs.Deciders.{remark};

use crate::Entry;
use crate::mark::Mark;
use filters::{Filter, Settings};
use passes::identifier::Identifier;
use refusals::{Reason, Refusal};

/// A register with a mark for each of its passes, in work bytes that are lent. That a call keeps the list is a clause of each: it speaks of before
/// and after, of which an invariant sees one.
#[derive(Drop)]
pub struct Marked<'a, I> {
    pub list: &'a [Entry<I>],
    pub marks: &'a mut [u8],
    ghost same_length: { length list.now ≡ length marks.now },
}

/// The mark of an identifier in the decider below.
fn next_mark<F: Filter, I: Identifier>(filter: &F, id: &I, mark: Mark) -> Mark
    ensures { mark_number result ≡ remark F.Filter.kind (F.Filter.view filter.now) (record { form = I.Identifier.form id.now; mark = mark_number mark }) }
{
    match mark {
        Mark::For => Mark::Against,
        Mark::Against if filter.ask(id) => Mark::For,
        _ => Mark::Out,
    }
}

impl<I: Identifier> Marked<'_, I> {
    ghost use Rattle.levels.specs.Rows.{rows};
    ghost use Rattle.levels.specs.Deciders.{fill as filled, turn as turned, begun};

    /// Puts the "for" into a filter, in list order; an error is the index of the first not taken.
    fn fill<F: Filter>(&self, filter: &mut F) -> Result<(), usize>
        ensures { MatchResult result
            (λ _. filled F.Filter.kind (F.Filter.view filter.old) 0 (rows I.Identifier.form self.now.list.now self.now.marks.now) ≡ Ok (F.Filter.view filter.new))
            (λ i. filled F.Filter.kind (F.Filter.view filter.old) 0 (rows I.Identifier.form self.now.list.now self.now.marks.now) ≡ Err i) }
    {
        // by index, as in `turn`; an error names it. A mark is compared as the byte that it is, since of the three only "for" matters here.
        for (i, entry) in self.list.iter().enumerate() {
            if self.marks[i] == Mark::For as u8 && !filter.put(&entry.id) {
                return Err(i);
            }
        }
        Ok(())
    }

    /// Clears a filter and puts the "for" in; a put not taken names the level and the index.
    pub(crate) fn begin<F: Filter>(&self, filter: &mut F, settings: Settings) -> Result<(), Refusal>
        ensures { MatchResult result
            (λ _. begun F.Filter.kind settings (rows I.Identifier.form self.now.list.now self.now.marks.now) ≡ Ok (F.Filter.view filter.new))
            (λ e. begun F.Filter.kind settings (rows I.Identifier.form self.now.list.now self.now.marks.now) ≡ Err e) }
    {
        filter.clear(settings)?;
        self.fill(filter)
            .map_err(|place| Reason::NotTaken.at(settings.hashing.level, place))
    }

    /// Gives each identifier its mark for the decider below.
    pub(crate) fn turn<F: Filter>(&mut self, filter: &F)
        ensures kept { self.new.list.now ≡ self.old.list.now }
        ensures turned { rows I.Identifier.form self.new.list.now self.new.marks.now ≡ map (turned F.Filter.kind (F.Filter.view filter.now)) (rows I.Identifier.form self.old.list.now self.old.marks.now) }
    {
        // by index: what stands in a list after a zip of `iter_mut` isn't known
        let marks = &mut *self.marks;
        for (i, entry) in self.list.iter().enumerate() {
            marks[i] = next_mark(filter, &entry.id, marks[i].into()).into();
        }
    }
}
