ghost use Rattle.std.specs.Prelude.{◌≡◌, ℕ, List, length, replicate, Ok, Err, MatchResult};
ghost use Rattle.levels.specs.Rows.{rows, listed};
ghost use Rattle.piles.specs.Tries.{retried, built_in, Outcome};

use fields::reader::Reader;
use filters::Hashing;
use levels::decider::{Decider, Tabled};
use levels::mark::Mark;
use levels::marked::Marked;
use levels::{Entry, Side};
use passes::identifier::Identifier;
use refusals::{Reason, Refusal};

/// The work bytes of a build, one for each pass. They are zero when the build ends, on every way out.
struct Marks<'a>(&'a mut [u8]);

impl Drop for Marks<'_> {
    fn drop(self)
        ensures { self.exit.0.now ≡ replicate (length self.entry.0.now) 0 }
    {
        self.0.fill(0);
        let Marks(_) = self;
    }
}

/// The retry layer: it builds the decider below at up to eight salts, and means what that one means.
#[derive(Drop)]
pub struct Retry<D> {
    below: D,
}

/// Marks each pass by its side.
fn mark_sides<I: Identifier>(register: &mut Marked<'_, I>)
    ensures kept { register.new.list.now ≡ register.old.list.now }
    ensures marked { rows I.Identifier.form register.new.list.now register.new.marks.now ≡ listed I.Identifier.form register.old.list.now }
{
    // by index: what stands in a list after a zip of `iter_mut` isn't known
    let marks = &mut *register.marks;
    for (i, entry) in register.list.iter().enumerate() {
        marks[i] = Mark::from(entry.side).into();
    }
}

impl<D: Decider> Retry<D> {
    /// Builds from a register at the salts from the one given on, at most eight; says which succeeded. The caller lends list and work bytes apart;
    /// they are one `Marked` once there are enough of these.
    pub fn build_register<I: Identifier>(
        &mut self,
        at: Hashing,
        sizes: &[usize],
        list: &[Entry<I>],
        work: &mut [u8],
    ) -> Result<u16, Refusal>
        ensures built { MatchResult result
            (λ salt. built_in D.Decider.decider at sizes.now (listed I.Identifier.form list.now) (length work.old) ≡ Ok (salt, D.Decider.state self.new.below))
            (λ e. built_in D.Decider.decider at sizes.now (listed I.Identifier.form list.now) (length work.old) ≡ Err e) }
        ensures law { Outcome D.Decider.decider }
        ensures zero { work.new ≡ replicate (length work.old) 0 }
    {
        let marks = Marks(work);
        let n = list.len();
        if marks.0.len() < n {
            return Err(Reason::NoRoom.into());
        }
        let mut register = Marked {
            list,
            marks: &mut marks.0[0..n],
        };
        self.try_salts(at, sizes, &mut register)
    }

    /// One try, at the salt given.
    fn try_salt<I: Identifier>(
        &mut self,
        at: Hashing,
        sizes: &[usize],
        marked: &mut Marked<'_, I>,
    ) -> Result<(), Refusal>
        ensures built { MatchResult result
            (λ _. D.Decider.decider.build at sizes.now (listed I.Identifier.form marked.old.list.now) ≡ Ok (D.Decider.state self.new.below))
            (λ e. D.Decider.decider.build at sizes.now (listed I.Identifier.form marked.old.list.now) ≡ Err e) }
        ensures kept { marked.new.list.now ≡ marked.old.list.now }
    {
        mark_sides(marked);
        self.below.build(at, sizes, marked)
    }

    /// Tries one salt after the other, until one succeeds or the eighth fails.
    fn try_salts<I: Identifier>(
        &mut self,
        at: Hashing,
        sizes: &[usize],
        register: &mut Marked<'_, I>,
    ) -> Result<u16, Refusal>
        ensures kept { register.new.list.now ≡ register.old.list.now }
        ensures built { MatchResult result
            (λ salt. retried D.Decider.decider at sizes.now (listed I.Identifier.form register.old.list.now) 7 at.salt ≡ Ok (salt, D.Decider.state self.new.below))
            (λ e. retried D.Decider.decider at sizes.now (listed I.Identifier.form register.old.list.now) 7 at.salt ≡ Err e) }
    {
        let mut salt = at.salt;
        let mut more: u8 = 7;
        // The loop yields what the tries came to, as the project has it; a `for` has no value.
        let outcome = loop {
            match self.try_salt(Hashing { salt, ..at }, sizes, register) {
                Ok(()) => break Ok(salt),
                Err(refusal) => {
                    if more == 0 {
                        break Err(refusal);
                    }
                }
            }
            more -= 1;
            salt = salt.wrapping_add(1);
        };
        outcome
    }
}

impl<D: Decider> Decider for Retry<D> {
    ghost State = { D.Decider.State };

    ghost decider = { D.Decider.decider };

    ghost state = { λ r. D.Decider.state r.below };

    ghost saves = { D.Decider.saves };

    ghost keeps = { D.Decider.keeps };

    fn blank() -> Self {
        Retry { below: D::blank() }
    }

    fn ask<I: Identifier>(&self, id: &I) -> (Side, u8) {
        self.below.ask(id)
    }

    fn build<I: Identifier>(
        &mut self,
        at: Hashing,
        sizes: &[usize],
        register: &mut Marked<'_, I>,
    ) -> Result<(), Refusal> {
        self.below.build(at, sizes, register)
    }

    fn fits(&self, level: u8, room: usize) -> bool {
        self.below.fits(level, room)
    }

    fn save(&self, level: u8, out: &mut [u8]) -> Option<usize> {
        self.below.save(level, out)
    }

    fn judge(at: Hashing, reader: &mut Reader<'_>) -> Result<(), Refusal> {
        D::judge(at, reader)
    }

    fn load(&mut self, at: Hashing, reader: &mut Reader<'_>) -> Result<(), Refusal> {
        self.below.load(at, reader)
    }
}

impl<D: Tabled> Tabled for Retry<D> {
    ghost saves_tables = { D.Tabled.saves_tables };
}
