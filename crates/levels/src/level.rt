ghost use Rattle.std.specs.Prelude.{◌≡◌, ℕ, List};
ghost use Rattle.levels.specs.Deciders.{Over, deeper, level_decides, level_saves};
ghost use Rattle.levels.specs.Keeping.{level_keeps, level_saves_tables};

use crate::Side;
use crate::decider::{Decider, Tabled};
use crate::marked::Marked;
use crate::tables::{Loadable, read_table, tag_of, write_table};
use fields::reader::Reader;
use filters::{Filter, Hashing, Settings};
use passes::identifier::Identifier;
use refusals::{Reason, Refusal};

/// A filter over a decider: it decides for what its filter says yes to and the decider below does not decide for.
#[derive(Drop)]
pub struct Level<F, D> {
    filter: F,
    below: D,
}

/// How the next level down hashes.
fn deeper(at: Hashing) -> Hashing
    ensures { result ≡ deeper at }
{
    Hashing {
        level: at.level.saturating_add(1),
        ..at
    }
}

impl<F: Filter, D: Decider> Decider for Level<F, D> {
    ghost State = { Over F.Filter.View D.Decider.State };

    ghost decider = { level_decides F.Filter.kind D.Decider.decider };

    ghost state = { λ e. record { filter = F.Filter.view e.filter; below = D.Decider.state e.below } };

    ghost saves = { level_saves F.Filter.kind D.Decider.saves };

    ghost keeps = { level_keeps F.Filter.kind F.Filter.rules D.Decider.decider D.Decider.keeps };

    fn blank() -> Self {
        Level {
            filter: F::blank(),
            below: D::blank(),
        }
    }

    fn ask<I: Identifier>(&self, id: &I) -> (Side, u8) {
        if !self.filter.ask(id) {
            return (Side::Against, 1);
        }
        let (side, source) = self.below.ask(id);
        (!side, source.saturating_add(1))
    }

    fn build<I: Identifier>(
        &mut self,
        at: Hashing,
        sizes: &[usize],
        register: &mut Marked<'_, I>,
    ) -> Result<(), Refusal> {
        let [size, rest @ ..] = sizes else {
            return Err(Reason::BadSetting.into());
        };
        let settings = Settings {
            hashing: at,
            size: *size,
        };
        register.begin(&mut self.filter, settings)?;
        register.turn(&self.filter);
        self.below.build(deeper(at), rest, register)
    }

    fn fits(&self, level: u8, room: usize) -> bool {
        let n = self.filter.saved_len();
        if room < 3 || room - 3 < n {
            return false;
        }
        self.below.fits(level.saturating_add(1), room - 3 - n)
    }

    fn save(&self, level: u8, out: &mut [u8]) -> Option<usize> {
        if !self.fits(level, out.len()) {
            return None;
        }
        let n = write_table(tag_of(level), &self.filter, out)?;
        let m = self.below.save(level.saturating_add(1), &mut out[n..])?;
        Some(n + m)
    }

    fn judge(at: Hashing, reader: &mut Reader<'_>) -> Result<(), Refusal> {
        let _ = read_table::<Loadable<F>>(tag_of(at.level), at.hashes, reader)?;
        D::judge(deeper(at), reader)
    }

    fn load(&mut self, at: Hashing, reader: &mut Reader<'_>) -> Result<(), Refusal> {
        let body = read_table::<Loadable<F>>(tag_of(at.level), at.hashes, reader)?;
        self.filter.load(at, body)?;
        self.below.load(deeper(at), reader)
    }
}

impl<F: Filter, D: Tabled> Tabled for Level<F, D> {
    ghost saves_tables = { level_saves_tables F.Filter.kind F.Filter.rules D.Decider.decider D.Decider.saves D.Tabled.saves_tables };
}
