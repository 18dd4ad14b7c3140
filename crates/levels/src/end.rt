ghost use Rattle.std.specs.Prelude.{◌≡◌, ℕ, List};
ghost use Rattle.levels.specs.Deciders.{end_decides, end_saves};
ghost use Rattle.levels.specs.Keeping.{end_keeps, end_saves_tables};

use crate::Side;
use crate::decider::{Decider, Tabled};
use crate::marked::Marked;
use crate::tables::{Loadable, read_table, tag_of, write_table};
use fields::reader::Reader;
use filters::{Exact, Filter, Hashing, Settings};
use passes::identifier::Identifier;
use refusals::{Reason, Refusal};

/// The end: an exact filter that holds every "for".
#[derive(Drop)]
pub struct End<F> {
    filter: F,
}

impl<F: Exact> Decider for End<F> {
    ghost State = { F.Filter.View };

    ghost decider = { end_decides F.Filter.kind };

    ghost state = { λ e. F.Filter.view e.filter };

    ghost saves = { end_saves F.Filter.kind };

    ghost keeps = { end_keeps F.Filter.kind F.Filter.rules F.Exact.alone };

    fn blank() -> Self {
        End { filter: F::blank() }
    }

    fn ask<I: Identifier>(&self, id: &I) -> (Side, u8) {
        if self.filter.ask(id) {
            (Side::For, 2)
        } else {
            (Side::Against, 1)
        }
    }

    fn build<I: Identifier>(
        &mut self,
        at: Hashing,
        sizes: &[usize],
        register: &mut Marked<'_, I>,
    ) -> Result<(), Refusal> {
        if !sizes.is_empty() {
            return Err(Reason::BadSetting.into());
        }
        // the table size of an end, by a number: its name stands in the crate of the exact list, on which levels don't stand
        let settings = Settings {
            hashing: at,
            size: 1536,
        };
        register.begin(&mut self.filter, settings)
    }

    fn fits(&self, level: u8, room: usize) -> bool {
        // Header and body fit: one comparison here, in `Level::fits` and in `write_table`, which a call of its own would not make plainer.
        room >= 3 && room - 3 >= self.filter.saved_len()
    }

    fn save(&self, level: u8, out: &mut [u8]) -> Option<usize> {
        write_table(tag_of(level), &self.filter, out)
    }

    fn judge(at: Hashing, reader: &mut Reader<'_>) -> Result<(), Refusal> {
        let _ = read_table::<Loadable<F>>(tag_of(at.level), at.hashes, reader)?;
        Ok(())
    }

    fn load(&mut self, at: Hashing, reader: &mut Reader<'_>) -> Result<(), Refusal> {
        let body = read_table::<Loadable<F>>(tag_of(at.level), at.hashes, reader)?;
        self.filter.load(at, body)
    }
}

impl<F: Exact> Tabled for End<F> {
    ghost saves_tables = { end_saves_tables F.Filter.kind F.Filter.rules };
}
