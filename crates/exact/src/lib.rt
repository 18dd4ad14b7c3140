//! The exact list: a filter that says yes to exactly the identifiers put in, at most 64.
#![tactic(auto)]

ghost use Rattle.std.specs.Prelude.{◌≡◌, ◌<◌, false, take};
ghost use Rattle.passes.specs.Lawful.{Lawful};
ghost use Rattle.exact.specs.Rows.{stands, added};
ghost use Rattle.exact.specs.Exact.{ExactView, exact_kind};
ghost use Rattle.exact.specs.Memory.{view_of};
ghost use Rattle.exact.specs.Rules.{exact_rules, exact_sound, exact_alone};

use filters::{Exact, Filter, Hashing, Settings, Stored, allows_hashes, write_saved};
use passes::identifier::Identifier;
use refusals::Refusal;

pub mod rows;
pub mod table;

use rows::{count_rows, has_form, insert_row, judge_rows, place_of};
use table::{ExactList, MOST_ROWS, TABLE_SIZE};

impl ExactList {
    /// The rows in use.
    fn front(&self) -> &[u8]
        ensures { result.now ≡ take self.now.len self.now.table }
    {
        &self.table[..self.len]
    }

    /// Adds a form that does not stand yet, where there is room for it.
    fn add(&mut self, form: &[u8])
        requires { Lawful form.now × (stands form.now (view_of self.old).forms ≡ false) × (self.old.count < MOST_ROWS) }
        ensures { view_of self.new ≡ record { hashing = self.old.hashing; forms = added form.now (view_of self.old).forms } }
    {
        let n = self.len;
        let at = place_of(self.front(), form);
        insert_row(&mut self.table, n, at, form);
        self.len = n + (1 + form.len());
        self.count += 1;
    }
}

impl Filter for ExactList {
    ghost View = { ExactView };

    ghost kind = { exact_kind };

    ghost rules = { exact_rules };

    ghost view = { view_of };

    ghost sound = { λ e. exact_sound e.hashing (take e.len e.table) e.sized.2 e.filled.0 };

    fn blank() -> ExactList {
        ExactList {
            table: [0; TABLE_SIZE],
            len: 0,
            count: 0,
            hashing: Hashing::FIRST,
        }
    }

    fn allows(size: usize, hashes: u8) -> bool {
        size == TABLE_SIZE && allows_hashes(hashes)
    }

    fn measures(len: usize) -> bool {
        len <= TABLE_SIZE
    }

    fn judge_content(body: &[u8]) -> Result<(), Refusal> {
        judge_rows(body)
    }

    fn settings(&self) -> Settings {
        Settings {
            hashing: self.hashing,
            size: TABLE_SIZE,
        }
    }

    fn saved_len(&self) -> usize {
        self.len
    }

    fn save(&self, out: &mut [u8]) -> Option<usize> {
        write_saved(self.front(), out)
    }

    fn empty(&mut self, settings: Settings) {
        self.len = 0;
        self.count = 0;
        self.hashing = settings.hashing;
    }

    fn take_over(&mut self, hashing: Hashing, body: &[u8]) {
        let n = body.len();
        self.table[0..n].copy_from_slice(body);
        self.len = n;
        self.count = count_rows(body);
        self.hashing = hashing;
    }

    fn put<I: Identifier>(&mut self, id: &I) -> bool {
        let form = id.written();
        if has_form(self.front(), form.as_bytes()) {
            return true;
        }
        if self.count == MOST_ROWS {
            return false;
        }
        self.add(form.as_bytes());
        true
    }

    fn ask<I: Identifier>(&self, id: &I) -> bool {
        let form = id.written();
        has_form(self.front(), form.as_bytes())
    }
}

impl Stored for ExactList {
    fn saved(&self) -> &[u8] {
        self.front()
    }
}

impl Exact for ExactList {
    ghost alone = { exact_alone };
}
