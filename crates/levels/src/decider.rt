ghost use Rattle.std.specs.Prelude.{◌≡◌, ℕ, List, length, Ok, Err, MatchResult, nat_le};
ghost use Rattle.passes.specs.Outputs.{written_to};
ghost use Rattle.levels.specs.Rows.{rows};
ghost use Rattle.levels.specs.Deciders.{Decides, Saves};
ghost use Rattle.levels.specs.Laws.{Keeps, SavesTables};

use crate::Side;
use crate::marked::Marked;
use fields::reader::Reader;
use filters::Hashing;
use passes::identifier::Identifier;
use refusals::Refusal;

/// What gives each identifier a side and a source. Its calls on saved fields take what their implementations share (`at` and the reader, the level
/// and the output or its room), and a decider over another hands it on changed.
pub trait Decider: Sized {
    ghost State: { Type 0 };

    ghost decider: { Decides State };

    ghost state: { Self → State };

    ghost saves: { Saves State };

    /// A decider before any build or load: it decides for none.
    fn blank() -> Self
        ensures { state result ≡ decider.blank };

    /// The side of an identifier, and the source of the decision. A decision is a tuple wherever it is given.
    fn ask<I: Identifier>(&self, id: &I) -> (Side, u8)
        ensures { (result.0, result.1) ≡ decider.decides (state self.now) (I.form id.now) };

    /// Builds it from a register under its marks; `sizes` has a table size for each level. Each level hands on another `at` and other
    /// `sizes`, with the same register, so they are no struct.
    fn build<I: Identifier>(
        &mut self,
        at: Hashing,
        sizes: &[usize],
        register: &mut Marked<'_, I>,
    ) -> Result<(), Refusal>
        ensures built { MatchResult result
            (λ _. decider.build at sizes.now (rows I.form register.old.list.now register.old.marks.now) ≡ Ok (state self.new))
            (λ e. decider.build at sizes.now (rows I.form register.old.list.now register.old.marks.now) ≡ Err e) }
        ensures kept { register.new.list.now ≡ register.old.list.now };

    /// Whether the fields that it saves as this level fit so many bytes.
    fn fits(&self, level: u8, room: usize) -> bool
        ensures { result ≡ nat_le (length (decider.saved level (state self.now))) room };

    /// Writes the fields that it saves as this level to the front of the output, and says how many bytes; none, and nothing written, if they don't fit.
    fn save(&self, level: u8, out: &mut [u8]) -> Option<usize>
        ensures { (result, out.new) ≡ written_to (decider.saved level (state self.now)) out.old };

    /// Reads and judges its fields, as load would, and keeps nothing of them.
    fn judge(at: Hashing, reader: &mut Reader<'_>) -> Result<(), Refusal>
        ensures verdict { MatchResult result
            (λ _. (s : State) × (decider.loads at reader.old.input.now reader.old.at ≡ Ok (s, reader.new.at)))
            (λ e. decider.loads at reader.old.input.now reader.old.at ≡ Err e) }
        ensures input { reader.new.input.now ≡ reader.old.input.now };

    /// Reads its fields and takes them over, level after level.
    fn load(&mut self, at: Hashing, reader: &mut Reader<'_>) -> Result<(), Refusal>
        ensures verdict { MatchResult result
            (λ _. decider.loads at reader.old.input.now reader.old.at ≡ Ok (state self.new, reader.new.at))
            (λ e. decider.loads at reader.old.input.now reader.old.at ≡ Err e) }
        ensures input { reader.new.input.now ≡ reader.old.input.now };

    ghost keeps: { Keeps decider };
}

/// A decider whose levels save a table each.
pub trait Tabled: Decider {
    ghost saves_tables: { SavesTables Self.Decider.decider Self.Decider.saves };
}
