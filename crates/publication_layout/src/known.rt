//! The makes that a reader knows.
ghost use Rattle.std.specs.Prelude.{◌≡◌, ℕ, ◌+◌, List, length, is_some, Ok, Err, MatchResult};
ghost use Rattle.levels.specs.Deciders.{tables_at, table_fields};
ghost use Rattle.publications.specs.Reading.{Makes, known_makes, known_tables};

use fields::reader::Reader;
use filters::Hashing;
use levels::decider::Tabled;
use publications::PublicationHead;
use refusals::Refusal;
use std::marker::PhantomData;

/// The makes that a reader knows, each with levels that judge its tables.
pub trait KnownMakes {
    ghost makes: { Self → Makes };

    /// Whether a make is known.
    fn knows(&self, make: u8) -> bool
        ensures { result ≡ is_some (makes self.now make) };

    /// Reads and judges the fields of the tables by the make that the head names; one that isn't known has none.
    fn judge(&self, head: PublicationHead, reader: &mut Reader<'_>) -> Result<(), Refusal>
        ensures verdict { MatchResult result
            (λ _. (bs : List (List ℕ)) × (tables_at (known_tables (makes self.now head.make)) 1 head.hashes reader.old.input.now reader.old.at ≡ Ok bs) × (reader.new.at ≡ reader.old.at + length (table_fields 1 bs)))
            (λ e. tables_at (known_tables (makes self.now head.make)) 1 head.hashes reader.old.input.now reader.old.at ≡ Err e) }
        ensures input { reader.new.input.now ≡ reader.old.input.now };
}

/// Make 1, whose levels are `A`, make 2, whose levels are `B`, and one's own make, whose levels are `G` and which comes first.
#[derive(Drop)]
pub struct OneTwoAnd<A, B, G> {
    own: u8,
    levels: PhantomData<(A, B, G)>,
}

impl<A: Tabled, B: Tabled, G: Tabled> OneTwoAnd<A, B, G> {
    /// With the number of one's own make.
    pub fn new(own: u8) -> Self
        ensures { result.own ≡ own }
    {
        OneTwoAnd {
            own,
            levels: PhantomData,
        }
    }
}

impl<A: Tabled, B: Tabled, G: Tabled> KnownMakes for OneTwoAnd<A, B, G> {
    ghost makes = { λ k. known_makes A.Decider.saves.tables B.Decider.saves.tables G.Decider.saves.tables k.own };

    // A make is a number: a reader may know one of its own.
    fn knows(&self, make: u8) -> bool {
        make == self.own || make == 1 || make == 2
    }

    fn judge(&self, head: PublicationHead, reader: &mut Reader<'_>) -> Result<(), Refusal> {
        let at = Hashing::at_top(head.salt, head.hashes);
        // The levels of the makes are types, of which none can be held as a value of one kind: so a test for each.
        if head.make == self.own {
            G::judge(at, reader)
        } else if head.make == 1 {
            A::judge(at, reader)
        } else if head.make == 2 {
            B::judge(at, reader)
        } else {
            Ok(())
        }
    }
}
