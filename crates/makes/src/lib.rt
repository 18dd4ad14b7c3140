//! The makes of levels that every reader knows, and the reader that knows them.
#![tactic(auto)]

ghost use Rattle.std.specs.Prelude.{◌≡◌, is_ok, Ok, Err, Decides, MatchResult};
ghost use Rattle.publications.specs.Reading.{reads};
ghost use Rattle.publications.specs.Layout.{Holds, Written, LayoutLaw};
ghost use Rattle.bloom.specs.Bloom.{bloom_kind};
ghost use Rattle.levels.specs.Deciders.{table_of};
ghost use Rattle.makes.specs.Makes.{over_bloom, known};

use bloom::table::Bloom;
use cuckoo::table::Cuckoo;
use exact::table::ExactList;
use levels::decider::Tabled;
use piles::pile::Six;
use publication_layout::known::OneTwoAnd;
use publication_layout::reader::read_publication;
use publications::Publication;
use refusals::Refusal;

/// Six levels, the first of some kind and the others Bloom, over an exact list.
pub type BloomBelow<F> = Six<F, Bloom, Bloom, Bloom, Bloom, Bloom, ExactList>;

/// Make 1: every level is Bloom.
pub type AllBloom = BloomBelow<Bloom>;

/// Make 2: the first level is cuckoo.
pub type CuckooFirst = BloomBelow<Cuckoo>;

/// Reads a whole input as a publication of make 1 or 2, or of one's own make, whose levels are `G`.
pub fn read_known<'a, G: Tabled>(own: u8, input: &'a [u8]) -> Result<Publication<'a>, Refusal>
    ensures value { MatchResult result
        (λ p. Holds (known G.Decider.saves.tables own) input.now p)
        (λ e. reads (known G.Decider.saves.tables own) input.now ≡ Err e) }
    ensures meaning { Decides (is_ok result) (Written (known G.Decider.saves.tables own) input.now) }
    ensures law { LayoutLaw (known G.Decider.saves.tables own) }
{
    let makes = OneTwoAnd::<AllBloom, CuckooFirst, G>::new(own);
    read_publication(&makes, input)
}

/// Reads a whole input as a publication of make 1 or 2.
pub fn read_any<'a>(input: &'a [u8]) -> Result<Publication<'a>, Refusal>
    ensures value { MatchResult result
        (λ p. Holds (known (over_bloom (table_of bloom_kind)) 1) input.now p)
        (λ e. reads (known (over_bloom (table_of bloom_kind)) 1) input.now ≡ Err e) }
    ensures meaning { Decides (is_ok result) (Written (known (over_bloom (table_of bloom_kind)) 1) input.now) }
    ensures law { LayoutLaw (known (over_bloom (table_of bloom_kind)) 1) }
{
    read_known::<AllBloom>(1, input)
}
