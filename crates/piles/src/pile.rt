ghost use Rattle.std.specs.Prelude.{◌≡◌, ℕ, true, List, Ok, Err, MatchResult};
ghost use Rattle.levels.specs.Laws.{SavesTables};
ghost use Rattle.piles.specs.Piles.{six, six_saves, SixLaw};

use fields::reader::Reader;
use filters::{Exact, Filter, Hashing};
use levels::decider::Decider;
use levels::end::End;
use levels::level::Level;
use refusals::Refusal;

/// Six levels over an end, the shape of every make.
pub type Six<F1, F2, F3, F4, F5, F6, E> = Level<
    F1,
    Level<F2, Level<F3, Level<F4, Level<F5, Level<F6, End<E>>>>>>,
>;

/// Six levels of any filters over any exact end: what is built from a list of distinct identifiers decides each by its
/// side, from an even source exactly if for, and still does after it was saved and loaded.
pub fn six_levels_decide<
    F1: Filter,
    F2: Filter,
    F3: Filter,
    F4: Filter,
    F5: Filter,
    F6: Filter,
    E: Exact,
>() -> bool
    ensures law { (SixLaw (six F1.Filter.kind F2.Filter.kind F3.Filter.kind F4.Filter.kind F5.Filter.kind F6.Filter.kind E.Filter.kind)) × (result ≡ true) }
    ensures tables { SavesTables (six F1.Filter.kind F2.Filter.kind F3.Filter.kind F4.Filter.kind F5.Filter.kind F6.Filter.kind E.Filter.kind) (six_saves F1.Filter.kind F2.Filter.kind F3.Filter.kind F4.Filter.kind F5.Filter.kind F6.Filter.kind E.Filter.kind) }
{
    true
}

/// Loads a decider from the fields at the front of an input, and says where they end. What is refused changes nothing.
pub fn load_fields<D: Decider>(decider: &mut D, at: Hashing, input: &[u8]) -> Result<usize, Refusal>
    ensures { MatchResult result
        (λ n. D.Decider.decider.loads at input.now 0 ≡ Ok (D.Decider.state decider.new, n))
        (λ e. (D.Decider.decider.loads at input.now 0 ≡ Err e) × (D.Decider.state decider.new ≡ D.Decider.state decider.old)) }
{
    let mut judged = Reader::new(input);
    D::judge(at, &mut judged)?;
    let mut reader = Reader::new(input);
    decider.load(at, &mut reader)?;
    Ok(reader.place())
}
