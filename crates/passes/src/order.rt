ghost use Rattle.std.specs.Prelude.{◌≡◌};
ghost use Rattle.std.specs.Ordering.{MatchOrdering};
ghost use Rattle.passes.specs.Order.{Before, before, StrictOrder};

use std::cmp::Ordering;

/// Which of two forms stands first: byte by byte, a prefix first.
pub fn compare(x: &[u8], y: &[u8]) -> Ordering
    ensures ranked { MatchOrdering result (Before x.now y.now) (x.now ≡ y.now) (Before y.now x.now) }
    ensures order { StrictOrder }
{
    x.cmp(&y)
}

/// Whether a form stands before another.
pub fn precedes(x: &[u8], y: &[u8]) -> bool
    ensures { result ≡ before x.now y.now }
{
    compare(x, y).is_lt()
}
