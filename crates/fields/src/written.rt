//! Writing things one behind the other.
ghost use Rattle.std.specs.Prelude.{◌≡◌, ℕ, ◌-◌, ◌≤◌, List, ◌∷◌, length, SomeIff};
ghost use Rattle.passes.specs.Bytes.{be2};
ghost use Rattle.passes.specs.Outputs.{written_to, joined};

/// The header of a field: its tag and, in two bytes, the length of its body, of which the low sixteen bits count.
pub fn header(tag: u8, len: usize) -> [u8; 3]
    ensures { result ≡ tag ∷ be2 len }
{
    let [high, low] = ((len & 0xFFFF) as u16).to_be_bytes();
    [tag, high, low]
}

/// What has bytes that it is written as.
pub trait Written {
    ghost bytes: { Self → List ℕ };

    /// How many bytes it has.
    fn size(&self) -> usize
        ensures { result ≡ length (bytes self.now) };

    /// Writes its bytes to the front of an output, and says how many; none, and nothing is written, if they don't fit.
    fn write(&self, out: &mut [u8]) -> Option<usize>
        ensures { (result, out.new) ≡ written_to (bytes self.now) out.old };
}

/// How much room is left behind things that stand one behind the other; none if they don't fit.
pub fn room_left<W: Written>(things: &[W], room: usize) -> Option<usize>
    ensures { SomeIff result (length (joined W.bytes things.now) ≤ room) (room - length (joined W.bytes things.now)) }
{
    let mut left = room;
    // a loop and no `try_fold`: its invariant says what is left
    for thing in things {
        left = left.checked_sub(thing.size())?;
    }
    Some(left)
}

/// Writes things one behind the other to the front of an output, and says how many bytes they have; none, and nothing is written, if
/// they don't fit.
pub fn write_each<W: Written>(things: &[W], out: &mut [u8]) -> Option<usize>
    ensures { (result, out.new) ≡ written_to (joined W.bytes things.now) out.old }
{
    room_left(things, out.len())?;
    let mut at = 0;
    for thing in things {
        at += thing.write(&mut out[at..])?;
    }
    Some(at)
}
