ghost use Rattle.std.specs.Prelude.{◌≡◌};
ghost use Rattle.desk.specs.declared.faults.Fault.TheVariants.{Memory, Refused as Refuses};

use refusals::Refusal;
use std::alloc::{AllocError, AllocFailed};

/// Why a command was not done.
#[derive(Clone, Copy)]
pub enum Fault {
    /// no memory is left
    Memory(AllocError),
    /// the line doesn't have the form of its command
    Usage,
    /// a number of the span would be above the largest
    NumberTooLarge,
    /// the name has not been given a buffer yet
    NoSuchBuffer,
    /// the buffer would be longer than it may be
    BufferTooLong,
    /// a filter is needed first
    NoFilter,
    /// a tag into a register of chip passes, or the reverse
    RegisterMixed,
    /// the register would have more passes than it may
    RegisterFull,
    /// an index beyond what is there
    PastTheEnd,
    /// a plan is needed first
    NoPlan,
    /// levels of this make can't be had
    NoSuchMake,
    /// levels have to be built first
    NoLevels,
    /// a filter, a pass or the levels do not accept something
    Refused(Refusal),
}

// The three are written out: contracts say by `from_gives` which fault `?` makes of an error.
impl From<AllocError> for Fault {
    ghost from_gives = { λ e r. r ≡ Memory e };

    fn from(e: AllocError) -> Fault {
        Fault::Memory(e)
    }
}

impl<T: Drop> From<AllocFailed<T>> for Fault {
    ghost from_gives = { λ _ r. (e : _) × (r ≡ Memory e) };

    fn from(e: AllocFailed<T>) -> Fault {
        Fault::Memory(e.into())
    }
}

impl From<Refusal> for Fault {
    ghost from_gives = { λ e r. r ≡ Refuses e };

    fn from(e: Refusal) -> Fault {
        Fault::Refused(e)
    }
}
