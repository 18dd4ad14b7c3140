//! What filters and levels save.
ghost use Rattle.std.specs.Prelude.{◌≡◌, IfOk};
ghost use Rattle.desk.specs.Saving.{Saves};

use crate::buffers::LONGEST;
use crate::faults::Fault;
use std::alloc::Global;

/// The bytes that a save writes to the front of an output, of which it says how many; they are no more than a buffer may have.
pub(crate) fn saved<F: FnOnce(&mut [u8]) -> Option<usize>>(
    heap: Global,
    save: F,
) -> Result<Vec<u8>, Fault>
    requires { F.IsAlwaysCallable save }
    ensures { IfOk result (λ v. Saves F.FnOnce save v.items) }
{
    let mut bytes = vec![in heap; 0; LONGEST]?;
    let length = save(&mut bytes).ok_or(Fault::BufferTooLong)?;
    bytes.truncate(length);
    Ok(bytes)
}
