//! The buffers, and the commands that show them.
ghost use Rattle.std.specs.Prelude.{◌≡◌, ◌≤◌, [], IfOk, OnOk, OnErr, string_bytes, vec_len, nat_lt};
ghost use Rattle.std.specs.BTreeMap.{keys, insert_entry};
ghost use Rattle.desk.specs.Faults.{undone};

use crate::faults::Fault;
use crate::line::Line;
use crate::shown::Hex;
use std::alloc::{AllocError, Global};
use std::collections::BTreeMap;

/// The length of the longest buffer.
pub const LONGEST: usize = 65_536;

/// A name, and the bytes that its buffer is to hold.
#[derive(Drop)]
pub struct Buffer {
    name: String,
    bytes: Vec<u8>,
    ghost fits: { vec_len bytes ≤ 65536 },
}

impl Buffer {
    /// A name with these bytes, unless they are too many.
    pub(crate) fn new(heap: Global, name: &str, bytes: Vec<u8>) -> Result<Buffer, Fault>
        ensures made { IfOk result (λ b. (string_bytes b.name ≡ name.now) × (b.bytes ≡ bytes)) }
        ensures judged { undone result ≡ nat_lt 65536 (vec_len bytes) }
    {
        if bytes.len() > LONGEST {
            return Err(Fault::BufferTooLong);
        }
        let name = String::from_str(heap, name)?;
        Ok(Buffer { name, bytes })
    }

    /// How many bytes it has.
    pub(crate) fn len(&self) -> usize
        ensures { result ≡ vec_len self.now.bytes }
    {
        self.bytes.len()
    }
}

/// Byte strings with a name.
#[derive(Drop)]
pub struct Buffers {
    all: BTreeMap<String, Vec<u8>>,
}

impl Buffers {
    /// No buffer yet.
    pub(crate) fn new(heap: Global) -> Buffers
        ensures { keys result.all ≡ [] }
    {
        Buffers {
            all: BTreeMap::new(heap),
        }
    }

    /// What the buffer of a name holds.
    pub(crate) fn get(&self, name: &str) -> Result<&[u8], Fault> {
        let bytes = self.all.get(name).ok_or(Fault::NoSuchBuffer)?;
        Ok(bytes.as_slice())
    }

    /// The buffer of a name with its bytes changed; that of the desk stays as it is.
    pub(crate) fn changed<F: FnOnce(&mut Vec<u8>) -> Result<(), Fault>>(
        &self,
        heap: Global,
        name: &str,
        change: F,
    ) -> Result<Buffer, Fault>
        requires { F.IsAlwaysCallable change }
    {
        let mut bytes = Vec::from_slice(heap, self.get(name)?)?;
        change(&mut bytes)?;
        Buffer::new(heap, name, bytes)
    }

    /// Makes the buffer of its name hold its bytes.
    pub(crate) fn put(&mut self, buffer: Buffer) -> Result<(), AllocError>
        ensures written { OnOk result (self.new.all.entries ≡ insert_entry ⟦<String as Ord>⟧.cmp self.old.all.entries buffer.name buffer.bytes) }
        ensures kept { OnErr result (self.new.all.entries ≡ self.old.all.entries) }
    {
        let Buffer { name, bytes } = buffer;
        self.all.insert(name, bytes)?;
        Ok(())
    }

    /// The same, and says so.
    pub(crate) fn write(&mut self, buffer: Buffer, line: &mut Line<'_>) -> Result<(), AllocError>
        ensures written { OnOk result (self.new.all.entries ≡ insert_entry ⟦<String as Ord>⟧.cmp self.old.all.entries buffer.name buffer.bytes) }
        ensures kept { OnErr result (self.new.all.entries ≡ self.old.all.entries) }
    {
        let length = buffer.len();
        line.say(format_args!("buffer {} length {length}", buffer.name))?;
        self.put(buffer)
    }
}

/// The length of a buffer and its check, which is the hash of its bytes at seed 0.
pub(crate) fn sum(buffers: &Buffers, line: &mut Line<'_>) -> Result<(), Fault> {
    let name = line.name()?;
    let bytes = buffers.get(name)?;
    let length = bytes.len();
    let check = murmur::hash(0, bytes);
    line.say(format_args!("buffer {name} length {length} check 0x{check:08X}"))?;
    Ok(())
}

/// The same, and then the bytes themselves, 32 to a line.
pub(crate) fn show(buffers: &Buffers, line: &mut Line<'_>) -> Result<(), Fault> {
    let name = line.name()?;
    sum(buffers, line)?;
    for row in buffers.get(name)?.chunks(32) {
        line.say(Hex(row))?;
    }
    Ok(())
}
