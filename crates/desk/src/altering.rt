//! The commands that make a buffer or change its bytes. Each gives the buffer; it is written elsewhere.
use crate::buffers::{Buffer, Buffers};
use crate::faults::Fault;
use crate::line::Line;
use crate::{arguments, bytes};

/// A buffer that holds the bytes of a word.
pub(crate) fn bytes(line: &Line<'_>) -> Result<Buffer, Fault> {
    let [name, hex] = line.words else {
        return Err(Fault::Usage);
    };
    let name = arguments::name(name)?;
    Buffer::new(line.heap, name, arguments::bytes(line.heap, hex)?)
}

/// A buffer that holds a byte so many times.
pub(crate) fn fill(line: &Line<'_>) -> Result<Buffer, Fault> {
    let [name, length, byte] = line.words else {
        return Err(Fault::Usage);
    };
    let name = arguments::name(name)?;
    let length = arguments::length(length)?;
    let byte = arguments::byte(line.heap, byte)?;
    Buffer::new(line.heap, name, vec![in line.heap; byte; length]?)
}

/// A buffer that holds what another holds.
pub(crate) fn copy(buffers: &Buffers, line: &Line<'_>) -> Result<Buffer, Fault> {
    let [name, to] = line.words else {
        return Err(Fault::Usage);
    };
    let name = arguments::name(name)?;
    let to = arguments::name(to)?;
    let bytes = Vec::from_slice(line.heap, buffers.get(name)?)?;
    Buffer::new(line.heap, to, bytes)
}

/// A buffer with bits of one byte changed.
pub(crate) fn flip(buffers: &Buffers, line: &Line<'_>) -> Result<Buffer, Fault> {
    let [name, offset, byte] = line.words else {
        return Err(Fault::Usage);
    };
    let name = arguments::name(name)?;
    let offset = arguments::length(offset)?;
    let byte = arguments::byte(line.heap, byte)?;
    buffers.changed(line.heap, name, |bytes| bytes::flip(bytes, offset, byte))
}

/// A buffer of which the first bytes are kept.
pub(crate) fn cut(buffers: &Buffers, line: &Line<'_>) -> Result<Buffer, Fault> {
    let [name, length] = line.words else {
        return Err(Fault::Usage);
    };
    let name = arguments::name(name)?;
    let length = arguments::length(length)?;
    buffers.changed(line.heap, name, |bytes| bytes::shorten(bytes, length))
}

/// A buffer with bytes more at the end.
pub(crate) fn append(buffers: &Buffers, line: &Line<'_>) -> Result<Buffer, Fault> {
    let [name, hex] = line.words else {
        return Err(Fault::Usage);
    };
    let name = arguments::name(name)?;
    let more = arguments::bytes(line.heap, hex)?;
    buffers.changed(line.heap, name, |bytes| {
        Ok(bytes.extend_from_slice(&more)?)
    })
}

/// A buffer with a field more at the end.
pub(crate) fn field(buffers: &Buffers, line: &Line<'_>) -> Result<Buffer, Fault> {
    let [name, tag, hex] = line.words else {
        return Err(Fault::Usage);
    };
    let name = arguments::name(name)?;
    let tag = arguments::byte(line.heap, tag)?;
    let body = arguments::bytes(line.heap, hex)?;
    buffers.changed(line.heap, name, |bytes| {
        Ok(bytes::add_field(bytes, tag, &body)?)
    })
}

/// A buffer with the check of all its bytes at the end.
pub(crate) fn check(buffers: &Buffers, line: &Line<'_>) -> Result<Buffer, Fault> {
    let name = line.name()?;
    buffers.changed(line.heap, name, |bytes| Ok(bytes::add_check(bytes)?))
}

/// A buffer whose check at the end is right.
pub(crate) fn seal(buffers: &Buffers, line: &Line<'_>) -> Result<Buffer, Fault> {
    let name = line.name()?;
    buffers.changed(line.heap, name, |bytes| bytes::reseal(bytes))
}
