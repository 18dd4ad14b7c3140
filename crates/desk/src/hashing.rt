//! The commands on hashes and written forms.
use crate::arguments;
use crate::faults::Fault;
use crate::line::Line;
use crate::shown::Hex;
use passes::identifier::{HashPair, Identifier};

/// The hash of bytes at a seed.
pub(crate) fn hash(line: &mut Line<'_>) -> Result<(), Fault> {
    let [seed, hex] = line.words else {
        return Err(Fault::Usage);
    };
    let seed = arguments::number(seed)?;
    let bytes = arguments::bytes(line.heap, hex)?;
    let hash = murmur::hash(seed, &bytes);
    line.say(format_args!("hash 0x{hash:08X}"))?;
    Ok(())
}

/// The written form of a pass.
pub(crate) fn form(line: &mut Line<'_>) -> Result<(), Fault> {
    let form = arguments::pass(line.heap, line.words)?.written();
    line.say(format_args!("form {}", Hex(form.as_bytes())))?;
    Ok(())
}

/// The two hashes of a pass at a salt and level.
pub(crate) fn hashes(line: &mut Line<'_>) -> Result<(), Fault> {
    let [salt, level, pass @ ..] = line.words else {
        return Err(Fault::Usage);
    };
    let salt = arguments::number(salt)?;
    let level = arguments::level(level)?;
    let HashPair { h1, h2 } = arguments::pass(line.heap, pass)?.hashes(salt, level);
    line.say(format_args!("h1 0x{h1:08X} h2 0x{h2:08X}"))?;
    Ok(())
}
