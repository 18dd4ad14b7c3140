//! The commands on the one filter.
ghost use Rattle.std.specs.Prelude.{◌≡◌, true};
ghost use Rattle.desk.specs.Faults.{undone};
ghost use Rattle.desk.specs.Filters.{held_view};

use crate::arguments;
use crate::buffers::{Buffer, Buffers};
use crate::faults::Fault;
use crate::kinds::{AnyFilter, Kind};
use crate::line::Line;
use crate::saving::saved;
use filters::{Hashing, Settings};

/// The kind and the settings of a new filter.
fn filter_settings(line: &Line<'_>) -> Result<(Kind, Settings), Fault> {
    let [kind, salt, level, size, hashes] = line.words else {
        return Err(Fault::Usage);
    };
    let kind = Kind::try_from(*kind)?;
    let salt = arguments::number(salt)?;
    let level = arguments::level(level)?;
    let size = arguments::table_size(size)?;
    let hashes = arguments::number(hashes)?;
    let hashing = Hashing {
        salt,
        level,
        hashes,
    };
    Ok((kind, Settings { hashing, size }))
}

/// A new filter, if its settings are allowed.
pub(crate) fn filter(line: &mut Line<'_>) -> Result<AnyFilter, Fault> {
    let (kind, settings) = filter_settings(line)?;
    let filter = AnyFilter::new(line.heap, kind, settings)?;
    let Settings { hashing, size } = settings;
    let Hashing {
        salt,
        level,
        hashes,
    } = hashing;
    line.say(format_args!("filter {kind} salt {salt} level {level} size {size} hashes {hashes}"))?;
    Ok(filter)
}

/// Puts a pass into the filter.
pub(crate) fn put(filter: &mut Option<AnyFilter>, line: &mut Line<'_>) -> Result<(), Fault>
    ensures { undone result ≡ true → held_view filter.new ≡ held_view filter.old }
{
    let pass = arguments::pass(line.heap, line.words)?;
    let Some(filter) = filter else {
        return Err(Fault::NoFilter);
    };
    let taken = filter.put(&pass);
    line.say(if taken { "taken" } else { "not taken" })?;
    Ok(())
}

/// Puts many passes into the filter, and goes on after one that isn't taken.
pub(crate) fn puts(filter: &mut Option<AnyFilter>, line: &mut Line<'_>) -> Result<(), Fault>
    ensures { undone result ≡ true → held_view filter.new ≡ held_view filter.old }
{
    let span = arguments::span(line.words)?;
    let Some(filter) = filter else {
        return Err(Fault::NoFilter);
    };
    let taken = span.how_many(|pass| filter.put(pass));
    let left = span.count() - taken;
    line.say(format_args!("taken {taken} not taken {left}"))?;
    Ok(())
}

/// Asks the filter about a pass.
pub(crate) fn yes(filter: &Option<AnyFilter>, line: &mut Line<'_>) -> Result<(), Fault> {
    let pass = arguments::pass(line.heap, line.words)?;
    let filter = filter.as_ref().ok_or(Fault::NoFilter)?;
    let yes = filter.ask(&pass);
    line.say(if yes { "yes" } else { "no" })?;
    Ok(())
}

/// Asks the filter about many passes.
pub(crate) fn yeses(filter: &Option<AnyFilter>, line: &mut Line<'_>) -> Result<(), Fault> {
    let span = arguments::span(line.words)?;
    let filter = filter.as_ref().ok_or(Fault::NoFilter)?;
    let yes = span.how_many(|pass| filter.ask(pass));
    let no = span.count() - yes;
    line.say(format_args!("yes {yes} no {no}"))?;
    Ok(())
}

/// A buffer that holds what the filter saves.
pub(crate) fn save(filter: &Option<AnyFilter>, line: &Line<'_>) -> Result<Buffer, Fault> {
    let name = line.name()?;
    let filter = filter.as_ref().ok_or(Fault::NoFilter)?;
    let bytes = saved(line.heap, |out| filter.save(out))?;
    Buffer::new(line.heap, name, bytes)
}

/// Loads a buffer into the filter, under its present salt, level and hash count.
pub(crate) fn load(
    filter: &mut Option<AnyFilter>,
    buffers: &Buffers,
    line: &mut Line<'_>,
) -> Result<(), Fault>
    ensures { undone result ≡ true → held_view filter.new ≡ held_view filter.old }
{
    let name = line.name()?;
    let Some(filter) = filter else {
        return Err(Fault::NoFilter);
    };
    filter.load(buffers.get(name)?)?;
    let size = filter.settings().size;
    line.say(format_args!("loaded {name} size {size}"))?;
    Ok(())
}
