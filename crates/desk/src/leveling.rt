//! The commands on the plan and on the levels built by it.
use crate::any_levels::{Levels, Make, Source};
use crate::arguments;
use crate::buffers::{Buffer, Buffers};
use crate::faults::Fault;
use crate::line::Line;
use crate::plans::Plan;
use crate::register::Register;
use crate::shown::in_sheet;
use filters::Hashing;

/// The plan that words give.
fn planned(line: &Line<'_>) -> Result<Plan, Fault> {
    let [make, hashes, s1, s2, s3, s4, s5, s6, salt, number] = line.words else {
        return Err(Fault::Usage);
    };
    Ok(Plan {
        make: arguments::number(make)?,
        hashes: arguments::number(hashes)?,
        sizes: [
            arguments::table_size(s1)?,
            arguments::table_size(s2)?,
            arguments::table_size(s3)?,
            arguments::table_size(s4)?,
            arguments::table_size(s5)?,
            arguments::table_size(s6)?,
        ],
        salt: arguments::number(salt)?,
        number: arguments::number(number)?,
    })
}

/// A new plan.
pub(crate) fn plan(line: &mut Line<'_>) -> Result<Plan, Fault> {
    let plan = planned(line)?;
    let Plan {
        make,
        hashes,
        sizes,
        salt,
        number,
    } = plan;
    let [a, b, c, d, e, f] = sizes;
    line.say(format_args!(
        "plan make {make} hashes {hashes} sizes {a} {b} {c} {d} {e} {f} salt {salt} number {number}"
    ))?;
    Ok(plan)
}

/// New levels: the register built by the plan.
pub(crate) fn build(
    register: &Register,
    plan: &Option<Plan>,
    line: &mut Line<'_>,
) -> Result<Levels, Fault> {
    let list = register.list();
    let room = match line.words {
        [] => list.len(),
        [room] => arguments::length(room)?,
        _ => return Err(Fault::Usage),
    };
    let plan = plan.ok_or(Fault::NoPlan)?;
    let make = Make::try_from(plan.make)?;
    let levels = Levels::new(line.heap, make, Source::Register { plan, list, room })?;
    let salt = levels.salt;
    let length = levels.fields.len();
    line.say(format_args!("built salt {salt} length {length}"))?;
    Ok(levels)
}

/// Asks the levels about a pass.
pub(crate) fn decide(levels: &Option<Levels>, line: &mut Line<'_>) -> Result<(), Fault> {
    let pass = arguments::pass(line.heap, line.words)?;
    let levels = levels.as_ref().ok_or(Fault::NoLevels)?;
    let (side, source) = levels.ask(&pass);
    line.say(format_args!("{} {source}", in_sheet(side)))?;
    Ok(())
}

/// A buffer that holds the fields of the levels.
pub(crate) fn keep(levels: &Option<Levels>, line: &Line<'_>) -> Result<Buffer, Fault> {
    let name = line.name()?;
    let levels = levels.as_ref().ok_or(Fault::NoLevels)?;
    let bytes = Vec::from_slice(line.heap, &levels.fields)?;
    Buffer::new(line.heap, name, bytes)
}

/// New levels of the same make: the fields at the front of a buffer, under a salt and hash count.
pub(crate) fn reopen(
    levels: &Option<Levels>,
    buffers: &Buffers,
    line: &mut Line<'_>,
) -> Result<Levels, Fault> {
    let [name, salt, hashes] = line.words else {
        return Err(Fault::Usage);
    };
    let name = arguments::name(name)?;
    let hashing = Hashing::at_top(arguments::number(salt)?, arguments::number(hashes)?);
    let make = levels.as_ref().ok_or(Fault::NoLevels)?.make();
    let input = buffers.get(name)?;
    let levels = Levels::new(line.heap, make, Source::Fields { hashing, input })?;
    let length = levels.fields.len();
    line.say(format_args!("reopened {name} length {length}"))?;
    Ok(levels)
}
