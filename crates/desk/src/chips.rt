//! The commands on the one chip pass.
use crate::arguments;
use crate::faults::Fault;
use crate::line::Line;
use passes::chip::ChipPass;

/// The pass in hand, filled if words say with what, and shown; a serial that is refused leaves it.
pub(crate) fn chip(mut held: ChipPass, line: &mut Line<'_>) -> Result<ChipPass, Fault> {
    match line.words {
        [] => {}
        [issuer, serial] => {
            let issuer = arguments::number(issuer)?;
            let serial = arguments::bytes(line.heap, serial)?;
            if let Err(refusal) = held.fill(issuer, &serial) {
                line.say(refusal)?;
            }
        }
        _ => return Err(Fault::Usage),
    }
    line.say(held)?;
    Ok(held)
}
