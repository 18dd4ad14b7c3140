//! The commands on the register.
ghost use Rattle.std.specs.Prelude.{◌≡◌, true};
ghost use Rattle.desk.specs.Faults.{undone};

use crate::arguments;
use crate::commands::RegisterCommand;
use crate::faults::Fault;
use crate::line::Line;
use crate::pass::Pass;
use crate::register::Register;
use levels::Side;

/// Does a command on the register, and says how many passes it has then.
pub(crate) fn run(
    register: &mut Register,
    command: RegisterCommand,
    line: &mut Line<'_>,
) -> Result<(), Fault>
    ensures { undone result ≡ true → register.new ≡ register.old }
{
    match command {
        RegisterCommand::Register => {
            if clears(line)? {
                register.clear();
            }
        }
        RegisterCommand::Pass => {
            let (pass, side) = sided_pass(line)?;
            register.add(pass, side)?;
        }
        RegisterCommand::Passes => {
            let (span, sides) = arguments::sided_span(line.words)?;
            register.add_all(&span, sides)?;
        }
        RegisterCommand::Turn => {
            let (index, step, count) = turns(line)?;
            register.turn(index, step, count)?;
        }
    }
    let count = register.list().len();
    line.say(format_args!("register {count} passes"))?;
    Ok(())
}

/// Whether a word says that the register is to be emptied.
fn clears(line: &Line<'_>) -> Result<bool, Fault> {
    match line.words {
        [] => Ok(false),
        [b"clear"] => Ok(true),
        _ => Err(Fault::Usage),
    }
}

/// One pass with its side.
fn sided_pass(line: &Line<'_>) -> Result<(Pass, Side), Fault> {
    let [words @ .., side] = line.words else {
        return Err(Fault::Usage);
    };
    let side = arguments::side(side)?;
    Ok((arguments::pass(line.heap, words)?, side))
}

/// The index of the first pass to be turned, the distance to the next, and how many are turned.
fn turns(line: &Line<'_>) -> Result<(usize, usize, u16), Fault> {
    match line.words {
        [index] => Ok((arguments::index(index)?, 0, 1)),
        [index, step, count] => Ok((
            arguments::index(index)?,
            arguments::index(step)?,
            arguments::count(count)?,
        )),
        _ => Err(Fault::Usage),
    }
}
