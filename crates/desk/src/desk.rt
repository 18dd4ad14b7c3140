ghost use Rattle.std.specs.Prelude.{◌≡◌, ℕ, true, false, List, ◌++◌, is_ok, IfOk, string_bytes, OnOk};
ghost use Rattle.desk.specs.Faults.{undone, foreseen};
ghost use Rattle.desk.specs.Held.{Fresh, Same};

use crate::any_levels::Levels;
use crate::buffers::{Buffer, Buffers};
use crate::commands::{BufferCommand, COMMANDS, Command, PARTS, Part, Question, named};
use crate::draft::Draft;
use crate::faults::Fault;
use crate::kinds::AnyFilter;
use crate::line::{Line, Words};
use crate::plans::Plan;
use crate::register::Register;
use crate::{
    altering, buffers, chips, composing, contents, filtering, hashing, leveling, registering,
};
use passes::chip::ChipPass;
use std::alloc::{AllocError, Global};

/// What commands work on. That a command which isn't done leaves it alone is a clause of each call: it speaks of before and after.
#[derive(Drop)]
pub struct Desk {
    heap: Global,
    buffers: Buffers,
    filter: Option<AnyFilter>,
    chip: ChipPass,
    register: Register,
    plan: Option<Plan>,
    levels: Option<Levels>,
    draft: Option<Draft>,
}

/// Says why the command of a line, which has this form, was not done. No `Display` of a fault: the text of one needs the form.
fn complain(line: &mut Line<'_>, form: &str, fault: Fault) -> Result<(), AllocError>
    ensures { is_ok result ≡ true → foreseen fault ≡ true }
{
    match fault {
        Fault::Memory(error) => Err(error),
        Fault::Usage => line.error(format_args!("usage: {form}")),
        Fault::NumberTooLarge => line.error("number too large"),
        Fault::NoSuchBuffer => line.error("no such buffer"),
        Fault::BufferTooLong => line.error("buffer too long"),
        Fault::NoFilter => line.error("no filter"),
        Fault::RegisterMixed => line.error("register would be mixed"),
        Fault::RegisterFull => line.error("register full"),
        Fault::PastTheEnd => line.error("past the end"),
        Fault::NoPlan => line.error("no plan"),
        Fault::NoSuchMake => line.error("no such make"),
        Fault::NoLevels => line.error("no levels"),
        Fault::Refused(refusal) => line.say(refusal),
    }
}

/// Whether the command of a line was done; if not, says why.
fn told(line: &mut Line<'_>, form: &str, res: Result<(), Fault>) -> Result<bool, AllocError>
    ensures { IfOk result (λ done. done ≡ false → undone res ≡ true) }
{
    match res {
        Ok(()) => Ok(true),
        Err(fault) => {
            complain(line, form, fault)?;
            Ok(false)
        }
    }
}

impl Desk {
    /// A desk with nothing entered.
    pub fn new(heap: Global) -> Desk
        ensures { Fresh result }
    {
        Desk {
            heap,
            buffers: Buffers::new(heap),
            filter: None,
            chip: ChipPass::new(),
            register: Register::new(heap),
            plan: None,
            levels: None,
            draft: None,
        }
    }

    /// Does the command that the first word of a line names, adds its answer to the output, and says whether it was done; what was not
    /// done has changed nothing. It fails only for want of memory.
    pub fn obey(
        &mut self,
        first: &[u8],
        rest: Words<'_>,
        line: u64,
        out: &mut String,
    ) -> Result<bool, AllocError>
        ensures kept { IfOk result (λ done. done ≡ false → Same self.new self.old) }
        ensures more { OnOk result ((added : List ℕ) × (string_bytes out.new ≡ string_bytes out.old ++ added)) }
    {
        let mut line = Line::new(self.heap, line, rest);
        let done = self.attempt(first, &mut line)?;
        out.push_str(line.answer.as_str())?;
        Ok(done)
    }

    /// Does the command that a word names, writes the answer, and says whether it was done.
    fn attempt(&mut self, first: &[u8], line: &mut Line<'_>) -> Result<bool, AllocError>
        ensures { IfOk result (λ done. done ≡ false → Same self.new self.old) }
    {
        if self.draft.is_some() {
            let Some((part, form)) = named(&PARTS, first) else {
                line.error("only word, words, row or end here")?;
                return Ok(false);
            };
            let result = self.compose(part, line);
            told(line, form, result)
        } else {
            let Some((command, form)) = named(&COMMANDS, first) else {
                line.error("unknown command")?;
                return Ok(false);
            };
            let result = self.run(command, line);
            told(line, form, result)
        }
    }

    /// Does a command on the sheet that was begun, of which there has to be one: that is tested here again, as the clause on what stays is of the
    /// whole desk.
    fn compose(&mut self, part: Part, line: &mut Line<'_>) -> Result<(), Fault>
        ensures { undone result ≡ true → Same self.new self.old }
    {
        let Some(draft) = &mut self.draft else {
            return Err(Fault::Usage);
        };
        match part {
            Part::Word => composing::add(draft, composing::word(line)?, line),
            Part::Words => composing::add(draft, composing::words(line)?, line),
            Part::Row => composing::add(draft, composing::row(line)?, line),
            Part::End => {
                self.buffers.put(composing::end(draft, line)?)?;
                self.draft = None;
                Ok(())
            }
        }
    }

    /// Does a command. A match says which, as for each list of commands: a table of functions would hand out function pointers, which
    /// the checker refuses.
    fn run(&mut self, command: Command, line: &mut Line<'_>) -> Result<(), Fault>
        ensures { undone result ≡ true → Same self.new self.old }
    {
        match command {
            Command::Ask(question) => self.ask(question, line)?,
            Command::Buffer(command) => {
                let buffer = self.made(command, line)?;
                self.buffers.write(buffer, line)?;
            }
            Command::Chip => self.chip = chips::chip(self.chip, line)?,
            Command::Filter => self.filter = Some(filtering::filter(line)?),
            Command::Put => filtering::put(&mut self.filter, line)?,
            Command::Puts => filtering::puts(&mut self.filter, line)?,
            Command::Load => filtering::load(&mut self.filter, &self.buffers, line)?,
            Command::Register(command) => registering::run(&mut self.register, command, line)?,
            Command::Plan => self.plan = Some(leveling::plan(line)?),
            Command::Build => {
                self.levels = Some(leveling::build(&self.register, &self.plan, line)?);
            }
            Command::Reopen => {
                self.levels = Some(leveling::reopen(&self.levels, &self.buffers, line)?);
            }
            Command::Sheetof => self.draft = Some(composing::begin(line)?),
        }
        Ok(())
    }

    /// Answers a command that changes nothing.
    fn ask(&self, question: Question, line: &mut Line<'_>) -> Result<(), Fault> {
        match question {
            Question::Hash => hashing::hash(line),
            Question::Form => hashing::form(line),
            Question::Hashes => hashing::hashes(line),
            Question::Show => buffers::show(&self.buffers, line),
            Question::Sum => buffers::sum(&self.buffers, line),
            Question::Read => contents::read(&self.buffers, line),
            Question::Yes => filtering::yes(&self.filter, line),
            Question::Yeses => filtering::yeses(&self.filter, line),
            Question::Decide => leveling::decide(&self.levels, line),
        }
    }

    /// The buffer that a command makes or changes, as it is to be.
    fn made(&self, command: BufferCommand, line: &Line<'_>) -> Result<Buffer, Fault> {
        match command {
            BufferCommand::Bytes => altering::bytes(line),
            BufferCommand::Fill => altering::fill(line),
            BufferCommand::Copy => altering::copy(&self.buffers, line),
            BufferCommand::Flip => altering::flip(&self.buffers, line),
            BufferCommand::Cut => altering::cut(&self.buffers, line),
            BufferCommand::Append => altering::append(&self.buffers, line),
            BufferCommand::Field => altering::field(&self.buffers, line),
            BufferCommand::Check => altering::check(&self.buffers, line),
            BufferCommand::Seal => altering::seal(&self.buffers, line),
            BufferCommand::Save => filtering::save(&self.filter, line),
            BufferCommand::Keep => leveling::keep(&self.levels, line),
        }
    }
}
