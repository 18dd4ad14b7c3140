//! The commands, each with its form.

/// A command of the console.
#[derive(Clone, Copy)]
pub enum Command {
    /// one that only looks
    Ask(Question),
    /// one that makes a buffer or changes its bytes
    Buffer(BufferCommand),
    Chip,
    Filter,
    Put,
    Puts,
    Load,
    /// one on the register
    Register(RegisterCommand),
    Plan,
    Build,
    Reopen,
    Sheetof,
}

/// A command that changes nothing.
#[derive(Clone, Copy)]
pub enum Question {
    Hash,
    Form,
    Hashes,
    Show,
    Sum,
    Read,
    Yes,
    Yeses,
    Decide,
}

/// A command that makes a buffer or changes its bytes.
#[derive(Clone, Copy)]
pub enum BufferCommand {
    Bytes,
    Fill,
    Copy,
    Flip,
    Cut,
    Append,
    Field,
    Check,
    Seal,
    Save,
    Keep,
}

/// A command on the register.
#[derive(Clone, Copy)]
pub enum RegisterCommand {
    Register,
    Pass,
    Passes,
    Turn,
}

/// A command that composes a sheet by hand.
#[derive(Clone, Copy)]
pub enum Part {
    Word,
    Words,
    Row,
    End,
}

/// A command, and the form that a line of it has, whose first word names it.
pub type Form<C> = (C, &'static str);

/// Every command.
pub const COMMANDS: [Form<Command>; 33] = [
    (Command::Ask(Question::Hash), "hash SEED HEX"),
    (Command::Ask(Question::Form), "form PASS"),
    (Command::Ask(Question::Hashes), "hashes SALT LEVEL PASS"),
    (Command::Chip, "chip [ISSUER SERIAL]"),
    (Command::Buffer(BufferCommand::Bytes), "bytes NAME HEX"),
    (
        Command::Buffer(BufferCommand::Fill),
        "fill NAME LENGTH BYTE",
    ),
    (Command::Buffer(BufferCommand::Copy), "copy NAME TO"),
    (Command::Ask(Question::Show), "show NAME"),
    (Command::Ask(Question::Sum), "sum NAME"),
    (
        Command::Ask(Question::Read),
        "read publication NAME | read sheet NAME",
    ),
    (
        Command::Buffer(BufferCommand::Flip),
        "flip NAME OFFSET BYTE",
    ),
    (Command::Buffer(BufferCommand::Cut), "cut NAME LENGTH"),
    (Command::Buffer(BufferCommand::Append), "append NAME HEX"),
    (Command::Buffer(BufferCommand::Field), "field NAME BYTE HEX"),
    (Command::Buffer(BufferCommand::Check), "check NAME"),
    (Command::Buffer(BufferCommand::Seal), "seal NAME"),
    (Command::Filter, "filter KIND SALT LEVEL SIZE HASHES"),
    (Command::Put, "put PASS"),
    (Command::Puts, "puts SPAN"),
    (Command::Ask(Question::Yes), "yes PASS"),
    (Command::Ask(Question::Yeses), "yeses SPAN"),
    (Command::Buffer(BufferCommand::Save), "save NAME"),
    (Command::Load, "load NAME"),
    (
        Command::Register(RegisterCommand::Register),
        "register [clear]",
    ),
    (Command::Register(RegisterCommand::Pass), "pass PASS SIDE"),
    (
        Command::Register(RegisterCommand::Passes),
        "passes SPAN SIDES",
    ),
    (
        Command::Register(RegisterCommand::Turn),
        "turn INDEX [STEP COUNT]",
    ),
    (
        Command::Plan,
        "plan MAKE HASHES S1 S2 S3 S4 S5 S6 SALT NUMBER",
    ),
    (Command::Build, "build [WORKLEN]"),
    (Command::Ask(Question::Decide), "decide PASS"),
    (Command::Buffer(BufferCommand::Keep), "keep NAME"),
    (Command::Reopen, "reopen NAME SALT HASHES"),
    (Command::Sheetof, "sheetof NAME NUMBER STEP [EDITION]"),
];

/// Every command that composes a sheet.
pub const PARTS: [Form<Part>; 4] = [
    (Part::Word, "word SIDE PASS | word SIDE form HEX"),
    (Part::Words, "words SIDE SPAN"),
    (Part::Row, "row KIND ISSUER FIRST LAST"),
    (Part::End, "end"),
];

/// The first word of a form.
fn first_word(form: &str) -> &str {
    match form.split_once(' ') {
        Some((word, _)) => word,
        None => form,
    }
}

/// The command that a word names, with its form.
pub(crate) fn named<C: Copy>(forms: &[Form<C>], word: &[u8]) -> Option<Form<C>> {
    forms
        .iter()
        .find(|(_, form)| first_word(form).as_bytes() == word)
        .copied()
}
