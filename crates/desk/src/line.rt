use crate::arguments;
use crate::faults::Fault;
use std::alloc::{AllocError, Global};
use std::fmt::{Display, Write};

/// The words behind a command.
pub type Words<'a> = &'a [&'a [u8]];

/// What a command is given: the number of its line, the words behind it, and the answer, to which it adds. What it works
/// on stands beside it, since each is lent only the parts of the desk that it reads or changes.
#[derive(Drop)]
pub struct Line<'a> {
    pub(crate) heap: Global,
    pub(crate) number: u64,
    pub(crate) words: Words<'a>,
    pub(crate) answer: String,
}

impl<'a> Line<'a> {
    /// A line without an answer yet.
    pub(crate) fn new(heap: Global, number: u64, words: Words<'a>) -> Line<'a> {
        Line {
            heap,
            number,
            words,
            answer: String::new(heap),
        }
    }

    /// The name of a buffer, which has to be the only word.
    pub(crate) fn name(&self) -> Result<&'a str, Fault> {
        let [name] = self.words else {
            return Err(Fault::Usage);
        };
        arguments::name(name)
    }

    /// Adds a text to the answer, with a line end.
    pub(crate) fn say(&mut self, text: impl Display + Drop) -> Result<(), AllocError> {
        writeln!(self.answer, "{text}")
    }

    /// Adds an error of this line to the answer.
    pub(crate) fn error(&mut self, text: impl Display + Drop) -> Result<(), AllocError> {
        let number = self.number;
        writeln!(self.answer, "error {number}: {text}")
    }
}
