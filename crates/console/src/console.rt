ghost use Rattle.std.specs.Prelude.{◌≡◌, ◌+◌, ◌-◌, ◌^◌, min, not, map, is_some, IfOk, string_bytes};
ghost use Rattle.desk.specs.Held.{Fresh};
ghost use Rattle.console.specs.Lines.{ignored, Answered};

use desk::Desk;
use std::alloc::{AllocError, Global};
use std::io;
use std::io::{BufRead, BufReader};
use words::lines;

/// What the console holds between two lines.
#[derive(Drop)]
pub struct Console {
    heap: Global,
    lines: u64,
    desk: Desk,
}

/// What came of a line.
#[derive(Clone, Copy)]
pub enum Outcome {
    /// it has no word, or is a comment
    Ignored,
    /// its command was done
    Done,
    /// its command was not done, and nothing has changed
    Failed,
}

/// The first word of a line and those behind it; none if the line is blank or a comment.
fn heeded<'a>(words: &'a [&'a [u8]]) -> Option<(&'a [u8], &'a [&'a [u8]])>
    ensures { is_some result ≡ not (ignored (map (λ w. w.now) words.now)) }
{
    match words {
        [] | [[b'#', ..], ..] => None,
        [first, rest @ ..] => Some((first, rest)),
    }
}

impl Console {
    /// A console that has read no line yet.
    pub fn new(heap: Global) -> Console
        ensures { (result.lines ≡ 0) × Fresh result.desk }
    {
        Console {
            heap,
            lines: 0,
            desk: Desk::new(heap),
        }
    }

    /// Reads a line, without its line end, and adds its answer to the output. It fails only for want of memory.
    pub fn answer(&mut self, line: &[u8], out: &mut String) -> Result<Outcome, AllocError>
        ensures counted { self.new.lines ≡ min (self.old.lines + 1) (2 ^ 64 - 1) }
        ensures answered { IfOk result (Answered self.new self.old line.now (string_bytes out.old) (string_bytes out.new)) }
    {
        self.lines = self.lines.saturating_add(1);
        let words = lines::words(self.heap, line)?;
        let Some((first, rest)) = heeded(words.as_slice()) else {
            return Ok(Outcome::Ignored);
        };
        if self.desk.obey(first, rest, self.lines, out)? {
            Ok(Outcome::Done)
        } else {
            Ok(Outcome::Failed)
        }
    }

    /// Reads commands from standard input, to its end, and answers each when it has come. Says how many lines it has read.
    pub fn serve(&mut self, rt: &HostRuntime) -> io::Result<u64>
        ensures { IfOk result (λ n. n ≡ self.new.lines) }
    {
        let heap = rt.alloc();
        let mut out = String::new(heap);
        for line in BufReader::new(heap, rt.stdin())?.split(heap, b'\n') {
            out.clear();
            self.answer(&line?, &mut out)?;
            rt.print(&out)?;
        }
        Ok(self.lines)
    }
}
