//! Lines of the program `raftlog`, and the lines that it prints.

use crate::asked::ProgramLine;
use crate::line::Line;
use crate::said::Said;
use raft_lines::{Ended, serve};
use raft_records::Fault;
use std::alloc::Global;
use std::str;

/// The lines that the program reads, and its output.
pub(crate) struct Program {
    input: Vec<u8>,
    printed: Vec<u8>,
    // The offset of the next printed line.
    at: usize,
}

// One call in each proof that drops it. A derived `Drop` would be one call for each field
// (docs/DECISIONS.md).
impl Drop for Program {
    fn drop(self) {
        let Program {
            input: _input,
            printed: _printed,
            at: _,
        } = self;
    }
}

fn count_lines(printed: &[u8]) -> u64 {
    let mut count = 0u64;
    for byte in printed {
        if *byte == b'\n' {
            count = count.saturating_add(1);
        }
    }
    count
}

// The length of the first line, if there is one.
fn line_len(printed: &[u8]) -> Option<usize> {
    for (place, byte) in printed.iter().enumerate() {
        if *byte == b'\n' {
            return Some(place);
        }
    }
    None
}

fn say_ended(said: &mut Said, ended: Ended, lines: u64) {
    match ended {
        Ended::Done => said.with("done ", lines),
        Ended::BadLine(number) => {
            said.with("bad-line ", number);
            said.with(" ", lines);
        }
        Ended::Opening => said.with("opening ", lines),
        Ended::Input | Ended::Output => said.say("failed"),
    }
}

impl Program {
    pub(crate) fn new(alloc: Global) -> Program {
        Program {
            input: Vec::new(alloc),
            printed: Vec::new(alloc),
            at: 0,
        }
    }

    /// Adds a line to the input.
    pub(crate) fn add(&mut self, line: &[u8], end: &[u8]) -> Result<(), Fault> {
        self.input.extend_from_slice(line)?;
        self.input.extend_from_slice(end)?;
        Ok(())
    }

    // Runs the program. Prints how it ended, and the number of lines that it printed.
    fn serve(&mut self, line: &mut Line) {
        let ended = serve(line.alloc, self.input.as_slice(), &mut self.printed);
        say_ended(&mut line.said, ended, count_lines(&self.printed));
    }

    /// Adds bytes to the input, or runs the program.
    pub(crate) fn answer(&mut self, line: &mut Line, asked: ProgramLine) {
        let read = match asked {
            ProgramLine::Newline => self.add(b"", b"\n"),
            ProgramLine::Read => self.add(line.bytes(0), b""),
            ProgramLine::Serve => return self.serve(line),
        };
        line.done(read);
    }

    fn next_len(&self) -> Option<usize> {
        line_len(self.printed.get(self.at..)?)
    }

    fn next_text(&self, len: usize) -> Option<&str> {
        let end = self.at.saturating_add(len);
        str::from_utf8(self.printed.get(self.at..end)?).ok()
    }

    /// Prints the next line of the output.
    pub(crate) fn next_line(&mut self, line: &mut Line) {
        let Some(len) = self.next_len() else {
            return line.bad();
        };
        match self.next_text(len) {
            Some(text) => line.said.say(text),
            None => line.bad(),
        }
        self.at = self.at.saturating_add(len).saturating_add(1);
    }
}
