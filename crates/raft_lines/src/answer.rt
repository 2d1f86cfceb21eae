//! The results of lines, and how the program prints them.

ghost use Rattle.std.specs.Prelude.{◌≡◌};

use raft_records::Fault;
use raft_script::{Outcome, TextEntry};
use raft_tables::KeyAndValue;
use std::io;
use std::io::Write;

/// The result of a line.
pub(crate) enum Answer {
    Nothing,
    /// A reopening, or a crash and the opening after it.
    Done,
    Outcome(Outcome),
    /// The indexes of a group's first and last entries.
    Range(Option<(u64, u64)>),
    /// The numbers of the first and of the last log file.
    Span((u64, u64)),
    /// A group's keys and values, in the keys' order.
    Pairs(Result<Vec<KeyAndValue>, Fault>),
    /// The fault that ended the engine, so that the program ends.
    Fatal(Fault),
}

// One call in each proof that drops it. A derived `Drop` would be one call for each field of each
// variant (docs/DECISIONS.md).
impl Drop for Answer {
    fn drop(self) {
        match self {
            Answer::Nothing => {}
            Answer::Done => {}
            Answer::Outcome(_outcome) => {}
            Answer::Range(_) => {}
            Answer::Span(_) => {}
            Answer::Pairs(_pairs) => {}
            Answer::Fatal(_fault) => {}
        }
    }
}

impl Answer {
    ghost use Rattle.raft_lines.specs.Program.{is_fatal};

    /// Whether the program ends after this result.
    pub(crate) fn is_fatal(&self) -> bool
        ensures value { result ≡ is_fatal self.now }
    {
        matches!(self, Answer::Fatal(_))
    }
}

pub(crate) fn print<W: Write>(output: &mut W, answer: &Answer) -> io::Result<()> {
    match answer {
        Answer::Nothing => Ok(()),
        Answer::Done => output.write_all(b"ok\n"),
        Answer::Outcome(outcome) => print_outcome(output, outcome),
        Answer::Range(None) => output.write_all(b"range none\n"),
        Answer::Range(Some((first, last))) => writeln!(output, "range {first} {last}"),
        Answer::Span((first, last)) => writeln!(output, "span {first} {last}"),
        Answer::Pairs(Ok(pairs)) => print_pairs(output, pairs),
        Answer::Pairs(Err(fault)) | Answer::Fatal(fault) => print_fault(output, fault),
    }
}

fn print_outcome<W: Write>(output: &mut W, outcome: &Outcome) -> io::Result<()> {
    match outcome {
        // The number had already acted, and nothing was written.
        Outcome::Size(Ok(0)) => output.write_all(b"old\n"),
        Outcome::Size(Ok(_))
        | Outcome::Sizes(Ok(_))
        | Outcome::Done(Ok(()))
        | Outcome::Dropped(Ok(_)) => output.write_all(b"ok\n"),
        Outcome::Value(Ok(None)) | Outcome::Entry(Ok(None)) | Outcome::Index(None) => {
            output.write_all(b"none\n")
        }
        Outcome::Value(Ok(Some(value))) => {
            let newline = b"\n".as_slice();
            print_parts(output, &[b"value ".as_slice(), value.as_slice(), newline])
        }
        Outcome::Count(Ok(count)) => writeln!(output, "dropped {count}"),
        Outcome::Entry(Ok(Some(entry))) => print_entry(output, entry),
        Outcome::Index(Some(index)) => writeln!(output, "index {index}"),
        Outcome::Groups(Ok(groups)) => print_groups(output, b"groups", groups),
        Outcome::ToCompact(Ok(groups)) => print_groups(output, b"ask", groups),
        Outcome::Size(Err(fault))
        | Outcome::Sizes(Err(fault))
        | Outcome::Done(Err(fault))
        | Outcome::Value(Err(fault))
        | Outcome::Count(Err(fault))
        | Outcome::Entry(Err(fault))
        | Outcome::Groups(Err(fault))
        | Outcome::Dropped(Err(fault))
        | Outcome::ToCompact(Err(fault)) => print_fault(output, fault),
    }
}

fn print_parts<W: Write>(output: &mut W, parts: &[&[u8]]) -> io::Result<()> {
    for part in parts {
        output.write_all(part)?;
    }
    Ok(())
}

fn print_entry<W: Write>(output: &mut W, entry: &TextEntry) -> io::Result<()> {
    let index = entry.index;
    write!(output, "entry {index}:")?;
    print_parts(output, &[entry.word.as_slice(), b"\n".as_slice()])
}

fn print_groups<W: Write>(output: &mut W, word: &[u8], groups: &[u64]) -> io::Result<()> {
    output.write_all(word)?;
    for group in groups {
        write!(output, " {group}")?;
    }
    output.write_all(b"\n")
}

fn print_pairs<W: Write>(output: &mut W, pairs: &[KeyAndValue]) -> io::Result<()> {
    let (front, space, newline) = (b"pair ".as_slice(), b" ".as_slice(), b"\n".as_slice());
    for (key, value) in pairs {
        print_parts(
            output,
            &[front, key.as_slice(), space, value.as_slice(), newline],
        )?;
    }
    let count = pairs.len();
    writeln!(output, "end {count}")
}

fn print_fault<W: Write>(output: &mut W, fault: &Fault) -> io::Result<()> {
    let code = fault.code();
    let name = fault_name(fault);
    writeln!(output, "refused {code} {name}")
}

fn fault_name(fault: &Fault) -> &'static str {
    match fault {
        Fault::InvalidArgument(_) => "invalid-argument",
        Fault::Corruption => "corruption",
        Fault::Io(_, _) => "io",
        Fault::TryAgain => "try-again",
        Fault::Gap => "gap",
        Fault::Range => "range",
        Fault::EntryCompacted => "entry-compacted",
        Fault::EntryNotFound => "entry-not-found",
        Fault::WrongIndex => "wrong-index",
        Fault::Parse => "parse",
        Fault::Failed => "failed",
        Fault::Memory => "memory",
        Fault::Lz4 => "lz4",
        Fault::FileOutOfRange => "file-out-of-range",
        Fault::NotRecovered => "not-recovered",
        Fault::TrailFull => "trail-full",
        Fault::Layer => "layer",
        Fault::StaleNumber => "stale-number",
    }
}
