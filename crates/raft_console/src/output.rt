//! What a command prints.

use crate::limits::{OUTPUT, check_stream};
use anyhow::{Result, anyhow};
use raft_command_line::Options;
use raft_inspect::{Field, Lines, Word};
use std::io::{self, Write};

/// How many bytes are kept before they are printed.
const FULL: usize = 64 * 1024;

/// Lines that are printed once there are many, and at the end.
pub struct Output {
    rt: HostRuntime,
    pub lines: Lines,
    /// A value is printed as its bytes only.
    raw: bool,
}

// One call in a proof that drops it; derived, it would be one of each field (docs/DECISIONS.md).
impl Drop for Output {
    fn drop(self) {
        let Output {
            rt: _,
            lines: _lines,
            raw: _,
        } = self;
    }
}

impl Output {
    pub fn new(rt: HostRuntime, options: &Options<'_>) -> Output {
        Output {
            rt,
            lines: Lines::new(rt.alloc(), options.json, options.hex),
            raw: options.raw,
        }
    }

    /// Adds a line of these words.
    pub fn line(&mut self, fields: &[Field<'_>]) -> Result<()> {
        self.lines.line(fields)?;
        self.print_if_full()
    }

    /// Prints a value: as its bytes only if requested, otherwise on a line.
    pub fn value(&mut self, value: &[u8]) -> Result<()> {
        if self.raw {
            return print_bytes(&self.rt, value);
        }
        self.line(&[("value", Word::Bytes(value))])
    }

    /// Adds a line of these words, each after its name.
    pub fn named(&mut self, fields: &[Field<'_>]) -> Result<()> {
        self.lines.named(fields)?;
        self.print_if_full()
    }

    pub fn print_if_full(&mut self) -> Result<()> {
        if self.lines.as_bytes().len() < FULL {
            return Ok(());
        }
        self.print()
    }

    /// Prints the lines that were added.
    pub fn print(&mut self) -> Result<()> {
        print_bytes(&self.rt, self.lines.as_bytes())?;
        self.lines.clear();
        Ok(())
    }
}

/// Prints these bytes.
pub fn print_bytes(rt: &HostRuntime, bytes: &[u8]) -> Result<()> {
    if let Err(error) = check_stream(rt, OUTPUT, bytes.len()) {
        return Err(error.context("standard output"));
    }
    match io::writer(rt).write_all(bytes) {
        Ok(()) => Ok(()),
        Err(e) => Err(anyhow!("standard output: {e}")),
    }
}
