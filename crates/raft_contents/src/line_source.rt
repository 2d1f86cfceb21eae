//! Lines that are read twice: first to check them all, then to write what they say.

use crate::line_items::{LineItem, read_item};
use anyhow::{Error, Result, anyhow};
use raft_console::file_or_input;
use std::alloc::Global;
use std::fs::{self, File};
use std::io::{BufRead, BufReader};

/// The source of lines.
pub(crate) enum LineSource {
    /// A file, of which one line is in memory at a time.
    File(String),
    /// All bytes of what cannot be read twice, as standard input or a pipe.
    Text(Vec<u8>),
}

impl Drop for LineSource {
    fn drop(self) {
        match self {
            LineSource::File(_path) => {}
            LineSource::Text(_bytes) => {}
        }
    }
}

impl LineSource {
    /// The lines of the file at a path, or of standard input for `-`.
    pub fn open(rt: &HostRuntime, path: &str) -> Result<LineSource> {
        if path != "-" && is_file(rt, path) {
            return Ok(LineSource::File(String::from_str(rt.alloc(), path)?));
        }
        Ok(LineSource::Text(file_or_input(rt, path)?))
    }

    /// Begins to read the lines.
    pub fn items(&self, rt: &HostRuntime) -> Result<ItemReader<'_>> {
        let alloc = rt.alloc();
        let lines = match self {
            LineSource::File(path) => match File::open(rt, path.as_str()) {
                Ok(file) => Lines::File(BufReader::new(alloc, file)?),
                Err(e) => return Err(anyhow!("{e}")),
            },
            LineSource::Text(bytes) => Lines::Text(bytes),
        };
        Ok(ItemReader {
            alloc,
            lines,
            number: 0,
        })
    }
}

fn is_file(rt: &HostRuntime, path: &str) -> bool {
    match fs::metadata(rt, path) {
        Ok(metadata) => metadata.is_file(),
        // The reading says why.
        Err(_) => false,
    }
}

/// The rest of the lines.
enum Lines<'a> {
    File(BufReader<File>),
    Text(&'a [u8]),
}

impl Drop for Lines<'_> {
    fn drop(self) {
        match self {
            Lines::File(_reader) => {}
            Lines::Text(_) => {}
        }
    }
}

/// Reads the items of lines, one after the other.
pub(crate) struct ItemReader<'a> {
    alloc: Global,
    lines: Lines<'a>,
    /// How many lines were read.
    number: u64,
}

// One call in a proof that drops it; derived, it would be one of each field (docs/DECISIONS.md).
impl Drop for ItemReader<'_> {
    fn drop(self) {
        let ItemReader {
            alloc: _,
            lines: _lines,
            number: _,
        } = self;
    }
}

impl ItemReader<'_> {
    /// The item of the next line that is not empty; none after the last. It fails at a line that
    /// cannot be read, and names it.
    pub fn next(&mut self) -> Result<Option<LineItem>> {
        for _ in 0..u64::MAX {
            let Some(line) = self.next_line()? else {
                break;
            };
            self.number = self.number.saturating_add(1);
            if !line.is_empty() {
                return match read_item(self.alloc, &line) {
                    Ok(item) => Ok(Some(item)),
                    Err(error) => Err(self.at_line(&error)),
                };
            }
        }
        Ok(None)
    }

    fn at_line(&self, error: &Error) -> Error {
        anyhow!("line {}: {error}", self.number)
    }

    // The bytes of the next line without its end.
    fn next_line(&mut self) -> Result<Option<Vec<u8>>> {
        match &mut self.lines {
            Lines::File(reader) => line_of_file(self.alloc, reader),
            Lines::Text(rest) => line_of_text(self.alloc, rest),
        }
    }
}

fn line_of_file(alloc: Global, reader: &mut BufReader<File>) -> Result<Option<Vec<u8>>> {
    let mut line = Vec::new(alloc);
    match reader.read_until(b'\n', &mut line) {
        Ok(0) => Ok(None),
        Ok(_) => {
            if line.last() == Some(&b'\n') {
                line.pop();
            }
            Ok(Some(line))
        }
        Err(e) => Err(anyhow!("{e}")),
    }
}

fn line_of_text(alloc: Global, rest: &mut &[u8]) -> Result<Option<Vec<u8>>> {
    let text = *rest;
    if text.is_empty() {
        return Ok(None);
    }
    let end = text.iter().position(|byte| *byte == b'\n');
    let end = end.unwrap_or(text.len());
    *rest = text.get(end.saturating_add(1)..).unwrap_or(&[]);
    Ok(Some(text.get(..end).unwrap_or(&[]).to_vec(alloc)?))
}
