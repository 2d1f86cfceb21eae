//! Reads of keys.

use anyhow::{Error, Result};
use raft_command_line::{Options, Range};
use raft_console::{Output, bytes_of, failure, or_failure};
use raft_contents::Engine;
use raft_env::FileSystem;
use raft_inspect::Word;
use raft_records::Fault;

/// A range of keys in bytes.
struct Bounds {
    from: Option<Vec<u8>>,
    to: Option<Vec<u8>>,
    reverse: bool,
}

// One call in a proof that drops it; derived, it would be one of each field (docs/DECISIONS.md).
impl Drop for Bounds {
    fn drop(self) {
        let Bounds {
            from: _from,
            to: _to,
            reverse: _,
        } = self;
    }
}

impl Bounds {
    fn read(rt: &HostRuntime, range: Range<'_>, hex: bool) -> Result<Bounds> {
        Ok(Bounds {
            from: bound_of(rt, range.from, hex)?,
            to: bound_of(rt, range.to, hex)?,
            reverse: range.reverse,
        })
    }

    fn all() -> Bounds {
        Bounds {
            from: None,
            to: None,
            reverse: false,
        }
    }
}

fn bound_of(rt: &HostRuntime, key: Option<&str>, hex: bool) -> Result<Option<Vec<u8>>> {
    match key {
        Some(key) => Ok(Some(bytes_of(rt, key, hex)?)),
        None => Ok(None),
    }
}

/// The part of a key that is printed.
#[derive(Clone, Copy)]
enum Shown {
    /// The key and its value.
    Pairs,
    /// The group, the key and the length of its value.
    Lengths,
}

/// Prints the value at the key of a word. Returns whether there is one.
pub(crate) fn get<F: FileSystem>(
    rt: &HostRuntime,
    engine: &Engine<F>,
    group: u64,
    word: &str,
    options: &Options<'_>,
    out: &mut Output,
) -> Result<bool> {
    let key = bytes_of(rt, word, options.hex)?;
    match engine.get(group, &key) {
        Ok(Some(value)) => {
            out.value(&value)?;
            Ok(true)
        }
        Ok(None) => Ok(false),
        Err(fault) => Err(failure("the key cannot be read", &fault)),
    }
}

/// Prints a line for each key of the group, or of all groups, so many at most.
pub(crate) fn list<F: FileSystem>(
    rt: &HostRuntime,
    engine: &Engine<F>,
    group: Option<u64>,
    limit: Option<u64>,
    options: &Options<'_>,
) -> Result<bool> {
    let groups = or_failure(engine.raft_groups(), "the groups cannot be listed")?;
    let mut printer = Printer::new(rt, options, Shown::Lengths, limit);
    show_groups(engine, &groups, group, &mut printer)?;
    printer.end()
}

// Prints the keys of one of the groups, or of all.
fn show_groups<F: FileSystem>(
    engine: &Engine<F>,
    groups: &[u64],
    wanted: Option<u64>,
    printer: &mut Printer,
) -> Result<()> {
    let bounds = Bounds::all();
    for group in groups {
        let is_listed = match wanted {
            Some(wanted) => wanted == *group,
            None => true,
        };
        if is_listed {
            printer.group = *group;
            show(engine, &bounds, printer)?;
        }
    }
    Ok(())
}

/// Prints a line for each key of a group in the range, so many at most.
pub(crate) fn scan<F: FileSystem>(
    rt: &HostRuntime,
    engine: &Engine<F>,
    group: u64,
    range: Range<'_>,
    options: &Options<'_>,
) -> Result<bool> {
    let bounds = Bounds::read(rt, range, options.hex)?;
    let mut printer = Printer::new(rt, options, Shown::Pairs, range.limit);
    printer.group = group;
    show(engine, &bounds, &mut printer)?;
    printer.end()
}

// Prints the keys of the printer's group.
fn show<F: FileSystem>(engine: &Engine<F>, bounds: &Bounds, printer: &mut Printer) -> Result<()> {
    if printer.left == 0 {
        return Ok(());
    }
    let scanned = engine.scan_raw_messages(
        printer.group,
        slice_of(&bounds.from),
        slice_of(&bounds.to),
        bounds.reverse,
        &mut |key: &[u8], value: &[u8]| printer.print(key, value),
    );
    or_failure(scanned, "the keys cannot be read")
}

fn slice_of(key: &Option<Vec<u8>>) -> Option<&[u8]> {
    match key {
        Some(key) => Some(key.as_slice()),
        None => None,
    }
}

/// Prints keys, up to a limit or an error.
#[derive(Drop)]
struct Printer {
    out: Output,
    group: u64,
    shown: Shown,
    /// How many lines may still be printed.
    left: u64,
    failed: Option<Error>,
}

impl Printer {
    fn new(rt: &HostRuntime, options: &Options<'_>, shown: Shown, limit: Option<u64>) -> Printer {
        Printer {
            out: Output::new(*rt, options),
            group: 0,
            shown,
            left: limit.unwrap_or(u64::MAX),
            failed: None,
        }
    }

    // Whether the scan continues.
    fn print(&mut self, key: &[u8], value: &[u8]) -> bool {
        self.left = self.left.saturating_sub(1);
        match self.add(key, value) {
            Ok(()) => self.left > 0,
            Err(error) => {
                self.left = 0;
                self.failed = Some(error);
                false
            }
        }
    }

    fn add(&mut self, key: &[u8], value: &[u8]) -> Result<()> {
        match self.shown {
            Shown::Pairs => self.out.line(&[
                ("key", Word::Bytes(key)),
                ("value", Word::Bytes(value)),
            ]),
            Shown::Lengths => self.out.line(&[
                ("group", Word::Number(self.group)),
                ("key", Word::Bytes(key)),
                ("length", Word::Number(value.len() as u64)),
            ]),
        }
    }

    fn end(self) -> Result<bool> {
        let Printer {
            mut out,
            failed,
            ..
        } = self;
        match failed {
            Some(error) => Err(error),
            None => {
                out.print()?;
                Ok(true)
            }
        }
    }
}

/// How many keys a group has.
pub(crate) fn count<F: FileSystem>(engine: &Engine<F>, group: u64) -> Result<u64, Fault> {
    let mut count = 0u64;
    engine.scan_raw_messages(
        group,
        None,
        None,
        false,
        &mut |_: &[u8], _: &[u8]| {
            count = count.saturating_add(1);
            true
        },
    )?;
    Ok(count)
}
