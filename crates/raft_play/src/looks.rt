//! Lines that read an engine.

use crate::appends::whole;
use crate::asked::{EntryLine, LookLine, WholeLine};
use crate::line::Line;
use crate::plain::Plain;
use crate::said::Said;
use raft_env::FileSystem;
use raft_records::{Fault, LogQueue, Message};
use raft_test_rows::{Engine, TextEntry, state_of};
use std::alloc::{AllocError, Global};

/// The keys and values that a scan passes, up to a limit.
#[derive(Drop)]
struct Handed {
    said: Said,
    count: u64,
    most: u64,
}

impl Handed {
    fn new(alloc: Global, most: u64) -> Handed {
        Handed {
            said: Said::new(alloc),
            count: 0,
            most,
        }
    }

    // Takes a pair. Returns whether the scan shall continue.
    fn takes(&mut self, key: &[u8], value: &[u8]) -> bool {
        self.said.spell(" ", key);
        self.said.spell(" ", value);
        self.count = self.count.saturating_add(1);
        self.count < self.most
    }

    fn end(self, line: &mut Line, scanned: Result<(), Fault>) {
        match scanned {
            Ok(()) => {
                line.said.say("pairs");
                line.said.add(&self.said);
            }
            Err(fault) => line.refuse(fault),
        }
    }
}

// Scans a group's pairs between two keys, forwards or backwards, up to a limit.
fn scan<F: FileSystem>(line: &mut Line, engine: &Engine<F>, reverse: bool) {
    let (group, most) = line.pair(0);
    let (start, end) = (line.take_key(0), line.take_key(1));
    let mut handed = Handed::new(line.alloc, most);
    let scanned = engine.scan_raw_messages(
        group,
        start.as_deref(),
        end.as_deref(),
        reverse,
        &mut |key: &[u8], value: &[u8]| handed.takes(key, value),
    );
    handed.end(line, scanned);
}

// Scans a group's messages and prints keys and words, up to a limit, forwards or backwards.
fn messages<F: FileSystem>(line: &mut Line, engine: &Engine<F>, reverse: bool) {
    let (group, most) = line.pair(0);
    let mut handed = Handed::new(line.alloc, most);
    let scanned = engine.scan_messages::<TextEntry, _>(
        group,
        None,
        None,
        reverse,
        &mut |key: &[u8], entry: TextEntry| handed.takes(key, &entry.word),
    );
    handed.end(line, scanned);
}

fn bytes_of(alloc: Global, entry: &TextEntry) -> Result<Vec<u8>, AllocError> {
    let mut bytes = Vec::new(alloc);
    entry.to_bytes(&mut bytes)?;
    Ok(bytes)
}

/// Whether the bytes of an entry that an engine lends are those that it copies.
pub(crate) fn lends<F: FileSystem>(
    alloc: Global,
    engine: &mut Engine<F>,
    group: u64,
    index: u64,
    copied: Option<&TextEntry>,
) -> Result<bool, Fault> {
    let place = engine.load_entry(group, index)?;
    let (Some(place), Some(entry)) = (place, copied) else {
        return Ok(place.is_none() && copied.is_none());
    };
    let bytes = bytes_of(alloc, entry)?;
    Ok(engine.loaded(place) == bytes.as_slice())
}

fn each_is_lent<F: FileSystem>(
    alloc: Global,
    engine: &mut Engine<F>,
    group: u64,
    entries: &[TextEntry],
) -> Result<bool, Fault> {
    for entry in entries {
        if !lends(alloc, engine, group, entry.index, Some(entry))? {
            return Ok(false);
        }
    }
    Ok(true)
}

// Gets an entry, and borrows it too.
fn entry_at<F: FileSystem>(line: &mut Line, engine: &mut Engine<F>) -> Result<(), Fault> {
    let (group, index) = line.pair(0);
    let copied = engine.get_entry::<TextEntry>(group, index)?;
    if lends(line.alloc, engine, group, index, copied.as_ref())? {
        line.said.text_entry(copied.as_ref());
    } else {
        line.said.say("lent differs");
    }
    Ok(())
}

// Fetches entries, and borrows each one too. Prints the result and the number of entries.
fn fetch<F: FileSystem>(line: &mut Line, engine: &mut Engine<F>) -> Result<(), Fault> {
    let group = line.number(0);
    let (begin, end) = line.pair(1);
    let most = line.bound(3).map(|most| most as usize);
    let mut entries: Vec<TextEntry> = Vec::new(line.alloc);
    let count = engine.fetch_entries_to::<TextEntry>(group, begin, end, most, &mut entries)?;
    if each_is_lent(line.alloc, engine, group, &entries)? {
        line.said.pair(count as u64, entries.len() as u64);
    } else {
        line.said.say("lent differs");
    }
    Ok(())
}

fn message_at<F: FileSystem>(line: &mut Line, engine: &Engine<F>) -> Result<(), Fault> {
    let message = engine.get_message::<TextEntry>(line.number(0), line.bytes(0))?;
    line.said.text_entry(message.as_ref());
    Ok(())
}

// Prints a message of any bytes.
fn plain(said: &mut Said, message: Option<&Plain>) {
    match message {
        Some(message) => said.spell("value ", &message.bytes),
        None => said.say("none"),
    }
}

fn plain_entry<F: FileSystem>(line: &mut Line, engine: &mut Engine<F>) -> Result<(), Fault> {
    let entry = engine.get_entry::<Plain>(line.number(0), 0)?;
    plain(&mut line.said, entry.as_ref());
    Ok(())
}

fn plain_message<F: FileSystem>(line: &mut Line, engine: &Engine<F>) -> Result<(), Fault> {
    let message = engine.get_message::<Plain>(line.number(0), line.bytes(0))?;
    plain(&mut line.said, message.as_ref());
    Ok(())
}

fn found<F: FileSystem>(line: &mut Line, engine: &mut Engine<F>) {
    match engine.image() {
        Ok(image) => line.said.state(&state_of(&image)),
        Err(fault) => line.refuse(fault),
    }
}

fn entry<F: FileSystem>(line: &mut Line, engine: &mut Engine<F>, asked: EntryLine) {
    let looked = match asked {
        EntryLine::Entry => entry_at(line, engine),
        EntryLine::Fetch => fetch(line, engine),
        EntryLine::Whole => whole(line, engine),
        EntryLine::Message => message_at(line, engine),
        EntryLine::PlainEntry => plain_entry(line, engine),
        EntryLine::PlainMessage => plain_message(line, engine),
    };
    if let Err(fault) = looked {
        line.refuse(fault);
    }
}

fn of_whole<F: FileSystem>(said: &mut Said, engine: &Engine<F>, asked: WholeLine) {
    let spans = engine.file_spans();
    match asked {
        WholeLine::IsEmpty => said.whether(engine.is_empty()),
        WholeLine::HasFailed => said.whether(engine.failed()),
        WholeLine::Used => said.number(engine.get_used_size() as u64),
        WholeLine::Path => said.say(engine.path()),
        WholeLine::NeedsAppend => said.whether(engine.needs_rewrite_log_files(LogQueue::Append)),
        WholeLine::NeedsRewrite => said.whether(engine.needs_rewrite_log_files(LogQueue::Rewrite)),
        WholeLine::SpanAppend => said.pair(spans.append.0, spans.append.1),
        WholeLine::SpanRewrite => said.pair(spans.rewrite.0, spans.rewrite.1),
    }
}

/// Reads an engine and prints the result.
pub(crate) fn answer<F: FileSystem>(line: &mut Line, engine: &mut Engine<F>, asked: LookLine) {
    match asked {
        LookLine::Found => found(line, engine),
        LookLine::Whole(asked) => of_whole(&mut line.said, engine, asked),
        LookLine::Entry(asked) => entry(line, engine, asked),
        LookLine::Scan(reverse) => scan(line, engine, reverse),
        LookLine::Messages(reverse) => messages(line, engine, reverse),
    }
}
