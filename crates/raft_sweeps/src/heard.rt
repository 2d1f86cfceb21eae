//! What a listener hears of an engine's calls, and the files that it keeps from purges.

use crate::told::tell;
use raft_base::{FileBlockHandle, FileId, FileSeq, LogQueue};
use raft_env::{FileSystem, IoKind};
use raft_listeners::{EventListener, FileKeeper, Listeners};
use raft_memory::{FsCall, MemoryFileSystem};
use raft_records::{Command, EntryIndex, Fault, Fresh, LogBatch, ReadableSize};
use raft_test_rows::{Config, Engine, Failing, Faulty, Held};
use std::alloc::Global;
use std::sync::Arc;
use std::sync::atomic::{AtomicU64, Ordering};
use std::test::Fail;

/// How a listener counts calls in one number, and a file that it keeps.
#[derive(Clone, Copy)]
enum Ear {
    /// Appends a digit for each call: 1 for a new log file, 2 for an append, 3 for an application,
    /// 4 for dropped files.
    Digits,
    /// Adds 1,000 for an append, and 1 for an application.
    Counts(Option<FileSeq>),
}

fn after_call(before: u64, ear: Ear, digit: u64) -> u64 {
    match (ear, digit) {
        (Ear::Digits, _) => before.saturating_mul(10).saturating_add(digit),
        (Ear::Counts(_), 2) => before.saturating_add(1000),
        (Ear::Counts(_), 3) => before.saturating_add(1),
        _ => before,
    }
}

#[derive(Drop)]
struct Noting {
    ear: Ear,
    heard: Arc<AtomicU64>,
}

impl Noting {
    fn note(&self, digit: u64) {
        let before = self.heard.load(Ordering::SeqCst);
        self.heard
            .store(after_call(before, self.ear, digit), Ordering::SeqCst);
    }
}

impl EventListener for Noting {
    fn post_new_log_file(&mut self, _file_id: FileId) {
        self.note(1);
    }

    fn on_append_log_file(&mut self, _handle: FileBlockHandle) {
        self.note(2);
    }

    fn post_apply_memtables(&mut self, _file_id: FileId) {
        self.note(3);
    }

    fn first_file_not_ready_for_purge(&self, queue: LogQueue) -> Option<FileSeq> {
        match (queue, self.ear) {
            (LogQueue::Append, Ear::Counts(keeps)) => keeps,
            _ => None,
        }
    }

    fn post_purge(&mut self, _file_id: FileId) {
        self.note(4);
    }
}

#[derive(Clone, Copy)]
enum Step {
    /// A synced write of one key; `Nothing` is one without items.
    Put,
    Nothing,
    /// A write of one key with number 1 of its group.
    Once,
    /// A write group of two batches of one key each.
    Group,
    /// An entry; `Compact` is the compaction of its group.
    Entry,
    Compact,
    /// A purge of all files to which nothing refers.
    Purge,
    /// A rewriting of the Append queue; `Renew` is one of the Rewrite queue.
    Rewrite,
    Renew,
    /// A write that removes the group of the put.
    Clean,
    /// Writes 50 entries of 10 bytes in each of three groups, and one entry of 1 KB in each of 47
    /// other groups.
    WriteMany,
    /// A purge by watermarks.
    Expire,
}

/// The target size of files, the numbers (from 1) of file writes that find no space, the steps,
/// how the listener counts, the expected number, and the Append queue's first file afterwards, if
/// that is checked.
struct Heard(
    u64,
    &'static [u64],
    &'static [Step],
    Ear,
    u64,
    Option<FileSeq>,
);

/// The first purge rewrites groups with few entries, the tenth the three groups that each purge
/// returns: 197 records and two.
const TEN_PURGES: &[Step] = &[
    Step::WriteMany,
    Step::Expire,
    Step::Expire,
    Step::Expire,
    Step::Expire,
    Step::Expire,
    Step::Expire,
    Step::Expire,
    Step::Expire,
    Step::Expire,
    Step::Expire,
];

const KEEPS_NONE: Ear = Ear::Counts(None);

const KEEPS_1: Ear = Ear::Counts(Some(1));

const KEEPS_20: Ear = Ear::Counts(Some(20));

static CALLS: [Heard; 18] = [
    // An opening makes the first file of each queue.
    Heard(1024, &[], &[], Ear::Digits, 11, None),
    Heard(
        1024,
        &[],
        &[Step::Put, Step::Put],
        Ear::Digits,
        112_323,
        None,
    ),
    Heard(1024, &[], &[Step::Nothing], Ear::Digits, 11, None),
    // The second time the group's number is old, and nothing is written.
    Heard(
        1024,
        &[],
        &[Step::Once, Step::Once],
        Ear::Digits,
        1_123,
        None,
    ),
    Heard(1024, &[], &[Step::Group], Ear::Digits, 112_323, None),
    Heard(1024, &[], &[Step::Compact], Ear::Digits, 11, None),
    Heard(
        1024,
        &[],
        &[Step::Entry, Step::Compact],
        Ear::Digits,
        112_323,
        None,
    ),
    // Both queues begin a new file and lose one, or only the Rewrite queue does.
    Heard(1024, &[], &[Step::Purge], Ear::Digits, 111_144, None),
    Heard(
        1024,
        &[],
        &[Step::Put, Step::Purge],
        Ear::Digits,
        1_123_114,
        None,
    ),
    // A file's data is rewritten, or all of the Rewrite queue. The listener hears of the record,
    // then of a new Append file, and then of the dropped file.
    Heard(
        1024,
        &[],
        &[Step::Put, Step::Rewrite],
        Ear::Digits,
        11_232_314,
        None,
    ),
    Heard(
        1024,
        &[],
        &[Step::Put, Step::Rewrite, Step::Renew],
        Ear::Digits,
        112_323_141_234,
        None,
    ),
    // A clean mark is owed once the Rewrite queue may have a batch. The mark is a record.
    Heard(
        1024,
        &[],
        &[Step::Put, Step::Rewrite, Step::Clean, Step::Purge],
        Ear::Digits,
        1_123_231_423_123_144,
        None,
    ),
    // Each file is full once it has its header.
    Heard(
        1,
        &[],
        &[Step::Put, Step::Group],
        Ear::Digits,
        11_123_123_123,
        None,
    ),
    // Two headers were written before. The first attempt to write finds no space, and the second,
    // after the next file's header, too.
    Heard(1024, &[3], &[Step::Put], Ear::Digits, 11_123, None),
    Heard(
        1024,
        &[3, 5],
        &[Step::Put, Step::Put],
        Ear::Digits,
        111_123,
        None,
    ),
    Heard(1024, &[], TEN_PURGES, KEEPS_NONE, 199_199, Some(39)),
    Heard(1024, &[], TEN_PURGES, KEEPS_1, 199_199, Some(1)),
    Heard(1024, &[], TEN_PURGES, KEEPS_20, 199_199, Some(20)),
];

fn rows() -> &'static [Heard] {
    CALLS.as_slice()
}

fn put(alloc: Global, batch: &mut LogBatch, key: u8) -> Result<(), Fault> {
    batch.put(1, vec![in alloc; key]?, vec![in alloc; 8]?)
}

fn add_entry(
    alloc: Global,
    batch: &mut LogBatch,
    group: u64,
    index: u64,
    len: usize,
) -> Result<(), Fault> {
    let entry = EntryIndex {
        index,
        entries: None,
        entry_offset: 0,
        entry_len: 0,
        lz4: false,
    };
    let bytes = vec![in alloc; vec![in alloc; b'x'; len]?]?;
    batch.add_raw_entries(group, vec![in alloc; entry]?, bytes)
}

// The batch of a step; a write group has another function.
fn fill(alloc: Global, batch: &mut LogBatch, step: Step) -> Result<(), Fault> {
    match step {
        Step::Put | Step::Once => put(alloc, batch, 7),
        Step::Entry => add_entry(alloc, batch, 2, 1, 1),
        Step::Clean => batch.add_command(1, Command::Clean),
        _ => Ok(()),
    }
}

fn is_written<F: FileSystem, L: FileKeeper>(
    alloc: Global,
    engine: &mut Engine<F>,
    listeners: &mut L,
    step: Step,
) -> bool {
    let mut batch = LogBatch::new(alloc);
    let is_filled = fill(alloc, &mut batch, step).is_ok();
    match step {
        Step::Once => {
            let numbers = &[(1, 1)];
            is_filled
                && engine
                    .write_once_with_listeners(&mut batch, numbers, true, listeners)
                    .is_ok()
        }
        _ => is_filled
            && engine
                .write_with_listeners(&mut batch, true, listeners)
                .is_ok(),
    }
}

fn two_batches(alloc: Global) -> Result<Vec<LogBatch>, Fault> {
    let mut batches = Vec::new(alloc);
    for key in 1..3_u8 {
        let mut batch = LogBatch::new(alloc);
        put(alloc, &mut batch, key)?;
        batches.push(batch)?;
    }
    Ok(batches)
}

fn is_group_written<F: FileSystem, L: FileKeeper>(
    alloc: Global,
    engine: &mut Engine<F>,
    listeners: &mut L,
) -> bool {
    match two_batches(alloc) {
        Ok(mut group) => {
            engine
                .write_group_with_listeners(&mut group, &[true, false], listeners)
                .is_ok()
        }
        Err(_fault) => false,
    }
}

fn is_entry_written<F: FileSystem, L: FileKeeper>(
    alloc: Global,
    engine: &mut Engine<F>,
    listeners: &mut L,
    group: u64,
    index: u64,
) -> bool {
    let len = if group <= 3 { 10 } else { 1024 };
    let mut batch = LogBatch::new(alloc);
    add_entry(alloc, &mut batch, group, index, len).is_ok()
        && engine
            .write_with_listeners(&mut batch, false, listeners)
            .is_ok()
}

fn are_many_written<F: FileSystem, L: FileKeeper>(
    alloc: Global,
    engine: &mut Engine<F>,
    listeners: &mut L,
) -> bool {
    for group in 1..51_u64 {
        let end = if group <= 3 { 51 } else { 2_u64 };
        for index in 1..end {
            if !is_entry_written(alloc, engine, listeners, group, index) {
                return false;
            }
        }
    }
    true
}

fn asks_for_three<F: FileSystem, L: FileKeeper>(engine: &mut Engine<F>, listeners: &mut L) -> bool {
    match engine.purge_expired_files_with_listeners(listeners) {
        Ok(groups) => groups.as_slice() == [1, 2, 3].as_slice(),
        Err(_fault) => false,
    }
}

// Runs a step. A purge by watermarks also has to return the three groups.
fn call<F: FileSystem, L: FileKeeper>(
    alloc: Global,
    engine: &mut Engine<F>,
    listeners: &mut L,
    step: Step,
) -> bool {
    match step {
        Step::Group => is_group_written(alloc, engine, listeners),
        Step::Compact => engine.compact_to_with_listeners(2, 9, listeners).is_ok(),
        Step::Purge => engine
            .must_purge_all_stale_with_listeners(listeners)
            .is_ok(),
        Step::Rewrite => {
            engine
                .must_rewrite_append_queue_with_listeners(None, None, listeners)
                .is_ok()
        }
        Step::Renew => engine
            .must_rewrite_rewrite_queue_with_listeners(listeners)
            .is_ok(),
        Step::WriteMany => are_many_written(alloc, engine, listeners),
        Step::Expire => asks_for_three(engine, listeners),
        _ => is_written(alloc, engine, listeners, step),
    }
}

// Whether each call succeeds, or the row has writes without space, and the Append queue then
// begins with its file.
fn are_called<F: FileSystem, L: FileKeeper>(
    alloc: Global,
    engine: &mut Engine<F>,
    listeners: &mut L,
    row: &Heard,
) -> bool {
    for step in row.2 {
        if !call(alloc, engine, listeners, *step) && row.1.is_empty() {
            return false;
        }
    }
    match row.5 {
        Some(first) => engine.file_spans().append.0 == first,
        None => true,
    }
}

fn settings(alloc: Global, row: &Heard) -> Config {
    let mut config = Config::fresh(alloc);
    config.target_file_size = ReadableSize(row.0);
    if row.5.is_some() {
        config.purge_threshold = ReadableSize(10 * 1024);
    }
    config
}

fn open<F: Faulty, L: FileKeeper>(
    alloc: Global,
    held: &mut Held<F>,
    listeners: &mut L,
    row: &Heard,
) {
    if let Some(files) = held.take() {
        let config = settings(alloc, row);
        match Engine::open_in_order_with_listeners(alloc, config, files, listeners) {
            Ok(engine) => held.hold(Held::Engine(engine)),
            Err(refused) => held.hold(Held::Refused(refused)),
        }
    }
}

fn arm<F: Faulty>(alloc: Global, held: &mut Held<F>, row: &Heard) {
    held.renew(alloc);
    for nth in row.1 {
        held.fail(Failing::Nth(FsCall::Write, *nth, IoKind::NoSpace));
    }
}

fn play<F: Faulty, L: FileKeeper>(
    alloc: Global,
    held: &mut Held<F>,
    listeners: &mut L,
    row: &Heard,
) -> bool {
    arm(alloc, held, row);
    open(alloc, held, listeners, row);
    match held {
        Held::Engine(engine) => are_called(alloc, engine, listeners, row),
        _ => false,
    }
}

fn listeners_of(alloc: Global, noting: Noting) -> Result<Listeners, Fault> {
    let mut given: Vec<Box<dyn EventListener + Send>> = Vec::new(alloc);
    given.push(Box::new(alloc, noting)?)?;
    Ok(Listeners::new(alloc, given))
}

fn listeners_at(alloc: Global, ear: Ear, heard: &Arc<AtomicU64>) -> Result<Listeners, Fault> {
    let heard = Arc::try_clone(heard)?;
    listeners_of(alloc, Noting { ear, heard })
}

fn is_heard<F: Faulty>(
    alloc: Global,
    held: &mut Held<F>,
    heard: &Arc<AtomicU64>,
    row: &Heard,
) -> bool {
    heard.store(0, Ordering::SeqCst);
    match listeners_at(alloc, row.3, heard) {
        Ok(mut listeners) => {
            play(alloc, held, &mut listeners, row) && heard.load(Ordering::SeqCst) == row.4
        }
        Err(_fault) => false,
    }
}

fn wrong_row<F: Faulty>(
    alloc: Global,
    held: &mut Held<F>,
    heard: &Arc<AtomicU64>,
) -> Option<(&'static str, usize)> {
    for (place, row) in rows().iter().enumerate() {
        if !is_heard(alloc, held, heard, row) {
            return Some(("row", place));
        }
    }
    None
}

fn wrong_held<F: Faulty>(alloc: Global, held: &mut Held<F>) -> Option<(&'static str, usize)> {
    match Arc::new(alloc, AtomicU64::new(0)) {
        Ok(heard) => wrong_row(alloc, held, &heard),
        Err(_error) => Some(("memory", 0)),
    }
}

fn wrong_call<F: Faulty>(alloc: Global, files: F) -> Option<(&'static str, usize)> {
    let mut held = Held::Files(files);
    let wrong = wrong_held(alloc, &mut held);
    held.into_files();
    wrong
}

#[test]
fn a_listener_hears_each_call_in_order(rt: HostRuntime) -> Result<(), Fail> {
    tell(wrong_call(rt.alloc(), MemoryFileSystem::new(rt.alloc())))
}
