//! Crashes of a folder of the operating system. After each of some puts the log's bytes are copied
//! as a crash could leave them, and an engine opens the copy. It finds every key that a sync
//! covers, and no key after a gap.

use raft_disk::DiskFileSystem;
use raft_env::FileSystem;
use raft_records::{Fault, Fresh, LogBatch};
use raft_rows::temp_folder;
use raft_test_rows::{Config, Engine};
use std::alloc::{AllocError, Global};
use std::fs;
use std::test::Fail;

const GROUP: u64 = 1;

const LOG: &str = "0000000000000001.raftlog";

/// The number of bytes of the log that are copied: its records, and some of the zeros after them.
const LOG_LEN: usize = 1024;

/// Whether each put has a sync.
const PUTS: [bool; 6] = [true, false, true, false, false, true];

/// How many of the bytes that changed since the last sync a crash keeps. The others have their old
/// value, or this one if they had none.
const TORN: [(usize, u8); 6] = [
    (usize::MAX, 0),
    (0, 0),
    (0, 255),
    (1, 0),
    (21, 255),
    (60, 0),
];

/// The number of keys that were put, from key 0 on, and of those that a sync covers.
#[derive(Clone, Copy)]
struct Reached {
    put: u64,
    synced: u64,
}

fn key_of(alloc: Global, number: u64) -> Result<Vec<u8>, AllocError> {
    Ok(format!(in alloc; "key {number}")?.into_bytes())
}

fn put<F: FileSystem>(
    alloc: Global,
    engine: &mut Engine<F>,
    number: u64,
    sync: bool,
) -> Result<(), Fault> {
    let key = key_of(alloc, number)?;
    let value = key_of(alloc, number)?;
    let mut batch = LogBatch::new(alloc);
    batch.put(GROUP, key, value)?;
    engine.write(&mut batch, sync)?;
    Ok(())
}

fn has<F: FileSystem>(alloc: Global, engine: &Engine<F>, number: u64) -> bool {
    match key_of(alloc, number) {
        Ok(key) => match engine.get(GROUP, &key) {
            Ok(Some(value)) => value == key,
            _ => false,
        },
        Err(_fault) => false,
    }
}

// The number of keys from key 0 on; `None` if a key exists after a gap.
fn standing<F: FileSystem>(alloc: Global, engine: &Engine<F>) -> Option<u64> {
    let mut standing = 0;
    for number in 0..PUTS.len() as u64 {
        if has(alloc, engine, number) {
            if standing != number {
                return None;
            }
            standing = number + 1;
        }
    }
    Some(standing)
}

fn torn(
    alloc: Global,
    synced: &[u8],
    now: &[u8],
    kept: usize,
    fill: u8,
) -> Result<Vec<u8>, AllocError> {
    let mut bytes = Vec::with_capacity(alloc, now.len())?;
    let mut changed = 0usize;
    for (place, byte) in now.iter().enumerate() {
        let old = synced.get(place).copied();
        if old == Some(*byte) || changed < kept {
            bytes.push(*byte)?;
        } else {
            bytes.push(old.unwrap_or(fill))?;
        }
        if old != Some(*byte) {
            changed = changed.saturating_add(1);
        }
    }
    Ok(bytes)
}

fn log_bytes(rt: &HostRuntime, folder: &str) -> Option<Vec<u8>> {
    let log = format!(in rt.alloc(); "{folder}/{LOG}").ok()?;
    let mut bytes = fs::read(rt, log.as_str()).ok()?;
    bytes.truncate(LOG_LEN);
    Some(bytes)
}

/// The log's bytes at the last sync and after a put.
#[derive(Drop)]
struct Moment {
    synced: Vec<u8>,
    now: Vec<u8>,
    reached: Reached,
}

/// The moments after an engine's puts, and the number of keys that it then holds.
#[derive(Drop)]
struct Seen {
    moments: Vec<Moment>,
    last: Vec<u8>,
    reached: Reached,
    standing: Option<u64>,
}

impl Seen {
    fn new(alloc: Global) -> Seen {
        Seen {
            moments: Vec::new(alloc),
            last: Vec::new(alloc),
            reached: Reached { put: 0, synced: 0 },
            standing: None,
        }
    }

    // Notes a put and the log's bytes after it.
    fn note(&mut self, alloc: Global, now: Vec<u8>, sync: bool) -> Result<(), AllocError> {
        self.reached.put = self.reached.put.saturating_add(1);
        if sync {
            self.reached.synced = self.reached.put;
            self.last = now.to_vec(alloc)?;
        }
        let synced = self.last.to_vec(alloc)?;
        let reached = self.reached;
        self.moments.push(Moment {
            synced,
            now,
            reached,
        })?;
        Ok(())
    }

    // Notes the log's bytes. Returns whether they could be read.
    fn look(&mut self, rt: HostRuntime, folder: &str, sync: bool) -> bool {
        match log_bytes(&rt, folder) {
            Some(now) => self.note(rt.alloc(), now, sync).is_ok(),
            None => false,
        }
    }
}

// Puts keys into a log in this folder, each with or without a sync. Returns whether all succeed.
fn see<F: FileSystem>(
    rt: HostRuntime,
    folder: &str,
    engine: &mut Engine<F>,
    puts: &[bool],
    seen: &mut Seen,
) -> bool {
    for sync in puts {
        let is_put = put(rt.alloc(), engine, seen.reached.put, *sync).is_ok();
        if !is_put || !seen.look(rt, folder, *sync) {
            return false;
        }
    }
    seen.standing = standing(rt.alloc(), engine);
    true
}

fn seen_over<F: FileSystem + Drop>(
    rt: HostRuntime,
    folder: &str,
    files: F,
    puts: &[bool],
    seen: &mut Seen,
) -> bool {
    match Engine::open_in_order(rt.alloc(), Config::fresh(rt.alloc()), files) {
        Ok(mut engine) => {
            let is_seen = see(rt, folder, &mut engine, puts, seen);
            engine.give_up();
            is_seen
        }
        Err(_refused) => false,
    }
}

// The only call on a real folder, since such a call takes long to prove.
fn seen_in(rt: HostRuntime, folder: &str, puts: &[bool], seen: &mut Seen) -> bool {
    match DiskFileSystem::open(rt, folder) {
        Ok(files) => seen_over(rt, folder, files, puts, seen),
        Err(_fault) => false,
    }
}

fn standing_in(rt: HostRuntime, folder: &str) -> Option<u64> {
    let mut seen = Seen::new(rt.alloc());
    if seen_in(rt, folder, &[], &mut seen) {
        seen.standing
    } else {
        None
    }
}

// The number of keys that an engine finds in a folder, if a second one finds the same number.
fn standing_twice(rt: HostRuntime, folder: &str) -> Option<u64> {
    let first = standing_in(rt, folder)?;
    let second = standing_in(rt, folder)?;
    if first == second { Some(first) } else { None }
}

fn store_log(rt: HostRuntime, left: &str, bytes: &[u8]) -> Option<()> {
    let log = format!(in rt.alloc(); "{left}/{LOG}").ok()?;
    fs::create_dir(&rt, left).ok()?;
    fs::write(&rt, log.as_str(), bytes).ok()
}

// The number of keys that engines find in a folder with these bytes of the log.
fn found(rt: HostRuntime, left: &str, bytes: &[u8]) -> Option<u64> {
    store_log(rt, left, bytes)?;
    let found = standing_twice(rt, left);
    fs::remove_dir_all(&rt, left).ok()?;
    found
}

fn is_right(reached: Reached, found: Option<u64>) -> bool {
    match found {
        Some(standing) => reached.synced <= standing && standing <= reached.put,
        None => false,
    }
}

// The number of crashes after which the wrong keys are found.
fn wrong_crashes(rt: HostRuntime, left: &str, synced: &[u8], moment: &Moment) -> Option<u64> {
    let mut wrong = 0;
    for (kept, fill) in &TORN {
        let bytes = torn(rt.alloc(), synced, &moment.now, *kept, *fill).ok()?;
        if !is_right(moment.reached, found(rt, left, &bytes)) {
            wrong = u64::saturating_add(wrong, 1);
        }
    }
    Some(wrong)
}

/// The number of wrong crashes, and the number after the last put if synced bytes may be lost too.
#[derive(Clone, Copy)]
struct Wrong {
    counted: u64,
    uncounted: u64,
}

fn wrong_of(rt: HostRuntime, left: &str, moments: &[Moment]) -> Option<Wrong> {
    let mut wrong = Wrong {
        counted: 0,
        uncounted: 0,
    };
    for moment in moments {
        let counted = wrong_crashes(rt, left, &moment.synced, moment)?;
        wrong.counted = wrong.counted.saturating_add(counted);
    }
    wrong.uncounted = wrong_crashes(rt, left, &[], moments.last()?)?;
    Some(wrong)
}

fn wrong_at(rt: HostRuntime, live: &str, left: &str) -> Option<Wrong> {
    let mut seen = Seen::new(rt.alloc());
    if seen_in(rt, live, &PUTS, &mut seen) {
        wrong_of(rt, left, &seen.moments)
    } else {
        None
    }
}

fn crashes_in(rt: HostRuntime, folder: &str) -> Option<Wrong> {
    let live = format!(in rt.alloc(); "{folder}/live").ok()?;
    let left = format!(in rt.alloc(); "{folder}/left").ok()?;
    wrong_at(rt, live.as_str(), left.as_str())
}

fn tell_wrong(wrong: Option<Wrong>) -> Result<(), Fail> {
    match wrong {
        Some(
            Wrong {
                counted: 0,
                uncounted: 5,
            },
        ) => Ok(()),
        Some(Wrong { counted, uncounted }) => Err(Fail::new(format_args!(
            "{counted} wrong, {uncounted} without syncs"
        ))),
        None => Err(Fail::new("a call failed")),
    }
}

#[test]
fn synced_keys_are_found_after_crashes(rt: HostRuntime) -> Result<(), Fail> {
    let folder = temp_folder(&rt, "crashes")?;
    let wrong = crashes_in(rt, folder.as_str());
    fs::remove_dir_all(&rt, folder.as_str())?;
    tell_wrong(wrong)
}
