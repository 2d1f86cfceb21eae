//! Operations on four keys and eight entries, and the state of these: derived from the operations
//! only, or read from an image.

use crate::plans::{Change, Plan, fault_of};
use raft_records::{Fresh, ReadableSize};
use raft_script::{Act, Config, Image, Op, Outcome};
use std::alloc::{AllocError, Global};

/// The first byte of each key's value and of each entry's word, 0 for none. `a` and `b` are keys
/// of group 1, `c` and `d` of group 2. The entries are those of group 3, by their indexes.
#[derive(Clone, Copy, PartialEq, Eq)]
pub struct State {
    pub a: u8,
    pub b: u8,
    pub c: u8,
    pub d: u8,
    pub words: [u8; 8],
    /// The number that each of the groups 0 to 3 keeps for writes that act once. No image shows
    /// it.
    pub numbers: [u64; 4],
    /// Something else exists.
    pub other: bool,
}

pub const EMPTY: State = State {
    a: 0,
    b: 0,
    c: 0,
    d: 0,
    words: [0; 8],
    numbers: [0; 4],
    other: false,
};

fn with(state: State, group: u64, key: &[u8], value: u8) -> State {
    match (group, key) {
        (1, b"a") => State { a: value, ..state },
        (1, b"b") => State { b: value, ..state },
        (2, b"c") => State { c: value, ..state },
        (2, b"d") => State { d: value, ..state },
        _ => State {
            other: true,
            ..state
        },
    }
}

fn first_byte(value: &[u8]) -> u8 {
    match value.first() {
        Some(byte) => *byte,
        None => 0,
    }
}

// The first byte of an entry's word, which is after the colon.
fn word_byte(text: &[u8]) -> u8 {
    let mut is_word = false;
    for byte in text {
        if is_word {
            return *byte;
        }
        is_word = *byte == b':';
    }
    0
}

/// The first byte of the value at a key.
pub fn value_of(state: State, group: u64, key: &[u8]) -> u8 {
    match (group, key) {
        (1, b"a") => state.a,
        (1, b"b") => state.b,
        (2, b"c") => state.c,
        (2, b"d") => state.d,
        _ => 0,
    }
}

fn with_word(state: State, group: u64, index: u64, word: u8) -> State {
    let mut state = state;
    match state.words.get_mut(index as usize) {
        Some(place) if group == 3 => *place = word,
        _ => state.other = true,
    }
    state
}

// Removes the words at the indexes from `first` to the one before `end`.
fn without_words(words: [u8; 8], first: u64, end: u64) -> [u8; 8] {
    let mut words = words;
    for (index, word) in words.iter_mut().enumerate() {
        if first <= index as u64 && (index as u64) < end {
            *word = 0;
        }
    }
    words
}

// Adds entries. They replace all entries from the first of their indexes on.
fn with_entries(state: State, group: u64, entries: &[(u64, Vec<u8>)]) -> State {
    let mut state = state;
    if let Some(first) = entries.first() {
        state.words = without_words(state.words, first.0, u64::MAX);
    }
    for (index, text) in entries {
        state = with_word(state, group, *index, word_byte(text));
    }
    state
}

fn compacted(state: State, group: u64, index: u64) -> State {
    if group == 3 {
        State {
            words: without_words(state.words, 0, index),
            ..state
        }
    } else {
        state
    }
}

// Sets the numbers of these groups.
fn with_numbers(state: State, pairs: &[(u64, u64)]) -> State {
    let mut state = state;
    for (group, number) in pairs {
        match state.numbers.get_mut(*group as usize) {
            Some(kept) => *kept = *number,
            None => state.other = true,
        }
    }
    state
}

fn without_number(state: State, group: u64) -> State {
    let mut state = state;
    if let Some(kept) = state.numbers.get_mut(group as usize) {
        *kept = 0;
    }
    state
}

fn cleaned(state: State, group: u64) -> State {
    let state = without_number(state, group);
    match group {
        1 => State {
            a: 0,
            b: 0,
            ..state
        },
        2 => State {
            c: 0,
            d: 0,
            ..state
        },
        _ => compacted(state, group, u64::MAX),
    }
}

fn after_act(state: State, act: &Act) -> State {
    match act {
        Act::Put(group, key, value) => with(state, *group, key, first_byte(value)),
        Act::Delete(group, key) => with(state, *group, key, 0),
        Act::Entries(group, entries) => with_entries(state, *group, entries),
        Act::Clean(group) => cleaned(state, *group),
        Act::Compact(group, index) => compacted(state, *group, *index),
    }
}

/// The number of a group's entries with an index below this one.
pub fn count_below(state: State, group: u64, index: u64) -> u64 {
    let before = compacted(state, group, index).words;
    let mut count: u64 = 0;
    for (word, left) in state.words.iter().zip(before.iter()) {
        if *word != *left {
            count = count.saturating_add(1);
        }
    }
    count
}

fn after_acts(state: State, acts: &[Act]) -> State {
    let mut state = state;
    for act in acts {
        state = after_act(state, act);
    }
    state
}

/// Whether a write with these numbers acts: each is greater than its group's number.
pub fn are_new(state: State, pairs: &[(u64, u64)]) -> bool {
    let mut are_new = true;
    for (group, number) in pairs {
        let is_new = match state.numbers.get(*group as usize) {
            Some(kept) => *number > *kept,
            None => false,
        };
        are_new = are_new && is_new;
    }
    are_new
}

/// The state after an operation that succeeded. For a write group all of its batches count.
pub fn after(state: State, op: &Op) -> State {
    let mut state = state;
    match op {
        Op::Write(acts, _) => state = after_acts(state, acts),
        Op::WriteGroup(parts) => {
            for part in parts {
                state = after_acts(state, &part.0);
            }
        }
        Op::WriteOnce(acts, pairs, _) => {
            if are_new(state, pairs) {
                state = with_numbers(after_acts(state, acts), pairs);
            }
        }
        Op::CompactTo(group, index) => state = compacted(state, *group, *index),
        Op::Sync | Op::Get(_, _) | Op::Entry(_, _) | Op::First(_) | Op::Last(_) | Op::Groups => {}
        // A purge changes nothing.
        Op::RewriteAppend(_, _) | Op::RewriteRewrite | Op::PurgeStale | Op::Purge => {}
    }
    state
}

// The word's first byte, if these are the bytes of the entry with this index.
fn word_of(index: u64, bytes: &[u8]) -> Option<u8> {
    match bytes {
        [digit, b':', word, ..] if u64::from(*digit) == index.saturating_add(48) => Some(*word),
        _ => None,
    }
}

/// The state of an image.
pub fn state_of(image: &Image) -> State {
    let mut state = EMPTY;
    for group in &image.groups {
        for pair in &group.pairs {
            state = with(state, group.group, &pair.0, first_byte(&pair.1));
        }
        for entry in &group.entries {
            state = match word_of(entry.0, &entry.1) {
                Some(word) => with_word(state, group.group, entry.0, word),
                None => State {
                    other: true,
                    ..state
                },
            };
        }
    }
    state
}

/// Whether the operation returned no fault.
pub fn is_done(outcome: &Outcome) -> bool {
    fault_of(outcome).is_none()
}

/// The index of the first operation that failed.
pub fn first_refused(outcomes: &[Outcome]) -> Option<usize> {
    for (place, outcome) in outcomes.iter().enumerate() {
        if !is_done(outcome) {
            return Some(place);
        }
    }
    None
}

fn asks_for_sync(parts: &[(Vec<Act>, bool)]) -> bool {
    let mut asks = false;
    for part in parts {
        asks = asks || part.1;
    }
    asks
}

// Whether all earlier operations are durable after this one.
fn covers(op: &Op) -> bool {
    match op {
        Op::Write(_, sync) => *sync,
        Op::WriteGroup(parts) => asks_for_sync(parts),
        Op::WriteOnce(_, _, sync) => *sync,
        Op::Sync | Op::RewriteAppend(_, _) | Op::RewriteRewrite | Op::PurgeStale | Op::Purge =>
            true,
        _ => false,
    }
}

// The state without the parts that no image shows.
fn shown(state: State) -> State {
    State {
        numbers: [0; 4],
        ..state
    }
}

/// Whether a log may have this state after a crash: the state after the operations up to one that
/// isn't before the last durable one, or after all of them and the one in which the engine failed.
pub fn is_allowed(
    ops: &[Op],
    outcomes: &[Outcome],
    failed_at: Option<usize>,
    found: State,
) -> bool {
    let mut state = EMPTY;
    let mut allowed = found == EMPTY;
    for (op, outcome) in ops.iter().zip(outcomes.iter()) {
        if is_done(outcome) {
            state = after(state, op);
            allowed = found == shown(state) || (allowed && !covers(op));
        }
    }
    match failed_at {
        Some(place) => match ops.get(place) {
            Some(op) => allowed || found == shown(after(state, op)),
            None => allowed,
        },
        None => allowed,
    }
}

/// The operations make at most this number of log files, also if one finds no space and continues
/// in a next file.
pub const MAX_FILES: usize = 16;

/// Settings: a log file is full at 1 KB, and the Append queue is purged above 1 KB.
pub fn settings(alloc: Global) -> Result<Config, AllocError> {
    let mut config = Config::fresh(alloc);
    config.dir.push_str("raft")?;
    config.target_file_size = ReadableSize::kb(1);
    config.purge_threshold = ReadableSize::kb(1);
    Ok(config)
}

/// Operations on the four keys and the entries. With these settings they fill three files, and the
/// entry that is read last is in an earlier file.
static OPERATIONS: [Plan; 15] = [
    Plan::Write(&[Change::Put(1, b"a", &[1])], true),
    Plan::Write(
        &[Change::Put(1, b"b", &[2; 40]), Change::Put(2, b"c", &[3])],
        false,
    ),
    Plan::Get(1, b"b"),
    Plan::Write(
        &[Change::Delete(1, b"a"), Change::Put(2, b"d", &[4; 20])],
        false,
    ),
    Plan::Sync,
    Plan::Write(&[Change::Put(1, b"a", &[5; 900])], false),
    Plan::Get(1, b"a"),
    Plan::Write(&[Change::Delete(2, b"c")], true),
    Plan::Write(&[Change::Put(2, b"c", &[6; 9])], false),
    Plan::Write(&[Change::Entries(3, 1, 4, b"x")], false),
    Plan::Write(&[Change::Put(2, b"d", &[8; 900])], false),
    Plan::Write(
        &[
            Change::Entries(3, 3, 5, b"y"),
            Change::Put(1, b"b", &[7; 900]),
        ],
        true,
    ),
    Plan::CompactTo(3, 2),
    Plan::Entry(3, 2),
    Plan::Write(&[Change::Clean(2), Change::Compact(3, 4)], false),
];

/// Operations on the same keys and entries among all purges: keys that are put again, deleted and
/// cleaned, entries that are written again and compacted, rewritten data that is rewritten again,
/// and data that was removed since.
static PURGES: [Plan; 14] = [
    Plan::Write(
        &[Change::Put(1, b"a", &[1; 900]), Change::Put(2, b"c", &[1])],
        false,
    ),
    Plan::Write(
        &[Change::Entries(3, 1, 5, b"x"), Change::Put(1, b"b", &[2])],
        true,
    ),
    Plan::RewriteAppend(None, Some(1)),
    Plan::RewriteAppend(None, None),
    Plan::Write(
        &[
            Change::Put(1, b"a", &[3]),
            Change::Delete(1, b"b"),
            Change::Clean(2),
            Change::Entries(3, 4, 6, b"y"),
        ],
        true,
    ),
    Plan::RewriteAppend(Some(2), Some(2)),
    Plan::CompactTo(3, 3),
    Plan::RewriteRewrite,
    Plan::Write(&[Change::Put(2, b"d", &[4; 900])], false),
    Plan::PurgeStale,
    Plan::Write(&[Change::Delete(1, b"a")], false),
    Plan::RewriteAppend(None, None),
    Plan::Entry(3, 3),
    Plan::PurgeStale,
];

/// The same with purges of what the queues need: of the Append queue each time, and of the Rewrite
/// queue once most of the rewritten data is garbage.
static EXPIRED: [Plan; 13] = [
    Plan::Write(
        &[
            Change::Put(1, b"a", &[1; 900]),
            Change::Put(2, b"c", &[1; 90]),
        ],
        false,
    ),
    Plan::Write(
        &[
            Change::Entries(3, 1, 6, b"x"),
            Change::Put(2, b"d", &[1; 900]),
        ],
        true,
    ),
    Plan::Write(&[Change::Put(1, b"b", &[2; 900])], false),
    Plan::Purge,
    Plan::Write(
        &[
            Change::Put(1, b"a", &[3]),
            Change::Delete(2, b"d"),
            Change::Entries(3, 2, 6, b"y"),
        ],
        true,
    ),
    Plan::Write(&[Change::Put(2, b"c", &[4; 1000])], false),
    Plan::Purge,
    Plan::CompactTo(3, 6),
    Plan::Write(&[Change::Clean(1), Change::Put(1, b"b", &[5; 1000])], false),
    Plan::Purge,
    Plan::Write(&[Change::Delete(1, b"b")], false),
    Plan::Entry(3, 6),
    Plan::Purge,
];

/// Entries of one group that are too many for one batch when they are first rewritten.
static REWRITTEN_IN_PARTS: [Plan; 3] = [
    Plan::Write(&[Change::LongEntries(3, 1, 3, b'x', 66_000)], true),
    Plan::RewriteAppend(None, None),
    Plan::RewriteRewrite,
];

/// The lists of operations.
#[derive(Clone, Copy)]
pub enum Sequence {
    Operations,
    Purges,
    Expired,
    InParts,
}

/// The operations of a list. Only this function names their tables, since a proof has the whole
/// table at each step.
pub fn plans_in(sequence: Sequence) -> &'static [Plan] {
    match sequence {
        Sequence::Operations => OPERATIONS.as_slice(),
        Sequence::Purges => PURGES.as_slice(),
        Sequence::Expired => EXPIRED.as_slice(),
        Sequence::InParts => REWRITTEN_IN_PARTS.as_slice(),
    }
}
