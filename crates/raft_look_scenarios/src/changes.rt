//! Commands that change a log whose opening loses something: they are refused, or the lost bytes
//! are kept in files beside.

use crate::files::{
    CUT_BEFORE, FileParts, GAP, LEFT_OUT, NO_REWRITE, PUT, TORN, TORN_END, TORN_FRONT, TORN_MIDDLE,
    WHOLE, end, make,
};
use crate::standing::standing;
use crate::words::words_of;
use raft_command_line::parse;
use raft_commands::change;
use std::test::Fail;
use std::thread::Threads;

/// Files, the words after the folder, the status (`None` if the command fails), the names and
/// bytes of files that keep something, and whether everything else is unchanged.
struct Case(
    &'static [FileParts],
    &'static [&'static str],
    Option<u8>,
    &'static [FileParts],
    bool,
);

const PUTS: &[&str] = &["put", "1", "b", "c"];

const PUTS_CUT: &[&str] = &["put", "1", "b", "c", "--cut"];

const KEPT_MIDDLE: &[FileParts] = &[("0000000000000001.raftlog.cut-89", &[TORN, PUT])];

const KEPT_END: &[FileParts] = &[("0000000000000002.raftlog.cut-89", &[TORN])];

const KEPT_AGAIN: &[FileParts] = &[
    ("0000000000000001.raftlog.cut-89", &[PUT]),
    ("0000000000000001.raftlog.cut-89.2", &[TORN]),
];

static CASES: [Case; 20] = [
    Case(WHOLE, PUTS, Some(0), &[], false),
    Case(TORN_MIDDLE, PUTS, Some(7), &[], true),
    Case(TORN_MIDDLE, &["purge"], Some(7), &[], true),
    Case(TORN_MIDDLE, PUTS_CUT, Some(0), KEPT_MIDDLE, false),
    Case(TORN_MIDDLE, &["repair"], Some(0), KEPT_MIDDLE, false),
    Case(TORN_MIDDLE, &["repair", "--dry-run"], Some(0), &[], true),
    Case(TORN_END, PUTS, Some(0), KEPT_END, false),
    Case(
        TORN_END,
        &["put", "1", "b", "c", "--no-keep"],
        Some(0),
        &[],
        false,
    ),
    Case(
        TORN_END,
        &["repair", "--spill", "second"],
        Some(0),
        KEPT_END,
        false,
    ),
    Case(TORN_FRONT, &["repair"], None, &[], true),
    Case(
        TORN_FRONT,
        &["put", "1", "b", "c", "--mode", "any"],
        Some(7),
        &[],
        true,
    ),
    Case(CUT_BEFORE, &["repair"], Some(0), KEPT_AGAIN, false),
    Case(GAP, PUTS, Some(7), &[], true),
    Case(GAP, &["repair"], Some(7), &[], true),
    Case(GAP, PUTS_CUT, Some(0), &[], false),
    Case(NO_REWRITE, PUTS, Some(7), &[], true),
    Case(LEFT_OUT, PUTS, Some(7), &[], true),
    Case(LEFT_OUT, PUTS_CUT, Some(0), &[], false),
    Case(
        LEFT_OUT,
        &["put", "1", "b", "c", "--spill", "second"],
        Some(0),
        &[],
        false,
    ),
    Case(
        GAP,
        &["rewrite", "append", "--dry-run", "--cut"],
        Some(0),
        &[],
        true,
    ),
];

// The status of the command, or nothing where it fails.
fn status_of<R: Threads + Sync>(rt: HostRuntime, threads: &R, words: &[String]) -> Option<u8> {
    match parse(rt.alloc(), words) {
        Ok(request) => match change(rt, threads, &request) {
            Ok(status) => Some(status.code()),
            Err(_) => None,
        },
        Err(_) => None,
    }
}

// Whether the files that keep something, and no others of such a name, stand in the folder.
fn keeps(rt: &HostRuntime, folder: &str, kept: &[FileParts]) -> Result<bool, Fail> {
    let mut found: usize = 0;
    for (name, bytes) in &standing(rt, folder)? {
        if !name.contains(".cut-") {
            continue;
        }
        found = found.saturating_add(1);
        if !is_kept(kept, name, bytes) {
            return Ok(false);
        }
    }
    Ok(found == kept.len())
}

// Whether these are the bytes of the file that has this name among those that keep something.
fn is_kept(kept: &[FileParts], name: &str, bytes: &[u8]) -> bool {
    for (each, parts) in kept {
        if name == *each {
            return is_all(bytes, parts);
        }
    }
    false
}

// Whether bytes are these parts, one behind the other.
fn is_all(bytes: &[u8], parts: &[&[u8]]) -> bool {
    let mut rest = bytes;
    for part in parts {
        match rest.strip_prefix(*part) {
            Some(behind) => rest = behind,
            None => return false,
        }
    }
    rest.is_empty()
}

// An opening makes the lock's file and the note of the numbers.
fn stays(before: &[(String, Vec<u8>)], after: &[(String, Vec<u8>)]) -> bool {
    for file in before {
        if !after.contains(file) {
            return false;
        }
    }
    for file in after {
        let is_note = matches!(file.0.as_str(), "LOCK" | "SPANS");
        if !before.contains(file) && !is_note {
            return false;
        }
    }
    true
}

fn holds<R: Threads + Sync>(
    rt: HostRuntime,
    threads: &R,
    folder: &str,
    case: &Case,
) -> Result<bool, Fail> {
    let Case(_, words, wanted, kept, left) = case;
    let before = standing(&rt, folder)?;
    let words = words_of(rt.alloc(), folder, words)?;
    let status = status_of(rt, threads, &words);
    let leaves = stays(&before, &standing(&rt, folder)?);
    Ok(status == *wanted && keeps(&rt, folder, kept)? && leaves == *left)
}

#[test]
fn changes_keep_what_an_opening_loses(rt: HostRuntime) -> Result<(), Fail> {
    for (place, case) in CASES.iter().enumerate() {
        let folder = make(&rt, "change", case.0)?;
        let held = holds(rt, &rt, folder.as_str(), case);
        end(&rt, folder.as_str(), held, "change", place)?;
    }
    Ok(())
}
