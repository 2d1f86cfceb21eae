//! Tests in a folder of the operating system: plays the steps of stories.

use crate::calls::is_made;
use crate::deeds::{Deed, does};
use crate::disk::{Disk, Reading};
use crate::folder_steps::{Asked, Failure, Step, Story};
use crate::told::assert_row;
use crate::{call_stories, foreign, looks, losing, openings};
use raft_disk::{DiskCounts, DiskFileSystem, FolderView, OpenFault};
use raft_env::FileSystem;
use raft_inspect::FolderLosses;
use raft_rows::temp_folder;
use std::fs;

// Whether an opening or a look failed with this text.
fn has_failed<T: Drop>(rt: HostRuntime, opened: Result<T, OpenFault>, wanted: &str) -> bool {
    let Err(fault) = opened else {
        return false;
    };
    match format!(in rt.alloc(); "{fault}") {
        Ok(said) => said.as_str() == wanted,
        Err(_) => false,
    }
}

fn fails<F: Disk + Drop>(rt: HostRuntime, folder: &str, reading: Reading, no: &Failure) -> bool {
    let place = format!(in rt.alloc(); "{folder}{}", no.opened);
    let wanted = format!(in rt.alloc(); "{folder}{}: {}", no.named, no.text);
    let (Ok(place), Ok(wanted)) = (place, wanted) else {
        return false;
    };
    match reading {
        Reading::Look => has_failed(rt, FolderView::open(rt, place.as_str()), wanted.as_str()),
        _ => {
            let opened: Result<F, OpenFault> = F::open_folder(rt, place.as_str(), reading);
            has_failed(rt, opened, wanted.as_str())
        }
    }
}

fn are_names(names: &[String]) -> bool {
    match names {
        [first, second] => first.as_str() == "log" && second.as_str() == "other",
        _ => false,
    }
}

fn is_seen(view: &FolderView, in_use: bool) -> bool {
    match (view.names(""), view.read("log")) {
        (Ok(names), Ok(bytes)) => {
            are_names(&names) && bytes.as_slice() == looks::LOG && view.is_in_use() == in_use
        }
        _ => false,
    }
}

fn sees(rt: HostRuntime, folder: &str, in_use: bool) -> bool {
    match FolderView::open(rt, folder) {
        Ok(view) => is_seen(&view, in_use),
        Err(_) => false,
    }
}

fn is_refusal(
    rt: HostRuntime,
    folder: &str,
    said: Option<&str>,
    wanted: Option<(&'static str, &'static str)>,
) -> bool {
    match (said, wanted) {
        (Some(said), Some((path, text))) => {
            match format!(in rt.alloc(); "{folder}/{path}: {text}") {
                Ok(wanted) => said == wanted.as_str(),
                Err(_) => false,
            }
        }
        (None, None) => true,
        _ => false,
    }
}

// Whether the losses of an opening have these missing files by the note, and no files that it passes
// over: the log's files hold nothing.
fn are_missing(losses: &FolderLosses, missing: &[(u64, u64)]) -> bool {
    match &losses.noted {
        Some(noted) => {
            noted.append.missing.as_slice() == missing
                && noted.rewrite.missing.is_empty()
                && losses.losses.passed.is_empty()
        }
        None => false,
    }
}

fn are_counted(counts: &DiskCounts, calls: (u64, u64, u64), names: (u64, u64, u64, u64)) -> bool {
    let mut timed = 0u64;
    for syncs in &counts.sync_times {
        timed = timed.saturating_add(*syncs);
    }
    (counts.writes, counts.bytes, counts.syncs) == calls
        && (counts.next_files, counts.recycled_files) == (names.0, names.1)
        && (counts.deleted_files, counts.files) == (names.2, names.3)
        && timed == calls.2
}

fn is_answered<F: Disk + FileSystem>(
    rt: HostRuntime,
    folder: &str,
    files: &mut F,
    asked: &Asked,
) -> bool {
    match asked {
        Asked::IsFile(path, wanted) => files.is_file(path) == *wanted,
        Asked::Refusal(wanted) => is_refusal(rt, folder, files.last_refusal(), *wanted),
        Asked::DeleteUnread => files.delete_unread().is_ok(),
        Asked::Missing(wanted) => match files.losses(rt.alloc()) {
            Ok(losses) => are_missing(&losses, wanted),
            Err(_) => false,
        },
        Asked::Counts(calls, names) => are_counted(&files.call_counts(), *calls, *names),
    }
}

// Whether a step that needs an opening ends as it says.
fn goes_on<F: Disk + FileSystem>(
    rt: HostRuntime,
    folder: &str,
    files: &mut F,
    writer: &mut Option<F::Writer>,
    step: &Step,
) -> bool {
    match step {
        Step::Calls(call, fault, path, bytes) => {
            is_made(files, writer, call, *fault) && does(&rt, folder, path, &Deed::Has(*bytes))
        }
        Step::Asks(asked) => is_answered(rt, folder, files, asked),
        _ => false,
    }
}

// Whether the step ends as it says.
fn holds<F: Disk + FileSystem + Drop>(
    rt: HostRuntime,
    folder: &str,
    opened: &mut Option<F>,
    writer: &mut Option<F::Writer>,
    step: &Step,
) -> bool {
    match step {
        Step::Does(path, deed) => does(&rt, folder, path, deed),
        Step::Opens(reading) => {
            *opened = None;
            *writer = None;
            *opened = F::open_folder(rt, folder, *reading).ok();
            opened.is_some()
        }
        Step::Closes => {
            *opened = None;
            true
        }
        Step::Fails(reading, failure) => fails::<F>(rt, folder, *reading, failure),
        Step::Denied(failure) => {
            does(&rt, folder, "tried", &Deed::File(b""))
                || fails::<F>(rt, folder, Reading::All, failure)
        }
        Step::Accepts => F::forget(rt, folder).is_ok(),
        Step::Sees(in_use) => sees(rt, folder, *in_use),
        Step::SeesNoName(text) => has_failed(rt, FolderView::open(rt, ""), text),
        Step::Calls(_, _, _, _) | Step::Asks(_) => match opened {
            Some(files) => goes_on(rt, folder, files, writer, step),
            None => false,
        },
    }
}

fn all_hold<F: Disk + FileSystem + Drop>(
    rt: HostRuntime,
    folder: &str,
    opened: &mut Option<F>,
    steps: &[Step],
) -> bool {
    let mut writer = None;
    for step in steps {
        if !holds(rt, folder, opened, &mut writer, step) {
            return false;
        }
    }
    true
}

fn is_played<F: Disk + FileSystem + Drop>(rt: HostRuntime, folder: &str, story: &Story) -> bool {
    let mut opened: Option<F> = None;
    for steps in story.parts {
        if !all_hold(rt, folder, &mut opened, steps) {
            return false;
        }
    }
    true
}

// A function that names files on the disk takes long to prove, so it is the only one, except those
// that call the disk themselves.
fn is_played_on_disk(rt: HostRuntime, folder: &str, story: &Story) -> bool {
    is_played::<DiskFileSystem>(rt, folder, story)
}

// Whether each step holds in a new folder, which is removed afterwards.
fn is_played_in_folder(rt: HostRuntime, story: &Story) -> bool {
    let Ok(folder) = temp_folder(&rt, "story") else {
        return false;
    };
    let held = is_played_on_disk(rt, folder.as_str(), story);
    fs::remove_dir_all(&rt, folder.as_str()).is_ok() && held
}

// A function is checked with the whole of each table that it names, and the time grows with the
// square of its length.
fn tables() -> [&'static [Story]; 11] {
    [
        &call_stories::NAMES_AND_COUNTS,
        &call_stories::REFUSED_NAMES,
        &call_stories::REFUSED_BYTES,
        &call_stories::REPORTED,
        &foreign::STORIES,
        &looks::STORIES,
        &losing::LOST,
        &losing::FOUND_AGAIN,
        &losing::KNOWN,
        &losing::STALE,
        &openings::STORIES,
    ]
}

#[test]
fn folders_are_as_the_stories_say(rt: HostRuntime) {
    for stories in &tables() {
        for story in *stories {
            assert_row(&rt, is_played_in_folder(rt, story), story.name);
        }
    }
}
