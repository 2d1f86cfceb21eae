//! Commands that change a log.

use crate::changed::ChangedFiles;
use crate::changes::{Change, write};
use crate::entries::{append, compact, note_emptied};
use crate::guard::guard;
use crate::lines::{Run, check_runs, put_lines, read_entry_file, with_value_file};
use crate::numbered::load;
use crate::opening::{close, open};
use crate::purging::purge;
use crate::repair::repair;
use crate::spares::make_ahead;
use crate::taken::{Taken, give_back, note_taken};
use crate::waiting::open_folder;
use anyhow::{Result, anyhow};
use raft_command_line::{Request, Verb};
use raft_console::{Output, Progress, Status, bytes_of, check_batch, or_failure};
use raft_contents::{Engine, Material, truncate};
use raft_disk::DiskFileSystem;
use raft_env::FileSystem;
use raft_looks::{Folder, told};
use std::thread::Threads;

/// Changes the log in the folder of the request. It makes the folder if it is missing, and holds
/// its lock meanwhile. It does nothing if the opening would lose more than an unsynced tail and no
/// word allows that. What the opening cuts off is printed, and kept in files beside. The opening
/// reads the files by threads of the handle. A dry run does everything in memory.
pub fn change<R: Threads + Sync>(
    rt: HostRuntime,
    threads: &R,
    request: &Request<'_>,
) -> Result<Status> {
    change_by(rt, threads, request, &mut Material::Request)
}

/// The same for a command that writes data from elsewhere.
pub fn change_by<R: Threads + Sync>(
    rt: HostRuntime,
    threads: &R,
    request: &Request<'_>,
    material: &mut Material<'_>,
) -> Result<Status> {
    if request.options.changing.dry_run {
        return change_image(rt, threads, request, material);
    }
    let changed = match open_folder(rt, request) {
        Ok(files) => change_files(&rt, threads, files, request, material),
        Err(error) => Err(error),
    };
    match &changed {
        Ok(status) => forget_spans(rt, request, *status)?,
        // A note that can't be printed hides no error.
        Err(_) => {
            let _ = tell_refused(rt, request);
        }
    }
    changed
}

// What `repair --cut` has accepted as lost is no longer missed: the note then has the files
// that exist.
fn forget_spans(rt: HostRuntime, request: &Request<'_>, status: Status) -> Result<()> {
    let is_repair = matches!(&request.verb, Verb::Repair);
    if !is_repair || !request.options.changing.cut || status != Status::Done {
        return Ok(());
    }
    match DiskFileSystem::forget_spans(rt, request.folder) {
        Ok(()) => Ok(()),
        Err(fault) => Err(told(&rt, &fault)),
    }
}

// The system's refusals for the log's own files after a failed change.
fn tell_refused(rt: HostRuntime, request: &Request<'_>) -> Result<()> {
    let folder = Folder::open(rt, request.folder, &request.options)?;
    Ok(
        folder
            .refused(&request.options)?
            .tell(&rt, &request.options)?,
    )
}

fn change_image<R: Threads + Sync>(
    rt: HostRuntime,
    threads: &R,
    request: &Request<'_>,
    material: &mut Material<'_>,
) -> Result<Status> {
    let folder = Folder::open(rt, request.folder, &request.options)?;
    let mut progress = Progress::of(rt, &request.options)?;
    match folder.image(&mut progress)? {
        Some(image) => change_files(&rt, threads, image, request, material),
        None => Err(anyhow!(
            "{}: files were dropped while they were read",
            request.folder
        )),
    }
}

fn change_files<R: Threads + Sync, F: FileSystem + ChangedFiles + Drop>(
    rt: &HostRuntime,
    threads: &R,
    mut files: F,
    request: &Request<'_>,
    material: &mut Material<'_>,
) -> Result<Status> {
    let mut out = Output::new(*rt, &request.options);
    if let Verb::Repair = &request.verb {
        return repair(rt, threads, files, request, &mut out);
    }
    let Some(taken) = guard(rt, &mut files, request)? else {
        return Ok(Status::Refused);
    };
    let changed = change_guarded(rt, threads, files, request, material, &mut out);
    end(rt, request, &taken, changed, &mut out)
}

// Prints what was taken out of the files after the change, or gives it back if the change failed.
fn end(
    rt: &HostRuntime,
    request: &Request<'_>,
    taken: &[Taken],
    changed: Result<Status>,
    out: &mut Output,
) -> Result<Status> {
    match changed {
        Ok(status) => {
            // The plan was printed before, so a note that can't be printed hides nothing.
            let _ = note_taken(rt, request, taken);
            out.print()?;
            Ok(status)
        }
        Err(error) => {
            give_back(rt, request, taken)?;
            Err(error)
        }
    }
}

fn change_guarded<R: Threads + Sync, F: FileSystem + ChangedFiles + Drop>(
    rt: &HostRuntime,
    threads: &R,
    mut files: F,
    request: &Request<'_>,
    material: &mut Material<'_>,
    out: &mut Output,
) -> Result<Status> {
    make_ahead(rt, &mut files, &request.options)?;
    match &request.verb {
        Verb::Purge(which) => purge(rt, threads, files, *which, &request.options, out),
        _ => change_log(rt, threads, files, request, material, out),
    }
}

fn change_log<R: Threads + Sync, F: FileSystem + ChangedFiles + Drop>(
    rt: &HostRuntime,
    threads: &R,
    files: F,
    request: &Request<'_>,
    material: &mut Material<'_>,
    out: &mut Output,
) -> Result<Status> {
    let mut engine = open(rt, threads, files, &request.options)?;
    let done = work_on(rt, &mut engine, request, material, out);
    end_log(rt, engine, request, done)
}

fn end_log<F: FileSystem + ChangedFiles + Drop>(
    rt: &HostRuntime,
    engine: Engine<F>,
    request: &Request<'_>,
    done: Result<Status>,
) -> Result<Status> {
    if done.is_err() {
        engine.give_up().tell_refusal(rt, request.options.json)?;
    } else if request.sync {
        close(rt, engine, request.options.json)?;
    } else {
        engine.give_up();
    }
    done
}

// Writes the material, or does what the request says.
fn work_on<F: FileSystem>(
    rt: &HostRuntime,
    engine: &mut Engine<F>,
    request: &Request<'_>,
    material: &mut Material<'_>,
    out: &mut Output,
) -> Result<Status> {
    match material {
        Material::Lines(lines) => lines.write(rt, engine, request, out),
        Material::Tables(tables) => tables.write(rt, engine, request, out),
        Material::Request => {
            carry_out(rt, engine, request, out)?;
            Ok(Status::Done)
        }
    }
}

fn carry_out<F: FileSystem>(
    rt: &HostRuntime,
    engine: &mut Engine<F>,
    request: &Request<'_>,
    out: &mut Output,
) -> Result<()> {
    match &request.verb {
        Verb::Put(_, _, _)
        | Verb::Lines(_, _)
        | Verb::Delete(_, _)
        | Verb::Clean(_)
        | Verb::Load(_) => change_keys(rt, engine, request),
        Verb::EntryLines(_, _) | Verb::Append(_, _, _, _) => append_all(rt, engine, request, out),
        Verb::Compact(group, index) => {
            compact(engine, *group, *index, request.sync, out)?;
            note_emptied(rt, engine, *group, *index, &request.options)
        }
        Verb::Truncate(group, index) => truncate(rt, engine, *group, *index, request, out),
        // Done elsewhere.
        Verb::Repair
        | Verb::Purge(_)
        | Verb::Settings
        | Verb::Fork(_)
        | Verb::Look(_)
        | Verb::Import(_)
        | Verb::Salvage(_)
        | Verb::Watch(_) => Ok(()),
    }
}

fn change_keys<F: FileSystem>(
    rt: &HostRuntime,
    engine: &mut Engine<F>,
    request: &Request<'_>,
) -> Result<()> {
    match &request.verb {
        Verb::Put(group, key, value) => put(rt, engine, *group, (*key, *value), request),
        Verb::Lines(group, path) => put_lines(rt, engine, *group, path, request),
        Verb::Delete(group, key) => delete(rt, engine, *group, key, request),
        Verb::Clean(group) => clean(rt, engine, *group, request.sync),
        Verb::Load(numbers) => load(rt, engine, *numbers, &request.options),
        _ => Ok(()),
    }
}

// Appends the entries of the words and of files.
fn append_all<F: FileSystem>(
    rt: &HostRuntime,
    engine: &mut Engine<F>,
    request: &Request<'_>,
    out: &mut Output,
) -> Result<()> {
    let runs = all_runs(rt, request)?;
    check_runs(rt, &runs, &request.options)?;
    let tells_group = match &request.verb {
        Verb::EntryLines(group, _) => group.is_none(),
        Verb::Append(group, _, _, _) => group.is_none(),
        _ => false,
    };
    append(rt.alloc(), engine, &runs, tells_group, request.sync, out)
}

fn all_runs(rt: &HostRuntime, request: &Request<'_>) -> Result<Vec<Run>> {
    match &request.verb {
        Verb::EntryLines(group, path) => read_entry_file(rt, path, *group, request),
        Verb::Append(group, words, lines, at) => {
            let runs = runs_of(rt, *group, words, *at, request)?;
            match *lines {
                Some(path) => with_value_file(rt, path, *group, request, runs),
                None => Ok(runs),
            }
        }
        _ => Ok(Vec::new(rt.alloc())),
    }
}

fn put<F: FileSystem>(
    rt: &HostRuntime,
    engine: &mut Engine<F>,
    group: u64,
    pair: (&str, &str),
    request: &Request<'_>,
) -> Result<()> {
    let key = bytes_of(rt, pair.0, request.options.hex)?;
    let value = bytes_of(rt, pair.1, request.options.hex)?;
    let longest = key.len().saturating_add(value.len());
    check_batch(rt, &request.options, 1, longest)?;
    let change = Change::Put(&key, &value);
    let written = write(rt.alloc(), engine, group, change, request.sync);
    or_failure(written, "the key cannot be put")
}

fn delete<F: FileSystem>(
    rt: &HostRuntime,
    engine: &mut Engine<F>,
    group: u64,
    key: &str,
    request: &Request<'_>,
) -> Result<()> {
    let key = bytes_of(rt, key, request.options.hex)?;
    check_batch(rt, &request.options, 1, key.len())?;
    let change = Change::Delete(&key);
    let written = write(rt.alloc(), engine, group, change, request.sync);
    or_failure(written, "the key cannot be deleted")
}

// The values of the words, which are of a group that is named.
fn runs_of(
    rt: &HostRuntime,
    group: Option<u64>,
    words: &[&str],
    first: Option<u64>,
    request: &Request<'_>,
) -> Result<Vec<Run>> {
    match group {
        Some(group) if !words.is_empty() || first.is_some() => {
            let run = Run {
                group,
                first,
                values: values_of(rt, words, request.options.hex)?,
            };
            Ok(vec![in rt.alloc(); run]?)
        }
        _ => Ok(Vec::new(rt.alloc())),
    }
}

fn values_of(rt: &HostRuntime, words: &[&str], hex: bool) -> Result<Vec<Vec<u8>>> {
    let mut values = Vec::new(rt.alloc());
    for word in words {
        values.push(bytes_of(rt, word, hex)?)?;
    }
    Ok(values)
}

fn clean<F: FileSystem>(
    rt: &HostRuntime,
    engine: &mut Engine<F>,
    group: u64,
    sync: bool,
) -> Result<()> {
    let written = write(rt.alloc(), engine, group, Change::Clean, sync);
    or_failure(written, "the group cannot be cleaned")
}
