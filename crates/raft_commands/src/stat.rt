//! A folder's contents in numbers.

use crate::guard::both_queues;
use crate::keys::count;
use crate::opening::open_image;
use crate::stored::Total;
use anyhow::Result;
use raft_command_line::Options;
use raft_console::{Output, Status, or_failure};
use raft_contents::Engine;
use raft_env::FileSystem;
use raft_inspect::{Field, FileUsage, Lines, LogUsage, Outlook, QueueFiles, Word, measure};
use raft_looks::BothQueues;
use raft_records::Fault;
use std::alloc::Global;
use std::thread::Threads;

/// The log files, what an opening would lose of them, and how much of them is live.
struct Sizes {
    log: Total,
    passed: u64,
    outlook: Outlook,
    usage: LogUsage,
}

// One call in a proof that drops it; derived, it would be one of each field (docs/DECISIONS.md).
impl Drop for Sizes {
    fn drop(self) {
        let Sizes {
            log: _,
            passed: _,
            outlook: _outlook,
            usage: _usage,
        } = self;
    }
}

/// What a group holds.
#[derive(Clone, Copy)]
struct Held {
    group: u64,
    keys: u64,
    /// The bytes of the log files that still count.
    live: u64,
    /// The first and the last index of its entries.
    span: Option<(u64, u64)>,
}

/// Prints how much the log holds, what an opening would lose, the files kept for reuse, and a line
/// for each group and each file. As JSON all of it is one object.
pub(crate) fn stat<R: Threads + Sync, F: FileSystem + Drop>(
    threads: &R,
    alloc: Global,
    mut files: F,
    reserved: Total,
    options: &Options<'_>,
    out: &mut Output,
) -> Result<Status> {
    let sizes = sizes_of(alloc, &mut files, options);
    let sizes = or_failure(sizes, "the log cannot be measured")?;
    let held = held_in(threads, alloc, files, &sizes.usage, options)?;
    let added = add_all(alloc, &held, &sizes, reserved, options, &mut out.lines);
    or_failure(added, "the log cannot be counted")?;
    Ok(Status::Done)
}

fn held_in<R: Threads + Sync, F: FileSystem + Drop>(
    threads: &R,
    alloc: Global,
    files: F,
    usage: &LogUsage,
    options: &Options<'_>,
) -> Result<Vec<Held>> {
    let engine = open_image(threads, alloc, files, options)?;
    let held = held_of(alloc, &engine, usage);
    engine.give_up();
    or_failure(held, "the log cannot be read")
}

fn sizes_of<F: FileSystem>(
    alloc: Global,
    files: &mut F,
    options: &Options<'_>,
) -> Result<Sizes, Fault> {
    let queues = queues_of(alloc, files, options)?;
    let usage = measure(alloc, files, &queues.rewrite, &queues.append)?;
    let mut sizes = Sizes {
        log: Total::new(),
        passed: 0,
        outlook: Outlook::new(),
        usage,
    };
    sizes.add_queue(alloc, &queues.append, options)?;
    sizes.add_queue(alloc, &queues.rewrite, options)?;
    Ok(sizes)
}

fn queues_of<F: FileSystem>(
    alloc: Global,
    files: &mut F,
    options: &Options<'_>,
) -> Result<BothQueues, Fault> {
    let folders = options.folders(alloc)?;
    both_queues(alloc, files, &folders)
}

impl Sizes {
    fn add_queue(
        &mut self,
        alloc: Global,
        found: &QueueFiles,
        options: &Options<'_>,
    ) -> Result<(), Fault> {
        self.outlook.add_queue(alloc, found, options.mode)?;
        self.passed = self.passed.saturating_add(found.passed as u64);
        for check in &found.checks {
            self.log.add(check.len as u64);
        }
        Ok(())
    }
}

fn held_of<F: FileSystem>(
    alloc: Global,
    engine: &Engine<F>,
    usage: &LogUsage,
) -> Result<Vec<Held>, Fault> {
    let mut held = Vec::new(alloc);
    for group in engine.raft_groups()? {
        held.push(held_of_group(engine, group, usage)?)?;
    }
    Ok(held)
}

fn held_of_group<F: FileSystem>(
    engine: &Engine<F>,
    group: u64,
    usage: &LogUsage,
) -> Result<Held, Fault> {
    let span = match (engine.first_index(group), engine.last_index(group)) {
        (Some(first), Some(last)) => Some((first, last)),
        _ => None,
    };
    Ok(Held {
        group,
        keys: count(engine, group)?,
        live: live_of(group, usage),
        span,
    })
}

fn live_of(group: u64, usage: &LogUsage) -> u64 {
    match usage.groups.binary_search_by_key(&group, |used| used.group) {
        Ok(place) => match usage.groups.get(place) {
            Some(used) => used.bytes,
            None => 0,
        },
        Err(_) => 0,
    }
}

fn add_all(
    alloc: Global,
    held: &[Held],
    sizes: &Sizes,
    reserved: Total,
    options: &Options<'_>,
    lines: &mut Lines,
) -> Result<(), Fault> {
    let totals = totals_of(held, sizes, reserved);
    if options.json {
        let groups = groups_in_json(alloc, held, options.hex)?;
        let files = files_in_json(alloc, &sizes.usage, options.hex)?;
        lines.document(&totals, &[("by-group", &groups), ("by-file", &files)])?;
        return Ok(());
    }
    for total in &totals {
        lines.named(&[*total])?;
    }
    add_groups(held, lines)?;
    add_files(&sizes.usage, lines)
}

fn groups_in_json(alloc: Global, held: &[Held], hex: bool) -> Result<Lines, Fault> {
    let mut groups = Lines::new(alloc, true, hex);
    add_groups(held, &mut groups)?;
    Ok(groups)
}

fn files_in_json(alloc: Global, usage: &LogUsage, hex: bool) -> Result<Lines, Fault> {
    let mut files = Lines::new(alloc, true, hex);
    add_files(usage, &mut files)?;
    Ok(files)
}

fn totals_of(held: &[Held], sizes: &Sizes, reserved: Total) -> [Field<'static>; 13] {
    let mut keys = 0u64;
    let mut entries = 0u64;
    let mut live = 0u64;
    for group in held {
        keys = keys.saturating_add(group.keys);
        live = live.saturating_add(group.live);
        if let Some((first, last)) = group.span {
            entries = entries.saturating_add(last.saturating_sub(first).saturating_add(1));
        }
    }
    [
        ("files", Word::Number(sizes.log.files)),
        ("bytes", Word::Number(sizes.log.bytes)),
        ("live", Word::Number(live)),
        ("passed", Word::Number(sizes.passed)),
        ("passed-bytes", Word::Number(sizes.outlook.passed_bytes)),
        ("groups", Word::Number(held.len() as u64)),
        ("keys", Word::Number(keys)),
        ("entries", Word::Number(entries)),
        ("cut", Word::Number(sizes.outlook.bytes)),
        ("zeros", Word::Number(sizes.outlook.zeros)),
        ("stale", Word::Number(sizes.outlook.stale)),
        ("reserved", Word::Number(reserved.files)),
        ("reserved-bytes", Word::Number(reserved.bytes)),
    ]
}

fn add_groups(held: &[Held], lines: &mut Lines) -> Result<(), Fault> {
    for each in held {
        let group = ("group", Word::Number(each.group));
        let keys = ("keys", Word::Number(each.keys));
        let live = ("live", Word::Number(each.live));
        match each.span {
            None => lines.named(&[group, keys, live])?,
            Some((first, last)) => lines.named(&[
                group,
                keys,
                live,
                ("first", Word::Number(first)),
                ("last", Word::Number(last)),
            ])?,
        }
    }
    Ok(())
}

fn add_files(usage: &LogUsage, lines: &mut Lines) -> Result<(), Fault> {
    for queue in [&usage.rewrite, &usage.append] {
        for file in &queue.files {
            add_file(file, lines)?;
        }
    }
    Ok(())
}

// What isn't live is garbage: headers, records' own bytes, and what counts no more.
fn add_file(file: &FileUsage, lines: &mut Lines) -> Result<(), Fault> {
    let live = file.referred();
    lines.named(&[
        ("file", Word::Bytes(file.path.as_bytes())),
        ("size", Word::Number(file.len)),
        ("live", Word::Number(live)),
        ("garbage", Word::Number(file.len.saturating_sub(live))),
    ])?;
    Ok(())
}
