//! Keys and values, or entries, of a file of lines.

use anyhow::{Result, anyhow};
use raft_command_line::{Options, Request};
use raft_console::{
    GroupValue, LineForm, Pair, Progress, Spelling, check_batch, file_or_input, or_failure,
    read_entry_lines, read_lines, read_values,
};
use raft_contents::{Engine, LogBatch};
use raft_env::FileSystem;
use raft_records::Fault;
use std::alloc::Global;

/// A batch takes so many bytes of keys and values, or one pair that has more.
const BATCH_BYTES: usize = 1024 * 1024;

/// Values of consecutive entries of one group, from an index on or after the group's last entry.
pub(crate) struct Run {
    pub group: u64,
    pub first: Option<u64>,
    pub values: Vec<Vec<u8>>,
}

// One call in a proof that drops it; derived, it would be one of each field (docs/DECISIONS.md).
impl Drop for Run {
    fn drop(self) {
        let Run {
            group: _,
            first: _,
            values: _values,
        } = self;
    }
}

/// Puts all keys and values of the lines, or none if one of them may not be put.
pub(crate) fn put_lines<F: FileSystem>(
    rt: &HostRuntime,
    engine: &mut Engine<F>,
    group: Option<u64>,
    path: &str,
    request: &Request<'_>,
) -> Result<()> {
    let pairs = pairs_in(rt, path, group, request)?;
    check_pairs(rt, &pairs, &request.options)?;
    let batches = or_failure(batches_of(rt.alloc(), pairs), "the lines cannot be put")?;
    write_all(rt, engine, batches, request)?;
    if request.sync {
        return or_failure(engine.sync(), "the lines cannot be synced");
    }
    Ok(())
}

fn pairs_in(
    rt: &HostRuntime,
    path: &str,
    group: Option<u64>,
    request: &Request<'_>,
) -> Result<Vec<Pair>> {
    let text = file_or_input(rt, path)?;
    read_lines(rt.alloc(), &text, form_of(group, request))
}

// Fails if a batch of them makes a file too long.
fn check_pairs(rt: &HostRuntime, pairs: &[Pair], options: &Options<'_>) -> Result<()> {
    let mut longest = 0;
    for (_, key, value) in pairs {
        longest = key.len().saturating_add(value.len()).max(longest);
    }
    check_batch(rt, options, pairs.len(), longest)
}

/// Fails if a batch of the values of runs makes a file too long.
pub(crate) fn check_runs(rt: &HostRuntime, runs: &[Run], options: &Options<'_>) -> Result<()> {
    for run in runs {
        let mut longest = 0;
        for value in &run.values {
            longest = value.len().max(longest);
        }
        check_batch(rt, options, run.values.len(), longest)?;
    }
    Ok(())
}

fn form_of(group: Option<u64>, request: &Request<'_>) -> LineForm {
    LineForm {
        spelling: Spelling::of(&request.options),
        group,
    }
}

/// These runs, with the values of a file of lines after each group's last one.
pub(crate) fn with_value_file(
    rt: &HostRuntime,
    path: &str,
    group: Option<u64>,
    request: &Request<'_>,
    runs: Vec<Run>,
) -> Result<Vec<Run>> {
    let values = values_in(rt, path, group, request)?;
    let mut runs = runs;
    for (group, value) in values {
        add_value(rt.alloc(), &mut runs, group, value)?;
    }
    Ok(runs)
}

fn values_in(
    rt: &HostRuntime,
    path: &str,
    group: Option<u64>,
    request: &Request<'_>,
) -> Result<Vec<GroupValue>> {
    let text = file_or_input(rt, path)?;
    match read_values(rt.alloc(), &text, form_of(group, request)) {
        Ok(values) => Ok(values),
        Err(error) => Err(error.context(path)),
    }
}

fn add_value(alloc: Global, runs: &mut Vec<Run>, group: u64, value: Vec<u8>) -> Result<()> {
    let run = run_of(alloc, runs, group, None)?;
    Ok(run.values.push(value)?)
}

/// The entries of a file of lines, whose indexes rise by one in each group.
pub(crate) fn read_entry_file(
    rt: &HostRuntime,
    path: &str,
    group: Option<u64>,
    request: &Request<'_>,
) -> Result<Vec<Run>> {
    let text = file_or_input(rt, path)?;
    match entries_in(rt.alloc(), &text, form_of(group, request)) {
        Ok(runs) => Ok(runs),
        Err(error) => Err(error.context(path)),
    }
}

fn entries_in(alloc: Global, text: &[u8], form: LineForm) -> Result<Vec<Run>> {
    let mut runs = Vec::new(alloc);
    for (group, index, value) in read_entry_lines(alloc, text, form)? {
        let run = run_of(alloc, &mut runs, group, Some(index))?;
        let next = run
            .first
            .unwrap_or(index)
            .saturating_add(run.values.len() as u64);
        if next != index {
            return Err(anyhow!("index {index} doesn't follow the one before it"));
        }
        run.values.push(value)?;
    }
    Ok(runs)
}

// The run of a group, which is made if there is none. The last one is looked at first.
fn run_of(alloc: Global, runs: &mut Vec<Run>, group: u64, first: Option<u64>) -> Result<&mut Run> {
    let place = match runs.iter().rposition(|run| run.group == group) {
        Some(place) => place,
        None => {
            runs.push(Run {
                group,
                first,
                values: Vec::new(alloc),
            })?;
            runs.len().saturating_sub(1)
        }
    };
    match runs.get_mut(place) {
        Some(run) => Ok(run),
        None => Err(anyhow!("no run")),
    }
}

fn write_all<F: FileSystem>(
    rt: &HostRuntime,
    engine: &mut Engine<F>,
    mut batches: Vec<LogBatch>,
    request: &Request<'_>,
) -> Result<()> {
    let mut progress = Progress::of(*rt, &request.options)?;
    let count = batches.len() as u64;
    let mut written = 0u64;
    for batch in &mut batches {
        progress.at("batches written", written, count)?;
        or_failure(engine.write(batch, false), "the lines cannot be put")?;
        written = written.saturating_add(1);
    }
    Ok(())
}

fn batches_of(alloc: Global, pairs: Vec<Pair>) -> Result<Vec<LogBatch>, Fault> {
    let mut batches = Vec::new(alloc);
    let mut batch = LogBatch::new(alloc);
    let mut room = BATCH_BYTES;
    for (group, key, value) in pairs {
        let len = key.len().saturating_add(value.len());
        if len > room && !batch.is_empty() {
            batches.push(batch)?;
            batch = LogBatch::new(alloc);
            room = BATCH_BYTES;
        }
        batch.put(group, key, value)?;
        room = room.saturating_sub(len);
    }
    batches.push(batch)?;
    Ok(batches)
}
