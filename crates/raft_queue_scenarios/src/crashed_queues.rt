//! Both queues of a folder, written in turn and crashed: what an opening in stages then reads of
//! each, and when it can't be finished.
ghost use Rattle.std.specs.Prelude.{IfOk, OnOk};
ghost use Rattle.raft_queues.specs.Dual.{StandSideBySide};

use crate::crashed_rows::{Case, Left, ONE_EACH, Opening, Step};
use crate::failing::Failing;
use crate::folders::begun;
use crate::keys::Keys;
use crate::two_queues::{code_of, read_keys, staged};
use raft_builder::DualPipesBuilder;
use raft_env::{FileSystem, IoKind};
use raft_memory::Choice;
use raft_pipes::{AppendFault, RotationFault};
use raft_queues::DualPipes;
use raft_records::{Fault, Fresh, LogBatch, LogQueue};
use std::alloc::Global;

/// The number of bytes at which a file is full.
const TARGET: usize = 1024;

/// The most files of a case.
const FILES: usize = 5;

/// The keys that an opening reads from both queues.
pub(crate) fn recover<F: FileSystem>(
    alloc: Global,
    builder: &mut DualPipesBuilder<F>,
) -> Result<(Keys, Keys), Fault> {
    builder.scan()?;
    read_keys(alloc, builder)
}

/// Opens both queues. The batches of each go to its machine.
pub(crate) fn opened<F: FileSystem + Drop>(
    alloc: Global,
    fs: F,
    keys: &mut (Keys, Keys),
) -> Result<(DualPipes<F>, F), Fault>
    ensures stands { IfOk result (λ done. StandSideBySide done.0 (F.directory done.1)) }
{
    let mut builder = begun(alloc, None, fs)?;
    *keys = recover(alloc, &mut builder)?;
    match builder.finish() {
        Ok((pipes, fs)) => Ok((pipes, fs)),
        Err((fault, _fs)) => Err(fault),
    }
}

fn put<F: FileSystem>(
    alloc: Global,
    fs: &mut F,
    pipes: &mut DualPipes<F>,
    queue: LogQueue,
    key: u8,
    sync: bool,
) -> Result<(), Fault>
    requires { StandSideBySide pipes.old (F.directory fs.old) }
    ensures stands { OnOk result (StandSideBySide pipes.new (F.directory fs.new)) }
{
    let mut batch = LogBatch::new(alloc);
    batch.put(1, vec![in alloc; key]?, Vec::new(alloc))?;
    batch.finish_populate()?;
    batch.prepare_write(&pipes.context(queue));
    match pipes.append(queue, fs, batch.encoded_bytes(), TARGET, sync) {
        Ok(_handle) => Ok(()),
        Err(AppendFault::RolledBack(fault)) | Err(AppendFault::InDoubt(fault)) => Err(fault),
    }
}

fn purge<F: FileSystem>(
    fs: &mut F,
    pipes: &mut DualPipes<F>,
    queue: LogQueue,
    seq: u64,
) -> Result<(), Fault>
    requires { StandSideBySide pipes.old (F.directory fs.old) }
    ensures stands { OnOk result (StandSideBySide pipes.new (F.directory fs.new)) }
{
    match pipes.purge_to(queue, fs, seq) {
        Ok(_count) => Ok(()),
        Err(fault) => Err(fault),
    }
}

fn take<F: FileSystem>(
    alloc: Global,
    fs: &mut F,
    pipes: &mut DualPipes<F>,
    step: &Step,
) -> Result<(), Fault>
    requires { StandSideBySide pipes.old (F.directory fs.old) }
    ensures stands { OnOk result (StandSideBySide pipes.new (F.directory fs.new)) }
{
    match step {
        Step::Put(queue, key, sync) => put(alloc, fs, pipes, *queue, *key, *sync),
        Step::Sync(queue) => pipes.sync(*queue, fs),
        Step::Purge(queue, seq) => purge(fs, pipes, *queue, *seq),
        Step::Rotate(queue) => match pipes.rotate_if_full(*queue, fs, 0) {
            Ok(()) => Ok(()),
            Err(RotationFault::NotBegun(fault)) | Err(RotationFault::Stopped(fault)) => Err(fault),
        },
    }
}

fn take_each<F: FileSystem>(
    alloc: Global,
    fs: &mut F,
    pipes: &mut DualPipes<F>,
    steps: &[Step],
) -> Result<(), Fault>
    requires { StandSideBySide pipes.old (F.directory fs.old) }
{
    for step in steps {
        take(alloc, fs, pipes, step)?;
    }
    Ok(())
}

pub(crate) fn no_keys(alloc: Global) -> (Keys, Keys) {
    (Keys::fresh(alloc), Keys::fresh(alloc))
}

// The files after the steps. No pipe was closed.
fn written<F: FileSystem + Drop>(alloc: Global, fs: F, steps: &[Step]) -> Result<F, Fault> {
    let mut keys = no_keys(alloc);
    let (mut pipes, mut fs) = opened(alloc, fs, &mut keys)?;
    let taken = take_each(alloc, &mut fs, &mut pipes, steps);
    drop(pipes);
    match taken {
        Ok(()) => Ok(fs),
        Err(fault) => Err(fault),
    }
}

// The files after an opening; `None` unless it reads these keys.
fn reads<F: FileSystem + Drop>(
    alloc: Global,
    fs: F,
    in_append: &[(u64, u8)],
    in_rewrite: &[(u64, u8)],
) -> Option<F> {
    let mut keys = no_keys(alloc);
    match opened(alloc, fs, &mut keys) {
        Ok((pipes, fs)) => {
            drop(pipes);
            let (append, rewrite) = &keys;
            let are_same = append.found.as_slice() == in_append
                && rewrite.found.as_slice() == in_rewrite;
            if are_same { Some(fs) } else { None }
        }
        Err(_) => None,
    }
}

fn choices(alloc: Global, left: &Left) -> Result<Vec<Choice>, Fault> {
    let mut choices = Vec::new(alloc);
    for _ in 0..FILES {
        choices.push(match left {
            Left::Now => Choice::All,
            Left::Synced => Choice::Synced,
            Left::Torn(kept, fill) => Choice::Torn(*kept, *fill),
        })?;
    }
    Ok(choices)
}

// The files after a crash.
fn crashed<F: Failing>(alloc: Global, fs: &F, left: &Left) -> Result<F, Fault> {
    fs.crashed(&choices(alloc, left)?)
}

// The files after a crash and an opening; `None` unless it reads the keys of the case.
fn reads_after<F: Failing>(alloc: Global, fs: &F, left: &Left, case: &Case) -> Option<F> {
    match crashed(alloc, fs, left) {
        Ok(crashed) => reads(alloc, crashed, case.append, case.rewrite),
        Err(_) => None,
    }
}

/// Whether the case's keys are found after a crash, and found again after a second crash.
pub(crate) fn is_as_said<F: Failing>(alloc: Global, case: &Case) -> bool {
    let found = match written(alloc, F::fresh(alloc), case.steps) {
        Ok(fs) => reads_after(alloc, &fs, &case.left, case),
        Err(_) => None,
    };
    match found {
        Some(found) => reads_after(alloc, &found, &Left::Synced, case).is_some(),
        None => false,
    }
}

// Files of both queues in which the opening's call will fail.
fn refusing<F: Failing>(alloc: Global, opening: &Opening) -> Result<F, Fault> {
    let mut fs = written(alloc, F::fresh(alloc), &ONE_EACH)?;
    if let Some((call, nth)) = opening.refused {
        fs.fail(call, nth, IoKind::NoSpace)?;
    }
    Ok(fs)
}

/// Whether the opening ends as its row says, and another one then reads both queues as they were
/// written.
pub(crate) fn ends_as_said<F: Failing>(alloc: Global, opening: &Opening) -> bool {
    let refusing: Result<F, Fault> = refusing(alloc, opening);
    let done = match refusing {
        Ok(fs) => staged(alloc, None, fs, opening.stages),
        Err(_) => None,
    };
    match done {
        Some((ended, left)) => {
            code_of(ended) == opening.finished
                && reads(alloc, left, &[(1, b'a')], &[(1, b'b')]).is_some()
        }
        None => false,
    }
}
