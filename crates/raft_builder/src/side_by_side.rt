//! Parts that are read side by side.
ghost use Rattle.std.specs.Prelude.{IfOk};
ghost use Rattle.std.specs.List.{All, AllByRecursion, AllZip};
ghost use Rattle.raft_opening.specs.OpenedLogs.{IsUnread};
ghost use Rattle.raft_builder.specs.Parts.{IsPartRead};

use crate::merging::MergingMachine;
use crate::part::{PartJob, ReadPart, read_part};
use raft_env::FileSystem;
use std::alloc::{AllocError, Global};
use std::thread;
use std::thread::Threads;

/// The results of a worker for each part, in the order of the parts. If memory for the list runs
/// out, some parts may have been dropped unread.
pub(crate) fn read_side_by_side<R: Threads + Sync, F: FileSystem, M: MergingMachine + Drop>(
    rt: &R,
    alloc: Global,
    read_block_size: usize,
    file_system: &F,
    jobs: Vec<PartJob<F, M>>,
) -> Result<Vec<ReadPart<F, M>>, AllocError>
    requires { All (λ job. AllByRecursion (IsUnread (F.directory file_system.now))
        job.logs.items) jobs.items }
    ensures { IfOk result (λ read. AllZip (λ job r. IsPartRead M.stands_for
        (F.directory file_system.now) job.logs.items job.machine r.logs.items r.read)
        jobs.items read.items) }
{
    let read = |job: PartJob<F, M>| -> ReadPart<F, M>
        requires { AllByRecursion (IsUnread (F.directory file_system.now)) job.logs.items }
        ensures { IsPartRead M.stands_for (F.directory file_system.entry.now) job.logs.items
            job.machine result.logs.items result.read }
    { read_part(alloc, read_block_size, file_system, job) };
    thread::map_vec(rt, jobs, &read)
}
