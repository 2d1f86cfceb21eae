//! A folder in memory, looked through for holes.
ghost use Rattle.std.specs.Prelude.{◌≡◌, true, IfErr, IfOk, OnOk};
ghost use Rattle.raft_env.specs.Moments.{MovesBy};
ghost use Rattle.raft_pipes.specs.Queue.{LeavesAll};
ghost use Rattle.raft_memory.specs.Memory.{memory_directory, memory_moments, memory_refusals};
ghost use Rattle.raft_consistency.specs.Check.{IsCheckRefusal, folder_at, handed_back, log_holes};
ghost use Rattle.raft_consistency.specs.Holes.{AreHoles};

use crate::check::consistency_check_with_file_system;
use raft_memory::MemoryFileSystem;
use raft_records::Fault;
use std::alloc::Global;

/// As `consistency_check_with_file_system`, over files in memory.
pub fn consistency_check(
    alloc: Global,
    path: &str,
    files: MemoryFileSystem,
) -> Result<(Vec<(u64, u64)>, MemoryFileSystem), (Fault, MemoryFileSystem)>
    ensures value { IfOk result (λ found.
        AreHoles (log_holes (folder_at path.now) (memory_directory files)) found.0.items) }
    ensures folder { OnOk result ((memory_directory files).is_folder path.now ≡ true) }
    ensures any_moment { MovesBy memory_directory memory_moments memory_refusals LeavesAll files
        (handed_back result) }
    ensures cause { IfErr result (λ r. IsCheckRefusal path.now (memory_directory files)
        (memory_refusals files) (memory_refusals r.1) r.0) }
{
    consistency_check_with_file_system(alloc, path, files)
}
