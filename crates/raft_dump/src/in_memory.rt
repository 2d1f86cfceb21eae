//! What log files in memory hold.
ghost use Rattle.std.specs.Prelude.{IfErr, IfOk};
ghost use Rattle.raft_env.specs.Moments.{OnlyReads};
ghost use Rattle.raft_memory.specs.Memory.{memory_directory, memory_moments, memory_refusals};
ghost use Rattle.raft_dump.specs.Dump.{IsDump, IsNoDump};

use crate::dumping::dump_with_file_system;
use crate::item_reader::LogItemReader;
use raft_memory::MemoryFileSystem;
use raft_records::Fault;
use std::alloc::Global;

/// As `dump_with_file_system`, over files in memory.
pub fn dump(
    alloc: Global,
    path: &str,
    files: &mut MemoryFileSystem,
) -> Result<LogItemReader<MemoryFileSystem>, Fault>
    ensures value { IfOk result (IsDump path.now (memory_directory files.old)
        ((memory_directory files.old).is_folder path.now)) }
    ensures unchanged { OnlyReads memory_directory memory_moments memory_refusals
        files.old files.new }
    ensures cause { IfErr result (IsNoDump path.now (memory_directory files.old)
        (memory_refusals files.old) (memory_refusals files.new)
        ((memory_directory files.old).is_folder path.now)) }
{
    dump_with_file_system(alloc, path, files)
}
