//! What the log files at a path hold.
ghost use Rattle.std.specs.Prelude.{IfErr, IfOk};
ghost use Rattle.raft_env.specs.Moments.{OnlyReads};
ghost use Rattle.raft_dump.specs.Dump.{IsDump, IsNoDump};

use crate::item_reader::LogItemReader;
use raft_env::FileSystem;
use raft_records::Fault;
use std::alloc::Global;

/// The items of the log file at a path, or of those in the folder there. It fails with
/// `InvalidArgument` if neither exists, or if the name is no log file's.
pub fn dump_with_file_system<F: FileSystem>(
    alloc: Global,
    path: &str,
    file_system: &mut F,
) -> Result<LogItemReader<F>, Fault>
    ensures value { IfOk result (IsDump path.now (F.directory file_system.old)
        ((F.directory file_system.old).is_folder path.now)) }
    ensures unchanged { OnlyReads F.directory F.moments F.refusals_of
        file_system.old file_system.new }
    ensures cause { IfErr result (IsNoDump path.now (F.directory file_system.old)
        (F.refusals_of file_system.old) (F.refusals_of file_system.new)
        ((F.directory file_system.old).is_folder path.now)) }
{
    if file_system.is_dir(path) {
        LogItemReader::new_directory_reader(alloc, file_system, path)
    } else {
        LogItemReader::new_file_reader(alloc, file_system, path)
    }
}
