//! The log files of a folder, by their names.
ghost use Rattle.std.specs.Prelude.{◌≡◌, ◌++◌, IfErr, IfOk, map};
ghost use Rattle.std.specs.List.{filter_map};
ghost use Rattle.std.specs.Option.{option_map};
ghost use Rattle.std.specs.String.{string_bytes};
ghost use Rattle.raft_base.specs.declared.errors.Fault.TheVariants.{Memory};
ghost use Rattle.raft_dump.specs.LogFiles.{file_named, files_named, place_of};

use raft_files::FileNameExt;
use raft_records::{Fault, FileId, LogQueue};
use std::alloc::Global;

/// A log file and its path.
#[derive(Drop)]
pub struct LogFile {
    pub id: FileId,
    pub path: String,
}

/// The log file with this name in a folder: one of the queue, if the name is built of its number.
pub fn log_file(
    alloc: Global,
    folder: &str,
    name: &str,
    queue: LogQueue,
) -> Result<Option<LogFile>, Fault>
    ensures value { IfOk result (λ found. option_map place_of found
        ≡ file_named folder.now queue name.now) }
    ensures memory { IfErr result (λ e. e ≡ Memory) }
{
    let Some(parsed) = FileId::parse_file_name(name) else {
        return Ok(None);
    };
    let id = FileId::new(queue, parsed.seq);
    let built = id.build_file_name(alloc)?;
    if built.as_str() == name {
        let path = id.build_file_path(alloc, folder)?;
        Ok(Some(LogFile { id, path }))
    } else {
        Ok(None)
    }
}

/// The log files with these names in a folder: those of the Rewrite queue, then those of the Append
/// queue, each in the order of the names.
pub fn log_files(alloc: Global, folder: &str, names: &[String]) -> Result<Vec<LogFile>, Fault>
    ensures value { IfOk result (λ files. map place_of files.items
        ≡ files_named folder.now (map string_bytes names.now)) }
    ensures memory { IfErr result (λ e. e ≡ Memory) }
{
    let mut files = Vec::new(alloc);
    add_files(alloc, folder, names, LogQueue::Rewrite, &mut files)?;
    add_files(alloc, folder, names, LogQueue::Append, &mut files)?;
    Ok(files)
}

fn add_files(
    alloc: Global,
    folder: &str,
    names: &[String],
    queue: LogQueue,
    files: &mut Vec<LogFile>,
) -> Result<(), Fault>
    ensures value { IfOk result (λ _. map place_of files.new.items
        ≡ map place_of files.old.items
        ++ filter_map (file_named folder.now queue) (map string_bytes names.now)) }
    ensures memory { IfErr result (λ e. e ≡ Memory) }
{
    for name in names {
        if let Some(file) = log_file(alloc, folder, name.as_str(), queue)? {
            files.push(file)?;
        }
    }
    Ok(())
}
