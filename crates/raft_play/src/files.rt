//! Lines that read or change files in memory that no engine has.

use crate::asked::{ChangeLine, CountLine, FilesLine, UpsetLine};
use crate::check::outlook;
use crate::dump::say_items;
use crate::line::Line;
use raft_env::{FileSystem, FsFault, Permission};
use raft_fork::fork;
use raft_records::Fault;
use raft_test_rows::{Config, Faulty, Left, RecoveryMode};
use std::alloc::{AllocError, Global};

fn store<F: FileSystem>(files: &mut F, path: &str, bytes: &[u8]) -> Result<(), FsFault> {
    let handle = files.create(path)?;
    let mut writer = files.new_writer(&handle)?;
    files.write(&mut writer, 0, bytes)
}

/// The length of a file, in bytes.
pub(crate) fn length<F: FileSystem>(files: &mut F, path: &str) -> Result<usize, FsFault> {
    let handle = files.open(path, Permission::ReadOnly)?;
    files.file_size(&handle)
}

fn read<F: FileSystem>(
    files: &mut F,
    handle: &F::Handle,
    bytes: &mut [u8],
) -> Result<usize, FsFault> {
    let mut reader = files.new_reader(handle)?;
    let read = files.read(&mut reader, 0, bytes);
    files.end_reader(reader);
    read
}

fn room_for<F: FileSystem>(
    alloc: Global,
    files: &mut F,
    handle: &F::Handle,
) -> Result<Vec<u8>, FsFault> {
    let size = files.file_size(handle)?;
    Ok(vec![in alloc; 0; size]?)
}

/// The bytes of a file.
pub(crate) fn bytes_at<F: FileSystem>(
    alloc: Global,
    files: &mut F,
    path: &str,
) -> Result<Vec<u8>, FsFault> {
    let handle = files.open(path, Permission::ReadOnly)?;
    let mut bytes = room_for(alloc, files, &handle)?;
    let len = read(files, &handle, &mut bytes)?;
    bytes.truncate(len);
    Ok(bytes)
}

// Adds a number to each byte of a file, as a file system does that encrypts what it stores.
fn shift<F: FileSystem>(alloc: Global, files: &mut F, path: &str, by: u8) -> Result<(), FsFault> {
    let mut bytes = bytes_at(alloc, files, path)?;
    for byte in bytes.iter_mut() {
        *byte = byte.wrapping_add(by);
    }
    store(files, path, &bytes)
}

// Keeps only the first bytes of a file.
fn cut<F: FileSystem>(files: &mut F, path: &str, len: u64) -> Result<(), FsFault> {
    let handle = files.open(path, Permission::ReadWrite)?;
    let mut writer = files.new_writer(&handle)?;
    files.truncate(&mut writer, len as usize)
}

// Writes a byte at a place. No file of the stories has it there.
fn break_byte<F: FileSystem>(files: &mut F, path: &str, at: u64) -> Result<(), FsFault> {
    let handle = files.open(path, Permission::ReadWrite)?;
    let mut writer = files.new_writer(&handle)?;
    files.write(&mut writer, at as usize, &[0xa5])
}

/// The mode of this name.
pub(crate) fn mode_of(word: &str) -> Option<RecoveryMode> {
    match word {
        "absolute" => Some(RecoveryMode::AbsoluteConsistency),
        "tail" => Some(RecoveryMode::TolerateTailCorruption),
        "any" => Some(RecoveryMode::TolerateAnyCorruption),
        _ => None,
    }
}

// The number of names in a folder that are those of Append files and of reserved ones.
fn count_logs(names: &[String]) -> u64 {
    let mut count = 0u64;
    for name in names {
        if name.as_str().contains(".raftlog") {
            count = count.saturating_add(1);
        }
    }
    count
}

// Prints the code of a fork's fault, and the kind of a call's fault.
fn refuse_fork(line: &mut Line, fault: &Fault) {
    match fault {
        Fault::Io(kind, _) => {
            line.said.say("refused 3 ");
            line.said.kind(*kind);
        }
        _ => line.refused(fault.code()),
    }
}

// Prints the paths of a fork's copies, and of links, which a fork doesn't make.
fn say_fork<F: FileSystem>(line: &mut Line, config: &Config, files: &mut F) {
    match fork(line.alloc, config, files, line.text(0)) {
        Ok(details) => {
            line.said.say("copied");
            line.said.paths(" ", &details.copied);
            line.said.paths(" linked ", &details.symlinked);
        }
        Err(fault) => refuse_fork(line, &fault),
    }
}

// Prints what a check reports about opening a copy.
fn outlook_of_copy<F: Faulty>(
    alloc: Global,
    files: &F,
    mode: RecoveryMode,
) -> Result<String, Fault> {
    let copy = files.copied(alloc)?;
    outlook(alloc, copy, mode)
}

fn agree<F: Faulty>(line: &mut Line, files: &F) {
    let Some(mode) = mode_of(line.text(0)) else {
        return line.bad();
    };
    match outlook_of_copy(line.alloc, files, mode) {
        Ok(text) => line.said.say(text.as_str()),
        Err(fault) => line.refuse(fault),
    }
}

// Changes files as a log does.
fn change<F: FileSystem>(line: &mut Line, files: &mut F, asked: ChangeLine) {
    let (alloc, path) = (line.alloc, line.text(0));
    let done = match asked {
        ChangeLine::Folder => files.make_dir(path),
        ChangeLine::Store => store(files, path, line.bytes(0)),
        ChangeLine::Shift => shift(alloc, files, path, line.byte(0)),
        ChangeLine::Cut => cut(files, path, line.number(0)),
        ChangeLine::Break => break_byte(files, path, line.number(0)),
    };
    line.done_by_files(done);
}

// Changes files as a crash or another program does.
fn upset<F: Faulty>(line: &mut Line, files: &mut F, asked: UpsetLine) {
    let (alloc, path, count) = (line.alloc, line.text(0), line.number(0));
    let done = match asked {
        UpsetLine::Note => files.note(path),
        UpsetLine::Free => files.free_to(path, count),
        UpsetLine::CrashAll => files.crash_to(alloc, &Left::All),
        UpsetLine::CrashSynced => files.crash_to(alloc, &Left::Synced),
        UpsetLine::CrashTorn => { files.crash_to(alloc, &Left::Torn(count as usize, line.byte(1))) }
    };
    line.done(done);
}

fn has<F: FileSystem>(line: &mut Line, files: &mut F) {
    match bytes_at(line.alloc, files, line.text(0)) {
        Ok(found) => {
            let has = found.as_slice() == line.bytes(0);
            line.said.whether(has);
        }
        Err(fault) => line.refuse_files(fault),
    }
}

fn counted<F: FileSystem>(files: &mut F, path: &str, asked: CountLine) -> Result<u64, FsFault> {
    match asked {
        CountLine::Bytes => Ok(length(files, path)? as u64),
        CountLine::Files => Ok(files.list(path)?.len() as u64),
        CountLine::Logs => Ok(count_logs(&files.list(path)?)),
    }
}

fn count<F: FileSystem>(line: &mut Line, files: &mut F, asked: CountLine) {
    match counted(files, line.text(0), asked) {
        Ok(count) => line.said.number(count),
        Err(fault) => line.refuse_files(fault),
    }
}

/// Carries out a request on files, with these settings.
pub(crate) fn answer<F: Faulty>(line: &mut Line, config: &Config, files: &mut F, asked: FilesLine) {
    match asked {
        FilesLine::Change(asked) => change(line, files, asked),
        FilesLine::Upset(asked) => upset(line, files, asked),
        FilesLine::Count(asked) => count(line, files, asked),
        FilesLine::Items(asked) => say_items(line, files, asked),
        FilesLine::Has => has(line, files),
        FilesLine::IsFolder => {
            let is = files.is_dir(line.text(0));
            line.said.whether(is);
        }
        FilesLine::Metadata => {
            let is = files.exists_metadata(line.text(0));
            line.said.whether(is);
        }
        FilesLine::Fork => say_fork(line, config, files),
        FilesLine::Agree => agree(line, files),
    }
}
