//! The items of each log file, up to the first record whose checksums do not hold. One part of a
//! file at a time is in memory.

use crate::folder::Folder;
use crate::source::FileSource;
use anyhow::{Result, bail};
use raft_console::{Output, Progress, Status, failure, or_failure};
use raft_dump::{LogFile, LogFileParts, RecordPlace, build_file_reader};
use raft_env::FileSystem;
use raft_files::{FileRecordReader, LogFileReader};
use raft_inspect::{Filter, add_fault, add_item};
use raft_memory::MemoryFileSystem;
use raft_records::{Fault, FileId, LogItem, LogQueue};
use std::alloc::Global;

/// How many bytes of a part are read at once, unless a record needs more.
const READ_BLOCK_SIZE: usize = 64 * 1024;

/// Prints a line for each item of one file, or of all, that the filter takes: the Rewrite queue's
/// first. Files that are dropped meanwhile are left out.
pub fn dump(
    alloc: Global,
    folder: &Folder,
    name: Option<&str>,
    filter: Filter,
    progress: &mut Progress,
    out: &mut Output,
) -> Result<Status> {
    let files = chosen(alloc, folder, name)?;
    if let (Some(name), true) = (name, files.is_empty()) {
        if folder.has_other(name) {
            bail!("{name}: its name does not begin with a log file's, as 0000000000000001.raftlog");
        }
        bail!("{name}: there is no such file in this folder");
    }
    let mut status = Status::Done;
    for (place, file) in files.iter().enumerate() {
        progress.at("files dumped", place as u64, files.len() as u64)?;
        if !dump_file(alloc, folder, file, filter, progress, out)? {
            status = Status::WouldCut;
        }
    }
    Ok(status)
}

// The file of this name, or all files.
fn chosen(alloc: Global, folder: &Folder, name: Option<&str>) -> Result<Vec<LogFile>> {
    let mut chosen = Vec::new(alloc);
    if let Some(copy) = folder.copy_named(name.unwrap_or(""))? {
        chosen.push(copy)?;
    }
    for queue in &[LogQueue::Rewrite, LogQueue::Append] {
        for file in folder.files_of(*queue)? {
            let is_chosen = match name {
                Some(name) => file.path.as_str() == name,
                None => true,
            };
            if is_chosen {
                chosen.push(file)?;
            }
        }
    }
    Ok(chosen)
}

// Prints the items of a file, and returns whether it can be read to its end, which is so if a writer
// drops it meanwhile.
fn dump_file(
    alloc: Global,
    folder: &Folder,
    file: &LogFile,
    filter: Filter,
    progress: &mut Progress,
    out: &mut Output,
) -> Result<bool> {
    let Some(mut source) = folder.source_of(file, progress)? else {
        return Ok(true);
    };
    dump_source(alloc, file, &mut source, filter, out)
}

fn dump_source(
    alloc: Global,
    file: &LogFile,
    source: &mut FileSource<'_>,
    filter: Filter,
    out: &mut Output,
) -> Result<bool> {
    let size = source.size()?;
    let mut parts = match LogFileParts::open(alloc, size, source) {
        Ok(parts) => parts,
        Err(_) if source.is_gone() => return Ok(true),
        Err(fault) => return Err(source.failure(&fault)),
    };
    let Some((place, fault)) = dump_parts(alloc, file, source, &mut parts, filter, out)? else {
        return Ok(true);
    };
    let added = add_fault(Some(place), &fault, &mut out.lines);
    or_failure(added, file.path.as_str())?;
    Ok(false)
}

// Prints the items of all parts, and returns where and why the reading stops before the file's end.
fn dump_parts(
    alloc: Global,
    file: &LogFile,
    source: &mut FileSource<'_>,
    parts: &mut LogFileParts,
    filter: Filter,
    out: &mut Output,
) -> Result<Option<(RecordPlace, Fault)>> {
    for _ in 0..u64::MAX {
        let stop = match parts.next_image(alloc, file.path.as_str(), source) {
            Ok(image) => dump_next(alloc, image, file, parts, filter, out)?,
            Err(_) if source.is_gone() => break,
            Err(fault) => return Err(source.failure(&fault)),
        };
        match stop {
            Some((place, fault)) => {
                let there = place_in_file(parts, place);
                if !parts.go_on(place.offset) {
                    return Ok(Some((there, fault)));
                }
            }
            None => {
                if !parts.go_on(usize::MAX) {
                    break;
                }
            }
        }
    }
    Ok(None)
}

// The same of the next part, in its image.
fn dump_next(
    alloc: Global,
    mut image: MemoryFileSystem,
    file: &LogFile,
    parts: &LogFileParts,
    filter: Filter,
    out: &mut Output,
) -> Result<Option<(RecordPlace, Fault)>> {
    dump_part(alloc, &mut image, file, parts, filter, out)
}

/// A part of a file, and which of its items are printed.
#[derive(Clone, Copy)]
struct Part<'a> {
    id: FileId,
    path: &'a str,
    parts: &'a LogFileParts,
    filter: Filter,
}

// Where a record of a part stands in the file.
fn place_in_file(parts: &LogFileParts, place: RecordPlace) -> RecordPlace {
    RecordPlace {
        id: place.id,
        offset: parts.place_of(place.offset),
    }
}

// Prints the items of a part, and returns where and why the reading stops before its end.
fn dump_part<F: FileSystem>(
    alloc: Global,
    image: &mut F,
    file: &LogFile,
    parts: &LogFileParts,
    filter: Filter,
    out: &mut Output,
) -> Result<Option<(RecordPlace, Fault)>> {
    let path = file.path.as_str();
    let Some(mut records) = open_records(alloc, image, file)? else {
        let front = RecordPlace {
            id: file.id,
            offset: 0,
        };
        return Ok(Some((front, Fault::Corruption)));
    };
    let mut reader = or_failure(build_file_reader(alloc, image, path), path)?;
    let part = Part {
        id: file.id,
        path,
        parts,
        filter,
    };
    let stop = dump_records(alloc, image, &mut reader, &mut records, part, out);
    reader.end(image);
    records.end(image);
    stop
}

// The records of a part; none if its header cannot be read.
fn open_records<F: FileSystem>(
    alloc: Global,
    image: &mut F,
    file: &LogFile,
) -> Result<Option<FileRecordReader<F>>> {
    let path = file.path.as_str();
    let mut reader = or_failure(build_file_reader(alloc, image, path), path)?;
    match reader.parse_format(image) {
        Ok(Some(format)) => Ok(Some(FileRecordReader::new(
            alloc,
            reader,
            file.id,
            format,
            READ_BLOCK_SIZE,
        ))),
        Ok(None) => {
            reader.end(image);
            Ok(None)
        }
        Err(fault) => {
            reader.end(image);
            Err(failure(path, &fault.with_path(alloc, path)))
        }
    }
}

// A record is taken only if the checksum of its entries holds.
fn dump_records<F: FileSystem>(
    alloc: Global,
    image: &mut F,
    reader: &mut LogFileReader<F>,
    records: &mut FileRecordReader<F>,
    part: Part<'_>,
    out: &mut Output,
) -> Result<Option<(RecordPlace, Fault)>> {
    for _ in 0..u64::MAX {
        let place = RecordPlace {
            id: part.id,
            offset: records.valid_offset(),
        };
        let items = match records.next(image, alloc, part.path, true) {
            Ok(Some(batch)) => batch.into_items(),
            Ok(None) => break,
            // No damage of the file.
            Err(Fault::Memory) => return Err(failure(part.path, &Fault::Memory)),
            Err(fault) => return Ok(Some((place, fault))),
        };
        dump_items(alloc, image, reader, &items, place, part, out)?;
        records.reuse(items);
        out.print_if_full()?;
    }
    Ok(None)
}

// Prints the items of a record.
fn dump_items<F: FileSystem>(
    alloc: Global,
    image: &mut F,
    reader: &mut LogFileReader<F>,
    items: &[LogItem],
    place: RecordPlace,
    part: Part<'_>,
    out: &mut Output,
) -> Result<()> {
    let there = place_in_file(part.parts, place);
    for item in items {
        let added = add_item(
            alloc,
            image,
            reader,
            Some(there),
            item,
            part.filter,
            &mut out.lines,
        );
        or_failure(added, part.path)?;
        out.print_if_full()?;
    }
    Ok(())
}
