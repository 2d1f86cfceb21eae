//! Writers and readers that are made for a file's path.

ghost use Rattle.raft_files.specs.Header.{HasHeader};

use crate::in_memory::Tried;
use raft_dump::{build_file_reader, build_file_writer};
use raft_env::FileSystem;
use raft_files::LogFileFormat;
use raft_records::Version;
use raft_rows::{FileParts, HEADER, PUT, fill, store};
use std::alloc::Global;

/// A path, whether the file is to be created, and the offset of its new writer, or a fault's code.
pub(crate) type Writer = (&'static str, bool, Result<usize, u8>);

pub(crate) static WRITERS: [Tried; 5] = [
    Tried::Writer(&("a/found", false, Ok(89))),
    Tried::Writer(&("a/found", true, Ok(61))),
    Tried::Writer(&("a/missing", true, Ok(61))),
    Tried::Writer(&("a/missing", false, Err(3))),
    Tried::Writer(&("a/short", false, Ok(61))),
];

fn written<F: FileSystem>(
    alloc: Global,
    fs: &mut F,
    path: &str,
    create: bool,
) -> Result<usize, u8> {
    match build_file_writer(alloc, fs, path, LogFileFormat::default(), create) {
        Ok(writer) => Ok(writer.offset()),
        Err(fault) => Err(fault.code()),
    }
}

// The length of the file that a reader then finds.
fn read_len<F: FileSystem>(alloc: Global, fs: &mut F, path: &str) -> Result<usize, u8> {
    match build_file_reader(alloc, fs, path) {
        Ok(reader) => Ok(reader.file_size()),
        Err(fault) => Err(fault.code()),
    }
}

/// Whether the writer has the row's offset or fault, and a reader opened after it agrees.
pub(crate) fn is_built<F: FileSystem>(fs: &mut F, alloc: Global, row: &Writer) -> bool {
    let (path, create, offset) = *row;
    let files: &[FileParts] = &[("a/found", &[HEADER, PUT]), ("a/short", &[PUT])];
    if fill(fs, alloc, files).is_err() || written(alloc, fs, path, create) != offset {
        return false;
    }
    match (read_len(alloc, fs, path), offset) {
        (Ok(len), Ok(offset)) => offset <= len,
        (Err(code), Err(_)) => code == 3,
        _ => false,
    }
}

/// The version of a header, how many of its bytes are in the file, and the version that a writer
/// then gives the file.
pub(crate) struct Begun(Version, usize, Version);

pub(crate) static BEGUN: [Tried; 6] = [
    Tried::Begun(&Begun(Version::V1, 60, Version::V1)),
    Tried::Begun(&Begun(Version::V1, 61, Version::V1)),
    Tried::Begun(&Begun(Version::V1, 60, Version::V2)),
    Tried::Begun(&Begun(Version::V1, 61, Version::V2)),
    Tried::Begun(&Begun(Version::V2, 68, Version::V2)),
    Tried::Begun(&Begun(Version::V2, 69, Version::V2)),
];

const BEGUN_PATH: &str = "a/begun";

fn format_of(version: Version) -> LogFileFormat
    ensures header { HasHeader result }
{
    match version {
        Version::V1 => LogFileFormat::new(version, 0),
        Version::V2 => LogFileFormat::new(version, 1),
    }
}

// Writes the first `len` bytes of a header to a file.
fn begins<F: FileSystem>(alloc: Global, fs: &mut F, version: Version, len: usize) -> bool {
    let mut bytes = Vec::new(alloc);
    if fill(fs, alloc, &[]).is_err() || format_of(version).encode(&mut bytes).is_err() {
        return false;
    }
    bytes.truncate(len);
    store(fs, BEGUN_PATH, &[&bytes]).is_ok()
}

// Whether a writer of this version can be made for the file.
fn makes_writer<F: FileSystem>(alloc: Global, fs: &mut F, version: Version) -> bool {
    match build_file_writer(alloc, fs, BEGUN_PATH, format_of(version), false) {
        Ok(writer) => {
            drop(writer);
            true
        }
        Err(_) => false,
    }
}

// Whether the file has this format.
fn has_format<F: FileSystem>(alloc: Global, fs: &mut F, format: LogFileFormat) -> bool {
    match build_file_reader(alloc, fs, BEGUN_PATH) {
        Ok(mut reader) => {
            let found = reader.parse_format(fs);
            reader.end(fs);
            found == Ok(Some(format))
        }
        Err(_) => false,
    }
}

/// Whether a writer replaces a partly written header by a whole one of its version.
pub(crate) fn is_written_again<F: FileSystem>(fs: &mut F, alloc: Global, row: &Begun) -> bool {
    let Begun(from, len, to) = row;
    begins(alloc, fs, *from, *len)
        && makes_writer(alloc, fs, *to)
        && has_format(alloc, fs, format_of(*to))
}
