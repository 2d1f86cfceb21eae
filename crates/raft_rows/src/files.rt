//! Files that are put into memory, by their parts.

use raft_env::{FileSystem, FsFault};
use raft_records::Fault;
use std::alloc::Global;

/// A header of version 1, of 61 bytes.
pub const HEADER: &[u8] =
    b"RAFT-LOG-FILE-HEADER-9986AB3E47F320B394C8E84916EB0ED5\x00\x00\x00\x00\x00\x00\x00\x01";

/// A record of 28 bytes: a put of a in group 1.
pub const PUT: &[u8] = b"\x00\x00\x00\x00\x00\x00\x1c\x00\x00\x00\x00\x00\x00\x00\x00\x10\
    \x01\x01\x03\x01\x01\x61\x01\x78\x60\x81\x67\x02";

/// A record of 34 bytes: puts of b in group 2 and of c in group 3.
pub const PUTS: &[u8] = b"\x00\x00\x00\x00\x00\x00\x22\x00\x00\x00\x00\x00\x00\x00\x00\x10\
    \x02\x02\x03\x01\x01\x62\x01\x79\x03\x03\x01\x01\x63\x00\x23\x6f\x0e\xf8";

/// A record of 21 bytes without items.
pub const NOTHING: &[u8] =
    b"\x00\x00\x00\x00\x00\x00\x15\x00\x00\x00\x00\x00\x00\x00\x00\x10\x00\x8d\xef\x02\xd2";

/// Room that was made ahead.
pub const ZEROS: &[u8] = &[0; 100];

/// A path, and the parts of the file there.
pub type FileParts = (&'static str, &'static [&'static [u8]]);

/// Puts these files into the folders `a` and `b`.
pub fn fill<F: FileSystem>(
    fs: &mut F,
    alloc: Global,
    files: &'static [FileParts],
) -> Result<(), Fault> {
    match add_files(fs, files) {
        Ok(()) => Ok(()),
        Err(fault) => Err(fault.with_path(alloc, "")),
    }
}

fn add_files<F: FileSystem>(fs: &mut F, files: &'static [FileParts]) -> Result<(), FsFault> {
    fs.make_dir("a")?;
    fs.make_dir("b")?;
    for (path, parts) in files {
        store(fs, path, parts)?;
    }
    Ok(())
}

/// Makes a file of these parts, in a folder that is there.
pub fn store<F: FileSystem>(fs: &mut F, path: &str, parts: &[&[u8]]) -> Result<(), FsFault> {
    let handle = fs.create(path)?;
    let mut writer = fs.new_writer(&handle)?;
    let mut at = 0;
    for part in parts {
        fs.write(&mut writer, at, part)?;
        at = at.saturating_add(part.len());
    }
    Ok(())
}

/// .. in this folder, which is made, or in none.
pub fn store_in<F: FileSystem>(
    fs: &mut F,
    folder: &str,
    path: &str,
    parts: &[&[u8]],
) -> Result<(), FsFault> {
    if !folder.is_empty() {
        fs.make_dir(folder)?;
    }
    store(fs, path, parts)
}
