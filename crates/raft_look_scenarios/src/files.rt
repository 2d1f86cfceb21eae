//! The files of a folder, by their parts. Their bytes were made by another program.

use raft_rows::temp_folder;
use std::test::Fail;
use std::{fs, io};

/// A header of version 1.
const HEADER: &[u8] =
    b"RAFT-LOG-FILE-HEADER-9986AB3E47F320B394C8E84916EB0ED5\x00\x00\x00\x00\x00\x00\x00\x01";

/// A record of 28 bytes: a put of a in group 1.
pub(crate) const PUT: &[u8] = b"\x00\x00\x00\x00\x00\x00\x1c\x00\x00\x00\x00\x00\x00\x00\x00\x10\
    \x01\x01\x03\x01\x01\x61\x01\x78\x60\x81\x67\x02";

/// A record of 31 bytes: the entry 1 of group 7, which is e.
const ENTRY: &[u8] = b"\x00\x00\x00\x00\x00\x00\x1f\x00\x00\x00\x00\x00\x00\x00\x00\x15\
    \x65\x5a\x7a\xda\xef\x01\x07\x01\x01\x01\x01\x93\xa2\xdc\x1f";

/// A record of 39 bytes: the entry 1 of group 7 as `raftctl` writes one, its index in eight bytes and e.
const INDEXED: &[u8] = b"\x00\x00\x00\x00\x00\x00\x27\x00\x00\x00\x00\x00\x00\x00\x00\x1d\
    \x00\x00\x00\x00\x00\x00\x00\x01\x65\x38\xb0\xca\xc2\x01\x07\x01\x01\x01\x09\xa1\x2a\x07\x11";

pub(crate) const TORN: &[u8] = b"torn";

/// The name of a first file.
const FIRST: &str = "0000000000000001.raftlog";

/// A name, and the parts of the file.
pub(crate) type FileParts = (&'static str, &'static [&'static [u8]]);

/// Two queues, a file that is no log's, and the file of a lock.
pub(crate) const WHOLE: &[FileParts] = &[
    ("0000000000000001.raftlog", &[HEADER, PUT, ENTRY]),
    ("0000000000000002.raftlog", &[HEADER, PUT]),
    ("0000000000000004.rewrite", &[HEADER, PUT, PUT]),
    ("LOCK", &[]),
    ("notes", &[TORN]),
];

/// Two queues with an entry that `raftctl` reads, and a file that is no log's.
pub(crate) const OF_RAFTCTL: &[FileParts] = &[
    ("0000000000000001.raftlog", &[HEADER, PUT, INDEXED]),
    ("0000000000000002.raftlog", &[HEADER, PUT]),
    ("0000000000000004.rewrite", &[HEADER, PUT]),
    ("notes", &[TORN]),
];

/// Torn bytes in the last file, and in the first.
pub(crate) const TORN_END: &[FileParts] = &[
    ("0000000000000001.raftlog", &[HEADER, PUT, ENTRY]),
    ("0000000000000002.raftlog", &[HEADER, PUT, TORN]),
];

pub(crate) const TORN_FRONT: &[FileParts] = &[
    ("0000000000000001.raftlog", &[HEADER, PUT, TORN]),
    ("0000000000000002.raftlog", &[HEADER, PUT]),
];

/// A whole record after torn bytes.
pub(crate) const TORN_MIDDLE: &[FileParts] = &[(FIRST, &[HEADER, PUT, TORN, PUT])];

/// The file of number 2 is missing.
pub(crate) const GAP: &[FileParts] = &[
    (FIRST, &[HEADER, PUT, ENTRY]),
    ("0000000000000003.raftlog", &[HEADER, PUT]),
];

/// The last file is in a folder inside it.
pub(crate) const LEFT_OUT: &[FileParts] = &[
    (FIRST, &[HEADER, PUT, ENTRY]),
    ("second/0000000000000002.raftlog", &[HEADER, PUT]),
];

/// Files of the Append queue were dropped, and the Rewrite queue has none.
pub(crate) const NO_REWRITE: &[FileParts] = &[("0000000000000002.raftlog", &[HEADER, PUT])];

/// Torn bytes, and a file beside with bytes that were cut off at this place before.
pub(crate) const CUT_BEFORE: &[FileParts] = &[
    (FIRST, &[HEADER, PUT, TORN]),
    ("0000000000000001.raftlog.cut-89", &[PUT]),
];

fn make_below(rt: &HostRuntime, folder: &str, file: &str) -> io::Result<()> {
    match file.rsplit_once('/') {
        Some((below, _)) => {
            fs::create_dir(rt, format!(in rt.alloc(); "{folder}/{below}")?.as_str())
        }
        None => Ok(()),
    }
}

fn make_file(rt: &HostRuntime, folder: &str, file: &str, parts: &[&[u8]]) -> io::Result<()> {
    let mut bytes = Vec::new(rt.alloc());
    for part in parts {
        bytes.extend_from_slice(part)?;
    }
    let place = format!(in rt.alloc(); "{folder}/{file}")?;
    fs::write(rt, place.as_str(), &bytes)
}

/// Makes a folder for one test with these files. One of them may be in a folder inside it.
pub(crate) fn make(
    rt: &HostRuntime,
    name: &str,
    files: &'static [FileParts],
) -> io::Result<String> {
    let folder = temp_folder(rt, name)?;
    for (file, parts) in files {
        make_below(rt, folder.as_str(), file)?;
        make_file(rt, folder.as_str(), file, parts)?;
    }
    Ok(folder)
}

/// Removes the folder, and fails with the name and the place of the row that ended otherwise.
pub(crate) fn end(
    rt: &HostRuntime,
    folder: &str,
    held: Result<bool, Fail>,
    name: &str,
    place: usize,
) -> Result<(), Fail> {
    let removed = fs::remove_dir_all(rt, folder);
    let is_so = held?;
    removed?;
    if is_so {
        Ok(())
    } else {
        Err(Fail::new(format_args!("{name} {place}")))
    }
}
