//! Calls on the files of a folder.

use raft_env::{FileSystem, FsFault, IoKind, Permission};

/// A call on the files of a folder.
#[derive(Clone, Copy)]
pub(crate) enum Call {
    MakeDir(&'static str),
    Create(&'static str),
    Delete(&'static str),
    Rename(&'static str, &'static str),
    /// Makes the writer that later calls use, for the file that has this path at that time.
    Writer(&'static str),
    Write(usize, &'static [u8]),
    Truncate(usize),
    Allocate(usize, usize),
    Sync,
}

fn change_names<F: FileSystem>(fs: &mut F, call: &Call) -> Result<(), FsFault> {
    match call {
        Call::MakeDir(path) => fs.make_dir(path),
        Call::Create(path) => {
            fs.create(path)?;
            Ok(())
        }
        Call::Delete(path) => fs.delete(path),
        Call::Rename(from, to) => fs.rename(from, to),
        _ => Ok(()),
    }
}

fn change_bytes<F: FileSystem>(
    fs: &mut F,
    writer: &mut F::Writer,
    call: &Call,
) -> Result<(), FsFault> {
    match call {
        Call::Write(at, bytes) => fs.write(writer, *at, bytes),
        Call::Truncate(size) => fs.truncate(writer, *size),
        Call::Allocate(at, size) => fs.allocate(writer, *at, *size),
        Call::Sync => fs.sync(writer),
        _ => change_names(fs, call),
    }
}

fn writer_of<F: FileSystem>(fs: &mut F, path: &str) -> Result<F::Writer, FsFault> {
    let handle = fs.open(path, Permission::ReadWrite)?;
    fs.new_writer(&handle)
}

fn make<F: FileSystem>(
    fs: &mut F,
    writer: &mut Option<F::Writer>,
    call: &Call,
) -> Result<(), FsFault> {
    if let Call::Writer(path) = call {
        *writer = Some(writer_of(fs, path)?);
        return Ok(());
    }
    match writer {
        Some(writer) => change_bytes(fs, writer, call),
        None => change_names(fs, call),
    }
}

/// Whether the call succeeds, or fails with this kind of fault.
pub(crate) fn is_made<F: FileSystem>(
    fs: &mut F,
    writer: &mut Option<F::Writer>,
    call: &Call,
    wanted: Option<IoKind>,
) -> bool {
    match make(fs, writer, call) {
        Ok(()) => wanted.is_none(),
        Err(FsFault::Io(kind)) => wanted == Some(kind),
        Err(FsFault::Memory) => false,
    }
}
