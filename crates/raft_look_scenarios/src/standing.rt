//! The files of a folder.

use std::fs::{self, DirEntry};
use std::io;
use std::test::Fail;

fn add_file(
    rt: &HostRuntime,
    entry: &DirEntry,
    found: &mut Vec<(String, Vec<u8>)>,
) -> Result<(), Fail> {
    if !fs::metadata(rt, entry.path())?.is_file() {
        return Ok(());
    }
    let name = String::from_str(rt.alloc(), entry.file_name())?;
    found.push((name, fs::read(rt, entry.path())?))?;
    Ok(())
}

/// The names of the files in the folder, each with its bytes.
pub(crate) fn standing(rt: &HostRuntime, folder: &str) -> Result<Vec<(String, Vec<u8>)>, Fail> {
    let mut found = Vec::new(rt.alloc());
    for entry in fs::read_dir(rt, folder)? {
        let entry = entry?;
        add_file(rt, &entry, &mut found)?;
    }
    found.sort()?;
    Ok(found)
}

pub(crate) fn set_writable(rt: &HostRuntime, folder: &str, writable: bool) -> io::Result<()> {
    let mut permissions = fs::metadata(rt, folder)?.permissions();
    permissions.set_readonly(!writable);
    fs::set_permissions(rt, folder, permissions)
}
