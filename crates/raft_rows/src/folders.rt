//! Folders of the operating system.

use std::{env, fs, io, process};

/// Makes an empty folder of this name below that for temporary files, which no other process has.
pub fn temp_folder(rt: &HostRuntime, name: &str) -> io::Result<String> {
    let id = process::id(rt.process());
    let base = env::temp_dir(rt)?;
    let folder = format!(in rt.alloc(); "{}/raft-{id}-{name}", base.as_str())?;
    // an earlier process of the same number may have been killed and have left the folder
    if fs::exists(rt, folder.as_str())? {
        fs::remove_dir_all(rt, folder.as_str())?;
    }
    fs::create_dir(rt, folder.as_str())?;
    Ok(folder)
}
