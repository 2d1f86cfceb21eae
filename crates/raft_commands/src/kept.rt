//! Files beside a log's files, which keep the bytes that an opening takes out. No existing file is
//! written over.

use anyhow::{Result, anyhow};
use raft_console::check_len;
use std::fmt::Display;
use std::fs::{self, File};
use std::io::{self, ErrorKind, Write};

/// Makes a file of these bytes in a folder, under a name that nothing has, and syncs it. It returns
/// the name, which the file gets once all its bytes are there.
pub(crate) fn keep(rt: &HostRuntime, folder: &str, name: &str, bytes: &[u8]) -> Result<String> {
    let free = free_name(rt, folder, name)?;
    let place = format!(in rt.alloc(); "{folder}/{free}")?;
    keep_at(rt, place.as_str(), bytes)?;
    Ok(free)
}

fn keep_at(rt: &HostRuntime, place: &str, bytes: &[u8]) -> Result<()> {
    if let Err(error) = check_len(rt, bytes.len() as u64) {
        return Err(unkept(place, &error));
    }
    let part = format!(in rt.alloc(); "{place}.part")?;
    match fill(rt, part.as_str(), place, bytes) {
        Ok(()) => Ok(()),
        Err(e) => {
            let _ = fs::remove_file(rt, part.as_str());
            Err(unkept(place, &e))
        }
    }
}

fn unkept<E: Display>(place: &str, error: &E) -> anyhow::Error {
    anyhow!("{error}; `--no-keep` continues without it").context(anyhow!(
        "what is cut off cannot be kept: {place}"
    ))
}

/// A name like this one in a folder, that nothing has.
pub(crate) fn free_name(rt: &HostRuntime, folder: &str, name: &str) -> Result<String> {
    for turn in 1..=u64::MAX {
        let free = turned(rt, name, turn)?;
        let place = format!(in rt.alloc(); "{folder}/{free}")?;
        match fs::symlink_metadata(rt, place.as_str()) {
            Ok(_) => {}
            Err(e) if e.kind() == ErrorKind::NotFound => return Ok(free),
            Err(e) => return Err(anyhow!("{place}: {e}")),
        }
    }
    Err(anyhow!("{folder}/{name}: no name is free"))
}

// The name itself, and then with a number after it.
fn turned(rt: &HostRuntime, name: &str, turn: u64) -> Result<String> {
    if turn == 1 {
        return Ok(String::from_str(rt.alloc(), name)?);
    }
    Ok(format!(in rt.alloc(); "{name}.{turn}")?)
}

// What a crash left of the part is overwritten. The name survives a crash too.
fn fill(rt: &HostRuntime, part: &str, place: &str, bytes: &[u8]) -> io::Result<()> {
    let mut file = File::create(rt, part)?;
    file.write_all(bytes)?;
    file.sync_all()?;
    fs::rename(rt, part, place)?;
    match place.rsplit_once('/') {
        Some((folder, _)) => File::open(rt, folder)?.sync_all(),
        None => Ok(()),
    }
}
