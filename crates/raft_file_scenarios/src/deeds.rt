//! What another program does in the folder of a test, and what it finds there.

use std::fs::{self, DirEntry};
use std::os::unix::fs::symlink;

/// What another program does at a path of the folder, or finds there.
#[derive(Clone, Copy)]
pub(crate) enum Deed {
    /// Makes a folder.
    Folder,
    /// Writes a file.
    File(&'static [u8]),
    /// Deletes the file.
    Lose,
    /// Makes a link to this text.
    Link(&'static str),
    /// Makes a second name (hard link) of the file at this path.
    Name(&'static str),
    /// Makes the folder writable or read-only.
    Writable(bool),
    /// Finds a file of these bytes, or nothing.
    Has(Option<&'static [u8]>),
    /// Finds these names with the texts of the files, in order, except the file of the first name.
    Stands(&'static str, &'static [&'static str]),
}

/// The path of a name in a folder.
pub(crate) fn place_in(rt: &HostRuntime, folder: &str, path: &str) -> Option<String> {
    format!(in rt.alloc(); "{folder}/{path}").ok()
}

fn names_again(rt: &HostRuntime, folder: &str, path: &str, second: &str) -> bool {
    match place_in(rt, folder, path) {
        Some(place) => fs::hard_link(rt, place.as_str(), second).is_ok(),
        None => false,
    }
}

fn sets_writable(rt: &HostRuntime, place: &str, writable: bool) -> bool {
    match fs::metadata(rt, place) {
        Ok(found) => {
            let mut permissions = found.permissions();
            permissions.set_readonly(!writable);
            fs::set_permissions(rt, place, permissions).is_ok()
        }
        Err(_) => false,
    }
}

fn has_bytes(rt: &HostRuntime, place: &str, wanted: &[u8]) -> bool {
    match fs::read(rt, place) {
        Ok(bytes) => bytes.as_slice() == wanted,
        Err(_) => false,
    }
}

fn adds(lines: &mut Vec<String>, line: Option<String>) -> bool {
    match line {
        Some(line) => lines.push(line).is_ok(),
        None => false,
    }
}

fn adds_entry(
    rt: &HostRuntime,
    entry: &DirEntry,
    passed_over: &str,
    lines: &mut Vec<String>,
) -> bool {
    let name = entry.file_name();
    match entry.metadata() {
        Ok(found) if !found.is_file() => adds(lines, format!(in rt.alloc(); "{name}").ok()),
        Ok(_) if name == passed_over => true,
        Ok(_) => match fs::read_to_string(rt, entry.path()) {
            Ok(text) => adds(lines, format!(in rt.alloc(); "{name}: {text}").ok()),
            Err(_) => false,
        },
        Err(_) => false,
    }
}

// The names in a folder with the texts of the files, except the file of one name.
fn standing(rt: &HostRuntime, folder: &str, passed_over: &str) -> Option<Vec<String>> {
    let Ok(entries) = fs::read_dir(rt, folder) else {
        return None;
    };
    let mut lines = Vec::new(rt.alloc());
    for entry in entries {
        let is_added = match entry {
            Ok(entry) => adds_entry(rt, &entry, passed_over, &mut lines),
            Err(_) => false,
        };
        if !is_added {
            return None;
        }
    }
    if lines.sort().is_ok() {
        Some(lines)
    } else {
        None
    }
}

fn are_lines(lines: &[String], wanted: &[&str]) -> bool {
    for (line, wanted) in lines.iter().zip(wanted) {
        if line.as_str() != *wanted {
            return false;
        }
    }
    lines.len() == wanted.len()
}

fn is_done(rt: &HostRuntime, folder: &str, place: &str, deed: &Deed) -> bool {
    match deed {
        Deed::Folder => fs::create_dir(rt, place).is_ok(),
        Deed::File(bytes) => fs::write(rt, place, *bytes).is_ok(),
        Deed::Lose => fs::remove_file(rt, place).is_ok(),
        Deed::Link(to) => symlink(rt, to, place).is_ok(),
        Deed::Name(path) => names_again(rt, folder, path, place),
        Deed::Writable(writable) => sets_writable(rt, place, *writable),
        Deed::Has(Some(bytes)) => has_bytes(rt, place, bytes),
        Deed::Has(None) => matches!(fs::exists(rt, place), Ok(false)),
        Deed::Stands(passed_over, wanted) => match standing(rt, place, passed_over) {
            Some(lines) => are_lines(&lines, wanted),
            None => false,
        },
    }
}

/// Whether the deed at a path in the folder succeeds, or finds what it says.
pub(crate) fn does(rt: &HostRuntime, folder: &str, path: &str, deed: &Deed) -> bool {
    match place_in(rt, folder, path) {
        Some(place) => is_done(rt, folder, place.as_str(), deed),
        None => false,
    }
}
