//! Whether a path leads into a folder.

use std::fs;
use std::io::{self, ErrorKind};
use std::path::Path;

/// Whether a path, of which nothing need exist yet, is a folder's own or leads into it.
pub fn is_inside(rt: &HostRuntime, path: &str, folder: &str) -> io::Result<bool> {
    let outer = match fs::canonicalize(rt, folder) {
        Ok(outer) => outer,
        Err(e) if e.kind() == ErrorKind::NotFound => return Ok(false),
        Err(e) => return Err(e),
    };
    let mut place = Path::new(path);
    for _ in 0..=path.len() {
        let name = match place.as_str() {
            "" => ".",
            name => name,
        };
        match fs::canonicalize(rt, name) {
            Ok(found) => return Ok(found.starts_with(outer.as_path())),
            Err(e) if e.kind() == ErrorKind::NotFound => {}
            Err(e) => return Err(e),
        }
        let Some(parent) = place.parent() else {
            break;
        };
        place = parent;
    }
    Ok(false)
}
