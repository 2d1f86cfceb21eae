//! What is found before a log is opened.
ghost use Rattle.std.specs.Prelude.{◌≡◌, ◌++◌, ◌∷◌, [], OnErr, OnOk, if◌then◌else◌, is_ok, map, pos};
ghost use Rattle.std.specs.String.{string_bytes};
ghost use Rattle.raft_c.specs.Found.{IsFoundBy, listed};

use std::alloc::{AllocError, Global};

/// The code of a path that is no text.
const INVALID: i32 = 1;

/// The code of a want of memory.
pub(crate) const NO_MEMORY: i32 = 12;

/// What is found at a path.
#[derive(Clone, Copy)]
pub(crate) enum Found<'a> {
    File(&'a [u8]),
    Folder,
}

/// What was found in a folder, by its paths from there.
#[derive(Drop)]
pub struct Loading {
    pub(crate) files: Vec<(String, Vec<u8>)>,
    pub(crate) folders: Vec<String>,
}

impl Loading {
    pub(crate) fn new(alloc: Global) -> Loading
        ensures value { (result.files.items ≡ []) × (result.folders.items ≡ []) }
    {
        Loading {
            files: Vec::new(alloc),
            folders: Vec::new(alloc),
        }
    }

    /// Adds the file or folder that was found at a path, and returns a code.
    pub(crate) fn add(&mut self, alloc: Global, path: &[u8], found: Found<'_>) -> i32
        ensures value { IsFoundBy path.now found.entry result self.old self.new }
    {
        let Ok(path) = str::from_utf8(path) else {
            return INVALID;
        };
        match found {
            Found::File(bytes) => code_of(self.add_file(alloc, path, bytes)),
            Found::Folder => code_of(self.add_folder(alloc, path)),
        }
    }

    fn add_file(&mut self, alloc: Global, path: &str, bytes: &[u8]) -> Result<(), AllocError>
        ensures ok { OnOk result (listed self.new.files.items
            ≡ listed self.old.files.items ++ (path.now, bytes.now) ∷ []) }
        ensures err { OnErr result (self.new.files.items ≡ self.old.files.items) }
        ensures folders { self.new.folders ≡ self.old.folders }
    {
        let path = String::from_str(alloc, path)?;
        let mut copy = Vec::with_capacity(alloc, bytes.len())?;
        copy.extend_from_slice(bytes)?;
        self.files.push((path, copy))?;
        Ok(())
    }

    fn add_folder(&mut self, alloc: Global, path: &str) -> Result<(), AllocError>
        ensures ok { OnOk result (map string_bytes self.new.folders.items
            ≡ map string_bytes self.old.folders.items ++ path.now ∷ []) }
        ensures err { OnErr result (self.new.folders.items ≡ self.old.folders.items) }
        ensures files { self.new.files ≡ self.old.files }
    {
        self.folders.push(String::from_str(alloc, path)?)?;
        Ok(())
    }
}

fn code_of(added: Result<(), AllocError>) -> i32
    ensures value { result ≡ (if is_ok added then pos 0 else pos 12) }
{
    match added {
        Ok(()) => 0,
        Err(_) => NO_MEMORY,
    }
}
