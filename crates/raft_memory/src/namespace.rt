//! The files and folders of a file system in memory.
ghost use Rattle.std.specs.Prelude.{◌≡◌, ◌≢◌, ◌⊎◌, ◌≤◌, ◌<◌, ◌+◌, ◌^◌, length, take, map, OnOk, OnErr, IfOk, IfErr};
ghost use Rattle.std.specs.String.{string_bytes};
ghost use Rattle.raft_env.specs.Outcomes.{file_after_write, file_after_resize, synced_of, renamed_of, overlay, pad_to};
ghost use Rattle.raft_env.specs.Directory.{update_file, after_create, after_rename, without_file, folder_made, names_in};
ghost use Rattle.raft_memory.specs.Refused.{HasNoFolder, HasNoPlace, IsAbsent, IsBarred, IsMissing};

use crate::memory_file::MemoryFile;
use raft_env::{FsFault, IoKind, is_on_way, name_in, parent};
use std::alloc::Global;
use std::collections::BTreeMap;

pub(crate) type Files = BTreeMap<String, MemoryFile>;

#[derive(Drop)]
pub(crate) struct Namespace {
    pub(crate) files: Files,
    pub(crate) folders: Vec<String>,
    /// Room for the overwritten bytes of a file since its last sync: one file leaves it to the
    /// next.
    pub(crate) room: Vec<u8>,
}

impl Namespace {
    ghost use Rattle.raft_memory.specs.Files.{namespace_directory, folders_of};
    ghost use Rattle.raft_memory.specs.Memory.{no_files};

    pub(crate) fn new(alloc: Global) -> Namespace
        ensures value { namespace_directory result ≡ no_files }
    {
        Namespace {
            files: BTreeMap::new(alloc),
            folders: Vec::new(alloc),
            room: Vec::new(alloc),
        }
    }

    pub(crate) fn has_folder(&self, path: &str) -> bool
        ensures value { result ≡ folders_of self.now.folders.items path.now }
    {
        path.is_empty()
            || self
                .folders
                .iter()
                .any(|made| is_on_way(path, made.as_str()))
    }

    /// If the path has a file, that file stays.
    pub(crate) fn create(&mut self, alloc: Global, path: &str) -> Result<(), FsFault>
        ensures ok { OnOk result (namespace_directory self.new
            ≡ after_create path.now (namespace_directory self.old)) }
        ensures err { OnErr result (namespace_directory self.new ≡ namespace_directory self.old) }
        ensures cause { IfErr result (HasNoPlace (namespace_directory self.old) path.now) }
    {
        if self.files.contains_key(path) {
            return Ok(());
        }
        if self.has_folder(path) {
            return Err(FsFault::Io(IoKind::Other));
        }
        if !self.has_folder(parent(path)) {
            return Err(FsFault::Io(IoKind::NotFound));
        }
        self.files
            .insert(String::from_str(alloc, path)?, MemoryFile::new(alloc))?;
        Ok(())
    }

    pub(crate) fn make_folder(&mut self, alloc: Global, path: &str) -> Result<(), FsFault>
        ensures ok { OnOk result (namespace_directory self.new
            ≡ folder_made path.now (namespace_directory self.old)) }
        ensures err { OnErr result (namespace_directory self.new ≡ namespace_directory self.old) }
        ensures cause { IfErr result (IsBarred (namespace_directory self.old) path.now) }
    {
        if self.has_folder(path) {
            return Ok(());
        }
        if self.files.keys().any(|file| is_on_way(file.as_str(), path)) {
            return Err(FsFault::Io(IoKind::Other));
        }
        self.folders.push(String::from_str(alloc, path)?)?;
        Ok(())
    }
}

impl Namespace {
    ghost use Rattle.raft_memory.specs.Files.{namespace_directory, ChangesFile};

    #[inline(always)]
    pub(crate) fn write(
        &mut self,
        path: &str,
        at: usize,
        given: &[u8],
        kept: &[u8],
        is_done: bool,
    ) -> Result<(), FsFault>
        requires fits { at + length given.now < 2 ^ 63 }
        requires part { length kept.now ≤ length given.now }
        ensures { ChangesFile path.now (update_file path.now
            (λ f. file_after_write at given.now is_done (overlay f.now at kept.now) f))
            IsMissing result self.old self.new }
    {
        match self.files.get_mut(path) {
            Some(file) => {
                file.write(at, given, kept, is_done, &mut self.room)?;
                Ok(())
            }
            None => Err(FsFault::Io(IoKind::NotFound)),
        }
    }

    pub(crate) fn cut(&mut self, path: &str, size: usize) -> Result<(), FsFault>
        ensures { ChangesFile path.now (update_file path.now
            (λ f. file_after_resize (take size f.now) f)) IsMissing result self.old self.new }
    {
        match self.files.get_mut(path) {
            Some(file) => {
                file.cut(size, &mut self.room)?;
                Ok(())
            }
            None => Err(FsFault::Io(IoKind::NotFound)),
        }
    }

    pub(crate) fn lengthen(&mut self, path: &str, size: usize) -> Result<(), FsFault>
        requires { size < 2 ^ 63 }
        ensures { ChangesFile path.now (update_file path.now
            (λ f. file_after_resize (pad_to f.now size) f)) IsMissing result self.old self.new }
    {
        match self.files.get_mut(path) {
            Some(file) => {
                file.lengthen(size)?;
                Ok(())
            }
            None => Err(FsFault::Io(IoKind::NotFound)),
        }
    }

    pub(crate) fn sync(&mut self, path: &str) -> Result<(), FsFault>
        ensures { ChangesFile path.now (update_file path.now synced_of) IsAbsent result self.old
            self.new }
    {
        match self.files.get_mut(path) {
            Some(file) => {
                file.sync(&mut self.room);
                Ok(())
            }
            None => Err(FsFault::Io(IoKind::NotFound)),
        }
    }

    pub(crate) fn names(&self, alloc: Global, folder: &str) -> Result<Vec<String>, FsFault>
        ensures value { IfOk result (λ names. map string_bytes names.items
            ≡ names_in folder.now (namespace_directory self.now)) }
        ensures cause { IfErr result (HasNoFolder (namespace_directory self.now) folder.now) }
    {
        if !self.has_folder(folder) {
            return Err(FsFault::Io(IoKind::NotFound));
        }
        let mut names = Vec::new(alloc);
        for path in self.files.keys() {
            if let Some(name) = name_in(folder, path.as_str()) {
                names.push(String::from_str(alloc, name)?)?;
            }
        }
        Ok(names)
    }
}

impl Namespace {
    ghost use Rattle.raft_memory.specs.Files.{ChangesFile};

    pub(crate) fn delete(&mut self, path: &str) -> Result<(), FsFault>
        ensures { ChangesFile path.now (without_file path.now) IsAbsent result self.old self.new }
    {
        if !self.files.contains_key(path) {
            return Err(FsFault::Io(IoKind::NotFound));
        }
        self.files.remove(path);
        Ok(())
    }

    /// Moves the file, without a copy of its bytes. A file at the other path is gone.
    pub(crate) fn rename(&mut self, alloc: Global, from: &str, to: &str) -> Result<(), FsFault>
        ensures { ChangesFile from.now (after_rename from.now to.now)
            (λ n path e. IsMissing n path e ⊎ HasNoPlace n to.now e) result self.old self.new }
    {
        if from == to {
            return self.rename_in_place(from);
        }
        if self.has_folder(to) {
            return Err(FsFault::Io(IoKind::Other));
        }
        if !self.has_folder(parent(to)) {
            return Err(FsFault::Io(IoKind::NotFound));
        }
        self.rename_apart(alloc, from, to)
    }

    fn rename_in_place(&mut self, path: &str) -> Result<(), FsFault>
        ensures { ChangesFile path.now (update_file path.now renamed_of) IsAbsent result self.old
            self.new }
    {
        match self.files.get_mut(path) {
            Some(file) => {
                file.rename();
                Ok(())
            }
            None => Err(FsFault::Io(IoKind::NotFound)),
        }
    }

    // An empty file makes room at the other path first, so nothing fails once the file is taken.
    fn rename_apart(&mut self, alloc: Global, from: &str, to: &str) -> Result<(), FsFault>
        requires { from.now ≢ to.now }
        ensures { ChangesFile from.now (after_rename from.now to.now) IsMissing result self.old
            self.new }
    {
        if !self.files.contains_key(from) {
            return Err(FsFault::Io(IoKind::NotFound));
        }
        let first = String::from_str(alloc, to)?;
        let second = String::from_str(alloc, to)?;
        self.files.insert(first, MemoryFile::new(alloc))?;
        let Some(mut file) = self.files.remove(from) else {
            unreachable!()
        };
        file.rename();
        let Ok(_) = self.files.insert(second, file) else {
            unreachable!()
        };
        Ok(())
    }
}
