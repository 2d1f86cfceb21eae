//! Changes of names in a folder, each with the notes before and after it, and counted. No clause
//! says what the system did: this file is to be read.
ghost use Rattle.std.specs.Prelude.{◌≡◌};

use crate::folder::Folder;
use crate::places::{make_folders, sync_folder};
use raft_env::parent;
use std::fs::{self, OpenOptions};
use std::io;

impl Folder {
    ghost use Rattle.raft_disk.specs.Folder.{told_of};

    fn make_file(&self, path: &str) -> io::Result<()> {
        let place = self.place(path)?;
        let mut options = OpenOptions::new();
        options.read(true).write(true).create(true);
        options.open(&self.rt, place.as_str())?;
        let folder = self.place(parent(path))?;
        sync_folder(&self.rt, folder.as_str())
    }

    pub(crate) fn remove_file(&self, path: &str) -> io::Result<()> {
        self.check_lock()?;
        let place = self.place(path)?;
        fs::remove_file(&self.rt, place.as_str())?;
        let folder = self.place(parent(path))?;
        sync_folder(&self.rt, folder.as_str())
    }

    fn rename_file(&self, from: &str, to: &str) -> io::Result<()> {
        let old = self.place(from)?;
        let new = self.place(to)?;
        fs::rename(&self.rt, old.as_str(), new.as_str())?;
        let folder = self.place(parent(to))?;
        sync_folder(&self.rt, folder.as_str())?;
        if parent(from) == parent(to) {
            return Ok(());
        }
        let folder = self.place(parent(from))?;
        sync_folder(&self.rt, folder.as_str())
    }

    // A file is made with the notes before and after it. None is written without the lock.
    pub(crate) fn add_file(&mut self, path: &str) -> io::Result<()>
        ensures told { told_of self.new ≡ told_of self.old }
    {
        self.check_lock()?;
        let is_new = !self.has_name(path)?;
        self.spans.replace(&self.rt, &self.root, path);
        self.make_file(path)?;
        self.spans.add(&self.rt, &self.root, path);
        self.counts.add_file(path, is_new);
        Ok(())
    }

    pub(crate) fn drop_file(&mut self, path: &str) -> io::Result<()>
        ensures told { told_of self.new ≡ told_of self.old }
    {
        self.check_lock()?;
        self.spans.delete(&self.rt, &self.root, path)?;
        self.remove_file(path)?;
        self.counts.add_deletion();
        Ok(())
    }

    pub(crate) fn move_file(&mut self, from: &str, to: &str) -> io::Result<()>
        ensures told { told_of self.new ≡ told_of self.old }
    {
        self.check_lock()?;
        let is_new = !self.has_name(to)?;
        self.spans.leave(&self.rt, &self.root, from)?;
        self.spans.replace(&self.rt, &self.root, to);
        self.rename_file(from, to)?;
        self.spans.add(&self.rt, &self.root, to);
        self.counts.add_renaming(to, is_new);
        Ok(())
    }

    pub(crate) fn make_folder(&self, path: &str) -> io::Result<()> {
        self.check_lock()?;
        let place = self.place(path)?;
        make_folders(&self.rt, place.as_str())
    }
}
