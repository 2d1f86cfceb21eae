//! What an opening would be refused for, whatever its files hold: links, pipes and rights.

use anyhow::{Result, anyhow};
use raft_disk::{is_log_name, is_plain};
use raft_opening_plan::{Plan, Planner};
use std::alloc::{AllocError, Global};
use std::fs::{self, DirEntry, File, Metadata, OpenOptions};
use std::io::{self, ErrorKind};
use std::os::unix::fs::MetadataExt;

const LOCK: &str = "LOCK";

/// The note of which numbers the log's files have had.
pub(crate) const SPANS: &str = "SPANS";

/// The end of the name of a reserved file.
const RESERVED: &str = ".reserved";

/// The system's folder of this process, whose owner is the user as whom it runs.
const SELF: &str = "/proc/self";

/// Why a path is refused, and the command that mends it.
#[derive(Drop)]
pub(crate) struct Cause {
    pub text: String,
    pub mend: String,
}

/// What a file of the log's folder is.
#[derive(Clone, Copy, PartialEq, Eq)]
enum Role {
    Lock,
    Note,
    Log,
}

/// Looks at places of the system for what an opening is refused there.
#[derive(Clone, Copy)]
pub(crate) struct Places<'a> {
    pub rt: &'a HostRuntime,
    pub planner: Planner<'a>,
    /// Whether the opening reads reserved files.
    pub reads_reserved: bool,
    /// Whether a program has the log open to change it.
    pub is_in_use: bool,
}

impl Places<'_> {
    /// Adds what an opening would be refused for at the log's own files in its folder. It opens
    /// files to write and writes nothing.
    pub fn add_refused(&self, folder: &str, plan: &mut Plan) -> Result<()> {
        self.add_files(folder, &[Role::Lock, Role::Note, Role::Log], plan)
    }

    /// The same for the note of spans.
    pub fn add_refused_note(&self, folder: &str, plan: &mut Plan) -> Result<()> {
        self.add_files(folder, &[Role::Note], plan)
    }

    // Those of the files with these roles. A folder that does not exist has none.
    fn add_files(&self, folder: &str, roles: &[Role], plan: &mut Plan) -> Result<()> {
        let entries = match fs::read_dir(self.rt, folder) {
            Ok(entries) => entries,
            Err(e) if e.kind() == ErrorKind::NotFound => return Ok(()),
            Err(e) => return Err(anyhow!("{e}").context(folder)),
        };
        for entry in entries {
            match entry {
                Ok(entry) => self.add_entry(&entry, roles, plan)?,
                // No log file's.
                Err(e) if e.kind() == ErrorKind::InvalidFilename => {}
                Err(e) => return Err(anyhow!("{e}").context(folder)),
            }
        }
        Ok(())
    }

    /// The same for the second folder, by its path from the log's, and for those on the way to it.
    pub fn add_spill(&self, folder: &str, spill: &str, plan: &mut Plan) -> Result<()> {
        let alloc = self.rt.alloc();
        if !is_plain(spill) {
            let cause = "the second folder has no path of a folder below the log's";
            let item = self.planner.refused(spill, cause, String::new(alloc))?;
            return Ok(plan.items.push(item)?);
        }
        let mut place = String::from_str(alloc, folder)?;
        for part in spill.split('/') {
            place = format!(in alloc; "{place}/{part}")?;
            if is_link(self.rt, place.as_str()) {
                return Ok(self.add_link(place.as_str(), plan)?);
            }
            self.add_files(place.as_str(), &[Role::Log], plan)?;
        }
        Ok(())
    }

    fn add_link(&self, place: &str, plan: &mut Plan) -> Result<(), AllocError> {
        let cause = "the second folder is a link: put the folder itself there";
        let mend = self.mend_of_link(place)?;
        Ok(plan.items.push(self.planner.refused(place, cause, mend)?)?)
    }

    // Puts the folder to which a link leads in its place; nothing if it leads to no folder.
    fn mend_of_link(&self, place: &str) -> Result<String, AllocError> {
        let alloc = self.rt.alloc();
        let leads_to_folder = match fs::metadata(self.rt, place) {
            Ok(metadata) => metadata.is_dir(),
            Err(_) => false,
        };
        match fs::read_link(self.rt, place) {
            Ok(target) if leads_to_folder => {
                let folder = folder_at(alloc, place, target.as_str())?;
                self.planner.replace_link(place, folder.as_str())
            }
            _ => Ok(String::new(alloc)),
        }
    }

    fn add_entry(&self, entry: &DirEntry, roles: &[Role], plan: &mut Plan) -> Result<()> {
        let role = match role_of(entry.file_name()) {
            Some(role) if roles.contains(&role) => role,
            _ => return Ok(()),
        };
        let place = entry.path();
        let metadata = match role {
            // The lock may be a link to a file.
            Role::Lock => fs::metadata(self.rt, place.as_str()),
            _ => fs::symlink_metadata(self.rt, place.as_str()),
        };
        let cause = match metadata {
            Ok(metadata) if is_passed_over(&metadata, role) => None,
            Ok(metadata) => self.cause_of(place.as_str(), &metadata, role)?,
            // A writer deleted it.
            Err(_) => None,
        };
        if let Some(Cause { text, mend }) = cause {
            let item = self.planner.refused(place.as_str(), text.as_str(), mend)?;
            plan.items.push(item)?;
        }
        Ok(())
    }

    fn cause_of(
        &self,
        place: &str,
        metadata: &Metadata,
        role: Role,
    ) -> Result<Option<Cause>, AllocError> {
        let alloc = self.rt.alloc();
        if !metadata.is_file() {
            let text = match (role, metadata.is_symlink()) {
                (Role::Lock, _) => "the lock is no file",
                (_, true) => "a link in place of a log file",
                (_, false) => "neither a file nor a folder",
            };
            return Ok(Some(Cause {
                text: String::from_str(alloc, text)?,
                mend: self.planner.move_place(place, "aside")?,
            }));
        }
        if role == Role::Log && metadata.nlink() != 1 {
            let text = String::from_str(alloc, "the file has a second name")?;
            return Ok(Some(self.by_copy(place, text)?));
        }
        if !self.reads_reserved && place.ends_with(RESERVED) {
            return Ok(None);
        }
        match opened(self.rt, place) {
            Ok(()) => Ok(None),
            // A look works on what may not be written at all.
            Err(e) if e.kind() == ErrorKind::ReadOnlyFilesystem => Ok(None),
            // An opening goes on without a note.
            Err(e) if role == Role::Note && e.kind() != ErrorKind::PermissionDenied => Ok(None),
            Err(e) => Ok(Some(self.unopened(place, metadata.uid(), role, &e)?)),
        }
    }

    // Only the owner of a file gives rights to it; others put a copy in its place, if they can read
    // it. A second lock would let two programs write.
    fn unopened(
        &self,
        place: &str,
        owner: u32,
        role: Role,
        error: &io::Error,
    ) -> Result<Cause, AllocError> {
        let alloc = self.rt.alloc();
        if error.kind() != ErrorKind::PermissionDenied {
            return Ok(Cause {
                text: format!(in alloc; "{error}")?,
                mend: String::new(alloc),
            });
        }
        if is_user(self.rt, owner) {
            return Ok(Cause {
                text: format!(in alloc; "{error}")?,
                mend: self.planner.allow(place)?,
            });
        }
        let text = format!(in alloc; "{error}: its owner is user {owner}")?;
        if role != Role::Lock && File::open(self.rt, place).is_ok() {
            return self.by_copy(place, text);
        }
        Ok(Cause {
            text,
            mend: String::new(alloc),
        })
    }

    /// A copy is put in the place of a file. A program that has the log open would continue with
    /// the file itself.
    pub fn by_copy(&self, place: &str, text: String) -> Result<Cause, AllocError> {
        let alloc = self.rt.alloc();
        if self.is_in_use {
            return Ok(Cause {
                text: format!(in alloc;
                    "{text}; a program has the log open: stop it, and look again"
                )?,
                mend: String::new(alloc),
            });
        }
        let mend = self.planner.copy_over(place)?;
        Ok(Cause { text, mend })
    }
}

fn role_of(name: &str) -> Option<Role> {
    if name == LOCK {
        return Some(Role::Lock);
    }
    if name == SPANS {
        return Some(Role::Note);
    }
    is_log_name(name).then_some(Role::Log)
}

// Whether an opening passes over what has the name of a log file or of the note.
fn is_passed_over(metadata: &Metadata, role: Role) -> bool {
    match role {
        Role::Lock => false,
        Role::Note => !metadata.is_file() || metadata.nlink() != 1,
        Role::Log => metadata.is_dir(),
    }
}

// The path of a folder to which a link leads.
fn folder_at(alloc: Global, link: &str, target: &str) -> Result<String, AllocError> {
    match link.rsplit_once('/') {
        Some((folder, _)) if !target.starts_with('/') => format!(in alloc; "{folder}/{target}"),
        _ => String::from_str(alloc, target),
    }
}

// Whether this program runs as a user.
fn is_user(rt: &HostRuntime, user: u32) -> bool {
    match fs::metadata(rt, SELF) {
        Ok(metadata) => metadata.uid() == user,
        Err(_) => true,
    }
}

fn opened(rt: &HostRuntime, place: &str) -> io::Result<()> {
    let mut options = OpenOptions::new();
    options.read(true).write(true);
    options.open(rt, place)?;
    Ok(())
}

fn is_link(rt: &HostRuntime, path: &str) -> bool {
    match fs::symlink_metadata(rt, path) {
        Ok(metadata) => metadata.is_symlink(),
        Err(_) => false,
    }
}
