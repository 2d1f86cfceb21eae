//! What a crash leaves of a file system in memory.
ghost use Rattle.std.specs.Prelude.{◌≡◌, [], ◌∷◌, map, slice_index_or, IfOk, IfErr, OnOk, None};
ghost use Rattle.std.specs.String.{string_bytes};
ghost use Rattle.raft_env.specs.Outcomes.{MayLeave, synced_file};
ghost use Rattle.raft_env.specs.Directory.{Leaves, IsRestarted};
ghost use Rattle.raft_memory.specs.Choice.{bytes_by_choice, RefusesUnless};
ghost use Rattle.raft_memory.specs.Crashed.{Puts};
ghost use Rattle.raft_env.specs.Consistent.{AreConsistent, OnlyWritesFailedIn};

use crate::armed::Armed;
use crate::memory::MemoryFileSystem;
use crate::memory_file::MemoryFile;
use crate::namespace::{Files, Namespace};
use crate::refusals::RefusalCount;
use raft_base::{Fault, History};
use std::alloc::{AllocError, Global};
use std::collections::BTreeMap;

/// What a crash leaves of a file.
#[derive(Drop)]
pub enum Choice {
    /// The bytes now.
    All,
    /// The bytes of the last sync.
    Synced,
    /// The bytes now, except in the places that were touched since the last sync: only so many of
    /// these, the first ones, hold them; the others hold the byte.
    Torn(usize, u8),
    /// These bytes.
    Bytes(Vec<u8>),
}

impl MemoryFileSystem {
    ghost use Rattle.raft_memory.specs.Choice.{left_by, RefusesUnless};
    ghost use Rattle.raft_memory.specs.Memory.{memory_directory, memory_free, memory_metadata, memory_moments, memory_refusals, armed_of, stop_of};
    ghost use Rattle.raft_env.specs.Refusal.{no_refusals};

    /// The files after a crash now. The choices go to the files in the order of their paths' bytes,
    /// and a file without a choice keeps its synced bytes. Folders stay, and so do free space and
    /// metadata. The files are consistent, and of their changes only writes failed. So by
    /// `raft_queue_laws::damage::premise_can_be_met` the damage of `All` and `Synced` is detectable
    /// in a log that `raft_files::completed_laws::failed_calls_add_no_record` keeps, and that of
    /// `Torn` if the torn record does not decode.
    pub fn crash(&self, choices: &[Choice]) -> Result<MemoryFileSystem, Fault>
        ensures ok { IfOk result (λ m. IsRestarted (memory_directory self.now)
            (left_by choices.now (memory_directory self.now)) (memory_directory m)) }
        ensures any_moment { IfOk result (λ m. memory_moments m ≡ memory_directory m ∷ []) }
        ensures counts { IfOk result (λ m. memory_refusals m ≡ no_refusals) }
        ensures free { IfOk result (λ m. memory_free m ≡ memory_free self.now) }
        ensures metadata { IfOk result (λ m. memory_metadata m ≡ memory_metadata self.now) }
        ensures others { IfOk result (λ m. (armed_of m ≡ []) × (stop_of m ≡ None)) }
        ensures consistent { AreConsistent (memory_directory self.now) }
        ensures only_writes { OnlyWritesFailedIn (memory_directory self.now) }
        ensures value { OnOk result (Leaves (memory_directory self.now)
            (left_by choices.now (memory_directory self.now))) }
        ensures cause { IfErr result (RefusesUnless
            (Leaves (memory_directory self.now)
            (left_by choices.now (memory_directory self.now)))) }
    {
        Ok(MemoryFileSystem {
            alloc: self.alloc,
            namespace: self.namespace.crashed(self.alloc, choices)?,
            past: History::new(),
            refusals: RefusalCount::new(),
            armed: Armed::new(self.alloc),
            free: self.free.clone()?,
            metadata: self.metadata.clone()?,
        })
    }
}

impl Namespace {
    ghost use Rattle.raft_memory.specs.Choice.{left_by, RefusesUnless};
    ghost use Rattle.raft_memory.specs.Files.{namespace_directory};

    fn crashed(&self, alloc: Global, choices: &[Choice]) -> Result<Namespace, Fault>
        ensures ok { IfOk result (λ t. IsRestarted (namespace_directory self.now)
            (left_by choices.now (namespace_directory self.now)) (namespace_directory t)) }
        ensures crash { OnOk result (Leaves (namespace_directory self.now)
            (left_by choices.now (namespace_directory self.now))) }
        ensures cause { IfErr result (RefusesUnless
            (Leaves (namespace_directory self.now)
            (left_by choices.now (namespace_directory self.now)))) }
    {
        let folders = copies_of(alloc, &self.folders)?;
        let mut files = BTreeMap::new(alloc);
        let synced = Choice::Synced;
        let mut turn = 0;
        for (path, file) in self.files.iter() {
            put_left(
                alloc,
                &mut files,
                path.as_str(),
                file,
                choice_at(choices, turn, &synced),
            )?;
            turn += 1;
        }
        Ok(Namespace {
            files,
            folders,
            room: Vec::new(alloc),
        })
    }
}

// Puts what the choice leaves of a file at its path.
fn put_left(
    alloc: Global,
    files: &mut Files,
    path: &str,
    file: &MemoryFile,
    choice: &Choice,
) -> Result<(), Fault>
    ensures ok { OnOk result (Puts files.old files.new path.now
        (synced_file (bytes_by_choice choice.now file.now))) }
    ensures crash { OnOk result (MayLeave file.now (bytes_by_choice choice.now file.now)) }
    ensures cause { IfErr result (RefusesUnless
        (MayLeave file.now (bytes_by_choice choice.now file.now))) }
{
    let left = file.left(alloc, choice)?;
    let key = String::from_str(alloc, path)?;
    files.insert(key, MemoryFile::restarted(alloc, left))?;
    Ok(())
}

fn choice_at<'a>(choices: &'a [Choice], turn: usize, left_over: &'a Choice) -> &'a Choice
    ensures { result.now ≡ slice_index_or choices.now turn left_over.now }
{
    match choices.get(turn) {
        Some(choice) => choice,
        None => left_over,
    }
}

fn copies_of(alloc: Global, texts: &[String]) -> Result<Vec<String>, AllocError>
    ensures { IfOk result (λ copies. map string_bytes copies.items ≡ map string_bytes texts.now) }
{
    let mut copies = Vec::new(alloc);
    for text in texts {
        copies.push(text.clone()?)?;
    }
    Ok(copies)
}
