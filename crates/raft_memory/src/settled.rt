//! Files in memory that are made of existing bytes.
ghost use Rattle.std.specs.Prelude.{◌≡◌, ◌-◌, ◌^◌, [], ◌∷◌, IfOk, None, false};
ghost use Rattle.raft_memory.specs.Files.{namespace_directory};
ghost use Rattle.raft_memory.specs.Settled.{settled_files};

use crate::armed::Armed;
use crate::memory::MemoryFileSystem;
use crate::memory_file::MemoryFile;
use crate::namespace::Namespace;
use crate::refusals::RefusalCount;
use raft_base::History;
use std::alloc::{AllocError, Global};
use std::collections::{BTreeMap, BTreeSet};

impl MemoryFileSystem {
    ghost use Rattle.raft_memory.specs.Memory.{memory_directory, memory_free, memory_metadata, memory_moments, memory_refusals, armed_of, stop_of};
    ghost use Rattle.raft_env.specs.Refusal.{no_refusals};

    /// Files with these bytes by their paths, which a crash leaves as they are, and these folders
    /// with their parents. The bytes are moved, not copied. If a path occurs several times, its
    /// last file counts.
    pub fn settled(
        alloc: Global,
        files: Vec<(String, Vec<u8>)>,
        folders: Vec<String>,
    ) -> Result<MemoryFileSystem, AllocError>
        ensures value { IfOk result (λ m. memory_directory m
            ≡ settled_files files.items folders.items) }
        ensures any_moment { IfOk result (λ m. memory_moments m ≡ memory_directory m ∷ []) }
        ensures counts { IfOk result (λ m. memory_refusals m ≡ no_refusals) }
        ensures free { IfOk result (λ m. memory_free m ≡ λ _. 2 ^ 64 - 1) }
        ensures metadata { IfOk result (λ m. memory_metadata m ≡ λ _. false) }
        ensures others { IfOk result (λ m. (armed_of m ≡ []) × (stop_of m ≡ None)) }
    {
        Ok(MemoryFileSystem {
            alloc,
            namespace: Namespace::settled(alloc, files, folders)?,
            past: History::new(),
            refusals: RefusalCount::new(),
            armed: Armed::new(alloc),
            free: BTreeMap::new(alloc),
            metadata: BTreeSet::new(alloc),
        })
    }
}

impl Namespace {
    fn settled(
        alloc: Global,
        files: Vec<(String, Vec<u8>)>,
        folders: Vec<String>,
    ) -> Result<Namespace, AllocError>
        ensures value { IfOk result (λ n. namespace_directory n
            ≡ settled_files files.items folders.items) }
    {
        let mut placed = BTreeMap::new(alloc);
        for (path, bytes) in files {
            placed.insert(path, MemoryFile::restarted(alloc, bytes))?;
        }
        Ok(Namespace {
            files: placed,
            folders,
            room: Vec::new(alloc),
        })
    }
}
