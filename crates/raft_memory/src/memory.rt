//! A file system in memory. Its earlier states are kept only for clauses.
ghost use Rattle.std.specs.Prelude.{◌≡◌, ◌-◌, ◌^◌, [], ◌∷◌, None, OnErr, OnOk, false, true};
ghost use Rattle.std.proofs.Props.{props};
ghost use Rattle.raft_env.specs.Consistent.{AreConsistent, OnlyWritesFailedIn, past_prop};
ghost use Rattle.raft_memory.specs.Files.{namespace_directory};

use crate::armed::Armed;
use crate::namespace::Namespace;
use crate::refusals::RefusalCount;
use raft_base::History;
use std::alloc::{AllocError, Global};
use std::collections::{BTreeMap, BTreeSet};

/// Files by their paths, in memory. It shows its files as `memory_directory` and its moments as
/// `memory_moments`.
pub struct MemoryFileSystem {
    pub(crate) alloc: Global,
    pub(crate) namespace: Namespace,
    pub(crate) past: History<Namespace>,
    pub(crate) refusals: RefusalCount,
    pub(crate) armed: Armed,
    // The free space of folders that were given one.
    pub(crate) free: BTreeMap<String, u64>,
    // The paths that have metadata.
    pub(crate) metadata: BTreeSet<String>,
    ghost consistent: { AreConsistent (namespace_directory namespace) } by { Prim.hlevel (props, past_prop) },
    ghost only_writes: { OnlyWritesFailedIn
        (namespace_directory namespace) } by { Prim.hlevel props },
}

// One call in a proof that drops it; derived, it would be one of each field (docs/DECISIONS.md).
impl Drop for MemoryFileSystem {
    fn drop(self) {
        let MemoryFileSystem {
            alloc: _,
            namespace: _namespace,
            past: _past,
            refusals: _refusals,
            armed: _armed,
            free: _free,
            metadata: _metadata,
        } = self;
    }
}

impl MemoryFileSystem {
    ghost use Rattle.raft_memory.specs.Memory.{memory_directory, memory_free, memory_metadata, memory_moments, memory_refusals, armed_of, stop_of, no_files};
    ghost use Rattle.raft_env.specs.Refusal.{no_refusals};

    pub fn new(alloc: Global) -> MemoryFileSystem
        ensures value { memory_directory result ≡ no_files }
        ensures any_moment { memory_moments result ≡ no_files ∷ [] }
        ensures counts { memory_refusals result ≡ no_refusals }
        ensures free { memory_free result ≡ λ _. 2 ^ 64 - 1 }
        ensures metadata { memory_metadata result ≡ λ _. false }
        ensures others { (armed_of result ≡ []) × (stop_of result ≡ None) }
    {
        MemoryFileSystem {
            alloc,
            namespace: Namespace::new(alloc),
            past: History::new(),
            refusals: RefusalCount::new(),
            armed: Armed::new(alloc),
            free: BTreeMap::new(alloc),
            metadata: BTreeSet::new(alloc),
        }
    }
}

impl MemoryFileSystem {
    ghost use Rattle.raft_memory.specs.Memory.{memory_directory, memory_free, memory_metadata, memory_moments, memory_refusals, armed_of, set_at, stop_of};

    /// Gives a folder so many bytes of free space. Writes do not use them up.
    pub fn set_free(&mut self, dir: &str, bytes: u64) -> Result<(), AllocError>
        ensures ok { OnOk result (memory_free self.new ≡ set_at dir.now bytes
            (memory_free self.old)) }
        ensures err { OnErr result (memory_free self.new ≡ memory_free self.old) }
        ensures metadata { memory_metadata self.new ≡ memory_metadata self.old }
        ensures unchanged { memory_directory self.new ≡ memory_directory self.old }
        ensures any_moment { memory_moments self.new ≡ memory_moments self.old }
        ensures counts { memory_refusals self.new ≡ memory_refusals self.old }
        ensures others { (armed_of self.new ≡ armed_of self.old)
            × (stop_of self.new ≡ stop_of self.old) }
    {
        let key = String::from_str(self.alloc, dir)?;
        self.free.insert(key, bytes)?;
        Ok(())
    }

    /// Gives a path metadata, whether or not a file exists there.
    pub fn set_metadata(&mut self, path: &str) -> Result<(), AllocError>
        ensures ok { OnOk result (memory_metadata self.new ≡ set_at path.now true
            (memory_metadata self.old)) }
        ensures err { OnErr result (memory_metadata self.new ≡ memory_metadata self.old) }
        ensures free { memory_free self.new ≡ memory_free self.old }
        ensures unchanged { memory_directory self.new ≡ memory_directory self.old }
        ensures any_moment { memory_moments self.new ≡ memory_moments self.old }
        ensures counts { memory_refusals self.new ≡ memory_refusals self.old }
        ensures others { (armed_of self.new ≡ armed_of self.old)
            × (stop_of self.new ≡ stop_of self.old) }
    {
        let key = String::from_str(self.alloc, path)?;
        self.metadata.insert(key)?;
        Ok(())
    }
}
