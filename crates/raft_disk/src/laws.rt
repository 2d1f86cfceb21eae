//! What the files of a mirror keep whose image is in memory, as a law without a body.
ghost use Rattle.raft_env.specs.Consistent.{AreConsistent, OnlyWritesFailedIn};
ghost use Rattle.raft_disk.specs.Mirror.{mirror_directory};

use crate::disk::Disk;
use crate::mirror::Mirror;
use raft_memory::MemoryFileSystem;

/// The files are consistent, and only writes failed among their changes, as for files in memory.
/// With that a law of an engine says when the damage of a crash is detectable.
pub fn files_are_consistent<D: Disk>(files: &Mirror<D, MemoryFileSystem>)
    ensures consistent { AreConsistent (mirror_directory files.now) }
    ensures only_writes { OnlyWritesFailedIn (mirror_directory files.now) }
{}
