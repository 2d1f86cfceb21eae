//! Forks that run out of memory. `raft_play` has those in which a call of storage fails.

use raft_env::FileSystem;
use raft_fork::{CopyDetails, fork};
use raft_memory::MemoryFileSystem;
use raft_records::{Fault, Fresh};
use raft_rows::store_in;
use raft_settings::read;
use raft_test_rows::{Config, Faulty};
use std::alloc::Global;
use std::test::Fail;

/// The paths and lengths of a log's files.
const SOURCE: [(&str, usize); 3] = [
    ("a/0000000000000003.raftlog", 97),
    ("a/0000000000000004.raftlog", 300_000),
    ("a/0000000000000001.rewrite", 0),
];

/// The settings of that log.
const SETTINGS: &str = "dir = \"a\"\nenable-log-recycle = false\n";

/// The outcome of a fork.
#[derive(Clone, Copy, PartialEq)]
enum Made {
    /// It copied all files.
    All,
    /// Memory ran out.
    NoMemory,
    Other,
}

fn made_of(forked: Result<CopyDetails, Fault>) -> Made {
    match &forked {
        Ok(details) if details.copied.len() == SOURCE.len() => Made::All,
        Err(Fault::Memory) => Made::NoMemory,
        _ => Made::Other,
    }
}

fn fork_to<F: FileSystem>(alloc: Global, source: &Config, files: &mut F, target: &str) -> Made {
    made_of(fork(alloc, source, files, target))
}

fn is_stored<F: FileSystem>(alloc: Global, files: &mut F, path: &str, len: usize) -> bool {
    match vec![in alloc; 7; len] {
        Ok(bytes) => store_in(files, "a", path, &[&bytes]).is_ok(),
        Err(_) => false,
    }
}

// Makes the source in new files. Returns whether there was memory.
fn renew<F: Faulty>(alloc: Global, files: &mut F) -> bool {
    *files = F::fresh(alloc);
    for (path, len) in &SOURCE {
        if !is_stored(alloc, files, path, *len) {
            return false;
        }
    }
    true
}

fn is_made_again<F: Faulty>(alloc: Global, source: &Config, files: &mut F) -> bool {
    let made = fork_to(alloc, source, files, "b");
    made == Made::All || (made == Made::NoMemory && fork_to(alloc, source, files, "c") == Made::All)
}

// Whether a fork succeeds. If the Nth request for memory is refused (`rt try --test --fail-alloc
// N`), the fork reports that, and a fork to another folder succeeds.
fn is_made<F: Faulty>(alloc: Global, mut files: F) -> Result<bool, Fault> {
    let source = read(alloc, SETTINGS)?;
    if renew(alloc, &mut files) {
        Ok(is_made_again(alloc, &source, &mut files))
    } else {
        Err(Fault::Memory)
    }
}

#[test]
fn a_fork_without_memory_is_made_again(rt: HostRuntime) -> Result<(), Fail> {
    assert!(rt; is_made(rt.alloc(), MemoryFileSystem::new(rt.alloc()))?);
    Ok(())
}

#[test]
fn details_begin_empty(rt: HostRuntime) -> Result<(), Fail> {
    let details = CopyDetails::fresh(rt.alloc());
    assert!(rt; details.copied.is_empty() && details.symlinked.is_empty());
    Ok(())
}
