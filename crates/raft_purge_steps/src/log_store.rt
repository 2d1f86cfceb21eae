//! Both queues of a log, and the file system of their files.
use raft_env::FileSystem;
use raft_queues::DualPipes;

/// The queues with the file system of their files. Its owner takes it apart.
pub struct LogStore<F: FileSystem> {
    pub pipes: DualPipes<F>,
    pub file_system: F,
}
