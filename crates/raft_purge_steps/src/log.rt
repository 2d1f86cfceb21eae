//! The state of a log.
use crate::log_store::LogStore;
use raft_entry_blocks::BlockCache;
use raft_env::FileSystem;
use raft_tables::{GlobalStats, GroupsMet, MemTables, OwedMarks};

/// The state of a log: its queues and their files, the blocks that were read last, and an index of
/// the entries and values. Its owner takes it apart.
pub struct Log<F: FileSystem> {
    /// Both queues, and the file system of their files.
    pub store: LogStore<F>,
    /// The blocks that were read last.
    pub cache: BlockCache,
    /// The entries and values of each group, by their places.
    pub tables: MemTables,
    /// Marks of removals that the Rewrite queue still lacks.
    pub owed: OwedMarks,
    /// Counters of the entries in the Rewrite queue.
    pub stats: GlobalStats,
    /// What is known of the atomic groups in the Rewrite queue.
    pub groups: GroupsMet,
}
