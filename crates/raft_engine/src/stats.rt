//! What a log in a folder has done: the counts that `raftlog_stats` has in C, in one struct.
ghost use Rattle.std.specs.Prelude.{◌≡◌, ◌-◌, ◌^◌, min, suc};

use raft_disk::{DiskCounts, DiskFileSystem};
use raft_log_engine::{CacheCounts, Engine};
use std::time::Duration;

/// Calls of a log, which the program counts that makes them.
#[derive(Clone, Copy, Debug, PartialEq, Eq)]
pub struct CallCounts {
    /// Batches that were written.
    pub batches: u64,
    /// Purges that were carried out, with the time of all and of the longest in nanoseconds.
    pub purges: u64,
    pub purge_ns: u64,
    pub longest_purge_ns: u64,
}

impl CallCounts {
    /// The counts before the first call.
    pub const NONE: CallCounts = CallCounts {
        batches: 0,
        purges: 0,
        purge_ns: 0,
        longest_purge_ns: 0,
    };

    /// A batch was written.
    pub fn add_batch(&mut self)
        ensures value { self.new.batches ≡ min (suc self.old.batches) (2 ^ 64 - 1) }
        ensures others { (self.new.purges ≡ self.old.purges)
            × (self.new.purge_ns ≡ self.old.purge_ns)
            × (self.new.longest_purge_ns ≡ self.old.longest_purge_ns) }
    {
        self.batches = self.batches.saturating_add(1);
    }

    /// A purge was carried out in this time.
    pub fn add_purge(&mut self, time: Duration)
        ensures value { self.new.purges ≡ min (suc self.old.purges) (2 ^ 64 - 1) }
        ensures others { self.new.batches ≡ self.old.batches }
    {
        let nanoseconds = u64::try_from(time.as_nanos()).unwrap_or(u64::MAX);
        self.purges = self.purges.saturating_add(1);
        self.purge_ns = self.purge_ns.saturating_add(nanoseconds);
        self.longest_purge_ns = self.longest_purge_ns.max(nanoseconds);
    }
}

/// What a log in a folder has done since the folder was opened.
#[derive(Clone, Copy, Debug, PartialEq, Eq)]
pub struct Stats {
    pub calls: CallCounts,
    /// Calls of the system on the log's files, and the files now.
    pub disk: DiskCounts,
    /// Reads of an entry that found its block in memory, and reads that read the block.
    pub blocks: CacheCounts,
    /// Bytes of memory that the index takes, without the bytes of keys and values.
    pub index_bytes: u64,
}

impl Stats {
    /// The counts of a running engine. It takes one step for each known group, and no file call. For
    /// a shared engine: `Stats::of(shared.engine(), calls)`, or
    /// `Stats::of(tickets.desk(&rt).shared().engine(), calls)`.
    pub fn of(engine: &Engine<DiskFileSystem>, calls: CallCounts) -> Stats
        ensures calls { result.calls ≡ calls }
    {
        Stats {
            calls,
            disk: engine.file_system().counts(),
            blocks: engine.cache_counts(),
            index_bytes: engine.index_memory(),
        }
    }
}
