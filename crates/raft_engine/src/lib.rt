//! All names of the log that a program needs, in one crate and in the modules of upstream. Only
//! `stats` is its own code.
#![tactic(auto)]

pub mod stats;

/// Settings, and settings from text and as text.
pub mod config {
    pub use raft_config::{Config, RecoveryMode};
    pub use raft_settings::{read, with_table, with_text, write};
}

/// Files: the contract of storage, files in memory that fail and crash, and a folder.
pub mod env {
    pub use raft_disk::{
        DiskCounts, DiskFileSystem, OpenFault, Span, SpanNote, SpanReport, SpanReports, Spans,
        TIMES,
    };
    pub use raft_env::{FileSystem, FsFault, IoKind, Permission};
    pub use raft_memory::{Choice, FsCall, MemoryFileSystem};
}

/// Whether the entries of each group follow one another.
pub mod consistency {
    pub use raft_consistency::{
        ConsistencyChecker, consistency_check, consistency_check_with_file_system,
    };
}

/// What log files hold, item by item.
pub mod debug {
    pub use raft_dump::{
        LogItemReader, build_file_reader, build_file_writer, dump, dump_with_file_system,
    };
    pub use raft_records::{KeyValue, LogItem, LogItemContent};
}

/// A program of lines: each line is a call, and each reply a line.
pub mod lines {
    pub use raft_lines::{Ended, serve};
}

/// What an opening would lose of the log files, found before it; of a folder also which files are
/// missing or too many by its note.
pub mod losses {
    pub use raft_inspect::{Cut, FolderLosses, Losses, Passed, Unexplained};
}

/// One engine for many threads, beside the history of their calls.
pub mod shared {
    pub use raft_shared::{
        Call, Finished, Purged, Receipt, Recorded, Refused, Reply, Seat, Shared, SharedBytes,
        SharedCall, Unfinished,
    };
}

/// One sync for many threads over a shared engine.
pub mod tickets {
    pub use raft_shared::{Desk, Durable, Front, Naming, Noted, Opened, Ticket, Tickets};
}

/// Lists of calls, trials of them with a crash, and all that a crash may leave after them.
pub mod script {
    pub use raft_allowed::allowed;
    pub use raft_script::{Act, Op, Outcome, TextEntry, Trial, run, trial, trial_twice};
}

pub use config::{Config, RecoveryMode};
pub use env::{DiskFileSystem, FileSystem, MemoryFileSystem};
pub use losses::{FolderLosses, Losses};
pub use raft_fork::{CopyDetails, fork};
pub use raft_log_engine::{
    CacheCounts, Engine, Event, EventListener, EventSink, FileKeeper, FileSpans, GroupImage, Image,
    Listeners, NoListeners, PurgeHook, Refused,
};
pub use raft_records::{
    Command, EntryIndex, EntryPlace, Factory, Fault, FileBlockHandle, FileId, FileSeq, Fresh,
    IoKind, KeyValue, LogBatch, LogItem, LogItemContent, LogQueue, Message, MessageExt,
    ReadableSize, Version,
};
