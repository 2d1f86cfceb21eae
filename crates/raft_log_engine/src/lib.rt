//! The engine: writes batches to its log, keeps an index of what they hold, and finds it again at
//! an opening. What its public calls name is named here again.
#![tactic(auto)]

pub mod engine;
pub mod laws;

pub use engine::{Engine, FileSpans, GroupImage, Image, Refused};
pub use raft_config::{Config, RecoveryMode};
pub use raft_entry_blocks::CacheCounts;
pub use raft_env::{FileSystem, FsFault, Permission};
pub use raft_listeners::{
    Event, EventListener, EventSink, FileKeeper, Listeners, NoListeners, PurgeHook,
};
pub use raft_memory::{Choice, FsCall, MemoryFileSystem};
pub use raft_records::{
    Command, Fault, FileSeq, Fresh, IoKind, LogBatch, LogQueue, Message, MessageExt, ReadableSize,
    Version,
};
