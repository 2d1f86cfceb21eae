//! Calls of a shared engine, and their results.
ghost use Rattle.std.specs.Prelude.{◌≡◌, IfOk, IfErr, option_map};
ghost use Rattle.raft_shared.specs.Words.{answer_by, reason_of, shared_bytes, without_path};

use raft_log_engine::{Fault, LogBatch};
use std::alloc::Global;
use std::sync::Arc;

/// A call, with copies of its arguments. Batches are boxed, so that the other variants stay small.
#[derive(Drop)]
pub enum Call {
    /// A batch, and whether the call requests a sync.
    Write(Box<LogBatch>, bool),
    /// The same with pairs of a group and its number.
    WriteOnce(Box<LogBatch>, Vec<(u64, u64)>, bool),
    Sync,
    /// A purge by watermarks, and the first file that it may not drop.
    Purge(u64),
    Get(u64, Vec<u8>),
    First(u64),
    Last(u64),
}

/// The result of a call. A fault of a file has no path.
#[derive(Drop)]
pub enum Reply {
    Size(Result<usize, Fault>),
    Done(Result<(), Fault>),
    Value(Result<Option<SharedBytes>, Fault>),
    Index(Option<u64>),
}

/// The only copy of a call, which the history, the seat and the caller share.
pub type SharedCall = Arc<Call, Global>;

/// The only copy of a value that was found.
pub type SharedBytes = Arc<Vec<u8>, Global>;

/// A call of the history, with its result.
#[derive(Drop)]
pub struct Recorded {
    pub seat: usize,
    pub call: SharedCall,
    pub reply: Reply,
}

/// A call as its seat keeps it.
#[derive(Drop)]
pub struct Receipt {
    /// Its place in the history, counted from 0.
    pub number: usize,
    pub call: SharedCall,
    pub reply: Reply,
}

/// The result of a purge by watermarks.
#[derive(Drop)]
pub struct Purged {
    pub receipt: Receipt,
    /// The groups that the caller should compact; empty if the purge failed. The history doesn't
    /// keep them.
    pub asked: Vec<u64>,
}

impl Reply {
    ghost use Rattle.raft_shared.specs.History.{Done, Size, Value};
    ghost use Rattle.raft_shared.specs.Words.{answer_of};

    /// The reply of a write. It needs no memory.
    pub(crate) fn of_size(alloc: Global, size: &Result<usize, Fault>) -> Reply
        ensures value { answer_of result ≡ Size (answer_by (λ n. n) size.now) }
    {
        Reply::Size(match size {
            Ok(size) => Ok(*size),
            Err(fault) => Err(without_path(alloc, fault)),
        })
    }

    /// The reply of a sync. It needs no memory.
    pub(crate) fn of_sync(alloc: Global, done: &Result<(), Fault>) -> Reply
        ensures value { answer_of result ≡ Done (answer_by (λ _. tt) done.now) }
    {
        Reply::Done(match done {
            Ok(()) => Ok(()),
            Err(fault) => Err(without_path(alloc, fault)),
        })
    }

    /// The reply of a purge. It needs no memory.
    pub(crate) fn of_purge(alloc: Global, purged: &Result<Vec<u64>, Fault>) -> Reply
        ensures value { answer_of result ≡ Done (answer_by (λ _. tt) purged.now) }
    {
        Reply::Done(match purged {
            Ok(_) => Ok(()),
            Err(fault) => Err(without_path(alloc, fault)),
        })
    }

    /// The reply of a `get`.
    pub(crate) fn of_value(
        alloc: Global,
        value: &Result<Option<SharedBytes>, Fault>,
    ) -> Result<Reply, Fault>
        ensures ok { IfOk result (λ reply. answer_of reply
            ≡ Value (answer_by (option_map shared_bytes) value.now)) }
        ensures cause { IfErr result (λ fault. fault ≡ Fault.Memory) }
    {
        Ok(Reply::Value(match value {
            Ok(Some(value)) => Ok(Some(Arc::try_clone(value)?)),
            Ok(None) => Ok(None),
            Err(fault) => Err(without_path(alloc, fault)),
        }))
    }

    /// The reply of a `get`, which keeps the value. It needs no memory.
    pub(crate) fn with_value(alloc: Global, value: Result<Option<SharedBytes>, Fault>) -> Reply
        ensures value { answer_of result ≡ Value (answer_by (option_map shared_bytes) value) }
    {
        Reply::Value(match value {
            Ok(value) => Ok(value),
            Err(fault) => Err(without_path(alloc, &fault)),
        })
    }
}

// A shared copy of the value that was found. If memory runs out, the value is dropped.
pub(crate) fn shared_value(
    alloc: Global,
    value: Result<Option<Vec<u8>>, Fault>,
) -> Result<Result<Option<SharedBytes>, Fault>, Fault>
    ensures ok { IfOk result (λ shared. answer_by (option_map shared_bytes) shared
        ≡ answer_by (option_map (λ v. v.items)) value) }
    ensures cause { IfErr result (λ fault. fault ≡ Fault.Memory) }
{
    Ok(match value {
        Ok(Some(value)) => Ok(Some(Arc::new(alloc, value)?)),
        Ok(None) => Ok(None),
        Err(fault) => Err(fault),
    })
}

// The fault, without the path of its file. It needs no memory.
fn without_path(alloc: Global, fault: &Fault) -> Fault
    ensures value { reason_of result ≡ without_path (reason_of fault.now) }
{
    match fault {
        Fault::InvalidArgument(text) => Fault::InvalidArgument(text),
        Fault::Corruption => Fault::Corruption,
        Fault::Io(kind, _) => Fault::Io(*kind, String::new(alloc)),
        Fault::TryAgain => Fault::TryAgain,
        Fault::Gap => Fault::Gap,
        Fault::Range => Fault::Range,
        Fault::EntryCompacted => Fault::EntryCompacted,
        Fault::EntryNotFound => Fault::EntryNotFound,
        Fault::WrongIndex => Fault::WrongIndex,
        Fault::Parse => Fault::Parse,
        Fault::Failed => Fault::Failed,
        Fault::Memory => Fault::Memory,
        Fault::Lz4 => Fault::Lz4,
        Fault::FileOutOfRange => Fault::FileOutOfRange,
        Fault::NotRecovered => Fault::NotRecovered,
        Fault::TrailFull => Fault::TrailFull,
        Fault::Layer => Fault::Layer,
        Fault::StaleNumber => Fault::StaleNumber,
    }
}
