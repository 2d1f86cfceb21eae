//! The requests that lines make.

use raft_test_rows::RecoveryMode;

/// A request, by the object of which it is made.
#[derive(Clone, Copy)]
pub(crate) enum Asked {
    Settings(SettingsLine),
    Log(LogLine),
    Batch(BatchLine),
    Files(FilesLine),
    Copy(CopyLine),
    Program(ProgramLine),
    Call(CallLine),
    Look(LookLine),
}

/// Sets the settings of the next opening, or names bytes.
#[derive(Clone, Copy)]
pub(crate) enum SettingsLine {
    Usual,
    Set,
    Name,
}

/// Opens or closes the log, or lets calls fail.
#[derive(Clone, Copy)]
pub(crate) enum LogLine {
    Open(RecoveryMode),
    Why,
    Close,
    Reopen,
    GiveUp,
    Fail,
    Stop,
}

/// Changes the batch of the next write.
#[derive(Clone, Copy)]
pub(crate) enum BatchLine {
    Key(KeyLine),
    Entries(EntriesLine),
    Clean,
    Compact,
    /// The batch becomes the next one of a write group; the flag requests a sync.
    Next(bool),
    Flags,
    Drop,
}

/// Puts or deletes a key.
#[derive(Clone, Copy)]
pub(crate) enum KeyLine {
    Put,
    Delete,
    Message,
    PlainMessage,
}

#[derive(Clone, Copy)]
pub(crate) enum EntriesLine {
    Texts,
    Raw,
    Plain,
}

/// Reads or changes files in memory that no engine has.
#[derive(Clone, Copy)]
pub(crate) enum FilesLine {
    Change(ChangeLine),
    Upset(UpsetLine),
    Count(CountLine),
    Items(ItemsLine),
    Has,
    IsFolder,
    Metadata,
    Fork,
    Agree,
}

/// Changes files as a log does.
#[derive(Clone, Copy)]
pub(crate) enum ChangeLine {
    Folder,
    Store,
    Shift,
    Cut,
    /// Writes a byte that the file doesn't have there.
    Break,
}

/// Opens copies of files that no engine has.
#[derive(Clone, Copy)]
pub(crate) enum CopyLine {
    /// Opens a copy in order, and once more after a close.
    Try,
    /// Opens two copies as a crash leaves them, one in order and one by workers.
    Alike(CrashLine),
    /// Opens a copy by workers, of whose reads one fails.
    Unread,
}

/// What a crash leaves of a copy.
#[derive(Clone, Copy)]
pub(crate) enum CrashLine {
    All,
    Synced,
    Torn,
}

/// Changes files as a crash or another program does.
#[derive(Clone, Copy)]
pub(crate) enum UpsetLine {
    Note,
    Free,
    CrashAll,
    CrashSynced,
    CrashTorn,
}

/// Counts at a path: the bytes of a file, or the names in a folder.
#[derive(Clone, Copy)]
pub(crate) enum CountLine {
    Bytes,
    Files,
    Logs,
}

/// Prints items: of a file or a folder, of a file, of a folder, or with their places.
#[derive(Clone, Copy, PartialEq, Eq)]
pub(crate) enum ItemsLine {
    Any,
    File,
    Folder,
    Places,
}

/// Feeds, runs or reads the program `raftlog`.
#[derive(Clone, Copy)]
pub(crate) enum ProgramLine {
    Newline,
    Read,
    Serve,
}

/// Calls an engine.
#[derive(Clone, Copy)]
pub(crate) enum CallLine {
    Write(WriteLine),
    /// Rewrites the groups from one on that have data in the Append queue's files up to one,
    /// within a budget.
    RewriteGroups,
    RenewGroups,
    /// Any other call.
    Op(OpLine),
}

#[derive(Clone, Copy)]
pub(crate) enum WriteLine {
    /// Writes the batch; the flag requests a sync.
    Batch(bool),
    /// Writes the batch once (`write_once`), with a number for each group.
    Once,
    Group,
    /// Writes an entry with these bytes for each group and index, each in its own batch.
    Each,
    /// Appends as raft-engine's tests do. The flag gives each entry a batch of its own.
    Append(bool),
}

#[derive(Clone, Copy)]
pub(crate) enum OpLine {
    Sync,
    Get,
    CompactTo,
    First,
    Last,
    Groups,
    RewriteAppend,
    RewriteRewrite,
    PurgeStale,
    Purge,
}

/// Reads an engine.
#[derive(Clone, Copy)]
pub(crate) enum LookLine {
    /// All keys and entries.
    Found,
    Whole(WholeLine),
    Entry(EntryLine),
    Scan(bool),
    Messages(bool),
}

/// Reads an entry, a message, or a group's entries.
#[derive(Clone, Copy)]
pub(crate) enum EntryLine {
    Entry,
    Message,
    PlainEntry,
    PlainMessage,
    Fetch,
    Whole,
}

/// Reads a property of the whole engine.
#[derive(Clone, Copy)]
pub(crate) enum WholeLine {
    IsEmpty,
    HasFailed,
    Used,
    Path,
    NeedsAppend,
    NeedsRewrite,
    SpanAppend,
    SpanRewrite,
}
