//! The kinds of items, and the table of the statuses to which each leads.

use raft_console::Status;

/// What an opening does, or finds.
#[derive(Clone, Copy, Debug, PartialEq, Eq)]
pub enum Kind {
    /// It cuts an unsynced tail off the last file of a queue.
    Tail,
    /// It cuts bytes off a file that an unsynced tail does not explain.
    Records,
    /// It fails at the bytes of a file.
    Broken,
    /// It fails, since two folders have a file of one number.
    Doubled,
    /// It fails at a link, a pipe, a second name or a permission.
    Refused,
    /// It passes over files, since a number after them is missing.
    Passed,
    /// It passes over files for the sake of one that holds no record.
    Stray,
    /// It passes over files that a purge had dropped, as the note of spans says.
    LeftOver,
    /// It does not read a folder that has files of the log.
    Folder,
    /// It finds no file of a queue that had files.
    Queue,
    /// It does not find files that the note of spans lists.
    Missing,
    /// It reads no note of spans in the file of that name.
    Note,
    /// It deletes reserved files, which hold no record.
    Reserved,
}

/// What a command does that changes the log.
#[derive(Clone, Copy, Debug, PartialEq, Eq)]
pub enum Change {
    /// It reports the item and continues.
    GoesOn,
    /// It is refused before the opening, if no `--cut` is given.
    Refused,
    /// It fails before the opening.
    Fails,
}

impl Change {
    /// The status with which the command ends.
    pub fn code(self) -> u8 {
        match self {
            Change::GoesOn => Status::Done.code(),
            Change::Refused => Status::Refused.code(),
            Change::Fails => 1,
        }
    }
}

/// The name of a kind, the status of `check`, `fork` and `consistency`, and what a change does.
#[derive(Clone, Copy)]
pub struct Row(pub &'static str, pub Status, pub Change);

impl Kind {
    /// The table of statuses, by kinds. docs/RAFTCTL.md has the same one.
    pub fn row(self) -> Row {
        match self {
            Kind::Tail => Row("tail", Status::WouldCut, Change::GoesOn),
            Kind::Records => Row("records", Status::WouldCut, Change::Refused),
            Kind::Broken => Row("broken", Status::WouldFail, Change::Fails),
            Kind::Doubled => Row("doubled", Status::WouldFail, Change::Fails),
            Kind::Refused => Row("refused", Status::WouldFail, Change::Fails),
            Kind::Passed => Row("passed", Status::WouldPass, Change::Refused),
            Kind::Stray => Row("stray", Status::WouldPass, Change::Refused),
            Kind::LeftOver => Row("left-over", Status::Done, Change::GoesOn),
            Kind::Folder => Row("left-out", Status::WouldPass, Change::Refused),
            Kind::Queue => Row("gone", Status::WouldPass, Change::Refused),
            Kind::Missing => Row("missing", Status::WouldPass, Change::Refused),
            Kind::Note => Row("note", Status::Done, Change::GoesOn),
            Kind::Reserved => Row("reserved", Status::Done, Change::GoesOn),
        }
    }
}
