//! Reserved files, the folder of a new file, and metadata of deleted files, as rows.

use crate::tried::Tried;
use raft_env::IoKind;
use raft_memory::FsCall;

pub(crate) const RESERVED_1: &str = "data/0000000000000001.raftlog.reserved";

pub(crate) const RESERVED_2: &str = "data/0000000000000002.raftlog.reserved";

pub(crate) const RESERVED_3: &str = "data/0000000000000003.raftlog.reserved";

pub(crate) const RESERVED_4: &str = "data/0000000000000004.raftlog.reserved";

const FILE_0: &str = "data/0000000000000000.raftlog";

const FILE_1: &str = "data/0000000000000001.raftlog";

const FILE_3: &str = "data/0000000000000003.raftlog";

const FILE_4: &str = "data/0000000000000004.raftlog";

const FILE_5: &str = "data/0000000000000005.raftlog";

pub(crate) const FILE_7: &str = "data/0000000000000007.raftlog";

pub(crate) const FILE_8: &str = "data/0000000000000008.raftlog";

pub(crate) const FILE_9: &str = "data/0000000000000009.raftlog";

/// A call that fails: its sort, its number among those, and the kind of fault.
pub(crate) type Refused = Option<(FsCall, u64, IoKind)>;

/// Append files that have metadata before a first file, and those that still have it after the
/// removal, in which one deletion may fail.
pub(crate) struct Cleared {
    pub first: u64,
    pub had: &'static [&'static str],
    pub refused: Refused,
    pub left: &'static [&'static str],
}

pub(crate) static CLEARED: [Tried; 6] = [
    // From the hundredth before the first one asked that has any.
    Tried::Clearing(&Cleared {
        first: 200,
        had: &[FILE_7, FILE_8, FILE_9],
        refused: None,
        left: &[],
    }),
    // A refused clearing ends the work for its number alone.
    Tried::Clearing(&Cleared {
        first: 200,
        had: &[FILE_7, FILE_8, FILE_9],
        refused: Some((FsCall::DeleteMetadata, 192, IoKind::Other)),
        left: &[FILE_8],
    }),
    // A number before that hundredth stays.
    Tried::Clearing(&Cleared {
        first: 200,
        had: &[FILE_3, FILE_8],
        refused: None,
        left: &[FILE_3],
    }),
    // Numbers that aren't asked stay.
    Tried::Clearing(&Cleared {
        first: 200,
        had: &[FILE_7, FILE_9],
        refused: None,
        left: &[FILE_7, FILE_9],
    }),
    // The first file's own stay.
    Tried::Clearing(&Cleared {
        first: 4,
        had: &[FILE_1, FILE_3, FILE_4, FILE_5],
        refused: None,
        left: &[FILE_4, FILE_5],
    }),
    // Nothing stands before number 0.
    Tried::Clearing(&Cleared {
        first: 0,
        had: &[FILE_0, FILE_1],
        refused: None,
        left: &[FILE_0, FILE_1],
    }),
];

/// Free space of both folders in bytes, and the folder of a new file of 1024 bytes.
pub(crate) struct Room {
    pub free: (u64, u64),
    pub refused: Refused,
    pub place: usize,
}

pub(crate) static ROOM: [Tried; 5] = [
    // The first folder has room.
    Tried::Placing(&Room {
        free: (1024, 2048),
        refused: None,
        place: 0,
    }),
    // The second one alone has room.
    Tried::Placing(&Room {
        free: (1023, 1024),
        refused: None,
        place: 1,
    }),
    // Neither has room.
    Tried::Placing(&Room {
        free: (0, 0),
        refused: None,
        place: 0,
    }),
    // A refusal counts as too little.
    Tried::Placing(&Room {
        free: (2048, 2048),
        refused: Some((FsCall::FreeSpace, 1, IoKind::Other)),
        place: 1,
    }),
    // A refusal of the second one too.
    Tried::Placing(&Room {
        free: (0, 2048),
        refused: Some((FsCall::FreeSpace, 2, IoKind::Other)),
        place: 0,
    }),
];

/// Existing reserved files, and those after an opening.
pub(crate) struct Prefilled {
    pub stored: &'static [&'static str],
    pub append_files: usize,
    /// The limits of files for reuse, and of reserved files.
    pub limits: (usize, usize),
    pub target_size: usize,
    pub refused: Refused,
    pub spare: Answer,
    /// Files with their lengths, and paths that no file has.
    pub after: &'static [(&'static str, usize)],
    pub gone: &'static [&'static str],
}

/// The paths of the spare files, or a failure with `Io`.
pub(crate) enum Answer {
    Spare(&'static [&'static str]),
    Refused,
}

pub(crate) static PREFILLED: [Tried; 9] = [
    // A fresh folder.
    Tried::Prefilling(&Prefilled {
        stored: &[],
        append_files: 0,
        limits: (4, 4),
        target_size: 1024,
        refused: None,
        spare: Answer::Spare(&[RESERVED_1, RESERVED_2, RESERVED_3, RESERVED_4]),
        after: &[(RESERVED_1, 1024), (RESERVED_4, 1024)],
        gone: &["data/0000000000000005.raftlog.reserved"],
    }),
    // Append files lower the number.
    Tried::Prefilling(&Prefilled {
        stored: &[],
        append_files: 3,
        limits: (4, 4),
        target_size: 1024,
        refused: None,
        spare: Answer::Spare(&[RESERVED_1]),
        after: &[(RESERVED_1, 1024)],
        gone: &[RESERVED_2],
    }),
    // Without prefill all are deleted.
    Tried::Prefilling(&Prefilled {
        stored: &[RESERVED_1, RESERVED_2],
        append_files: 0,
        limits: (4, 0),
        target_size: 1024,
        refused: None,
        spare: Answer::Spare(&[]),
        after: &[],
        gone: &[RESERVED_1, RESERVED_2],
    }),
    // Those found stay as they are, and their numbers go on.
    Tried::Prefilling(&Prefilled {
        stored: &[RESERVED_2],
        append_files: 0,
        limits: (4, 2),
        target_size: 1024,
        refused: None,
        spare: Answer::Spare(&[RESERVED_2, RESERVED_3]),
        after: &[(RESERVED_2, 0), (RESERVED_3, 1024)],
        gone: &[],
    }),
    // Surplus goes from the back.
    Tried::Prefilling(&Prefilled {
        stored: &[RESERVED_1, RESERVED_2, RESERVED_3],
        append_files: 0,
        limits: (4, 2),
        target_size: 1024,
        refused: None,
        spare: Answer::Spare(&[RESERVED_1, RESERVED_2]),
        after: &[(RESERVED_2, 0)],
        gone: &[RESERVED_3],
    }),
    // A refused deletion is passed over.
    Tried::Prefilling(&Prefilled {
        stored: &[RESERVED_1],
        append_files: 0,
        limits: (0, 0),
        target_size: 1024,
        refused: Some((FsCall::Delete, 1, IoKind::Other)),
        spare: Answer::Spare(&[]),
        after: &[(RESERVED_1, 0)],
        gone: &[],
    }),
    // Where storage is full none is kept.
    Tried::Prefilling(&Prefilled {
        stored: &[RESERVED_1],
        append_files: 0,
        limits: (4, 4),
        target_size: 1024,
        refused: Some((FsCall::Write, 2, IoKind::NoSpace)),
        spare: Answer::Spare(&[]),
        after: &[],
        gone: &[RESERVED_1, RESERVED_2, RESERVED_3],
    }),
    // Another refused write leaves its file as it is.
    Tried::Prefilling(&Prefilled {
        stored: &[],
        append_files: 0,
        limits: (2, 2),
        target_size: 1024,
        refused: Some((FsCall::Write, 1, IoKind::Other)),
        spare: Answer::Spare(&[RESERVED_1, RESERVED_2]),
        after: &[(RESERVED_1, 512), (RESERVED_2, 1024)],
        gone: &[],
    }),
    // A refused creation refuses.
    Tried::Prefilling(&Prefilled {
        stored: &[],
        append_files: 0,
        limits: (2, 2),
        target_size: 1024,
        refused: Some((FsCall::Create, 2, IoKind::NoSpace)),
        spare: Answer::Refused,
        after: &[(RESERVED_1, 1024)],
        gone: &[RESERVED_2],
    }),
];
