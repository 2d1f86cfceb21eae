//! Steps in a folder of the operating system.

use crate::calls::Call;
use crate::deeds::Deed;
use crate::disk::Reading;
use raft_env::IoKind;

/// A step of a test in a folder. Paths are those in the folder.
#[derive(Clone, Copy)]
pub(crate) enum Step {
    /// What another program does or finds at a path.
    Does(&'static str, Deed),
    /// An opening of these files, which later steps use. An earlier one is closed first.
    Opens(Reading),
    Closes,
    /// An opening of these files, or a look, fails.
    Fails(Reading, Failure),
    /// An opening of all files fails, unless this user may write to a read-only folder, as root may.
    Denied(Failure),
    /// Makes the files that are in the folder the expected ones.
    Accepts,
    /// A look finds the files `log` and `other`, the bytes of the first, and whether a writer has
    /// the folder.
    Sees(bool),
    /// A look at an empty path fails with this text.
    SeesNoName(&'static str),
    /// A call, the kind of fault with which it fails, and a path with the bytes of its file on the
    /// disk afterwards (`None`: no such file).
    Calls(Call, Option<IoKind>, &'static str, Option<&'static [u8]>),
    /// A question to the opened files.
    Asks(Asked),
}

/// What comes after the folder's own path in the path that is opened, and in the path that the fault
/// names; then the fault's text.
#[derive(Clone, Copy)]
pub(crate) struct Failure {
    pub opened: &'static str,
    pub named: &'static str,
    pub text: &'static str,
}

/// A question to the opened files, and its answer.
#[derive(Clone, Copy)]
pub(crate) enum Asked {
    /// Whether a file has the path.
    IsFile(&'static str, bool),
    /// The path of the last call that the system refused, and its text.
    Refusal(Option<(&'static str, &'static str)>),
    /// Deletes the reserved files that the opening didn't read.
    DeleteUnread,
    /// The numbers of the Append files that are missing by the note. No Rewrite file is, and an
    /// opening would pass over none.
    Missing(&'static [(u64, u64)]),
    /// The number of writes, bytes and syncs, and of files that were begun, recycled and deleted,
    /// and that the folder has.
    Counts((u64, u64, u64), (u64, u64, u64, u64)),
}

/// Steps that begin in an empty folder, in parts.
pub(crate) struct Story {
    pub name: &'static str,
    pub parts: &'static [&'static [Step]],
}
