//! The calls of a log as values.
ghost use Rattle.std.specs.Prelude.{◌≡◌};
ghost use Rattle.raft_c_log.specs.Limit.{max_of};

/// What changes a log.
#[derive(Clone, Copy)]
pub enum Change<'a> {
    /// The bytes of a batch, and whether it is synced.
    Write(&'a [u8], bool),
    /// The bytes of a batch, groups and beside them the numbers by which it acts once, and whether it
    /// is synced.
    WriteOnce(&'a [u8], &'a [u64], &'a [u64], bool),
    Sync,
    /// The entries of a group below an index are dropped.
    CompactTo(u64, u64),
    RewriteAppendQueue,
    /// .. of some groups, up to a log file: that file's number, the first group, and how many bytes of
    /// theirs.
    RewriteAppendGroups(u64, u64, u64),
    RewriteRewriteQueue,
    /// .. of some groups: the first one, and how many bytes of theirs.
    RewriteRewriteGroups(u64, u64),
    PurgeAllStale,
    /// A purge by the settings' thresholds, which drops no file from this number on.
    PurgeExpired(u64),
}

/// What is read of a log.
#[derive(Clone, Copy)]
pub enum Query<'a> {
    /// A group's value at a key.
    Get(u64, &'a [u8]),
    /// A group's entry with an index.
    Entry(u64, u64),
    Fetch(Fetch),
    Scan(Scan<'a>),
    Groups,
    /// The first and the last index of a group.
    Span(u64),
    /// What a purge by the settings' thresholds would rewrite now: up to which file of the Append
    /// queue, or 0, and 1 if the Rewrite queue, else 0.
    PurgeNeeds,
}

/// The entries of a group from one index up to another, of at most so many bytes; 0 is no bound.
#[derive(Clone, Copy)]
pub struct Fetch {
    pub group: u64,
    pub begin: u64,
    pub end: u64,
    pub max_size: u64,
}

/// The keys of a group between bounds. The limit 0 is none.
#[derive(Clone, Copy)]
pub struct Scan<'a> {
    pub group: u64,
    pub start: &'a [u8],
    pub end: Option<&'a [u8]>,
    pub reverse: bool,
    pub limit: u64,
}

/// A bound in bytes that is given as a number; 0 is none.
pub(crate) fn size_bound(size: u64) -> Option<usize>
    ensures value { result ≡ max_of size }
{
    if size == 0 { None } else { Some(size as usize) }
}
