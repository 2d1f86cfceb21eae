//! What a purge of the Append queue does with a group.
ghost use Rattle.std.specs.Prelude.{◌≡◌};
ghost use Rattle.raft_purge_rules.specs.Choice.{choice, is_old};

use raft_base::FileSeq;

/// How many entries a group to be compacted has at or before the rewrite watermark, at least.
pub const MAX_REWRITE_ENTRIES_PER_REGION: u64 = 32;

/// What a group has in the log, seen from the rewrite watermark of the Append queue.
#[derive(Clone, Copy, Debug, PartialEq, Eq)]
pub struct GroupUse {
    /// The least file of the Append queue that it refers to, if any.
    pub first_file: Option<FileSeq>,
    /// How many of its entries are in the Rewrite queue.
    pub rewritten: u64,
    /// Whether something of it is in the Append queue at or before the watermark.
    pub has_some_before: bool,
    /// Whether at least 32 of its entries are at or before the watermark, with those of the Rewrite
    /// queue.
    pub has_many_before: bool,
    /// Whether at least 32 of them are, without those of the Rewrite queue.
    pub has_many_appended_before: bool,
}

/// The decision about a group: whether its compaction is requested, and whether it is rewritten.
#[derive(Clone, Copy, Debug, PartialEq, Eq)]
pub struct Choice {
    pub is_asked: bool,
    pub is_rewritten: bool,
}

/// The compaction of a group is requested if it is old and heavy. It is old if it refers to a file
/// before the compact watermark or was rewritten. It is heavy if many of its entries are at or
/// before the rewrite watermark. It is rewritten only after nine rounds without effect (`is_due`).
/// Any other group is rewritten if few of its entries would be. In both cases something of it must
/// be at or before the watermark.
pub fn choose(group: &GroupUse, compact_watermark: FileSeq, is_due: bool) -> Choice
    ensures value { result ≡ choice group.now compact_watermark is_due }
{
    if is_old(group, compact_watermark) && group.has_many_before {
        return Choice {
            is_asked: true,
            is_rewritten: is_due && group.has_some_before,
        };
    }
    Choice {
        is_asked: false,
        is_rewritten: group.has_some_before && !group.has_many_appended_before,
    }
}

fn is_old(group: &GroupUse, compact_watermark: FileSeq) -> bool
    ensures value { result ≡ is_old group.now compact_watermark }
{
    group.rewritten > 0
        || match group.first_file {
            Some(first) => first < compact_watermark,
            None => false,
        }
}
