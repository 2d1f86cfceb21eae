//! Whether a queue needs a rewriting.
ghost use Rattle.std.specs.Prelude.{◌≡◌};

use raft_base::ReadableSize;

/// What a queue takes: how many log files, and how many bytes by their sizes.
#[derive(Clone, Copy, Debug, PartialEq, Eq)]
pub struct QueueUse {
    pub files: u64,
    pub bytes: u64,
}

/// The entries that were placed in the Rewrite queue, and how many of them have left their places
/// since; a reset subtracts the second number from the first.
#[derive(Clone, Copy, Debug, PartialEq, Eq)]
pub struct RewrittenEntries {
    pub rewritten: u64,
    pub deleted: u64,
}

ghost use Rattle.raft_purge_rules.specs.Need.{append_needs_rewrite, is_above, rewrite_needs_rewrite};

/// Whether the Append queue is to be rewritten: it has more than one file, and more bytes than the threshold.
pub fn append_needs_rewrite(queue: QueueUse, threshold: ReadableSize) -> bool
    ensures value { result ≡ append_needs_rewrite queue threshold }
{
    is_above(queue, threshold)
}

fn is_above(queue: QueueUse, threshold: ReadableSize) -> bool
    ensures value { result ≡ is_above queue threshold }
{
    queue.files > 1 && queue.bytes > threshold.0
}

/// Whether the Rewrite queue is to be rewritten. It must be above its threshold in the same way,
/// and more of the rewritten entries must be garbage than this ratio, in thousandths.
pub fn rewrite_needs_rewrite(
    queue: QueueUse,
    threshold: ReadableSize,
    entries: RewrittenEntries,
    garbage_ratio: u64,
) -> bool
    ensures value { result ≡ rewrite_needs_rewrite queue threshold entries garbage_ratio }
{
    is_above(queue, threshold)
        && entries.deleted as u128 * 1000 > garbage_ratio as u128 * entries.rewritten as u128
}
