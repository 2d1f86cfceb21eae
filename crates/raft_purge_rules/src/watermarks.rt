//! Up to which file a purge rewrites, and before which it requests compactions.
ghost use Rattle.std.specs.Prelude.{◌≡◌, ◌≤◌};
ghost use Rattle.raft_purge_rules.specs.Watermarks.{compact_watermark, rewrite_watermark, watermark};

use raft_base::FileSeq;

/// The rewrite watermark of the files from `first` to `last`: the file at seven tenths of them, at
/// most the one before the last. Data in it or in a file before it is rewritten.
pub fn rewrite_watermark(first: FileSeq, last: FileSeq) -> FileSeq
    requires { first ≤ last }
    ensures value { result ≡ rewrite_watermark first last }
{
    watermark(first, last, 7)
}

/// The compact watermark of the files from `first` to `last`: the file at two tenths of them, at
/// most the one before the last. A group that refers to a file before it is old.
pub fn compact_watermark(first: FileSeq, last: FileSeq) -> FileSeq
    requires { first ≤ last }
    ensures value { result ≡ compact_watermark first last }
{
    watermark(first, last, 2)
}

fn watermark(first: FileSeq, last: FileSeq, tenths: u8) -> FileSeq
    requires { first ≤ last }
    ensures value { result ≡ watermark tenths first last }
{
    let files = last as u128 + 1 - first as u128;
    let reached = first as u128 + files * tenths as u128 / 10;
    reached.min(last.saturating_sub(1) as u128) as u64
}
