//! Watermarks, and the rule of when a queue needs a rewriting.

use crate::told::assert_tables;
use raft_base::{Fault, ReadableSize};
use raft_purge_rules::{
    QueueUse, RewrittenEntries, append_needs_rewrite, compact_watermark, rewrite_needs_rewrite,
    rewrite_watermark,
};
use raft_rows::Row;
use std::alloc::Global;

enum Case {
    /// The first and the last file, the last file that is rewritten, and the first file to which no
    /// old group refers.
    Marks(u64, u64, u64, u64),
    /// A number of files of 1 KB, and whether the Append queue then needs a rewriting at a threshold
    /// of 10 KB.
    Full(u64, bool),
    /// A number of files of 1 KB, how many of ten rewritten entries are garbage, and whether the
    /// Rewrite queue then needs a rewriting at a threshold of 2 KB and a ratio of 0.6.
    Garbage(u64, u64, bool),
}

use Case::{Full, Garbage, Marks};

static MARKS: [Case; 6] = [
    Marks(1, 1, 0, 0),
    Marks(1, 2, 1, 1),
    Marks(1, 10, 8, 3),
    Marks(5, 14, 12, 7),
    Marks(7, 7, 6, 6),
    Marks(1, 100, 71, 21),
];

static FULL: [Case; 4] = [
    Full(1, false),
    Full(10, false),
    Full(11, true),
    Full(12, true),
];

static GARBAGE: [Case; 5] = [
    Garbage(3, 0, false),
    Garbage(3, 6, false),
    Garbage(3, 7, true),
    Garbage(2, 7, false),
    Garbage(1, 10, false),
];

fn tables() -> [&'static [Case]; 3] {
    [&MARKS, &FULL, &GARBAGE]
}

// Files of 1 KB.
fn used(files: u64) -> QueueUse {
    QueueUse {
        files,
        bytes: files.saturating_mul(1_024),
    }
}

impl Row for Case {
    type State = ();

    fn holds(&self, _: Global, _: &mut ()) -> Result<bool, Fault> {
        Ok(match self {
            Marks(first, last, rewritten, referred) => {
                *first <= *last
                    && rewrite_watermark(*first, *last) == *rewritten
                    && compact_watermark(*first, *last) == *referred
            }
            Full(files, is_full) => {
                append_needs_rewrite(used(*files), ReadableSize(10_240)) == *is_full
            }
            Garbage(files, deleted, needs_rewrite) => {
                let entries = RewrittenEntries {
                    rewritten: 10,
                    deleted: *deleted,
                };
                let threshold = ReadableSize(2_048);
                rewrite_needs_rewrite(used(*files), threshold, entries, 600) == *needs_rewrite
            }
        })
    }
}

#[test]
fn watermarks_and_needs(rt: HostRuntime) {
    assert_tables(&rt, rt.alloc(), &mut (), &tables());
}
