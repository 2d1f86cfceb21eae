//! Sizes as texts, the order of files, and their signatures.

use crate::told::assert_tables;
use raft_records::{Fault, FileId, LogFileContext, LogQueue, ReadableSize, Version};
use raft_rows::Row;
use std::alloc::Global;

enum Unit {
    Kb,
    Mb,
    Gb,
}

enum Case {
    /// A text, and the size that it means; `None` if it is refused as an invalid argument.
    Size(&'static str, Option<u64>),
    /// A number of units, and the size in bytes.
    Made(u64, Unit, u64),
    /// A file that is later than those of the rows before.
    Later(LogQueue, u64),
    /// A version, a file's number, and the number with which its records are signed.
    Signature(Version, u64, Option<u32>),
}

use Case::{Later, Made, Signature, Size};

static SIZES: [Case; 15] = [
    Size("7", Some(7)),
    Size("12B", Some(12)),
    Size("3KB", Some(3072)),
    Size("5MB", Some(5_242_880)),
    Size("2GB", Some(2_147_483_648)),
    Size("18446744073709551615", Some(u64::MAX)),
    Size("0.6", None),
    Size("KB", None),
    Size("", None),
    Size("-1", None),
    Size("+1", None),
    Size("5 MB", None),
    Size("5mb", None),
    Size("18446744073709551616", None),
    Size("17179869184GB", None),
];

static MADE: [Case; 4] = [
    Made(3, Unit::Kb, 3072),
    Made(5, Unit::Mb, 5_242_880),
    Made(2, Unit::Gb, 2_147_483_648),
    Made(u64::MAX, Unit::Gb, u64::MAX),
];

static FILES: [Case; 4] = [
    Later(LogQueue::Rewrite, 8),
    Later(LogQueue::Rewrite, 9),
    Later(LogQueue::Append, 1),
    Later(LogQueue::Append, 2),
];

static SIGNATURES: [Case; 3] = [
    Signature(Version::V1, 0x1_0000_0002, None),
    Signature(Version::V2, 0x1_0000_0002, Some(2)),
    Signature(Version::V2, 1, Some(1)),
];

fn tables() -> [&'static [Case]; 4] {
    [&SIZES, &MADE, &FILES, &SIGNATURES]
}

impl Row for Case {
    /// The file of the row before.
    type State = FileId;

    fn holds(&self, _: Global, before: &mut FileId) -> Result<bool, Fault> {
        match self {
            Size(text, wanted) => match (ReadableSize::parse(text), wanted) {
                (Ok(size), Some(wanted)) => Ok(size.0 == *wanted),
                (Err(fault), None) => Ok(fault.code() == 1),
                _ => Ok(false),
            },
            Made(count, unit, wanted) => {
                let made = match unit {
                    Unit::Kb => ReadableSize::kb(*count),
                    Unit::Mb => ReadableSize::mb(*count),
                    Unit::Gb => ReadableSize::gb(*count),
                };
                Ok(made.0 == *wanted)
            }
            Later(queue, seq) => {
                let id = FileId::new(*queue, *seq);
                let is_later = *before < id;
                *before = id;
                Ok(is_later)
            }
            Signature(version, seq, signature) => {
                let context = LogFileContext::new(FileId::new(LogQueue::Append, *seq), *version);
                Ok(
                    context.get_signature() == *signature
                        && version.has_log_signing() == signature.is_some(),
                )
            }
        }
    }
}

#[test]
fn sizes_files_and_signatures(rt: HostRuntime) {
    let mut before = FileId::new(LogQueue::Rewrite, 0);
    assert_tables(&rt, rt.alloc(), &mut before, &tables());
}
