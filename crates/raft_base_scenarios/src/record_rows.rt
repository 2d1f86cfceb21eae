//! Records that are decoded, as rows with the content of each. They were made by Python's struct
//! and zlib.

use raft_records::{FileId, LogFileContext, LogQueue, Version};

/// An item of a record. An entry is given by its index, and by its offset and length in the
/// entries block.
pub(crate) enum WantedItem {
    Entries(u64, &'static [(u64, u32, u32)]),
    Clean(u64),
    Compact(u64, u64),
    Put(u64, &'static [u8], &'static [u8]),
    Delete(u64, &'static [u8]),
}

use WantedItem::{Clean, Compact, Delete, Entries, Put};

/// Bytes at an offset of a file, the record with which they begin, and its entries block: its
/// place, its length, and whether it is marked as compressed.
pub(crate) struct DecodedRecord {
    pub name: &'static str,
    pub file: LogFileContext,
    pub at: u64,
    pub bytes: &'static [u8],
    pub len: usize,
    pub block: (u64, usize, bool),
    pub items: &'static [WantedItem],
}

pub(crate) const UNSIGNED: LogFileContext = LogFileContext {
    id: FileId {
        queue: LogQueue::Append,
        seq: 1,
    },
    version: Version::V1,
};

pub(crate) const FILE_1: LogFileContext = LogFileContext {
    id: FileId {
        queue: LogQueue::Append,
        seq: 1,
    },
    version: Version::V2,
};

pub(crate) const FILE_2: LogFileContext = LogFileContext {
    id: FileId {
        queue: LogQueue::Append,
        seq: 2,
    },
    version: Version::V2,
};

pub(crate) const REWRITE_3: LogFileContext = LogFileContext {
    id: FileId {
        queue: LogQueue::Rewrite,
        seq: 3,
    },
    version: Version::V2,
};

pub(crate) const FILE_2_AND_2_32: LogFileContext = LogFileContext {
    id: FileId {
        queue: LogQueue::Append,
        seq: 4_294_967_298,
    },
    version: Version::V2,
};

/// The rows in several tables, each named only here: a function is checked with the whole of each
/// table that it names, and the time grows with the square of the table's length.
pub(crate) fn decoded() -> [&'static [DecodedRecord]; 4] {
    [&EACH_KIND, &SEVERAL_ENTRIES, &COMMANDS_AND_KEYS, &NUMBERS]
}

static EACH_KIND: [DecodedRecord; 10] = [
    DecodedRecord {
        name: "no items",
        file: UNSIGNED,
        at: 0,
        bytes: b"\x00\x00\x00\x00\x00\x00\x15\x00\x00\x00\x00\x00\x00\x00\x00\x10\x00\x8d\xef\x02\xd2",
        len: 21,
        block: (16, 0, false),
        items: &[],
    },
    DecodedRecord {
        name: "no items, marked as compressed",
        file: UNSIGNED,
        at: 0,
        bytes: b"\x00\x00\x00\x00\x00\x00\x15\x01\x00\x00\x00\x00\x00\x00\x00\x10\x00\x8d\xef\x02\xd2",
        len: 21,
        block: (16, 0, true),
        items: &[],
    },
    DecodedRecord {
        name: "a put",
        file: UNSIGNED,
        at: 0,
        bytes: b"\x00\x00\x00\x00\x00\x00\x1c\x00\x00\x00\x00\x00\x00\x00\x00\x10\x01\x01\x03\x01\x01\x6b\x01\x76\xb1\x29\x48\xe8",
        len: 28,
        block: (16, 0, false),
        items: &[Put(1, b"k", b"v")],
    },
    DecodedRecord {
        name: "a put, signed",
        file: FILE_1,
        at: 0,
        bytes: b"\x00\x00\x00\x00\x00\x00\x1c\x00\x00\x00\x00\x00\x00\x00\x00\x10\x01\x01\x03\x01\x01\x6b\x01\x76\xb0\x29\x48\xe8",
        len: 28,
        block: (16, 0, false),
        items: &[Put(1, b"k", b"v")],
    },
    DecodedRecord {
        name: "a put and a delete",
        file: UNSIGNED,
        at: 0,
        bytes: b"\x00\x00\x00\x00\x00\x00\x2b\x00\x00\x00\x00\x00\x00\x00\x00\x10\x02\xac\x02\x03\x01\x03\x6b\x65\x79\x05\x76\x61\x6c\x75\x65\xac\x02\x03\x02\x03\x6b\x65\x79\x80\x22\xa4\xbe",
        len: 43,
        block: (16, 0, false),
        items: &[Put(300, b"key", b"value"), Delete(300, b"key")],
    },
    DecodedRecord {
        name: "two entries",
        file: UNSIGNED,
        at: 0,
        bytes: b"\x00\x00\x00\x00\x00\x00\x24\x00\x00\x00\x00\x00\x00\x00\x00\x19\x61\x62\x63\x64\x65\x65\xd8\x87\x85\x01\x07\x01\x02\x05\x03\x02\x4d\xf5\x9f\x72",
        len: 36,
        block: (16, 9, false),
        items: &[Entries(7, &[(5, 0, 3), (6, 3, 2)])],
    },
    DecodedRecord {
        name: "a clean, and a compaction to 300",
        file: UNSIGNED,
        at: 0,
        bytes: b"\x00\x00\x00\x00\x00\x00\x1d\x00\x00\x00\x00\x00\x00\x00\x00\x10\x02\x07\x02\x01\x07\x02\x02\xac\x02\x81\xa5\xe8\x69",
        len: 29,
        block: (16, 0, false),
        items: &[Clean(7), Compact(7, 300)],
    },
    DecodedRecord {
        name: "an item without entries",
        file: UNSIGNED,
        at: 0,
        bytes: b"\x00\x00\x00\x00\x00\x00\x18\x00\x00\x00\x00\x00\x00\x00\x00\x10\x01\x07\x01\x00\xbd\x9f\xac\x85",
        len: 24,
        block: (16, 0, false),
        items: &[Entries(7, &[])],
    },
    DecodedRecord {
        name: "a clean",
        file: UNSIGNED,
        at: 0,
        bytes: b"\x00\x00\x00\x00\x00\x00\x18\x00\x00\x00\x00\x00\x00\x00\x00\x10\x01\x01\x02\x01\x5a\x80\x0b\xdd",
        len: 24,
        block: (16, 0, false),
        items: &[Clean(1)],
    },
    DecodedRecord {
        name: "an item without entries, again",
        file: UNSIGNED,
        at: 0,
        bytes: b"\x00\x00\x00\x00\x00\x00\x18\x00\x00\x00\x00\x00\x00\x00\x00\x10\x01\x01\x01\x00\x0f\xe3\x21\x81",
        len: 24,
        block: (16, 0, false),
        items: &[Entries(1, &[])],
    },
];

static SEVERAL_ENTRIES: [DecodedRecord; 11] = [
    DecodedRecord {
        name: "two entries of one group, signed",
        file: FILE_1,
        at: 69,
        bytes: b"\x00\x00\x00\x00\x00\x00\x24\x00\x00\x00\x00\x00\x00\x00\x00\x19\x61\x62\x63\x64\x65\x65\xd8\x87\x85\x01\x07\x01\x02\x05\x03\x02\x4c\xf5\x9f\x72",
        len: 36,
        block: (85, 9, false),
        items: &[Entries(7, &[(5, 0, 3), (6, 3, 2)])],
    },
    DecodedRecord {
        name: "two entries of one group, in the Rewrite queue",
        file: REWRITE_3,
        at: 69,
        bytes: b"\x00\x00\x00\x00\x00\x00\x24\x00\x00\x00\x00\x00\x00\x00\x00\x19\x61\x62\x63\x64\x65\x65\xd8\x87\x85\x01\x07\x01\x02\x05\x03\x02\x4e\xf5\x9f\x72",
        len: 36,
        block: (85, 9, false),
        items: &[Entries(7, &[(5, 0, 3), (6, 3, 2)])],
    },
    DecodedRecord {
        name: "two entries, signed for a number past 2^32",
        file: FILE_2_AND_2_32,
        at: 69,
        bytes: b"\x00\x00\x00\x00\x00\x00\x24\x00\x00\x00\x00\x00\x00\x00\x00\x19\x61\x62\x63\x64\x65\x65\xd8\x87\x85\x01\x07\x01\x02\x05\x03\x02\x4f\xf5\x9f\x72",
        len: 36,
        block: (85, 9, false),
        items: &[Entries(7, &[(5, 0, 3), (6, 3, 2)])],
    },
    DecodedRecord {
        name: "entries of two groups",
        file: FILE_1,
        at: 97,
        bytes: b"\x00\x00\x00\x00\x00\x00\x30\x00\x00\x00\x00\x00\x00\x00\x00\x1e\x61\x62\x62\x63\x63\x63\x64\x64\x64\x64\x87\x27\x8c\x67\x02\x01\x01\x03\x01\x01\x02\x03\xac\x02\x01\x01\x09\x04\xea\xdc\xbf\x1f",
        len: 48,
        block: (113, 14, false),
        items: &[
            Entries(1, &[(1, 0, 1), (2, 1, 2), (3, 3, 3)]),
            Entries(300, &[(9, 6, 4)]),
        ],
    },
    DecodedRecord {
        name: "entries of one group in two items",
        file: FILE_1,
        at: 69,
        bytes: b"\x00\x00\x00\x00\x00\x00\x2a\x00\x00\x00\x00\x00\x00\x00\x00\x1a\x78\x79\x79\x7a\x7a\x7a\x7f\xa7\x20\x88\x02\x01\x01\x02\x04\x01\x02\x01\x01\x01\x05\x03\xd1\xe1\xc1\x98",
        len: 42,
        block: (85, 10, false),
        items: &[
            Entries(1, &[(4, 0, 1), (5, 1, 2)]),
            Entries(1, &[(5, 3, 3)]),
        ],
    },
    DecodedRecord {
        name: "an entry without bytes between two",
        file: FILE_1,
        at: 69,
        bytes: b"\x00\x00\x00\x00\x00\x00\x25\x00\x00\x00\x00\x00\x00\x00\x00\x19\x61\x62\x63\x64\x65\x65\xd8\x87\x85\x01\x01\x01\x03\x01\x03\x00\x02\x27\xc5\xf7\xd7",
        len: 37,
        block: (85, 9, false),
        items: &[Entries(1, &[(1, 0, 3), (2, 3, 0), (3, 3, 2)])],
    },
    DecodedRecord {
        name: "entries without bytes",
        file: FILE_1,
        at: 69,
        bytes: b"\x00\x00\x00\x00\x00\x00\x1b\x00\x00\x00\x00\x00\x00\x00\x00\x10\x01\x01\x01\x02\x08\x00\x00\xed\xb7\x3d\x69",
        len: 27,
        block: (85, 0, false),
        items: &[Entries(1, &[(8, 0, 0), (9, 0, 0)])],
    },
    DecodedRecord {
        name: "entries without bytes, and then one with",
        file: FILE_1,
        at: 69,
        bytes: b"\x00\x00\x00\x00\x00\x00\x24\x00\x00\x00\x00\x00\x00\x00\x00\x15\x71\x27\xae\x00\xf5\x02\x01\x01\x01\x08\x00\x02\x01\x01\x01\x01\x4d\x66\xb5\x99",
        len: 36,
        block: (85, 5, false),
        items: &[Entries(1, &[(8, 0, 0)]), Entries(2, &[(1, 0, 1)])],
    },
    DecodedRecord {
        name: "entries without bytes, marked as compressed",
        file: UNSIGNED,
        at: 61,
        bytes: b"\x00\x00\x00\x00\x00\x00\x1b\x01\x00\x00\x00\x00\x00\x00\x00\x10\x01\x01\x01\x02\x08\x00\x00\xec\xb7\x3d\x69",
        len: 27,
        block: (77, 0, true),
        items: &[Entries(1, &[(8, 0, 0), (9, 0, 0)])],
    },
    DecodedRecord {
        name: "an item of no entries",
        file: FILE_1,
        at: 69,
        bytes: b"\x00\x00\x00\x00\x00\x00\x18\x00\x00\x00\x00\x00\x00\x00\x00\x10\x01\x07\x01\x00\xbc\x9f\xac\x85",
        len: 24,
        block: (85, 0, false),
        items: &[Entries(7, &[])],
    },
    DecodedRecord {
        name: "an item of no entries between two",
        file: FILE_1,
        at: 69,
        bytes: b"\x00\x00\x00\x00\x00\x00\x29\x00\x00\x00\x00\x00\x00\x00\x00\x17\x61\x62\x63\xc2\x41\x24\x35\x03\x07\x01\x01\x01\x01\x07\x01\x00\x07\x01\x01\x02\x02\xd6\x66\xef\x09",
        len: 41,
        block: (85, 7, false),
        items: &[
            Entries(7, &[(1, 0, 1)]),
            Entries(7, &[]),
            Entries(7, &[(2, 1, 2)]),
        ],
    },
];

static COMMANDS_AND_KEYS: [DecodedRecord; 11] = [
    DecodedRecord {
        name: "a compaction to 300",
        file: FILE_1,
        at: 69,
        bytes: b"\x00\x00\x00\x00\x00\x00\x1a\x00\x00\x00\x00\x00\x00\x00\x00\x10\x01\x07\x02\x02\xac\x02\x3b\x20\x8f\x8d",
        len: 26,
        block: (85, 0, false),
        items: &[Compact(7, 300)],
    },
    DecodedRecord {
        name: "a compaction to the greatest number",
        file: FILE_1,
        at: 69,
        bytes: b"\x00\x00\x00\x00\x00\x00\x22\x00\x00\x00\x00\x00\x00\x00\x00\x10\x01\x07\x02\x02\xff\xff\xff\xff\xff\xff\xff\xff\xff\x01\x87\xbd\xfb\x33",
        len: 34,
        block: (85, 0, false),
        items: &[Compact(7, 18_446_744_073_709_551_615)],
    },
    DecodedRecord {
        name: "a clean, again",
        file: FILE_1,
        at: 69,
        bytes: b"\x00\x00\x00\x00\x00\x00\x18\x00\x00\x00\x00\x00\x00\x00\x00\x10\x01\x07\x02\x01\xe9\xfc\x86\xd9",
        len: 24,
        block: (85, 0, false),
        items: &[Clean(7)],
    },
    DecodedRecord {
        name: "a clean in an unsigned file",
        file: UNSIGNED,
        at: 61,
        bytes: b"\x00\x00\x00\x00\x00\x00\x18\x00\x00\x00\x00\x00\x00\x00\x00\x10\x01\x07\x02\x01\xe8\xfc\x86\xd9",
        len: 24,
        block: (77, 0, false),
        items: &[Clean(7)],
    },
    DecodedRecord {
        name: "a put, again",
        file: FILE_2,
        at: 69,
        bytes: b"\x00\x00\x00\x00\x00\x00\x1c\x00\x00\x00\x00\x00\x00\x00\x00\x10\x01\x01\x03\x01\x01\x6b\x01\x76\xb3\x29\x48\xe8",
        len: 28,
        block: (85, 0, false),
        items: &[Put(1, b"k", b"v")],
    },
    DecodedRecord {
        name: "a put of nothing at the empty key",
        file: FILE_1,
        at: 69,
        bytes: b"\x00\x00\x00\x00\x00\x00\x1a\x00\x00\x00\x00\x00\x00\x00\x00\x10\x01\x00\x03\x01\x00\x00\xde\xb7\xe9\x69",
        len: 26,
        block: (85, 0, false),
        items: &[Put(0, b"", b"")],
    },
    DecodedRecord {
        name: "a put of 128 bytes",
        file: FILE_1,
        at: 69,
        bytes: b"\x00\x00\x00\x00\x00\x00\x9c\x00\x00\x00\x00\x00\x00\x00\x00\x10\x01\x01\x03\x01\x01\x6b\x80\x01\x76\x76\x76\x76\x76\x76\x76\x76\x76\x76\x76\x76\x76\x76\x76\x76\x76\x76\x76\x76\x76\x76\x76\x76\x76\x76\x76\x76\x76\x76\x76\x76\x76\x76\x76\x76\x76\x76\x76\x76\x76\x76\x76\x76\x76\x76\x76\x76\x76\x76\x76\x76\x76\x76\x76\x76\x76\x76\x76\x76\x76\x76\x76\x76\x76\x76\x76\x76\x76\x76\x76\x76\x76\x76\x76\x76\x76\x76\x76\x76\x76\x76\x76\x76\x76\x76\x76\x76\x76\x76\x76\x76\x76\x76\x76\x76\x76\x76\x76\x76\x76\x76\x76\x76\x76\x76\x76\x76\x76\x76\x76\x76\x76\x76\x76\x76\x76\x76\x76\x76\x76\x76\x76\x76\x76\x76\x76\x76\x22\xb0\xee\x04",
        len: 156,
        block: (85, 0, false),
        items: &[Put(
            1,
            b"k",
            b"vvvvvvvvvvvvvvvvvvvvvvvvvvvvvvvvvvvvvvvvvvvvvvvvvvvvvvvvvvvvvvvvvvvvvvvvvvvvvvvvvvvvvvvvvvvvvvvvvvvvvvvvvvvvvvvvvvvvvvvvvvvvvvvv",
        )],
    },
    DecodedRecord {
        name: "a delete",
        file: FILE_1,
        at: 69,
        bytes: b"\x00\x00\x00\x00\x00\x00\x1c\x00\x00\x00\x00\x00\x00\x00\x00\x10\x01\x01\x03\x02\x03\x6b\x65\x79\xd9\x28\xcf\x94",
        len: 28,
        block: (85, 0, false),
        items: &[Delete(1, b"key")],
    },
    DecodedRecord {
        name: "the mark that begins an atomic group",
        file: REWRITE_3,
        at: 69,
        bytes: b"\x00\x00\x00\x00\x00\x00\x1e\x00\x00\x00\x00\x00\x00\x00\x00\x10\x01\x05\x03\x01\x03\x5f\x5f\x01\x01\x00\x65\x24\x47\xd9",
        len: 30,
        block: (85, 0, false),
        items: &[Put(5, b"__\x01", b"\x00")],
    },
    DecodedRecord {
        name: "all kinds in one record",
        file: FILE_1,
        at: 4096,
        bytes: b"\x00\x00\x00\x00\x00\x00\x40\x00\x00\x00\x00\x00\x00\x00\x00\x1a\x61\x62\x63\x64\x65\x66\xef\x39\x8e\x4b\x07\x01\x01\x02\x01\x02\x01\x01\x03\x01\x01\x6b\x01\x76\x01\x02\x02\x02\x02\x01\x01\x07\x03\x01\x03\x02\x01\x6b\x03\x01\x00\x02\x02\x01\xe9\xc0\x8a\x4a",
        len: 64,
        block: (4112, 10, false),
        items: &[
            Entries(1, &[(1, 0, 2), (2, 2, 1)]),
            Put(1, b"k", b"v"),
            Compact(1, 2),
            Entries(2, &[(7, 3, 3)]),
            Delete(1, b"k"),
            Entries(3, &[]),
            Clean(2),
        ],
    },
    DecodedRecord {
        name: "all kinds in one record, unsigned",
        file: UNSIGNED,
        at: 61,
        bytes: b"\x00\x00\x00\x00\x00\x00\x3b\x00\x00\x00\x00\x00\x00\x00\x00\x19\x61\x62\x64\x65\x66\x1b\xae\xda\x00\x06\x02\x02\x01\x01\x01\x01\x01\x02\x01\x03\x02\x01\x6b\x01\x02\x02\x02\x01\x03\x01\x01\x6b\x01\x76\x02\x01\x01\x07\x03\x33\xae\x9d\xa7",
        len: 59,
        block: (77, 9, false),
        items: &[
            Clean(2),
            Entries(1, &[(1, 0, 2)]),
            Delete(1, b"k"),
            Compact(1, 2),
            Put(1, b"k", b"v"),
            Entries(2, &[(7, 2, 3)]),
        ],
    },
];

static NUMBERS: [DecodedRecord; 9] = [
    DecodedRecord {
        name: "an entry with the index 2^64 - 2",
        file: FILE_1,
        at: 69,
        bytes: b"\x00\x00\x00\x00\x00\x00\x2a\x00\x00\x00\x00\x00\x00\x00\x00\x17\x61\x62\x63\xc2\x41\x24\x35\x01\x01\x01\x01\xfe\xff\xff\xff\xff\xff\xff\xff\xff\x01\x03\xd6\x49\xfb\xbc",
        len: 42,
        block: (85, 7, false),
        items: &[Entries(1, &[(18_446_744_073_709_551_614, 0, 3)])],
    },
    DecodedRecord {
        name: "two entries up to the index 2^64 - 2",
        file: FILE_1,
        at: 69,
        bytes: b"\x00\x00\x00\x00\x00\x00\x2a\x00\x00\x00\x00\x00\x00\x00\x00\x16\x61\x62\x6d\x48\x83\x9e\x01\x01\x01\x02\xfd\xff\xff\xff\xff\xff\xff\xff\xff\x01\x01\x01\x98\xbf\x6c\x45",
        len: 42,
        block: (85, 6, false),
        items: &[Entries(
            1,
            &[
                (18_446_744_073_709_551_613, 0, 1),
                (18_446_744_073_709_551_614, 1, 1),
            ],
        )],
    },
    DecodedRecord {
        name: "the group and the index of the longest forms",
        file: FILE_1,
        at: 69,
        bytes: b"\x00\x00\x00\x00\x00\x00\x53\x00\x00\x00\x00\x00\x00\x00\x00\x15\x7a\xaf\x77\xd2\x62\x03\xff\xff\xff\xff\xff\xff\xff\xff\xff\x01\x01\x01\xfe\xff\xff\xff\xff\xff\xff\xff\xff\x01\x01\xff\xff\xff\xff\xff\xff\xff\xff\xff\x01\x02\x02\xff\xff\xff\xff\xff\xff\xff\xff\xff\x01\xff\xff\xff\xff\xff\xff\xff\xff\xff\x01\x02\x01\xe1\x03\x49\x82",
        len: 83,
        block: (85, 5, false),
        items: &[
            Entries(
                18_446_744_073_709_551_615,
                &[(18_446_744_073_709_551_614, 0, 1)],
            ),
            Compact(18_446_744_073_709_551_615, 18_446_744_073_709_551_615),
            Clean(18_446_744_073_709_551_615),
        ],
    },
    DecodedRecord {
        name: "an entry with the index 0 in the group 0",
        file: FILE_1,
        at: 69,
        bytes: b"\x00\x00\x00\x00\x00\x00\x1f\x00\x00\x00\x00\x00\x00\x00\x00\x15\x61\x43\xbe\xb7\xe8\x01\x00\x01\x01\x00\x01\xc3\x4f\xe7\xb4",
        len: 31,
        block: (85, 5, false),
        items: &[Entries(0, &[(0, 0, 1)])],
    },
    DecodedRecord {
        name: "numbers of one and two bytes",
        file: FILE_1,
        at: 69,
        bytes: b"\x00\x00\x00\x00\x00\x00\x27\x00\x00\x00\x00\x00\x00\x00\x00\x16\x61\x62\x6d\x48\x83\x9e\x02\x7f\x01\x01\x7f\x01\x80\x01\x01\x01\x80\x01\x01\xfc\x38\xb5\xbd",
        len: 39,
        block: (85, 6, false),
        items: &[Entries(127, &[(127, 0, 1)]), Entries(128, &[(128, 1, 1)])],
    },
    DecodedRecord {
        name: "an entry of 200 bytes",
        file: FILE_1,
        at: 69,
        bytes: b"\x00\x00\x00\x00\x00\x00\xe7\x00\x00\x00\x00\x00\x00\x00\x00\xdc\x65\x65\x65\x65\x65\x65\x65\x65\x65\x65\x65\x65\x65\x65\x65\x65\x65\x65\x65\x65\x65\x65\x65\x65\x65\x65\x65\x65\x65\x65\x65\x65\x65\x65\x65\x65\x65\x65\x65\x65\x65\x65\x65\x65\x65\x65\x65\x65\x65\x65\x65\x65\x65\x65\x65\x65\x65\x65\x65\x65\x65\x65\x65\x65\x65\x65\x65\x65\x65\x65\x65\x65\x65\x65\x65\x65\x65\x65\x65\x65\x65\x65\x65\x65\x65\x65\x65\x65\x65\x65\x65\x65\x65\x65\x65\x65\x65\x65\x65\x65\x65\x65\x65\x65\x65\x65\x65\x65\x65\x65\x65\x65\x65\x65\x65\x65\x65\x65\x65\x65\x65\x65\x65\x65\x65\x65\x65\x65\x65\x65\x65\x65\x65\x65\x65\x65\x65\x65\x65\x65\x65\x65\x65\x65\x65\x65\x65\x65\x65\x65\x65\x65\x65\x65\x65\x65\x65\x65\x65\x65\x65\x65\x65\x65\x65\x65\x65\x65\x65\x65\x65\x65\x65\x65\x65\x65\x65\x65\x65\x65\x65\x65\x65\x65\x65\x65\x65\x65\x65\x65\x65\x65\x65\x65\x65\x65\x65\x65\x65\x65\xe0\xc9\xbe\x57\x01\x01\x01\x01\x01\xc8\x01\x5c\x4e\x7d\x00",
        len: 231,
        block: (85, 204, false),
        items: &[Entries(1, &[(1, 0, 200)])],
    },
    DecodedRecord {
        name: "a record at the offset 2^62",
        file: FILE_1,
        at: 4611686018427387904,
        bytes: b"\x00\x00\x00\x00\x00\x00\x24\x00\x00\x00\x00\x00\x00\x00\x00\x19\x61\x62\x63\x64\x65\x65\xd8\x87\x85\x01\x07\x01\x02\x05\x03\x02\x4c\xf5\x9f\x72",
        len: 36,
        block: (4_611_686_018_427_387_920, 9, false),
        items: &[Entries(7, &[(5, 0, 3), (6, 3, 2)])],
    },
    DecodedRecord {
        name: "two entries, and bytes after their record",
        file: FILE_1,
        at: 69,
        bytes: b"\x00\x00\x00\x00\x00\x00\x24\x00\x00\x00\x00\x00\x00\x00\x00\x19\x61\x62\x63\x64\x65\x65\xd8\x87\x85\x01\x07\x01\x02\x05\x03\x02\x4c\xf5\x9f\x72\x00\x01\x02",
        len: 36,
        block: (85, 9, false),
        items: &[Entries(7, &[(5, 0, 3), (6, 3, 2)])],
    },
    DecodedRecord {
        name: "a record, and another one after it",
        file: FILE_1,
        at: 69,
        bytes: b"\x00\x00\x00\x00\x00\x00\x24\x00\x00\x00\x00\x00\x00\x00\x00\x19\x61\x62\x63\x64\x65\x65\xd8\x87\x85\x01\x07\x01\x02\x05\x03\x02\x4c\xf5\x9f\x72\x00\x00\x00\x00\x00\x00\x18\x00\x00\x00\x00\x00\x00\x00\x00\x10\x01\x07\x02\x01\xe9\xfc\x86\xd9",
        len: 36,
        block: (85, 9, false),
        items: &[Entries(7, &[(5, 0, 3), (6, 3, 2)])],
    },
];
