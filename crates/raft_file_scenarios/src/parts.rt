//! A long file, which is read in parts: its parts have what the whole file has.

use crate::told::assert_tables;
use raft_base::History;
use raft_dump::{FilePart, LogFile, LogFileParts, LogItemReader, PartSource, check_parts};
use raft_env::FileSystem;
use raft_records::{Fault, FileId, LogQueue};
use raft_rows::{HEADER, PUT, Row, ZEROS};
use std::alloc::{AllocError, Global};

const PATH: &str = "0000000000000001.raftlog";

/// Bytes in memory, from which parts are read.
#[derive(Drop)]
struct BytesSource<'a> {
    alloc: Global,
    bytes: &'a [u8],
    given: History<FilePart>,
    /// The most bytes requested at once.
    most: usize,
}

impl PartSource for BytesSource<'_> {
    ghost given = { λ s. s.given.items };

    fn read_part(&mut self, at: usize, len: usize) -> Result<FilePart, Fault> {
        self.most = self.most.max(len);
        let ahead = self.bytes.get(at..).unwrap_or(&[]);
        let mut bytes = Vec::new(self.alloc);
        bytes.extend_from_slice(ahead.get(..len).unwrap_or(ahead))?;
        let part = FilePart { at, len, bytes };
        self.given = self.given.with(&part);
        Ok(part)
    }
}

/// The number of records of 28 bytes after the file's header, and the bytes after them; then what
/// a check reports, the code of the fault that ends the reading, and the most bytes read at once.
struct Case {
    count: usize,
    rest: &'static [u8],
    records: usize,
    end: usize,
    zeros: bool,
    stop: Option<u8>,
    most: usize,
}

static CASES: [Case; 4] = [
    Case {
        count: 2,
        rest: b"",
        records: 2,
        end: 117,
        zeros: true,
        stop: None,
        most: 69,
    },
    // 560,061 bytes are three parts.
    Case {
        count: 20_000,
        rest: b"",
        records: 20_000,
        end: 560_061,
        zeros: true,
        stop: None,
        most: 262_144,
    },
    Case {
        count: 20_000,
        rest: ZEROS,
        records: 20_000,
        end: 560_061,
        zeros: true,
        stop: Some(2),
        most: 262_144,
    },
    Case {
        count: 20_000,
        rest: b"torn",
        records: 20_000,
        end: 560_061,
        zeros: false,
        stop: Some(2),
        most: 262_144,
    },
];

fn bytes_of(alloc: Global, case: &Case) -> Result<Vec<u8>, AllocError> {
    let mut bytes = Vec::new(alloc);
    bytes.extend_from_slice(HEADER)?;
    for _ in 0..case.count {
        bytes.extend_from_slice(PUT)?;
    }
    bytes.extend_from_slice(case.rest)?;
    Ok(bytes)
}

fn source_of(alloc: Global, bytes: &[u8]) -> BytesSource<'_> {
    BytesSource {
        alloc,
        bytes,
        given: History::new(),
        most: 0,
    }
}

fn file(alloc: Global) -> Result<LogFile, AllocError> {
    Ok(LogFile {
        id: FileId::new(LogQueue::Append, 1),
        path: String::from_str(alloc, PATH)?,
    })
}

fn code_of(fault: Option<&Fault>) -> Option<u8> {
    match fault {
        Some(fault) => Some(fault.code()),
        None => None,
    }
}

fn is_checked(alloc: Global, bytes: &[u8], case: &Case) -> Result<bool, Fault> {
    let mut source = source_of(alloc, bytes);
    let check = check_parts(alloc, &file(alloc)?, bytes.len(), &mut source)?;
    Ok(
        check.records == case.records
            && check.end == case.end
            && check.len == bytes.len()
            && check.zeros == case.zeros
            && code_of(check.stop.as_ref()) == case.stop
            && source.most == case.most,
    )
}

/// The number of items in a dump of the parts, the offset at which it ends, and why.
#[derive(Drop)]
struct Dumped {
    items: usize,
    end: usize,
    stop: Option<Fault>,
}

fn count<F: FileSystem>(reader: &mut LogItemReader<F>, image: &mut F) -> Dumped {
    let mut items: usize = 0;
    for _ in 0..u64::MAX {
        match (reader.next(image), reader.place()) {
            (Some(Ok(_)), _) => items = items.saturating_add(1),
            (Some(Err(fault)), Some(place)) => {
                return Dumped {
                    items,
                    end: place.offset,
                    stop: Some(fault),
                };
            }
            _ => break,
        }
    }
    Dumped {
        items,
        end: usize::MAX,
        stop: None,
    }
}

// Dumps the items of one part. The end is an offset in the part's image.
fn count_items<F: FileSystem>(alloc: Global, image: &mut F) -> Result<Dumped, Fault> {
    let mut reader = LogItemReader::new(alloc, vec![in alloc; file(alloc)?]?);
    let counted = count(&mut reader, image);
    drop(reader);
    Ok(counted)
}

fn dump_parts(alloc: Global, bytes: &[u8]) -> Result<Dumped, Fault> {
    let mut source = source_of(alloc, bytes);
    let mut parts = LogFileParts::open(alloc, bytes.len(), &mut source)?;
    let mut items: usize = 0;
    for _ in 0..u64::MAX {
        let mut image = parts.next_image(alloc, PATH, &mut source)?;
        let found = count_items(alloc, &mut image)?;
        items = items.saturating_add(found.items);
        let end = parts.place_of(found.end);
        if !parts.go_on(found.end) {
            return Ok(Dumped {
                items,
                end,
                stop: found.stop,
            });
        }
    }
    Err(Fault::Range)
}

fn is_dumped(alloc: Global, bytes: &[u8], case: &Case) -> Result<bool, Fault> {
    let found = dump_parts(alloc, bytes)?;
    Ok(
        found.items == case.records
            && code_of(found.stop.as_ref()) == case.stop
            && (case.stop.is_none() || found.end == case.end),
    )
}

impl Row for Case {
    type State = ();

    fn holds(&self, alloc: Global, _: &mut ()) -> Result<bool, Fault> {
        let bytes = bytes_of(alloc, self)?;
        Ok(is_checked(alloc, &bytes, self)? && is_dumped(alloc, &bytes, self)?)
    }
}

#[test]
fn parts_give_what_stands_in_their_file(rt: HostRuntime) {
    assert_tables(&rt, rt.alloc(), &mut (), &[&CASES]);
}
