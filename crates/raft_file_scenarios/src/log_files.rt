//! A log file that is written, cut and read back.
ghost use Rattle.raft_files.specs.Writer.{IsWriterOf};

use raft_env::{FileSystem, FsFault};
use raft_files::{LogFileFormat, LogFileReader, LogFileWriter, LogItemBatchFileReader};
use raft_records::{FileBlockHandle, FileId, LogQueue, Version};
use std::alloc::Global;

const V2: LogFileFormat = LogFileFormat {
    version: Version::V2,
    alignment: 0,
};

/// A call, and then the end of the file for its writer, and for a writer that is opened after it.
enum Step {
    Write(&'static [u8], usize),
    Sync,
    Truncate,
    Close,
}

static STEPS: [(Step, usize, usize); 6] = [
    (Step::Write(b"first", 100), 74, 100),
    (Step::Write(b"second", 100), 80, 100),
    (Step::Sync, 80, 100),
    (Step::Truncate, 80, 80),
    (Step::Write(b"third", 0), 85, 85),
    (Step::Close, 85, 85),
];

fn take_step<F: FileSystem>(
    fs: &mut F,
    writer: &mut LogFileWriter<F>,
    step: &Step,
) -> Result<(), FsFault>
    requires { IsWriterOf writer.old (F.directory fs.old) }
    ensures writes { IsWriterOf writer.new (F.directory fs.new) }
{
    match step {
        Step::Write(bytes, hint) => writer.write(fs, bytes, *hint),
        Step::Sync => writer.sync(fs),
        Step::Truncate => writer.truncate(fs),
        Step::Close => writer.close(fs),
    }
}

// The index of the first step after which the file ends elsewhere.
fn first_wrong<F: FileSystem>(
    fs: &mut F,
    alloc: Global,
    handle: &F::Handle,
) -> Result<Option<usize>, FsFault> {
    let mut writer = LogFileWriter::open(fs, alloc, handle, V2, false)?;
    for (place, (call, written, size)) in STEPS.iter().enumerate() {
        take_step(fs, &mut writer, call)?;
        if writer.offset() != *written || fs.file_size(handle)? != *size {
            return Ok(Some(place));
        }
    }
    Ok(None)
}

fn is_block<F: FileSystem>(fs: &mut F, alloc: Global, reader: &mut LogFileReader<F>) -> bool {
    let place = FileBlockHandle {
        id: FileId::new(LogQueue::Append, 1),
        offset: 74,
        len: 20,
    };
    match reader.read(fs, alloc, place) {
        Ok(block) => block.as_slice() == b"secondthird".as_slice(),
        Err(_) => false,
    }
}

fn is_end<F: FileSystem>(fs: &mut F, reader: &mut LogFileReader<F>) -> bool {
    let mut bytes = [0; 3];
    reader.read_to(fs, 83, &mut bytes) == Ok(2) && bytes == *b"rd\0"
}

fn are_found<F: FileSystem>(fs: &mut F, alloc: Global, reader: &mut LogFileReader<F>) -> bool {
    reader.file_size() == 85
        && reader.parse_format(fs) == Ok(Some(V2))
        && is_block(fs, alloc, reader)
        && is_end(fs, reader)
}

fn is_read<F: FileSystem>(fs: &mut F, alloc: Global, handle: &F::Handle) -> bool {
    match LogFileReader::open(fs, handle) {
        Ok(mut reader) => {
            let found = are_found(fs, alloc, &mut reader);
            reader.end(fs);
            found
        }
        Err(_) => false,
    }
}

// Where the file ends for a writer that finds it, and for one that writes a header of version 1
// over it.
fn ends<F: FileSystem>(
    fs: &mut F,
    alloc: Global,
    handle: &F::Handle,
) -> Result<(usize, usize), FsFault> {
    let found = LogFileWriter::open(fs, alloc, handle, V2, false)?;
    let reset = LogFileWriter::open(fs, alloc, handle, LogFileFormat::default(), true)?;
    Ok((found.offset(), reset.offset()))
}

/// A record without items in file 1.
const RECORD: &[u8] =
    b"\x00\x00\x00\x00\x00\x00\x15\x00\x00\x00\x00\x00\x00\x00\x00\x10\x00\x8c\xef\x02\xd2";

// A reader of a file with that record.
fn reader_of_record<F: FileSystem>(fs: &mut F, alloc: Global) -> Result<LogFileReader<F>, FsFault> {
    let handle = fs.create("records")?;
    let mut writer = LogFileWriter::open(fs, alloc, &handle, V2, true)?;
    writer.write(fs, RECORD, 0)?;
    LogFileReader::open(fs, &handle)
}

// Whether the next batch has no items.
fn next_is_empty<F: FileSystem>(fs: &mut F, records: &mut LogItemBatchFileReader<F>) -> bool {
    match records.next(fs, "records") {
        Ok(Some(batch)) => batch.into_items().is_empty(),
        _ => false,
    }
}

fn ends_at<F: FileSystem>(
    fs: &mut F,
    records: &mut LogItemBatchFileReader<F>,
    offset: usize,
) -> bool {
    match records.next(fs, "records") {
        Ok(None) => records.valid_offset() == offset,
        _ => false,
    }
}

fn opens<F: FileSystem>(
    fs: &mut F,
    records: &mut LogItemBatchFileReader<F>,
    reader: LogFileReader<F>,
) -> bool {
    match records.open(fs, FileId::new(LogQueue::Append, 1), "records", reader) {
        Ok(format) => format == V2,
        Err(_) => false,
    }
}

fn is_replayed<F: FileSystem>(fs: &mut F, alloc: Global) -> bool {
    let mut records = LogItemBatchFileReader::new(alloc, 512);
    let is_open = match reader_of_record(fs, alloc) {
        Ok(reader) => opens(fs, &mut records, reader),
        Err(_) => false,
    };
    let is_read = is_open && next_is_empty(fs, &mut records) && ends_at(fs, &mut records, 90);
    records.reset(fs);
    is_read && ends_at(fs, &mut records, 0)
}

/// Whether the records that were written are read back.
pub(crate) fn is_read_back<F: FileSystem>(fs: &mut F, alloc: Global) -> bool {
    match fs.create("log") {
        Ok(handle) => {
            first_wrong(fs, alloc, &handle) == Ok(None)
                && is_read(fs, alloc, &handle)
                && is_replayed(fs, alloc)
                && ends(fs, alloc, &handle) == Ok((85, 61))
        }
        Err(_) => false,
    }
}
