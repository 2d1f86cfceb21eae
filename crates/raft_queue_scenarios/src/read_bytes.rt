//! Bytes of either queue's files, read at handles.

use crate::crashed_queues::{no_keys, opened};
use crate::failing::Failing;
use crate::folders::stores_all;
use crate::tried::Tried;
use crate::two_queues::{APPEND_1, APPEND_2, PUT_1, PUT_2, REWRITE_1};
use raft_env::FileSystem;
use raft_queues::DualPipes;
use raft_records::{FileBlockHandle, FileId, LogQueue};
use std::alloc::Global;

/// A file of a queue, the offset and the number of bytes to read, and these bytes or the code with
/// which the read fails.
pub(crate) type Row = (LogQueue, u64, u64, usize, Result<&'static [u8], u8>);

pub(crate) static ROWS: [Tried; 8] = [
    Tried::Bytes(&(LogQueue::Append, 1, 69, 28, Ok(PUT_1))),
    Tried::Bytes(&(LogQueue::Append, 2, 69, 28, Ok(PUT_2))),
    Tried::Bytes(&(LogQueue::Rewrite, 1, 69, 28, Ok(PUT_1))),
    Tried::Bytes(&(LogQueue::Rewrite, 1, 97, 28, Ok(b""))),
    Tried::Bytes(&(LogQueue::Append, 0, 69, 28, Err(14))),
    Tried::Bytes(&(LogQueue::Append, 3, 69, 28, Err(14))),
    Tried::Bytes(&(LogQueue::Append, 12, 69, 13, Err(14))),
    Tried::Bytes(&(LogQueue::Rewrite, 2, 69, 28, Err(14))),
];

fn has_bytes<F: FileSystem>(alloc: Global, fs: &mut F, pipes: &DualPipes<F>, row: &Row) -> bool {
    let (queue, seq, offset, len, wanted) = row;
    let handle = FileBlockHandle {
        id: FileId::new(*queue, *seq),
        offset: *offset,
        len: *len,
    };
    let mut bytes = Vec::new(alloc);
    match (pipes.read_bytes(fs, handle, &mut bytes), wanted) {
        (Ok(()), Ok(wanted)) => bytes.as_slice() == *wanted,
        (Err(fault), Err(code)) => fault.code() == *code,
        _ => false,
    }
}

pub(crate) fn is_read<F: Failing>(alloc: Global, row: &Row) -> bool {
    let mut fs = F::fresh(alloc);
    if !stores_all(&mut fs, &[APPEND_1, APPEND_2, REWRITE_1]) {
        return false;
    }
    match opened(alloc, fs, &mut no_keys(alloc)) {
        Ok((pipes, mut files)) => {
            let is_so = has_bytes(alloc, &mut files, &pipes, row);
            drop(pipes);
            is_so
        }
        Err(_) => false,
    }
}
