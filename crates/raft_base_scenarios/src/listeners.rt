//! Listeners: what they hear, and which files they keep from a purge.

use crate::told::assert_row;
use raft_base::{Fault, FileBlockHandle, FileId, FileSeq, LogQueue};
use raft_listeners::{Event, EventListener, Listeners};
use std::alloc::Global;
use std::sync::Arc;
use std::sync::atomic::{AtomicU64, Ordering};

/// A listener that notes a digit for each call and keeps one file.
#[derive(Drop)]
struct Counting {
    heard: Arc<AtomicU64>,
    kept: Option<FileSeq>,
}

impl Counting {
    fn note(&self, digit: u64) {
        let before = self.heard.load(Ordering::SeqCst);
        self.heard.store(
            before.saturating_mul(10).saturating_add(digit),
            Ordering::SeqCst,
        );
    }
}

impl EventListener for Counting {
    fn post_new_log_file(&mut self, _file_id: FileId) {
        self.note(1);
    }

    fn on_append_log_file(&mut self, _handle: FileBlockHandle) {
        self.note(2);
    }

    fn post_apply_memtables(&mut self, _file_id: FileId) {
        self.note(3);
    }

    fn post_purge(&mut self, _file_id: FileId) {
        self.note(4);
    }

    fn first_file_not_ready_for_purge(&self, _queue: LogQueue) -> Option<FileSeq> {
        self.kept
    }
}

fn block(seq: FileSeq) -> FileBlockHandle {
    FileBlockHandle {
        id: FileId::new(LogQueue::Append, seq),
        offset: 69,
        len: 1,
    }
}

// A listener that notes in this list and keeps that file.
fn noting(
    alloc: Global,
    heard: &Arc<AtomicU64>,
    kept: Option<FileSeq>,
) -> Result<Box<Counting>, Fault> {
    let heard = Arc::try_clone(heard)?;
    Ok(Box::new(alloc, Counting { heard, kept })?)
}

// The first file that is kept before the record of file 3 is applied, and the first one after.
fn barriers(listeners: &mut Listeners) -> Result<(FileSeq, FileSeq), Fault> {
    listeners.make_room(3)?;
    listeners.tell_files(LogQueue::Append, 1, 4);
    listeners.tell(Event::Append(block(3)));
    let before = listeners.barrier(3);
    listeners.tell(Event::Apply(FileId::new(LogQueue::Append, 3)));
    listeners.tell(Event::Purge(FileId::new(LogQueue::Append, 1)));
    Ok((before, listeners.barrier(3)))
}

// Whether two listeners, of which the second keeps a file, hear each event in order.
fn is_heard(alloc: Global) -> Result<bool, Fault> {
    let heard = Arc::new(alloc, AtomicU64::new(0))?;
    let mut given: Vec<Box<dyn EventListener + Send>> = Vec::new(alloc);
    given.push(noting(alloc, &heard, None)?)?;
    given.push(noting(alloc, &heard, Some(2))?)?;
    let mut listeners = Listeners::new(alloc, given);
    let kept = barriers(&mut listeners)?;
    Ok(kept == (2, 2) && heard.load(Ordering::SeqCst) == 111_111_223_344)
}

#[test]
fn each_listener_hears_each_event_in_order(rt: HostRuntime) {
    assert_row(&rt, is_heard(rt.alloc()), "two listeners");
}
