//! What listeners hear of a purge.
ghost use Rattle.std.specs.Prelude.{◌≡◌, ◌<◌, ◌^◌, false};
ghost use Rattle.raft_listeners.specs.Heard.{HasHeard};
ghost use Rattle.raft_log_engine.specs.Events.{file_begun, files_dropped, purge_events};

use super::Engine;
use super::file_spans::FileSpans;
use raft_env::FileSystem;
use raft_listeners::{Event, EventSink};
use raft_records::{FileId, FileSeq, LogQueue};

impl<F: FileSystem> Engine<F> {
    ghost use Rattle.raft_log_engine.specs.Engine.{has_failed, queue_of, rewrite_queue_of, spans_of};
    ghost use Rattle.raft_pipes.specs.PipeState.{last_seq};

    /// The numbers of its log files. If the engine failed, nothing is said of them.
    pub fn file_spans(&self) -> FileSpans
        ensures append { result.append
            ≡ ((queue_of self.now).first, last_seq (queue_of self.now)) }
        ensures rewrite { result.rewrite
            ≡ ((rewrite_queue_of self.now).first, last_seq (rewrite_queue_of self.now)) }
        ensures value { result ≡ spans_of self.now }
        ensures fits { (result.append.1 < 10 ^ 16) × (result.rewrite.1 < 10 ^ 16) }
    {
        FileSpans {
            append: self.log.store.pipes.file_span(LogQueue::Append),
            rewrite: self.log.store.pipes.file_span(LogQueue::Rewrite),
        }
    }

    // Reports what a purge did to these files. If the engine failed, nothing is reported.
    pub(super) fn tell_purge<L: EventSink>(&self, found: &FileSpans, listeners: &mut L)
        requires room { 0 < (L.heard listeners.old).room }
        requires fits { found.now.append.1 < 10 ^ 16 }
        ensures told { has_failed self.now ≡ false → HasHeard
            (purge_events found.now (spans_of self.now)) (L.heard listeners.old)
            (L.heard listeners.new) }
    {
        if self.failed {
            return;
        }
        tell_changes(found, &self.file_spans(), listeners);
    }
}

// Reports what a purge changed of these files: the next one of the Append queue, and of each queue
// the last one that was dropped. The hook needs room for a file.
fn tell_changes<L: EventSink>(found: &FileSpans, left: &FileSpans, listeners: &mut L)
    requires room { 0 < (L.heard listeners.old).room }
    requires fits { found.now.append.1 < 10 ^ 16 }
    ensures told { HasHeard (purge_events found.now left.now) (L.heard listeners.old)
        (L.heard listeners.new) }
{
    tell_begun(listeners, found.append.1, left.append.1);
    tell_dropped(
        listeners,
        LogQueue::Rewrite,
        found.rewrite.0,
        left.rewrite.0,
    );
    tell_dropped(listeners, LogQueue::Append, found.append.0, left.append.0);
}

// Reports the Append queue's next file, if it began one.
fn tell_begun<L: EventSink>(listeners: &mut L, before: FileSeq, last: FileSeq)
    requires room { 0 < (L.heard listeners.old).room }
    requires fits { before < 10 ^ 16 }
    ensures told { HasHeard (file_begun before last) (L.heard listeners.old)
        (L.heard listeners.new) }
{
    if before >= last {
        return;
    }
    listeners.tell(Event::NewLogFile(FileId::new(LogQueue::Append, before + 1)));
}

// Reports the last dropped file of a queue, if its first file is a later one.
fn tell_dropped<L: EventSink>(listeners: &mut L, queue: LogQueue, before: FileSeq, first: FileSeq)
    ensures told { HasHeard (files_dropped queue before first) (L.heard listeners.old)
        (L.heard listeners.new) }
{
    if before >= first {
        return;
    }
    listeners.tell(Event::Purge(FileId::new(queue, first - 1)));
}
