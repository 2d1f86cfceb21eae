//! Listeners that keep log files from being dropped.
ghost use Rattle.raft_listeners.specs.Heard.{HasAnswered};

use crate::event_sink::EventSink;
use crate::listeners::Listeners;
use raft_base::FileSeq;

/// A listener to what happens to log files, which keeps some of them from being dropped.
pub trait FileKeeper: EventSink {
    /// The file before which a purge of the Append queue may drop files: the active one, or the
    /// least kept one. Each listener and the hook is asked once.
    fn barrier(&mut self, active: FileSeq) -> FileSeq
        ensures answered { HasAnswered active result (Self.heard self.old) (Self.heard self.new) };
}

impl FileKeeper for Listeners {
    fn barrier(&mut self, active: FileSeq) -> FileSeq {
        self.barrier(active)
    }
}
