//! Receivers of events on log files: listeners and the hook, or nobody.
ghost use Rattle.std.specs.Prelude.{◌≡◌, ◌-◌, ◌<◌, ◌≤◌, [], ◌∷◌, true, OnOk, IfErr};
ghost use Rattle.raft_base.specs.declared.pipe_log.LogQueue.TheVariants.{Append};
ghost use Rattle.raft_listeners.specs.Heard.{HasHeard, Heard, new_files};
ghost use Rattle.raft_listeners.specs.Waiting.{needs_room};

use crate::listener::Event;
use crate::listeners::Listeners;
use crate::no_listeners::NoListeners;
use raft_base::{Fault, FileId, FileSeq, LogQueue};

/// A receiver of events on log files.
pub trait EventSink: Drop {
    /// The events that it received.
    ghost heard: { Self → Heard };

    /// Reserves room for this many more files of the Append queue.
    fn make_room(&mut self, files: usize) -> Result<(), Fault>
        ensures ok { OnOk result (files ≤ (heard self.new).room) }
        ensures same { HasHeard [] (heard self.old) (heard self.new) }
        ensures cause { IfErr result (λ fault. fault ≡ Fault.Memory) };

    /// Reports an event. A new file of the Append queue needs room.
    fn tell(&mut self, event: Event)
        requires { needs_room event ≡ true → 0 < (heard self.old).room }
        ensures told { HasHeard (event ∷ []) (heard self.old) (heard self.new) };
}

impl EventSink for Listeners {
    ghost heard = { λ l. l };

    fn make_room(&mut self, files: usize) -> Result<(), Fault> {
        self.make_room(files)
    }

    fn tell(&mut self, event: Event) {
        self.tell(event)
    }
}

impl EventSink for NoListeners {
    ghost heard = { λ l. l };

    fn make_room(&mut self, files: usize) -> Result<(), Fault> {
        self.make_room(files)
    }

    fn tell(&mut self, event: Event) {
        self.note(event)
    }
}

/// Reports the files of a queue from this number on and before that one. Those of the Append queue
/// need room.
pub fn tell_files<S: EventSink>(sink: &mut S, queue: LogQueue, first: FileSeq, end: FileSeq)
    requires { queue ≡ Append → end - first ≤ (S.heard sink.old).room }
    ensures told { HasHeard (new_files queue first (end - first)) (S.heard sink.old)
        (S.heard sink.new) }
{
    for seq in first..end {
        sink.tell(Event::NewLogFile(FileId::new(queue, seq)));
    }
}
