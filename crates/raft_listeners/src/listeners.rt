//! All listeners to what happens to log files.
ghost use Rattle.std.specs.Prelude.{◌≡◌, ◌-◌, ◌<◌, ◌≤◌, [], ◌∷◌, min, true, OnOk, IfErr};
ghost use Rattle.std.specs.Option.{option_map_or};

use crate::hook::PurgeHook;
use crate::listener::{Event, EventListener};
use raft_base::{Fault, FileId, FileSeq, History, LogQueue};
use std::alloc::Global;
use std::marker::Model;

/// The caller's listeners in the given order, and then the hook. Contracts see them as `Heard`: the
/// events that they heard and the results that they returned. What a listener of the caller's does
/// with an event is up to it.
#[derive(Drop)]
pub struct Listeners {
    given: Vec<Box<dyn EventListener + Send>>,
    hook: PurgeHook,
    told: History<Event>,
    asked: History<History<Option<FileSeq>>>,
}

impl Model for Listeners {
    ghost use Rattle.raft_listeners.specs.Heard.{Heard, answers_of, waiting_after};
    ghost use Rattle.raft_listeners.specs.Waiting.{room_of, waiting_of};
    ghost use Rattle.std.specs.Prelude.{◌≡◌, vec_len};

    ghost Value = { Heard };

    ghost view = { λ l. record {
      given = vec_len l.given;
      told = l.told.items;
      asked = answers_of l.asked.items;
      room = room_of l.hook;
    } };

    ghost invariant = { λ l. waiting_of l.hook ≡ waiting_after l.told.items };
}

impl Listeners {
    ghost use Rattle.raft_listeners.specs.Heard.{HasAnswered, HasHeard, IsSilent, new_files};
    ghost use Rattle.raft_listeners.specs.Waiting.{needs_room};
    ghost use Rattle.raft_base.specs.declared.pipe_log.LogQueue.TheVariants.{Append};
    ghost use Rattle.std.specs.Prelude.{◌≡◌, ◌-◌, ◌<◌, ◌≤◌, [], ◌∷◌, true, OnOk, IfErr, vec_len};

    /// Nothing was reported yet. It takes no memory.
    pub fn new(alloc: Global, given: Vec<Box<dyn EventListener + Send>>) -> Listeners
        ensures silent { IsSilent (vec_len given) result }
    {
        Listeners {
            given,
            hook: PurgeHook::new(alloc),
            told: History::new(),
            asked: History::new(),
        }
    }

    /// The caller's listeners.
    pub fn into_given(self) -> Vec<Box<dyn EventListener + Send>>
        ensures value { vec_len result ≡ self.given }
    {
        self.given
    }

    /// Reserves room in the hook for this many more files of the Append queue.
    pub fn make_room(&mut self, files: usize) -> Result<(), Fault>
        ensures ok { OnOk result (files ≤ self.new.room) }
        ensures same { HasHeard [] self.old self.new }
        ensures cause { IfErr result (λ fault. fault ≡ Fault.Memory) }
    {
        self.hook.make_room(files)
    }

    /// Reports to each of them, to the hook last. For a new file of the Append queue the hook needs
    /// room.
    pub fn tell(&mut self, event: Event)
        requires { needs_room event ≡ true → 0 < self.old.room }
        ensures told { HasHeard (event ∷ []) self.old self.new }
    {
        for listener in &mut self.given {
            tell_given(listener, event);
        }
        self.hook.hear(event);
        self.told = self.told.with(&event);
    }

    /// Reports the files of a queue from this number on and before that one. For those of the
    /// Append queue the hook needs room.
    pub fn tell_files(&mut self, queue: LogQueue, first: FileSeq, end: FileSeq)
        requires { queue ≡ Append → end - first ≤ self.old.room }
        ensures told { HasHeard (new_files queue first (end - first)) self.old self.new }
    {
        for seq in first..end {
            self.tell(Event::NewLogFile(FileId::new(queue, seq)));
        }
    }

    /// The file before which a purge of the Append queue may drop files: the active one, or the least
    /// one that a listener or the hook keeps. Each of them is asked once.
    pub fn barrier(&mut self, active: FileSeq) -> FileSeq
        ensures answered { HasAnswered active result self.old self.new }
    {
        let mut answers = History::new();
        let mut barrier = active;
        for listener in &self.given {
            let kept = kept_by(listener);
            answers = answers.with(&kept);
            barrier = lesser(barrier, kept);
        }
        let kept = self.hook.first_waiting();
        answers = answers.with(&kept);
        self.asked = self.asked.with(&answers);
        lesser(barrier, kept)
    }
}

fn tell_given(listener: &mut Box<dyn EventListener + Send>, event: Event) {
    match event {
        Event::NewLogFile(file_id) => listener.post_new_log_file(file_id),
        Event::Append(handle) => listener.on_append_log_file(handle),
        Event::Apply(file_id) => listener.post_apply_memtables(file_id),
        Event::Purge(file_id) => listener.post_purge(file_id),
    }
}

// The first file of the Append queue that a listener keeps.
fn kept_by(listener: &Box<dyn EventListener + Send>) -> Option<FileSeq> {
    listener.first_file_not_ready_for_purge(LogQueue::Append)
}

fn lesser(barrier: FileSeq, kept: Option<FileSeq>) -> FileSeq
    ensures value { result ≡ option_map_or (λ seq. min barrier seq) kept barrier }
{
    match kept {
        Some(seq) => barrier.min(seq),
        None => barrier,
    }
}
