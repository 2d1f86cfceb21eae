//! Which files of the Append queue have records that the tables have not taken yet.
ghost use Rattle.std.specs.Prelude.{◌≡◌, ◌⊎◌, ◌↔◌, ◌+◌, ◌-◌, ◌^◌, ◌<◌, ◌≤◌, [], suc, true, false, length, drop, OnOk, OnErr, IfErr, MatchOption};

use crate::listener::{Event, EventListener};
use raft_base::{Fault, FileBlockHandle, FileId, FileSeq, LogQueue};
use raft_records::Fresh;
use std::alloc::Global;
use std::collections::VecDeque;

// No log file has this number or a greater one.
const END_OF_NUMBERS: FileSeq = 10_000_000_000_000_000;

/// The files of the Append queue, with consecutive numbers, and how many records of each were
/// appended and not applied yet. Contracts see it as `waiting_of`.
#[derive(Debug, Drop)]
pub struct PurgeHook {
    first: FileSeq,
    counts: VecDeque<u64>,
    ghost numbered: { first + length counts.items ≤ 10 ^ 16 },
}

impl PurgeHook {
    ghost use Rattle.raft_listeners.specs.Waiting.{IsFirstWaiting, after_event, can_drop, can_follow, can_lower, can_raise, is_held, needs_room, room_for, room_of, waiting_at, waiting_of, with_count, with_file, without_files};

    /// A hook that holds no files. It takes no memory.
    pub fn new(alloc: Global) -> PurgeHook
        ensures value { waiting_of result ≡ record { first = 0; counts = [] } }
    {
        PurgeHook {
            first: 0,
            counts: VecDeque::new(alloc),
        }
    }

    /// Reserves room for this many more files.
    pub fn make_room(&mut self, files: usize) -> Result<(), Fault>
        ensures ok { OnOk result (files ≤ room_of self.new) }
        ensures same { waiting_of self.new ≡ waiting_of self.old }
        ensures room { room_of self.old ≤ room_of self.new }
        ensures cause { IfErr result (λ fault. fault ≡ Fault.Memory) }
    {
        self.counts.reserve(files)?;
        Ok(())
    }

    /// Holds one more file. It fails with `Range` if the file does not follow those that it holds.
    pub fn new_log_file(&mut self, seq: FileSeq) -> Result<(), Fault>
        ensures ok { OnOk result (waiting_of self.new ≡ with_file (waiting_of self.old) seq) }
        ensures err { OnErr result (waiting_of self.new ≡ waiting_of self.old) }
        ensures range { (result ≡ Err Fault.Range) ↔ (can_follow (waiting_of self.old) seq ≡ false) }
        ensures cause { IfErr result (λ fault. (fault ≡ Fault.Range) ⊎ (fault ≡ Fault.Memory)) }
        ensures memory { 0 < room_of self.old → can_follow (waiting_of self.old) seq ≡ true
            → result ≡ Ok tt }
        ensures room { room_of self.old ≤ suc (room_of self.new) }
    {
        let is_next = self.counts.is_empty() || seq == self.end();
        if seq >= END_OF_NUMBERS || !is_next {
            return Err(Fault::Range);
        }
        self.counts.push_back(0)?;
        if self.counts.len() == 1 {
            self.first = seq;
        }
        Ok(())
    }

    // The number behind its last file.
    fn end(&self) -> FileSeq
        ensures value { result ≡ self.now.first + length self.now.counts.items }
    {
        self.first + self.counts.len() as u64
    }

    // The place of a file that it holds.
    fn place_of(&self, seq: FileSeq) -> Option<usize>
        ensures value { MatchOption result (is_held (waiting_of self.now) seq ≡ false)
            (λ at. (is_held (waiting_of self.now) seq ≡ true) × (seq ≡ self.now.first + at)
            × (at < length self.now.counts.items)) }
    {
        let at = seq.checked_sub(self.first)?;
        if at < self.counts.len() as u64 {
            Some(at as usize)
        } else {
            None
        }
    }

    /// One more record of the file was appended. It fails with `Range` if the hook does not hold
    /// the file, or if its count is 2^64 - 1.
    pub fn append_log_file(&mut self, seq: FileSeq) -> Result<(), Fault>
        ensures ok { OnOk result (waiting_of self.new ≡ with_count (waiting_of self.old) seq
            (waiting_at (waiting_of self.old) seq + 1)) }
        ensures err { OnErr result (waiting_of self.new ≡ waiting_of self.old) }
        ensures range { (result ≡ Err Fault.Range) ↔ (can_raise (waiting_of self.old) seq ≡ false) }
        ensures room { room_of self.old ≤ room_of self.new }
        ensures cause { IfErr result (λ fault. fault ≡ Fault.Range) }
    {
        let Some(at) = self.place_of(seq) else {
            return Err(Fault::Range);
        };
        let Some(count) = self.counts[at].checked_add(1) else {
            return Err(Fault::Range);
        };
        self.counts[at] = count;
        Ok(())
    }

    /// A record of the file was applied. It fails with `Range` if the hook does not hold the file,
    /// or if none of its records waits.
    pub fn applied(&mut self, seq: FileSeq) -> Result<(), Fault>
        ensures ok { OnOk result (waiting_of self.new ≡ with_count (waiting_of self.old) seq
            (waiting_at (waiting_of self.old) seq - 1)) }
        ensures err { OnErr result (waiting_of self.new ≡ waiting_of self.old) }
        ensures range { (result ≡ Err Fault.Range) ↔ (can_lower (waiting_of self.old) seq ≡ false) }
        ensures room { room_of self.old ≤ room_of self.new }
        ensures cause { IfErr result (λ fault. fault ≡ Fault.Range) }
    {
        let Some(at) = self.place_of(seq) else {
            return Err(Fault::Range);
        };
        let Some(count) = self.counts[at].checked_sub(1) else {
            return Err(Fault::Range);
        };
        self.counts[at] = count;
        Ok(())
    }

    /// The file and all before it were dropped. It fails with `Range` if the file is past the last
    /// one that the hook holds.
    pub fn purged(&mut self, seq: FileSeq) -> Result<(), Fault>
        ensures ok { OnOk result (waiting_of self.new ≡ without_files (waiting_of self.old) seq) }
        ensures err { OnErr result (waiting_of self.new ≡ waiting_of self.old) }
        ensures range { (result ≡ Err Fault.Range) ↔ (can_drop (waiting_of self.old) seq ≡ false) }
        ensures room { room_of self.old ≤ room_of self.new }
        ensures cause { IfErr result (λ fault. fault ≡ Fault.Range) }
    {
        if self.counts.is_empty() || seq >= self.end() {
            return Err(Fault::Range);
        }
        if seq >= self.first {
            self.drop_first((seq + 1 - self.first) as usize);
        }
        Ok(())
    }

    fn drop_first(&mut self, count: usize)
        requires { count ≤ length self.old.counts.items }
        ensures counts { self.new.counts.items ≡ drop count self.old.counts.items }
        ensures room { room_of self.old ≤ room_of self.new }
        ensures first { self.new.first ≡ self.old.first + count }
    {
        for _ in 0..count {
            self.counts.pop_front();
        }
        self.first += count as u64;
    }

    /// The events that it hears as a listener.
    pub fn hear(&mut self, event: Event)
        ensures value { (needs_room event ≡ true → 0 < room_of self.old)
            → waiting_of self.new ≡ after_event (waiting_of self.old) event }
        ensures room { room_of self.old ≤ room_for event + room_of self.new }
    {
        match event {
            Event::NewLogFile(file_id) => self.post_new_log_file(file_id),
            Event::Append(handle) => self.on_append_log_file(handle),
            Event::Apply(file_id) => self.post_apply_memtables(file_id),
            Event::Purge(file_id) => self.post_purge(file_id),
        }
    }

    /// The least of its files with a waiting record.
    pub fn first_waiting(&self) -> Option<FileSeq>
        ensures value { IsFirstWaiting (waiting_of self.now) result }
    {
        for at in 0..self.counts.len() {
            if self.counts[at] > 0 {
                return Some(self.first + at as u64);
            }
        }
        None
    }
}

impl Fresh for PurgeHook {
    ghost use Rattle.raft_listeners.specs.Waiting.{waiting_of};

    ghost is_fresh = { λ hook. (waiting_of hook).counts ≡ [] };

    fn fresh(alloc: Global) -> PurgeHook {
        PurgeHook::new(alloc)
    }
}

// Only what it is told of the Append queue counts, and what is out of order changes nothing.
impl EventListener for PurgeHook {
    ghost use Rattle.raft_listeners.specs.Waiting.{IsFirstWaiting, after_event, needs_room, room_for, room_of, waiting_of};
    ghost use Rattle.raft_listeners.specs.declared.listener.Event.TheVariants as event;

    fn post_new_log_file(&mut self, file_id: FileId)
        ensures value { (needs_room (event.NewLogFile file_id) ≡ true → 0 < room_of self.old)
            → waiting_of self.new ≡ after_event (waiting_of self.old) (event.NewLogFile file_id) }
        ensures room { room_of self.old
            ≤ room_for (event.NewLogFile file_id) + room_of self.new }
    {
        if file_id.queue == LogQueue::Append {
            let _ = self.new_log_file(file_id.seq);
        }
    }

    fn on_append_log_file(&mut self, handle: FileBlockHandle)
        ensures value { waiting_of self.new
            ≡ after_event (waiting_of self.old) (event.Append handle) }
        ensures room { room_of self.old ≤ room_of self.new }
    {
        if handle.id.queue == LogQueue::Append {
            let _ = self.append_log_file(handle.id.seq);
        }
    }

    fn post_apply_memtables(&mut self, file_id: FileId)
        ensures value { waiting_of self.new
            ≡ after_event (waiting_of self.old) (event.Apply file_id) }
        ensures room { room_of self.old ≤ room_of self.new }
    {
        if file_id.queue == LogQueue::Append {
            let _ = self.applied(file_id.seq);
        }
    }

    fn post_purge(&mut self, file_id: FileId)
        ensures value { waiting_of self.new
            ≡ after_event (waiting_of self.old) (event.Purge file_id) }
        ensures room { room_of self.old ≤ room_of self.new }
    {
        if file_id.queue == LogQueue::Append {
            let _ = self.purged(file_id.seq);
        }
    }

    fn first_file_not_ready_for_purge(&self, queue: LogQueue) -> Option<FileSeq>
        ensures append { queue ≡ LogQueue.Append → IsFirstWaiting (waiting_of self.now) result }
        ensures rewrite { queue ≡ LogQueue.Rewrite → result ≡ None }
    {
        if queue == LogQueue::Append {
            self.first_waiting()
        } else {
            None
        }
    }
}
