//! A log with a handle. Calls that change something give orders, and return after the caller has
//! carried these out.
ghost use Rattle.std.specs.Prelude.{◌≡◌, ◌∷◌, [], Some, length, pos, take};
ghost use Rattle.raft_env.specs.Refusal.{no_refusals};
ghost use Rattle.raft_disk.specs.Mirror.{mirror_directory, mirror_moments, mirror_refusals};
ghost use Rattle.raft_memory.specs.Settled.{settled_files};
ghost use Rattle.raft_c.specs.Logs.{GivesOrders, HasAdded, HasBegun, IsChange, IsClose, IsOpening, IsOpeningOver, IsRead, IsSettled};

use crate::loading::{Found, Loading};
use raft_c_log::{Answer, CacheCounts, Change, OpenLog, Query};
use raft_log_engine::Fault;
use raft_orders::{OrderedFileSystem, ordered_files};
use std::alloc::Global;

/// The code of a call on a log that isn't open.
const NOT_OPEN: i32 = 1;

/// The code of a call some of whose orders couldn't be carried out.
const IO: i32 = 3;

/// The code of a call on a log that is broken, or whose last call waits.
const FAILED: i32 = 11;

/// Whether the orders were carried out.
#[derive(Clone, Copy, Debug, PartialEq, Eq)]
pub enum Standing {
    /// Each of them was.
    Settled,
    /// The last call gave some, and its code is kept until then.
    Waiting(i32),
    /// An order failed, and no later call succeeds.
    Broken,
}

#[derive(Drop)]
pub enum State {
    /// The files that were found until now.
    Loading(Loading),
    Open(OpenLog<OrderedFileSystem>),
    /// Closed, or refused: the files as they were left.
    Closed(OrderedFileSystem),
    /// Without files: closed before it was opened, or without memory for them.
    Ended,
}

#[derive(Drop)]
pub struct Log {
    alloc: Global,
    standing: Standing,
    state: State,
    answer: Answer,
}

impl Log {
    pub(crate) fn new(alloc: Global) -> Log
        ensures value { HasBegun (pos 0) (Some result) }
    {
        Log {
            alloc,
            standing: Standing::Settled,
            state: State::Loading(Loading::new(alloc)),
            answer: Answer::new(alloc),
        }
    }

    /// Adds the file or folder that was found at a path, and returns a code.
    pub(crate) fn add(&mut self, path: &[u8], found: Found<'_>) -> i32
        ensures value { HasAdded path.now found.entry result (Some self.old) (Some self.new) }
    {
        match &mut self.state {
            State::Loading(loading) => loading.add(self.alloc, path, found),
            State::Open(_) | State::Closed(_) | State::Ended => NOT_OPEN,
        }
    }

    /// Opens the log over the added files, with these settings. Its orders go to a descriptor;
    /// below 0 none are written. The code waits for them. Nothing changes if a code waits already,
    /// or if the log is broken.
    pub(crate) fn open(&mut self, out: i32, settings: &[u8])
        ensures orders { GivesOrders (IsOpening settings.now self.old.state self.new.state)
            self.old self.new }
    {
        if self.standing != Standing::Settled {
            return;
        }
        let code = self.open_found(out, settings);
        self.standing = Standing::Waiting(code);
    }

    fn open_found(&mut self, out: i32, settings: &[u8]) -> i32
        ensures value { IsOpening settings.now self.old.state self.new.state result }
    {
        match std::mem::replace(&mut self.state, State::Ended) {
            State::Loading(loading) => self.open_over(loading, out, settings),
            State::Open(log) => {
                self.state = State::Open(log);
                NOT_OPEN
            }
            State::Closed(files) => {
                self.state = State::Closed(files);
                NOT_OPEN
            }
            State::Ended => NOT_OPEN,
        }
    }

    fn open_over(&mut self, loading: Loading, out: i32, settings: &[u8]) -> i32
        ensures value { IsOpeningOver settings.now
            (settled_files loading.files.items loading.folders.items) result self.new.state }
    {
        let out = if out < 0 { None } else { Some(out) };
        match ordered_files(self.alloc, out, loading.files, loading.folders) {
            Ok(files) => self.open_files(files, settings),
            Err(_) => {
                self.state = State::Ended;
                self.answer.keep(&Fault::Memory)
            }
        }
    }

    fn open_files(&mut self, files: OrderedFileSystem, settings: &[u8]) -> i32
        requires new { mirror_moments files ≡ mirror_directory files ∷ [] }
        requires unrefused { mirror_refusals files ≡ no_refusals }
        ensures value { IsOpeningOver settings.now (mirror_directory files) result
            self.new.state }
    {
        match OpenLog::open(self.alloc, settings, files, &mut self.answer) {
            Ok(log) => {
                self.state = State::Open(log);
                0
            }
            Err(unopened) => {
                self.state = State::Closed(unopened.files);
                unopened.code
            }
        }
    }

    /// Carries a change out. Its code waits for its orders. Nothing changes if a code waits
    /// already, or if the log is broken.
    pub(crate) fn change(&mut self, change: Change<'_>)
        ensures orders { GivesOrders (IsChange change.entry self.old.state self.new.state
            self.new.answer) self.old self.new }
    {
        if self.standing != Standing::Settled {
            return;
        }
        let code = match &mut self.state {
            State::Open(log) => log.change(change, &mut self.answer),
            State::Loading(_) | State::Closed(_) | State::Ended => NOT_OPEN,
        };
        self.standing = Standing::Waiting(code);
    }

    /// Closes the log. The code waits for its orders. Nothing changes if a code waits already, or
    /// if the log is broken.
    pub(crate) fn close(&mut self)
        ensures orders { GivesOrders (IsClose self.old.state self.new.state) self.old self.new }
    {
        if self.standing != Standing::Settled {
            return;
        }
        let code = self.close_open();
        self.standing = Standing::Waiting(code);
    }

    fn close_open(&mut self) -> i32
        ensures value { IsClose self.old.state self.new.state result }
    {
        match std::mem::replace(&mut self.state, State::Ended) {
            State::Open(log) => {
                let (code, files) = log.close(&mut self.answer);
                self.state = State::Closed(files);
                code
            }
            State::Loading(_) | State::Closed(_) | State::Ended => 0,
        }
    }

    /// The code of the call that waits, if the caller carried its orders out.
    pub(crate) fn settle(&mut self, carried_out: bool) -> i32
        ensures value { IsSettled carried_out result self.old self.new }
    {
        if !carried_out {
            self.standing = Standing::Broken;
            return IO;
        }
        match self.standing {
            Standing::Waiting(code) => {
                self.standing = Standing::Settled;
                code
            }
            Standing::Settled | Standing::Broken => FAILED,
        }
    }

    /// Reads, and returns a code.
    pub(crate) fn read(&mut self, query: Query<'_>) -> i32
        ensures value { IsRead query.entry result self.old self.new }
    {
        if self.standing != Standing::Settled {
            return FAILED;
        }
        match &mut self.state {
            State::Open(log) => log.read(query, &mut self.answer),
            State::Loading(_) | State::Closed(_) | State::Ended => NOT_OPEN,
        }
    }

    /// Copies the last result, as many bytes as fit, and returns its length.
    pub(crate) fn copy_answer(&self, out: &mut [u8]) -> u64
        ensures value { result ≡ length self.now.answer.bytes.items }
        ensures out { take result out.new ≡ take (length out.old) self.now.answer.bytes.items }
    {
        let bytes = self.answer.bytes.as_slice();
        let count = bytes.len().min(out.len());
        out[..count].copy_from_slice(&bytes[..count]);
        bytes.len() as u64
    }

    /// How many bytes of memory the index has reserved, with the counts of the kept blocks. All are
    /// 0 if the log isn't open.
    pub(crate) fn counts(&self) -> (u64, CacheCounts) {
        match &self.state {
            State::Open(log) => (log.index_memory(), log.cache_counts()),
            State::Loading(_) | State::Closed(_) | State::Ended => {
                (0, CacheCounts { hits: 0, misses: 0 })
            }
        }
    }

    /// The numbers of the last call's result.
    pub(crate) fn numbers(&self) -> (u64, u64)
        ensures value { result ≡ self.now.answer.numbers }
    {
        self.answer.numbers
    }
}
