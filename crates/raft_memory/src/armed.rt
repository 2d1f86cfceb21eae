//! Refusals that a test sets up in a file system in memory.
ghost use Rattle.std.specs.Prelude.{◌≡◌, ◌<◌, [], ◌∷◌, ◌++◌, Some, None, OnOk, OnErr, IfErr, IfSome, IsTrue, not};
ghost use Rattle.raft_memory.specs.Choice.{RefusesUnless};

use crate::memory::MemoryFileSystem;
use raft_base::Fault;
use raft_env::IoKind;
use std::alloc::Global;
use std::sync::atomic::{AtomicU64, Ordering};

/// The sorts of file calls.
#[derive(Clone, Copy, Debug, PartialEq, Eq)]
pub enum FsCall {
    Create,
    Open,
    Delete,
    Rename,
    DeleteMetadata,
    NewReader,
    NewWriter,
    Write,
    Truncate,
    Allocate,
    Sync,
    FileSize,
    MakeDir,
    List,
    FreeSpace,
    Read,
}

#[derive(Drop)]
pub(crate) struct ArmedRefusal {
    call: FsCall,
    // How many calls of that sort come up to the failed one, with it; reads don't count here.
    left: u64,
    kind: IoKind,
    // The same of reads, which share the file system. No clause tells its value.
    reads_left: AtomicU64,
}

impl ArmedRefusal {
    ghost use Rattle.raft_memory.specs.Armed.{arm_of, is_due, one_less, same_call};

    fn is_due(&self, call: FsCall) -> bool
        ensures { result ≡ is_due call (arm_of self.now) }
    {
        call == self.call && self.left <= 1
    }

    // Counts a call, and says whether the refusal stays armed.
    fn stays_after(&mut self, call: FsCall) -> bool
        ensures value { result ≡ not (is_due call (arm_of self.old)) }
        ensures ok { arm_of self.new ≡ one_less call (arm_of self.old) }
    {
        let is_due = self.is_due(call);
        if call == self.call {
            self.left = self.left.saturating_sub(1);
        }
        !is_due
    }

    // Counts a read, and says whether that is the failed one.
    fn is_due_read(&self) -> bool
        ensures { IsTrue result → self.now.call ≡ FsCall.Read }
    {
        self.call == FsCall::Read && self.reads_left.fetch_sub(1, Ordering::SeqCst) == 1
    }
}

#[derive(Drop)]
pub(crate) struct Armed {
    refusals: Vec<ArmedRefusal>,
    stop: Option<u64>,
}

impl Armed {
    ghost use Rattle.raft_memory.specs.Armed.{IsArmed, arm_of, arms_after, arms_after_block, arms_of, due_in_block, due_kind, injected, is_due, one_less, stop_after};

    pub(crate) fn new(alloc: Global) -> Armed
        ensures armed { arms_of result.refusals.items ≡ [] }
        ensures stop { result.stop ≡ None }
    {
        Armed {
            refusals: Vec::new(alloc),
            stop: None,
        }
    }

    // The fault with which the next call of that sort is to fail.
    fn due_kind(&self, call: FsCall) -> Option<IoKind>
        ensures { result ≡ due_kind call (arms_of self.now.refusals.items) }
    {
        for armed in &self.refusals {
            if armed.is_due(call) {
                return Some(armed.kind);
            }
        }
        None
    }

    /// Counts the call, and returns the fault with which it is to fail.
    #[inline(always)]
    pub(crate) fn fault_for(&mut self, call: FsCall) -> Option<IoKind>
        ensures value { result ≡ due_kind call (arms_of self.old.refusals.items) }
        ensures armed { arms_of self.new.refusals.items
            ≡ arms_after call (arms_of self.old.refusals.items) }
        ensures stop { self.new.stop ≡ self.old.stop }
    {
        let due = self.due_kind(call);
        let stays = |armed: &mut ArmedRefusal| -> bool
            ensures { (result ≡ not (is_due call (arm_of armed.entry.now)))
                × (arm_of armed.exit.now ≡ one_less call (arm_of armed.entry.now)) }
        { armed.stays_after(call) };
        self.refusals.retain_mut(stays);
        due
    }

    /// The same for a call that changes files, which counts for the stop too.
    #[inline(always)]
    pub(crate) fn fault_for_change(&mut self, call: FsCall) -> Option<IoKind>
        ensures value { result ≡ injected call (arms_of self.old.refusals.items) self.old.stop }
        ensures armed { arms_of self.new.refusals.items
            ≡ arms_after call (arms_of self.old.refusals.items) }
        ensures stop { self.new.stop ≡ stop_after self.old.stop }
    {
        let due = self.fault_for(call);
        match self.stop {
            Some(nth) if nth > 1 => {
                self.stop = Some(nth - 1);
                due
            }
            Some(_) => Some(IoKind::Other),
            None => due,
        }
    }

    /// Counts the calls that a block's read replaces: to open the file, for its size, and for a
    /// reader.
    pub(crate) fn fault_for_block(&mut self) -> Option<IoKind>
        ensures value { result ≡ due_in_block (arms_of self.old.refusals.items) }
        ensures armed { arms_of self.new.refusals.items
            ≡ arms_after_block (arms_of self.old.refusals.items) }
        ensures stop { self.new.stop ≡ self.old.stop }
    {
        if self.refusals.is_empty() {
            return None;
        }
        let open = self.fault_for(FsCall::Open);
        let size = self.fault_for(FsCall::FileSize);
        let reader = self.fault_for(FsCall::NewReader);
        open.or(size).or(reader)
    }

    /// The same for a read. Reads may come at the same time, so no clause says which of them fails.
    pub(crate) fn fault_for_read(&self) -> Option<IoKind>
        ensures { IfSome result (λ kind. IsArmed (arms_of self.now.refusals.items) FsCall.Read
            kind) }
    {
        let mut due = None;
        for armed in &self.refusals {
            if armed.is_due_read() {
                due = Some(armed.kind);
            }
        }
        due
    }
}

impl MemoryFileSystem {
    ghost use Rattle.raft_memory.specs.Memory.{memory_directory, memory_moments, memory_refusals, armed_of, stop_of};

    /// Sets up one more refusal: from now on exactly the nth call of that sort, counted from 1,
    /// fails with this fault. A write that fails in this way has written the first half of its
    /// bytes, rounded down, if all of them have room. Without memory for the half it has written
    /// nothing and fails with `Memory`. Any other call has changed nothing.
    pub fn refuse(&mut self, call: FsCall, nth: u64, kind: IoKind) -> Result<(), Fault>
        ensures ok { OnOk result (armed_of self.new ≡ armed_of self.old ++ (call, nth, kind) ∷ []) }
        ensures err { OnErr result (armed_of self.new ≡ armed_of self.old) }
        ensures value { OnOk result (0 < nth) }
        ensures cause { IfErr result (RefusesUnless (0 < nth)) }
        ensures others { stop_of self.new ≡ stop_of self.old }
        ensures unchanged { memory_directory self.new ≡ memory_directory self.old }
        ensures any_moment { memory_moments self.new ≡ memory_moments self.old }
        ensures counts { memory_refusals self.new ≡ memory_refusals self.old }
    {
        if nth == 0 {
            return Err(Fault::InvalidArgument("calls are counted from 1"));
        }
        self.armed.refusals.push(ArmedRefusal {
            call,
            left: nth,
            kind,
            reads_left: AtomicU64::new(nth),
        })?;
        Ok(())
    }

    /// From now on the nth call that may change files, counted from 1, and each later one fail with
    /// `Other`. These are the calls that create, delete, rename, delete metadata, write, truncate,
    /// allocate, sync and make a folder.
    pub fn stop_at(&mut self, nth: u64)
        ensures ok { stop_of self.new ≡ Some nth }
        ensures others { armed_of self.new ≡ armed_of self.old }
        ensures unchanged { memory_directory self.new ≡ memory_directory self.old }
        ensures any_moment { memory_moments self.new ≡ memory_moments self.old }
        ensures counts { memory_refusals self.new ≡ memory_refusals self.old }
    {
        self.armed.stop = Some(nth);
    }
}
