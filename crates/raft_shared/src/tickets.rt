//! The calls by which threads share a sync.
ghost use Rattle.std.specs.Prelude.{◌≡◌, ◌⊎◌, [], false, Some, Ok, Err, IfOk, IfErr, IfSome, OnOk, OnErr, slice_get};
ghost use Rattle.std.specs.Sync.Mutex.{mutex_guard_value};
ghost use Rattle.raft_shared.specs.History.{Done, Get, Purge, Size, Sync, Write};
ghost use Rattle.raft_shared.specs.Words.{reason_of, told_by};
ghost use Rattle.raft_shared.specs.TicketCalls.{FailsAs, FailsInTurn, IsTold, IsToldAt, IsToldInTurn, IsToldNothing, IsWrittenAt, KeepsRefused, MayBeToldSync, event_by};
ghost use Rattle.raft_shared.specs.Origin.{origin_of};

use crate::book::{Book, Naming, Opened};
use crate::call::Purged;
use crate::desk::{Desk, Noted};
use crate::gate::Gate;
use crate::seat::Seat;
use crate::shared::Shared;
use crate::ticket::{Covered, Durable, Ticket};
use raft_log_engine::{Fault, FileSystem, LogBatch};
use std::sync::{Condvar, Mutex, MutexGuard, Wait};

/// A shared engine whose threads share syncs.
#[derive(Drop)]
pub struct Tickets<F: FileSystem, J: Naming> {
    book: Book<J>,
    desk: Mutex<Desk<F, J>>,
    gate: Mutex<Gate<J>>,
    // A write is finished; the leading thread waits for it.
    written: Condvar,
    // A sync has returned; waiting threads wait for it.
    answered: Condvar,
    bound: u64,
}

impl<F: FileSystem, J: Naming> Tickets<F, J> {
    ghost use Rattle.raft_shared.specs.Shared.{receipts_of};
    ghost use Rattle.raft_shared.specs.Answer.{Answers};

    /// Makes tickets for an engine that was just shared. Before it syncs, the leading thread waits
    /// for the writes that have begun, at most `bound` of them.
    pub fn new(opened: Opened, shared: Shared<F>, bound: u64) -> Tickets<F, J>
        requires book { opened.seen.book ≡ J.book }
        requires origin { J.origin ≡ Some (origin_of shared) }
    {
        let (book, front) = opened.named::<J>();
        Tickets {
            book,
            desk: Mutex::new(Desk::new(shared, front)),
            gate: Mutex::new(Gate::new()),
            written: Condvar::new(),
            answered: Condvar::new(),
            bound,
        }
    }

    /// Calls `Shared::seat`.
    pub fn seat<R: Wait>(&self, rt: &R) -> Result<Seat, Fault>
        ensures ok { IfOk result (λ seat. receipts_of seat ≡ []) }
        ensures cause { IfErr result (λ e. e ≡ Fault.Range) }
    {
        self.desk.lock(rt).seat()
    }

    /// Locks the engine and its history, and lends them: for counts of the engine
    /// (`Shared::engine`), for reads without a record (`Shared::look_up`), and for witnesses while
    /// threads run (`Desk::finds`). The calls of other threads wait until the guard is dropped.
    /// Drop it before this thread's next call, which would wait for ever.
    pub fn desk<R: Wait>(&self, rt: &R) -> MutexGuard<'_, Desk<F, J>>
        ensures origin { J.origin ≡ Some (origin_of (mutex_guard_value result).shared) }
    {
        self.desk.lock(rt)
    }

    /// Writes a batch without a sync. Returns a ticket if the engine accepted it; then the batch
    /// is empty. It fails with the engine's fault, or with `TrailFull` or `Memory` if the engine
    /// wasn't called, or with `Layer` if the book has calls of another engine. A refused batch
    /// keeps its items, unless the fault is the engine's `Io` or `Memory`, in which the engine may
    /// have failed.
    #[tactic(auto, using(crate::proofs::Noting::leaves_empty, crate::proofs::Noting::is_heard, crate::proofs::Noting::is_told_at, crate::proofs::Noting::is_told, crate::proofs::Telling::keeps_refused, crate::proofs::Telling::keeps_same))]
    pub fn write<R: Wait>(
        &self,
        rt: &R,
        seat: &mut Seat,
        batch: &mut LogBatch,
    ) -> Result<Ticket<J>, Fault>
        ensures ok { IfOk result (λ ticket. IsWrittenAt ticket.number seat.old.number
            batch.old.items ticket.size ticket.front) }
        ensures rest { OnOk result (batch.new.items ≡ []) }
        ensures told { IfOk result (λ ticket. IsToldAt ticket.number (Write batch.old.items false)
            (Size (Ok ticket.size)) seat.old seat.new) }
        ensures err { IfErr result (λ e. FailsAs (Write batch.old.items false)
            (Size (Err (reason_of e))) seat.old seat.new e) }
        ensures unchanged { OnErr result (IsToldNothing seat.old seat.new → batch.new ≡ batch.old) }
        ensures refused { OnErr result (KeepsRefused batch.old.items batch.new.items seat.old
            seat.new) }
        ensures seat { seat.new.number ≡ seat.old.number }
    {
        self.gate.lock(rt).announce();
        let noted = self.desk.lock(rt).write(&self.book, seat, batch);
        self.gate.lock(rt).note_write();
        self.written.notify_one();
        let Noted { receipt, front } = noted?;
        match front {
            Some(front) => Ticket::of(receipt, front),
            None => Err(Fault::Layer),
        }
    }

    /// Waits until a sync after the ticket's write has returned, in this thread or another one.
    /// Returns a witness for the same batch. If this thread made the sync, it fails with the
    /// engine's fault, or as `write` does.
    pub fn wait<R: Wait>(
        &self,
        rt: &R,
        seat: &mut Seat,
        ticket: Ticket<J>,
    ) -> Result<Durable<J>, Fault>
        ensures ok { IfOk result (Answers ticket) }
        ensures told { OnOk result (MayBeToldSync seat.old seat.new) }
        ensures err { IfErr result (λ e. FailsAs Sync (Done (Err (reason_of e))) seat.old seat.new
            e) }
        ensures seat { seat.new.number ≡ seat.old.number }
    {
        let ticket = match self.turn(rt, ticket) {
            Ok(durable) => return Ok(durable),
            Err(ticket) => ticket,
        };
        self.gather(rt);
        let synced = self.sync(rt, seat);
        self.hand_over(rt, &synced);
        match ticket.covered_by(&synced?) {
            Ok(durable) => Ok(durable),
            Err(_) => Err(Fault::Layer),
        }
    }

    // The ticket's result, if there is one. Otherwise the ticket, when no thread leads; then this
    // thread leads.
    fn turn<R: Wait>(&self, rt: &R, ticket: Ticket<J>) -> Result<Durable<J>, Ticket<J>>
        ensures ok { IfOk result (Answers ticket) }
        ensures err { IfErr result (λ back. back ≡ ticket) }
    {
        let number = ticket.number();
        let mut gate = self
            .answered
            .wait_while(rt, self.gate.lock(rt), |gate| gate.holds_back(number));
        let answer = gate.answer(ticket);
        if answer.is_err() {
            gate.set_leading(true);
        }
        answer
    }

    // Waits for the writes that have begun.
    fn gather<R: Wait>(&self, rt: &R) {
        let gate = self.gate.lock(rt);
        let awaited = gate.awaited(self.bound);
        let _gate = self
            .written
            .wait_while(rt, gate, |gate| !gate.has_written(awaited));
    }

    // Syncs the engine, and notes the sync's place in the history.
    #[tactic(auto, using(crate::proofs::Noting::is_told))]
    fn sync<R: Wait>(&self, rt: &R, seat: &mut Seat) -> Result<Covered<J>, Fault>
        ensures ok { OnOk result (IsTold Sync (Done (Ok tt)) seat.old seat.new) }
        ensures err { IfErr result (λ e. FailsAs Sync (Done (Err (reason_of e))) seat.old seat.new
            e) }
        ensures seat { seat.new.number ≡ seat.old.number }
    {
        let Noted { receipt, front } = self.desk.lock(rt).sync(&self.book, seat)?;
        match front {
            Some(front) => Covered::of(receipt, front),
            None => Err(Fault::Layer),
        }
    }

    // Shows the result of a sync to the others, and lets another thread lead.
    fn hand_over<R: Wait>(&self, rt: &R, synced: &Result<Covered<J>, Fault>) {
        let mut gate = self.gate.lock(rt);
        if let Ok(covered) = synced {
            gate.note_sync(covered);
        }
        gate.set_leading(false);
        drop(gate);
        self.answered.notify_all();
    }

    /// Calls `write` and then `wait`. If only the wait fails, the batch was accepted and is empty,
    /// as the seat records.
    pub fn write_synced<R: Wait>(
        &self,
        rt: &R,
        seat: &mut Seat,
        batch: &mut LogBatch,
    ) -> Result<Durable<J>, Fault>
        ensures ok { IfOk result (λ durable. IsWrittenAt durable.number seat.old.number
            batch.old.items durable.size durable.front) }
        ensures rest { OnOk result (batch.new.items ≡ []) }
        ensures told { IfOk result (λ durable. IsToldInTurn durable.number batch.old.items
            durable.size seat.old seat.new) }
        ensures err { IfErr result (FailsInTurn batch.old.items batch.new.items seat.old
            seat.new) }
        ensures unchanged { OnErr result (IsToldNothing seat.old seat.new → batch.new ≡ batch.old) }
        ensures refused { OnErr result (KeepsRefused batch.old.items batch.new.items seat.old
            seat.new) }
        ensures seat { seat.new.number ≡ seat.old.number }
    {
        let ticket = self.write(rt, seat, batch)?;
        self.wait(rt, seat, ticket)
    }

    /// Calls `Shared::get`, from any thread. If the result has a front, this call is in it at its
    /// place. By the code it has one, the history up to this call, unless the book has another
    /// call there.
    #[tactic(auto, using(crate::proofs::Noting::is_told_at))]
    pub fn get<R: Wait>(
        &self,
        rt: &R,
        seat: &mut Seat,
        group: u64,
        key: &[u8],
    ) -> Result<Noted<J>, Fault>
        ensures ok { IfOk result (λ noted. IsToldAt noted.receipt.number (Get group key.now)
            (told_by noted.receipt).answer seat.old seat.new) }
        ensures front { IfOk result (λ noted. IfSome noted.front (λ front.
            slice_get front noted.receipt.number
            ≡ Some (event_by seat.old.number noted.receipt))) }
        ensures err { OnErr result (IsToldNothing seat.old seat.new) }
        ensures cause { IfErr result (λ e. (e ≡ Fault.TrailFull) ⊎ (e ≡ Fault.Memory)) }
        ensures seat { seat.new.number ≡ seat.old.number }
    {
        self.desk.lock(rt).get(&self.book, seat, group, key)
    }

    /// Calls `Shared::purge_expired_files`, from any thread.
    #[tactic(auto, using(crate::proofs::Noting::is_told_at))]
    pub fn purge_expired_files<R: Wait>(
        &self,
        rt: &R,
        seat: &mut Seat,
        barrier: u64,
    ) -> Result<Purged, Fault>
        ensures ok { IfOk result (λ purged. IsToldAt purged.receipt.number (Purge barrier)
            (told_by purged.receipt).answer seat.old seat.new) }
        ensures err { OnErr result (IsToldNothing seat.old seat.new) }
        ensures cause { IfErr result (λ e. (e ≡ Fault.TrailFull) ⊎ (e ≡ Fault.Memory)
            ⊎ (e ≡ Fault.Range)) }
        ensures seat { seat.new.number ≡ seat.old.number }
    {
        self.desk
            .lock(rt)
            .purge_expired_files(&self.book, seat, barrier)
    }

    /// Returns the engine with its history, after the threads have ended. It has the settings of
    /// the engine that was passed to `new`, and the same record of what its opening found. Its
    /// history begins with that engine's contents.
    pub fn into_desk(self) -> Desk<F, J>
        ensures origin { J.origin ≡ Some (origin_of result.shared) }
    {
        let Tickets { desk, .. } = self;
        desk.into_inner()
    }
}
