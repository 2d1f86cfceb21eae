//! A shared engine, and the front that is its history.
ghost use Rattle.std.specs.Prelude.{◌≡◌, ◌⊎◌, ◌↔◌, ◌≤◌, ◌+◌, ◌-◌, ◌^◌, ◌++◌, ◌∷◌, [], false, true, length, map, take, OnErr, IfOk, IfErr, IfNone, IfSome, IsOk, IsSomeAnd, Some, if◌then◌else◌};
ghost use Rattle.std.proofs.Props.{props};
ghost use mathlib.Core.List.{IsPrefix};
ghost use Rattle.raft_base.specs.Fault.{fault_code};
ghost use Rattle.raft_shared.specs.Shared.{history_of};
ghost use Rattle.raft_shared.specs.Words.{event_of, told_by};
ghost use Rattle.raft_shared.specs.TicketCalls.{event_by, is_done};
ghost use Rattle.raft_shared.specs.Durable.{AreDurableTo, IsFound};
ghost use Rattle.raft_shared.specs.Noted.{NotesCall};
ghost use Rattle.raft_shared.specs.Origin.{origin_of};

use crate::book::{Book, Front, Naming};
use crate::call::{Purged, Receipt, Recorded, Reply};
use crate::seat::Seat;
use crate::shared::{Finished, Shared, Unfinished};
use crate::ticket::Durable;
use raft_log_engine::{Fault, FileSystem, LogBatch};

/// A shared engine, which is kept under a lock. Its front is a beginning of its history, and the
/// whole history unless the book has calls of another engine.
#[derive(Drop)]
pub struct Desk<F: FileSystem, J: Naming> {
    shared: Shared<F>,
    front: Front<J>,
    // The place in the history of the last sync or purge that returned `Ok`.
    synced: Option<usize>,
    ghost begins: { take (length front) (history_of shared) ≡ front } by { Prim.hlevel props },
    ghost durable: { AreDurableTo synced shared } by { Prim.hlevel props },
    ghost origin: { J.origin ≡ Some (origin_of shared) } by { Prim.hlevel props },
}

/// A call's receipt, and the history that ends with the call; `None` if the book has another call
/// at this place.
#[derive(Drop)]
pub struct Noted<J: Naming> {
    pub receipt: Receipt,
    pub front: Option<Front<J>>,
}

impl<F: FileSystem, J: Naming> Desk<F, J> {
    ghost use Rattle.raft_shared.specs.Settled.{AreSettled};
    ghost use Rattle.raft_shared.specs.Shared.{HasRecordedNothing, IsButSeats, RecordsGet, RecordsPurge, RecordsSync, RecordsWrite, engine_of, receipts_of, seats_of};

    /// Joins an engine that was just shared and the front of a book that was just opened.
    pub(crate) fn new(shared: Shared<F>, front: Front<J>) -> Desk<F, J>
        requires front { front ≡ [] }
        requires origin { J.origin ≡ Some (origin_of shared) }
        ensures value { result.shared ≡ shared }
    {
        Desk {
            shared,
            front,
            synced: None,
        }
    }

    /// Calls `Shared::seat`.
    pub fn seat(&mut self) -> Result<Seat, Fault>
        ensures ok { IfOk result (λ seat. (seat.number ≡ seats_of self.old.shared)
            × (receipts_of seat ≡ [])
            × (seats_of self.new.shared ≡ seats_of self.old.shared + 1)) }
        ensures err { IfErr result (λ fault. (fault ≡ Fault.Range)
            × (seats_of self.old.shared ≡ 2 ^ 64 - 1)
            × (seats_of self.new.shared ≡ seats_of self.old.shared)) }
        ensures unchanged { IsButSeats self.old.shared self.new.shared }
        ensures others { (self.new.front ≡ self.old.front) × (self.new.synced ≡ self.old.synced) }
    {
        self.shared.seat()
    }

    /// Lends the shared engine, for `Shared::engine`.
    pub fn shared(&self) -> &Shared<F>
        ensures value { result.now ≡ self.now.shared }
    {
        &self.shared
    }

    /// Calls `Shared::write` without a sync.
    pub(crate) fn write(
        &mut self,
        book: &Book<J>,
        seat: &mut Seat,
        batch: &mut LogBatch,
    ) -> Result<Noted<J>, Fault>
        ensures { NotesCall (RecordsWrite batch.old.items batch.new.items false self.old.shared
            self.new.shared seat.old seat.new) (HasRecordedNothing self.old.shared self.new.shared
            seat.old seat.new × (batch.new ≡ batch.old)) seat.old.number result self.old.shared
            self.new.shared }
    {
        let number = seat.number();
        let receipt = self.shared.write(seat, batch, false)?;
        Ok(note(&mut self.front, book, number, receipt))
    }

    /// Calls `Shared::sync`.
    pub(crate) fn sync(&mut self, book: &Book<J>, seat: &mut Seat) -> Result<Noted<J>, Fault>
        ensures { NotesCall (RecordsSync self.old.shared self.new.shared seat.old seat.new)
            (HasRecordedNothing self.old.shared self.new.shared seat.old seat.new) seat.old.number
            result self.old.shared self.new.shared }
    {
        let number = seat.number();
        let receipt = self.shared.sync(seat)?;
        self.synced = synced_by(self.synced, &receipt);
        Ok(note(&mut self.front, book, number, receipt))
    }

    /// Calls `Shared::purge_expired_files`.
    pub(crate) fn purge_expired_files(
        &mut self,
        book: &Book<J>,
        seat: &mut Seat,
        barrier: u64,
    ) -> Result<Purged, Fault>
        ensures ok { IfOk result (λ purged. RecordsPurge barrier self.old.shared self.new.shared
            seat.old seat.new purged.asked.items purged.receipt) }
        ensures err { OnErr result (HasRecordedNothing self.old.shared self.new.shared seat.old
            seat.new) }
        ensures cause { IfErr result (λ e. (e ≡ Fault.TrailFull) ⊎ (e ≡ Fault.Memory)
            ⊎ (e ≡ Fault.Range)) }
    {
        let number = seat.number();
        let Purged { receipt, asked } = self.shared.purge_expired_files(seat, barrier)?;
        self.synced = synced_by(self.synced, &receipt);
        let Noted { receipt, .. } = note(&mut self.front, book, number, receipt);
        Ok(Purged { receipt, asked })
    }

    /// Calls `Shared::get`.
    pub(crate) fn get(
        &mut self,
        book: &Book<J>,
        seat: &mut Seat,
        group: u64,
        key: &[u8],
    ) -> Result<Noted<J>, Fault>
        ensures { NotesCall (RecordsGet group key.now self.old.shared self.new.shared seat.old
            seat.new) (HasRecordedNothing self.old.shared self.new.shared seat.old seat.new)
            seat.old.number result self.old.shared self.new.shared }
    {
        let number = seat.number();
        let receipt = self.shared.get(seat, group, key)?;
        Ok(note(&mut self.front, book, number, receipt))
    }

    /// Whether the front is a beginning of this engine's history. That holds for each front that
    /// is no longer than the desk's own one. `false` proves nothing: by the code it is returned
    /// only if the book has calls of another engine.
    pub fn has(&self, front: &Front<J>) -> bool
        ensures value { result ≡ true → IsPrefix front.now (history_of self.now.shared) }
        ensures settled { (result ≡ true) ↔ (length front.now ≤ length self.now.front) }
    {
        if front.len() > self.front.len() {
            return false;
        }
        // Shows to clauses that both are beginnings of one list.
        let _both = self.front.longer(front);
        true
    }

    /// Whether the witness is of this engine's history, and of a sync that isn't later than the
    /// last successful sync or purge. Then the first calls of the history are durable, with the
    /// witness's batch among them, and perhaps more.
    pub fn finds(&self, durable: &Durable<J>) -> bool
        ensures value { result ≡ true
            → IsFound durable.now.number durable.now.front self.now.shared }
        ensures settled { (result ≡ true) ↔ (IsSomeAnd self.now.synced
            (λ last. durable.now.sync ≤ last)
            × (length durable.now.front ≤ length self.now.front)) }
    {
        match self.synced {
            Some(last) => durable.sync() <= last && self.has(durable.front()),
            None => false,
        }
    }

    /// Calls `Shared::finish`.
    pub fn finish(self, seats: Vec<Seat>) -> Result<Finished<F>, Unfinished<F>>
        ensures ok { IfOk result (λ done. (done.engine ≡ engine_of self.shared)
            × (map event_of done.trail.items ≡ history_of self.shared)) }
        ensures err { IfErr result (λ back. (back.engine ≡ engine_of self.shared)
            × (map event_of back.trail.items ≡ history_of self.shared) × (back.seats ≡ seats)) }
        ensures settled { IsOk result ↔ AreSettled seats.items (history_of self.shared) }
        ensures cause { IfErr result (λ back. fault_code back.fault ≡ 1) }
    {
        let Desk { shared, .. } = self;
        shared.finish(seats)
    }
}

// The place of the last successful sync or purge, after the call with this receipt.
fn synced_by(before: Option<usize>, receipt: &Receipt) -> Option<usize>
    ensures value { result ≡ (if is_done (told_by receipt.now).answer then Some receipt.now.number
        else before) }
{
    match &receipt.reply {
        Reply::Done(Ok(())) => Some(receipt.number),
        _ => before,
    }
}

// Adds a call to a front that ends before it, unless the book has another call at this place.
fn note<J: Naming>(front: &mut Front<J>, book: &Book<J>, seat: usize, receipt: Receipt) -> Noted<J>
    ensures receipt { result.receipt ≡ receipt }
    ensures some { IfSome result.front (λ longer. (front.new ≡ longer)
        × (length front.old ≡ receipt.number)
        × (longer ≡ front.old ++ event_by seat receipt ∷ [])) }
    ensures none { IfNone result.front (front.new ≡ front.old) }
{
    let Receipt {
        number,
        call,
        reply,
    } = receipt;
    let call = Recorded { seat, call, reply };
    let longer = if front.len() == number as u64 {
        front.with(book, &call)
    } else {
        None
    };
    if let Some(longer) = &longer {
        *front = longer.again();
    }
    let Recorded { call, reply, .. } = call;
    Noted {
        receipt: Receipt {
            number,
            call,
            reply,
        },
        front: longer,
    }
}
