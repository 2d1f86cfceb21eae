//! Tickets of batches that wait for a sync, and the witnesses that replace them.
ghost use Rattle.std.specs.Prelude.{◌≡◌, ◌⊎◌, ◌↔◌, ◌<◌, ℕ, true, slice_get, Err, Ok, IfOk, IfErr, IsOk};
ghost use mathlib.Core.List.{IsPrefix};
ghost use Rattle.raft_shared.specs.History.{Done, Size};
ghost use Rattle.raft_shared.specs.Words.{reason_of, told_by};
ghost use Rattle.raft_shared.specs.TicketCalls.{is_sync_at, is_write_at};

use crate::book::{Front, Naming};
use crate::call::{Receipt, Reply};
use raft_log_engine::Fault;

/// An accepted batch that waits for a sync: its place in the history, and its record's length. The
/// result consumes the ticket.
#[derive(Drop)]
pub struct Ticket<J: Naming> {
    front: Front<J>,
    number: usize,
    size: usize,
    ghost written: { is_write_at number front ≡ true },
}

/// A successful sync and its place in the history.
#[derive(Drop)]
pub(crate) struct Covered<J: Naming> {
    front: Front<J>,
    number: usize,
    ghost synced: { is_sync_at number front ≡ true },
}

/// A witness that a successful sync follows an accepted batch in the history.
#[derive(Drop)]
pub struct Durable<J: Naming> {
    front: Front<J>,
    number: usize,
    sync: usize,
    size: usize,
    ghost written: { is_write_at number front ≡ true },
    ghost synced: { is_sync_at sync front ≡ true },
    ghost before: { number < sync },
}

impl<J: Naming> Ticket<J> {
    ghost use Rattle.raft_shared.specs.Answer.{Answers};

    // The ticket of the write with this receipt, in a history that has it. Otherwise the engine's
    // fault, or `Layer` for the receipt of another call.
    pub(crate) fn of(receipt: Receipt, front: Front<J>) -> Result<Ticket<J>, Fault>
        requires { (size : ℕ) → (told_by receipt).answer ≡ Size (Ok size)
            → is_write_at receipt.number front ≡ true }
        ensures ok { IfOk result (λ ticket. (ticket.front ≡ front)
            × (ticket.number ≡ receipt.number)
            × ((told_by receipt).answer ≡ Size (Ok ticket.size))) }
        ensures err { IfErr result (λ e. (e ≡ Fault.Layer)
            ⊎ ((told_by receipt).answer ≡ Size (Err (reason_of e)))) }
    {
        let Receipt { number, reply, .. } = receipt;
        match reply {
            Reply::Size(Ok(size)) => Ok(Ticket {
                front,
                number,
                size,
            }),
            Reply::Size(Err(fault)) => Err(fault),
            _ => Err(Fault::Layer),
        }
    }

    /// The place of its write in the history, counted from 0.
    pub fn number(&self) -> usize
        ensures value { result ≡ self.now.number }
    {
        self.number
    }

    /// The length of its record in bytes.
    pub fn size(&self) -> usize
        ensures value { result ≡ self.now.size }
    {
        self.size
    }

    /// The witness, if the sync comes after the ticket's write; otherwise the ticket.
    #[tactic(auto, using(crate::proofs::Witnesses::is_write_still, crate::proofs::Witnesses::is_sync_still, crate::proofs::Witnesses::write_stays))]
    pub(crate) fn covered_by(self, covered: &Covered<J>) -> Result<Durable<J>, Ticket<J>>
        ensures ok { IfOk result (Answers self) }
        ensures err { IfErr result (λ ticket. ticket ≡ self) }
        ensures settled { IsOk result ↔ (self.number < covered.now.number) }
    {
        if self.number >= covered.number {
            return Err(self);
        }
        let Ticket {
            front,
            number,
            size,
        } = self;
        Ok(Durable {
            front: front.longer(&covered.front),
            number,
            sync: covered.number,
            size,
        })
    }
}

impl<J: Naming> Covered<J> {
    // The sync with this receipt, in a history that has it. Otherwise the engine's fault, or
    // `Layer` for the receipt of another call.
    pub(crate) fn of(receipt: Receipt, front: Front<J>) -> Result<Covered<J>, Fault>
        requires { (told_by receipt).answer ≡ Done (Ok tt)
            → is_sync_at receipt.number front ≡ true }
        ensures ok { IfOk result (λ covered. (covered.front ≡ front)
            × (covered.number ≡ receipt.number)) }
        ensures err { IfErr result (λ e. (e ≡ Fault.Layer)
            ⊎ ((told_by receipt).answer ≡ Done (Err (reason_of e)))) }
    {
        let Receipt { number, reply, .. } = receipt;
        match reply {
            Reply::Done(Ok(())) => Ok(Covered { front, number }),
            Reply::Done(Err(fault)) => Err(fault),
            _ => Err(Fault::Layer),
        }
    }

    /// The place of the sync in the history, counted from 0.
    pub(crate) fn number(&self) -> usize
        ensures value { result ≡ self.now.number }
    {
        self.number
    }

    pub(crate) fn again(&self) -> Covered<J>
        ensures value { (result.front ≡ self.now.front) × (result.number ≡ self.now.number) }
    {
        Covered {
            front: self.front.again(),
            number: self.number,
        }
    }
}

impl<J: Naming> Durable<J> {
    /// The place of its write in the history, counted from 0.
    pub fn number(&self) -> usize
        ensures value { result ≡ self.now.number }
    {
        self.number
    }

    /// The place of a successful sync after the write.
    pub fn sync(&self) -> usize
        ensures value { result ≡ self.now.sync }
        ensures before { self.now.number < result }
        ensures answered { is_sync_at result self.now.front ≡ true }
    {
        self.sync
    }

    /// The length of its record in bytes.
    pub fn size(&self) -> usize
        ensures value { result ≡ self.now.size }
    {
        self.size
    }

    /// The history with the write and the sync.
    pub fn front(&self) -> &Front<J>
        ensures value { result.now ≡ self.now.front }
    {
        &self.front
    }
}
