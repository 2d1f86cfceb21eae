//! The seats of a shared engine. A thread makes its calls from its seat.
ghost use Rattle.std.specs.Prelude.{◌≡◌, [], ◌∷◌, ◌++◌, ◌+◌, ◌<◌, ◌≤◌, vec_len, vec_capacity, OnOk, IfErr};

use crate::call::Receipt;
use raft_log_engine::Fault;
use std::alloc::Global;

/// A seat keeps the receipts of its calls. Contracts see it as its number and its receipts.
#[derive(Drop)]
pub struct Seat {
    number: usize,
    receipts: Vec<Receipt>,
}

impl Seat {
    pub(crate) fn new(alloc: Global, number: usize) -> Seat
        ensures value { (result.number ≡ number) × (result.receipts.items ≡ []) }
    {
        Seat {
            number,
            receipts: Vec::new(alloc),
        }
    }

    /// The number of the seat. Seats are numbered from 0, in the order in which `Shared::seat`
    /// returns them.
    pub fn number(&self) -> usize
        ensures value { result ≡ self.now.number }
    {
        self.number
    }

    /// The receipts of the seat's calls, in order.
    pub fn receipts(&self) -> &[Receipt]
        ensures value { result.now ≡ self.now.receipts.items }
    {
        &self.receipts
    }

    pub(crate) fn reserve_receipt(&mut self) -> Result<(), Fault>
        ensures ok { OnOk result (vec_len self.new.receipts < vec_capacity self.new.receipts) }
        ensures unchanged { (self.new.number ≡ self.old.number)
            × (self.new.receipts.items ≡ self.old.receipts.items) }
        ensures cause { IfErr result (λ fault. fault ≡ Fault.Memory) }
    {
        self.receipts.reserve(1)?;
        Ok(())
    }

    pub(crate) fn add(&mut self, receipt: Receipt)
        requires { vec_len self.old.receipts < vec_capacity self.old.receipts }
        ensures unchanged { self.new.number ≡ self.old.number }
        ensures value { self.new.receipts.items ≡ self.old.receipts.items ++ receipt ∷ [] }
    {
        let Ok(()) = self.receipts.push(receipt) else {
            unreachable!()
        };
    }
}
