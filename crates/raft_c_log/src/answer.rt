//! The result of the last call of a log.
ghost use Rattle.std.specs.Prelude.{◌≡◌, [], pos};
ghost use Rattle.raft_base.specs.Fault.{fault_code};

use raft_records::Fault;
use std::alloc::Global;

/// The bytes, or the text of a failure, and the numbers.
#[derive(Drop)]
pub struct Answer {
    alloc: Global,
    pub bytes: Vec<u8>,
    pub numbers: (u64, u64),
}

impl Answer {
    pub fn new(alloc: Global) -> Answer
        ensures value { (result.bytes.items ≡ []) × (result.numbers ≡ (0, 0)) }
    {
        Answer {
            alloc,
            bytes: Vec::new(alloc),
            numbers: (0, 0),
        }
    }

    /// Keeps the text of a fault, if there is memory for it, and returns its code.
    pub fn keep(&mut self, fault: &Fault) -> i32
        ensures value { result ≡ pos (fault_code fault.now) }
    {
        self.bytes = match format!(in self.alloc; "{fault}") {
            Ok(text) => text.into_bytes(),
            Err(_) => Vec::new(self.alloc),
        };
        i32::from(fault.code())
    }
}
