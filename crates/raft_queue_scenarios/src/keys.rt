//! A machine that takes the keys of batches.

use raft_builder::MergingMachine;
use raft_opening::ReplayMachine;
use raft_records::{Fault, FileId, Fresh, KeyValue, LogItem, LogItemContent, LogQueue};
use std::alloc::Global;

/// Collects the keys that batches put, each with the number of its file.
#[derive(Drop)]
pub(crate) struct Keys {
    pub found: Vec<(u64, u8)>,
}

impl ReplayMachine for Keys {
    ghost stands_for = { λ queue blocks earlier machine batches. Unit {0} };

    fn replay(&mut self, items: &mut Vec<LogItem>, file: FileId) -> Result<(), Fault> {
        for item in items.iter() {
            if let LogItemContent::Kv(KeyValue::Put { key, value: _ }) = &item.content {
                for byte in key {
                    self.found.push((file.seq, *byte))?;
                }
            }
        }
        Ok(())
    }
}

impl MergingMachine for Keys {
    fn merge(&mut self, newer: Keys, _queue: LogQueue) -> Result<(), Fault> {
        let mut newer = newer;
        self.found.append(&mut newer.found)?;
        Ok(())
    }
}

impl Fresh for Keys {
    ghost is_fresh = { λ keys. Unit {0} };

    fn fresh(alloc: Global) -> Keys {
        Keys {
            found: Vec::new(alloc),
        }
    }
}
