//! Scans of a log's keys and values.
ghost use Rattle.std.specs.Prelude.{◌≡◌, ◌⊎◌, ◌↔◌, ◌++◌, [], Err, IfErr, IfOk, Some, false, true};
ghost use Rattle.raft_c_batch.specs.Batch.{part_bytes};
ghost use Rattle.raft_once.specs.Numbers.{shown};
ghost use Rattle.raft_base.specs.declared.errors.Fault.TheVariants.{Failed};
ghost use Rattle.raft_log_engine.specs.Engine.{contents_of, has_failed};
ghost use Rattle.raft_c_log.specs.Limit.{IsOneLess, max_of};
ghost use Rattle.raft_c_log.specs.Calls.{IsScanAnswer};
ghost use Rattle.raft_c_log.specs.Refusals.{IsQueryFault, IsRefusalFor};
ghost use Rattle.raft_c_log.specs.declared.calls.Query.TheVariants as query;

use crate::calls::Scan;
use raft_c_batch::push_pair;
use raft_log_engine::{Engine, Fault, FileSystem};
use std::alloc::Global;

/// Pairs of keys and values, until room or memory runs out.
#[derive(Drop)]
struct Pairs {
    bytes: Vec<u8>,
    /// How many more there is room for; None is no bound.
    left: Option<u64>,
    is_whole: bool,
}

impl Pairs {
    /// None yet, and at most so many; 0 is no limit.
    fn new(alloc: Global, limit: u64) -> Pairs
        ensures value { (result.bytes.items ≡ []) × (result.is_whole ≡ true)
            × (result.left ≡ max_of limit) }
    {
        Pairs {
            bytes: Vec::new(alloc),
            left: if limit == 0 { None } else { Some(limit) },
            is_whole: true,
        }
    }

    /// Whether a pair was kept; not without room or memory for it.
    fn keep(&mut self, key: &[u8], value: &[u8]) -> bool
        ensures ok { result ≡ true → self.new.bytes.items
            ≡ self.old.bytes.items ++ (part_bytes key.now ++ part_bytes value.now) }
        ensures whole { result ≡ true → self.new.is_whole ≡ true }
        ensures room { result ≡ true → IsOneLess self.old.left self.new.left }
        ensures full { result ≡ false → (self.new.is_whole ≡ false)
            ⊎ ((self.old.left ≡ Some 0) × (self.new ≡ self.old)) }
    {
        if let Some(left) = self.left {
            if left == 0 {
                return false;
            }
            self.left = Some(left - 1);
        }
        self.is_whole = push_pair(&mut self.bytes, key, value).is_ok();
        self.is_whole
    }
}

/// The pairs that a scan asks for, as bytes.
pub(crate) fn pairs_of<F: FileSystem>(
    alloc: Global,
    engine: &Engine<F>,
    scan: Scan<'_>,
) -> Result<Vec<u8>, Fault>
    ensures value { IfOk result (λ bytes.
        IsScanAnswer scan.entry (shown (contents_of engine.now)) bytes.items) }
    ensures failed { (result ≡ Err Failed) ↔ (has_failed engine.now ≡ true) }
    ensures cause { IfErr result (IsRefusalFor (has_failed engine.now)
        (IsQueryFault (query.Scan scan.entry) engine.now engine.now)) }
{
    let mut pairs = Pairs::new(alloc, scan.limit);
    let scanned = engine.scan_raw_messages(
        scan.group,
        Some(scan.start),
        scan.end,
        scan.reverse,
        &mut |key: &[u8], value: &[u8]| pairs.keep(key, value),
    );
    if let Err(fault) = scanned {
        return Err(fault);
    }
    if pairs.is_whole {
        Ok(pairs.bytes)
    } else {
        Err(Fault::Memory)
    }
}
