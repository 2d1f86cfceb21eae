//! A group's keys and values as a list.
ghost use Rattle.std.specs.Prelude.{◌≡◌, ◌++◌, ◌∷◌, [], true, OnOk};
ghost use Rattle.raft_tables.specs.Listing.{listed};
ghost use Rattle.raft_lines.specs.Program.{IsScanAnswer};

use raft_env::FileSystem;
use raft_log_engine::Engine;
use raft_records::Fault;
use raft_tables::KeyAndValue;
use std::alloc::{AllocError, Global};

/// Copies of keys and values, until memory runs out.
#[derive(Drop)]
struct Copies {
    alloc: Global,
    pairs: Vec<KeyAndValue>,
    is_whole: bool,
}

impl Copies {
    // Keeps a copy. Returns whether there was memory for it.
    fn keep(&mut self, key: &[u8], value: &[u8]) -> bool
        ensures value { self.new.is_whole ≡ result }
        ensures ok { result ≡ true → listed self.new.pairs.items
            ≡ listed self.old.pairs.items ++ (key.now, value.now) ∷ [] }
    {
        self.is_whole = push(self.alloc, key, value, &mut self.pairs).is_ok();
        self.is_whole
    }
}

/// A group's keys with their values, in the order of the keys' bytes, without the number that the
/// group keeps.
pub(crate) fn pairs_of<F: FileSystem>(
    alloc: Global,
    engine: &Engine<F>,
    group: u64,
) -> Result<Vec<KeyAndValue>, Fault>
    ensures value { IsScanAnswer engine.now group result }
{
    let mut copies = Copies {
        alloc,
        pairs: Vec::new(alloc),
        is_whole: true,
    };
    let scanned = engine.scan_raw_messages(
        group,
        None,
        None,
        false,
        &mut |key: &[u8], value: &[u8]| copies.keep(key, value),
    );
    if let Err(fault) = scanned {
        return Err(fault);
    }
    if copies.is_whole {
        Ok(copies.pairs)
    } else {
        Err(Fault::Memory)
    }
}

fn push(
    alloc: Global,
    key: &[u8],
    value: &[u8],
    pairs: &mut Vec<KeyAndValue>,
) -> Result<(), AllocError>
    ensures ok { OnOk result
        (listed pairs.new.items ≡ listed pairs.old.items ++ (key.now, value.now) ∷ []) }
{
    pairs.push((key.to_vec(alloc)?, value.to_vec(alloc)?))?;
    Ok(())
}
