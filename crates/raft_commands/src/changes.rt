//! What a batch changes of a group.

use raft_c_batch::Entry;
use raft_contents::{Engine, LogBatch};
use raft_env::FileSystem;
use raft_records::{Command, Fault};
use std::alloc::Global;

/// What is changed of a group.
#[derive(Clone, Copy)]
pub(crate) enum Change<'a> {
    /// The value at a key.
    Put(&'a [u8], &'a [u8]),
    Delete(&'a [u8]),
    Append(&'a [Entry]),
    Clean,
}

/// Writes the change.
pub(crate) fn write<F: FileSystem>(
    alloc: Global,
    engine: &mut Engine<F>,
    group: u64,
    change: Change<'_>,
    sync: bool,
) -> Result<(), Fault> {
    let mut batch = LogBatch::new(alloc);
    fill(alloc, &mut batch, group, change)?;
    engine.write(&mut batch, sync)?;
    Ok(())
}

fn fill(alloc: Global, batch: &mut LogBatch, group: u64, change: Change<'_>) -> Result<(), Fault> {
    match change {
        Change::Put(key, value) => batch.put(group, key.to_vec(alloc)?, value.to_vec(alloc)?),
        Change::Delete(key) => batch.delete(group, key.to_vec(alloc)?),
        Change::Append(entries) => batch.add_entries::<Entry>(group, entries),
        Change::Clean => batch.add_command(group, Command::Clean),
    }
}
