//! The engine's calls, each with its whole contract in one relation.
ghost use Rattle.raft_log_engine.specs.Calls.{IsCallersWrite, IsSync};
ghost use Rattle.raft_log_engine.specs.Once.{IsWriteOnce};
ghost use Rattle.raft_log_engine.specs.PurgeCalls.{IsExpiry};
ghost use Rattle.raft_shared.specs.Calls.{IsGet};

use raft_log_engine::{Engine, Fault, FileSeq, FileSystem, LogBatch};

/// `Engine::write`.
pub(crate) fn write<F: FileSystem>(
    engine: &mut Engine<F>,
    batch: &mut LogBatch,
    sync: bool,
) -> Result<usize, Fault>
    ensures value { IsCallersWrite batch.old.items batch.new.items sync engine.old engine.new
        result }
{
    engine.write(batch, sync)
}

/// `Engine::write_once`.
pub(crate) fn write_once<F: FileSystem>(
    engine: &mut Engine<F>,
    batch: &mut LogBatch,
    pairs: &[(u64, u64)],
    sync: bool,
) -> Result<usize, Fault>
    ensures value { IsWriteOnce batch.old.items batch.new.items pairs.now sync engine.old engine.new
        result }
{
    engine.write_once(batch, pairs, sync)
}

/// `Engine::sync`.
pub(crate) fn sync<F: FileSystem>(engine: &mut Engine<F>) -> Result<(), Fault>
    ensures value { IsSync engine.old engine.new result }
{
    engine.sync()
}

/// `Engine::purge_expired_files`.
pub(crate) fn purge_expired_files<F: FileSystem>(
    engine: &mut Engine<F>,
    barrier: FileSeq,
) -> Result<Vec<u64>, Fault>
    ensures value { IsExpiry barrier engine.old engine.new result }
{
    engine.purge_expired_files(barrier)
}

/// `Engine::get`.
pub(crate) fn get<F: FileSystem>(
    engine: &Engine<F>,
    group: u64,
    key: &[u8],
) -> Result<Option<Vec<u8>>, Fault>
    ensures value { IsGet group key.now engine.now result }
{
    engine.get(group, key)
}
