//! Puts a key into a log in a folder with a sync, opens the log again, and finds the key.
#![tactic(auto)]

use raft_disk::DiskFileSystem;
use raft_log_engine::{Config, Engine, Fault, FileSystem, Fresh, LogBatch};
use std::alloc::Global;

fn main(rt: HostRuntime) -> Result<(), anyhow::Error> {
    let found = put_and_find(rt.alloc(), DiskFileSystem::open(rt, "log")?)?;
    println!(rt; "the key is found: {found}")?;
    Ok(())
}

fn put_and_find<F: FileSystem + Drop>(alloc: Global, files: F) -> Result<bool, Fault> {
    let files = put(alloc, files)?;
    has(alloc, files)
}

fn put<F: FileSystem + Drop>(alloc: Global, files: F) -> Result<F, Fault> {
    let mut engine = Engine::open_in_order(alloc, Config::fresh(alloc), files)?;
    write(alloc, &mut engine)?;
    Ok(engine.close()?)
}

fn write<F: FileSystem>(alloc: Global, engine: &mut Engine<F>) -> Result<(), Fault> {
    let mut batch = LogBatch::new(alloc);
    batch.put(1, b"state".to_vec(alloc)?, b"follower".to_vec(alloc)?)?;
    engine.write(&mut batch, true)?;
    Ok(())
}

fn has<F: FileSystem + Drop>(alloc: Global, files: F) -> Result<bool, Fault> {
    let engine = Engine::open_in_order(alloc, Config::fresh(alloc), files)?;
    let is_found = engine.get(1, b"state")?.is_some();
    engine.close()?;
    Ok(is_found)
}
