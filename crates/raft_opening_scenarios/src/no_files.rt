//! Openings by workers without log files, in memory, with listeners and without.

use raft_env::FileSystem;
use raft_listeners::NoListeners;
use raft_memory::MemoryFileSystem;
use raft_records::Fresh;
use raft_test_rows::{Config, Engine, Refused};
use std::alloc::Global;
use std::test::Fail;
use std::thread::Threads;

fn is_empty<F: FileSystem + Drop>(opening: Result<Engine<F>, Refused<F>>) -> bool {
    match opening {
        Ok(engine) => {
            let is_empty = engine.is_empty();
            engine.give_up();
            is_empty
        }
        Err(_refused) => false,
    }
}

fn are_empty<R: Threads + Sync>(rt: &R, alloc: Global) -> bool {
    let alone = is_empty(Engine::open(rt, alloc, Config::fresh(alloc)));
    let mut nobody = NoListeners::new();
    let opened = Engine::open_with_listeners(rt, alloc, Config::fresh(alloc), &mut nobody);
    let heard = is_empty(opened);
    let files = MemoryFileSystem::new(alloc);
    let over = is_empty(Engine::open_with_file_system(rt, alloc, Config::fresh(alloc), files));
    alone && heard && over
}

#[test]
fn openings_over_no_files_are_empty(rt: HostRuntime) -> Result<(), Fail> {
    assert!(&rt; are_empty(&rt, rt.alloc()));
    Ok(())
}
