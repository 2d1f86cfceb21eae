//! A node votes, and its machine crashes inside the next save. An opening finds the old state or
//! the new one. The clauses say less: it finds the old state or one that may follow it.
#![tactic(auto)]

ghost use Rattle.std.specs.Prelude.{◌≡◌, ◌∷◌, [], false, IfOk};
ghost use Rattle.raft_config.specs.Folders.{folders_in};
ghost use Rattle.raft_log_engine.specs.Engine.{directory_of};
ghost use Rattle.raft_memory.specs.Choice.{left_by};
ghost use Rattle.voter.specs.Found.{FindsFirstVote, HasVoted, IsFound};

use anyhow::Result;
use raft_log_engine::{Choice, Config, Engine, Fault, Fresh, MemoryFileSystem};
use raft_vote::laws::{a_node_votes_once, other_calls_leave_it};
use raft_vote::{HardState, load, save};
use raft_world::laws::calls_have_effects;
use std::alloc::Global;

const GROUP: u64 = 7;

fn main(rt: HostRuntime) -> Result<()> {
    println!(rt;
        "a second vote in a term is saved: {}",
        votes_twice(rt.alloc())?
    )?;
    // Of the bytes since the last sync, none, the first 30, or all reach the disk.
    for left in [Choice::Synced, Choice::Torn(30, 0), Choice::All] {
        let found = crash_in_save(rt.alloc(), left)?;
        println!(rt;
            "found after a crash: term {}, vote {}",
            found.term, found.vote
        )?;
    }
    Ok(())
}

// Votes for node 2 in term 1.
fn vote(alloc: Global) -> Result<Engine<MemoryFileSystem>, Fault>
    ensures { IfOk result HasVoted }
{
    let files = MemoryFileSystem::new(alloc);
    let mut engine = Engine::open_in_order(alloc, Config::fresh(alloc), files)?;
    save(alloc, &mut engine, GROUP, HardState { term: 1, vote: 2 })?;
    Ok(engine)
}

// Votes for node 3 in the same term.
fn votes_twice(alloc: Global) -> Result<bool, Fault>
    ensures { IfOk result (λ saved. saved ≡ false) }
{
    a_node_votes_once::<MemoryFileSystem>();
    let mut engine = vote(alloc)?;
    Ok(save(alloc, &mut engine, GROUP, HardState { term: 1, vote: 3 }).is_ok())
}

// Votes, and crashes in the next save.
fn crash_in_save(alloc: Global, left: Choice) -> Result<HardState, Fault> {
    let mut engine = vote(alloc)?;
    save_and_crash(alloc, &mut engine, left)
}

// Votes for node 3 in term 2. The record reaches its file, and the sync doesn't. Then the machine
// crashes, and leaves this of the file.
fn save_and_crash(
    alloc: Global,
    engine: &mut Engine<MemoryFileSystem>,
    left: Choice,
) -> Result<HardState, Fault>
    requires { HasVoted engine.old }
    ensures { FindsFirstVote engine.new (left_by (left ∷ []) (directory_of engine.new)) result }
{
    calls_have_effects::<MemoryFileSystem>();
    other_calls_leave_it::<MemoryFileSystem>();
    engine.stop_at(2);
    let _failed = save(alloc, engine, GROUP, HardState { term: 2, vote: 3 });
    find(alloc, engine, left, Config::fresh(alloc))
}

// What an opening finds if the machine crashes now and leaves this of the log file.
fn find(
    alloc: Global,
    engine: &Engine<MemoryFileSystem>,
    left: Choice,
    config: Config,
) -> Result<HardState, Fault>
    ensures { IsFound 7 engine.now (left_by (left ∷ []) (directory_of engine.now))
        (folders_in config) result }
{
    let files = engine.file_system().crash(&[left])?;
    let opened = Engine::open_in_order(alloc, config, files)?;
    load(&opened, GROUP)
}
