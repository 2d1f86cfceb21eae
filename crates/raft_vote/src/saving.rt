//! A group's hard state in a log.
ghost use Rattle.std.specs.Prelude.{◌≡◌, ◌⊎◌, ◌↔◌, true, false, Some, IfOk, IfErr, OnOk, OnErr};
ghost use Rattle.raft_base.specs.Fault.{fault_code};
ghost use Rattle.raft_records.specs.Contents.{with_value};
ghost use Rattle.raft_log_engine.specs.Engine.{contents_of, has_failed};
ghost use Rattle.raft_vote.specs.HardState.{is_broken, may_follow, state_bytes, state_in, state_key};
ghost use Rattle.raft_vote.specs.Stays.{OnlyMovesOn, Stays};

use crate::hard_state::{HardState, is_read_back};
use crate::laws::a_saved_state_stays;
use raft_log_engine::{Engine, Fault, FileSystem, LogBatch};
use raft_world::laws::{calls_have_effects, calls_keep};
use std::alloc::Global;

/// Saves a group's term and vote with a sync, and changes nothing else of the contents. After `Ok`
/// the node may respond: each later opening that returns `Ok` finds this state or one that may
/// follow it. So it finds no older term, and no other vote in this term. That needs two premises:
/// each call since leaves the group's state or moves it on (`Keeps`), and the damage of each crash
/// is detectable.
///
/// It fails as `InvalidArgument` if this state may not follow the one that the group has, and
/// otherwise, by the code, as `load` and as a write. After an `Err`, if the engine has not failed,
/// the contents are as before. If the call fails the engine, the next opening finds the old state or
/// one that may follow it, by the code this one.
pub fn save<F: FileSystem>(
    alloc: Global,
    engine: &mut Engine<F>,
    group: u64,
    state: HardState,
) -> Result<(), Fault>
    ensures stays { OnOk result (Stays group state engine.new) }
    ensures ok { OnOk result (state_in group (contents_of engine.new) ≡ state) }
    ensures contents { OnOk result (contents_of engine.new
        ≡ with_value group state_key (Some (state_bytes state)) (contents_of engine.old)) }
    ensures err { OnErr result (has_failed engine.new ≡ false
        → contents_of engine.new ≡ contents_of engine.old) }
    ensures refused { OnOk result
        (may_follow (state_in group (contents_of engine.old)) state ≡ true) }
    ensures broken { OnOk result (is_broken group (contents_of engine.old) ≡ false) }
    ensures cause { IfErr result (λ e. has_failed engine.old ≡ false
        → may_follow (state_in group (contents_of engine.old)) state ≡ false
        → (e ≡ Fault.Memory) ⊎ (fault_code e ≡ 1)
        ⊎ ((e ≡ Fault.Parse) × (is_broken group (contents_of engine.old) ≡ true))) }
    ensures moves { OnlyMovesOn engine.old engine.new }
{
    a_saved_state_stays::<F>();
    calls_have_effects::<F>();
    calls_keep::<F>();
    is_read_back(state);
    if !load(engine, group)?.may_come_to(state) {
        return Err(Fault::InvalidArgument("a term goes back, or a second vote in it"));
    }
    let mut batch = LogBatch::new(alloc);
    batch.put_message(group, b"state".to_vec(alloc)?, &state)?;
    engine.write(&mut batch, true)?;
    Ok(())
}

/// The state that a group has: `HardState::NONE` if none was saved. It fails if the value at the key
/// is no state, by the code as `Parse`. Otherwise it fails only as `Memory`, or as `Failed` if the
/// engine has failed.
pub fn load<F: FileSystem>(engine: &Engine<F>, group: u64) -> Result<HardState, Fault>
    ensures value { IfOk result (λ state. state ≡ state_in group (contents_of engine.now)) }
    ensures failed { (result ≡ Err Fault.Failed) ↔ (has_failed engine.now ≡ true) }
    ensures broken { OnOk result (is_broken group (contents_of engine.now) ≡ false) }
    ensures cause { IfErr result (λ e. has_failed engine.now ≡ false → (e ≡ Fault.Memory)
        ⊎ ((e ≡ Fault.Parse) × (is_broken group (contents_of engine.now) ≡ true))) }
{
    let saved = engine.get_message::<HardState>(group, b"state")?;
    Ok(saved.unwrap_or(HardState::NONE))
}
