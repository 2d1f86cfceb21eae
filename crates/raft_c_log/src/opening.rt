//! How an engine is opened.
ghost use Rattle.std.specs.Prelude.{IfErr, IfOk};
ghost use Rattle.raft_settings.specs.Reading.{ReadsAlone};
ghost use Rattle.raft_c_log.specs.Opening.{IsTextRefusal, OpensBy};

use raft_log_engine::{Config, Engine, Fault, FileSystem, Refused};
use std::alloc::Global;

/// Why a log wasn't opened, and the files as they are then.
#[derive(Drop)]
pub struct Unopened<F> {
    /// The code of a failure; its text is the result.
    pub code: i32,
    pub files: F,
}

/// The engine over these files, with settings that are given as text.
pub(crate) fn engine_over<F: FileSystem + Drop>(
    alloc: Global,
    settings: &[u8],
    files: F,
) -> Result<Engine<F>, Refused<F>>
    ensures opens { OpensBy settings.now files result }
{
    match config_of(alloc, settings) {
        Ok(config) => Engine::open_in_order(alloc, config, files),
        Err(fault) => Err(Refused {
            fault,
            file_system: files,
        }),
    }
}

fn config_of(alloc: Global, settings: &[u8]) -> Result<Config, Fault>
    ensures ok { IfOk result (ReadsAlone settings.now) }
    ensures cause { IfErr result (IsTextRefusal settings.now) }
{
    match str::from_utf8(settings) {
        Ok(text) => raft_settings::read(alloc, text),
        Err(_) => Err(Fault::InvalidArgument("the settings are no text")),
    }
}
