//! The modes of an opening, by name.

use raft_config::RecoveryMode;

/// The mode of this name.
pub fn mode_named(word: &str) -> Option<RecoveryMode> {
    match word {
        "absolute" => Some(RecoveryMode::AbsoluteConsistency),
        "tail" => Some(RecoveryMode::TolerateTailCorruption),
        "any" => Some(RecoveryMode::TolerateAnyCorruption),
        _ => None,
    }
}

/// The name of a mode.
pub fn mode_name(mode: RecoveryMode) -> &'static str {
    match mode {
        RecoveryMode::AbsoluteConsistency => "absolute",
        RecoveryMode::TolerateTailCorruption => "tail",
        RecoveryMode::TolerateAnyCorruption => "any",
    }
}
