//! The settings that TOML values give.
ghost use Rattle.std.specs.Prelude.{◌≡◌, List, ℕ, Option, Some, None, option_map};
ghost use Rattle.toml.specs.Data.{Data, as_bool, as_str};
ghost use Rattle.toml.specs.View.{view};
ghost use Rattle.raft_settings.specs.Reading.{mode_named, mode_of, size_of, some_of, version_numbered, version_of, whole_of};

use raft_config::RecoveryMode;
use raft_records::{ReadableSize, Version};
use toml::Value;

/// A type of settings that is read from a TOML value.
pub(crate) trait Setting: Sized {
    ghost reads: { Data → Option Self };

    /// The setting, if the value is valid for its type.
    fn read(value: &Value) -> Option<Self>
        ensures { result ≡ reads (view value.now) };
}

impl Setting for u64 {
    ghost reads = { whole_of };

    fn read(value: &Value) -> Option<u64> {
        u64::try_from(value.as_integer()?).ok()
    }
}

impl Setting for usize {
    ghost reads = { whole_of };

    fn read(value: &Value) -> Option<usize> {
        usize::try_from(value.as_integer()?).ok()
    }
}

impl Setting for bool {
    ghost reads = { as_bool };

    fn read(value: &Value) -> Option<bool> {
        value.as_bool()
    }
}

impl Setting for ReadableSize {
    ghost reads = { size_of };

    fn read(value: &Value) -> Option<ReadableSize> {
        match value.as_str() {
            Some(text) => ReadableSize::parse(text).ok(),
            None => Some(ReadableSize(u64::read(value)?)),
        }
    }
}

impl Setting for Version {
    ghost reads = { version_of };

    fn read(value: &Value) -> Option<Version> {
        match value.as_integer()? {
            1 => Some(Version::V1),
            2 => Some(Version::V2),
            _ => None,
        }
    }
}

impl Setting for RecoveryMode {
    ghost reads = { mode_of };

    fn read(value: &Value) -> Option<RecoveryMode> {
        mode_named(value.as_str()?)
    }
}

impl<T: Setting> Setting for Option<T> {
    ghost reads = { some_of T.reads };

    fn read(value: &Value) -> Option<Option<T>> {
        T::read(value).map(Some)
    }
}

fn mode_named(name: &str) -> Option<RecoveryMode>
    ensures { result ≡ mode_named name.now }
{
    match name {
        "absolute-consistency" => Some(RecoveryMode::AbsoluteConsistency),
        "tolerate-tail-corruption" | "tolerate-corrupted-tail-records" => {
            Some(RecoveryMode::TolerateTailCorruption)
        }
        "tolerate-any-corruption" => Some(RecoveryMode::TolerateAnyCorruption),
        _ => None,
    }
}
