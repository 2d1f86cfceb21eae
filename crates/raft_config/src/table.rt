//! The settings as a table of `serde`. By hand: a derived reading of fifteen settings is one function, which is dear to prove.

use crate::config::Config;
use raft_records::Fresh;
use serde::{
    Case, Described, Deserialize, DeserializeOwned, Deserializer, Format, Name, NameKind,
    Serialize, Serializer,
};
use std::alloc::Global;

const KEY: Name<'static> = Name {
    name: "",
    kind: NameKind::Field,
    case: Case::AsIs,
    aliases: &[],
    skipped: false,
};

/// The keys, by their numbers.
static KEYS: [Name<'static>; 15] = [
    Name { name: "dir", ..KEY },
    Name {
        name: "spill-dir",
        ..KEY
    },
    Name {
        name: "recovery-mode",
        ..KEY
    },
    Name {
        name: "recovery-read-block-size",
        ..KEY
    },
    Name {
        name: "recovery-threads",
        ..KEY
    },
    Name {
        name: "bytes-per-sync",
        ..KEY
    },
    Name {
        name: "format-version",
        ..KEY
    },
    Name {
        name: "target-file-size",
        ..KEY
    },
    Name {
        name: "purge-threshold",
        ..KEY
    },
    Name {
        name: "purge-rewrite-threshold",
        ..KEY
    },
    Name {
        name: "purge-rewrite-garbage-ratio",
        ..KEY
    },
    Name {
        name: "memory-limit",
        ..KEY
    },
    Name {
        name: "enable-log-recycle",
        ..KEY
    },
    Name {
        name: "prefill-for-recycle",
        ..KEY
    },
    Name {
        name: "prefill-limit",
        ..KEY
    },
];

// Writes a setting.
fn write<T: Serialize, S: Serializer>(key: &str, setting: &T, out: &mut S) -> Result<(), S::Error> {
    out.key(key)?;
    setting.serialize(out)
}

// Reads a setting.
fn read<'de, T: Deserialize<'de>, F: Format>(
    setting: &mut T,
    alloc: Global,
    from: &mut Deserializer<'de, '_, F>,
) -> Result<(), F::Error> {
    *setting = T::deserialize(alloc, from)?;
    Ok(())
}

impl Config {
    fn write_places<S: Serializer>(&self, out: &mut S) -> Result<(), S::Error> {
        write("dir", &self.dir, out)?;
        write("spill-dir", &self.spill_dir, out)?;
        write("recovery-mode", &self.recovery_mode, out)?;
        write(
            "recovery-read-block-size",
            &self.recovery_read_block_size,
            out,
        )?;
        write("recovery-threads", &self.recovery_threads, out)
    }

    fn write_sizes<S: Serializer>(&self, out: &mut S) -> Result<(), S::Error> {
        write("bytes-per-sync", &self.bytes_per_sync, out)?;
        write("format-version", &self.format_version, out)?;
        write("target-file-size", &self.target_file_size, out)?;
        write("purge-threshold", &self.purge_threshold, out)?;
        write(
            "purge-rewrite-threshold",
            &self.purge_rewrite_threshold,
            out,
        )
    }

    fn write_rest<S: Serializer>(&self, out: &mut S) -> Result<(), S::Error> {
        write(
            "purge-rewrite-garbage-ratio",
            &self.purge_rewrite_garbage_ratio,
            out,
        )?;
        write("memory-limit", &self.memory_limit, out)?;
        write("enable-log-recycle", &self.enable_log_recycle, out)?;
        write("prefill-for-recycle", &self.prefill_for_recycle, out)?;
        write("prefill-limit", &self.prefill_limit, out)
    }

    // Reads the setting of this number.
    fn read_setting<'de, F: Format>(
        &mut self,
        number: usize,
        alloc: Global,
        from: &mut Deserializer<'de, '_, F>,
    ) -> Result<(), F::Error> {
        match number {
            0 => read(&mut self.dir, alloc, from),
            1 => read(&mut self.spill_dir, alloc, from),
            2 => read(&mut self.recovery_mode, alloc, from),
            3 => read(&mut self.recovery_read_block_size, alloc, from),
            4 => read(&mut self.recovery_threads, alloc, from),
            5 => read(&mut self.bytes_per_sync, alloc, from),
            6 => read(&mut self.format_version, alloc, from),
            _ => self.read_other(number, alloc, from),
        }
    }

    fn read_other<'de, F: Format>(
        &mut self,
        number: usize,
        alloc: Global,
        from: &mut Deserializer<'de, '_, F>,
    ) -> Result<(), F::Error> {
        match number {
            7 => read(&mut self.target_file_size, alloc, from),
            8 => read(&mut self.purge_threshold, alloc, from),
            9 => read(&mut self.purge_rewrite_threshold, alloc, from),
            10 => read(&mut self.purge_rewrite_garbage_ratio, alloc, from),
            11 => read(&mut self.memory_limit, alloc, from),
            12 => read(&mut self.enable_log_recycle, alloc, from),
            13 => read(&mut self.prefill_for_recycle, alloc, from),
            14 => read(&mut self.prefill_limit, alloc, from),
            _ => from.skip(),
        }
    }

    // Reads the settings of a table over these. A key that comes twice is refused.
    fn read_table<'de, F: Format>(
        &mut self,
        alloc: Global,
        from: &mut Deserializer<'de, '_, F>,
    ) -> Result<(), F::Error> {
        let mut found = [false; 15];
        for _ in 0..u64::MAX {
            let Some(number) = from.next_key(&KEYS)? else {
                return Ok(());
            };
            if is_second(&mut found, number) {
                return Err(from.duplicate(key_of(number)));
            }
            self.read_setting(number, alloc, from)?;
        }
        Err(from.invalid())
    }

    // Reads the first settings from a list of them, in the order of the keys.
    fn read_list<'de, F: Format>(
        &mut self,
        alloc: Global,
        from: &mut Deserializer<'de, '_, F>,
    ) -> Result<(), F::Error> {
        for number in 0..KEYS.len() {
            if !from.next_item()? {
                return Ok(());
            }
            self.read_setting(number, alloc, from)?;
        }
        if from.next_item()? {
            return Err(from.wrong_len());
        }
        Ok(())
    }
}

// Whether the setting of this number was found before. Other keys may come again.
fn is_second(found: &mut [bool; 15], number: usize) -> bool {
    match found.get_mut(number) {
        Some(is_found) => {
            let was = *is_found;
            *is_found = true;
            was
        }
        None => false,
    }
}

fn key_of(number: usize) -> &'static str {
    match KEYS.get(number) {
        Some(key) => key.name,
        None => "",
    }
}

impl Described for Config {}

impl Serialize for Config {
    fn serialize<S: Serializer>(&self, out: &mut S) -> Result<(), S::Error> {
        out.begin_map(Some(15))?;
        self.write_places(out)?;
        self.write_sizes(out)?;
        self.write_rest(out)?;
        out.end_map()
    }
}

impl<'de> Deserialize<'de> for Config {
    fn deserialize<F: Format>(
        alloc: Global,
        from: &mut Deserializer<'de, '_, F>,
    ) -> Result<Config, F::Error> {
        let is_list = from.begin_struct()?;
        let mut config = Config::fresh(alloc);
        if is_list {
            config.read_list(alloc, from)?;
        } else {
            config.read_table(alloc, from)?;
        }
        Ok(config)
    }
}

impl DeserializeOwned for Config {
    fn deserialize_owned<F: Format>(
        alloc: Global,
        from: &mut Deserializer<'_, '_, F>,
    ) -> Result<Config, F::Error> {
        Config::deserialize(alloc, from)
    }
}
