//! A program's own document, and its settings by `serde` and by `raft_settings`.

use raft_config::Config;
use raft_records::{Fault, Fresh};
use raft_settings::with_table;
use serde::{Deserialize, Serialize};
use std::alloc::Global;

/// The settings of a program that has a log.
#[derive(Debug, Drop, PartialEq, Serialize, Deserialize)]
#[serde(rename_all = "kebab-case")]
pub(crate) struct Program {
    pub name: String,
    pub raft_engine: Config,
}

/// A document whose table `raft-engine` has these lines.
pub(crate) fn document_of(alloc: Global, lines: &str) -> Result<String, Fault> {
    Ok(format!(in alloc; "name = \"store\"\n\n[raft-engine]\n{lines}\n")?)
}

/// The settings of a document by `serde`, or none if it has none.
pub(crate) fn by_serde(alloc: Global, document: &str) -> Option<Config> {
    let read: Result<Program, toml::de::Error> = toml::from_str(alloc, document);
    match read {
        Ok(Program { name, raft_engine }) => {
            drop(name);
            Some(raft_engine)
        }
        Err(_) => None,
    }
}

/// The settings of a document by `raft_settings`, over the default ones.
pub(crate) fn by_table(alloc: Global, document: &str) -> Result<Config, Fault> {
    let Ok(table) = toml::table_from_str(alloc, document) else {
        return Err(Fault::InvalidArgument("the settings are not valid TOML"));
    };
    let Some(settings) = table.get("raft-engine").and_then(|value| value.as_table()) else {
        return Err(Fault::InvalidArgument("raft-engine"));
    };
    with_table(alloc, &Config::fresh(alloc), settings)
}
