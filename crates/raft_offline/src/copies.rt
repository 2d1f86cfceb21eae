//! Which files a fork copies, from where.

use crate::forks::{BEFORE_NAME, SOURCE, TARGET};
use raft_config::Config;
use raft_env::FileSystem;
use raft_fork::fork;
use raft_records::Fault;
use std::alloc::Global;

/// A file that is copied.
pub(crate) struct Copy {
    /// Its path from the source's folder.
    pub from: String,
    pub name: String,
}

// One call in a proof that drops it; derived, it would be one of each field (docs/DECISIONS.md).
impl Drop for Copy {
    fn drop(self) {
        let Copy {
            from: _from,
            name: _name,
        } = self;
    }
}

/// What a fork of these files copies.
pub(crate) fn planned<F: FileSystem>(
    alloc: Global,
    config: &Config,
    files: &mut F,
) -> Result<Vec<Copy>, Fault> {
    let source = source_settings(alloc, config)?;
    let details = fork(alloc, &source, files, TARGET)?;
    let mut copies = Vec::new(alloc);
    for path in &details.copied {
        copies.push(copy_of(alloc, path.as_str(), config, files)?)?;
    }
    Ok(copies)
}

fn source_settings(alloc: Global, config: &Config) -> Result<Config, Fault> {
    let mut source = config.clone()?;
    source.enable_log_recycle = false;
    source.prefill_for_recycle = false;
    source.dir = String::from_str(alloc, SOURCE)?;
    if let Some(spill) = &config.spill_dir {
        source.spill_dir = Some(format!(in alloc; "{SOURCE}/{spill}")?);
    }
    Ok(source)
}

// The first folder's file is copied where the second has none of this name.
fn copy_of<F: FileSystem>(
    alloc: Global,
    copied: &str,
    config: &Config,
    files: &F,
) -> Result<Copy, Fault> {
    let name = String::from_str(alloc, copied.strip_prefix(BEFORE_NAME).unwrap_or(copied))?;
    let from = match &config.spill_dir {
        Some(spill) => path_from(alloc, spill.as_str(), name.as_str(), files)?,
        None => name.clone()?,
    };
    Ok(Copy { from, name })
}

fn path_from<F: FileSystem>(
    alloc: Global,
    spill: &str,
    name: &str,
    files: &F,
) -> Result<String, Fault> {
    let path = format!(in alloc; "{spill}/{name}")?;
    let place = format!(in alloc; "{SOURCE}/{path}")?;
    if files.is_file(place.as_str()) {
        Ok(path)
    } else {
        Ok(String::from_str(alloc, name)?)
    }
}
