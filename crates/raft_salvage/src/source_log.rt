//! A log that is read into another one: what of it an opening does not read.

use anyhow::{Result, anyhow};
use raft_command_line::Options;
use raft_console::Progress;
use raft_gathering::{Part, Source};
use raft_looks::Folder;
use raft_opening_plan::Plan;
use raft_records::FileId;

/// What an opening of a log passes over or does not find.
pub(crate) struct SourceLog {
    /// With the commands that mend it.
    pub plan: Plan,
    /// Files that a purge had dropped. Their records are older than those of the log.
    left_over: Vec<FileId>,
}

// One call in a proof that drops it; derived, it would be one of each field (docs/DECISIONS.md).
impl Drop for SourceLog {
    fn drop(self) {
        let SourceLog {
            plan: _plan,
            left_over: _left_over,
        } = self;
    }
}

impl SourceLog {
    /// The log in a folder and in the options' second folder.
    pub fn look_at(rt: HostRuntime, folder: &str, options: &Options<'_>) -> Result<SourceLog> {
        let view = Folder::open(rt, folder, options)?;
        let mut progress = Progress::of(rt, options)?;
        match view.unread(options, &mut progress)? {
            Some(plan) => Ok(SourceLog {
                plan,
                left_over: view.left_over()?,
            }),
            None => Err(anyhow!("a file of it was deleted meanwhile").context(folder)),
        }
    }

    /// Takes out of the sources the files that a purge had dropped.
    pub fn drop_left_over(&self, sources: &mut Vec<Source>) {
        sources.retain(|source| !is_left_over(source, &self.left_over));
    }
}

fn is_left_over(source: &Source, left_over: &[FileId]) -> bool {
    source.part == Part::Log && left_over.contains(&source.id)
}
