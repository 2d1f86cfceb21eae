//! The plan of an opening of a folder.

use crate::faults::told;
use crate::folder::Folder;
use crate::hindrances::Places;
use crate::left_out::ReadFiles;
use crate::source::is_missing;
use anyhow::{Error, Result, bail};
use raft_command_line::Options;
use raft_config::RecoveryMode;
use raft_console::Progress;
use raft_inspect::{Behind, BehindSearch, Cut, QueueFiles, cuts_of, search_behind};
use raft_opening_plan::{Kind, Plan, Planner, may_be_stray};
use raft_records::{Fault, LogQueue};

/// How many places are searched before progress is reported.
const STEP: usize = 1024 * 1024;

/// A longer file is the log's, whatever it holds.
const LONGEST_STRAY: usize = 64 * 1024 * 1024;

/// The log files of both queues, and what can be read of each.
pub struct BothQueues {
    pub append: QueueFiles,
    pub rewrite: QueueFiles,
}

// One call in a proof that drops it; derived, it would be one of each field (docs/DECISIONS.md).
impl Drop for BothQueues {
    fn drop(self) {
        let BothQueues {
            append: _append,
            rewrite: _rewrite,
        } = self;
    }
}

impl Folder {
    fn planner(&self, mode: RecoveryMode) -> Planner<'_> {
        let spill = match &self.spill {
            Some(spill) => Some(spill.as_str()),
            None => None,
        };
        Planner {
            alloc: self.alloc,
            folder: self.path.as_str(),
            spill,
            mode,
        }
    }

    /// The files of both queues as they can be read; none if one is gone meanwhile.
    pub fn inspect_both(&self, progress: &mut Progress) -> Result<Option<BothQueues>> {
        let Some(append) = self.inspect(LogQueue::Append, progress)? else {
            return Ok(None);
        };
        match self.inspect(LogQueue::Rewrite, progress)? {
            Some(rewrite) => Ok(Some(BothQueues { append, rewrite })),
            None => Ok(None),
        }
    }

    /// What an opening in the options' mode does; none if a file is gone meanwhile. If a file
    /// cannot be read, it is what the system refuses.
    pub fn plan(&self, options: &Options<'_>, progress: &mut Progress) -> Result<Option<Plan>> {
        match self.inspect_both(progress) {
            Ok(Some(queues)) => self.whole_plan(&queues, options, progress),
            Ok(None) => Ok(None),
            Err(error) => Ok(Some(self.plan_of_unread(options, error)?)),
        }
    }

    /// What the system refuses, if files cannot be read for this error; it fails with the error if
    /// the system refuses nothing else.
    pub(crate) fn plan_of_unread(&self, options: &Options<'_>, error: Error) -> Result<Plan> {
        let plan = self.refused(options)?;
        if plan.items.is_empty() {
            return Err(error);
        }
        Ok(plan)
    }

    /// The same of files that were read.
    pub fn whole_plan(
        &self,
        queues: &BothQueues,
        options: &Options<'_>,
        progress: &mut Progress,
    ) -> Result<Option<Plan>> {
        let Some(mut plan) = self.plan_of(queues, options, progress)? else {
            return Ok(None);
        };
        self.add_refused(options, &mut plan)?;
        plan.drop_unreached(self.alloc)?;
        if !reads_reserved(options) {
            self.add_deleted(&mut plan)?;
        }
        Ok(Some(plan))
    }

    /// The same without items of refusals by the system and of deletions: only losses of files
    /// that were read.
    pub fn plan_of(
        &self,
        queues: &BothQueues,
        options: &Options<'_>,
        progress: &mut Progress,
    ) -> Result<Option<Plan>> {
        let planner = self.planner(options.mode);
        let mut plan = Plan::new(self.alloc);
        self.add_unread_note(options, &mut plan)?;
        for found in [&queues.append, &queues.rewrite] {
            made(planner.add_failures(found, &mut plan))?;
        }
        let fails = plan.failing().is_some();
        self.add_unread(planner, &mut plan)?;
        for found in [&queues.append, &queues.rewrite] {
            let is_stray = self.are_stray(found)?;
            let known = self.known(found.queue)?;
            planner.add_passed(found, is_stray, known.as_ref(), &mut plan)?;
            if !fails && !is_stray && !self.add_cuts(planner, found, progress, &mut plan)? {
                return Ok(None);
            }
        }
        Ok(Some(plan))
    }

    /// What an opening does not read or passes over. It reads files only of a queue of which it
    /// passes some over; none if one is gone meanwhile.
    pub fn unread(&self, options: &Options<'_>, progress: &mut Progress) -> Result<Option<Plan>> {
        let planner = self.planner(options.mode);
        let mut plan = Plan::new(self.alloc);
        self.add_note(options, &mut plan)?;
        self.add_unread(planner, &mut plan)?;
        for queue in &[LogQueue::Append, LogQueue::Rewrite] {
            if QueueFiles::passed_by_number(&self.files_of(*queue)?) == 0 {
                continue;
            }
            let Some(found) = self.inspect(*queue, progress)? else {
                return Ok(None);
            };
            let is_stray = self.are_stray(&found)?;
            let known = self.known(*queue)?;
            planner.add_passed(&found, is_stray, known.as_ref(), &mut plan)?;
        }
        Ok(Some(plan))
    }

    // Adds a note that is not read, or why the system refuses it to an opening.
    fn add_note(&self, options: &Options<'_>, plan: &mut Plan) -> Result<()> {
        self.add_unread_note(options, plan)?;
        if plan.has(Kind::Note) {
            let places = self.places(options);
            places.add_refused_note(self.path.as_str(), plan)?;
            plan.drop_unreached(self.alloc)?;
        }
        Ok(())
    }

    /// What the system refuses of the log's own files.
    pub fn refused(&self, options: &Options<'_>) -> Result<Plan> {
        let mut plan = Plan::new(self.alloc);
        self.add_refused(options, &mut plan)?;
        Ok(plan)
    }

    fn add_unread(&self, planner: Planner<'_>, plan: &mut Plan) -> Result<()> {
        let read = ReadFiles {
            rt: self.rt,
            planner,
            view: &self.view,
            files: &self.files,
        };
        read.add_left_out(plan)?;
        let spill = match &self.note {
            Some(note) => note.spans.spill.as_str(),
            None => "",
        };
        for queue in &[LogQueue::Append, LogQueue::Rewrite] {
            if let Some(known) = self.known_losses(*queue)? {
                planner.add_missing(*queue, &known, spill, plan)?;
            }
        }
        Ok(())
    }

    pub(crate) fn places(&self, options: &Options<'_>) -> Places<'_> {
        Places {
            rt: &self.rt,
            planner: self.planner(options.mode),
            reads_reserved: reads_reserved(options),
            is_in_use: self.is_in_use(),
        }
    }

    fn add_refused(&self, options: &Options<'_>, plan: &mut Plan) -> Result<()> {
        let places = self.places(options);
        places.add_refused(self.path.as_str(), plan)?;
        if let Some(spill) = &self.spill {
            places.add_spill(self.path.as_str(), spill.as_str(), plan)?;
        }
        Ok(())
    }

    fn add_deleted(&self, plan: &mut Plan) -> Result<()> {
        let Some(first) = self.reserved.first() else {
            return Ok(());
        };
        let mut bytes = 0u64;
        for file in &self.reserved {
            bytes = bytes.saturating_add(file.len);
        }
        let planner = self.planner(RecoveryMode::TolerateTailCorruption);
        let files = self.reserved.len() as u64;
        let item = planner.reserved(first.path.as_str(), files, bytes)?;
        Ok(plan.items.push(item)?)
    }

    // Adds what is cut off the files of a queue, and tells whether all of them still exist.
    fn add_cuts(
        &self,
        planner: Planner<'_>,
        found: &QueueFiles,
        progress: &mut Progress,
        plan: &mut Plan,
    ) -> Result<bool> {
        for cut in &made(cuts_of(self.alloc, found, planner.mode))? {
            let Some(behind) = self.search(cut, progress)? else {
                return Ok(false);
            };
            planner.add_cut(cut, behind, plan)?;
        }
        Ok(true)
    }

    // Whether whole records follow where a cut begins; none if the file is gone meanwhile.
    fn search(&self, cut: &Cut, progress: &mut Progress) -> Result<Option<Behind>> {
        if !cut.is_last {
            return Ok(Some(Behind::Nothing));
        }
        let offset = cut.offset as u64;
        let bytes = match self.view.read_part(cut.path.as_str(), offset, cut.len) {
            Ok(bytes) => bytes,
            Err(fault) if is_missing(&fault) => return Ok(None),
            Err(fault) => return Err(told(&self.rt, &fault)),
        };
        let mut search = BehindSearch::new();
        for _ in 0..u64::MAX {
            if let Some(behind) = made(cut.search(self.alloc, &mut search, &bytes, STEP))? {
                return Ok(Some(behind));
            }
            progress.at(
                "bytes searched for records after a break",
                search.searched as u64,
                bytes.len() as u64,
            )?;
        }
        Ok(Some(Behind::Unsearched))
    }

    // Whether the files that an opening keeps hold no record, and files are passed over for them.
    fn are_stray(&self, found: &QueueFiles) -> Result<bool> {
        if !may_be_stray(found) {
            return Ok(false);
        }
        for (file, check) in found.kept_files().iter().zip(found.kept_checks()) {
            if check.len > LONGEST_STRAY {
                return Ok(false);
            }
            let bytes = match self.view.read_part(file.path.as_str(), 0, check.len) {
                Ok(bytes) => bytes,
                Err(fault) => return Err(told(&self.rt, &fault)),
            };
            match made(search_behind(self.alloc, file.id, None, &bytes))? {
                Behind::Nothing => {}
                _ => return Ok(false),
            }
        }
        Ok(true)
    }
}

// Whether an opening reads the reserved files, and does not delete them.
fn reads_reserved(options: &Options<'_>) -> bool {
    match options.base {
        Some(config) => config.prefill_for_recycle,
        None => false,
    }
}

fn made<T>(called: Result<T, Fault>) -> Result<T> {
    match called {
        Ok(value) => Ok(value),
        Err(fault) => bail!("the files cannot be checked: {fault}"),
    }
}
