//! What the note of spans says of a folder's files.

use crate::faults::told;
use crate::folder::Folder;
use anyhow::Result;
use raft_disk::{OpenFault, Span, SpanNote, SpanReport};
use raft_inspect::QueueFiles;
use raft_opening_plan::Known;
use raft_records::{FileId, LogQueue};
use std::alloc::AllocError;

impl Folder {
    /// The note, read before and after the names; none if a writer changed it meanwhile.
    pub(crate) fn read_note(&mut self, before: Option<SpanNote>) -> Result<()> {
        let Some(before) = before else {
            return Ok(());
        };
        if let Some(after) = self.note_now()? {
            if after.count == before.count {
                self.note = Some(after);
            }
        }
        Ok(())
    }

    /// The note; none if it cannot be read.
    pub(crate) fn note_now(&self) -> Result<Option<SpanNote>> {
        match self.view.spans() {
            Ok(note) => Ok(note),
            Err(OpenFault::Memory) => Err(told(&self.rt, &OpenFault::Memory)),
            Err(_) => Ok(None),
        }
    }

    /// The files that a purge had dropped, as the note says, and that an opening passes over.
    pub fn left_over(&self) -> Result<Vec<FileId>> {
        let mut left_over = Vec::new(self.alloc);
        for queue in &[LogQueue::Append, LogQueue::Rewrite] {
            let files = self.files_of(*queue)?;
            let passed = QueueFiles::passed_by_number(&files);
            if let Some(known) = self.known(*queue)? {
                for file in files.get(..passed).unwrap_or(&[]) {
                    if known.left_over.contains(&file.id.seq) {
                        left_over.push(file.id)?;
                    }
                }
            }
        }
        Ok(left_over)
    }

    /// What the note says of a queue; none without a note, and if another program wrote to the log
    /// after it.
    pub(crate) fn known(&self, queue: LogQueue) -> Result<Option<Known>> {
        let Some(span) = self.span(queue) else {
            return Ok(None);
        };
        let report = self.report(span, queue)?;
        if report.is_stale {
            return Ok(None);
        }
        Ok(Some(Known {
            first: span.first,
            last: span.last,
            missing: report.missing,
            strays: report.strays,
            left_over: report.left_over,
            has_lost: span.has_lost,
        }))
    }

    /// What the note says of missing files. That files were missing before is known also if another
    /// program wrote to the log since.
    pub(crate) fn known_losses(&self, queue: LogQueue) -> Result<Option<Known>> {
        match (self.known(queue)?, self.span(queue)) {
            (Some(known), _) => Ok(Some(known)),
            (None, Some(span)) if span.has_lost => Ok(Some(Known {
                first: span.first,
                last: span.last,
                missing: Vec::new(self.alloc),
                strays: Vec::new(self.alloc),
                left_over: Vec::new(self.alloc),
                has_lost: true,
            })),
            _ => Ok(None),
        }
    }

    fn span(&self, queue: LogQueue) -> Option<Span> {
        let note = self.note.as_ref()?;
        match queue {
            LogQueue::Append => Some(note.spans.append),
            LogQueue::Rewrite => Some(note.spans.rewrite),
        }
    }

    fn report(&self, span: Span, queue: LogQueue) -> Result<SpanReport, AllocError> {
        let mut numbers = Vec::new(self.alloc);
        for file in self.files_of(queue)? {
            numbers.push(file.id.seq)?;
        }
        span.report(self.alloc, &numbers)
    }
}
