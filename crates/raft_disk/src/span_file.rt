//! The file `SPANS` of a folder that is open to be changed. No clause says what the system did: this
//! file is to be read.
//!
//! A note is written to the slot that has not the one that a crash leaves. So a write that a crash
//! tears leaves the note before, which is true: a file that it needs is deleted or renamed only
//! after a later note was synced. A refused note fails no write of the log.

use crate::places::{join, sync_folder};
use crate::root::Root;
use crate::spans::{MAX_SPILL_LEN, SLOT_LEN, SPANS, Span, SpanReports, Spans, is_note, latest};
use raft_base::LogQueue;
use std::alloc::Global;
use std::fs::{self, File, OpenOptions};
use std::io::{self, ErrorKind, Read};
use std::os::unix::fs::{FileExt, MetadataExt};

/// What the folder knows, and the note on the disk does not have.
#[derive(Clone, Copy, PartialEq)]
enum Owed {
    Nothing,
    /// Deletions, for which a crash may leave the note before.
    Deletions,
    /// A loss, for which a note has to be synced.
    Loss,
}

/// The file of the note, and the spans as the folder knows them.
#[derive(Drop)]
pub(crate) struct SpanFile {
    /// The file that has a note; none if there is none.
    file: Option<File>,
    /// Whether a crash leaves the file's name.
    is_named: bool,
    /// Whether no note is written: something else has its name, or no span is known.
    is_silent: bool,
    /// Whether a note or the log's settings say which second folder the log has, or that it has none.
    knows_spill: bool,
    spans: Spans,
    count: u64,
    /// The slot of the note that a crash leaves.
    synced: u64,
    owed: Owed,
    /// What the note said at the opening; none if there was no note.
    reports: Option<SpanReports>,
}

impl SpanFile {
    fn new(alloc: Global) -> SpanFile {
        SpanFile {
            file: None,
            is_named: true,
            is_silent: false,
            knows_spill: false,
            spans: Spans::empty(alloc),
            count: 0,
            synced: 1,
            owed: Owed::Nothing,
            reports: None,
        }
    }

    /// Reads the note of a folder, after it was synced. It fails if the note may not be opened, and
    /// for lack of memory or descriptors. A note that cannot be read for another cause is removed;
    /// if that fails too, none is written.
    pub(crate) fn open(rt: &HostRuntime, root: &Root) -> io::Result<SpanFile> {
        let mut found = SpanFile::new(rt.alloc());
        let place = root.place(rt.alloc(), SPANS)?;
        match fs::symlink_metadata(rt, place.as_str()) {
            Ok(metadata) if metadata.is_file() && metadata.nlink() == 1 => {}
            Err(e) if e.kind() == ErrorKind::NotFound => return Ok(found),
            _ => {
                found.is_silent = true;
                return Ok(found);
            }
        }
        match found.read(rt, place.as_str()) {
            Ok(()) => Ok(found),
            Err(e) if may_be_sound(&e) => Err(e),
            Err(_) => {
                found = SpanFile::new(rt.alloc());
                found.is_silent = remove_note(rt, root).is_err();
                Ok(found)
            }
        }
    }

    fn read(&mut self, rt: &HostRuntime, place: &str) -> io::Result<()> {
        let mut options = OpenOptions::new();
        let file = options.read(true).write(true).open(rt, place)?;
        file.sync_all()?;
        let bytes = read_note(rt.alloc(), &file)?;
        self.is_silent = !is_note(&bytes);
        if self.is_silent {
            return Ok(());
        }
        if let Some((slot, note)) = latest(rt.alloc(), &bytes)? {
            self.spans = note.spans;
            self.count = note.count;
            self.synced = slot;
            self.knows_spill = true;
        }
        self.file = Some(file);
        Ok(())
    }

    /// Makes the files that exist in the folders of the note those of the log, of which none is
    /// missing. Without a note, and if that is refused, there is no note afterwards.
    pub(crate) fn accept(rt: &HostRuntime, root: &Root) -> io::Result<()> {
        if let Ok(noted) = SpanFile::open(rt, root) {
            let mut noted = noted;
            if noted.renew(rt, root).is_ok() {
                return Ok(());
            }
        }
        remove_note(rt, root)
    }

    // Notes the files that an opening will read. It fails if there is no note.
    fn renew(&mut self, rt: &HostRuntime, root: &Root) -> io::Result<()> {
        let alloc = rt.alloc();
        if self.file.is_none() || self.count == 0 {
            return Err(io::Error::from(ErrorKind::NotFound));
        }
        let mut files = Vec::new(alloc);
        add_files(rt, root, "", &mut files)?;
        if !self.spans.spill.is_empty() {
            add_files(rt, root, self.spans.spill.as_str(), &mut files)?;
        }
        self.spans.append = Span::of(&self.numbers_of(alloc, &files, LogQueue::Append)?);
        self.spans.rewrite = Span::of(&self.numbers_of(alloc, &files, LogQueue::Rewrite)?);
        self.write(rt, root, true)
    }

    /// Notes the second folder that the log's settings name. If a note has no room for its path,
    /// none is written.
    pub(crate) fn see_spill(&mut self, alloc: Global, spill: Option<&str>) -> io::Result<()> {
        self.knows_spill = true;
        if let Some(spill) = spill {
            self.spans.spill = String::from_str(alloc, spill)?;
            self.is_silent = self.is_silent || spill.len() > MAX_SPILL_LEN;
        }
        Ok(())
    }

    /// Compares the note with the files that an opening found. Writes a new note if there is none,
    /// if a crash left it old, or if another program made it stale. If a file may be missing, it
    /// writes a note only if the old one reports a loss, so that the loss is remembered. None is written either if there
    /// are log files in other folders, any of which may be the log's second one.
    pub(crate) fn begin(
        &mut self,
        rt: &HostRuntime,
        root: &Root,
        files: &[(String, Vec<u8>)],
    ) -> io::Result<()> {
        let alloc = rt.alloc();
        let append = self.numbers_of(alloc, files, LogQueue::Append)?;
        let rewrite = self.numbers_of(alloc, files, LogQueue::Rewrite)?;
        if self.count != 0 {
            self.reports = Some(SpanReports {
                append: self.spans.append.report(alloc, &append)?,
                rewrite: self.spans.rewrite.report(alloc, &rewrite)?,
            });
        }
        if self.has_unknown(files) {
            self.is_silent = true;
            return Ok(());
        }
        let knows_loss = self.knows_loss();
        let (noted_append, noted_rewrite) = (self.spans.append, self.spans.rewrite);
        let (Some(append), Some(rewrite)) = (
            noted_append.at_opening(&append, knows_loss),
            noted_rewrite.at_opening(&rewrite, knows_loss),
        ) else {
            self.is_silent = true;
            return Ok(());
        };
        self.spans.append = append;
        self.spans.rewrite = rewrite;
        if append != noted_append || rewrite != noted_rewrite {
            let _ = self.write(rt, root, true);
        }
        Ok(())
    }

    // Whether there are log files of which no note and no setting says if they are the log's.
    fn has_unknown(&self, files: &[(String, Vec<u8>)]) -> bool {
        !self.knows_spill
            && files
                .iter()
                .any(|file| self.spans.is_elsewhere(file.0.as_str()))
    }

    // The numbers of a queue's files, in ascending order.
    fn numbers_of(
        &self,
        alloc: Global,
        files: &[(String, Vec<u8>)],
        queue: LogQueue,
    ) -> io::Result<Vec<u64>> {
        let mut numbers = Vec::new(alloc);
        for (path, _) in files {
            match self.spans.number_at(path.as_str()) {
                Some((of, number)) if of == queue => numbers.push(number)?,
                _ => {}
            }
        }
        numbers.sort()?;
        Ok(numbers)
    }

    // Whether the note reported a loss at the opening.
    fn knows_loss(&self) -> bool {
        match &self.reports {
            Some(reports) => reports.has_losses(),
            None => false,
        }
    }

    /// What the note said at the opening; none if there was no note.
    pub(crate) fn reports(&self) -> Option<&SpanReports> {
        self.reports.as_ref()
    }

    /// Notes and syncs that a file will be made, if it hides that one was missing at the opening. If
    /// that is refused, each next write and sync tries it again. If no note is written, the one
    /// before is removed; if that is refused, the next change of a name tries it again. None is
    /// written any more if the file is in another folder than the note counts.
    pub(crate) fn replace(&mut self, rt: &HostRuntime, root: &Root, path: &str) {
        self.is_silent = self.is_silent || self.spans.is_elsewhere(path);
        let Some((queue, number)) = self.spans.number_at(path) else {
            if self.is_silent {
                let _ = self.write_or_remove(rt, root);
            }
            return;
        };
        if self.is_silent {
            let _ = self.write_or_remove(rt, root);
            return;
        }
        let hides = match &self.reports {
            Some(reports) => reports.of(queue).hides(number),
            None => false,
        };
        if hides && self.lose(queue) && self.write(rt, root, true).is_err() {
            self.owed = Owed::Loss;
        }
    }

    // Notes that a missing file can't be put back; returns whether that is new.
    fn lose(&mut self, queue: LogQueue) -> bool {
        let span = self.spans.span(queue);
        let is_new = !span.has_lost;
        span.has_lost = true;
        is_new
    }

    // The same if a purge drops files after a missing one.
    fn lose_passed(&mut self, queue: LogQueue) -> bool {
        let first = self.spans.span(queue).first;
        let is_passed = match &self.reports {
            Some(reports) => reports.of(queue).is_missing_before(first),
            None => false,
        };
        is_passed && self.lose(queue)
    }

    /// Notes and syncs that a file was made. If that is refused, the note before stays, which is
    /// true.
    pub(crate) fn add(&mut self, rt: &HostRuntime, root: &Root, path: &str) {
        let Some((queue, number)) = self.spans.number_at(path) else {
            return;
        };
        if self.spans.span(queue).add(number) {
            self.end_dropping();
            let _ = self.write(rt, root, true);
        }
    }

    /// Notes and syncs that a file will get another name. If that is refused, a note that reports a
    /// loss stays, and another one is removed; it fails if that is refused too.
    pub(crate) fn leave(&mut self, rt: &HostRuntime, root: &Root, path: &str) -> io::Result<()> {
        let Some((queue, number)) = self.spans.number_at(path) else {
            return Ok(());
        };
        if !self.spans.span(queue).leave(number) {
            return Ok(());
        }
        self.lose_passed(queue);
        self.end_dropping();
        self.write_or_remove(rt, root)
    }

    /// The same if a file will be deleted. Only the first of several deletions is synced.
    pub(crate) fn delete(&mut self, rt: &HostRuntime, root: &Root, path: &str) -> io::Result<()> {
        let Some((queue, number)) = self.spans.number_at(path) else {
            return Ok(());
        };
        let is_due = self.spans.span(queue).delete(number);
        if self.lose_passed(queue) || is_due {
            self.write_or_remove(rt, root)?;
        }
        if self.owed == Owed::Nothing && self.file.is_some() {
            self.owed = Owed::Deletions;
        }
        Ok(())
    }

    /// Writes what the changes before this call left. If that is refused, a loss is tried again at
    /// the next call; deletions are not, since the note before is true.
    pub(crate) fn catch_up(&mut self, rt: &HostRuntime, root: &Root) {
        if self.owed == Owed::Nothing {
            return;
        }
        self.end_dropping();
        let is_loss = self.owed == Owed::Loss;
        if self.write(rt, root, is_loss).is_ok() || !is_loss {
            self.owed = Owed::Nothing;
        }
    }

    fn end_dropping(&mut self) {
        self.spans.append.is_dropping = false;
        self.spans.rewrite.is_dropping = false;
    }

    // A note that reports a loss stays if the next one is refused. It may then report as missing what
    // a purge drops, but a loss is not forgotten.
    fn write_or_remove(&mut self, rt: &HostRuntime, root: &Root) -> io::Result<()> {
        if self.file.is_none() || (!self.is_silent && self.write(rt, root, true).is_ok()) {
            return Ok(());
        }
        if !self.is_silent && self.knows_loss() {
            self.owed = Owed::Loss;
            return Ok(());
        }
        remove_note(rt, root)?;
        self.file = None;
        self.owed = Owed::Nothing;
        Ok(())
    }

    fn write(&mut self, rt: &HostRuntime, root: &Root, is_synced: bool) -> io::Result<()> {
        if self.is_silent {
            return Ok(());
        }
        let slot = 1 ^ (self.synced & 1);
        let bytes = self.spans.slot(rt.alloc(), self.count.saturating_add(1))?;
        if self.file.is_none() {
            self.file = Some(make_note(rt, root)?);
            self.is_named = false;
        }
        if let Some(file) = &self.file {
            file.write_all_at(&bytes, slot * SLOT_LEN as u64)?;
            self.count = self.count.saturating_add(1);
            if is_synced {
                file.sync_data()?;
                self.synced = slot;
            }
        }
        if !self.is_named {
            sync_folder(rt, root.at())?;
            self.is_named = true;
        }
        if is_synced {
            self.owed = Owed::Nothing;
        }
        Ok(())
    }
}

// Whether the note was not read for want of a permission, of memory or of descriptors. This says
// nothing of the note, which may report a loss.
fn may_be_sound(error: &io::Error) -> bool {
    matches!(
        error.kind(),
        ErrorKind::PermissionDenied | ErrorKind::OutOfMemory
    ) || matches!(error.raw_os_error(), Some(23 | 24))
}

// Adds the paths of what a folder holds, by its path from the log's, without bytes.
fn add_files(
    rt: &HostRuntime,
    root: &Root,
    folder: &str,
    files: &mut Vec<(String, Vec<u8>)>,
) -> io::Result<()> {
    let alloc = rt.alloc();
    let place = root.place(alloc, folder)?;
    let entries = match fs::read_dir(rt, place.as_str()) {
        Ok(entries) => entries,
        Err(e) if e.kind() == ErrorKind::NotFound => return Ok(()),
        Err(e) => return Err(e),
    };
    for entry in entries {
        match entry {
            Ok(entry) => {
                let path = join(alloc, folder, entry.file_name())?;
                files.push((path, Vec::new(alloc)))?;
            }
            // A name that is no UTF-8 is no log file's.
            Err(e) if e.kind() == ErrorKind::InvalidFilename => {}
            Err(e) => return Err(e),
        }
    }
    Ok(())
}

/// Removes the note of a folder, so that a crash doesn't bring it back. None may be there.
fn remove_note(rt: &HostRuntime, root: &Root) -> io::Result<()> {
    let place = root.place(rt.alloc(), SPANS)?;
    match fs::remove_file(rt, place.as_str()) {
        Err(e) if e.kind() != ErrorKind::NotFound => Err(e),
        // The sync after an earlier removal may have failed.
        _ => sync_folder(rt, root.at()),
    }
}

fn make_note(rt: &HostRuntime, root: &Root) -> io::Result<File> {
    let place = root.place(rt.alloc(), SPANS)?;
    let mut options = OpenOptions::new();
    options.read(true).write(true).create_new(true);
    let file = options.open(rt, place.as_str())?;
    // A shorter file has notes too.
    let _ = file.set_len(2 * SLOT_LEN as u64);
    Ok(file)
}

/// The bytes of a file of notes; of a longer file one byte more than the slots have.
pub(crate) fn read_note(alloc: Global, file: &File) -> io::Result<Vec<u8>> {
    let mut bytes = Vec::with_capacity(alloc, 2 * SLOT_LEN + 2)?;
    file.take(2 * SLOT_LEN as u64 + 1).read_to_end(&mut bytes)?;
    Ok(bytes)
}
