//! A file in the place of the note of spans in which no note can be read.

use crate::faults::told;
use crate::folder::Folder;
use crate::hindrances::{Cause, Places, SPANS};
use anyhow::Result;
use raft_command_line::Options;
use raft_disk::OpenFault;
use raft_opening_plan::Plan;
use std::alloc::AllocError;
use std::fs::{self, Metadata};
use std::os::unix::fs::MetadataExt;

impl Folder {
    /// Adds what has the name of the note, if no note can be read there.
    pub(crate) fn add_unread_note(&self, options: &Options<'_>, plan: &mut Plan) -> Result<()> {
        let places = self.places(options);
        let place = format!(in self.alloc; "{}/{SPANS}", self.path)?;
        let Ok(metadata) = fs::symlink_metadata(&self.rt, place.as_str()) else {
            return Ok(());
        };
        let cause = match self.view.spans() {
            Ok(Some(_)) => return Ok(()),
            Ok(None) => places.cause_without_note(place.as_str(), &metadata)?,
            Err(OpenFault::Io(_, error)) => Cause {
                text: format!(in self.alloc; "{error}")?,
                mend: String::new(self.alloc),
            },
            Err(fault) => return Err(told(&self.rt, &fault)),
        };
        let Cause { text, mend } = cause;
        let item = places.planner.unread_note(SPANS, text.as_str(), mend)?;
        Ok(plan.items.push(item)?)
    }
}

impl Places<'_> {
    // Why a path without a note has none, and what mends it: a note may be found through a link, or
    // in a file with a second name.
    fn cause_without_note(&self, place: &str, metadata: &Metadata) -> Result<Cause, AllocError> {
        let alloc = self.rt.alloc();
        if metadata.is_symlink() && is_file(self.rt, place) {
            return self.by_copy(place, String::from_str(alloc, "a link to a file")?);
        }
        if metadata.is_file() && metadata.nlink() != 1 {
            return self.by_copy(
                place,
                String::from_str(alloc, "the file has a second name")?,
            );
        }
        Ok(Cause {
            text: String::from_str(alloc, "it holds no note")?,
            mend: self.planner.move_place(place, "aside")?,
        })
    }
}

fn is_file(rt: &HostRuntime, place: &str) -> bool {
    match fs::metadata(rt, place) {
        Ok(metadata) => metadata.is_file(),
        Err(_) => false,
    }
}
