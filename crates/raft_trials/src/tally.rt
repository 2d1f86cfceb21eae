//! Counts trials, and those that found an image that isn't allowed.

use std::alloc::{AllocError, Global};
use std::fmt;

#[derive(Drop)]
pub(crate) struct Tally {
    /// The calls of storage that failed.
    pub(crate) calls: u64,
    pub(crate) crashes: u64,
    /// The crashes inside an opening after another crash.
    pub(crate) in_openings: u64,
    pub(crate) wrong: u64,
    /// The description of the first wrong trial.
    pub(crate) first_wrong: Option<String>,
}

fn add_one(count: &mut u64) {
    *count = (*count).saturating_add(1);
}

impl Tally {
    pub(crate) fn new() -> Tally {
        Tally {
            calls: 0,
            crashes: 0,
            in_openings: 0,
            wrong: 0,
            first_wrong: None,
        }
    }

    pub(crate) fn add_call(&mut self) {
        add_one(&mut self.calls);
    }

    pub(crate) fn add_crash(&mut self) {
        add_one(&mut self.crashes);
    }

    pub(crate) fn add_in_opening(&mut self) {
        add_one(&mut self.in_openings);
    }

    pub(crate) fn add_wrong(
        &mut self,
        alloc: Global,
        what: &impl fmt::Debug,
    ) -> Result<(), AllocError> {
        add_one(&mut self.wrong);
        if self.first_wrong.is_none() {
            let calls = self.calls;
            self.first_wrong = Some(format!(in alloc; "after {calls} calls: {what:?}")?);
        }
        Ok(())
    }
}

impl fmt::Display for Tally {
    fn fmt<W: fmt::Write>(&self, f: &mut fmt::Formatter<W>) -> fmt::Result {
        let Tally {
            calls,
            crashes,
            in_openings,
            wrong,
            ..
        } = self;
        write!(
            f,
            "{calls} failing calls, {crashes} crashes, {in_openings} in openings, {wrong} wrong"
        )
    }
}
