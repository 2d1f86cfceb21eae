//! Progress on standard error, for work that takes over a second.

use crate::telling::tell;
use anyhow::Result;
use raft_command_line::Options;
use std::alloc::AllocError;
use std::time::Instant;

/// Prints the progress once a second.
#[derive(Drop)]
pub struct Progress {
    rt: HostRuntime,
    start: Instant,
    /// The number of seconds after which progress is printed next; `None` if the options ask for
    /// quiet.
    next: Option<u64>,
    /// Each line is an object.
    json: bool,
}

impl Progress {
    pub fn new(rt: HostRuntime, quiet: bool) -> Result<Progress> {
        Progress::start(rt, quiet, false)
    }

    /// As the options request it.
    pub fn of(rt: HostRuntime, options: &Options<'_>) -> Result<Progress> {
        Progress::start(rt, options.quiet, options.json)
    }

    fn start(rt: HostRuntime, quiet: bool, json: bool) -> Result<Progress> {
        let start = Instant::now(&rt)?;
        let next = if quiet { None } else { Some(1) };
        Ok(Progress {
            rt,
            start,
            next,
            json,
        })
    }

    /// Prints how much of a whole is done, if a second has passed.
    pub fn at(&mut self, what: &str, done: u64, whole: u64) -> Result<()> {
        if !self.is_due()? {
            return Ok(());
        }
        self.tell(format!(in self.rt.alloc(); "{what}: {done} of {whole}"))
    }

    /// Prints how many of a file's bytes are read, if a second has passed.
    pub fn within(&mut self, path: &str, done: u64, whole: u64) -> Result<()> {
        if !self.is_due()? {
            return Ok(());
        }
        self.tell(format!(in self.rt.alloc(); "{path}: {done} of {whole} bytes read"))
    }

    /// Prints the step that begins, if a second has passed.
    pub fn begin(&mut self, what: &str) -> Result<()> {
        if !self.is_due()? {
            return Ok(());
        }
        tell(&self.rt, self.json, "progress", what)
    }

    // Whether a second has passed since the last line.
    fn is_due(&mut self) -> Result<bool> {
        let Some(next) = self.next else {
            return Ok(false);
        };
        let seconds = self.start.elapsed(&self.rt)?.as_secs();
        if seconds < next {
            return Ok(false);
        }
        self.next = Some(seconds.saturating_add(1));
        Ok(true)
    }

    fn tell(&self, text: Result<String, AllocError>) -> Result<()> {
        tell(&self.rt, self.json, "progress", text?.as_str())
    }
}
