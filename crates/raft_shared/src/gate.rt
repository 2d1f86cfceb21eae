//! Which threads write, which one leads, and the last successful sync.
ghost use Rattle.std.specs.Prelude.{◌≡◌, IfOk, IfErr};

use crate::book::Naming;
use crate::ticket::{Covered, Durable, Ticket};

/// The state of the threads' rounds.
#[derive(Drop)]
pub(crate) struct Gate<J: Naming> {
    // The numbers of writes that have begun, and of those that are finished.
    announced: u64,
    written: u64,
    // Whether one of the waiting threads syncs, or is about to.
    leading: bool,
    covered: Option<Covered<J>>,
}

impl<J: Naming> Gate<J> {
    ghost use Rattle.raft_shared.specs.Answer.{Answers};

    pub(crate) fn new() -> Gate<J> {
        Gate {
            announced: 0,
            written: 0,
            leading: false,
            covered: None,
        }
    }

    pub(crate) fn announce(&mut self) {
        self.announced = self.announced.wrapping_add(1);
    }

    pub(crate) fn note_write(&mut self) {
        self.written = self.written.wrapping_add(1);
    }

    /// The number of writes that a leader waits for: those that have begun, up to a bound.
    pub(crate) fn awaited(&self, bound: u64) -> u64 {
        let missing = self.announced.wrapping_sub(self.written);
        self.written.wrapping_add(missing.min(bound))
    }

    pub(crate) fn has_written(&self, count: u64) -> bool {
        self.written.wrapping_sub(count) < 1 << 63
    }

    pub(crate) fn set_leading(&mut self, leading: bool) {
        self.leading = leading;
    }

    /// Whether the ticket at this place has to wait: another thread leads, and no sync after its
    /// write has succeeded.
    pub(crate) fn holds_back(&self, number: usize) -> bool {
        self.leading && !self.covers(number)
    }

    fn covers(&self, number: usize) -> bool {
        match &self.covered {
            Some(covered) => number < covered.number(),
            None => false,
        }
    }

    pub(crate) fn note_sync(&mut self, covered: &Covered<J>) {
        if !self.covers(covered.number()) {
            self.covered = Some(covered.again());
        }
    }

    /// The ticket's result, if a sync after its write has succeeded; otherwise the ticket.
    pub(crate) fn answer(&self, ticket: Ticket<J>) -> Result<Durable<J>, Ticket<J>>
        ensures ok { IfOk result (Answers ticket) }
        ensures err { IfErr result (λ back. back ≡ ticket) }
    {
        match &self.covered {
            Some(covered) => ticket.covered_by(covered),
            None => Err(ticket),
        }
    }
}
