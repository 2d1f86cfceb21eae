//! The outcome of an engine's call as text.

use crate::line::Line;
use crate::said::Said;
use raft_records::Fault;
use raft_test_rows::{EMPTY, Outcome, State, TextEntry, fault_of};

const PLACES: [&str; 13] = [
    "a", "b", "c", "d", "0", "1", "2", "3", "4", "5", "6", "7", "other",
];

// The number that is the whole outcome; `None` if it isn't a number.
fn number_in(outcome: &Outcome) -> Option<u64> {
    match outcome {
        Outcome::Size(Ok(size)) => Some(*size as u64),
        Outcome::Dropped(Ok(count)) => Some(*count as u64),
        Outcome::Count(Ok(count)) => Some(*count),
        Outcome::Index(index) => *index,
        _ => None,
    }
}

impl Line {
    /// Prints the outcome of a call.
    pub(crate) fn outcome(&mut self, outcome: &Outcome) {
        if let Some(fault) = fault_of(outcome) {
            self.refused(fault.code());
        } else if let Some(number) = number_in(outcome) {
            self.said.number(number);
        } else {
            self.said.other(outcome);
        }
    }
}

impl Said {
    // Prints an outcome that is neither a refusal nor a number.
    fn other(&mut self, outcome: &Outcome) {
        match outcome {
            Outcome::Sizes(Ok(sizes)) => self.sizes(sizes),
            Outcome::Value(Ok(Some(value))) => self.spell("value ", value),
            Outcome::Entry(Ok(entry)) => self.text_entry(entry.as_ref()),
            Outcome::Groups(Ok(groups)) => self.groups("groups", groups),
            Outcome::ToCompact(Ok(groups)) => self.groups("ask", groups),
            Outcome::Done(_) => self.say("ok"),
            _ => self.say("none"),
        }
    }

    pub(crate) fn text_entry(&mut self, entry: Option<&TextEntry>) {
        match entry {
            Some(entry) => {
                self.with("entry ", entry.index);
                self.spell(" ", &entry.word);
            }
            None => self.say("none"),
        }
    }

    fn groups(&mut self, front: &str, groups: &[u64]) {
        self.say(front);
        for group in groups {
            self.with(" ", *group);
        }
    }

    fn sizes(&mut self, sizes: &[Result<usize, Fault>]) {
        self.say("sizes");
        for size in sizes {
            match size {
                Ok(size) => self.with(" ", *size as u64),
                Err(fault) => self.with(" refused ", u64::from(fault.code())),
            }
        }
    }

    /// Prints the first byte of each key's value and of each entry; `other` if anything else is
    /// held.
    pub(crate) fn state(&mut self, state: &State) {
        if *state == EMPTY {
            return self.say("nothing");
        }
        let [p, q, r, s, t, u, v, w] = state.words;
        let other = if state.other { b'1' } else { 0 };
        let bytes = [
            state.a, state.b, state.c, state.d, p, q, r, s, t, u, v, w, other,
        ];
        let mut is_first = true;
        for (place, byte) in PLACES.iter().zip(bytes.iter()) {
            if *byte != 0 {
                self.say(if is_first { "" } else { " " });
                self.say(place);
                self.spell("=", &[*byte]);
                is_first = false;
            }
        }
    }
}
