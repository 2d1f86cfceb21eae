//! The text of a line's result, while it is being made.

use crate::words::{are_same, is_text};
use raft_env::IoKind;
use std::alloc::{AllocError, Global};

/// If memory runs out, something is left out, and the text isn't complete.
#[derive(Drop)]
pub(crate) struct Said {
    alloc: Global,
    text: String,
    is_whole: bool,
}

impl Said {
    pub(crate) fn new(alloc: Global) -> Said {
        Said {
            alloc,
            text: String::new(alloc),
            is_whole: true,
        }
    }

    pub(crate) fn clear(&mut self) {
        self.text.clear();
        self.is_whole = true;
    }

    pub(crate) fn as_str(&self) -> &str {
        self.text.as_str()
    }

    pub(crate) fn is_whole(&self) -> bool {
        self.is_whole
    }

    pub(crate) fn say(&mut self, text: &str) {
        if self.text.push_str(text).is_err() {
            self.is_whole = false;
        }
    }

    /// Appends another text.
    pub(crate) fn add(&mut self, other: &Said) {
        self.say(other.as_str());
        self.is_whole = self.is_whole && other.is_whole;
    }

    fn made(&mut self, text: Result<String, AllocError>) {
        match text {
            Ok(text) => self.say(text.as_str()),
            Err(_) => self.is_whole = false,
        }
    }

    pub(crate) fn whether(&mut self, is: bool) {
        self.say(if is { "yes" } else { "no" });
    }

    /// Appends the name of a kind of a call's fault.
    pub(crate) fn kind(&mut self, kind: IoKind) {
        self.say(match kind {
            IoKind::NoSpace => "no-space",
            IoKind::NotFound => "not-found",
            IoKind::Other => "other",
        });
    }

    pub(crate) fn number(&mut self, number: u64) {
        let text = format!(in self.alloc; "{number}");
        self.made(text);
    }

    /// Appends a text and a number.
    pub(crate) fn with(&mut self, front: &str, number: u64) {
        self.say(front);
        self.number(number);
    }

    pub(crate) fn pair(&mut self, first: u64, second: u64) {
        self.number(first);
        self.with(" ", second);
    }

    /// Appends each path after a text.
    pub(crate) fn paths(&mut self, front: &str, paths: &[String]) {
        for path in paths {
            self.say(front);
            self.say(path.as_str());
        }
    }

    /// Appends bytes as one word after a text: as text if all are graphic signs, otherwise as
    /// hexadecimal digits. A byte that occurs more than eight times in a row is printed once, with
    /// `*N`.
    pub(crate) fn spell(&mut self, front: &str, all: &[u8]) {
        self.say(front);
        let is_one = all.len() > 8 && are_same(all);
        self.spell_each(if is_one { &all[..1] } else { all });
        if is_one {
            self.with("*", all.len() as u64);
        }
    }

    fn spell_each(&mut self, bytes: &[u8]) {
        if is_text(bytes) {
            for byte in bytes {
                self.sign(char::from(*byte));
            }
        } else {
            self.say("0x");
            for byte in bytes {
                self.digits(*byte);
            }
        }
    }

    fn sign(&mut self, sign: char) {
        if self.text.push(sign).is_err() {
            self.is_whole = false;
        }
    }

    fn digits(&mut self, byte: u8) {
        let text = format!(in self.alloc; "{byte:02x}");
        self.made(text);
    }
}
