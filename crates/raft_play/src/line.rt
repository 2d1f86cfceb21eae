//! A line: its words by their kinds, and its result.

use crate::asked::Asked;
use crate::forms::{Kind, form_of};
use crate::said::Said;
use crate::words::{Misspelled, Names, bytes_of};
use raft_env::FsFault;
use raft_records::Fault;
use raft_test_rows::number_of;
use std::alloc::{AllocError, Global};

/// The result of a line without a form. No line may expect it.
pub(crate) const BAD_LINE: &str = "a bad line";

/// The codes of the faults `Memory` and `Io`.
const MEMORY: u8 = 12;

const STORAGE: u8 = 3;

/// The words of a line after the first, in a list for each kind, and the result printed until now.
/// If the line is bad or refused, only that counts.
pub(crate) struct Line {
    pub(crate) alloc: Global,
    /// Bytes that earlier lines named.
    names: Names,
    texts: Vec<String>,
    /// `None` for a word that is no number, such as `-`.
    numbers: Vec<Option<u64>>,
    /// `None` for `-`.
    values: Vec<Option<Vec<u8>>>,
    pub(crate) said: Said,
    is_bad: bool,
    /// The code of the fault with which the line is refused.
    refusal: Option<u8>,
}

// One call in each proof that drops it. A derived `Drop` would be one call for each field
// (docs/DECISIONS.md).
impl Drop for Line {
    fn drop(self) {
        let Line {
            alloc: _,
            names: _names,
            texts: _texts,
            numbers: _numbers,
            values: _values,
            said: _said,
            is_bad: _,
            refusal: _,
        } = self;
    }
}

impl Line {
    pub(crate) fn new(alloc: Global) -> Line {
        Line {
            alloc,
            names: Vec::new(alloc),
            texts: Vec::new(alloc),
            numbers: Vec::new(alloc),
            values: Vec::new(alloc),
            said: Said::new(alloc),
            is_bad: false,
            refusal: None,
        }
    }

    /// Begins a new line: no words, and nothing printed.
    pub(crate) fn begin(&mut self) {
        self.texts.clear();
        self.numbers.clear();
        self.values.clear();
        self.said.clear();
        self.is_bad = false;
        self.refusal = None;
    }

    /// Reads the words of a line. Returns its request, or `None` if it has no form.
    pub(crate) fn read(&mut self, asked: &str) -> Result<Option<Asked>, AllocError> {
        let words = words_of(self.alloc, asked)?;
        self.read_words(&words)
    }

    fn read_words(&mut self, words: &[&str]) -> Result<Option<Asked>, AllocError> {
        let Some((first, rest)) = words.split_first() else {
            return Ok(None);
        };
        let Some(form) = form_of(first, rest) else {
            return Ok(None);
        };
        self.keep_all(form.1, rest)?;
        Ok(if self.is_right() { Some(form.2) } else { None })
    }

    fn keep_all(&mut self, kinds: &[Kind], words: &[&str]) -> Result<(), AllocError> {
        if let Some(Kind::Numbers) = kinds.first() {
            return self.keep_numbers(words);
        }
        for (kind, word) in kinds.iter().zip(words) {
            self.keep(*kind, word)?;
        }
        Ok(())
    }

    fn keep_numbers(&mut self, words: &[&str]) -> Result<(), AllocError> {
        for word in words {
            self.keep_number(word)?;
        }
        Ok(())
    }

    fn keep(&mut self, kind: Kind, word: &str) -> Result<(), AllocError> {
        match kind {
            Kind::Text => self.keep_text(word),
            Kind::Bytes => self.keep_bytes(word),
            Kind::Key => self.keep_key(word),
            Kind::Is(_) => Ok(()),
            _ => self.keep_number(word),
        }
    }

    fn keep_number(&mut self, word: &str) -> Result<(), AllocError> {
        self.numbers.push(number_of(word.as_bytes()))?;
        Ok(())
    }

    fn keep_text(&mut self, word: &str) -> Result<(), AllocError> {
        self.texts.push(String::from_str(self.alloc, word)?)?;
        Ok(())
    }

    fn keep_key(&mut self, word: &str) -> Result<(), AllocError> {
        if word == "-" {
            self.values.push(None)?;
            return Ok(());
        }
        self.keep_bytes(word)
    }

    fn keep_bytes(&mut self, word: &str) -> Result<(), AllocError> {
        match bytes_of(self.alloc, &self.names, word) {
            Ok(bytes) => {
                self.values.push(Some(bytes))?;
                Ok(())
            }
            Err(Misspelled::Memory) => Err(AllocError),
            Err(Misspelled::NoBytes) => {
                self.is_bad = true;
                Ok(())
            }
        }
    }

    /// The text, number or bytes at a place in the list of their kind. A number without a bound is
    /// the greatest one.
    pub(crate) fn text(&self, place: usize) -> &str {
        match self.texts.get(place) {
            Some(text) => text.as_str(),
            None => "",
        }
    }

    pub(crate) fn bound(&self, place: usize) -> Option<u64> {
        match self.numbers.get(place) {
            Some(number) => *number,
            None => None,
        }
    }

    pub(crate) fn number(&self, place: usize) -> u64 {
        self.bound(place).unwrap_or(u64::MAX)
    }

    pub(crate) fn byte(&self, place: usize) -> u8 {
        u8::try_from(self.number(place)).unwrap_or(u8::MAX)
    }

    pub(crate) fn pair(&self, place: usize) -> (u64, u64) {
        (self.number(place), self.number(place.saturating_add(1)))
    }

    /// All numbers; `None` for each other word.
    pub(crate) fn numbers(&self) -> &[Option<u64>] {
        self.numbers.as_slice()
    }

    pub(crate) fn bytes(&self, place: usize) -> &[u8] {
        match self.values.get(place) {
            Some(Some(bytes)) => bytes.as_slice(),
            _ => &[],
        }
    }

    /// Takes the bytes at a place.
    pub(crate) fn take_key(&mut self, place: usize) -> Option<Vec<u8>> {
        match self.values.get_mut(place) {
            Some(value) => value.take(),
            None => None,
        }
    }

    pub(crate) fn take(&mut self, place: usize) -> Vec<u8> {
        match self.take_key(place) {
            Some(bytes) => bytes,
            None => Vec::new(self.alloc),
        }
    }

    /// Names bytes: the first text of the line is the name.
    pub(crate) fn name(&mut self) -> Result<(), Fault> {
        let name = String::from_str(self.alloc, self.text(0))?;
        let bytes = self.take(0);
        self.names.push((name, bytes))?;
        Ok(())
    }

    /// The line has no form, or needs an engine or files that don't exist.
    pub(crate) fn bad(&mut self) {
        self.is_bad = true;
    }

    pub(crate) fn refuse(&mut self, fault: Fault) {
        self.refused(fault.code());
    }

    /// The line is refused with a fault of this code.
    pub(crate) fn refused(&mut self, code: u8) {
        self.refusal = Some(code);
    }

    pub(crate) fn refuse_files(&mut self, fault: FsFault) {
        self.refusal = Some(match fault {
            FsFault::Io(_) => STORAGE,
            FsFault::Memory => MEMORY,
        });
    }

    /// Whether the line has a form and isn't refused.
    pub(crate) fn is_right(&self) -> bool {
        !self.is_bad && self.refusal.is_none()
    }

    /// Prints `ok`, or refuses the line with the fault.
    pub(crate) fn done(&mut self, done: Result<(), Fault>) {
        match done {
            Ok(()) => self.said.say("ok"),
            Err(fault) => self.refuse(fault),
        }
    }

    pub(crate) fn done_by_files(&mut self, done: Result<(), FsFault>) {
        match done {
            Ok(()) => self.said.say("ok"),
            Err(fault) => self.refuse_files(fault),
        }
    }

    /// The result of the line.
    pub(crate) fn answer(&mut self) -> &str {
        if self.is_bad {
            return BAD_LINE;
        }
        if let Some(code) = self.refused_with() {
            self.said.clear();
            self.said.with("refused ", u64::from(code));
        }
        self.said.as_str()
    }

    fn refused_with(&self) -> Option<u8> {
        if self.said.is_whole() {
            self.refusal
        } else {
            Some(MEMORY)
        }
    }
}

fn words_of<'a>(alloc: Global, asked: &'a str) -> Result<Vec<&'a str>, AllocError> {
    let mut words = Vec::new(alloc);
    for word in asked.split_whitespace() {
        words.push(word)?;
    }
    Ok(words)
}
