//! Commands for a shell.

use crate::planner::Planner;
use std::alloc::{AllocError, Global};

/// The option for the second folder of a log, with a space.
pub(crate) const SPILL: &str = "--spill ";

/// The same for the log that an import reads.
pub(crate) const FROM_SPILL: &str = "--from-spill ";

impl Planner<'_> {
    /// `raftctl FOLDER WORDS`, with the second folder if the command line names one.
    pub(crate) fn raftctl(&self, words: &str) -> Result<String, AllocError> {
        let folder = quoted(self.alloc, self.folder)?;
        match self.spill {
            Some(spill) => {
                let spill = quoted(self.alloc, spill)?;
                format!(in self.alloc; "raftctl {folder} {words} --spill {spill}")
            }
            None => format!(in self.alloc; "raftctl {folder} {words}"),
        }
    }

    /// Reads all whole records into a new log beside this one.
    pub(crate) fn salvage(&self) -> Result<String, AllocError> {
        let target = self.beside("saved")?;
        self.raftctl(format!(in self.alloc; "salvage {target}")?.as_str())
    }

    /// Reads this log into a new one beside it, also blocks that LZ4 compressed.
    pub(crate) fn import(&self) -> Result<String, AllocError> {
        let target = self.beside("imported")?;
        let folder = quoted(self.alloc, self.folder)?;
        match self.spill {
            Some(spill) => {
                let spill = quoted(self.alloc, spill)?;
                format!(in self.alloc;
                    "raftctl {target} import --from-folder {folder} --from-spill {spill}"
                )
            }
            None => format!(in self.alloc; "raftctl {target} import --from-folder {folder}"),
        }
    }

    /// Gives a file of the log's folder a name that is no log file's.
    pub(crate) fn move_aside(&self, path: &str, ending: &str) -> Result<String, AllocError> {
        self.move_place(
            format!(in self.alloc; "{}/{path}", self.front())?.as_str(),
            ending,
        )
    }

    /// Gives a path of the system another name in the same folder, if that does not exist.
    pub fn move_place(&self, place: &str, ending: &str) -> Result<String, AllocError> {
        let from = quoted(self.alloc, place)?;
        let to = format!(in self.alloc; "{place}.{ending}")?;
        let to = quoted(self.alloc, to.as_str())?;
        format!(in self.alloc; "mv -n {from} {to}")
    }

    /// Lets the owner of a path read and write it.
    pub fn allow(&self, place: &str) -> Result<String, AllocError> {
        let place = quoted(self.alloc, place)?;
        format!(in self.alloc; "chmod u+rw {place}")
    }

    /// Puts a copy in the place of a file. Its other names, or its owner, keep the file itself.
    pub fn copy_over(&self, place: &str) -> Result<String, AllocError> {
        let copy = format!(in self.alloc; "{place}.copy")?;
        let copy = quoted(self.alloc, copy.as_str())?;
        let place = quoted(self.alloc, place)?;
        format!(in self.alloc; "test ! -e {copy} && cp -p {place} {copy} && mv -f {copy} {place}")
    }

    /// Puts a folder in the place of the link to it.
    pub fn replace_link(&self, place: &str, folder: &str) -> Result<String, AllocError> {
        let place = quoted(self.alloc, place)?;
        let folder = quoted(self.alloc, folder)?;
        format!(in self.alloc; "rm {place} && mv {folder} {place}")
    }

    /// The option for a second folder.
    pub(crate) fn spill_option(&self, below: &str) -> Result<String, AllocError> {
        let below = quoted(self.alloc, below)?;
        format!(in self.alloc; "{SPILL}{below}")
    }

    // A path beside the log's folder, as a word of a shell.
    fn beside(&self, ending: &str) -> Result<String, AllocError> {
        let place = format!(in self.alloc; "{}.{ending}", self.front())?;
        quoted(self.alloc, place.as_str())
    }

    // The folder's path without slashes at its end.
    fn front(&self) -> &str {
        self.folder.trim_end_matches('/')
    }
}

// A text as a word of a shell. If it has a control character, the shell is bash or zsh.
fn quoted(alloc: Global, text: &str) -> Result<String, AllocError> {
    if is_word(text) {
        return String::from_str(alloc, text);
    }
    if has_control(text) {
        return escaped(alloc, text);
    }
    let mut quoted = String::from_str(alloc, "'")?;
    for each in text.chars() {
        match each {
            '\'' => quoted.push_str("'\\''")?,
            _ => quoted.push(each)?,
        }
    }
    quoted.push('\'')?;
    Ok(quoted)
}

fn escaped(alloc: Global, text: &str) -> Result<String, AllocError> {
    let mut escaped = String::from_str(alloc, "$'")?;
    for each in text.chars() {
        match each {
            '\'' | '\\' => {
                escaped.push('\\')?;
                escaped.push(each)?;
            }
            _ if each.is_control() => {
                let code = u32::from(each);
                escaped.push_str(format!(in alloc; "\\u{code:04x}")?.as_str())?;
            }
            _ => escaped.push(each)?,
        }
    }
    escaped.push('\'')?;
    Ok(escaped)
}

fn has_control(text: &str) -> bool {
    for each in text.chars() {
        if each.is_control() {
            return true;
        }
    }
    false
}

// Whether a shell takes a text as one word, as it is.
fn is_word(text: &str) -> bool {
    for byte in text.as_bytes() {
        if !byte.is_ascii_alphanumeric() && !b"/._-+,:@%=".contains(byte) {
            return false;
        }
    }
    !text.is_empty()
}
