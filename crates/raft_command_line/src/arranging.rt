//! The order of the words of a command line.

use crate::arguments::is_command;
use std::alloc::{AllocError, Global};

/// The flags of all commands that may also precede the command.
pub(crate) const FRONT_FLAGS: [&str; 3] = ["--json", "--hex", "--quiet"];

/// The place of the command in a line whose flags follow it: the program and the folder precede it.
const COMMAND_PLACE: usize = 2;

/// Puts words into the order that `parse` reads: flags between the folder and the command follow
/// the command. A folder named like a command becomes `./` and its name if a command follows it.
pub fn arrange(alloc: Global, words: &mut Vec<String>) -> Result<(), AllocError> {
    let Some(place) = command_place(words) else {
        return Ok(());
    };
    for step in 0..place.saturating_sub(COMMAND_PLACE) {
        let at = place.saturating_sub(step);
        if COMMAND_PLACE < at && at < words.len() {
            words.swap(at - 1, at);
        }
    }
    if let Some(folder) = words.get_mut(1) {
        if is_command(folder.as_str()) {
            *folder = format!(in alloc; "./{folder}")?;
        }
    }
    Ok(())
}

// The place of the first word after the folder that is no flag of these, if it is a command.
fn command_place(words: &[String]) -> Option<usize> {
    for (place, word) in words.iter().enumerate().skip(COMMAND_PLACE) {
        if is_command(word.as_str()) {
            return Some(place);
        }
        if !FRONT_FLAGS.contains(&word.as_str()) {
            return None;
        }
    }
    None
}
