//! Text that a terminal shows and does not obey.

use std::alloc::{AllocError, Global};

/// The same text with each control character, as a file's name may have them, as its number:
/// `\x1b`.
pub fn printable(alloc: Global, text: &str) -> Result<String, AllocError> {
    let mut shown = String::new(alloc);
    for each in text.chars() {
        add(alloc, each, &mut shown)?;
    }
    Ok(shown)
}

fn add(alloc: Global, each: char, shown: &mut String) -> Result<(), AllocError> {
    if !each.is_control() {
        return shown.push(each);
    }
    let code = u32::from(each);
    let spelled = format!(in alloc; "\\x{code:02x}")?;
    shown.push_str(spelled.as_str())
}
