//! Sizes in bytes, for people to read.

use std::alloc::{AllocError, Global};

const UNITS: [&str; 4] = ["KB", "MB", "GB", "TB"];

/// A size in its greatest unit of 1,024, with one digit after the point: `12.3 MB`.
pub(crate) fn size_text(alloc: Global, bytes: u64) -> Result<String, AllocError> {
    if bytes < 1024 {
        return format!(in alloc; "{bytes} B");
    }
    let mut whole = bytes;
    let mut rest = 0;
    let mut unit = "B";
    for next in &UNITS {
        if whole < 1024 {
            break;
        }
        rest = whole % 1024;
        whole /= 1024;
        unit = *next;
    }
    let tenths = rest.saturating_mul(10) / 1024;
    format!(in alloc; "{whole}.{tenths} {unit}")
}

/// Adds a bar of `#`, whose length is to its width as a part to the whole.
pub(crate) fn add_bar(
    text: &mut String,
    part: u64,
    whole: u64,
    width: u64,
) -> Result<(), AllocError> {
    let filled = if whole == 0 {
        0
    } else {
        part.min(whole).saturating_mul(width) / whole
    };
    for place in 0..width {
        text.push(if place < filled { '#' } else { '.' })?;
    }
    Ok(())
}
