//! The words of a command line.

use std::alloc::{AllocError, Global};

fn add(alloc: Global, words: &mut Vec<String>, word: &str) -> Result<(), AllocError> {
    words.push(String::from_str(alloc, word)?)?;
    Ok(())
}

/// The program's name, a folder, the words after it, and the option for quiet.
pub(crate) fn words_of(
    alloc: Global,
    folder: &str,
    command: &'static [&'static str],
) -> Result<Vec<String>, AllocError> {
    let mut words = Vec::new(alloc);
    add(alloc, &mut words, "raftctl")?;
    add(alloc, &mut words, folder)?;
    for word in command {
        add(alloc, &mut words, word)?;
    }
    add(alloc, &mut words, "--quiet")?;
    Ok(words)
}
