//! The bytes that a word of the command line means: its own, those of a file or of standard input.

use anyhow::{Result, anyhow, bail};
use raft_inspect::read_digits;
use std::fs;
use std::io::{Input, Read};

/// The bytes that a word means: those of the file after `@`, those of standard input for `-`,
/// otherwise the word itself or the bytes of its hexadecimal digits.
pub fn bytes_of(rt: &HostRuntime, word: &str, hex: bool) -> Result<Vec<u8>> {
    if word == "-" {
        return input(rt);
    }
    if let Some(path) = word.strip_prefix('@') {
        return file(rt, path);
    }
    if hex {
        return match read_digits(rt.alloc(), word.as_bytes()) {
            Ok(bytes) => Ok(bytes),
            Err(fault) => Err(anyhow!("{word}: {fault}")),
        };
    }
    Ok(word.as_bytes().to_vec(rt.alloc())?)
}

fn input(rt: &HostRuntime) -> Result<Vec<u8>> {
    let mut bytes = Vec::new(rt.alloc());
    match rt.reader().read_to_end(&mut bytes) {
        Ok(_) => Ok(bytes),
        Err(e) => bail!("standard input: {e}"),
    }
}

/// The bytes of a file, or of standard input for `-`.
pub fn file_or_input(rt: &HostRuntime, path: &str) -> Result<Vec<u8>> {
    if path == "-" {
        input(rt)
    } else {
        file(rt, path)
    }
}

fn file(rt: &HostRuntime, path: &str) -> Result<Vec<u8>> {
    match fs::read(rt, path) {
        Ok(bytes) => Ok(bytes),
        Err(e) => Err(anyhow!("{e}").context(path)),
    }
}
