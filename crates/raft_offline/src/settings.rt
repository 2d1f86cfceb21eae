//! The settings with which a log is opened.

use anyhow::{Result, anyhow, bail};
use raft_command_line::{Options, Request};
use raft_commands::config;
use raft_config::Config;
use raft_console::{Status, note_made, print_bytes};
use raft_records::{Fault, Fresh};
use raft_settings::{read, write};
use std::alloc::{AllocError, Global};
use std::fs;
use std::io::ErrorKind;

/// The file in a log's folder whose settings are used if no other is named.
const NAME: &str = "raftlog.toml";

/// A size, as a text with a unit or a number of bytes.
const SIZE: &str = "a size, as \"128MB\" or a number of bytes";

const NUMBER: &str = "a number from 0 on";

const SWITCH: &str = "true or false";

/// The keys of all settings, and what each may be.
const KEYS: [(&str, &str); 15] = [
    (
        "dir",
        "a text; the folder of the command line is used in its place",
    ),
    ("spill-dir", "a text, a path from the log's folder"),
    (
        "recovery-mode",
        "\"absolute-consistency\", \"tolerate-tail-corruption\" or \"tolerate-any-corruption\"",
    ),
    ("recovery-read-block-size", SIZE),
    ("recovery-threads", NUMBER),
    ("bytes-per-sync", SIZE),
    ("format-version", "1 or 2"),
    ("target-file-size", SIZE),
    ("purge-threshold", SIZE),
    ("purge-rewrite-threshold", SIZE),
    (
        "purge-rewrite-garbage-ratio",
        "a whole number of thousandths from 0 to 1000, as 600 for 0.6",
    ),
    ("memory-limit", SIZE),
    ("enable-log-recycle", SWITCH),
    ("prefill-for-recycle", SWITCH),
    ("prefill-limit", SIZE),
];

/// The settings of the named file; without one those of `raftlog.toml` in the log's folder, if that
/// exists; otherwise the default ones. The log's folder is that of the command line, whatever `dir`
/// says, and `spill-dir` is a path from there. Standard error lists keys that are no setting's.
pub fn settings_of(rt: &HostRuntime, request: &Request<'_>) -> Result<Config> {
    let mut config = match request.options.settings {
        Some(path) => settings_in(rt, path, request)?,
        None => {
            let path = format!(in rt.alloc(); "{}/{NAME}", request.folder)?;
            match fs::metadata(rt, path.as_str()) {
                Ok(_) => settings_in(rt, path.as_str(), request)?,
                Err(e) if is_missing(e.kind()) => Config::fresh(rt.alloc()),
                Err(e) => return Err(anyhow!("{e}").context(path)),
            }
        }
    };
    config.dir = String::new(rt.alloc());
    Ok(config)
}

// Whether there is no such file. An opening tells of a file in a folder's place.
fn is_missing(kind: ErrorKind) -> bool {
    matches!(kind, ErrorKind::NotFound | ErrorKind::NotADirectory)
}

fn settings_in(rt: &HostRuntime, path: &str, request: &Request<'_>) -> Result<Config> {
    let text = text_in(rt, path)?;
    for key in &unknown_keys(rt.alloc(), text.as_str())? {
        let told = format!(in rt.alloc(); "{path}: `{key}` is no setting, and passed over");
        note_made(rt, &request.options, told)?;
    }
    match read(rt.alloc(), text.as_str()) {
        Ok(config) => Ok(config),
        Err(Fault::InvalidArgument(reason)) => {
            Err(misread(rt.alloc(), path, text.as_str(), reason))
        }
        Err(fault) => Err(anyhow!("{path}: {fault}")),
    }
}

// A pipe would be waited for, and a device has no end.
fn text_in(rt: &HostRuntime, path: &str) -> Result<String> {
    match fs::metadata(rt, path) {
        Ok(metadata) if metadata.is_file() => {}
        Ok(_) => bail!("{path}: no file, and settings are read of files alone"),
        Err(e) => return Err(anyhow!("{e}").context(path)),
    }
    match fs::read_to_string(rt, path) {
        Ok(text) => Ok(text),
        Err(e) => Err(anyhow!("{e}").context(path)),
    }
}

// The keys of a text that are no setting's; none of a text that can't be read.
fn unknown_keys(alloc: Global, text: &str) -> Result<Vec<String>, AllocError> {
    let mut unknown = Vec::new(alloc);
    let Ok(table) = toml::table_from_str(alloc, text) else {
        return Ok(unknown);
    };
    for key in table.keys() {
        if wanted_of(key.as_str()).is_none() {
            unknown.push(key.clone()?)?;
        }
    }
    Ok(unknown)
}

// What a setting may be.
fn wanted_of(key: &str) -> Option<&'static str> {
    for (known, wanted) in &KEYS {
        if *known == key {
            return Some(*wanted);
        }
    }
    None
}

// What can't be read of a text: the line, and what may stand there.
fn misread(alloc: Global, path: &str, text: &str, reason: &str) -> anyhow::Error {
    if let Some(wanted) = wanted_of(reason) {
        let cause = anyhow!("{reason} is {wanted}");
        return match line_of_key(text, reason) {
            Some((number, line)) => {
                cause.context(anyhow!("{path}: line {number}: `{}`", line.trim()))
            }
            None => cause.context(path),
        };
    }
    match toml::table_from_str(alloc, text) {
        Err(e) => {
            let at = match e.span() {
                Some(span) => span.start,
                None => 0,
            };
            anyhow!("no TOML: {}", e.message()).context(anyhow!(
                "{path}: line {}",
                line_at(text, at)
            ))
        }
        Ok(_) => anyhow!("{path}: {reason}"),
    }
}

// The first line that begins with a key, and its number.
fn line_of_key<'a>(text: &'a str, key: &str) -> Option<(usize, &'a str)> {
    for (place, line) in text.lines().enumerate() {
        let start = line.trim_start().trim_start_matches('"');
        if let Some(rest) = start.strip_prefix(key) {
            if rest.trim_start_matches('"').trim_start().starts_with('=') {
                return Some((place.saturating_add(1), line));
            }
        }
    }
    None
}

// The number of the line of a place in bytes.
fn line_at(text: &str, at: usize) -> usize {
    let mut number = 1usize;
    for byte in text.as_bytes().get(..at).unwrap_or(&[]) {
        if *byte == b'\n' {
            number = number.saturating_add(1);
        }
    }
    number
}

/// Prints the settings in force. It fails where they contradict one another.
pub fn print_settings(rt: &HostRuntime, options: &Options<'_>) -> Result<Status> {
    let text = text_of(rt.alloc(), config(rt.alloc(), options)?, options.json)?;
    print_bytes(rt, text.as_bytes())?;
    Ok(Status::Done)
}

// What an opening makes of these settings, as TOML or as an object of JSON.
fn text_of(alloc: Global, mut config: Config, json: bool) -> Result<String> {
    if let Err(fault) = config.sanitize() {
        return Err(anyhow!("the settings contradict one another: {fault}"));
    }
    if json {
        return match serde_json::to_string(alloc, &config) {
            Ok(text) => Ok(format!(in alloc; "{text}\n")?),
            Err(e) => Err(anyhow!("the settings cannot be written: {e}")),
        };
    }
    match write(alloc, &config) {
        Ok(text) => Ok(text),
        Err(fault) => Err(anyhow!("the settings cannot be written: {fault}")),
    }
}
