//! Lines that are read as they are printed: keys with their values, and entries.

use anyhow::{Result, anyhow};
use raft_command_line::Options;
use raft_inspect::{read_digits, read_text};
use serde_json::Value;
use std::alloc::Global;
use std::str;

/// A group, a key of it and its value.
pub type Pair = (u64, Vec<u8>, Vec<u8>);

/// A group, the index of an entry of it, and its value.
pub type EntryLine = (u64, u64, Vec<u8>);

/// A group and the value of an entry of it.
pub type GroupValue = (u64, Vec<u8>);

/// How bytes are spelled in lines.
#[derive(Clone, Copy)]
pub enum Spelling {
    /// Words with a tab between two of them; `\x00` and the like mean bytes.
    Text,
    /// The same in hexadecimal digits.
    Digits,
    /// An object with the words' names.
    Json,
}

impl Spelling {
    /// As the options have lines printed.
    pub fn of(options: &Options<'_>) -> Spelling {
        if options.json {
            Spelling::Json
        } else if options.hex {
            Spelling::Digits
        } else {
            Spelling::Text
        }
    }
}

/// How lines are read.
#[derive(Clone, Copy)]
pub struct LineForm {
    pub spelling: Spelling,
    /// The group of all lines; if there is none, each line begins with its group.
    pub group: Option<u64>,
}

/// The keys and values of lines. It fails at the first line that can't be read, and says which.
pub fn read_lines(alloc: Global, text: &[u8], form: LineForm) -> Result<Vec<Pair>> {
    let mut pairs = Vec::new(alloc);
    for (number, line) in text.split(|byte| *byte == b'\n').enumerate() {
        if !line.is_empty() {
            match read_pair(alloc, line, form) {
                Ok(pair) => pairs.push(pair)?,
                Err(error) => return Err(at_line(number, &error)),
            }
        }
    }
    Ok(pairs)
}

/// The indexes and values of lines, as `read_lines`.
pub fn read_entry_lines(alloc: Global, text: &[u8], form: LineForm) -> Result<Vec<EntryLine>> {
    let mut entries = Vec::new(alloc);
    for (number, line) in text.split(|byte| *byte == b'\n').enumerate() {
        if !line.is_empty() {
            match read_entry(alloc, line, form) {
                Ok(entry) => entries.push(entry)?,
                Err(error) => return Err(at_line(number, &error)),
            }
        }
    }
    Ok(entries)
}

/// The values of lines, one of each, as `read_lines`; if one group has all, an empty line is an empty
/// value.
pub fn read_values(alloc: Global, text: &[u8], form: LineForm) -> Result<Vec<GroupValue>> {
    let mut values = Vec::new(alloc);
    if text.is_empty() {
        return Ok(values);
    }
    let text = text.strip_suffix(b"\n").unwrap_or(text);
    for (number, line) in text.split(|byte| *byte == b'\n').enumerate() {
        match read_value(alloc, line, form) {
            Ok(value) => values.push(value)?,
            Err(error) => return Err(at_line(number, &error)),
        }
    }
    Ok(values)
}

// Lines are counted from 1 on.
fn at_line(place: usize, error: &anyhow::Error) -> anyhow::Error {
    anyhow!("line {}: {error}", place.saturating_add(1))
}

fn read_pair(alloc: Global, line: &[u8], form: LineForm) -> Result<Pair> {
    if let Spelling::Json = form.spelling {
        let object = read_object(alloc, line)?;
        let group = group_in(&object, form)?;
        let key = member(alloc, &object, "key")?;
        return Ok((group, key, member(alloc, &object, "value")?));
    }
    let (group, line) = take_group(line, form)?;
    let Some((key, value)) = at_tab(line) else {
        return Err(anyhow!("no tab between a key and a value"));
    };
    let key = read_word(alloc, key, form.spelling)?;
    Ok((group, key, read_word(alloc, value, form.spelling)?))
}

fn read_entry(alloc: Global, line: &[u8], form: LineForm) -> Result<EntryLine> {
    if let Spelling::Json = form.spelling {
        let object = read_object(alloc, line)?;
        let group = group_in(&object, form)?;
        return match object.get("index").and_then(Value::as_u64) {
            Some(index) => Ok((group, index, member(alloc, &object, "value")?)),
            None => Err(anyhow!("no number `index`")),
        };
    }
    let (group, line) = take_group(line, form)?;
    let Some((index, value)) = at_tab(line) else {
        return Err(anyhow!("no tab between an index and a value"));
    };
    match read_number(index) {
        Some(index) => Ok((group, index, read_word(alloc, value, form.spelling)?)),
        None => Err(anyhow!("no number before the tab")),
    }
}

fn read_value(alloc: Global, line: &[u8], form: LineForm) -> Result<GroupValue> {
    if let Spelling::Json = form.spelling {
        let object = read_object(alloc, line)?;
        let group = group_in(&object, form)?;
        return Ok((group, member(alloc, &object, "value")?));
    }
    let (group, line) = take_group(line, form)?;
    Ok((group, read_word(alloc, line, form.spelling)?))
}

// The group of a line, and the words after it.
fn take_group(line: &[u8], form: LineForm) -> Result<(u64, &[u8])> {
    if let Some(group) = form.group {
        return Ok((group, line));
    }
    let Some((group, rest)) = at_tab(line) else {
        return Err(anyhow!("no tab after a group"));
    };
    match read_number(group) {
        Some(group) => Ok((group, rest)),
        None => Err(anyhow!("no number of a group before the first tab")),
    }
}

// The group of an object.
fn group_in(object: &Value, form: LineForm) -> Result<u64> {
    if let Some(group) = form.group {
        return Ok(group);
    }
    match object.get("group").and_then(Value::as_u64) {
        Some(group) => Ok(group),
        None => Err(anyhow!("no number `group`")),
    }
}

// The text before the first tab, and the text after it.
fn at_tab(line: &[u8]) -> Option<(&[u8], &[u8])> {
    let tab = line.iter().position(|byte| *byte == b'\t')?;
    let (word, rest) = line.split_at(tab);
    Some((word, rest.get(1..)?))
}

fn read_number(word: &[u8]) -> Option<u64> {
    str::from_utf8(word).ok()?.parse().ok()
}

fn read_word(alloc: Global, word: &[u8], spelling: Spelling) -> Result<Vec<u8>> {
    match spelling {
        Spelling::Digits => Ok(read_digits(alloc, word)?),
        _ => Ok(read_text(alloc, word)?),
    }
}

/// The object of a line.
pub fn read_object(alloc: Global, line: &[u8]) -> Result<Value> {
    let text = match str::from_utf8(line) {
        Ok(text) => text,
        Err(_) => return Err(anyhow!("no text in UTF-8")),
    };
    match Value::from_str(alloc, text) {
        Ok(object) => Ok(object),
        Err(e) => Err(anyhow!("{e}")),
    }
}

/// The bytes of a member: a text, or an object of the digits of other bytes.
pub fn member(alloc: Global, object: &Value, name: &str) -> Result<Vec<u8>> {
    let Some(value) = object.get(name) else {
        return Err(anyhow!("no member `{name}`"));
    };
    if let Some(text) = value.as_str() {
        return Ok(text.as_bytes().to_vec(alloc)?);
    }
    match value.get("hex").and_then(Value::as_str) {
        Some(digits) => Ok(read_digits(alloc, digits.as_bytes())?),
        None => Err(anyhow!("`{name}` is neither a text nor an object of `hex`")),
    }
}
