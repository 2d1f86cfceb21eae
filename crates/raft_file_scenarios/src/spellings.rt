//! Bytes as they are spelled in lines, and read back.

use crate::told::assert_right;
use raft_inspect::{Lines, Misspelled, Word, read_digits, read_text};
use raft_records::Fault;
use std::alloc::{AllocError, Global};

/// Bytes, and how they are spelled: as text, as hexadecimal digits and as a JSON value. Made by
/// Python's `repr`, `hex` and `json`; bytes that aren't UTF-8 by hand.
struct Spelled(&'static [u8], &'static str, &'static str, &'static str);

static ROWS: [Spelled; 8] = [
    Spelled(b"", "", "", r#""""#),
    Spelled(b"name", "name", "6e616d65", r#""name""#),
    Spelled(b"a b", "a b", "612062", r#""a b""#),
    Spelled(b"a\tb\n\r", r"a\tb\n\r", "6109620a0d", r#""a\tb\n\u000d""#),
    Spelled(b"\"'\\", r#"\"\'\\"#, "22275c", r#""\"'\\""#),
    Spelled(b"\xc3\xa9", r"\xc3\xa9", "c3a9", "\"\u{e9}\""),
    Spelled(
        b"\0\x1f ~\x7f",
        r"\x00\x1f ~\x7f",
        "001f207e7f",
        "\"\\u0000\\u001f ~\x7f\"",
    ),
    Spelled(b"\x80\xff", r"\x80\xff", "80ff", r#"{"hex":"80ff"}"#),
];

// A line of one word.
fn line_of(alloc: Global, bytes: &[u8], json: bool, hex: bool) -> Result<Lines, AllocError> {
    let mut lines = Lines::new(alloc, json, hex);
    lines.line(&[("value", Word::Bytes(bytes))])?;
    Ok(lines)
}

// Whether the lines are this text between two others.
fn is_line(lines: &Lines, front: &str, text: &str, end: &str) -> bool {
    let Some(rest) = lines.as_bytes().strip_prefix(front.as_bytes()) else {
        return false;
    };
    match rest.strip_suffix(end.as_bytes()) {
        Some(middle) => middle == text.as_bytes(),
        None => false,
    }
}

fn is_spelled(alloc: Global, row: &Spelled) -> Result<bool, AllocError> {
    let Spelled(bytes, text, digits, json) = row;
    Ok(
        is_line(&line_of(alloc, bytes, false, false)?, "", text, "\n")
            && is_line(&line_of(alloc, bytes, false, true)?, "", digits, "\n")
            && is_line(
                &line_of(alloc, bytes, true, false)?,
                "{\"value\":",
                json,
                "}\n",
            ),
    )
}

fn is_read(read: &Result<Vec<u8>, Misspelled>, bytes: &[u8]) -> bool {
    match read {
        Ok(read) => read.as_slice() == bytes,
        Err(_) => false,
    }
}

fn is_read_back(alloc: Global, row: &Spelled) -> bool {
    let Spelled(bytes, text, digits, _) = row;
    is_read(&read_text(alloc, text.as_bytes()), bytes)
        && is_read(&read_digits(alloc, digits.as_bytes()), bytes)
}

// The first row that is spelled or read otherwise.
fn wrong_row(alloc: Global) -> Result<Option<usize>, Fault> {
    for (place, row) in ROWS.iter().enumerate() {
        if !is_spelled(alloc, row)? || !is_read_back(alloc, row) {
            return Ok(Some(place));
        }
    }
    Ok(None)
}

#[test]
fn bytes_are_read_back(rt: HostRuntime) {
    assert_right(&rt, wrong_row(rt.alloc()));
}

// The first byte whose spelling isn't read back as that byte.
fn wrong_byte(alloc: Global) -> Result<Option<usize>, Fault> {
    for byte in 0..=255u8 {
        let lines = line_of(alloc, &[byte], false, false)?;
        let text = lines.as_bytes().strip_suffix(b"\n").unwrap_or(&[]);
        if !is_read(&read_text(alloc, text), &[byte]) {
            return Ok(Some(usize::from(byte)));
        }
    }
    Ok(None)
}

#[test]
fn each_byte_is_read_back(rt: HostRuntime) {
    assert_right(&rt, wrong_byte(rt.alloc()));
}

/// Texts that spell no bytes, and digits that spell none.
static TEXTS: [&[u8]; 5] = [b"\\", b"a\\", b"\\x1", b"\\xg0", b"\\q"];

static DIGITS: [&[u8]; 3] = [b"1", b"123", b"0g"];

fn misspelled(alloc: Global) -> usize {
    let mut count = 0usize;
    for text in &TEXTS {
        if let Err(Misspelled::NoEscape) = read_text(alloc, text) {
            count = count.saturating_add(1);
        }
    }
    for digits in &DIGITS {
        if let Err(Misspelled::NoDigits) = read_digits(alloc, digits) {
            count = count.saturating_add(1);
        }
    }
    count
}

#[test]
fn other_texts_are_refused(rt: HostRuntime) {
    assert_eq!(rt; misspelled(rt.alloc()), 8);
}
