//! Lines of words, as text or as objects of JSON.
ghost use Rattle.std.specs.Prelude.{◌<◌};

use itoa::Buffer;
use std::alloc::{AllocError, Global};
use std::str;

/// A word of a line.
#[derive(Clone, Copy)]
pub enum Word<'a> {
    Text(&'a str),
    Number(u64),
    /// Bytes that aren't printable ASCII are spelled as `\x00`.
    Bytes(&'a [u8]),
}

/// A word and its name.
pub type Field<'a> = (&'static str, Word<'a>);

/// Lines that are to be printed.
#[derive(Drop)]
pub struct Lines {
    bytes: Vec<u8>,
    json: bool,
    hex: bool,
    /// Whether memory ran out for the line that is being added.
    failed: bool,
}

impl Lines {
    /// No lines yet. With `json` each is an object; with `hex` bytes are spelled as digits.
    pub fn new(alloc: Global, json: bool, hex: bool) -> Lines {
        Lines {
            bytes: Vec::new(alloc),
            json,
            hex,
            failed: false,
        }
    }

    /// The lines that were added since they were cleared.
    pub fn as_bytes(&self) -> &[u8] {
        self.bytes.as_slice()
    }

    /// Takes all lines away.
    pub fn clear(&mut self) {
        self.bytes.clear();
    }

    /// Adds a line of these words, with a tab between two of them. Only objects have their names.
    pub fn line(&mut self, fields: &[Field<'_>]) -> Result<(), AllocError> {
        if self.json {
            return self.object(fields);
        }
        for (place, (_, word)) in fields.iter().enumerate() {
            if place > 0 {
                self.byte(b'\t');
            }
            self.word(*word);
        }
        self.byte(b'\n');
        self.added()
    }

    /// Adds a line of these words, each after its name, with spaces between them.
    pub fn named(&mut self, fields: &[Field<'_>]) -> Result<(), AllocError> {
        if self.json {
            return self.object(fields);
        }
        for (place, (name, word)) in fields.iter().enumerate() {
            if place > 0 {
                self.byte(b' ');
            }
            self.text(name);
            self.byte(b' ');
            self.word(*word);
        }
        self.byte(b'\n');
        self.added()
    }

    // Fails if memory ran out since the last time.
    fn added(&mut self) -> Result<(), AllocError> {
        if self.failed {
            self.failed = false;
            return Err(AllocError);
        }
        Ok(())
    }

    fn byte(&mut self, byte: u8) {
        if self.failed || self.bytes.push(byte).is_err() {
            self.failed = true;
        }
    }

    fn text(&mut self, text: &str) {
        self.add(text.as_bytes());
    }

    fn add(&mut self, bytes: &[u8]) {
        if self.failed || self.bytes.extend_from_slice(bytes).is_err() {
            self.failed = true;
        }
    }

    fn word(&mut self, word: Word<'_>) {
        match word {
            Word::Text(text) => self.text(text),
            Word::Number(number) => self.number(number),
            Word::Bytes(bytes) if self.hex => self.digits(bytes),
            Word::Bytes(bytes) => self.spelled(bytes),
        }
    }

    fn number(&mut self, number: u64) {
        let mut buffer = Buffer::new();
        self.text(buffer.format(number));
    }

    fn digits(&mut self, bytes: &[u8]) {
        for byte in bytes {
            self.pair(*byte);
        }
    }

    // The two digits of a byte.
    fn pair(&mut self, byte: u8) {
        self.byte(digit(byte / 16));
        self.byte(digit(byte % 16));
    }

    // As Rust's `escape_ascii`.
    fn spelled(&mut self, bytes: &[u8]) {
        if are_plain(bytes) {
            self.add(bytes);
            return;
        }
        for byte in bytes {
            self.spell(*byte);
        }
    }

    fn spell(&mut self, byte: u8) {
        if is_plain(byte) {
            self.byte(byte);
            return;
        }
        match byte {
            b'\t' => self.text("\\t"),
            b'\n' => self.text("\\n"),
            b'\r' => self.text("\\r"),
            b'"' | b'\'' | b'\\' => {
                self.byte(b'\\');
                self.byte(byte);
            }
            _ => {
                self.text("\\x");
                self.pair(byte);
            }
        }
    }

    /// Adds one object of these words, and of a list for each of these names: the lines of another, which are objects.
    pub fn document(
        &mut self,
        fields: &[Field<'_>],
        lists: &[(&'static str, &Lines)],
    ) -> Result<(), AllocError> {
        self.byte(b'{');
        self.members(fields);
        for (name, list) in lists {
            self.byte(b',');
            self.quoted(name);
            self.text(":[");
            self.joined(list.as_bytes());
            self.byte(b']');
        }
        self.text("}\n");
        self.added()
    }

    // Lines with a comma between two of them.
    fn joined(&mut self, lines: &[u8]) {
        let lines = lines.strip_suffix(b"\n").unwrap_or(lines);
        for byte in lines {
            self.byte(if *byte == b'\n' { b',' } else { *byte });
        }
    }

    fn object(&mut self, fields: &[Field<'_>]) -> Result<(), AllocError> {
        self.byte(b'{');
        self.members(fields);
        self.text("}\n");
        self.added()
    }

    fn members(&mut self, fields: &[Field<'_>]) {
        for (place, (name, word)) in fields.iter().enumerate() {
            if place > 0 {
                self.byte(b',');
            }
            self.quoted(name);
            self.byte(b':');
            self.value(*word);
        }
    }

    // Bytes that are no text become an object of their digits.
    fn value(&mut self, word: Word<'_>) {
        match word {
            Word::Text(text) => self.quoted(text),
            Word::Number(number) => self.number(number),
            Word::Bytes(bytes) if self.hex => self.digits_object(bytes),
            Word::Bytes(bytes) => match str::from_utf8(bytes) {
                Ok(text) => self.quoted(text),
                Err(_) => self.digits_object(bytes),
            },
        }
    }

    fn digits_object(&mut self, bytes: &[u8]) {
        self.text("{\"hex\":\"");
        self.digits(bytes);
        self.text("\"}");
    }

    fn quoted(&mut self, text: &str) {
        self.byte(b'"');
        for byte in text.as_bytes() {
            self.quote(*byte);
        }
        self.byte(b'"');
    }

    // What JSON has no sign for is spelled by its number.
    fn quote(&mut self, byte: u8) {
        match byte {
            b'\n' => self.text("\\n"),
            b'\t' => self.text("\\t"),
            b'"' | b'\\' => {
                self.byte(b'\\');
                self.byte(byte);
            }
            _ if byte < b' ' => {
                self.text("\\u00");
                self.pair(byte);
            }
            _ => self.byte(byte),
        }
    }
}

fn are_plain(bytes: &[u8]) -> bool {
    for byte in bytes {
        if !is_plain(*byte) {
            return false;
        }
    }
    true
}

// Whether a byte is printed as it is.
fn is_plain(byte: u8) -> bool {
    matches!(byte, b' '..=b'~') && !matches!(byte, b'"' | b'\'' | b'\\')
}

fn digit(value: u8) -> u8
    requires { value < 16 }
{
    if value < 10 {
        b'0' + value
    } else {
        b'a' + (value - 10)
    }
}
