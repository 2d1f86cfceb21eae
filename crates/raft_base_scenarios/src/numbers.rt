//! Numbers and checksums as bytes.

use crate::told::assert_tables;
use raft_codec::checksum::crc32;
use raft_codec::number::{push_u32, push_u64, push_var, take_u32, take_u64, take_var, var_len};
use raft_records::Fault;
use raft_rows::Row;
use std::alloc::{AllocError, Global};

enum Form {
    Eight,
    Four,
    Varying,
}

enum Case {
    /// A form, a number, and its bytes in that form.
    Number(Form, u64, &'static [u8]),
    /// Bytes that don't begin with a number of the form.
    NoNumber(Form, &'static [u8]),
    /// Bytes, the number of bytes `(7 * i + 3) % 256` after them, and zlib's checksum of all.
    Checksum(&'static [u8], u32, u32),
}

use Case::{Checksum, NoNumber, Number};

static NUMBERS: [Case; 8] = [
    Number(
        Form::Eight,
        0x0102_0304_0506_0708,
        &[1, 2, 3, 4, 5, 6, 7, 8],
    ),
    Number(Form::Four, 0x090A_0B0C, &[12, 11, 10, 9]),
    Number(Form::Varying, 0, &[0]),
    Number(Form::Varying, 127, &[0x7F]),
    Number(Form::Varying, 128, &[0x80, 1]),
    Number(Form::Varying, 300, &[0xAC, 2]),
    Number(
        Form::Varying,
        0x1_0000_0000,
        &[0x80, 0x80, 0x80, 0x80, 0x10],
    ),
    Number(
        Form::Varying,
        u64::MAX,
        &[0xFF, 0xFF, 0xFF, 0xFF, 0xFF, 0xFF, 0xFF, 0xFF, 0xFF, 1],
    ),
];

static REFUSED: [Case; 7] = [
    NoNumber(Form::Eight, &[0; 7]),
    NoNumber(Form::Four, &[0; 3]),
    NoNumber(Form::Varying, &[]),
    NoNumber(Form::Varying, &[0x80]),
    NoNumber(Form::Varying, &[0x80, 0]),
    NoNumber(
        Form::Varying,
        &[0xFF, 0xFF, 0xFF, 0xFF, 0xFF, 0xFF, 0xFF, 0xFF, 0xFF, 2],
    ),
    NoNumber(
        Form::Varying,
        &[
            0x80, 0x80, 0x80, 0x80, 0x80, 0x80, 0x80, 0x80, 0x80, 0x80, 1,
        ],
    ),
];

static CHECKSUMS: [Case; 10] = [
    Checksum(b"123456789", 0, 0xCBF4_3926),
    Checksum(b"", 0, 0),
    Checksum(b"", 1, 0x4B0B_BE37),
    Checksum(b"", 15, 0x7C61_9EDC),
    Checksum(b"", 16, 0x191F_3D9F),
    Checksum(b"", 17, 0x7BA7_5EE3),
    Checksum(b"", 31, 0xD07F_9B5B),
    Checksum(b"", 32, 0xA10E_8695),
    Checksum(b"", 33, 0x6BC5_3502),
    Checksum(b"", 1000, 0x17BC_2A46),
];

fn tables() -> [&'static [Case]; 3] {
    [&NUMBERS, &REFUSED, &CHECKSUMS]
}

/// A byte after a number.
const BEHIND: &[u8] = &[0xEE];

// Writes 0 if the form has no room for the number.
fn push(form: &Form, bytes: &mut Vec<u8>, number: u64) -> Result<(), AllocError> {
    match form {
        Form::Eight => push_u64(bytes, number),
        Form::Four => push_u32(bytes, u32::try_from(number).unwrap_or(0)),
        Form::Varying => push_var(bytes, number),
    }
}

fn take<'a>(form: &Form, bytes: &'a [u8]) -> Option<(u64, &'a [u8])> {
    match form {
        Form::Eight => take_u64(bytes),
        Form::Four => {
            let (number, rest) = take_u32(bytes)?;
            Some((u64::from(number), rest))
        }
        Form::Varying => take_var(bytes),
    }
}

fn len_of(form: &Form, number: u64) -> usize {
    match form {
        Form::Eight => 8,
        Form::Four => 4,
        Form::Varying => var_len(number),
    }
}

// Whether this number is read, and the byte after it remains.
fn is_taken(form: &Form, bytes: &[u8], number: u64) -> bool {
    match take(form, bytes) {
        Some((taken, rest)) => taken == number && rest == BEHIND,
        None => false,
    }
}

fn push_counted(bytes: &mut Vec<u8>, len: u32) -> Result<(), AllocError> {
    for i in 0..len {
        bytes.push(((7 * u64::from(i) + 3) % 256) as u8)?;
    }
    Ok(())
}

// Whether the number is written as these bytes, and read from them.
fn has_bytes(alloc: Global, form: &Form, number: u64, wanted: &[u8]) -> Result<bool, AllocError> {
    let mut bytes = Vec::new(alloc);
    push(form, &mut bytes, number)?;
    let is_written = bytes.as_slice() == wanted && bytes.len() == len_of(form, number);
    bytes.extend_from_slice(BEHIND)?;
    Ok(is_written && is_taken(form, &bytes, number))
}

fn has_checksum(alloc: Global, begin: &[u8], len: u32, sum: u32) -> Result<bool, AllocError> {
    let mut bytes = begin.to_vec(alloc)?;
    push_counted(&mut bytes, len)?;
    Ok(crc32(&bytes) == sum)
}

impl Row for Case {
    type State = ();

    fn holds(&self, alloc: Global, _: &mut ()) -> Result<bool, Fault> {
        match self {
            Number(form, number, wanted) => Ok(has_bytes(alloc, form, *number, wanted)?),
            NoNumber(form, bytes) => Ok(take(form, bytes).is_none()),
            Checksum(begin, len, sum) => Ok(has_checksum(alloc, begin, *len, *sum)?),
        }
    }
}

#[test]
fn numbers_and_checksums(rt: HostRuntime) {
    assert_tables(&rt, rt.alloc(), &mut (), &tables());
}
