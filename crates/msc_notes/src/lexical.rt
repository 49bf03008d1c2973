//! Notes on lexical faults.

use crate::note::{Note, Tag, worded};
use msc_lexer::LexFault;
use std::alloc::{AllocError, Global};

/// The first bytes of a text that begins with a byte order mark.
const BYTE_ORDER_MARK: &[u8] = b"\xEF\xBB\xBF";

/// Whether the byte is a letter, a digit or an underscore.
fn is_run_byte(byte: u8) -> bool {
    byte.is_ascii_alphanumeric() || byte == b'_'
}

/// What was found: a byte, as a character if it is a visible one.
fn found_byte(alloc: Global, byte: u8) -> Result<Vec<u8>, AllocError> {
    let mut text = Vec::new(alloc);
    if byte.is_ascii_graphic() {
        text.extend_from_slice(b"the character ")?;
        text.push(byte)?;
    } else {
        let mut digits = itoa::Buffer::new();
        text.extend_from_slice(b"the byte ")?;
        text.extend_from_slice(digits.format(byte).as_bytes())?;
    }
    Ok(text)
}

/// What to write in place of a byte that begins no token.
fn byte_hint(text: &[u8], at: usize, byte: u8) -> &'static [u8] {
    if at == 0 && text.starts_with(BYTE_ORDER_MARK) {
        return b"the text begins with a byte order mark";
    }
    match byte {
        b'/' => b"notes are /* .. */",
        b'"' => b"texts are '..'",
        _ => b"names are letters, digits and underscores",
    }
}

/// The number of bytes at the beginning that can be in a name.
fn run_length(bytes: &[u8]) -> usize {
    let mut length = 0;
    for byte in bytes {
        if !is_run_byte(*byte) {
            return length;
        }
        length = length.saturating_add(1);
    }
    length
}

/// What was found: a name of `length` bytes.
fn found_length(alloc: Global, length: usize) -> Result<Vec<u8>, AllocError> {
    let mut digits = itoa::Buffer::new();
    let mut text = Vec::from_slice(alloc, digits.format(length).as_bytes())?;
    text.extend_from_slice(b" bytes")?;
    Ok(text)
}

/// The notes on a lexical fault of a text.
pub(crate) fn lexical_notes(
    alloc: Global,
    text: &[u8],
    fault: LexFault,
) -> Result<Vec<Note>, AllocError> {
    let mut notes = Vec::new(alloc);
    match fault {
        LexFault::BadByte(at) => {
            if let Some(byte) = text.get(at) {
                notes.push(worded(Tag::Found, found_byte(alloc, *byte)?))?;
                let hint = Vec::from_slice(alloc, byte_hint(text, at, *byte))?;
                notes.push(worded(Tag::Hint, hint))?;
            }
        }
        LexFault::LongName(at) => {
            let length = run_length(text.get(at..).unwrap_or(b""));
            notes.push(worded(Tag::Found, found_length(alloc, length)?))?;
        }
        _ => {}
    }
    Ok(notes)
}
