//! Classes of bytes.

ghost use Rattle.std.specs.Prelude.{◌≡◌};
ghost use Rattle.msc_lexer.specs.Bytes.{is_white, is_run_byte};
ghost use Rattle.msc_lexer.specs.Pieces.{mark_of};

use crate::token::Kind;

/// Whether the byte is white space.
pub fn is_white(byte: u8) -> bool
    ensures { result ≡ is_white byte }
{
    matches!(byte, b' ' | b'\t' | b'\r' | b'\n')
}

/// Whether words and names are made of this byte.
pub fn is_run_byte(byte: u8) -> bool
    ensures { result ≡ is_run_byte byte }
{
    byte.is_ascii_alphanumeric() || byte == b'_'
}

/// The kind of the mark that the byte is, if it is one.
pub fn mark(byte: u8) -> Option<Kind>
    ensures { result ≡ mark_of byte }
{
    match byte {
        b';' => Some(Kind::Semicolon),
        b',' => Some(Kind::Comma),
        b':' => Some(Kind::Colon),
        b'(' => Some(Kind::LeftParen),
        b')' => Some(Kind::RightParen),
        _ => None,
    }
}
