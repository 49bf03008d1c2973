//! The marks that may precede a block on its line: blanks, marks of block quotes and of list items.

ghost use Rattle.std.specs.Prelude.{◌≡◌, ◌≤◌, ◌-◌, cond, length};
ghost use Rattle.std.specs.Char.{is_ascii_digit};
ghost use Rattle.std.specs.List.{prefix_len};
ghost use Rattle.msc_lexer.specs.Bytes.{begins};
ghost use Rattle.msc_markdown.specs.Marks.{ahead, digits, is_bullet, is_number, is_point, is_quote};
ghost use Rattle.msc_markdown.specs.Marks.{is_quoted, mark, marks, quoted, quotes, quotes_before};

use crate::blanks::{begins_blank, behind, is_blank};

/// Whether the byte is a mark of a block quote.
fn is_quote(byte: u8) -> bool
    ensures { result ≡ is_quote byte }
{
    byte == b'>'
}

/// Whether the byte is a blank or a mark of a block quote.
fn is_quoted(byte: u8) -> bool
    ensures { result ≡ is_quoted byte }
{
    is_blank(byte) || is_quote(byte)
}

/// Whether the bytes begin with a blank or a mark of a block quote.
fn begins_quoted(bytes: &[u8]) -> bool
    ensures { result ≡ begins is_quoted bytes.now }
{
    match bytes {
        [] => false,
        [first, ..] => is_quoted(*first),
    }
}

/// Whether the bytes begin with a mark of a list item without a number.
fn begins_bullet(bytes: &[u8]) -> bool
    ensures { result ≡ begins is_bullet bytes.now }
{
    match bytes {
        [] => false,
        [first, ..] => *first == b'-' || *first == b'*' || *first == b'+',
    }
}

/// Whether the bytes begin with `.` or `)`.
fn begins_point(bytes: &[u8]) -> bool
    ensures { result ≡ begins is_point bytes.now }
{
    match bytes {
        [] => false,
        [first, ..] => *first == b'.' || *first == b')',
    }
}

/// The number of digits at the front.
fn digits(bytes: &[u8]) -> usize
    ensures length { result ≡ digits bytes.now }
    ensures within { result ≤ length bytes.now }
{
    bytes
        .iter()
        .take_while(|byte| byte.is_ascii_digit())
        .count()
}

/// Whether a list item's number of `count` digits is at the front.
fn is_number(count: usize, bytes: &[u8]) -> bool
    ensures { result ≡ is_number count bytes.now }
{
    count > 0
        && count < 10
        && begins_point(behind(bytes, count))
        && begins_blank(behind(bytes, count + 1))
}

/// The number of bytes of the mark at the front; 0 if there is none.
fn mark(bytes: &[u8]) -> usize
    ensures { result ≡ mark bytes.now }
{
    if begins_quoted(bytes) || (begins_bullet(bytes) && begins_blank(behind(bytes, 1))) {
        return 1;
    }
    let count = digits(bytes);
    if is_number(count, bytes) {
        count + 1
    } else {
        0
    }
}

/// The number of bytes left of a mark here, if `left` bytes are left of one that began before.
fn ahead(left: usize, bytes: &[u8]) -> usize
    ensures { result ≡ ahead left bytes.now }
{
    if left == 0 { mark(bytes) } else { left }
}

/// The number of bytes of marks at the front.
pub(crate) fn marks(bytes: &[u8]) -> usize
    ensures length { result ≡ marks 0 bytes.now }
    ensures within { result ≤ length bytes.now }
{
    let mut left = 0;
    for i in 0..bytes.len() {
        let here = ahead(left, &bytes[i..]);
        if here == 0 {
            return i;
        }
        left = after(here);
    }
    bytes.len()
}

/// The number of bytes left after this one, if `here` are left at it.
fn after(here: usize) -> usize
    ensures { result ≡ here - 1 }
{
    if here == 0 { 0 } else { here - 1 }
}

/// The number of marks of block quotes among these bytes.
pub(crate) fn quotes(bytes: &[u8]) -> usize
    ensures value { result ≡ quotes bytes.now }
    ensures within { result ≤ length bytes.now }
{
    bytes.iter().filter(|byte| is_quote(**byte)).count()
}

/// The number of bytes of block quotes at the front.
pub(crate) fn quoted_in_front(bytes: &[u8]) -> usize
    ensures length { result ≡ prefix_len is_quoted bytes.now }
    ensures within { result ≤ length bytes.now }
{
    bytes.iter().take_while(|byte| is_quoted(**byte)).count()
}

/// The number of marks of block quotes before anything else on a line.
pub(crate) fn quotes_before(line: &[u8]) -> usize
    ensures { result ≡ quotes_before line.now }
{
    quotes(&line[..quoted_in_front(line)])
}

/// The number of marks that are left after this byte.
fn less(left: usize, byte: u8) -> usize
    ensures { result ≡ left - cond (is_quote byte) 1 0 }
{
    if is_quote(byte) { after(left) } else { left }
}

/// The number of bytes up to the `count`-th mark of a block quote, if these are at the front.
pub(crate) fn quoted(count: usize, bytes: &[u8]) -> usize
    ensures length { result ≡ quoted count bytes.now }
    ensures within { result ≤ length bytes.now }
{
    let mut left = count;
    for i in 0..bytes.len() {
        if left == 0 {
            return i;
        }
        left = less(left, bytes[i]);
    }
    bytes.len()
}
