//! White space of Mermaid: `\s` of JavaScript without LF and CR, in UTF-8. A line of Markdown has
//! spaces and tabs instead (`lines`).

ghost use Rattle.std.specs.Prelude.{◌≡◌, ◌≤◌, ◌<◌, ◌^◌, ◌+◌, ◌-◌, ◌==◌, cond, drop, get_or, length};
ghost use Rattle.msc_mermaid.specs.Patterns.{is_empty};
ghost use Rattle.msc_mermaid.specs.White.{ahead, before_white, begins_white, behind_white, body};
ghost use Rattle.msc_mermaid.specs.White.{front, is_general, is_one, is_three, is_two, trimmed};
ghost use Rattle.msc_mermaid.specs.White.{white, width};

/// The byte at a place, or 0 after the end.
fn byte_at(bytes: &[u8], place: usize) -> u8
    ensures { result ≡ get_or bytes.now place 0 }
{
    if place < bytes.len() { bytes[place] } else { 0 }
}

/// Whether the byte is white space.
fn is_one(a: u8) -> bool
    ensures { result ≡ is_one a }
{
    a == 9 || a == 11 || a == 12 || a == 32
}

/// Whether two bytes are white space.
fn is_two(a: u8, b: u8) -> bool
    ensures { result ≡ is_two a b }
{
    a == 194 && b == 160
}

/// Whether 226, 128 and this byte are white space.
fn is_general(c: u8) -> bool
    ensures { result ≡ is_general c }
{
    (128 <= c && c <= 138) || c == 168 || c == 169 || c == 175
}

/// Whether three bytes are white space.
fn is_three(a: u8, b: u8, c: u8) -> bool
    ensures { result ≡ is_three a b c }
{
    (a == 225 && b == 154 && c == 128)
        || (a == 226 && b == 128 && is_general(c))
        || (a == 226 && b == 129 && c == 159)
        || (a == 227 && b == 128 && c == 128)
        || (a == 239 && b == 187 && c == 191)
}

/// The number of bytes of the white space that begins with these three bytes; 0 if none does.
fn width(a: u8, b: u8, c: u8) -> usize
    ensures { result ≡ width a b c }
{
    if is_one(a) {
        return 1;
    }
    if is_two(a, b) {
        return 2;
    }
    if is_three(a, b, c) { 3 } else { 0 }
}

/// The number of bytes of the white space at the front; 0 if there is none.
fn white(bytes: &[u8]) -> usize
    ensures { result ≡ white bytes.now }
{
    width(byte_at(bytes, 0), byte_at(bytes, 1), byte_at(bytes, 2))
}

/// Whether the bytes begin with white space.
pub(crate) fn begins_white(bytes: &[u8]) -> bool
    ensures { result ≡ begins_white bytes.now }
{
    white(bytes) > 0
}

/// The bytes after the white space at the front, or all of them.
pub(crate) fn behind_one(bytes: &[u8]) -> &[u8]
    ensures { result.now ≡ drop (white bytes.now) bytes.now }
{
    let one = white(bytes);
    if one > bytes.len() {
        return &[];
    }
    &bytes[one..]
}

/// The number of bytes of white space that are left here, if `left` bytes are left of one that
/// began before.
fn ahead(left: usize, bytes: &[u8]) -> usize
    ensures { result ≡ ahead left bytes.now }
{
    if left == 0 { white(bytes) } else { left }
}

/// The number of bytes of white space at the front.
pub(crate) fn white_in_front(bytes: &[u8]) -> usize
    ensures length { result ≡ front 0 bytes.now }
    ensures within { result ≤ length bytes.now }
{
    let mut left = 0;
    for i in 0..bytes.len() {
        let here = ahead(left, &bytes[i..]);
        if here == 0 {
            return i;
        }
        left = after(here);
    }
    bytes.len()
}

/// The number of bytes left after this one, if `here` are left at it.
fn after(here: usize) -> usize
    ensures { result ≡ here - 1 }
{
    if here == 0 { 0 } else { here - 1 }
}

/// The end of the bytes up to a place, without white space at their end, if this number of bytes of
/// white space is left at the place.
fn end_at(here: usize, place: usize, end: usize) -> usize
    requires { place < 2 ^ 63 }
    ensures { result ≡ cond (here == 0) (place + 1) end }
{
    if here == 0 { place + 1 } else { end }
}

/// The number of bytes up to the last one that is not white space.
fn body(bytes: &[u8]) -> usize
    ensures length { result ≡ body 0 bytes.now }
    ensures within { result ≤ length bytes.now }
{
    let mut left = 0;
    let mut end = 0;
    for i in 0..bytes.len() {
        let here = ahead(left, &bytes[i..]);
        end = end_at(here, i, end);
        left = after(here);
    }
    end
}

/// The bytes after the white space at the front.
pub(crate) fn behind_white(bytes: &[u8]) -> &[u8]
    ensures { result.now ≡ behind_white bytes.now }
{
    &bytes[white_in_front(bytes)..]
}

/// The bytes before the white space at the end.
pub(crate) fn before_white(bytes: &[u8]) -> &[u8]
    ensures { result.now ≡ before_white bytes.now }
{
    &bytes[..body(bytes)]
}

/// The bytes without white space at both ends.
pub fn trimmed(bytes: &[u8]) -> &[u8]
    ensures { result.now ≡ trimmed bytes.now }
{
    before_white(behind_white(bytes))
}

/// Whether there is nothing but white space.
pub(crate) fn is_white(bytes: &[u8]) -> bool
    ensures { result ≡ is_empty (trimmed bytes.now) }
{
    trimmed(bytes).is_empty()
}
