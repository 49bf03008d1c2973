//! Entities of HTML.

ghost use Rattle.std.specs.Prelude.{◌≡◌, ◌≤◌, ◌<◌, ◌^◌, drop, length};
ghost use Rattle.std.specs.Char.{is_ascii_alphanumeric};
ghost use Rattle.msc_lexer.specs.Bytes.{begins};
ghost use Rattle.msc_mermaid.specs.Markup.{entity_rest, is_ampersand, is_end, is_hash};
ghost use Rattle.msc_mermaid.specs.Markup.{markup_entity, named};

/// Whether the bytes begin with `&`.
fn begins_ampersand(bytes: &[u8]) -> bool
    ensures { result ≡ begins is_ampersand bytes.now }
{
    match bytes {
        [] => false,
        [first, ..] => *first == b'&',
    }
}

/// Whether the bytes begin with `#`.
fn begins_hash(bytes: &[u8]) -> bool
    ensures { result ≡ begins is_hash bytes.now }
{
    match bytes {
        [] => false,
        [first, ..] => *first == b'#',
    }
}

/// Whether the bytes begin with `;`.
fn begins_end(bytes: &[u8]) -> bool
    ensures { result ≡ begins is_end bytes.now }
{
    match bytes {
        [] => false,
        [first, ..] => *first == b';',
    }
}

/// The bytes after the first `count`.
fn behind(bytes: &[u8], count: usize) -> &[u8]
    ensures { result.now ≡ drop count bytes.now }
{
    if count > bytes.len() {
        return &[];
    }
    &bytes[count..]
}

/// The number of letters and digits at the front.
fn named(bytes: &[u8]) -> usize
    ensures length { result ≡ named bytes.now }
    ensures within { result ≤ length bytes.now }
{
    bytes
        .iter()
        .take_while(|byte| byte.is_ascii_alphanumeric())
        .count()
}

/// The number of bytes of an entity with `count` bytes before these; 0 if these bytes are not the
/// rest of an entity.
fn entity_rest(count: usize, bytes: &[u8]) -> usize
    requires { count < 2 ^ 62 }
    ensures { result ≡ entity_rest count bytes.now }
{
    let length = named(bytes);
    if length > 0 && begins_end(behind(bytes, length)) {
        count + length + 1
    } else {
        0
    }
}

/// The number of bytes of the entity of HTML at the front; 0 if there is none.
pub(crate) fn markup_entity(bytes: &[u8]) -> usize
    ensures { result ≡ markup_entity bytes.now }
{
    if !begins_ampersand(bytes) {
        return 0;
    }
    let rest = behind(bytes, 1);
    if begins_hash(rest) {
        entity_rest(2, behind(bytes, 2))
    } else {
        entity_rest(1, rest)
    }
}
