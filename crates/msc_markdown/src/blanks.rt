//! The blanks of Markdown: spaces and tabs.

ghost use Rattle.std.specs.Prelude.{◌≡◌, ◌≤◌, drop, length};
ghost use Rattle.std.specs.List.{prefix_len, suffix_len};
ghost use Rattle.msc_lexer.specs.Bytes.{begins};
ghost use Rattle.msc_markdown.specs.Blanks.{before_blanks, behind_blanks, is_blank, trimmed};

/// Whether the byte is a space or a tab.
pub(crate) fn is_blank(byte: u8) -> bool
    ensures { result ≡ is_blank byte }
{
    byte == b' ' || byte == b'\t'
}

/// Whether the bytes begin with a blank.
pub(crate) fn begins_blank(bytes: &[u8]) -> bool
    ensures { result ≡ begins is_blank bytes.now }
{
    match bytes {
        [] => false,
        [first, ..] => is_blank(*first),
    }
}

/// The bytes after the first `count`.
pub(crate) fn behind(bytes: &[u8], count: usize) -> &[u8]
    ensures { result.now ≡ drop count bytes.now }
{
    if count > bytes.len() {
        return &[];
    }
    &bytes[count..]
}

/// The number of blanks at the front.
fn blanks_in_front(bytes: &[u8]) -> usize
    ensures length { result ≡ prefix_len is_blank bytes.now }
    ensures within { result ≤ length bytes.now }
{
    bytes.iter().take_while(|byte| is_blank(**byte)).count()
}

/// The number of blanks at the end.
fn blanks_at_end(bytes: &[u8]) -> usize
    ensures length { result ≡ suffix_len is_blank bytes.now }
    ensures within { result ≤ length bytes.now }
{
    bytes
        .iter()
        .rev()
        .take_while(|byte| is_blank(**byte))
        .count()
}

/// The bytes after the blanks at the front.
pub(crate) fn behind_blanks(bytes: &[u8]) -> &[u8]
    ensures { result.now ≡ behind_blanks bytes.now }
{
    &bytes[blanks_in_front(bytes)..]
}

/// The bytes before the blanks at the end.
fn before_blanks(bytes: &[u8]) -> &[u8]
    ensures { result.now ≡ before_blanks bytes.now }
{
    &bytes[..bytes.len() - blanks_at_end(bytes)]
}

/// The bytes without blanks at both ends.
pub(crate) fn trimmed(bytes: &[u8]) -> &[u8]
    ensures { result.now ≡ trimmed bytes.now }
{
    before_blanks(behind_blanks(bytes))
}
