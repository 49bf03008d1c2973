//! Blanks: spaces, tabs and ends of lines.

ghost use Rattle.std.specs.Prelude.{◌≡◌, ◌≤◌, length};
ghost use Rattle.std.specs.List.{prefix_len, suffix_len};
ghost use Rattle.msc_links.specs.Blanks.{after_blanks, before_blanks, is_blank, trimmed};

/// Whether the byte is a space, a tab, or one of those that end a line.
pub(crate) fn is_blank(byte: u8) -> bool
    ensures { result ≡ is_blank byte }
{
    byte == b' ' || byte == b'\t' || byte == b'\n' || byte == b'\r'
}

/// The number of blanks at the front.
fn blanks_in_front(text: &[u8]) -> usize
    ensures length { result ≡ prefix_len is_blank text.now }
    ensures within { result ≤ length text.now }
{
    text.iter().take_while(|byte| is_blank(**byte)).count()
}

/// The number of blanks at the end.
fn blanks_at_end(text: &[u8]) -> usize
    ensures length { result ≡ suffix_len is_blank text.now }
    ensures within { result ≤ length text.now }
{
    text.iter()
        .rev()
        .take_while(|byte| is_blank(**byte))
        .count()
}

/// The text after the blanks at its front.
fn after_blanks(text: &[u8]) -> &[u8]
    ensures { result.now ≡ after_blanks text.now }
{
    &text[blanks_in_front(text)..]
}

/// The text before the blanks at its end.
fn before_blanks(text: &[u8]) -> &[u8]
    ensures { result.now ≡ before_blanks text.now }
{
    &text[..text.len() - blanks_at_end(text)]
}

/// The text without the blanks around it.
#[tactic(auto, unfolding(crate::specs::Blanks::trimmed))]
pub(crate) fn trimmed(text: &[u8]) -> &[u8]
    ensures { result.now ≡ trimmed text.now }
{
    before_blanks(after_blanks(text))
}
