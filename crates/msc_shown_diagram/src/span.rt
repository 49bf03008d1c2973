//! The bytes of spans of a text.

ghost use Rattle.std.specs.Prelude.{◌≡◌};
ghost use Rattle.msc_shown_diagram.specs.Spans.{bytes_at};

use msc_mermaid::Span;

/// The bytes of a text in a span, or none if the text is shorter.
pub(crate) fn bytes_at(text: &[u8], span: Span) -> &[u8]
    ensures { result.now ≡ bytes_at text.now span }
{
    if span.first <= span.past && span.past <= text.len() {
        &text[span.first..span.past]
    } else {
        b""
    }
}
