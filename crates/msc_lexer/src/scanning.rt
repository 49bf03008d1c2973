//! The end of a note, a text or a run.

ghost use Rattle.std.specs.Prelude.{◌≡◌, ℕ, ◌+◌, ◌≤◌, ◌<◌, length, IfSome};
ghost use Rattle.std.specs.Prelude.{IfNone};
ghost use Rattle.std.specs.List.{prefix_len};
ghost use Rattle.msc_lexer.specs.Bytes.{is_run_byte};
ghost use Rattle.msc_lexer.specs.Pieces.{NeverCloses};
ghost use Rattle.msc_lexer.specs.Scanning.{ClosesAt, IsDoubled, QuoteEndsAt};

use crate::byte::is_run_byte;
use crate::lanes::{LANES, run_in_load};
use memchr::memchr;

/// The number of bytes of the run at the front of a text, one byte after the other.
fn run_by_one(text: &[u8]) -> usize
    ensures length { result ≡ prefix_len is_run_byte text.now }
    ensures within { result ≤ length text.now }
{
    text.iter().take_while(|byte| is_run_byte(**byte)).count()
}

/// The number of bytes of the run at the front of a text.
pub fn run_length(text: &[u8]) -> usize
    ensures { result ≡ prefix_len is_run_byte text.now }
{
    let mut at = 0;
    while text.len() - at >= LANES {
        let run = run_in_load(text, at);
        if run < LANES {
            return at + run;
        }
        at += LANES;
    }
    at + run_by_one(&text[at..])
}

/// The place of the first `*/` in the bytes after the `/*` of a note.
pub fn note_end(body: &[u8]) -> Option<usize>
    ensures found { IfSome result (ClosesAt body.now) }
    ensures none { IfNone result (NeverCloses body.now) }
{
    let mut at = 0;
    'slashes: while let Some(before) = memchr(b'/', &body[at..]) {
        let slash = at + before;
        if slash > 0 && body[slash - 1] == b'*' {
            return Some(slash - 1);
        }
        at = slash + 1;
    }
    None
}

/// The place of the closing apostrophe in the bytes after the opening one of a text.
pub fn quote_end(body: &[u8]) -> Option<usize>
    ensures found { IfSome result (QuoteEndsAt body.now) }
    ensures none { IfNone result (IsDoubled body.now) }
{
    let mut at = 0;
    while at < body.len() {
        if body[at] != b'\'' {
            at += 1;
        } else if at + 1 < body.len() && body[at + 1] == b'\'' {
            at += 2;
        } else {
            return Some(at);
        }
    }
    None
}
