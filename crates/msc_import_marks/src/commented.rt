//! The text of a chart with comments of its events.

ghost use Rattle.std.specs.Prelude.{◌≡◌, ◌+◌, ◌^◌, ◌<◌, ◌≤◌, ◌++◌, IfOk, OnOk, slice_range};
ghost use Rattle.std.specs.List.{flat_map};
ghost use Rattle.msc_import_marks.specs.Commented.{after, comment_part, commented, part_of, semicolon_of, twice};

use listed::Listed;
use msc_place::{EventPlace, Places};
use std::alloc::{AllocError, Global};

/// Appends a byte, an apostrophe twice.
fn put_byte(out: &mut Vec<u8>, byte: u8) -> Result<(), AllocError>
    ensures { OnOk result (out.new.items ≡ out.old.items ++ twice byte) }
{
    if byte == b'\'' {
        return out.extend_from_slice(b"''");
    }
    out.push(byte)?;
    Ok(())
}

/// Appends bytes, each apostrophe among them twice.
fn put_doubled(out: &mut Vec<u8>, bytes: &[u8]) -> Result<(), AllocError>
    ensures { OnOk result (out.new.items ≡ out.old.items ++ flat_map twice bytes.now) }
{
    for byte in bytes {
        put_byte(out, *byte)?;
    }
    Ok(())
}

/// Appends a comment, if there is one.
fn put_comment(out: &mut Vec<u8>, comment: &Option<Listed<u8>>) -> Result<(), AllocError>
    ensures { OnOk result (out.new.items ≡ out.old.items ++ comment_part comment.now) }
{
    let Some(text) = comment else {
        return Ok(());
    };
    out.extend_from_slice(b" comment '")?;
    put_doubled(out, text.as_slice())?;
    out.extend_from_slice(b"'")
}

/// The place of the `;` of a statement.
fn semicolon_of(place: EventPlace) -> usize
    ensures { result ≡ semicolon_of place }
{
    place.end.saturating_sub(1)
}

/// The bytes of a text from one place to another, or none if they are not in this order.
fn between(text: &[u8], from: usize, past: usize) -> &[u8]
    ensures { result.now ≡ slice_range text.now from past }
{
    let past = past.min(text.len());
    if from <= past { &text[from..past] } else { &[] }
}

/// A part of a text with comments: what is written so far, how much of the text that is, and the
/// event whose comment is next.
#[derive(Drop)]
struct Part {
    out: Vec<u8>,
    from: usize,
    event: usize,
}

impl Part {
    /// Writes the text up to the `;` of the next event, and its comment; nothing, if there is no such
    /// event.
    fn put(&mut self, places: &Places<'_>, comment: &Option<Listed<u8>>) -> Result<(), AllocError>
        requires { self.old.event < 2 ^ 63 }
        ensures put { OnOk result (part_of self.new ≡ after places.now (part_of self.old) comment.now) }
        ensures next { self.new.event ≤ self.old.event + 1 }
    {
        let Some(place) = places.event(self.event) else {
            return Ok(());
        };
        let at = semicolon_of(place);
        self.out
            .extend_from_slice(between(places.text(), self.from, at))?;
        put_comment(&mut self.out, comment)?;
        self.from = at;
        self.event += 1;
        Ok(())
    }
}

/// The text of these places with comments of its events, each before the `;` of its statement;
/// events without a comment stay as they are.
pub(crate) fn commented(
    alloc: Global,
    places: &Places<'_>,
    comments: &[Option<Listed<u8>>],
) -> Result<Vec<u8>, AllocError>
    ensures { IfOk result (λ out. out.items ≡ commented places.now comments.now) }
{
    let mut part = Part {
        out: Vec::new(alloc),
        from: 0,
        event: 0,
    };
    for comment in comments {
        part.put(places, comment)?;
    }
    let text = places.text();
    part.out
        .extend_from_slice(between(text, part.from, text.len()))?;
    Ok(part.out)
}
