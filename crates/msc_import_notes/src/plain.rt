//! The text of a diagram with one LF at each end of a line; places of faults are places of this
//! text.

ghost use Rattle.std.specs.Prelude.{◌≡◌, ◌++◌, IfOk, OnOk, map, option_map, replicate};
ghost use Rattle.std.specs.List.{slice_get};
ghost use Rattle.msc_mermaid.specs.Parts.{stretch};
ghost use Rattle.msc_import_notes.specs.Plain.{block_text, joined, line_end, own_line, own_lines};
ghost use Rattle.msc_import_notes.specs.Plain.{part_on, plain};

use msc_markdown::Markdown;
use msc_mermaid::{LinePart, lines_of};
use std::alloc::{AllocError, Global};

/// Ends the line before the line of an index, if there is one.
fn put_end(text: &mut Vec<u8>, index: usize) -> Result<(), AllocError>
    ensures { OnOk result (text.new.items ≡ text.old.items ++ line_end index) }
{
    if index > 0 {
        text.push(b'\n')?;
    }
    Ok(())
}

/// Lines with one LF between each two.
fn joined(alloc: Global, lines: &[&[u8]]) -> Result<Vec<u8>, AllocError>
    ensures { IfOk result (λ v. v.items ≡ joined (map (λ l. l.now) lines.now)) }
{
    let mut plain = Vec::new(alloc);
    for i in 0..lines.len() {
        put_end(&mut plain, i)?;
        plain.extend_from_slice(lines[i])?;
    }
    Ok(plain)
}

/// The text of a diagram with one LF for each end of a line, and without a byte order mark. The
/// only error is want of memory.
pub fn with_plain_lines(alloc: Global, text: &[u8]) -> Result<Vec<u8>, AllocError>
    ensures { IfOk result (λ v. v.items ≡ plain text.now) }
{
    let lines = lines_of(alloc, text)?;
    joined(alloc, lines.as_slice())
}

/// Appends `count` blanks to a text.
fn put_blanks(text: &mut Vec<u8>, count: usize) -> Result<(), AllocError>
    ensures { OnOk result (text.new.items ≡ text.old.items ++ replicate count 32) }
{
    for _ in 0..count {
        text.push(b' ')?;
    }
    Ok(())
}

/// Appends a line to a text, with blanks for what does not belong to its part.
fn put_line(text: &mut Vec<u8>, line: &[u8], part: Option<LinePart>) -> Result<(), AllocError>
    ensures { OnOk result (text.new.items
        ≡ text.old.items ++ own_line line.now (option_map stretch part.entry)) }
{
    let Some(part) = part else {
        return put_blanks(text, line.len());
    };
    put_blanks(text, part.before)?;
    text.extend_from_slice(part.bytes)?;
    let rest = line.len().saturating_sub(part.before);
    put_blanks(text, rest.saturating_sub(part.bytes.len()))
}

/// The part with an index, if there is one.
fn part_at<'t>(parts: &[LinePart<'t>], at: usize) -> Option<LinePart<'t>>
    ensures { option_map stretch result ≡ slice_get (map stretch parts.now) at }
{
    if at < parts.len() {
        Some(parts[at])
    } else {
        None
    }
}

/// The part on the line with this number, if there is one.
fn part_on<'t>(parts: &[LinePart<'t>], number: usize) -> Option<LinePart<'t>>
    ensures { option_map stretch result ≡ part_on number (map stretch parts.now) }
{
    match parts {
        [first, ..] if first.line <= number => part_at(parts, number - first.line),
        _ => None,
    }
}

/// Lines with one LF between each two, and with blanks for what does not belong to these parts.
fn joined_block(
    alloc: Global,
    lines: &[&[u8]],
    parts: &[LinePart<'_>],
) -> Result<Vec<u8>, AllocError>
    ensures { IfOk result (λ v. v.items
        ≡ joined (own_lines 1 (map stretch parts.now) (map (λ l. l.now) lines.now))) }
{
    let mut plain = Vec::new(alloc);
    for i in 0..lines.len() {
        put_end(&mut plain, i)?;
        put_line(&mut plain, lines[i], part_on(parts, i + 1))?;
    }
    Ok(plain)
}

/// The text of a block of Markdown, by its number from 1: that of the whole file with one LF at
/// each end of a line, and with blanks for all that does not belong to the block. So places are
/// those of the whole text. The only error is want of memory.
pub fn block_text(alloc: Global, found: &Markdown<'_>, number: usize) -> Result<Vec<u8>, AllocError>
    ensures { IfOk result (λ v. v.items ≡ block_text number found.now) }
{
    let lines = lines_of(alloc, found.text())?;
    joined_block(alloc, lines.as_slice(), found.block_parts(number))
}
