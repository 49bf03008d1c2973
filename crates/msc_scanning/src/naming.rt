//! The name of an architecture in what is printed of a text under several ones.

ghost use Rattle.std.specs.Prelude.{◌≡◌, ◌+◌, ◌==◌, ◌++◌, ◌∷◌, ◌<◌, ◌≤◌, [], drop, IfOk, IfSome, OnOk, length, position};
ghost use Rattle.msc_scanning.specs.Naming.{behind_bracket, has_kind, is_bracket, named_line};
ghost use Rattle.msc_scanning.specs.Naming.{with_name, HasNames};

use msc_print::Page;
use std::alloc::{AllocError, Global};

/// Whether the kind of a finding begins.
fn is_bracket(byte: u8) -> bool
    ensures { result ≡ is_bracket byte }
{
    byte == b'['
}

/// The number of bytes of a line after the last opening bracket.
fn behind_bracket(line: &[u8]) -> usize
    ensures value { result ≡ behind_bracket line.now }
    ensures within { result ≤ length line.now }
{
    line.iter()
        .rev()
        .take_while(|byte| !is_bracket(**byte))
        .count()
}

/// Whether a line ends with a kind in brackets.
fn has_kind(line: &[u8]) -> bool
    ensures { result ≡ has_kind line.now }
{
    line.ends_with(b"]") && behind_bracket(line) < line.len()
}

/// Appends a line with a word and a blank before the kind of its finding, which stands in brackets at
/// its end.
fn print_named(page: &mut Page, word: &str, line: &[u8]) -> Result<(), AllocError>
    ensures { OnOk result (page.new.bytes.items
        ≡ page.old.bytes.items ++ named_line word.now line.now) }
{
    if !has_kind(line) {
        return page.bytes.extend_from_slice(line);
    }
    let before = line.len() - behind_bracket(line);
    page.bytes.extend_from_slice(&line[..before])?;
    page.bytes.extend_from_slice(word.as_bytes())?;
    page.bytes.extend_from_slice(b" ")?;
    page.bytes.extend_from_slice(&line[before..])
}

/// Appends such a line and its end.
fn print_line(page: &mut Page, word: &str, line: &[u8]) -> Result<(), AllocError>
    ensures { OnOk result (page.new.bytes.items
        ≡ page.old.bytes.items ++ (named_line word.now line.now ++ 10 ∷ [])) }
{
    print_named(page, word, line)?;
    page.bytes.push(b'\n')?;
    Ok(())
}

/// The place of the first end of a line.
fn line_end(bytes: &[u8]) -> Option<usize>
    ensures place { result ≡ position (λ byte. byte == 10) bytes.now }
    ensures within { IfSome result (λ at. at < length bytes.now) }
{
    bytes.iter().position(|byte| *byte == b'\n')
}

/// The bytes after a place.
fn behind(bytes: &[u8], at: usize) -> &[u8]
    requires { at < length bytes.now }
    ensures { result.now ≡ drop (at + 1) bytes.entry.now }
{
    &bytes[at + 1..]
}

/// Lines with a word and a blank before the kinds of their findings.
pub(crate) fn with_names(alloc: Global, word: &str, lines: &[u8]) -> Result<Page, AllocError>
    ensures { IfOk result (λ page. HasNames word.now lines.now page.bytes.items) }
{
    let mut page = Page::new(alloc);
    let mut rest = lines;
    while let Some(at) = line_end(rest) {
        print_line(&mut page, word, &rest[..at])?;
        rest = behind(rest, at);
    }
    page.bytes.extend_from_slice(rest)?;
    Ok(page)
}

/// A line with a word and a blank before it.
pub(crate) fn with_name(alloc: Global, word: &str, line: &[u8]) -> Result<Page, AllocError>
    ensures { IfOk result (λ page. page.bytes.items ≡ with_name word.now line.now) }
{
    let mut page = Page::new(alloc);
    page.bytes.extend_from_slice(word.as_bytes())?;
    page.bytes.extend_from_slice(b" ")?;
    page.bytes.extend_from_slice(line)?;
    Ok(page)
}
