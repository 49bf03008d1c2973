//! Sentences: words, names and labels as code, and numbers of races.

ghost use Rattle.std.specs.Prelude.{◌≡◌, ◌++◌, IfOk, OnOk, codes, length};
ghost use Rattle.std.specs.Fmt.{decimal};
ghost use Rattle.std.specs.List.{flat_map};
ghost use Rattle.msc_html.specs.Parts.{style_attributes, part_of, part_text, parts_text};
ghost use Rattle.msc_html.specs.Parts.{sentence};
ghost use Rattle.msc_tree.specs.Trees.{attributes_text, line_text};

use listed::Listed;
use msc_parser::Label;
use msc_tree::{put_decimal, put_escaped};
use std::alloc::{AllocError, Global};

/// The role of a part of a sentence.
#[derive(Clone, Copy)]
pub enum Tag {
    /// As words.
    Words,
    /// As code: a name, a label, or an event.
    Code,
    /// As the number of a race.
    Number,
}

/// A part of a sentence.
#[derive(Drop)]
pub struct Part {
    pub tag: Tag,
    pub text: Label,
}

/// The look of a sentence.
#[derive(Clone, Copy)]
pub enum SentenceStyle {
    Plain,
    Soft,
    Verdict,
    Pass,
    /// Readers can scroll it with the keys.
    Scrolled,
}

/// A part with this text.
pub fn part_of(alloc: Global, tag: Tag, text: &[u8]) -> Result<Part, AllocError>
    ensures { IfOk result (λ p. p ≡ part_of tag text.now) }
{
    Ok(Part {
        tag,
        text: Listed::from_vec(Vec::from_slice(alloc, text)?),
    })
}

/// The number of a race.
pub fn race_number(alloc: Global, k: usize) -> Result<Part, AllocError>
    ensures { IfOk result (λ p. p ≡ part_of Tag.Number (decimal k)) }
{
    let mut text = Vec::new(alloc);
    put_decimal(&mut text, k)?;
    Ok(Part {
        tag: Tag::Number,
        text: Listed::from_vec(text),
    })
}

/// Appends a part to a page.
fn put_part(page: &mut Vec<u8>, part: &Part) -> Result<(), AllocError>
    ensures { OnOk result (page.new.items ≡ page.old.items ++ part_text part.now) }
{
    let text = part.text.as_slice();
    match part.tag {
        Tag::Words => put_escaped(page, text),
        Tag::Code => {
            page.extend_from_slice(b"<code>")?;
            put_escaped(page, text)?;
            page.extend_from_slice(b"</code>")
        }
        Tag::Number => {
            page.extend_from_slice(b"<b>")?;
            put_escaped(page, text)?;
            page.extend_from_slice(b"</b>")
        }
    }
}

/// Appends the parts of a sentence to a page.
fn put_parts(page: &mut Vec<u8>, parts: &[Part]) -> Result<(), AllocError>
    ensures { OnOk result (page.new.items ≡ page.old.items ++ parts_text parts.now) }
{
    for part in parts {
        put_part(page, part)?;
    }
    Ok(())
}

/// Appends the attributes of a look to a page.
fn put_style(page: &mut Vec<u8>, style: SentenceStyle) -> Result<(), AllocError>
    ensures { OnOk result
        (page.new.items ≡ page.old.items ++ attributes_text (style_attributes style)) }
{
    match style {
        SentenceStyle::Plain => Ok(()),
        SentenceStyle::Soft => page.extend_from_slice(b" class=\"soft\""),
        SentenceStyle::Verdict => page.extend_from_slice(b" class=\"verdict\""),
        SentenceStyle::Pass => page.extend_from_slice(b" class=\"verdict pass\""),
        SentenceStyle::Scrolled => page.extend_from_slice(b" tabindex=\"0\""),
    }
}

/// Appends the beginning of an element to a page.
fn put_begin(page: &mut Vec<u8>, name: &[u8], style: SentenceStyle) -> Result<(), AllocError>
    ensures { OnOk result (page.new.items ≡ page.old.items
        ++ ((codes "<" ++ name.now) ++ attributes_text (style_attributes style))) }
{
    page.extend_from_slice(b"<")?;
    page.extend_from_slice(name)?;
    put_style(page, style)
}

/// Appends the content of an element, and its end, to a page.
fn put_held(page: &mut Vec<u8>, name: &[u8], parts: &[Part]) -> Result<(), AllocError>
    ensures { OnOk result (page.new.items ≡ page.old.items
        ++ ((((codes ">" ++ parts_text parts.now) ++ codes "</") ++ name.now) ++ codes ">\n")) }
{
    page.extend_from_slice(b">")?;
    put_parts(page, parts)?;
    page.extend_from_slice(b"</")?;
    page.extend_from_slice(name)?;
    page.extend_from_slice(b">\n")
}

/// Appends a sentence in an element of this name to a page.
pub fn put_sentence(
    page: &mut Vec<u8>,
    name: &[u8],
    style: SentenceStyle,
    parts: &[Part],
) -> Result<(), AllocError>
    ensures { OnOk result
        (page.new.items ≡ page.old.items ++ line_text (sentence name.now style parts.now)) }
{
    put_begin(page, name, style)?;
    if parts.len() == 0 {
        page.extend_from_slice(b"/>\n")?;
        return Ok(());
    }
    put_held(page, name, parts)?;
    Ok(())
}
