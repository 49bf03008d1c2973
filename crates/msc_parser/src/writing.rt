//! The canonical text of a draft, part by part. Each function appends the text of a part.

ghost use Rattle.std.specs.Prelude.{◌≡◌, ◌++◌, OnOk, IfOk, option_map};
ghost use Rattle.std.specs.List.{flat_map};
ghost use Rattle.msc_lexer.specs.Pieces.{doubled, text_of};
ghost use Rattle.msc_parser.specs.Grammar.{direction_word};
ghost use Rattle.msc_parser.specs.Canonical.{second_pieces, kind_pieces, decl_pieces};
ghost use Rattle.msc_parser.specs.Canonical.{next_decl_pieces, header_pieces, next_name_pieces};
ghost use Rattle.msc_parser.specs.Canonical.{number_pieces, parameter_pieces, ident_pieces};
ghost use Rattle.msc_parser.specs.Canonical.{address_pieces, signal_pieces, action_pieces};
ghost use Rattle.msc_parser.specs.Canonical.{event_pieces, inner_pieces};
ghost use Rattle.msc_parser.specs.Canonical.{coregion_pieces, item_pieces, section_pieces};
ghost use Rattle.msc_parser.specs.Canonical.{canonical_with, first_end};

use crate::draft::Draft;
use crate::name::Name;
use crate::signalling::address_word;
use crate::tree::{Decl, Direction, Item, Section, Signal, Statement};
use msc_lexer::Word;
use std::alloc::{AllocError, Global};

/// The first word of a message event.
fn direction_word(direction: Direction) -> Word
    ensures { result ≡ direction_word direction }
{
    match direction {
        Direction::Output => Word::Output,
        Direction::Input => Word::Input,
    }
}

/// Names with a space before each.
fn put_second(out: &mut Vec<u8>, names: &[Name]) -> Result<(), AllocError>
    ensures { OnOk result
        (out.new.items ≡ out.old.items ++ text_of (flat_map second_pieces names.now)) }
{
    for name in names {
        out.push(b' ')?;
        out.extend_from_slice(name.as_slice())?;
    }
    Ok(())
}

/// The kind of an instance, if it has one.
fn put_kind(out: &mut Vec<u8>, kind: &[Name]) -> Result<(), AllocError>
    ensures { OnOk result (out.new.items ≡ out.old.items ++ text_of (kind_pieces kind.now)) }
{
    match kind {
        [] => Ok(()),
        [first, others @ ..] => {
            out.extend_from_slice(b" : ")?;
            out.extend_from_slice(first.as_slice())?;
            put_second(out, others)
        }
    }
}

/// The name of an instance, and its kind.
fn put_decl(out: &mut Vec<u8>, decl: &Decl) -> Result<(), AllocError>
    ensures { OnOk result (out.new.items ≡ out.old.items ++ text_of (decl_pieces decl.now)) }
{
    out.extend_from_slice(decl.name.as_slice())?;
    put_kind(out, decl.kind.as_slice())
}

/// Decls with a comma before each.
fn put_next_decls(out: &mut Vec<u8>, decls: &[Decl]) -> Result<(), AllocError>
    ensures { OnOk result
        (out.new.items ≡ out.old.items ++ text_of (flat_map next_decl_pieces decls.now)) }
{
    for decl in decls {
        out.extend_from_slice(b", ")?;
        put_decl(out, decl)?;
    }
    Ok(())
}

/// The `inst` statement, if there are header names.
fn put_header(out: &mut Vec<u8>, header: &[Decl]) -> Result<(), AllocError>
    ensures { OnOk result (out.new.items ≡ out.old.items ++ text_of (header_pieces header.now)) }
{
    match header {
        [] => Ok(()),
        [first, others @ ..] => {
            out.extend_from_slice(b"inst ")?;
            put_decl(out, first)?;
            put_next_decls(out, others)?;
            out.extend_from_slice(b";\n")?;
            Ok(())
        }
    }
}

/// Names with a comma before each.
fn put_next_names(out: &mut Vec<u8>, names: &[Name]) -> Result<(), AllocError>
    ensures { OnOk result
        (out.new.items ≡ out.old.items ++ text_of (flat_map next_name_pieces names.now)) }
{
    for name in names {
        out.extend_from_slice(b", ")?;
        out.extend_from_slice(name.as_slice())?;
    }
    Ok(())
}

/// The message instance name, if there is one.
fn put_number(out: &mut Vec<u8>, number: &Option<Name>) -> Result<(), AllocError>
    ensures { OnOk result (out.new.items ≡ out.old.items ++ text_of (number_pieces number.now)) }
{
    if let Some(name) = number {
        out.extend_from_slice(b", ")?;
        out.extend_from_slice(name.as_slice())?;
    }
    Ok(())
}

/// The parameters in parentheses, if there are any.
fn put_parameters(out: &mut Vec<u8>, parameters: &[Name]) -> Result<(), AllocError>
    ensures { OnOk result
        (out.new.items ≡ out.old.items ++ text_of (parameter_pieces parameters.now)) }
{
    match parameters {
        [] => Ok(()),
        [first, others @ ..] => {
            out.push(b'(')?;
            out.extend_from_slice(first.as_slice())?;
            put_next_names(out, others)?;
            out.push(b')')?;
            Ok(())
        }
    }
}

/// A message's name, its message instance name and its parameters.
fn put_ident(out: &mut Vec<u8>, e: &Signal) -> Result<(), AllocError>
    ensures { OnOk result (out.new.items ≡ out.old.items ++ text_of (ident_pieces e.now)) }
{
    out.extend_from_slice(e.name.as_slice())?;
    put_number(out, &e.number)?;
    put_parameters(out, e.parameters.as_slice())
}

/// The address of a message event, and the end of its line.
fn put_address(out: &mut Vec<u8>, e: &Signal) -> Result<(), AllocError>
    ensures { OnOk result (out.new.items ≡ out.old.items ++ text_of (address_pieces e.now)) }
{
    out.push(b' ')?;
    out.extend_from_slice(address_word(e.direction).spelling())?;
    out.push(b' ')?;
    out.extend_from_slice(e.address.as_slice())?;
    out.extend_from_slice(b";\n")?;
    Ok(())
}

/// A message event, from its first word to the end of its line.
fn put_signal(out: &mut Vec<u8>, e: &Signal) -> Result<(), AllocError>
    ensures { OnOk result (out.new.items ≡ out.old.items ++ text_of (signal_pieces e.now)) }
{
    out.extend_from_slice(direction_word(e.direction).spelling())?;
    out.push(b' ')?;
    put_ident(out, e)?;
    put_address(out, e)
}

/// Bytes, each apostrophe among them twice.
fn put_doubled(out: &mut Vec<u8>, bytes: &[u8]) -> Result<(), AllocError>
    ensures { OnOk result (out.new.items ≡ out.old.items ++ doubled bytes.now) }
{
    for byte in bytes {
        if *byte == b'\'' {
            out.push(b'\'')?;
        }
        out.push(*byte)?;
    }
    Ok(())
}

/// An action with this text, from its first word to the end of its line.
fn put_action(out: &mut Vec<u8>, label: &[u8]) -> Result<(), AllocError>
    ensures { OnOk result (out.new.items ≡ out.old.items ++ text_of (action_pieces label.now)) }
{
    out.extend_from_slice(b"action '")?;
    put_doubled(out, label)?;
    out.extend_from_slice(b"';\n")?;
    Ok(())
}

/// An event, from its first word to the end of its line.
fn put_event(out: &mut Vec<u8>, event: &Statement) -> Result<(), AllocError>
    ensures { OnOk result (out.new.items ≡ out.old.items ++ text_of (event_pieces event.now)) }
{
    match event {
        Statement::Message(e) => put_signal(out, e),
        Statement::Action(label) => put_action(out, label.as_slice()),
    }
}

/// The events of a coregion.
fn put_inner(out: &mut Vec<u8>, events: &[Statement]) -> Result<(), AllocError>
    ensures { OnOk result
        (out.new.items ≡ out.old.items ++ text_of (flat_map inner_pieces events.now)) }
{
    for event in events {
        out.extend_from_slice(b"    ")?;
        put_event(out, event)?;
    }
    Ok(())
}

/// A coregion: its first line, its events, its last line.
fn put_coregion(out: &mut Vec<u8>, events: &[Statement]) -> Result<(), AllocError>
    ensures { OnOk result (out.new.items ≡ out.old.items ++ text_of (coregion_pieces events.now)) }
{
    out.extend_from_slice(b"  concurrent;\n")?;
    put_inner(out, events)?;
    out.extend_from_slice(b"  endconcurrent;\n")?;
    Ok(())
}

/// An item of a section.
fn put_item(out: &mut Vec<u8>, item: &Item) -> Result<(), AllocError>
    ensures { OnOk result (out.new.items ≡ out.old.items ++ text_of (item_pieces item.now)) }
{
    match item {
        Item::Single(e) => {
            out.extend_from_slice(b"  ")?;
            put_event(out, e)
        }
        Item::Coregion(events) => put_coregion(out, events.as_slice()),
    }
}

/// The items of a section.
fn put_items(out: &mut Vec<u8>, items: &[Item]) -> Result<(), AllocError>
    ensures { OnOk result
        (out.new.items ≡ out.old.items ++ text_of (flat_map item_pieces items.now)) }
{
    for item in items {
        put_item(out, item)?;
    }
    Ok(())
}

/// A section: its first line, its items, its last line.
fn put_section(out: &mut Vec<u8>, section: &Section) -> Result<(), AllocError>
    ensures { OnOk result (out.new.items ≡ out.old.items ++ text_of (section_pieces section.now)) }
{
    out.extend_from_slice(b"instance ")?;
    put_decl(out, &section.decl)?;
    out.extend_from_slice(b";\n")?;
    put_items(out, section.items.as_slice())?;
    out.extend_from_slice(b"endinstance;\n")?;
    Ok(())
}

/// Sections, one after the other.
fn put_sections(out: &mut Vec<u8>, sections: &[Section]) -> Result<(), AllocError>
    ensures { OnOk result
        (out.new.items ≡ out.old.items ++ text_of (flat_map section_pieces sections.now)) }
{
    for section in sections {
        put_section(out, section)?;
    }
    Ok(())
}

/// The end of the first line, and before it a comment with this text, if there is one.
fn put_first_end(out: &mut Vec<u8>, comment: Option<&[u8]>) -> Result<(), AllocError>
    ensures { OnOk result (out.new.items
        ≡ out.old.items ++ text_of (first_end (option_map (λ c. c.now) comment.entry))) }
{
    if let Some(text) = comment {
        out.extend_from_slice(b" comment '")?;
        put_doubled(out, text)?;
        out.push(b'\'')?;
    }
    out.extend_from_slice(b";\n")?;
    Ok(())
}

/// The canonical text of a draft, with this comment after the chart's name, if there is one.
pub fn canonical_text(
    alloc: Global,
    draft: &Draft,
    comment: Option<&[u8]>,
) -> Result<Vec<u8>, AllocError>
    ensures { IfOk result (λ v.
        v.items ≡ canonical_with (option_map (λ c. c.now) comment.entry) draft.now) }
{
    let mut out = Vec::new(alloc);
    out.extend_from_slice(b"msc ")?;
    out.extend_from_slice(draft.name())?;
    put_first_end(&mut out, comment)?;
    put_header(&mut out, draft.header())?;
    put_sections(&mut out, draft.sections())?;
    out.extend_from_slice(b"endmsc;\n")?;
    Ok(out)
}
