//! A mark as a comment of a chart.

ghost use Rattle.std.specs.Prelude.{◌≡◌, ◌++◌, [], IfOk, OnOk};
ghost use Rattle.std.specs.List.{flat_map, fold, list_any};
ghost use Rattle.std.specs.Str.{bytes_eq};
ghost use Rattle.msc_import_marks.specs.Comments.{added, comment_text, idents_in, idents_of, is_named_at};
ghost use Rattle.msc_import_marks.specs.Comments.{kinds_text, made_of, more_kinds, more_others, named};
ghost use Rattle.msc_import_marks.specs.Comments.{named_at, named_or_made, others_text};

use crate::met::MetArrow;
use listed::Listed;
use msc_arrow_marks::{MarkText, OtherArrow, SpokenArrow, is_named, spoken_other};
use msc_chart::LinkKind;
use msc_scenarios::made;
use std::alloc::{AllocError, Global};

/// Whether the arrow of a statement has this name, of which the label is as people read it.
fn is_named_at(arrows: &[SpokenArrow], name: &OtherArrow, statement: usize) -> bool
    ensures { result ≡ is_named_at arrows.now name.now statement }
{
    match arrows.get(statement) {
        Some(arrow) => is_named(name, arrow),
        None => false,
    }
}

/// Whether an ident is among these.
fn has(idents: &[Listed<u8>], ident: &[u8]) -> bool
    ensures { result ≡ list_any (bytes_eq ident.now) idents.now }
{
    idents.iter().any(|other| ident == other.as_slice())
}

/// Adds an ident, unless it is there.
fn add(alloc: Global, idents: &mut Vec<Listed<u8>>, ident: &[u8]) -> Result<(), AllocError>
    ensures { OnOk result (idents.new.items ≡ added idents.old.items ident.now) }
{
    if has(idents.as_slice(), ident) {
        return Ok(());
    }
    let ident = Vec::from_slice(alloc, ident)?;
    idents.push(Listed::from_vec(ident))?;
    Ok(())
}

/// Adds the ident of an arrow, if it has this name, of which the label is as people read it.
fn put_named(
    alloc: Global,
    arrows: &[SpokenArrow],
    name: &OtherArrow,
    arrow: &MetArrow,
    idents: &mut Vec<Listed<u8>>,
) -> Result<(), AllocError>
    ensures { OnOk result (idents.new.items
        ≡ idents.old.items ++ named_at arrows.now name.now arrow.now) }
{
    if !is_named_at(arrows, name, arrow.statement) {
        return Ok(());
    }
    let ident = Vec::from_slice(alloc, arrow.ident.as_slice())?;
    idents.push(Listed::from_vec(ident))?;
    Ok(())
}

/// The idents of the arrows that have this name, of which the label is as people read it.
fn named(
    alloc: Global,
    arrows: &[SpokenArrow],
    met: &[MetArrow],
    name: &OtherArrow,
) -> Result<Vec<Listed<u8>>, AllocError>
    ensures { IfOk result (λ idents. idents.items ≡ named arrows.now met.now name.now) }
{
    let mut idents = Vec::new(alloc);
    for arrow in met {
        put_named(alloc, arrows, name, arrow, &mut idents)?;
    }
    Ok(idents)
}

/// The name that is made of the name of an arrow.
fn made_of(alloc: Global, name: &OtherArrow) -> Result<Vec<u8>, AllocError>
    ensures { IfOk result (λ made. made.items ≡ made_of name.now) }
{
    match name {
        OtherArrow::Label(label) => made(alloc, label.as_slice(), b"m"),
        OtherArrow::Number(_) => Vec::from_slice(alloc, b"m"),
    }
}

/// The idents of the arrows that have this name, or the name that is made of it if there are none.
fn named_or_made(
    alloc: Global,
    arrows: &[SpokenArrow],
    met: &[MetArrow],
    name: &OtherArrow,
) -> Result<Vec<Listed<u8>>, AllocError>
    ensures { IfOk result (λ idents. idents.items ≡ named_or_made arrows.now met.now name.now) }
{
    let spoken = spoken_other(alloc, name)?;
    let mut idents = named(alloc, arrows, met, &spoken)?;
    if idents.as_slice().is_empty() {
        let made = made_of(alloc, name)?;
        idents.push(Listed::from_vec(made))?;
    }
    Ok(idents)
}

/// Adds these idents, each unless it is there.
fn add_all(
    alloc: Global,
    idents: &mut Vec<Listed<u8>>,
    others: &[Listed<u8>],
) -> Result<(), AllocError>
    ensures { OnOk result (idents.new.items ≡ fold added idents.old.items others.now) }
{
    for other in others {
        add(alloc, idents, other.as_slice())?;
    }
    Ok(())
}

/// The idents of the arrows that have these names, each once.
fn idents_of(
    alloc: Global,
    arrows: &[SpokenArrow],
    met: &[MetArrow],
    names: &[OtherArrow],
) -> Result<Vec<Listed<u8>>, AllocError>
    ensures { IfOk result (λ idents. idents.items ≡ idents_of arrows.now met.now names.now) }
{
    let mut idents = Vec::new(alloc);
    for name in names {
        let others = named_or_made(alloc, arrows, met, name)?;
        add_all(alloc, &mut idents, others.as_slice())?;
    }
    Ok(idents)
}

/// Appends kinds, a comma before each.
fn print_more_kinds(text: &mut Vec<u8>, kinds: &[LinkKind]) -> Result<(), AllocError>
    ensures { OnOk result (text.new.items ≡ text.old.items ++ more_kinds kinds.now) }
{
    for kind in kinds {
        text.extend_from_slice(b", ")?;
        text.extend_from_slice(kind.word().as_bytes())?;
    }
    Ok(())
}

/// Appends the architectures that a mark is for, if it is not for all.
fn print_kinds(text: &mut Vec<u8>, kinds: &[LinkKind]) -> Result<(), AllocError>
    ensures { OnOk result (text.new.items ≡ text.old.items ++ kinds_text kinds.now) }
{
    let [first, others @ ..] = kinds else {
        return Ok(());
    };
    text.extend_from_slice(b" in ")?;
    text.extend_from_slice(first.word().as_bytes())?;
    print_more_kinds(text, others)
}

/// Appends idents, a semicolon before each.
fn print_more_others(text: &mut Vec<u8>, idents: &[Listed<u8>]) -> Result<(), AllocError>
    ensures { OnOk result (text.new.items ≡ text.old.items ++ more_others idents.now) }
{
    for ident in idents {
        text.extend_from_slice(b"; ")?;
        text.extend_from_slice(ident.as_slice())?;
    }
    Ok(())
}

/// Appends the messages that a mark names, if it names some.
fn print_others(text: &mut Vec<u8>, idents: &[Listed<u8>]) -> Result<(), AllocError>
    ensures { OnOk result (text.new.items ≡ text.old.items ++ others_text idents.now) }
{
    let [first, others @ ..] = idents else {
        return Ok(());
    };
    text.extend_from_slice(b" with ")?;
    text.extend_from_slice(first.as_slice())?;
    print_more_others(text, others)
}

/// The comment of a chart that says what a mark says: `race ok`, the architectures, the messages of
/// the arrows that it names among those that were met, and the reason.
pub(crate) fn comment_text(
    alloc: Global,
    arrows: &[SpokenArrow],
    met: &[MetArrow],
    said: &MarkText,
) -> Result<Vec<u8>, AllocError>
    ensures { IfOk result (λ text. text.items ≡ comment_text arrows.now met.now said.now) }
{
    let idents = idents_of(alloc, arrows, met, said.others.as_slice())?;
    let mut text = Vec::from_slice(alloc, b"race ok")?;
    print_kinds(&mut text, said.kinds.as_slice())?;
    print_others(&mut text, idents.as_slice())?;
    text.extend_from_slice(b": ")?;
    text.extend_from_slice(said.reason.as_slice())?;
    Ok(text)
}
