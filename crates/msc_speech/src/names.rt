//! What people call the lines of a diagram.

ghost use Rattle.std.specs.Prelude.{◌≡◌, ◌++◌, IfOk, OnOk, bytes_eq, count_by, map};
ghost use Rattle.std.specs.Option.{option_copied};
ghost use Rattle.std.specs.String.{string_bytes};
ghost use Rattle.msc_speech.specs.Names.{full_name, ident_said, in_parentheses, line_names, named};
ghost use Rattle.msc_speech.specs.Names.{said_of, shown_said};

use msc_spoken::{cut, shown, spoken, spoken_name};
use std::alloc::{AllocError, Global};

/// A line of a diagram: its identifier, and its shown name if it has one, as they stand in the text.
#[derive(Clone, Copy)]
pub struct LineName<'t> {
    pub ident: &'t [u8],
    pub shown: Option<&'t [u8]>,
}

/// An identifier as people read it, cut if it is long. The only error is want of memory.
pub fn ident_said(alloc: Global, ident: &[u8]) -> Result<String, AllocError>
    ensures { IfOk result (λ said. string_bytes said ≡ ident_said ident.now) }
{
    let text = spoken(alloc, ident)?;
    cut(alloc, text.as_str())
}

/// A shown name as people read it, cut if it is long.
fn shown_said(alloc: Global, name: &[u8]) -> Result<String, AllocError>
    ensures { IfOk result (λ said. string_bytes said ≡ shown_said name.now) }
{
    let text = spoken_name(alloc, name)?;
    cut(alloc, text.as_str())
}

/// What a line is called: its shown name, or its identifier if nothing is left of that.
fn named(alloc: Global, line: LineName<'_>) -> Result<String, AllocError>
    ensures { IfOk result (λ said. string_bytes said
        ≡ named line.entry.ident.now (option_copied line.entry.shown)) }
{
    if let Some(name) = line.shown {
        let said = shown_said(alloc, name)?;
        if !said.is_empty() {
            return Ok(said);
        }
    }
    ident_said(alloc, line.ident)
}

/// What each line is called, without regard to the others.
fn all_named(alloc: Global, lines: &[LineName<'_>]) -> Result<Vec<String>, AllocError>
    ensures { IfOk result (λ names. map string_bytes names.items ≡ map said_of lines.now) }
{
    let mut names = Vec::with_capacity(alloc, lines.len())?;
    for line in lines {
        names.push(named(alloc, *line)?)?;
    }
    Ok(names)
}

/// How many of the names are this one.
fn count_same(names: &[String], name: &str) -> usize
    ensures { result ≡ count_by (bytes_eq name.now) (map string_bytes names.now) }
{
    names.iter().filter(|other| name == other.as_str()).count()
}

/// Appends the identifier of a line, in parentheses.
fn put_ident(alloc: Global, name: &mut String, ident: &[u8]) -> Result<(), AllocError>
    ensures { OnOk result
        (string_bytes name.new ≡ string_bytes name.old ++ in_parentheses ident.now) }
{
    let text = shown(alloc, ident)?;
    let text = cut(alloc, text.as_str())?;
    name.push_str(" (")?;
    name.push_str(text.as_str())?;
    name.push_str(")")?;
    Ok(())
}

/// What a line is called among lines that are called so without regard to each other.
fn full_name(alloc: Global, names: &[String], line: LineName<'_>) -> Result<String, AllocError>
    ensures { IfOk result (λ name. string_bytes name
        ≡ full_name (map string_bytes names.now) line.entry) }
{
    let mut name = named(alloc, line)?;
    if count_same(names, name.as_str()) > 1 {
        put_ident(alloc, &mut name, line.ident)?;
    }
    Ok(name)
}

/// What people call the lines of a diagram: each by its shown name as people read it, or by its
/// identifier if it has none or nothing is left of it; cut if it is long. Lines that would be called
/// the same have their identifiers behind, in parentheses. The only error is want of memory.
pub fn line_names(alloc: Global, lines: &[LineName<'_>]) -> Result<Vec<String>, AllocError>
    ensures { IfOk result (λ names. map string_bytes names.items ≡ line_names lines.now) }
{
    let named = all_named(alloc, lines)?;
    let mut names = Vec::with_capacity(alloc, lines.len())?;
    for line in lines {
        names.push(full_name(alloc, named.as_slice(), *line)?)?;
    }
    Ok(names)
}
