//! What a text holds: a chart, a sequence diagram, the sequence diagrams of Markdown, or nothing.

ghost use Rattle.std.specs.Prelude.{◌≡◌, IfOk};
ghost use Rattle.msc_markdown.specs.Markdowns.{markdown};
ghost use Rattle.msc_scanning.specs.Holding.{holding_by, holding_in, holding_of, is_markdown};
ghost use Rattle.msc_scanning.specs.Holding.{is_mermaid_text};

use msc_lexer::TEXT_LIMIT;
use msc_markdown::{Markdown, is_sequence_text};
use msc_mermaid::ImportFault;
use msc_scan::FileKind;
use std::alloc::{AllocError, Global};

/// What a text holds.
#[derive(Drop)]
pub(crate) enum Holding<'t> {
    /// Nothing to check.
    Nothing,
    Chart,
    /// A sequence diagram as a whole, or a text that is too long to look for some.
    Diagram,
    /// The sequence diagrams of Markdown.
    Blocks(Markdown<'t>),
}

/// Whether a file is Markdown by its name.
fn is_markdown(kind: Option<FileKind>) -> bool
    ensures { result ≡ is_markdown kind }
{
    match kind {
        Some(FileKind::Markdown) => true,
        Some(FileKind::Chart | FileKind::Mermaid) | None => false,
    }
}

/// Whether the text of a Mermaid file is a sequence diagram, or too long to say.
fn is_mermaid_text(alloc: Global, text: &[u8]) -> Result<bool, AllocError>
    ensures { IfOk result (λ is. is ≡ is_mermaid_text text.now) }
{
    if text.len() > TEXT_LIMIT {
        return Ok(true);
    }
    is_sequence_text(alloc, text)
}

/// What a text holds that was read as Markdown.
fn holding_in<'t>(kind: Option<FileKind>, found: Markdown<'t>) -> Holding<'t>
    ensures { result ≡ holding_in (is_markdown kind) found.entry }
{
    if found.is_diagram() {
        return Holding::Diagram;
    }
    if !found.numbers().is_empty() {
        return Holding::Blocks(found);
    }
    if is_markdown(kind) {
        Holding::Nothing
    } else {
        Holding::Chart
    }
}

/// What a text holds by its content.
fn holding_by<'t>(
    alloc: Global,
    kind: Option<FileKind>,
    text: &'t [u8],
) -> Result<Holding<'t>, AllocError>
    ensures { IfOk result (λ holding. holding
        ≡ holding_by (is_markdown kind) (markdown text.entry.now)) }
{
    match Markdown::of(alloc, text) {
        Ok(found) => Ok(holding_in(kind, found)),
        Err(ImportFault::Memory) => Err(AllocError),
        Err(_) if is_markdown(kind) => Ok(Holding::Diagram),
        Err(_) => Ok(Holding::Chart),
    }
}

/// What a text holds, by how its file is read: by the ending of its name, or by the content.
pub(crate) fn holding_of<'t>(
    alloc: Global,
    kind: Option<FileKind>,
    text: &'t [u8],
) -> Result<Holding<'t>, AllocError>
    ensures { IfOk result (λ holding. holding ≡ holding_of kind text.entry.now) }
{
    match kind {
        Some(FileKind::Chart) => Ok(Holding::Chart),
        Some(FileKind::Mermaid) => {
            if is_mermaid_text(alloc, text)? {
                Ok(Holding::Diagram)
            } else {
                Ok(Holding::Nothing)
            }
        }
        Some(FileKind::Markdown) | None => holding_by(alloc, kind, text),
    }
}
