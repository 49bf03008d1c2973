//! A diagram as its findings show it: the words of its lines and arrows, and the names in its closing
//! line.

ghost use Rattle.std.specs.Prelude.{◌≡◌, IfOk};
ghost use Rattle.std.specs.String.{string_bytes};
ghost use Rattle.msc_answer.specs.ShownDiagrams.{block_line, diagram_line, first_line, label_of};
ghost use Rattle.msc_answer.specs.ShownDiagrams.{line_in, with_line, IsShownDiagram};

use msc_chart::{Chart, Queues};
use msc_findings::ClosingNames;
use msc_markdown::{BlockKind, Markdown, Start};
use msc_mermaid::{Diagram, ImportFault, Span};
use msc_shown_chart::file_said;
use msc_shown_diagram::{DiagramWords, queues_said};
use std::alloc::{AllocError, Global};

/// A diagram of a text.
#[derive(Clone, Copy)]
pub struct DiagramText<'d> {
    /// The name of the file.
    pub file: &'d str,
    pub text: &'d [u8],
    pub diagram: &'d Diagram,
    /// The first line of its block, if the text is Markdown.
    pub line: Option<usize>,
}

/// The first line of a block.
fn first_line(start: Start) -> usize
    ensures { result ≡ first_line start }
{
    match start.kind {
        BlockKind::Markup | BlockKind::Stray => start.line,
        BlockKind::Fenced => start.line.saturating_add(1),
    }
}

/// The first line of the block with this number, from 1, if there is one.
pub fn block_line(found: &Markdown<'_>, number: usize) -> Option<usize>
    ensures { result ≡ block_line found.now.blocks number }
{
    let Some(index) = number.checked_sub(1) else {
        return None;
    };
    match found.blocks().get(index) {
        Some(start) => Some(first_line(*start)),
        None => None,
    }
}

/// The first line of the block of the diagram that is taken from a text: of the given number, or
/// that of the only one; none, if the text is a diagram as a whole.
fn diagram_line(found: &Markdown<'_>, number: Option<usize>) -> Option<usize>
    ensures { result ≡ diagram_line found.now number }
{
    if let Some(number) = number {
        return block_line(found, number);
    }
    match found.numbers() {
        [only] if !found.is_diagram() => block_line(found, *only),
        _ => None,
    }
}

/// The first line of the block of the diagram that is taken from a text, if it stands in one: of the
/// one with the given number, or else of the only one. The only error is want of memory.
pub(crate) fn line_in(
    alloc: Global,
    number: Option<usize>,
    text: &[u8],
) -> Result<Option<usize>, AllocError>
    ensures { IfOk result (λ line. line ≡ line_in number text.now) }
{
    match Markdown::of(alloc, text) {
        Ok(found) => Ok(diagram_line(&found, number)),
        Err(ImportFault::Memory) => Err(AllocError),
        Err(_) => Ok(None),
    }
}

/// A name of a file as people read it, with a line if there is one.
#[tactic(auto, unfolding(crate::specs::ShownDiagrams::with_line))]
pub(crate) fn with_line(
    alloc: Global,
    said: &str,
    line: Option<usize>,
) -> Result<String, AllocError>
    ensures { IfOk result (λ label. string_bytes label ≡ with_line said.now line) }
{
    match line {
        Some(line) => format!(in alloc; "{said}:{line}"),
        None => String::from_str(alloc, said),
    }
}

/// The name of the file in the closing line of a diagram: with the first line of its block, if it
/// stands in one.
fn label_of(alloc: Global, file: &str, line: Option<usize>) -> Result<String, AllocError>
    ensures { IfOk result (λ label. string_bytes label ≡ label_of file.now line) }
{
    let file = file_said(alloc, file.as_bytes())?;
    with_line(alloc, file.as_str(), line)
}

/// The words of a diagram, and the names in its closing line.
#[derive(Drop)]
pub(crate) struct ShownDiagram {
    pub words: DiagramWords,
    pub label: String,
    pub queues: String,
}

impl ShownDiagram {
    /// The words of a diagram under an architecture between the instances of a chart of it.
    /// `shown` are the places of the shown names of its lines.
    pub fn of(
        alloc: Global,
        told: DiagramText<'_>,
        shown: &[Option<Span>],
        chart: &Chart,
        queues: Queues,
    ) -> Result<ShownDiagram, AllocError>
        ensures { IfOk result (IsShownDiagram told.entry shown.now chart.now queues) }
    {
        let words = DiagramWords::of(alloc, told.diagram, shown, told.file.as_bytes(), told.text)?;
        let label = label_of(alloc, told.file, told.line)?;
        let lines = told.diagram.lines.as_slice();
        let queues = queues_said(alloc, lines, chart, queues)?;
        Ok(ShownDiagram {
            words,
            label,
            queues,
        })
    }

    /// The names in the closing line, with or without colours.
    pub fn names(&self, colours: bool) -> ClosingNames<'_>
        ensures file { result.file.now ≡ string_bytes self.entry.now.label }
        ensures queues { result.queues.now ≡ string_bytes self.entry.now.queues }
        ensures colours { result.colours ≡ colours }
    {
        ClosingNames {
            file: self.label.as_str(),
            queues: self.queues.as_str(),
            colours,
        }
    }
}
