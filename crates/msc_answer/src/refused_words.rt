//! A refusal of a chart or a diagram as people read it, on the output.
//!
//! A diagram is shown with LF at each end of a line, so that its places are those of `msc_import_notes`.
//! In Markdown the line that closes its refusal names the first line of its block.

ghost use Rattle.std.specs.Prelude.{◌≡◌, IfOk};
ghost use Rattle.std.specs.String.{string_bytes};
ghost use Rattle.msc_answer.specs.RefusedWords.{closing_text, comment_span, has_words};
ghost use Rattle.msc_answer.specs.RefusedWords.{link_said, mark_said, mark_slip, IsArrowMarkSaid};
ghost use Rattle.msc_answer.specs.RefusedWords.{AreWords, IsDiagramRefusal, IsFaultSaid};
ghost use Rattle.msc_answer.specs.RefusedWords.{IsImportSaid, IsLabel, IsLinkSaid, IsSaid};
ghost use Rattle.msc_answer.specs.RefusedWords.{IsTextSaid};
ghost use Rattle.msc_refusals.specs.Answers.{IsBlock, IsPlaceSaid};

use crate::arrow_marks::RefusedMark;
use crate::ending::Refusal;
use crate::importing::fence_of;
use crate::notes::{diagram_text, notes_of_import, notes_of_parse};
use crate::own::LinkRefusal;
use crate::shown_diagram::{line_in, with_line};
use crate::tasks::{DiagramArgs, Task};
use msc_arrow_marks::{FaultyMark, Slip};
use msc_chart::ChartFault;
use msc_diagnostic::{LineEnds, Source};
use msc_fault_words::{
    FaultWords, MarkSlip, Span, cause_of, instance_words, link_words, mark_words, memory_words,
    queues_words, reading_words, rounds_words, words_text,
};
use msc_import::Refused;
use msc_import_notes::{ToldText, import_spans, line_span, with_plain_lines};
use msc_import_words::import_words;
use msc_mark::MarkFault;
use msc_parser::{ParseFault, parse};
use msc_place::Lines;
use msc_print::Page;
use msc_refusals::{RefusedText, draft_refusal, parse_refusal, words_refusal};
use msc_report::Fault;
use msc_shown_chart::{file_said, position_said, text_end};
use msc_wording::{closing_line, refused_verdict};
use std::alloc::{AllocError, Global};
use std::io;

/// Whether the output gets words for a refusal.
pub(crate) fn has_words(refusal: Refusal<'_>) -> bool
    ensures { result ≡ has_words refusal.entry }
{
    match refusal {
        Refusal::Fault(Fault::Parse(_)) | Refusal::Fault(Fault::Chart(_)) => true,
        Refusal::Fault(_) | Refusal::Pair(_) => false,
        Refusal::Mark(_) | Refusal::ArrowMark(_) | Refusal::Instance(_) => true,
        Refusal::Link(_) | Refusal::Rounds(_) | Refusal::Import(_) => true,
    }
}

/// The text of the comment at this place.
fn comment_span(text: &[u8], at: usize) -> Span
    ensures { result ≡ comment_span text.now at }
{
    Span {
        first: at,
        past: text_end(text, at),
    }
}

/// The words for a faulty mark.
fn mark_said(alloc: Global, text: &[u8], fault: MarkFault) -> Result<FaultWords, AllocError>
    ensures { IfOk result (λ words. words ≡ mark_said text.now fault) }
{
    match fault {
        MarkFault::Part(at) => mark_words(alloc, MarkSlip::Part, comment_span(text, at)),
        MarkFault::Reason(at) => mark_words(alloc, MarkSlip::Reason, comment_span(text, at)),
        MarkFault::Memory => memory_words(alloc),
    }
}

/// The words for why there are no queues.
fn link_said(alloc: Global, text: &[u8], refused: LinkRefusal<'_>) -> Result<FaultWords, AllocError>
    ensures { IfOk result (λ words. words ≡ link_said text.now refused.entry) }
{
    match refused {
        LinkRefusal::Given(fault) => link_words(alloc, fault, None),
        LinkRefusal::Text(fault, place) => {
            link_words(alloc, fault, Some(comment_span(text, place.at)))
        }
        LinkRefusal::Unclear(place) => queues_words(alloc, comment_span(text, place.at)),
    }
}

/// The first fault of a text.
fn parse_said(
    alloc: Global,
    task: Task<'_>,
    refused: RefusedText<'_>,
    fault: ParseFault,
) -> Result<Vec<u8>, AllocError>
    ensures { IfOk result (λ bytes.
        IsFaultSaid refused.entry (Fault.Parse fault) bytes.items) }
{
    let told = notes_of_parse(alloc, task, refused.text, fault)?;
    parse_refusal(alloc, refused, fault, &told)
}

/// The faults of a text's draft. A text with such a fault has a draft; only memory can run out when
/// it is read again.
fn chart_said(
    alloc: Global,
    refused: RefusedText<'_>,
    fault: ChartFault,
) -> Result<Vec<u8>, AllocError>
    ensures { IfOk result (λ bytes.
        IsFaultSaid refused.entry (Fault.Chart fault) bytes.items) }
{
    let Ok(draft) = parse(alloc, refused.text) else {
        return Err(AllocError);
    };
    draft_refusal(alloc, refused, &draft, fault)
}

/// A fault of some phase.
fn fault_said(
    alloc: Global,
    task: Task<'_>,
    refused: RefusedText<'_>,
    fault: Fault,
) -> Result<Vec<u8>, AllocError>
    ensures { IfOk result (λ bytes. IsFaultSaid refused.entry fault bytes.items) }
{
    match fault {
        Fault::Parse(fault) => parse_said(alloc, task, refused, fault),
        Fault::Chart(fault) => chart_said(alloc, refused, fault),
        Fault::NotStarted(_) | Fault::Memory | Fault::Device => Ok(Vec::new(alloc)),
    }
}

/// The diagram of a check or of an analysis, unless its text is a chart.
fn diagram_of<'w>(task: Task<'w>) -> Option<DiagramArgs<'w>> {
    match task {
        Task::Chart(_, words) => Some(words.diagram?.diagram),
        Task::Scenarios(words) => Some(words.diagram),
        _ => None,
    }
}

/// The number of the diagram that a task takes from Markdown, if it is given.
fn fence_in(task: Task<'_>) -> Option<usize> {
    fence_of(diagram_of(task)?.fence)
}

/// The name of a file in the line that closes the refusal of its diagram.
fn label_of(alloc: Global, task: Task<'_>, refused: RefusedText<'_>) -> Result<String, AllocError>
    ensures { IfOk result (λ label. IsLabel refused.entry.file.now (string_bytes label)) }
{
    let line = line_in(alloc, fence_in(task), refused.text)?;
    with_line(alloc, refused.file, line)
}

/// A place of a text with these lines as it is printed, or else its file.
fn place_said(
    alloc: Global,
    file: &str,
    lines: &Lines<'_>,
    place: Option<usize>,
) -> Result<String, AllocError>
    ensures { IfOk result (λ said. IsPlaceSaid file.now lines.now place (string_bytes said)) }
{
    match place {
        Some(at) => {
            let inside = at.min(lines.text().len());
            position_said(alloc, file, lines.position(inside))
        }
        None => String::from_str(alloc, file),
    }
}

/// A fault in words, as a diagnostic with an empty row after it.
fn block_of(
    alloc: Global,
    shown: RefusedText<'_>,
    words: &FaultWords,
) -> Result<Vec<u8>, AllocError>
    ensures { IfOk result (λ bytes. IsBlock shown.entry words.now bytes.items) }
{
    let source = Source::new(alloc, shown.text, LineEnds::LineFeed)?;
    let lines = Lines::of(alloc, shown.text)?;
    let place = place_said(alloc, shown.file, &lines, words.place())?;
    let bytes = words_text(alloc, &source, Some(place.as_str()), words, shown.colours)?;
    Ok(bytes)
}

/// The line that closes a refusal.
fn closing_text(alloc: Global, label: &str, colours: bool) -> Result<String, AllocError>
    ensures { IfOk result (λ line. string_bytes line ≡ closing_text label.now colours) }
{
    let verdict = refused_verdict(alloc, 0)?;
    let mut line = closing_line(alloc, label, verdict.as_str(), colours)?;
    line.push_str("\n")?;
    Ok(line)
}

/// The refusal of a diagram for one fault, whose places are those of the text with LF at each end of a
/// line: its diagnostic, and the line that closes it.
fn diagram_refusal(
    alloc: Global,
    task: Task<'_>,
    refused: RefusedText<'_>,
    words: &FaultWords,
) -> Result<Vec<u8>, AllocError>
    ensures { IfOk result (λ bytes. IsDiagramRefusal refused.entry words.now bytes.items) }
{
    let label = label_of(alloc, task, refused)?;
    let plain = with_plain_lines(alloc, refused.text)?;
    let shown = RefusedText {
        file: refused.file,
        text: plain.as_slice(),
        colours: refused.colours,
    };
    let mut bytes = block_of(alloc, shown, words)?;
    let closing = closing_text(alloc, label.as_str(), refused.colours)?;
    bytes.extend_from_slice(closing.as_bytes())?;
    Ok(bytes)
}

/// The words for why a diagram is not imported.
fn import_said(
    alloc: Global,
    task: Task<'_>,
    text: &[u8],
    refused: Refused,
) -> Result<FaultWords, AllocError>
    ensures { IfOk result (IsImportSaid refused) }
{
    let whole = with_plain_lines(alloc, text)?;
    let diagram = diagram_text(alloc, task, text)?;
    let told = notes_of_import(alloc, task, text, diagram.as_slice(), refused.fault)?;
    let texts = ToldText {
        whole: whole.as_slice(),
        diagram: diagram.as_slice(),
        told: &told,
    };
    let name = refused.name.as_slice();
    let spans = import_spans(alloc, texts, refused.fault, name)?;
    import_words(alloc, refused.fault, name, &told, spans.as_slice())
}

/// The slip of a faulty mark of a diagram, as [`mark_words`] takes it.
fn mark_slip(slip: Slip) -> MarkSlip
    ensures { result ≡ mark_slip slip }
{
    match slip {
        Slip::Part => MarkSlip::Part,
        Slip::Reason => MarkSlip::Reason,
        Slip::Label => MarkSlip::Label,
        Slip::Second => MarkSlip::Second,
    }
}

/// The words for a faulty mark of a diagram of this text.
fn arrow_mark_said(
    alloc: Global,
    text: &[u8],
    refused: RefusedMark,
) -> Result<FaultWords, AllocError>
    ensures { IfOk result (IsArrowMarkSaid text.now refused) }
{
    let FaultyMark { slip, span } = refused.fault;
    let first = line_span(alloc, text, span.first)?.first;
    // it stands on one line, so it has as many bytes in the text with other line ends
    let past = first.saturating_add(span.past.saturating_sub(span.first));
    mark_words(alloc, mark_slip(slip), Span { first, past })
}

/// The words for why there are no queues for a diagram.
fn diagram_link(
    alloc: Global,
    text: &[u8],
    refused: LinkRefusal<'_>,
) -> Result<FaultWords, AllocError>
    ensures { IfOk result (IsLinkSaid text.now refused.entry) }
{
    match refused {
        LinkRefusal::Given(fault) => link_words(alloc, fault, None),
        LinkRefusal::Text(fault, place) => {
            let span = line_span(alloc, text, place.at)?;
            link_words(alloc, fault, Some(span))
        }
        LinkRefusal::Unclear(place) => {
            let span = line_span(alloc, text, place.at)?;
            queues_words(alloc, span)
        }
    }
}

/// A refusal for a fault that has no place in the text, of a chart or a diagram.
fn text_said(
    alloc: Global,
    task: Task<'_>,
    refused: RefusedText<'_>,
    words: &FaultWords,
) -> Result<Vec<u8>, AllocError>
    ensures { IfOk result (λ bytes. IsTextSaid refused.entry words.now bytes.items) }
{
    match diagram_of(task) {
        Some(_) => diagram_refusal(alloc, task, refused, words),
        None => words_refusal(alloc, refused, words),
    }
}

/// A refusal for want of queues, of a chart or a diagram.
fn queues_said(
    alloc: Global,
    task: Task<'_>,
    refused: RefusedText<'_>,
    why: LinkRefusal<'_>,
) -> Result<Vec<u8>, AllocError>
    ensures { IfOk result (λ bytes. IsSaid refused.entry (Refusal.Link why.entry) bytes.items) }
{
    match diagram_of(task) {
        Some(_) => {
            let words = diagram_link(alloc, refused.text, why)?;
            diagram_refusal(alloc, task, refused, &words)
        }
        None => {
            let words = link_said(alloc, refused.text, why)?;
            words_refusal(alloc, refused, &words)
        }
    }
}

/// A refusal of a text; nothing, if there are no words for it.
fn said(
    alloc: Global,
    task: Task<'_>,
    refused: RefusedText<'_>,
    refusal: Refusal<'_>,
) -> Result<Vec<u8>, AllocError>
    ensures { IfOk result (λ bytes. IsSaid refused.entry refusal.entry bytes.items) }
{
    match refusal {
        Refusal::Fault(fault) => fault_said(alloc, task, refused, fault),
        Refusal::Mark(fault) => {
            let words = mark_said(alloc, refused.text, fault)?;
            words_refusal(alloc, refused, &words)
        }
        Refusal::ArrowMark(fault) => {
            let words = arrow_mark_said(alloc, refused.text, fault)?;
            diagram_refusal(alloc, task, refused, &words)
        }
        Refusal::Link(why) => queues_said(alloc, task, refused, why),
        Refusal::Instance(name) => {
            let words = instance_words(alloc, name)?;
            text_said(alloc, task, refused, &words)
        }
        Refusal::Rounds(fault) => {
            let words = rounds_words(alloc, fault)?;
            text_said(alloc, task, refused, &words)
        }
        Refusal::Import(fault) => {
            let words = import_said(alloc, task, refused.text, fault)?;
            diagram_refusal(alloc, task, refused, &words)
        }
        Refusal::Pair(_) => Ok(Vec::new(alloc)),
    }
}

/// A refusal of the text of a file of this name as people read it, with or without colours. An error
/// is a growth of memory that was refused.
pub fn refusal_words(
    alloc: Global,
    task: Task<'_>,
    colours: bool,
    file: &str,
    text: &[u8],
    refusal: Refusal<'_>,
) -> Result<Page, AllocError>
    ensures { IfOk result (λ page.
        AreWords colours file.now text.now refusal.entry page.bytes.items) }
{
    let file = file_said(alloc, file.as_bytes())?;
    let refused = RefusedText {
        file: file.as_str(),
        text,
        colours,
    };
    let bytes = said(alloc, task, refused, refusal)?;
    Ok(Page { bytes })
}

/// That the file of this name cannot be read, and why, as people read it.
pub fn unread_words(
    alloc: Global,
    colours: bool,
    file: &str,
    error: &io::Error,
) -> Result<Vec<u8>, AllocError> {
    let cause = format!(in alloc; "{error}")?;
    let file = file_said(alloc, file.as_bytes())?;
    let words = reading_words(alloc, file.as_str(), cause_of(cause.as_str()))?;
    let source = Source::new(alloc, b"", LineEnds::LineFeed)?;
    let bytes = words_text(alloc, &source, None, &words, colours)?;
    Ok(bytes)
}
