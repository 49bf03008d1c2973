//! The notes on a refusal, which follow its line: its place in the text, and hints.
//!
//! `msc_notes` and `msc_import_notes` say in their contracts what a note is about. If memory runs
//! out or a write fails, the line of the refusal is printed without notes, or with the first of
//! them.

ghost use Rattle.std.specs.Prelude.{◌≡◌, IfOk, IfSome};
ghost use Rattle.msc_import_notes.specs.Places.{fault_line, IsOnLine};
ghost use Rattle.msc_notes.specs.Faults.{parse_place};
ghost use Rattle.msc_parser.specs.Parsing.{HasParseFault};

use crate::choices::rounds_of;
use crate::ending::Refusal;
use crate::importing::fence_of;
use crate::own::LinkRefusal;
use crate::refused::mark_place;
use crate::tasks::{ChartCommand, DiagramArgs, Request, Task};
use listed::Listed;
use msc_chart::ChartFault;
use msc_import::Refused;
use msc_import_notes::{
    block_text, is_sequence_diagram, tell_import, tell_other_way, tell_scenarios, with_block_notes,
    with_plain_lines, with_whole_lines,
};
use msc_markdown::Markdown;
use msc_mermaid::ImportFault;
use msc_notes::writing::{write_fault_notes, write_further};
use msc_notes::{FaultNotes, tell_chart, tell_further, tell_parse};
use msc_parser::{ParseFault, parse};
use msc_place::writing::write_file;
use msc_place::{Lines, Places, excerpt};
use msc_report::{Fault, write_fault};
use std::alloc::{AllocError, Global};
use std::io;
use std::io::Write;

/// Writes the notes on a fault of a text with these lines.
fn write_told_of<E: Write>(
    alloc: Global,
    faults: &mut E,
    file: &str,
    lines: &Lines,
    told: &FaultNotes,
) -> io::Result<()> {
    let text = lines.text();
    let shown = match told.place {
        Some(at) if at <= text.len() => excerpt(alloc, text, at)?,
        _ => Vec::new(alloc),
    };
    write_fault_notes(faults, file.as_bytes(), lines, told, shown.as_slice())
}

/// Whether the task is that of `msc check`.
fn is_check(task: Task<'_>) -> bool {
    matches!(
        task,
        Task::Chart(ChartCommand::Check(_) | ChartCommand::Quiet(_), _)
    )
}

/// The notes on the first fault of a text. If the text is a diagram, they say what reads it.
pub(crate) fn notes_of_parse(
    alloc: Global,
    task: Task<'_>,
    text: &[u8],
    fault: ParseFault,
) -> Result<FaultNotes, AllocError>
    ensures { IfOk result (λ told. HasParseFault text.now fault → told.place ≡ parse_place fault) }
{
    let told = tell_parse(alloc, text, fault)?;
    if is_sequence_diagram(alloc, text)? {
        return tell_other_way(alloc, told, is_check(task));
    }
    Ok(told)
}

/// Writes the notes on the first fault of a text.
fn write_parse_notes<E: Write>(
    alloc: Global,
    faults: &mut E,
    request: Request<'_>,
    text: &[u8],
    fault: ParseFault,
) -> io::Result<()> {
    let file = request.file;
    let lines = Lines::of(alloc, text)?;
    let told = notes_of_parse(alloc, request.task, text, fault)?;
    write_told_of(alloc, faults, file, &lines, &told)
}

/// Writes the line of a fault of a draft.
fn write_line<E: Write>(faults: &mut E, fault: ChartFault) -> io::Result<()> {
    write_fault(faults, &Fault::Chart(fault))
}

/// Writes the notes on the first fault of a text's draft, and the further faults.
fn write_chart_notes<E: Write>(
    alloc: Global,
    faults: &mut E,
    file: &str,
    text: &[u8],
    fault: ChartFault,
) -> io::Result<()> {
    let Ok(draft) = parse(alloc, text) else {
        return Ok(());
    };
    let lines = Lines::of(alloc, text)?;
    let places = Places::of(alloc, text)?;
    let told = tell_chart(alloc, &draft, &places, fault)?;
    write_told_of(alloc, faults, file, &lines, &told)?;
    let further = tell_further(alloc, &draft, &places, fault)?;
    write_further(faults, file.as_bytes(), &lines, &further, write_line)
}

/// Writes a place of a text, if there is one.
fn write_place_notes<E: Write>(
    alloc: Global,
    faults: &mut E,
    file: &str,
    text: &[u8],
    place: Option<usize>,
) -> io::Result<()> {
    let lines = Lines::of(alloc, text)?;
    let told = FaultNotes {
        place,
        notes: Listed::from_vec(Vec::new(alloc)),
    };
    write_told_of(alloc, faults, file, &lines, &told)
}

/// Writes the place of a comment of a diagram. Its lines may end in other ways than by LF.
fn write_line_notes<E: Write>(
    alloc: Global,
    faults: &mut E,
    file: &str,
    text: &[u8],
    at: usize,
) -> io::Result<()> {
    let before = with_plain_lines(alloc, &text[..at.min(text.len())])?;
    let plain = with_plain_lines(alloc, text)?;
    write_place_notes(alloc, faults, file, plain.as_slice(), Some(before.len()))
}

/// The diagram of a task, if its text is one.
fn diagram_in<'w>(task: Task<'w>) -> Option<DiagramArgs<'w>> {
    match task {
        Task::Read(chosen) => Some(chosen?.diagram),
        Task::Chart(_, words) | Task::Draw(_, words) => Some(words.diagram?.diagram),
        Task::Import(words) => Some(words.chosen.diagram),
        Task::Scenarios(words) => Some(words.diagram),
        Task::Report(words) => Some(words.diagram),
    }
}

/// Writes the place of why there are no queues, if it has one.
fn write_link_notes<E: Write>(
    alloc: Global,
    faults: &mut E,
    request: Request<'_>,
    text: &[u8],
    refused: LinkRefusal<'_>,
) -> io::Result<()> {
    let at = match refused {
        LinkRefusal::Given(_) => return Ok(()),
        LinkRefusal::Text(_, place) | LinkRefusal::Unclear(place) => place.at,
    };
    match diagram_in(request.task) {
        Some(_) => write_line_notes(alloc, faults, request.file, text, at),
        None => write_place_notes(alloc, faults, request.file, text, Some(at)),
    }
}

/// The number of the diagram that a task takes from Markdown, if it is given.
fn fence_in(task: Task<'_>) -> Option<usize> {
    fence_of(diagram_in(task)?.fence)
}

/// The diagrams of a text, unless it is too long.
fn held(alloc: Global, text: &[u8]) -> Result<Option<Markdown<'_>>, AllocError> {
    match Markdown::of(alloc, text) {
        Ok(found) => Ok(Some(found)),
        Err(ImportFault::Memory) => Err(AllocError),
        Err(_) => Ok(None),
    }
}

/// The number of the block that a task takes from a text: the one that it names, or the only one.
fn number_in(task: Task<'_>, found: &Markdown<'_>) -> Option<usize> {
    if let Some(number) = fence_in(task) {
        return Some(number);
    }
    match found.numbers() {
        [number] if !found.is_diagram() => Some(*number),
        _ => None,
    }
}

/// The text of the diagram that a task takes from a text, with its bytes at their places.
pub(crate) fn diagram_text(
    alloc: Global,
    task: Task<'_>,
    text: &[u8],
) -> Result<Vec<u8>, AllocError> {
    let Some(found) = held(alloc, text)? else {
        return with_plain_lines(alloc, text);
    };
    match number_in(task, &found) {
        Some(number) => block_text(alloc, &found, number),
        None => with_plain_lines(alloc, text),
    }
}

/// The notes on a fault of an import of a text. `plain` is the text of its diagram.
pub(crate) fn notes_of_import(
    alloc: Global,
    task: Task<'_>,
    text: &[u8],
    plain: &[u8],
    fault: ImportFault,
) -> Result<FaultNotes, AllocError>
    ensures { IfOk result (λ told. IfSome told.place
        (λ at. IsOnLine plain.now (fault_line fault) at)) }
{
    let told = match (fault, task) {
        (ImportFault::TooManyScenarios(_), Task::Scenarios(words)) => {
            let rounds = rounds_of(alloc, words.rounds)?;
            tell_scenarios(alloc, plain, words.diagram.cross, rounds.as_slice())?
        }
        _ => tell_import(alloc, plain, fault)?,
    };
    let whole = with_plain_lines(alloc, text)?;
    let told = with_whole_lines(alloc, whole.as_slice(), plain, told)?;
    match held(alloc, text)? {
        Some(found) => with_block_notes(alloc, &found, fence_in(task), fault, told),
        None => Ok(told),
    }
}

/// Writes the notes on a refused import.
fn write_import_notes<E: Write>(
    alloc: Global,
    faults: &mut E,
    request: Request<'_>,
    text: &[u8],
    refused: Refused,
) -> io::Result<()> {
    let plain = diagram_text(alloc, request.task, text)?;
    let told = notes_of_import(alloc, request.task, text, plain.as_slice(), refused.fault)?;
    let whole = with_plain_lines(alloc, text)?;
    let lines = Lines::of(alloc, whole.as_slice())?;
    write_told_of(alloc, faults, request.file, &lines, &told)
}

/// Writes the notes on a refusal of a request.
pub fn write_notes<E: Write>(
    alloc: Global,
    faults: &mut E,
    request: Request<'_>,
    text: &[u8],
    refusal: Refusal<'_>,
) -> io::Result<()> {
    let file = request.file;
    match refusal {
        Refusal::Fault(Fault::Parse(fault)) => {
            write_parse_notes(alloc, faults, request, text, fault)
        }
        Refusal::Fault(Fault::Chart(fault)) => write_chart_notes(alloc, faults, file, text, fault),
        Refusal::Import(refused) => write_import_notes(alloc, faults, request, text, refused),
        Refusal::Mark(fault) => write_place_notes(alloc, faults, file, text, mark_place(fault)),
        Refusal::ArrowMark(refused) => {
            write_line_notes(alloc, faults, file, text, refused.fault.span.first)
        }
        Refusal::Link(refused) => write_link_notes(alloc, faults, request, text, refused),
        _ => Ok(()),
    }
}

/// Writes why a file could not be opened or read.
pub fn write_cause<E: Write>(faults: &mut E, file: &str, error: &io::Error) -> io::Result<()> {
    faults.write_all(b"file ")?;
    write_file(faults, file.as_bytes())?;
    writeln!(faults, ": {error}")
}
