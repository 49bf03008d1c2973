//! A refusal as lines for editors, on the output: its fixed line at its place, each note at its
//! own, and the further faults in the same way.

ghost use Rattle.std.specs.Prelude.{◌≡◌, ℕ, List, [], Option, ◌++◌, IfOk, OnOk};
ghost use Rattle.msc_answer.specs.Ending.{refusal_line};
ghost use Rattle.msc_answer.specs.Extending.{BeginsSo, Extends};
ghost use Rattle.msc_answer.specs.Refused.{mark_place, IsLinkPosition, IsRefusalText};
ghost use Rattle.msc_import_notes.specs.Places.{fault_line};
ghost use Rattle.msc_notes.specs.Texts.{error_text};
ghost use Rattle.msc_parser.specs.Parsing.{HasDraft};

use crate::ending::{Refusal, write_refusal};
use crate::notes::{diagram_text, notes_of_import, notes_of_parse};
use crate::own::LinkRefusal;
use crate::tasks::Task;
use msc_chart::ChartFault;
use msc_import::Refused;
use msc_import_notes::fault_line;
use msc_mark::MarkFault;
use msc_mermaid::ImportFault;
use msc_notes::writing::{write_error, write_note_line};
use msc_notes::{FaultNotes, Note, NotedFault, tell_chart, tell_further};
use msc_parser::laws::one_parsing;
use msc_parser::{Draft, ParseFault, parse};
use msc_place::writing::write_place;
use msc_place::{Lines, Places, Position};
use msc_print::Page;
use msc_report::Fault;
use std::alloc::{AllocError, Global};

/// Appends a refusal to a page: its line after the position of this place, if it has one.
fn print_error(
    page: &mut Page,
    file: &str,
    lines: &Lines<'_>,
    place: Option<usize>,
    refusal: Refusal<'_>,
) -> Result<(), AllocError>
    ensures { OnOk result (BeginsSo file.now lines.now place (refusal_line refusal.entry)
        page.old.bytes.items page.new.bytes.items) }
{
    if write_error(page, file.as_bytes(), lines, place).is_err() {
        return Err(AllocError);
    }
    match write_refusal(page, refusal) {
        Ok(()) => Ok(()),
        Err(_) => Err(AllocError),
    }
}

/// Appends a note on a fault at this place to a page.
fn print_note(
    page: &mut Page,
    file: &str,
    lines: &Lines<'_>,
    note: &Note,
    place: Option<usize>,
) -> Result<(), AllocError>
    ensures { OnOk result (Extends page.old.bytes.items page.new.bytes.items) }
{
    match write_note_line(page, file.as_bytes(), lines, note, place) {
        Ok(()) => Ok(()),
        Err(_) => Err(AllocError),
    }
}

/// Appends the notes on a fault to a page.
fn print_notes(
    page: &mut Page,
    file: &str,
    lines: &Lines<'_>,
    told: &FaultNotes,
) -> Result<(), AllocError>
    ensures { OnOk result (Extends page.old.bytes.items page.new.bytes.items) }
{
    for note in told.notes.as_slice() {
        print_note(page, file, lines, note, told.place)?;
    }
    Ok(())
}

/// Appends a refusal to a page, with its notes.
fn print_told(
    page: &mut Page,
    file: &str,
    lines: &Lines<'_>,
    told: &FaultNotes,
    refusal: Refusal<'_>,
) -> Result<(), AllocError>
    ensures { OnOk result ((more : List ℕ) × BeginsSo file.now lines.now told.now.place
        (refusal_line refusal.entry ++ more) page.old.bytes.items page.new.bytes.items) }
{
    print_error(page, file, lines, told.place, refusal)?;
    print_notes(page, file, lines, told)
}

/// Appends further faults to a page, each with its notes.
fn print_further(
    page: &mut Page,
    file: &str,
    lines: &Lines<'_>,
    further: &[NotedFault],
) -> Result<(), AllocError>
    ensures { OnOk result (Extends page.old.bytes.items page.new.bytes.items) }
{
    for other in further {
        let refusal = Refusal::Fault(Fault::Chart(other.fault));
        print_told(page, file, lines, &other.told, refusal)?;
    }
    Ok(())
}

/// The lines of the first fault of a text.
fn parse_lines(
    alloc: Global,
    task: Task<'_>,
    file: &str,
    text: &[u8],
    fault: ParseFault,
) -> Result<Page, AllocError>
    ensures { IfOk result (λ page. IsRefusalText file.now text.now
        (Refusal.Fault (Fault.Parse fault)) page.bytes.items) }
{
    let lines = Lines::of(alloc, text)?;
    let told = notes_of_parse(alloc, task, text, fault)?;
    let mut page = Page::new(alloc);
    let refusal = Refusal::Fault(Fault::Parse(fault));
    print_told(&mut page, file, &lines, &told, refusal)?;
    Ok(page)
}

/// The line of a refusal at this place, if it has one.
fn bare_lines(
    alloc: Global,
    file: &str,
    text: &[u8],
    place: Option<usize>,
    refusal: Refusal<'_>,
) -> Result<Page, AllocError>
    ensures { IfOk result (λ page. BeginsSo file.now text.now place (refusal_line refusal.entry)
        [] page.bytes.items) }
{
    let lines = Lines::of(alloc, text)?;
    let mut page = Page::new(alloc);
    print_error(&mut page, file, &lines, place, refusal)?;
    Ok(page)
}

/// The lines of a fault of a text's draft, and of the further faults.
fn draft_lines(
    alloc: Global,
    file: &str,
    text: &[u8],
    draft: &Draft,
    fault: ChartFault,
) -> Result<Page, AllocError>
    requires { HasDraft text.now draft.now }
    ensures { IfOk result (λ page. IsRefusalText file.now text.now
        (Refusal.Fault (Fault.Chart fault)) page.bytes.items) }
{
    one_parsing();
    let lines = Lines::of(alloc, text)?;
    let places = Places::of(alloc, text)?;
    let told = tell_chart(alloc, draft, &places, fault)?;
    let mut page = Page::new(alloc);
    let refusal = Refusal::Fault(Fault::Chart(fault));
    print_told(&mut page, file, &lines, &told, refusal)?;
    let further = tell_further(alloc, draft, &places, fault)?;
    print_further(&mut page, file, &lines, further.first.as_slice())?;
    Ok(page)
}

/// The lines of the first fault of a text's draft, and of the further faults. A text with such a
/// fault has a draft; only memory can run out when it is read again.
fn chart_lines(
    alloc: Global,
    file: &str,
    text: &[u8],
    fault: ChartFault,
) -> Result<Page, AllocError>
    ensures { IfOk result (λ page. IsRefusalText file.now text.now
        (Refusal.Fault (Fault.Chart fault)) page.bytes.items) }
{
    let Ok(draft) = parse(alloc, text) else {
        return Err(AllocError);
    };
    draft_lines(alloc, file, text, &draft, fault)
}

/// The place of a faulty comment.
pub(crate) fn mark_place(fault: MarkFault) -> Option<usize>
    ensures { result ≡ mark_place fault }
{
    match fault {
        MarkFault::Part(at) | MarkFault::Reason(at) => Some(at),
        MarkFault::Memory => None,
    }
}

/// Appends what precedes the line of a fault for editors to a page, at this position.
fn print_position(page: &mut Page, file: &str, position: Position) -> Result<(), AllocError>
    ensures { OnOk result (page.new.bytes.items
        ≡ page.old.bytes.items ++ error_text file.now position) }
{
    if write_place(page, file.as_bytes(), position).is_err() {
        return Err(AllocError);
    }
    page.bytes.extend_from_slice(b": error: ")?;
    Ok(())
}

/// The position of why there are no queues: the beginning of the text, if it has no place.
fn link_position(refused: LinkRefusal<'_>) -> Position
    ensures { IsLinkPosition refused.entry result }
{
    match refused {
        LinkRefusal::Given(_) => Position { line: 1, column: 1 },
        LinkRefusal::Text(_, place) | LinkRefusal::Unclear(place) => place.position,
    }
}

/// The line of a refusal at this position.
fn placed_lines(
    alloc: Global,
    file: &str,
    position: Position,
    refusal: Refusal<'_>,
) -> Result<Page, AllocError>
    ensures { IfOk result (λ page. page.bytes.items
        ≡ error_text file.now position ++ refusal_line refusal.entry) }
{
    let mut page = Page::new(alloc);
    print_position(&mut page, file, position)?;
    match write_refusal(&mut page, refusal) {
        Ok(()) => Ok(page),
        Err(_) => Err(AllocError),
    }
}

/// Appends why a text is not imported to a page: its line after this position.
fn print_import(
    page: &mut Page,
    file: &str,
    position: Position,
    refused: Refused,
) -> Result<(), AllocError>
    ensures { OnOk result (page.new.bytes.items ≡ page.old.bytes.items
        ++ (error_text file.now position ++ refusal_line (Refusal.Import refused))) }
{
    print_position(page, file, position)?;
    match write_refusal(page, Refusal::Import(refused)) {
        Ok(()) => Ok(()),
        Err(_) => Err(AllocError),
    }
}

/// The position of a fault of an import: that of its place, if it has one on its line, otherwise
/// the beginning of the line.
fn import_position(lines: &Lines<'_>, place: Option<usize>, fault: ImportFault) -> Position
    ensures { result.line ≡ fault_line fault }
{
    let line = fault_line(fault);
    if let Some(at) = place
        && at <= lines.text().len()
    {
        let column = lines.position(at).column;
        return Position { line, column };
    }
    Position { line, column: 1 }
}

/// Why a text is not imported, with its notes.
fn import_lines(
    alloc: Global,
    task: Task<'_>,
    file: &str,
    text: &[u8],
    refused: Refused,
) -> Result<Page, AllocError>
    ensures { IfOk result (λ page. IsRefusalText file.now text.now
        (Refusal.Import refused) page.bytes.items) }
{
    let plain = diagram_text(alloc, task, text)?;
    let lines = Lines::of(alloc, plain.as_slice())?;
    let told = notes_of_import(alloc, task, text, plain.as_slice(), refused.fault)?;
    let position = import_position(&lines, told.place, refused.fault);
    let mut page = Page::new(alloc);
    print_import(&mut page, file, position, refused)?;
    print_notes(&mut page, file, &lines, &told)?;
    Ok(page)
}

/// The lines of a fault of some phase.
fn fault_lines(
    alloc: Global,
    task: Task<'_>,
    file: &str,
    text: &[u8],
    fault: Fault,
) -> Result<Page, AllocError>
    ensures { IfOk result (λ page. IsRefusalText file.now text.now
        (Refusal.Fault fault) page.bytes.items) }
{
    let refusal = Refusal::Fault(fault);
    match fault {
        Fault::Parse(fault) => parse_lines(alloc, task, file, text, fault),
        Fault::Chart(fault) => chart_lines(alloc, file, text, fault),
        Fault::NotStarted(_) => bare_lines(alloc, file, text, None, refusal),
        Fault::Memory => bare_lines(alloc, file, text, None, refusal),
        Fault::Device => bare_lines(alloc, file, text, None, refusal),
    }
}

/// The lines of a refusal of the text of a file of this name. An error is a growth of memory that
/// was refused.
pub fn refusal_lines(
    alloc: Global,
    task: Task<'_>,
    file: &str,
    text: &[u8],
    refusal: Refusal<'_>,
) -> Result<Page, AllocError>
    ensures { IfOk result (λ page. IsRefusalText file.now text.now refusal.entry page.bytes.items) }
{
    match refusal {
        Refusal::Fault(fault) => fault_lines(alloc, task, file, text, fault),
        Refusal::Import(refused) => import_lines(alloc, task, file, text, refused),
        Refusal::Mark(fault) => bare_lines(alloc, file, text, mark_place(fault), refusal),
        Refusal::Pair(_) => bare_lines(alloc, file, text, None, refusal),
        Refusal::Instance(_) => bare_lines(alloc, file, text, None, refusal),
        Refusal::ArrowMark(refused) => placed_lines(alloc, file, refused.position, refusal),
        Refusal::Link(refused) => placed_lines(alloc, file, link_position(refused), refusal),
        Refusal::Rounds(_) => bare_lines(alloc, file, text, None, refusal),
    }
}
