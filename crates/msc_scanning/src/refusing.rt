//! Refusals of texts, and paths that fail, in the formats of a scan.

ghost use Rattle.std.specs.Prelude.{◌≡◌, ◌++◌, IfOk, OnOk, map};
ghost use Rattle.msc_place.specs.Texts.{shown_byte};
ghost use Rattle.msc_report.specs.Texts.{text_line};
ghost use Rattle.msc_scanning.specs.Refusing.{ended, AnswersRefusal, Grows, IsRefusalBlock};
ghost use Rattle.msc_scanning.specs.Refusing.{IsRefusalPage, IsRefusalText};

use crate::outcome::Outcome;
use crate::putting::{put_header, spent_fault};
use crate::words::Plan;
use msc_answer::{
    Format, Refusal, Request, Status, Task, is_spent, refusal_lines, refusal_words, write_notes,
    write_refusal,
};
use msc_place::writing::write_file;
use msc_print::Page;
use msc_report::Fault;
use std::alloc::{AllocError, Global};
use std::io::Write;

/// A text that is refused, with the names under which it is printed.
#[derive(Clone, Copy)]
pub(crate) struct Origin<'d> {
    /// The task for which it is read.
    pub task: Task<'d>,
    pub file: &'d str,
    /// The name of the file, with the number of a diagram in Markdown.
    pub label: &'d [u8],
    pub text: &'d [u8],
}

/// The end of a text that was not checked.
pub(crate) fn ended(status: Status) -> Outcome
    ensures { result ≡ ended status }
{
    Outcome {
        status,
        races: false,
        accepted: 0,
        silent: false,
        marked: false,
        help: None,
    }
}

/// The line of a text or a path with a word before it, in counts.
pub(crate) fn counted_line(alloc: Global, word: &[u8], label: &[u8]) -> Result<Page, AllocError>
    ensures { IfOk result (λ page. page.bytes.items
        ≡ word.now ++ text_line (map shown_byte label.now)) }
{
    let mut page = Page::new(alloc);
    page.bytes.extend_from_slice(word)?;
    if write_file(&mut page, label).is_err() {
        return Err(AllocError);
    }
    page.bytes.push(b'\n')?;
    Ok(page)
}

/// Appends the notes on a refusal, if they are requested.
fn print_notes(
    alloc: Global,
    plan: Plan<'_>,
    origin: Origin<'_>,
    refusal: Refusal<'_>,
    page: &mut Page,
) -> Result<(), AllocError>
    ensures { OnOk result (Grows page.old.bytes.items page.new.bytes.items) }
{
    if !plan.args.notes {
        return Ok(());
    }
    let request = Request {
        task: origin.task,
        file: origin.file,
        notes: true,
    };
    let mut notes = Page::new(alloc);
    if write_notes(alloc, &mut notes, request, origin.text, refusal).is_err() {
        return Err(AllocError);
    }
    page.bytes.extend_from_slice(notes.bytes.as_slice())
}

/// The refusal of a text in text: the line of its name, its fixed line, and notes if they are
/// requested.
fn refusal_text(
    alloc: Global,
    plan: Plan<'_>,
    origin: Origin<'_>,
    refusal: Refusal<'_>,
) -> Result<Page, AllocError>
    ensures { IfOk result (λ page.
        IsRefusalText plan.entry origin.entry.label.now refusal.entry page.bytes.items) }
{
    let mut page = Page::new(alloc);
    let put = put_header(plan, origin.label, false, &mut page);
    if put.is_err() || write_refusal(&mut page, refusal).is_err() {
        return Err(AllocError);
    }
    print_notes(alloc, plan, origin, refusal, &mut page)?;
    Ok(page)
}

/// The refusal of a text as people read it, with an empty line after it.
fn refusal_block(
    alloc: Global,
    plan: Plan<'_>,
    origin: Origin<'_>,
    refusal: Refusal<'_>,
) -> Result<Page, AllocError>
    ensures { IfOk result (λ page.
        IsRefusalBlock plan.entry origin.entry.file.now origin.entry.text.now refusal.entry page.bytes.items) }
{
    let Origin {
        task,
        file,
        text,
        ..
    } = origin;
    let colours = plan.args.words.check_args.colours;
    let mut page = refusal_words(alloc, task, colours, file, text, refusal)?;
    page.bytes.push(b'\n')?;
    Ok(page)
}

/// The refusal of a text in the format of a scan.
fn refusal_page(
    alloc: Global,
    plan: Plan<'_>,
    origin: Origin<'_>,
    refusal: Refusal<'_>,
) -> Result<Page, AllocError>
    ensures { IfOk result (λ page. IsRefusalPage plan.entry origin.entry.label.now origin.entry.file.now
        origin.entry.text.now refusal.entry page.bytes.items) }
{
    let Origin {
        task,
        file,
        label,
        text,
    } = origin;
    if plan.args.words.quiet {
        return Ok(Page::new(alloc));
    }
    match plan.args.words.check_args.format {
        Format::Text => refusal_text(alloc, plan, origin, refusal),
        Format::Count => counted_line(alloc, b"refused ", label),
        Format::Lines => refusal_lines(alloc, task, file, text, refusal),
        Format::Full => refusal_block(alloc, plan, origin, refusal),
    }
}

/// Writes the refusal of a text. If nothing is refused, it is the fault for which the scan ends.
pub(crate) fn put_refusal<O: Write>(
    alloc: Global,
    plan: Plan<'_>,
    origin: Origin<'_>,
    refusal: Refusal<'_>,
    output: &mut O,
) -> Result<Outcome, Fault>
    ensures { AnswersRefusal O.contents plan.entry origin.entry.label.now origin.entry.file.now origin.entry.text.now
        refusal.entry result output.old output.new }
{
    if is_spent(refusal) {
        return Err(spent_fault(refusal));
    }
    let page = refusal_page(alloc, plan, origin, refusal)?;
    output.write_all(page.bytes.as_slice())?;
    Ok(ended(Status::Refused))
}
