//! The lines that follow the answers on all diagrams.

ghost use Rattle.std.specs.Prelude.{[], ◌≡◌, ◌++◌, ◌||◌, OnOk, codes, cond};
ghost use Rattle.msc_scanning.specs.LastLines.{accepted_text, all_of, answered, checked_text};
ghost use Rattle.msc_scanning.specs.LastLines.{diagrams_text, failed_text, files_text, first_parts};
ghost use Rattle.msc_scanning.specs.LastLines.{last_text, number_of, other_parts, part_text};
ghost use Rattle.msc_scanning.specs.LastLines.{end_text, help_text, note_rest, note_text};
ghost use Rattle.msc_scanning.specs.LastLines.{said_text, silent_text, total_text, verdict_text};

use crate::tally::Tally;
use msc_print::Page;
use msc_wording::{MarkedText, bold, help_line, plural};
use std::alloc::{AllocError, Global};
use std::io::Write;

/// Appends a number of things.
fn print_number(page: &mut Page, number: usize, one: &str, several: &str) -> Result<(), AllocError>
    ensures { OnOk result (page.new.bytes.items
        ≡ page.old.bytes.items ++ number_of number one.now several.now) }
{
    match write!(page, "{number} {}", plural(number, one, several)) {
        Ok(()) => Ok(()),
        Err(_) => Err(AllocError),
    }
}

/// Appends a number of things, unless it is 0; after a comma if others precede it.
fn print_part(
    page: &mut Page,
    begun: bool,
    number: usize,
    one: &str,
    several: &str,
) -> Result<(), AllocError>
    ensures { OnOk result (page.new.bytes.items
        ≡ page.old.bytes.items ++ part_text begun number one.now several.now) }
{
    if number == 0 {
        return Ok(());
    }
    if begun {
        page.bytes.extend_from_slice(b", ")?;
    }
    print_number(page, number, one, several)
}

/// Appends how many diagrams pass or have races.
fn print_first_parts(page: &mut Page, tally: Tally) -> Result<(), AllocError>
    ensures { OnOk result (page.new.bytes.items ≡ page.old.bytes.items ++ first_parts tally) }
{
    print_part(page, false, tally.passed, "passes", "pass")?;
    let begun = 0 < tally.passed;
    print_part(page, begun, tally.races, "has races", "have races")
}

/// Whether one of two things is so.
fn either(one: bool, other: bool) -> bool
    ensures { result ≡ (one || other) }
{
    one || other
}

/// Appends how many diagrams have stale marks or are refused.
fn print_other_parts(page: &mut Page, tally: Tally) -> Result<(), AllocError>
    ensures { OnOk result (page.new.bytes.items ≡ page.old.bytes.items ++ other_parts tally) }
{
    let begun = either(0 < tally.passed, 0 < tally.races);
    print_part(
        page,
        begun,
        tally.stale,
        "has stale marks",
        "have stale marks",
    )?;
    let begun = either(begun, 0 < tally.stale);
    print_part(page, begun, tally.refused, "is refused", "are refused")
}

/// Appends the verdict on all diagrams.
fn print_verdict(page: &mut Page, tally: Tally) -> Result<(), AllocError>
    ensures { OnOk result (page.new.bytes.items ≡ page.old.bytes.items ++ verdict_text tally) }
{
    if tally.races == 0 && tally.stale == 0 && tally.refused == 0 {
        return page.bytes.extend_from_slice(b"no races");
    }
    print_first_parts(page, tally)?;
    print_other_parts(page, tally)
}

/// The number of diagrams that were checked or refused.
fn answered(tally: Tally) -> usize
    ensures { result ≡ answered tally }
{
    tally
        .passed
        .saturating_add(tally.races)
        .saturating_add(tally.stale)
        .saturating_add(tally.refused)
}

/// Appends how many diagrams were checked.
fn print_diagrams(page: &mut Page, tally: Tally) -> Result<(), AllocError>
    ensures { OnOk result (page.new.bytes.items ≡ page.old.bytes.items ++ diagrams_text tally) }
{
    page.bytes.extend_from_slice(b"checked ")?;
    print_number(page, answered(tally), "diagram", "diagrams")
}

/// Appends how many files have diagrams.
fn print_files(page: &mut Page, tally: Tally) -> Result<(), AllocError>
    ensures { OnOk result (page.new.bytes.items ≡ page.old.bytes.items ++ files_text tally) }
{
    page.bytes.extend_from_slice(b" in ")?;
    print_number(page, tally.files, "file", "files")
}

/// Appends the verdict on all diagrams after a colon.
fn print_verdict_end(page: &mut Page, tally: Tally) -> Result<(), AllocError>
    ensures { OnOk result (page.new.bytes.items
        ≡ page.old.bytes.items ++ (codes ": " ++ verdict_text tally)) }
{
    page.bytes.extend_from_slice(b": ")?;
    print_verdict(page, tally)
}

/// Appends how many diagrams in how many files were checked, and the verdict on them.
fn print_checked(page: &mut Page, tally: Tally) -> Result<(), AllocError>
    ensures { OnOk result (page.new.bytes.items ≡ page.old.bytes.items ++ checked_text tally) }
{
    if answered(tally) == 0 {
        return page.bytes.extend_from_slice(b"nothing was checked");
    }
    print_diagrams(page, tally)?;
    print_files(page, tally)?;
    print_verdict_end(page, tally)
}

/// Appends how many races are accepted, if some are.
fn print_accepted(page: &mut Page, tally: Tally) -> Result<(), AllocError>
    ensures { OnOk result (page.new.bytes.items ≡ page.old.bytes.items ++ accepted_text tally) }
{
    if tally.accepted == 0 {
        return Ok(());
    }
    page.bytes.extend_from_slice(b"; ")?;
    print_number(page, tally.accepted, "race is", "races are")?;
    page.bytes.extend_from_slice(b" accepted")
}

/// Appends how many paths failed, if some did.
fn print_failed(page: &mut Page, tally: Tally) -> Result<(), AllocError>
    ensures { OnOk result (page.new.bytes.items ≡ page.old.bytes.items ++ failed_text tally) }
{
    if tally.failed == 0 {
        return Ok(());
    }
    page.bytes.extend_from_slice(b"; ")?;
    print_number(page, tally.failed, "path", "paths")?;
    page.bytes.extend_from_slice(b" failed")
}

/// Appends what the last line of findings says.
fn print_said(page: &mut Page, tally: Tally) -> Result<(), AllocError>
    ensures { OnOk result (page.new.bytes.items ≡ page.old.bytes.items ++ said_text tally) }
{
    print_checked(page, tally)?;
    print_accepted(page, tally)?;
    print_failed(page, tally)
}

/// Appends the last line of findings as people read them: how many diagrams were checked, and what
/// was found. The only error is want of memory.
#[tactic(auto, unfolding(msc_wording::specs::Closing::bold))]
pub(crate) fn print_last(page: &mut Page, tally: Tally, colours: bool) -> Result<(), AllocError>
    ensures { OnOk result (page.new.bytes.items
        ≡ page.old.bytes.items ++ last_text tally colours) }
{
    if !colours {
        print_said(page, tally)?;
        return page.bytes.extend_from_slice(b"\n");
    }
    page.bytes.extend_from_slice(b"\x1b[1m")?;
    print_said(page, tally)?;
    page.bytes.extend_from_slice(b"\x1b[0m\n")
}

/// Appends how many diagrams say nothing of their queues, without the first word of the note.
fn print_silent(page: &mut Page, silent: usize) -> Result<(), AllocError>
    ensures { OnOk result (page.new.bytes.items ≡ page.old.bytes.items ++ silent_text silent) }
{
    if silent == 1 {
        return page
            .bytes
            .extend_from_slice(b"1 diagram says nothing of its queues");
    }
    match write!(page, "{silent} diagrams say nothing of their queues") {
        Ok(()) => Ok(()),
        Err(_) => Err(AllocError),
    }
}

/// Appends the note on diagrams that say nothing of their queues, without its first word.
fn print_note_rest(page: &mut Page, silent: usize) -> Result<(), AllocError>
    ensures { OnOk result (page.new.bytes.items ≡ page.old.bytes.items ++ note_rest silent) }
{
    page.bytes.extend_from_slice(b": ")?;
    print_silent(page, silent)?;
    page.bytes.extend_from_slice(
        b": checked as \"pair\", a connection for each sender and receiver (msc scan --help)\n",
    )
}

/// Appends the note on diagrams that say nothing of their queues, if there are some.
fn print_note(
    alloc: Global,
    page: &mut Page,
    silent: usize,
    colours: bool,
) -> Result<(), AllocError>
    ensures { OnOk result (page.new.bytes.items
        ≡ page.old.bytes.items ++ note_text silent colours) }
{
    if silent == 0 {
        return Ok(());
    }
    let note = bold(alloc, "note", colours)?;
    page.bytes.extend_from_slice(note.as_bytes())?;
    print_note_rest(page, silent)
}

/// Appends how a race is accepted, if races are listed and no mark was met.
fn print_help(
    alloc: Global,
    page: &mut Page,
    help: Option<MarkedText>,
    marked: bool,
    colours: bool,
) -> Result<(), AllocError>
    ensures { OnOk result (page.new.bytes.items
        ≡ page.old.bytes.items ++ help_text help marked colours) }
{
    let Some(text) = help else {
        return Ok(());
    };
    if marked {
        return Ok(());
    }
    let line = help_line(alloc, text, colours)?;
    page.bytes.extend_from_slice(line.as_bytes())?;
    page.bytes.extend_from_slice(b"\n")
}

/// Appends what `is_own` requires of the note: it follows only if the queues are those of the texts.
fn print_own_note(
    alloc: Global,
    page: &mut Page,
    silent: usize,
    is_own: bool,
    colours: bool,
) -> Result<(), AllocError>
    ensures { OnOk result (page.new.bytes.items
        ≡ page.old.bytes.items ++ cond is_own (note_text silent colours) []) }
{
    if !is_own {
        return Ok(());
    }
    print_note(alloc, page, silent, colours)
}

/// Appends what follows the findings of all diagrams: the help on marks, the note on texts that say
/// nothing of their queues if the queues are those of the texts, and the last line. The only error is
/// want of memory.
pub(crate) fn print_end(
    alloc: Global,
    page: &mut Page,
    tally: Tally,
    is_own: bool,
    colours: bool,
) -> Result<(), AllocError>
    ensures { OnOk result (page.new.bytes.items
        ≡ page.old.bytes.items ++ end_text tally is_own colours) }
{
    print_help(alloc, page, tally.help, tally.marked, colours)?;
    print_own_note(alloc, page, tally.silent, is_own, colours)?;
    print_last(page, tally, colours)
}

/// Appends the last line of the text form: how many diagrams there are, and how they ended. The only
/// error is want of memory.
pub(crate) fn print_total(page: &mut Page, tally: Tally) -> Result<(), AllocError>
    ensures { OnOk result (page.new.bytes.items ≡ page.old.bytes.items ++ total_text tally) }
{
    let count = answered(tally);
    let all = count.saturating_add(tally.failed);
    let races = tally.races.saturating_add(tally.stale);
    let Tally {
        passed,
        refused,
        failed,
        ..
    } = tally;
    let written = write!(
        page,
        "total {all}: {passed} passed, {races} with races, {refused} refused, {failed} failed\n"
    );
    match written {
        Ok(()) => Ok(()),
        Err(_) => Err(AllocError),
    }
}
