//! The closing line of a file, and the help on marks.

ghost use Rattle.std.specs.Prelude.{◌≡◌, ◌++◌, IfOk, OnOk};
ghost use Rattle.std.specs.String.{string_bytes};
ghost use Rattle.msc_findings.specs.Closing.{check_of, checked_text, closing_part, closing_text};
ghost use Rattle.msc_findings.specs.Closing.{following_part, found_of, help_part, helps};
ghost use Rattle.msc_findings.specs.Closing.{line_with, listed_of};
ghost use Rattle.msc_findings.specs.Closing.{marked_help, named_line, number_or_none};
ghost use Rattle.msc_findings.specs.Closing.{readiness_text, shown_of};
ghost use Rattle.msc_wording.specs.declared.closing.MarkedText.TheVariants.{Diagram};

use crate::format::{Following, FullFormat};
use msc_judge::{Heading, Totals};
use msc_print::Page;
use msc_wording::{
    MarkedText, RacesFound, SpokenCheck, SpokenReadiness, closing_line, help_line, with_queues,
};
use std::alloc::{AllocError, Global};

/// The number, or 0 if there is none.
fn number_or_none(number: Option<u32>) -> usize
    ensures { result ≡ number_or_none number }
{
    match number {
        Some(number) => number as usize,
        None => 0,
    }
}

/// The number of races that are listed.
fn listed_of(heading: Heading) -> usize
    ensures { result ≡ listed_of heading }
{
    heading.closest.unwrap_or(heading.counting) as usize
}

/// The races that were found.
fn found_of(totals: Totals) -> RacesFound
    ensures { result ≡ found_of totals }
{
    let listed = listed_of(totals.heading);
    match totals.between {
        Some(between) => RacesFound::InRounds {
            within: listed,
            between: between as usize,
        },
        None => RacesFound::InOneScenario(listed),
    }
}

/// How many findings are printed, if that is not all of them.
fn shown_of(totals: Totals) -> Option<usize>
    ensures { result ≡ shown_of totals }
{
    let found = listed_of(totals.heading) + number_or_none(totals.between);
    if found <= totals.most as usize {
        return None;
    }
    Some(totals.most as usize)
}

/// What a check found; `can_happen` says whether some run keeps the drawing.
fn check_of(totals: Totals, can_happen: bool) -> SpokenCheck
    ensures { result ≡ check_of totals can_happen }
{
    let heading = totals.heading;
    SpokenCheck {
        found: found_of(totals),
        wider: (heading.counting as usize).saturating_sub(listed_of(heading)),
        left_out: number_or_none(heading.left_out),
        accepted: number_or_none(heading.accepted),
        stale: totals.stale,
        shown: shown_of(totals),
        can_happen,
    }
}

/// The names in the closing line of a file: of the file, as people read it, and of the architecture,
/// as it is written.
#[derive(Clone, Copy)]
pub struct ClosingNames<'w> {
    pub file: &'w str,
    pub queues: &'w str,
    /// Whether there are colours.
    pub colours: bool,
}

impl ClosingNames<'_> {
    /// The line of the file with this verdict.
    fn line(&self, alloc: Global, verdict: &str) -> Result<String, AllocError>
        ensures { IfOk result (λ line. string_bytes line ≡ named_line self.now verdict.now) }
    {
        let verdict = with_queues(alloc, verdict, self.queues)?;
        let line = closing_line(alloc, self.file, verdict.as_str(), self.colours)?;
        Ok(line)
    }

    /// Appends the closing line of a check. The only error is want of memory.
    pub fn print_check(
        &self,
        alloc: Global,
        page: &mut Page,
        check: SpokenCheck,
    ) -> Result<(), AllocError>
        ensures { OnOk result (page.new.bytes.items ≡ page.old.bytes.items
            ++ checked_text self.now check) }
    {
        let verdict = check.verdict(alloc)?;
        let line = self.line(alloc, verdict.as_str())?;
        page.bytes.extend_from_slice(line.as_bytes())?;
        page.bytes.extend_from_slice(b"\n")
    }
}

/// Appends the help on marks of such a text.
fn print_marked_help(
    alloc: Global,
    page: &mut Page,
    text: MarkedText,
    colours: bool,
) -> Result<(), AllocError>
    ensures { OnOk result (page.new.bytes.items ≡ page.old.bytes.items
        ++ marked_help text colours) }
{
    let line = help_line(alloc, text, colours)?;
    page.bytes.extend_from_slice(line.as_bytes())?;
    page.bytes.extend_from_slice(b"\n")
}

/// Appends the help on marks of a diagram. The only error is want of memory.
pub fn print_diagram_help(alloc: Global, page: &mut Page, colours: bool) -> Result<(), AllocError>
    ensures { OnOk result (page.new.bytes.items ≡ page.old.bytes.items
        ++ marked_help Diagram colours) }
{
    print_marked_help(alloc, page, MarkedText::Diagram, colours)
}

impl FullFormat<'_, '_> {
    /// The closing line.
    fn closing_line(
        &self,
        alloc: Global,
        totals: Totals,
        can_happen: bool,
    ) -> Result<String, AllocError>
        ensures { IfOk result (λ line. string_bytes line
            ≡ closing_text self.now totals can_happen) }
    {
        let check = check_of(totals, can_happen);
        let verdict = check.verdict(alloc)?;
        self.line_with(alloc, verdict.as_str())
    }

    /// The line of the file with this verdict.
    fn line_with(&self, alloc: Global, verdict: &str) -> Result<String, AllocError>
        ensures { IfOk result (λ line. string_bytes line ≡ line_with self.now verdict.now) }
    {
        let names = ClosingNames {
            file: self.file,
            queues: self.queues,
            colours: self.text.colours,
        };
        names.line(alloc, verdict)
    }

    /// Appends the closing line of an answer on ready instances. The only error is want of memory.
    pub fn print_readiness(
        &self,
        alloc: Global,
        page: &mut Page,
        readiness: SpokenReadiness,
    ) -> Result<(), AllocError>
        ensures { OnOk result (page.new.bytes.items ≡ page.old.bytes.items
            ++ readiness_text self.now readiness) }
    {
        let verdict = readiness.verdict(alloc)?;
        let line = self.line_with(alloc, verdict.as_str())?;
        page.bytes.extend_from_slice(line.as_bytes())?;
        page.bytes.extend_from_slice(b"\n")
    }

    /// Whether the help on marks is printed: races are listed, and the text has no mark.
    fn helps(&self, totals: Totals) -> bool
        ensures { result ≡ helps self.now totals }
    {
        listed_of(totals.heading) > 0 && self.marks.is_empty()
    }

    /// Appends the help on marks, if it is printed.
    fn print_help(&self, alloc: Global, page: &mut Page, totals: Totals) -> Result<(), AllocError>
        ensures { OnOk result (page.new.bytes.items ≡ page.old.bytes.items
            ++ help_part self.now totals) }
    {
        if !self.helps(totals) {
            return Ok(());
        }
        print_marked_help(alloc, page, MarkedText::Chart, self.text.colours)
    }

    /// Appends what follows the closing line.
    fn print_following(
        &self,
        alloc: Global,
        page: &mut Page,
        totals: Totals,
    ) -> Result<(), AllocError>
        ensures { OnOk result (page.new.bytes.items ≡ page.old.bytes.items
            ++ following_part self.now totals) }
    {
        match self.following {
            Following::Help => self.print_help(alloc, page, totals),
            Following::Blank => page.bytes.extend_from_slice(b"\n"),
        }
    }

    /// Appends the closing line and what follows it, if this closes the answer.
    pub(crate) fn print_closing(
        &self,
        alloc: Global,
        page: &mut Page,
        totals: Option<Totals>,
        can_happen: bool,
    ) -> Result<(), AllocError>
        ensures { OnOk result (page.new.bytes.items ≡ page.old.bytes.items
            ++ closing_part self.now can_happen totals) }
    {
        let Some(totals) = totals else {
            return Ok(());
        };
        let line = self.closing_line(alloc, totals, can_happen)?;
        page.bytes.extend_from_slice(line.as_bytes())?;
        page.bytes.extend_from_slice(b"\n")?;
        self.print_following(alloc, page, totals)
    }
}
