//! Writes the verdicts on a chart or a diagram under the architectures of a scan.

ghost use Rattle.std.specs.Prelude.{◌≡◌, ◌++◌, ◌||◌, [], IfErr, IfOk, OnOk, codes, cond, map, true};
ghost use Rattle.std.specs.Io.KnownBytes.{Appends};
ghost use Rattle.msc_answer.specs.Refused.{is_spent};
ghost use Rattle.msc_answer.specs.Verdicts.{RefusesVerdict, Yields};
ghost use Rattle.msc_place.specs.Texts.{shown_byte};
ghost use Rattle.msc_scanning.specs.Folding.{Folds};
ghost use Rattle.msc_scanning.specs.Putting.{has_findings, has_several, header, is_plain, is_shown};
ghost use Rattle.msc_scanning.specs.Putting.{unseen, with_verdict, Gives, IsQuietVerdict, IsSaid};
ghost use Rattle.msc_scanning.specs.Putting.{PutsEach, PutsShown, PutsVerdict, RefusesFirst, Sees};

use crate::naming::{with_name, with_names};
use crate::outcome::Outcome;
use crate::page::{BLOCK_LIMIT, BoundedPage};
use crate::words::Plan;
use msc_answer::{Format, Refusal, Status, Subject, Verdict, check_under};
use msc_chart::Queues;
use msc_place::writing::write_file;
use msc_print::Page;
use msc_report::Fault;
use msc_wording::MarkedText;
use std::alloc::{AllocError, Global};
use std::io;
use std::io::Write;

/// A chart or a diagram of a file, with the names under which it is printed.
#[derive(Clone, Copy)]
pub(crate) struct Target<'d, 'c> {
    pub subject: Subject<'d, 'c>,
    pub file: &'d str,
    /// The name of the file, with the number of a diagram in Markdown.
    pub label: &'d [u8],
    /// How a race of it is accepted.
    pub help: MarkedText,
}

/// What was found of a chart or a diagram under some architectures.
#[derive(Clone, Copy)]
pub(crate) struct Seen {
    pub outcome: Outcome,
    /// Whether something was printed of it.
    pub shown: bool,
}

/// Whether races count or marks are stale.
fn has_findings(status: Status) -> bool
    ensures { result ≡ has_findings status }
{
    match status {
        Status::Races => true,
        Status::Done | Status::Refused | Status::Unfinished | Status::Failed => false,
    }
}

/// Whether a verdict is printed.
fn is_shown(plan: Plan<'_>, verdict: Verdict) -> bool
    ensures { result ≡ is_shown plan.entry verdict }
{
    if plan.args.words.quiet {
        return false;
    }
    let found = has_findings(verdict.status);
    match plan.args.words.check_args.format {
        Format::Full => found || verdict.never,
        Format::Lines => true,
        Format::Text | Format::Count => found || !plan.args.only_races,
    }
}

/// Whether the words name several architectures.
fn has_several(plan: Plan<'_>) -> bool
    ensures { result ≡ has_several plan.entry }
{
    1 < plan.architectures.len()
}

/// Whether what is printed under an architecture is what `check` prints: it has no name of the
/// architecture.
fn is_plain(plan: Plan<'_>) -> bool
    ensures { result ≡ is_plain plan.entry }
{
    match plan.args.words.check_args.format {
        Format::Count | Format::Lines => !has_several(plan),
        Format::Text | Format::Full => true,
    }
}

/// Writes the line that names a text, in text.
fn write_header<W: Write>(writer: &mut W, label: &[u8]) -> io::Result<()>
    ensures { OnOk result (Appends (W.contents writer.old) (W.contents writer.new)
        (codes "file " ++ (map shown_byte label.now ++ codes "\n"))) }
{
    writer.write_all(b"file ")?;
    write_file(writer, label)?;
    writer.write_all(b"\n")
}

/// Writes the line that precedes all that is printed of a text; `shown` says whether something was
/// printed of it before.
pub(crate) fn put_header<O: Write>(
    plan: Plan<'_>,
    label: &[u8],
    shown: bool,
    output: &mut O,
) -> io::Result<()>
    ensures { OnOk result (Appends (O.contents output.old) (O.contents output.new)
        (header plan.entry label.now shown)) }
{
    match plan.args.words.check_args.format {
        Format::Text if !shown => write_header(output, label),
        _ => Ok(()),
    }
}

/// What is printed of a verdict under an architecture, by what `check` prints of it.
fn said(alloc: Global, plan: Plan<'_>, queues: Queues, page: Page) -> Result<Page, AllocError>
    ensures { IfOk result (λ said. IsSaid plan.entry queues page.bytes.items said.bytes.items) }
{
    if is_plain(plan) {
        return Ok(page);
    }
    let (word, bytes) = (queues.word(), page.bytes.as_slice());
    match plan.args.words.check_args.format {
        Format::Count => with_name(alloc, word, bytes),
        Format::Lines => with_names(alloc, word, bytes),
        Format::Text | Format::Full => Ok(page),
    }
}

/// The most bytes of a verdict that are kept before it is known whether it is printed. Where its
/// lines are rewritten, all are.
fn limit_of(plan: Plan<'_>) -> usize {
    if is_plain(plan) {
        BLOCK_LIMIT
    } else {
        usize::MAX
    }
}

/// Writes a verdict that was printed on a page, if it is shown.
fn put_page<O: Write>(
    alloc: Global,
    plan: Plan<'_>,
    target: Target<'_, '_>,
    queues: Queues,
    shown: bool,
    verdict: Verdict,
    page: Page,
    output: &mut O,
) -> Result<(), Fault>
    ensures put { OnOk result (PutsShown O.contents plan.entry target.entry.label.now queues shown verdict page.bytes.items
        output.old output.new) }
    ensures spent { IfErr result (λ fault. is_spent (Refusal.Fault fault) ≡ true) }
{
    if !is_shown(plan, verdict) {
        return Ok(());
    }
    put_header(plan, target.label, shown, output)?;
    let page = said(alloc, plan, queues, page)?;
    output.write_all(page.bytes.as_slice())?;
    Ok(())
}

/// The fault for which a scan ends, of a refusal that is no answer of a text.
pub(crate) fn spent_fault(refusal: Refusal<'_>) -> Fault
    ensures { is_spent (Refusal.Fault result) ≡ true }
{
    match refusal {
        Refusal::Fault(Fault::Device) => Fault::Device,
        _ => Fault::Memory,
    }
}

/// Writes a long verdict straight to the output. The caller has found that it is too long for a
/// page, so the scan shows it, and that it is no refusal.
fn stream_verdict<O: Write>(
    alloc: Global,
    plan: Plan<'_>,
    target: Target<'_, '_>,
    queues: Queues,
    shown: bool,
    output: &mut O,
) -> Result<Verdict, Fault>
    ensures printed { Gives O.contents (PutsVerdict plan.entry target.entry queues shown) result
        output.old output.new }
    ensures spent { IfErr result (λ fault. is_spent (Refusal.Fault fault) ≡ true) }
{
    if !is_plain(plan) {
        return Err(Fault::Device);
    }
    put_header(plan, target.label, shown, output)?;
    let words = plan.printing();
    match check_under(alloc, words, target.file, target.subject, queues, output) {
        Ok(verdict) if is_shown(plan, verdict) => Ok(verdict),
        Ok(_) => Err(Fault::Memory),
        Err(refusal) => Err(spent_fault(refusal)),
    }
}

/// The verdict under an architecture, of which nothing is printed.
fn quiet_verdict(
    alloc: Global,
    plan: Plan<'_>,
    target: Target<'_, '_>,
    queues: Queues,
) -> Result<Verdict, Refusal<'static>>
    ensures { IsQuietVerdict plan.entry target.entry queues result }
{
    let words = plan.printing();
    check_under(
        alloc,
        words,
        target.file,
        target.subject,
        queues,
        &mut io::sink(),
    )
}

/// Writes a verdict that is printed, if it is shown. It is printed on a page first, and straight to
/// the output if it is too long for that.
fn put_printed<O: Write>(
    alloc: Global,
    plan: Plan<'_>,
    target: Target<'_, '_>,
    queues: Queues,
    shown: bool,
    output: &mut O,
) -> Result<Verdict, Refusal<'static>>
    ensures { Yields O.contents (PutsVerdict plan.entry target.entry queues shown)
        (RefusesVerdict plan.entry.args.words.check_args queues target.entry.subject) result
        output.old output.new }
{
    let mut bounded = BoundedPage::new(alloc, limit_of(plan));
    let words = plan.printing();
    match check_under(
        alloc,
        words,
        target.file,
        target.subject,
        queues,
        &mut bounded,
    ) {
        Ok(verdict) => {
            match put_page(
                alloc,
                plan,
                target,
                queues,
                shown,
                verdict,
                bounded.page,
                output,
            ) {
                Ok(()) => Ok(verdict),
                Err(fault) => Err(Refusal::Fault(fault)),
            }
        }
        Err(Refusal::Fault(Fault::Device)) => {
            if !bounded.is_full {
                return Err(Refusal::Fault(Fault::Memory));
            }
            match stream_verdict(alloc, plan, target, queues, shown, output) {
                Ok(verdict) => Ok(verdict),
                Err(fault) => Err(Refusal::Fault(fault)),
            }
        }
        Err(refusal) => Err(refusal),
    }
}

/// Writes a verdict under an architecture, if it is shown; `shown` says whether something was
/// printed of the text before.
fn put_verdict<O: Write>(
    alloc: Global,
    plan: Plan<'_>,
    target: Target<'_, '_>,
    queues: Queues,
    shown: bool,
    output: &mut O,
) -> Result<Verdict, Refusal<'static>>
    ensures { Yields O.contents (PutsVerdict plan.entry target.entry queues shown)
        (RefusesVerdict plan.entry.args.words.check_args queues target.entry.subject) result
        output.old output.new }
{
    if plan.args.words.quiet {
        return quiet_verdict(alloc, plan, target, queues);
    }
    put_printed(alloc, plan, target, queues, shown, output)
}

/// What was found of a text of which nothing was checked; `silent` says whether it is asked for its
/// queues and names none.
fn unseen(silent: bool) -> Seen
    ensures { result ≡ unseen silent }
{
    Seen {
        outcome: Outcome {
            status: Status::Done,
            races: false,
            accepted: 0,
            silent,
            marked: false,
            help: None,
        },
        shown: false,
    }
}

/// The same with one more verdict.
fn with_verdict(plan: Plan<'_>, target: Target<'_, '_>, seen: Seen, verdict: Verdict) -> Seen
    ensures { result ≡ with_verdict plan.entry target.entry.help seen verdict }
{
    let Seen { outcome, shown } = seen;
    let found = has_findings(verdict.status);
    Seen {
        outcome: Outcome {
            status: if found {
                verdict.status
            } else {
                outcome.status
            },
            races: outcome.races || verdict.races,
            accepted: outcome.accepted.max(verdict.accepted),
            silent: outcome.silent,
            marked: outcome.marked || verdict.marked,
            help: if verdict.listed {
                Some(target.help)
            } else {
                outcome.help
            },
        },
        shown: shown || is_shown(plan, verdict),
    }
}

/// Writes the verdicts under further architectures. A refusal comes of the text and the marks, so it
/// would have come under the first one.
fn put_rest<O: Write>(
    alloc: Global,
    plan: Plan<'_>,
    target: Target<'_, '_>,
    seen: Seen,
    queues: &[Queues],
    output: &mut O,
) -> Result<Seen, Fault>
    ensures printed { Gives O.contents (Folds (Sees plan.entry target.entry) queues.now seen) result
        output.old output.new }
    ensures spent { IfErr result (λ fault. is_spent (Refusal.Fault fault) ≡ true) }
{
    let mut seen = seen;
    for one in queues {
        match put_verdict(alloc, plan, target, *one, seen.shown, output) {
            Ok(verdict) => seen = with_verdict(plan, target, seen, verdict),
            Err(refusal) => return Err(spent_fault(refusal)),
        }
    }
    Ok(seen)
}

/// Writes the verdicts on a chart or a diagram under these queues.
pub(crate) fn put_each<O: Write>(
    alloc: Global,
    plan: Plan<'_>,
    target: Target<'_, '_>,
    silent: bool,
    queues: &[Queues],
    output: &mut O,
) -> Result<Outcome, Refusal<'static>>
    ensures { Yields O.contents (PutsEach plan.entry target.entry silent queues.now)
        (RefusesFirst plan.entry target.entry queues.now) result output.old output.new }
{
    let seen = unseen(silent);
    let Some((first, rest)) = queues.split_first() else {
        return Ok(seen.outcome);
    };
    let verdict = put_verdict(alloc, plan, target, *first, seen.shown, output)?;
    let seen = with_verdict(plan, target, seen, verdict);
    match put_rest(alloc, plan, target, seen, rest, output) {
        Ok(seen) => Ok(seen.outcome),
        Err(fault) => Err(Refusal::Fault(fault)),
    }
}
