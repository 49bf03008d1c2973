//! All sequence diagrams of a text of Markdown, one after the other, in the order of their numbers.

ghost use Rattle.std.specs.Prelude.{◌≡◌, ◌++◌, ◌||◌, codes, map, nat_lt, IfOk, Ok, OnOk};
ghost use Rattle.std.specs.Fmt.{decimal};
ghost use Rattle.msc_markdown.specs.Markdowns.{markdown};
ghost use Rattle.msc_place.specs.Texts.{shown_byte};
ghost use Rattle.msc_report.specs.Texts.{text_line};
ghost use Rattle.msc_answer.specs.Answering.{AnswersWith};
ghost use Rattle.msc_answer.specs.Scenarios.{IsDiagramOf, RefusesScenarios};
ghost use Rattle.msc_answer.specs.Surveys.{at_block, behind, many_in, many_of, numbered};
ghost use Rattle.msc_answer.specs.Surveys.{options_after};
ghost use Rattle.msc_answer.specs.Surveys.{refused_end, refused_text, survey_end, worse};
ghost use Rattle.msc_answer.specs.Surveys.{BeginsBlock, PrintsBlock};

use crate::arrow_marks::marks_of_diagram;
use crate::ending::{Refusal, Status};
use crate::scenarios::{Charts, Surveyed, Told, linked, reading_of, scenarios_of, tell};
use crate::shown_diagram::{DiagramText, block_line};
use crate::tasks::{CheckArgs, DiagramArgs, Format, ScenarioArgs, is_full};
use msc_findings::{Following, print_diagram_help};
use msc_import::laws::reading_comes_first;
use msc_import::{DiagramReading, chart_name, read_from};
use msc_import_laws::laws::imports_are_charts;
use msc_judge::CheckOptions;
use msc_markdown::Markdown;
use msc_mermaid::{Diagram, ImportFault};
use msc_place::writing::write_file;
use msc_print::Page;
use std::alloc::{AllocError, Global};
use std::io::Write;

/// The options of a check of races that follow `listed` listed ones: `most` and `show` are less by
/// these.
fn options_after(options: CheckOptions, listed: u32) -> CheckOptions
    ensures { result ≡ options_after options listed }
{
    CheckOptions {
        closest: options.closest,
        why: options.why,
        allowed: options.allowed,
        most: options.most.saturating_sub(listed),
        show: options.show.saturating_sub(listed),
        short: options.short,
    }
}

/// The same words for diagrams that follow `listed` listed races.
pub(crate) fn behind(words: ScenarioArgs<'_>, listed: u32) -> ScenarioArgs<'_>
    ensures { result ≡ behind words.entry listed }
{
    let check_args = CheckArgs {
        queues: words.check_args.queues,
        options: options_after(words.check_args.options, listed),
        accept: words.check_args.accept,
        again: words.check_args.again,
        format: words.check_args.format,
        colours: words.check_args.colours,
        event_style: words.check_args.event_style,
        following: words.check_args.following,
    };
    ScenarioArgs {
        diagram: words.diagram,
        rounds: words.rounds,
        limit: words.limit,
        choose: words.choose,
        check_args,
        links: words.links,
        quiet: words.quiet,
    }
}

/// The same words for the diagram with this number.
pub fn of_block(words: ScenarioArgs<'_>, number: usize) -> ScenarioArgs<'_>
    ensures check_args { result.check_args ≡ words.entry.check_args }
    ensures quiet { result.quiet ≡ words.entry.quiet }
{
    let diagram = DiagramArgs {
        language: words.diagram.language,
        fence: u32::try_from(number).ok(),
        cross: words.diagram.cross,
        manner: words.diagram.manner,
        name: words.diagram.name,
    };
    ScenarioArgs {
        diagram,
        rounds: words.rounds,
        limit: words.limit,
        choose: words.choose,
        check_args: words.check_args,
        links: words.links,
        quiet: words.quiet,
    }
}

/// The blocks of a Markdown text, if it has sequence diagrams and is none itself.
fn many_of(found: Markdown<'_>) -> Option<Markdown<'_>>
    ensures { result ≡ many_of found.entry }
{
    if found.is_diagram() || found.numbers().is_empty() {
        return None;
    }
    Some(found)
}

/// The blocks of a Markdown text, if the words are for all its sequence diagrams and it has some. A
/// text that is too long has none here: its import is refused.
pub(crate) fn blocks_of<'t>(
    alloc: Global,
    words: ScenarioArgs<'_>,
    text: &'t [u8],
) -> Result<Option<Markdown<'t>>, AllocError>
    ensures { IfOk result (λ found. found ≡ many_in words.entry text.entry.now) }
{
    if words.diagram.fence.is_some() {
        return Ok(None);
    }
    match Markdown::of(alloc, text) {
        Ok(found) => Ok(many_of(found)),
        Err(ImportFault::Memory) => Err(AllocError),
        Err(_) => Ok(None),
    }
}

/// The diagram with this number.
pub fn diagram_at(
    alloc: Global,
    words: ScenarioArgs<'_>,
    found: &Markdown<'_>,
    number: usize,
) -> Result<Diagram, Refusal<'static>>
    requires { markdown found.now.text ≡ Ok found.now }
    ensures { IsDiagramOf (at_block words.entry number) found.now.text result }
{
    let reading = DiagramReading {
        fence: Some(number),
        ..reading_of(words.diagram)
    };
    let diagram = read_from(alloc, reading, found)?;
    Ok(diagram)
}

/// Appends the number of a diagram to its name.
fn print_number(page: &mut Page, number: usize) -> Result<(), AllocError>
    ensures { OnOk result (page.new.bytes.items
        ≡ page.old.bytes.items ++ (codes "#" ++ decimal number)) }
{
    match write!(page, "#{number}") {
        Ok(()) => Ok(()),
        Err(_) => Err(AllocError),
    }
}

/// A name with the number of a diagram.
pub fn numbered(alloc: Global, name: &[u8], number: usize) -> Result<Page, AllocError>
    ensures { IfOk result (λ page. page.bytes.items ≡ numbered name.now number) }
{
    let mut page = Page::new(alloc);
    page.bytes.extend_from_slice(name)?;
    print_number(&mut page, number)?;
    Ok(page)
}

/// Writes the answer on the races of all scenarios of the diagram with this number.
pub(crate) fn check_block<'w, O: Write>(
    alloc: Global,
    words: ScenarioArgs<'w>,
    found: &Markdown<'w>,
    file: &str,
    number: usize,
    output: &mut O,
) -> Result<Surveyed, Refusal<'w>>
    requires { markdown found.now.text ≡ Ok found.now }
    ensures { AnswersWith O.contents
        (PrintsBlock words.entry file.now found.now.text number)
        (BeginsBlock words.entry file.now found.now.text number)
        (RefusesScenarios (at_block words.entry number) found.now.text)
        result output.old output.new }
{
    imports_are_charts();
    reading_comes_first();
    let diagram = diagram_at(alloc, words, found, number)?;
    let all = scenarios_of(alloc, words, &diagram)?;
    let linked = linked(alloc, words, found.text(), &all.list)?;
    let marks = marks_of_diagram(alloc, words.check_args.accept, found.text(), &diagram)?;
    let charts = Charts::of(alloc, file, all.list)?;
    let name = numbered(alloc, all.name.as_slice(), number)?;
    let shown = numbered(alloc, file.as_bytes(), number)?;
    let told = Told {
        diagram: DiagramText {
            file,
            text: found.text(),
            diagram: &diagram,
            line: block_line(found, number),
        },
        name: name.bytes.as_slice(),
        counted: shown.bytes.as_slice(),
        drawn: all.drawn,
        marks: marks.as_ref(),
        chosen: words.choose.is_some(),
        following: Following::Blank,
    };
    tell(alloc, linked, told, &charts, output)
}

/// The lines of a refused diagram of this name.
fn refused_diagram(alloc: Global, name: &[u8]) -> Result<Page, AllocError>
    ensures { IfOk result (λ page. page.bytes.items
        ≡ codes "diagram " ++ (name.now ++ codes "\nrefused\n")) }
{
    let mut page = Page::new(alloc);
    page.bytes.extend_from_slice(b"diagram ")?;
    page.bytes.extend_from_slice(name)?;
    page.bytes.extend_from_slice(b"\nrefused\n")?;
    Ok(page)
}

/// The one line of a refused diagram in the file of this name.
fn refused_line(alloc: Global, file: &[u8]) -> Result<Page, AllocError>
    ensures { IfOk result (λ page. page.bytes.items
        ≡ codes "refused " ++ text_line (map shown_byte file.now)) }
{
    let mut page = Page::new(alloc);
    page.bytes.extend_from_slice(b"refused ")?;
    if write_file(&mut page, file).is_err() {
        return Err(AllocError);
    }
    page.bytes.extend_from_slice(b"\n")?;
    Ok(page)
}

/// What is written to the output if the diagram with this number is refused, without the lines for
/// editors.
pub(crate) fn refused_page(
    alloc: Global,
    words: ScenarioArgs<'_>,
    file: &str,
    number: usize,
) -> Result<Page, AllocError>
    ensures { IfOk result (λ page. page.bytes.items ≡ refused_text words.entry file.now number) }
{
    if words.quiet {
        return Ok(Page::new(alloc));
    }
    match words.check_args.format {
        Format::Text => {
            let name = chart_name(alloc, words.diagram.name)?;
            let name = numbered(alloc, name.as_slice(), number)?;
            refused_diagram(alloc, name.bytes.as_slice())
        }
        Format::Count => {
            let shown = numbered(alloc, file.as_bytes(), number)?;
            refused_line(alloc, shown.bytes.as_slice())
        }
        Format::Lines | Format::Full => Ok(Page::new(alloc)),
    }
}

/// Whether a diagram before has a listed race, or the next one, which has `listed` of them.
pub(crate) fn lists_races(before: bool, listed: u32) -> bool
    ensures { result ≡ (before || nat_lt 0 listed) }
{
    before || 0 < listed
}

/// The lines that follow all diagrams: the help on marks, in findings as people read them. It follows
/// if races are listed in one of them and none has a mark.
pub(crate) fn end_page(
    alloc: Global,
    words: ScenarioArgs<'_>,
    is_listed: bool,
    is_marked: bool,
) -> Result<Page, AllocError>
    ensures { IfOk result (λ page. page.bytes.items ≡ survey_end words.entry is_listed is_marked) }
{
    let mut page = Page::new(alloc);
    let CheckArgs {
        format,
        colours,
        ..
    } = words.check_args;
    if is_listed && !is_marked && !words.quiet && is_full(format) {
        print_diagram_help(alloc, &mut page, colours)?;
    }
    Ok(page)
}

/// Whether a diagram has a mark: an earlier one, or this one.
pub(crate) fn met(before: bool, now: bool) -> bool
    ensures { result ≡ (before || now) }
{
    before || now
}

/// What follows a refused diagram: an empty line, in findings as people read them.
pub(crate) fn refused_end(alloc: Global, words: ScenarioArgs<'_>) -> Result<Page, AllocError>
    ensures { IfOk result (λ page. page.bytes.items ≡ refused_end words.entry) }
{
    let mut page = Page::new(alloc);
    if !words.quiet && is_full(words.check_args.format) {
        page.bytes.extend_from_slice(b"\n")?;
    }
    Ok(page)
}

/// The worse of two statuses: the greater one.
pub fn worse(one: Status, other: Status) -> Status
    ensures { result ≡ worse one other }
{
    if other.code() <= one.code() {
        one
    } else {
        other
    }
}
