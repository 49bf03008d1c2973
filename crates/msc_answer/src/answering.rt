//! The answers to tasks: each reads the text once, makes its chart, and prints the answer.

ghost use Rattle.std.specs.Prelude.{◌≡◌, ℕ, List, None, Some, Ok, false};
ghost use Rattle.msc_chart.specs.Drawings.{chart_of};
ghost use Rattle.msc_answer.specs.Answering.{Answers, AnswersWith, Delivers, Does, EndsAs, TellsBlock};
ghost use Rattle.msc_answer.specs.Drafted.{of_chart, of_scenario};
ghost use Rattle.msc_answer.specs.Drawing.{PrintsLinkedPage, PrintsPage, RefusesDrawn, RefusesLinkedPage};
ghost use Rattle.msc_answer.specs.Importing.{PrintsImportPage, RefusesImport};
ghost use Rattle.msc_answer.specs.Surveys.{BeginsOne, BeginsSurvey, Surveys, SurveysOne};
ghost use Rattle.msc_markdown.specs.Markdowns.{markdown};
ghost use Rattle.msc_report.specs.Refusals.{of_reading};
ghost use Rattle.msc_source.specs.Inputs.{IsReadFrom};

use crate::chart_answers::answer_linked;
use crate::drawing::page_of;
use crate::ending::{Refusal, Status, is_spent};
use crate::importing::{import_chosen, import_page};
use crate::links::queues_in;
use crate::output::{flush, put};
use crate::recorded::TellsFailure;
use crate::refusal_output::{end_told, end_unread_task, tell_in, tell_refusal};
use crate::reporting::report_scenarios;
use crate::scenarios::{Surveyed, check_scenarios};
use crate::surveying::{
    behind, blocks_of, check_block, end_page, lists_races, met, of_block, refused_end,
    refused_page, worse,
};
use crate::tasks::{
    ChartCommand, ChosenArgs, Drawn, ImportArgs, LinkWords, ReportArgs, Request, ScenarioArgs,
    Task, TextArgs,
};
use crate::text_chart::TextChart;
use msc_markdown::Markdown;
use msc_parser::Draft;
use msc_print::Page;
use msc_source::{Language, Reading, Source, read_all};
use msc_text::write_reading;
use std::alloc::Global;
use std::io::{Read, Write};
use std::sync::Wait;
use std::thread::Threads;

/// Writes a picture of a draft's chart, or its report.
fn draw<O: Write>(
    alloc: Global,
    drawn: Drawn,
    draft: &Draft,
    source: &TextChart<'_, '_>,
    output: &mut O,
) -> Result<Status, Refusal<'static>>
    requires { source.now.chart ≡ chart_of draft.now }
    ensures { Answers O.contents (PrintsPage drawn draft.now source.now)
        (RefusesDrawn drawn source.now) result output.old output.new }
{
    let page = page_of(alloc, drawn, draft, source)?;
    put(output, &page, Status::Done)
}

/// Writes a picture of a draft's chart, or its report, under the queues that the rules and the text
/// give.
fn draw_linked<'w, O: Write>(
    alloc: Global,
    drawn: Drawn,
    words: LinkWords<'w>,
    draft: &Draft,
    source: &TextChart<'w, '_>,
    output: &mut O,
) -> Result<Status, Refusal<'w>>
    requires { source.now.chart ≡ chart_of draft.now }
    ensures { Answers O.contents (PrintsLinkedPage drawn words.entry draft.now source.now)
        (RefusesLinkedPage drawn words.entry source.now) result output.old output.new }
{
    let queues = queues_in(alloc, drawn.usual(), words, source)?;
    draw(alloc, drawn.under(queues), draft, source, output)
}

/// Writes the import of the text of a file of this name.
fn import<O: Write>(
    alloc: Global,
    words: ImportArgs<'_>,
    file: &str,
    text: &[u8],
    output: &mut O,
) -> Result<Status, Refusal<'static>>
    ensures { Answers O.contents (PrintsImportPage words.entry file.now text.now)
        (RefusesImport words.entry.chosen text.now) result output.old output.new }
{
    let page = import_page(alloc, words, file, text)?;
    put(output, &page, Status::Done)
}

/// Writes to the output that the diagram with this number is refused.
fn tell_block<O: Write>(
    alloc: Global,
    words: ScenarioArgs<'_>,
    file: &str,
    text: &[u8],
    number: usize,
    refusal: Refusal<'_>,
    output: &mut O,
) -> Result<(), Refusal<'static>>
    ensures { TellsBlock O.contents words.entry file.now text.now number refusal.entry result
        output.old output.new }
{
    let page = refused_page(alloc, words, file, number)?;
    let _ = put(output, &page, Status::Refused)?;
    let task = Task::Scenarios(of_block(words, number));
    tell_in(alloc, task, file, text, refusal, output)?;
    let end = refused_end(alloc, words)?;
    let _ = put(output, &end, Status::Refused)?;
    Ok(())
}

/// Writes to `faults` why the diagram with this number is refused.
fn end_block<O: TellsFailure, E: Write>(
    alloc: Global,
    request: Request<'_>,
    words: ScenarioArgs<'_>,
    text: &[u8],
    refusal: Refusal<'_>,
    output: &O,
    faults: &mut E,
) {
    let request = Request {
        task: Task::Scenarios(words),
        file: request.file,
        notes: request.notes,
    };
    let _ = end_told(alloc, request, text, refusal, output, faults);
}

/// Checks the diagram with this number, and writes the refusal if it is refused.
fn survey_block<'w, O: TellsFailure, E: Write>(
    alloc: Global,
    request: Request<'_>,
    words: ScenarioArgs<'w>,
    found: &Markdown<'w>,
    number: usize,
    output: &mut O,
    faults: &mut E,
) -> Result<Surveyed, Refusal<'w>>
    requires { markdown found.now.text ≡ Ok found.now }
    ensures { AnswersWith O.contents
        (SurveysOne words.entry request.entry.file.now found.now.text number)
        (BeginsOne words.entry request.entry.file.now found.now.text number)
        (λ refusal. ⊥) result output.old output.new }
{
    let refusal = match check_block(alloc, words, found, request.file, number, output) {
        Ok(surveyed) => return Ok(surveyed),
        Err(refusal) => refusal,
    };
    if is_spent(refusal) {
        return Err(refusal);
    }
    let text = found.text();
    tell_block(alloc, words, request.file, text, number, refusal, output)?;
    end_block(
        alloc,
        request,
        of_block(words, number),
        text,
        refusal,
        output,
        faults,
    );
    Ok(Surveyed {
        status: Status::Refused,
        listed: 0,
        accepted: 0,
        marked: false,
    })
}

/// Checks all sequence diagrams of a text of Markdown; returns the worst of their statuses.
fn survey<'w, O: TellsFailure, E: Write>(
    alloc: Global,
    request: Request<'_>,
    words: ScenarioArgs<'w>,
    found: &Markdown<'w>,
    output: &mut O,
    faults: &mut E,
) -> Result<Status, Refusal<'w>>
    requires { markdown found.now.text ≡ Ok found.now }
    ensures { AnswersWith O.contents
        (Surveys words.entry request.entry.file.now found.now.text found.now.numbers false false Status.Done)
        (BeginsSurvey words.entry request.entry.file.now found.now.text found.now.numbers)
        (λ refusal. ⊥) result output.old output.new }
{
    let numbers = found.numbers();
    let mut words = words;
    let mut worst = Status::Done;
    let mut is_listed = false;
    let mut is_marked = false;
    for number in numbers {
        let one = survey_block(alloc, request, words, found, *number, output, faults)?;
        worst = worse(worst, one.status);
        is_listed = lists_races(is_listed, one.listed);
        is_marked = met(is_marked, one.marked);
        words = behind(words, one.listed);
    }
    let end = end_page(alloc, words, is_listed, is_marked)?;
    put(output, &end, worst)
}

/// Prints the verdicts on the diagrams of a text: on all of a Markdown text if no block is named,
/// otherwise on one.
fn check_diagrams<'w, O: TellsFailure, E: Write>(
    alloc: Global,
    request: Request<'_>,
    words: ScenarioArgs<'w>,
    text: &'w [u8],
    output: &mut O,
    faults: &mut E,
) -> Result<Status, Refusal<'w>>
    ensures { Does O.contents (Task.Scenarios words.entry) request.entry.file.now text.entry.now result
        output.old output.new }
{
    let blocks = blocks_of(alloc, words, text)?;
    match blocks {
        None => check_scenarios(alloc, words, request.file, text, output),
        Some(found) => survey(alloc, request, words, &found, output, faults),
    }
}

/// Writes the report of all scenarios of the diagram of a text in the file of this name.
fn report<'w, O: Write>(
    alloc: Global,
    words: ReportArgs<'w>,
    file: &str,
    text: &'w [u8],
    output: &mut O,
) -> Result<Status, Refusal<'w>>
    ensures { Does O.contents (Task.Report words.entry) file.now text.entry.now result
        output.old output.new }
{
    let page = report_scenarios(alloc, words, file, text)?;
    put(output, &page, Status::Done)
}

/// Writes the canonical text of the chart that a text draws.
fn read_text<O: Write>(
    alloc: Global,
    text: &[u8],
    output: &mut O,
) -> Result<Status, Refusal<'static>>
    ensures { (file : List ℕ) → Does O.contents (Task.Read None) file text.now result
        output.old output.new }
{
    let read = Reading::of(alloc, Language::MscPr, text)?;
    write_reading(alloc, &read, output)?;
    Ok(Status::Done)
}

/// Writes the canonical text of a scenario of the diagram of a text.
fn read_diagram<'w, O: Write>(
    alloc: Global,
    chosen: ChosenArgs<'w>,
    text: &[u8],
    output: &mut O,
) -> Result<Status, Refusal<'static>>
    ensures { (file : List ℕ) → Does O.contents (Task.Read (Some chosen.entry)) file text.now result
        output.old output.new }
{
    let drawing = import_chosen(alloc, chosen, text)?;
    let bytes = drawing.imported.draft.write(alloc)?;
    put(output, &Page { bytes }, Status::Done)
}

/// Writes the canonical text of the chart that a text draws, or of a scenario of its diagram.
fn read<'w, O: Write>(
    alloc: Global,
    chosen: Option<ChosenArgs<'w>>,
    text: &[u8],
    output: &mut O,
) -> Result<Status, Refusal<'static>>
    ensures { (file : List ℕ) → Does O.contents (Task.Read chosen.entry) file text.now result
        output.old output.new }
{
    match chosen {
        None => read_text(alloc, text, output),
        Some(chosen) => read_diagram(alloc, chosen, text, output),
    }
}

/// Prints the answer to a command on the chart that a text draws.
fn answer_text<'w, R: Threads + Wait + Sync, O: Write>(
    rt: &R,
    alloc: Global,
    ask: ChartCommand<'w>,
    links: LinkWords<'w>,
    file: &str,
    text: &'w [u8],
    output: &mut O,
) -> Result<Status, Refusal<'w>>
    ensures { Does O.contents (Task.Chart ask.entry (of_chart links.entry)) file.now text.entry.now
        result output.old output.new }
{
    let source = Source::of(alloc, Language::MscPr, text)?;
    let chart = TextChart::of_source(source);
    answer_linked(rt, alloc, ask, links, file, &chart, output)
}

/// Prints the answer to a command on a scenario of the diagram of a text.
fn answer_diagram<'w, R: Threads + Wait + Sync, O: Write>(
    rt: &R,
    alloc: Global,
    ask: ChartCommand<'w>,
    chosen: ChosenArgs<'w>,
    links: LinkWords<'w>,
    file: &str,
    text: &'w [u8],
    output: &mut O,
) -> Result<Status, Refusal<'w>>
    ensures { Does O.contents (Task.Chart ask.entry (of_scenario chosen.entry links.entry)) file.now
        text.entry.now result output.old output.new }
{
    let drawing = import_chosen(alloc, chosen, text)?;
    let chart = TextChart::of_import(alloc, text, &drawing)?;
    answer_linked(rt, alloc, ask, links, file, &chart, output)
}

/// Prints the answer to a command on the chart of a text, or on a scenario of its diagram.
fn answer_command<'w, R: Threads + Wait + Sync, O: Write>(
    rt: &R,
    alloc: Global,
    ask: ChartCommand<'w>,
    words: TextArgs<'w>,
    file: &str,
    text: &'w [u8],
    output: &mut O,
) -> Result<Status, Refusal<'w>>
    ensures { Does O.contents (Task.Chart ask.entry words.entry) file.now text.entry.now result
        output.old output.new }
{
    match words.diagram {
        None => answer_text(rt, alloc, ask, words.links, file, text, output),
        Some(chosen) => answer_diagram(rt, alloc, ask, chosen, words.links, file, text, output),
    }
}

/// Writes a picture of the chart that a text draws, or its report.
fn draw_text<'w, O: Write>(
    alloc: Global,
    drawn: Drawn,
    links: LinkWords<'w>,
    text: &'w [u8],
    output: &mut O,
) -> Result<Status, Refusal<'w>>
    ensures { (file : List ℕ) → Does O.contents (Task.Draw drawn (of_chart links.entry)) file
        text.entry.now result
        output.old output.new }
{
    let read = Reading::of(alloc, Language::MscPr, text)?;
    let source = Source::of_reading(alloc, &read)?;
    let chart = TextChart::of_source(source);
    draw_linked(alloc, drawn, links, read.draft(), &chart, output)
}

/// Writes a picture of a scenario of the diagram of a text, or its report.
fn draw_diagram<'w, O: Write>(
    alloc: Global,
    drawn: Drawn,
    chosen: ChosenArgs<'w>,
    links: LinkWords<'w>,
    text: &'w [u8],
    output: &mut O,
) -> Result<Status, Refusal<'w>>
    ensures { (file : List ℕ) → Does O.contents (Task.Draw drawn (of_scenario chosen.entry links.entry)) file
        text.entry.now result output.old output.new }
{
    let drawing = import_chosen(alloc, chosen, text)?;
    let chart = TextChart::of_import(alloc, text, &drawing)?;
    draw_linked(alloc, drawn, links, &drawing.imported.draft, &chart, output)
}

/// Writes a picture of the chart of a text, or of a scenario of its diagram, or a report.
fn draw_command<'w, O: Write>(
    alloc: Global,
    drawn: Drawn,
    words: TextArgs<'w>,
    text: &'w [u8],
    output: &mut O,
) -> Result<Status, Refusal<'w>>
    ensures { (file : List ℕ) → Does O.contents (Task.Draw drawn words.entry) file text.entry.now
        result output.old output.new }
{
    match words.diagram {
        None => draw_text(alloc, drawn, words.links, text, output),
        Some(chosen) => draw_diagram(alloc, drawn, chosen, words.links, text, output),
    }
}

/// Writes the answer to a request on a text.
fn answer<'w, R: Threads + Wait + Sync, O: TellsFailure, E: Write>(
    rt: &R,
    alloc: Global,
    request: Request<'w>,
    text: &'w [u8],
    output: &mut O,
    faults: &mut E,
) -> Result<Status, Refusal<'w>>
    ensures { Does O.contents request.entry.task request.entry.file.now text.entry.now result
        output.old output.new }
{
    let file = request.file;
    match request.task {
        Task::Read(chosen) => read(alloc, chosen, text, output),
        Task::Chart(ask, words) => answer_command(rt, alloc, ask, words, file, text, output),
        Task::Draw(drawn, words) => draw_command(alloc, drawn, words, text, output),
        Task::Import(words) => import(alloc, words, file, text, output),
        Task::Scenarios(words) => check_diagrams(alloc, request, words, text, output, faults),
        Task::Report(words) => report(alloc, words, file, text, output),
    }
}

/// Writes the answer to a request on a text, or the refusal, and flushes the output. Returns the
/// status.
fn deliver<'w, R: Threads + Wait + Sync, O: TellsFailure, E: Write>(
    rt: &R,
    alloc: Global,
    request: Request<'w>,
    text: &'w [u8],
    output: &mut O,
    faults: &mut E,
) -> Result<Status, Refusal<'w>>
    ensures { Delivers O.contents request.entry.task request.entry.file.now text.entry.now result
        output.old output.new }
{
    match answer(rt, alloc, request, text, output, faults) {
        Ok(status) => {
            flush(output)?;
            Ok(status)
        }
        Err(refusal) => {
            let (task, file) = (request.task, request.file);
            Err(tell_refusal(alloc, task, file, text, refusal, output))
        }
    }
}

/// Reads the input once, and answers the request on it. Refusals go to `faults`. Returns the
/// status.
pub fn perform<R: Threads + Wait + Sync, I: Read, O: TellsFailure, E: Write>(
    rt: &R,
    alloc: Global,
    request: Request<'_>,
    input: &mut I,
    output: &mut O,
    faults: &mut E,
) -> Status
    ensures { EndsAs O.contents request.entry.task request.entry.file.now
        (IsReadFrom (I.remaining input.old) (I.remaining input.new)) result output.old output.new }
{
    let text = match read_all(alloc, input) {
        Ok(text) => text,
        Err(fault) => return end_unread_task(alloc, request, fault, output, faults),
    };
    match deliver(rt, alloc, request, text.as_slice(), output, faults) {
        Ok(status) => status,
        Err(refusal) => end_told(alloc, request, text.as_slice(), refusal, output, faults),
    }
}
