//! Prints the answers to commands on the chart of a text.

ghost use Rattle.std.specs.Prelude.{◌≡◌, ℕ, List, length, map, None, Some, option_map, Ok, ◌||◌, is_some};
ghost use Rattle.std.specs.Option.{option_copied};
ghost use Rattle.msc_answer.specs.Answering.{Answers, AnswersOf, AnswersRaces, PrintsLinked};
ghost use Rattle.msc_answer.specs.Answering.{RefusesLinked, TellsQuietly};
ghost use Rattle.msc_answer.specs.Formats.{IsDrawingOf, IsFormat, IsReadyFormat};
ghost use Rattle.msc_answer.specs.Marked.{AreMarked};
ghost use Rattle.msc_answer.specs.Readied.{names_of, AreReady};
ghost use Rattle.msc_answer.specs.Rounds.{AreRounds};
ghost use Rattle.msc_answer.specs.ShownDiagrams.{IsShownDiagram};
ghost use Rattle.msc_shown_chart.specs.Charts.{IsShownOf};
ghost use Rattle.msc_shown_chart.specs.Words.{plain_words};

use crate::ending::{Refusal, Status, ended_by, finished_by};
use crate::importing::ImportedDiagram;
use crate::links::queues_in;
use crate::marked::{has_marks, marks_of};
use crate::naming::pair_named;
use crate::output::put;
use crate::readied::{first_unknown, lent, lines_named};
use crate::rounds::rounds_of;
use crate::shown_diagram::{DiagramText, ShownDiagram, line_in};
use crate::sited::{event_positions_of, positions_of, style_of};
use crate::tasks::{
    ChartCommand, CheckArgs, ExplainArgs, FollowArgs, Format, LinkWords, QuietArgs, ReadyArgs,
};
use crate::text_chart::TextChart;
use msc_chart::Unrolled;
use msc_diagram::{arrows_of, rounds_of as rounds_of_events};
use msc_findings::{Following, FullFormat};
use msc_mark::Marks;
use msc_report::ReadyFormat;
use msc_shown_chart::{ChartWords, LentWords};
use msc_shown_diagram::LentDiagram;
use msc_text::{
    ChartFormat, CheckInput, Judged, ReadyQuery, StickFormat, explain_pair, follow_drawing,
    judge_chart, list_chart, passes_chart, write_ready,
};
use std::alloc::Global;
use std::io::Write;
use std::sync::Wait;
use std::thread::Threads;

/// What a check of a chart found.
#[derive(Clone, Copy)]
pub struct Checked {
    pub judged: Judged,
    /// Whether marks are used, and the text has one.
    pub marked: bool,
}

/// Prints the verdict on a text's chart in a format, with these marks and rounds.
fn check_in<O: Write>(
    alloc: Global,
    check_args: CheckArgs,
    marks: Option<&Marks>,
    rounds: Option<&Unrolled<'_>>,
    chart_format: ChartFormat<'_, '_>,
    source: &TextChart<'_, '_>,
    output: &mut O,
) -> Result<Checked, Refusal<'static>>
    requires marks { AreMarked check_args.accept source.now.text (option_map (λ m. m.now) marks) }
    requires rounds { AreRounds check_args.again source.now.chart (option_map (λ u. u.now) rounds) }
    ensures { (file : List ℕ) → IsFormat check_args file source.now
        (option_map (λ m. m.now) marks.entry) chart_format.entry
        → AnswersRaces O.contents check_args file source.now result output.old output.new }
{
    let input = CheckInput::of(source.chart(), check_args.queues, marks, rounds);
    let judged = judge_chart(alloc, input, check_args.options, chart_format, output)?;
    Ok(Checked {
        judged,
        marked: has_marks(marks),
    })
}

/// Prints the findings on the chart of a text as people read them, with these marks and rounds, and
/// with these words.
// Apart from `check_full`, whose words outlast what is lent of them here.
fn check_with<'x, O: Write>(
    alloc: Global,
    check_args: CheckArgs,
    marks: Option<&Marks>,
    rounds: Option<&Unrolled<'_>>,
    words: &'x ChartWords,
    source: &'x TextChart<'x, '_>,
    output: &mut O,
) -> Result<Checked, Refusal<'static>>
    requires format { check_args.format ≡ Format.Full }
    requires marks { AreMarked check_args.accept source.now.text (option_map (λ m. m.now) marks) }
    requires rounds { AreRounds check_args.again source.now.chart (option_map (λ u. u.now) rounds) }
    requires words { length (map plain_words words.now.events.items)
        ≡ length source.now.chart.events }
    ensures { (file : List ℕ) → IsShownOf source.now.chart check_args.queues file source.now.text
        (option_map (λ m. m.now) marks.entry) words.now
        → AnswersRaces O.contents check_args file source.now result output.old output.new }
{
    let (chart, text) = (source.chart(), source.text());
    let lent = LentWords::of(alloc, words, chart, check_args.queues, text)?;
    let chart_format = ChartFormat::Full(lent.format(check_args.colours, check_args.following));
    check_in(
        alloc,
        check_args,
        marks,
        rounds,
        chart_format,
        source,
        output,
    )
}

/// Prints the findings on the chart of a text in the file of this name, with these marks and rounds,
/// as people read them.
fn check_full<O: Write>(
    alloc: Global,
    check_args: CheckArgs,
    marks: Option<&Marks>,
    rounds: Option<&Unrolled<'_>>,
    file: &str,
    source: &TextChart<'_, '_>,
    output: &mut O,
) -> Result<Checked, Refusal<'static>>
    requires format { check_args.format ≡ Format.Full }
    requires marks { AreMarked check_args.accept source.now.text (option_map (λ m. m.now) marks) }
    requires rounds { AreRounds check_args.again source.now.chart (option_map (λ u. u.now) rounds) }
    ensures { AnswersRaces O.contents check_args file.now source.now result
        output.old output.new }
{
    let (chart, text) = (source.chart(), source.text());
    let queues = check_args.queues;
    let words = ChartWords::of(alloc, chart, queues, file.as_bytes(), text, marks)?;
    check_with(alloc, check_args, marks, rounds, &words, source, output)
}

/// Prints the verdict on the chart of a text in the file of this name, and returns what was found.
pub(crate) fn check_races<O: Write>(
    alloc: Global,
    check_args: CheckArgs,
    file: &str,
    source: &TextChart<'_, '_>,
    output: &mut O,
) -> Result<Checked, Refusal<'static>>
    ensures { AnswersRaces O.contents check_args file.now source.now result
        output.old output.new }
{
    let marks = marks_of(alloc, check_args.accept, source.text())?;
    let rounds = rounds_of(alloc, check_args.again, source.chart())?;
    let (marks, rounds) = (marks.as_ref(), rounds.as_ref());
    match check_args.format {
        Format::Text => {
            let event_style = check_args.event_style;
            let event_positions = event_positions_of(alloc, event_style.places, file, source)?;
            let style = style_of(event_style, event_positions.as_ref());
            let chart_format = ChartFormat::Lines(style);
            check_in(
                alloc,
                check_args,
                marks,
                rounds,
                chart_format,
                source,
                output,
            )
        }
        Format::Count => {
            let chart_format = ChartFormat::Count(file.as_bytes());
            check_in(
                alloc,
                check_args,
                marks,
                rounds,
                chart_format,
                source,
                output,
            )
        }
        Format::Lines => {
            let event_positions = positions_of(alloc, file, source)?;
            let chart_format = ChartFormat::Editor(&event_positions);
            check_in(
                alloc,
                check_args,
                marks,
                rounds,
                chart_format,
                source,
                output,
            )
        }
        Format::Full => check_full(alloc, check_args, marks, rounds, file, source, output),
    }
}

/// Prints the verdict on the chart of a text in the file of this name.
fn check<O: Write>(
    alloc: Global,
    check_args: CheckArgs,
    file: &str,
    source: &TextChart<'_, '_>,
    output: &mut O,
) -> Result<Status, Refusal<'static>>
    ensures { AnswersOf O.contents (ChartCommand.Check check_args) file.now source.now result
        output.old output.new }
{
    match check_races(alloc, check_args, file, source, output) {
        Ok(one) => Ok(ended_by(one.judged.totals.passes())),
        Err(refusal) => Err(refusal),
    }
}

/// Whether no race of a text's chart counts, none is between its rounds if these are included, and
/// each mark accepts a race.
fn quiet(
    alloc: Global,
    quieting: QuietArgs,
    source: &TextChart<'_, '_>,
) -> Result<Status, Refusal<'static>>
    ensures { TellsQuietly quieting source.now result }
{
    let chart = source.chart();
    let marks = marks_of(alloc, quieting.accept, source.text())?;
    let rounds = rounds_of(alloc, quieting.again, chart)?;
    let input = CheckInput::of(chart, quieting.queues, marks.as_ref(), rounds.as_ref());
    let passes = passes_chart(alloc, input, quieting.allowed)?;
    Ok(ended_by(passes))
}

/// Writes why one event of the chart of a text in the file of this name comes before another, or a
/// run in which it does not.
fn explain<O: Write>(
    alloc: Global,
    explaining: ExplainArgs,
    file: &str,
    source: &TextChart<'_, '_>,
    output: &mut O,
) -> Result<Status, Refusal<'static>>
    ensures { AnswersOf O.contents (ChartCommand.Explain explaining) file.now source.now result
        output.old output.new }
{
    let (e, f) = match pair_named(alloc, source, explaining.first, explaining.second)? {
        Ok(pair) => pair,
        Err(fault) => return Err(Refusal::Pair(fault)),
    };
    let event_positions = event_positions_of(alloc, explaining.event_style.places, file, source)?;
    let style = style_of(explaining.event_style, event_positions.as_ref());
    let (queues, short) = (explaining.queues, explaining.short);
    let (page, enforced) = explain_pair(alloc, source.chart(), queues, e, f, short, style)?;
    put(output, &page, ended_by(enforced))
}

/// Writes a run that keeps the drawing of the chart of a text in the file of this name, or why no
/// run does.
fn follow<O: Write>(
    alloc: Global,
    following: FollowArgs,
    file: &str,
    source: &TextChart<'_, '_>,
    output: &mut O,
) -> Result<Status, Refusal<'static>>
    ensures { AnswersOf O.contents (ChartCommand.Follow following) file.now source.now result
        output.old output.new }
{
    let event_positions = event_positions_of(alloc, following.event_style.places, file, source)?;
    let style = style_of(following.event_style, event_positions.as_ref());
    let (page, follows) = follow_drawing(alloc, source.chart(), following.queues, style)?;
    put(output, &page, ended_by(follows))
}

/// Whether the places of events are listed: if they are requested, and those of the arrows of a
/// diagram always.
fn shows_places(placed: bool, source: &TextChart<'_, '_>) -> bool
    ensures { result ≡ (placed || is_some source.now.imported) }
{
    placed || source.imported().is_some()
}

/// Writes the events of the chart of a text in the file of this name, with their places if
/// requested.
fn list<O: Write>(
    alloc: Global,
    placed: bool,
    file: &str,
    source: &TextChart<'_, '_>,
    output: &mut O,
) -> Result<Status, Refusal<'static>>
    ensures { AnswersOf O.contents (ChartCommand.List placed) file.now source.now result
        output.old output.new }
{
    let placed = shows_places(placed, source);
    let event_positions = event_positions_of(alloc, placed, file, source)?;
    let page = list_chart(alloc, source.chart(), event_positions.as_ref())?;
    put(output, &page, Status::Done)
}

/// Prints whether a system of these ready instances can stick, for a text's chart with these
/// rounds, in a format.
fn ready_in<'w, O: Write>(
    alloc: Global,
    readying: ReadyArgs<'w>,
    only: Option<&[bool]>,
    rounds: Option<&Unrolled<'_>>,
    stick_format: StickFormat<'_, '_>,
    source: &TextChart<'_, '_>,
    output: &mut O,
) -> Result<Status, Refusal<'w>>
    requires only { AreReady source.now.chart (names_of readying) (option_copied only) }
    requires rounds { AreRounds readying.again source.now.chart (option_map (λ u. u.now) rounds) }
    ensures { (file : List ℕ) → IsReadyFormat readying.entry file source.now stick_format.entry
        → AnswersOf O.contents (ChartCommand.Ready readying.entry) file source.now result
        output.old output.new }
{
    let query = ReadyQuery::of(readying.queues, only, readying.show, stick_format);
    let finishes = write_ready(alloc, source.chart(), rounds, query, output)?;
    Ok(ended_by(finishes))
}

/// Prints whether a system of these ready instances can stick, for a text's chart with these
/// rounds, as people read it, and with these words.
// Apart from `ready_full`, whose words outlast what is lent of them here.
fn ready_with<'w, 'x, O: Write>(
    alloc: Global,
    readying: ReadyArgs<'w>,
    only: Option<&[bool]>,
    rounds: Option<&Unrolled<'_>>,
    words: &'x ChartWords,
    source: &'x TextChart<'x, '_>,
    output: &mut O,
) -> Result<Status, Refusal<'w>>
    requires format { readying.format ≡ Format.Full }
    requires only { AreReady source.now.chart (names_of readying) (option_copied only) }
    requires rounds { AreRounds readying.again source.now.chart (option_map (λ u. u.now) rounds) }
    requires drawing { source.now.drawing ≡ None }
    requires words { length (map plain_words words.now.events.items)
        ≡ length source.now.chart.events }
    ensures { (file : List ℕ) → IsShownOf source.now.chart readying.entry.queues file source.now.text
        None words.now
        → AnswersOf O.contents (ChartCommand.Ready readying.entry) file source.now result
        output.old output.new }
{
    let (chart, text) = (source.chart(), source.text());
    let lent = LentWords::of(alloc, words, chart, readying.queues, text)?;
    let stick_format = StickFormat::Full(lent.format(readying.colours, Following::Help));
    ready_in(alloc, readying, only, rounds, stick_format, source, output)
}

/// Prints whether a system of these ready instances can stick, for a scenario of a diagram with these
/// rounds, as people read it, and with these words of the diagram.
// Apart from `ready_diagram`, whose words outlast what is lent of them here.
fn ready_shown<'w, 'x, O: Write>(
    alloc: Global,
    readying: ReadyArgs<'w>,
    only: Option<&[bool]>,
    rounds: Option<&Unrolled<'_>>,
    told: DiagramText<'_>,
    shown: &'x ShownDiagram,
    drawing: &ImportedDiagram,
    source: &'x TextChart<'x, '_>,
    output: &mut O,
) -> Result<Status, Refusal<'w>>
    requires only { AreReady source.now.chart (names_of readying) (option_copied only) }
    requires rounds { AreRounds readying.again source.now.chart (option_map (λ u. u.now) rounds) }
    requires format { readying.format ≡ Format.Full }
    requires drawing { source.now.drawing ≡ Some drawing.now }
    requires told { IsDrawingOf source.now.text drawing.now told }
    requires shown { IsShownDiagram told drawing.now.imported.spans.shown source.now.chart
        readying.queues shown.now }
    ensures { AnswersOf O.contents (ChartCommand.Ready readying.entry) told.entry.file.now source.now
        result output.old output.new }
{
    let lent = LentDiagram::of(alloc, &shown.words, source.text())?;
    let statements = drawing.diagram.statements.as_slice();
    let events = drawing.imported.spans.events.as_slice();
    let arrows = arrows_of(alloc, statements, events)?;
    let rounds_around = rounds_of_events(alloc, events)?;
    let scenario = lent.scenario(
        alloc,
        source.chart(),
        readying.queues,
        arrows.as_slice(),
        rounds_around.as_slice(),
    )?;
    let stick_format = StickFormat::Full(FullFormat {
        text: lent.text(&scenario, readying.colours),
        marks: &[],
        file: shown.label.as_str(),
        queues: shown.queues.as_str(),
        following: Following::Help,
    });
    ready_in(alloc, readying, only, rounds, stick_format, source, output)
}

/// Prints whether a system of these ready instances can stick, for a scenario of a diagram in the
/// file of this name, with these rounds, as people read it.
fn ready_diagram<'w, O: Write>(
    alloc: Global,
    readying: ReadyArgs<'w>,
    only: Option<&[bool]>,
    rounds: Option<&Unrolled<'_>>,
    file: &str,
    drawing: &ImportedDiagram,
    source: &TextChart<'_, '_>,
    output: &mut O,
) -> Result<Status, Refusal<'w>>
    requires only { AreReady source.now.chart (names_of readying) (option_copied only) }
    requires rounds { AreRounds readying.again source.now.chart (option_map (λ u. u.now) rounds) }
    requires format { readying.format ≡ Format.Full }
    requires drawing { source.now.drawing ≡ Some drawing.now }
    ensures { AnswersOf O.contents (ChartCommand.Ready readying.entry) file.now source.now result
        output.old output.new }
{
    let text = source.text();
    let told = DiagramText {
        file,
        text,
        diagram: &drawing.diagram,
        line: line_in(alloc, drawing.number, text)?,
    };
    let names = drawing.imported.spans.shown.as_slice();
    let shown = ShownDiagram::of(alloc, told, names, source.chart(), readying.queues)?;
    ready_shown(
        alloc, readying, only, rounds, told, &shown, drawing, source, output,
    )
}

/// Prints whether a system of these ready instances can stick, for the chart of a text in the file
/// of this name, with these rounds, as people read it.
fn ready_full<'w, O: Write>(
    alloc: Global,
    readying: ReadyArgs<'w>,
    only: Option<&[bool]>,
    rounds: Option<&Unrolled<'_>>,
    file: &str,
    source: &TextChart<'_, '_>,
    output: &mut O,
) -> Result<Status, Refusal<'w>>
    requires format { readying.format ≡ Format.Full }
    requires only { AreReady source.now.chart (names_of readying) (option_copied only) }
    requires rounds { AreRounds readying.again source.now.chart (option_map (λ u. u.now) rounds) }
    ensures { AnswersOf O.contents (ChartCommand.Ready readying.entry) file.now source.now result
        output.old output.new }
{
    if let Some(drawing) = source.drawing() {
        return ready_diagram(alloc, readying, only, rounds, file, drawing, source, output);
    }
    let (chart, text) = (source.chart(), source.text());
    let words = ChartWords::of(alloc, chart, readying.queues, file.as_bytes(), text, None)?;
    ready_with(alloc, readying, only, rounds, &words, source, output)
}

/// Prints whether a system of these ready instances can stick, for the chart of a text in the file
/// of this name, with these rounds.
fn print_ready<'w, O: Write>(
    alloc: Global,
    readying: ReadyArgs<'w>,
    only: Option<&[bool]>,
    rounds: Option<&Unrolled<'_>>,
    file: &str,
    source: &TextChart<'_, '_>,
    output: &mut O,
) -> Result<Status, Refusal<'w>>
    requires only { AreReady source.now.chart (names_of readying) (option_copied only) }
    requires rounds { AreRounds readying.again source.now.chart (option_map (λ u. u.now) rounds) }
    ensures { AnswersOf O.contents (ChartCommand.Ready readying.entry) file.now source.now result
        output.old output.new }
{
    match readying.format {
        Format::Text => {
            let event_style = readying.event_style;
            let event_positions = event_positions_of(alloc, event_style.places, file, source)?;
            let style = style_of(event_style, event_positions.as_ref());
            let stick_format = StickFormat::Plain(ReadyFormat::Lines(style));
            ready_in(alloc, readying, only, rounds, stick_format, source, output)
        }
        Format::Count => {
            let stick_format = StickFormat::Plain(ReadyFormat::Count(file.as_bytes()));
            ready_in(alloc, readying, only, rounds, stick_format, source, output)
        }
        Format::Lines => {
            let event_positions = positions_of(alloc, file, source)?;
            let stick_format = StickFormat::Plain(ReadyFormat::Editor(&event_positions));
            ready_in(alloc, readying, only, rounds, stick_format, source, output)
        }
        Format::Full => ready_full(alloc, readying, only, rounds, file, source, output),
    }
}

/// Writes whether a system of ready instances can stick, for the chart of a text in the file of
/// this name.
fn ready<'w, O: Write>(
    alloc: Global,
    readying: ReadyArgs<'w>,
    file: &str,
    source: &TextChart<'_, '_>,
    output: &mut O,
) -> Result<Status, Refusal<'w>>
    ensures { AnswersOf O.contents (ChartCommand.Ready readying.entry) file.now source.now result
        output.old output.new }
{
    let chart = source.chart();
    if let Some(name) = first_unknown(chart, readying.only) {
        return Err(Refusal::Instance(name));
    }
    let lines = lines_named(alloc, chart, readying.only)?;
    let only = lent(&lines);
    let rounds = rounds_of(alloc, readying.again, chart)?;
    let rounds = rounds.as_ref();
    print_ready(alloc, readying, only, rounds, file, source, output)
}

/// Prints the answer to a task on the chart of a text in the file of this name.
fn answer_chart<'w, R: Threads + Wait + Sync, O: Write>(
    rt: &R,
    alloc: Global,
    ask: ChartCommand<'w>,
    file: &str,
    source: &TextChart<'_, '_>,
    output: &mut O,
) -> Result<Status, Refusal<'w>>
    ensures { AnswersOf O.contents ask.entry file.now source.now result output.old output.new }
{
    let chart = source.chart();
    match ask {
        ChartCommand::Check(check_args) => check(alloc, check_args, file, source, output),
        ChartCommand::Quiet(quieting) => quiet(alloc, quieting, source),
        ChartCommand::Explain(explaining) => explain(alloc, explaining, file, source, output),
        ChartCommand::Follow(following) => follow(alloc, following, file, source, output),
        ChartCommand::Run(queues, patience) => {
            let (page, finished) = msc_tool::print_execution(
                rt,
                alloc,
                chart,
                queues,
                &msc_instance::AlwaysOpen,
                patience,
            )?;
            put(output, &page, finished_by(finished))
        }
        ChartCommand::List(placed) => list(alloc, placed, file, source, output),
        ChartCommand::Ready(readying) => ready(alloc, readying, file, source, output),
    }
}

/// Prints the answer to a task on the chart of a text in the file of this name, under the queues
/// that the rules and the text give.
pub(crate) fn answer_linked<'w, R: Threads + Wait + Sync, O: Write>(
    rt: &R,
    alloc: Global,
    ask: ChartCommand<'w>,
    words: LinkWords<'w>,
    file: &str,
    source: &TextChart<'w, '_>,
    output: &mut O,
) -> Result<Status, Refusal<'w>>
    ensures { Answers O.contents (PrintsLinked ask.entry words.entry file.now source.now)
        (RefusesLinked ask.entry words.entry source.now) result output.old output.new }
{
    let queues = queues_in(alloc, ask.usual(), words, source)?;
    answer_chart(rt, alloc, ask.under(queues), file, source, output)
}
