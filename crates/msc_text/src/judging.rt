//! Writes the races of a chart in a format, or answers whether there are any that count.

ghost use Rattle.std.specs.Prelude.{◌≡◌, ◌&&◌, IfOk, List, None, Option, is_some, length, nat_eq};
ghost use Rattle.std.specs.Prelude.{option_map};
ghost use Rattle.msc_judge.specs.Findings.{Answers};
ghost use Rattle.msc_print.specs.Pages.{Tells};
ghost use Rattle.msc_judge.specs.Rounds.{AnswersRounds};
ghost use Rattle.msc_mark.specs.declared.mark.Mark.{Mark};
ghost use Rattle.msc_race.specs.Views.{wiring_of};
ghost use Rattle.msc_reason.specs.Counting.{counting};
ghost use Rattle.msc_reason.specs.LeftOut.{of_kinds};
ghost use Rattle.msc_reason.specs.Marked.{cause_in};
ghost use Rattle.msc_reason.specs.Named.{AreEventsOf};
ghost use Rattle.msc_report.specs.Following.{AreStepsOf};
ghost use Rattle.msc_text.specs.Judging.{asked, left_out, round_texts_in, texts_in, AreItsRounds};
ghost use Rattle.msc_text.specs.Judging.{IsBarred, IsMarking, IsRingIn, JudgesChart, Passes};
ghost use Rattle.msc_text.specs.Judging.{PassesOnce, PassesRounds};

use msc_chart::{Chart, Event, Queues, Unrolled};
use msc_findings::{FullFormat, FullRaces, FullRounds};
use msc_follow::laws::a_pass_is_followed;
use msc_follow::{Followed, follow};
use msc_judge::{CheckOptions, Marking, RaceCheck, Rounds, Silent, Totals, judge, judge_rounds};
use msc_mark::{Accepted, Marks};
use msc_place::EventPositions;
use msc_print::WriteFault;
use msc_race::Enforced;
use msc_race::laws::{short_witnesses_show, the_witness_reverses};
use msc_reason::{KindSet, LeftOut, Listing, none_counts};
use msc_report::{
    Counts, EditorLines, Lines, RoundEditor, RoundLines, RoundNames, Style, ring_steps,
};
use std::alloc::{AllocError, Global};
use std::io::Write;

/// The format of an answer on the races of a chart.
#[derive(Clone, Copy)]
pub enum ChartFormat<'f, 'w> {
    /// The head of the verdict and the lines of each race, in a style.
    Lines(Style<'f>),
    /// One line for the file of this name, with the number of races, and of the closest of those
    /// that count.
    Count(&'f [u8]),
    /// The lines for editors: that no run keeps the drawing, if none does, and each race, with the
    /// places of the events in the text.
    Editor(&'f EventPositions<'f>),
    /// Findings for people: that no run keeps the drawing, if none does, each of the closest races,
    /// and a line with what was found.
    Full(FullFormat<'f, 'w>),
}

/// What a check of a chart found.
#[derive(Clone, Copy)]
pub struct Judged {
    pub totals: Totals,
    /// Whether the answer says that no run keeps the drawing, which only lines for editors and
    /// findings for people say.
    pub never: bool,
}

/// A format, with the steps of the ring that lines for editors and findings for people print.
#[derive(Clone, Copy)]
struct Rendering<'f, 'w, 'r> {
    format: ChartFormat<'f, 'w>,
    ring: &'r [(Event, Event)],
}

/// The ring of steps by which no run keeps the drawing; it is empty if some run does, which holds if
/// there is no race.
fn barring_ring(alloc: Global, enforced: &Enforced<'_>) -> Result<Vec<Event>, AllocError>
    ensures { IfOk result (λ ring. IsBarred (wiring_of enforced.now) ring.items) }
{
    a_pass_is_followed();
    enforced.facts();
    if enforced.count_races() == 0 {
        return Ok(Vec::new(alloc));
    }
    match follow(alloc, enforced.chart(), enforced.queues())? {
        Followed::Follows(_) => Ok(Vec::new(alloc)),
        Followed::Never(ring) => Ok(ring),
    }
}

/// The ring that lines for editors and findings for people print; other formats print none.
fn ring_in(
    alloc: Global,
    enforced: &Enforced<'_>,
    format: ChartFormat<'_, '_>,
) -> Result<Vec<Event>, AllocError>
    ensures { IfOk result (λ ring. IsRingIn format.entry (wiring_of enforced.now) ring.items) }
{
    match format {
        ChartFormat::Editor(_) | ChartFormat::Full(_) => barring_ring(alloc, enforced),
        ChartFormat::Lines(_) | ChartFormat::Count(_) => Ok(Vec::new(alloc)),
    }
}

/// Writes the races of a chart in a format; returns what was found.
fn judge_in<W: Write>(
    alloc: Global,
    enforced: Enforced<'_>,
    options: CheckOptions,
    marking: Marking<'_>,
    rendering: Rendering<'_, '_, '_>,
    writer: &mut W,
) -> Result<Totals, WriteFault>
    requires stale { AreEventsOf enforced.chart marking.stale.now }
    requires ring { AreStepsOf enforced.chart rendering.ring.now }
    ensures { Answers enforced.entry (asked rendering.entry.format options) marking.entry
        (texts_in rendering.entry.format rendering.entry.ring.now enforced.entry.chart)
        result (W.contents writer.old) (W.contents writer.new) }
{
    the_witness_reverses();
    short_witnesses_show();
    enforced.facts();
    let races = enforced.count_races();
    match rendering.format {
        ChartFormat::Lines(style) => {
            let renderer = &Lines::of(alloc, enforced.chart(), races, style)?;
            let check = RaceCheck {
                enforced,
                races,
                options,
                marking,
                renderer,
            };
            judge(alloc, check, writer)
        }
        ChartFormat::Count(file) => {
            let check = RaceCheck {
                enforced,
                races,
                options: CheckOptions::counted(options.allowed),
                marking,
                renderer: &Counts { file },
            };
            judge(alloc, check, writer)
        }
        ChartFormat::Editor(event_positions) => {
            let chart = enforced.chart();
            let renderer = &EditorLines::of(alloc, chart, races, event_positions, rendering.ring)?;
            let check = RaceCheck {
                enforced,
                races,
                options: options.for_editors(),
                marking,
                renderer,
            };
            judge(alloc, check, writer)
        }
        ChartFormat::Full(format) => {
            let renderer = &FullRaces {
                alloc,
                format,
                ring: rendering.ring,
            };
            let check = RaceCheck {
                enforced,
                races,
                options: options.for_people(),
                marking,
                renderer,
            };
            judge(alloc, check, writer)
        }
    }
}

/// Writes the races of a chart, and then those between two rounds of it. Returns what was found.
fn judge_rounds_of<'j, W: Write>(
    alloc: Global,
    enforced: Enforced<'j>,
    options: CheckOptions,
    marking: Marking<'_>,
    rounds: Rounds<'j, 'j>,
    rendering: Rendering<'j, '_, '_>,
    writer: &mut W,
) -> Result<Totals, WriteFault>
    requires stale { AreEventsOf enforced.chart marking.stale.now }
    requires one { rounds.numbers.now ≡ enforced.chart }
    requires ring { AreStepsOf enforced.chart rendering.ring.now }
    requires kinds { rounds.listing.now.allowed ≡ of_kinds options.allowed }
    ensures { AnswersRounds enforced.entry rounds.entry.listing.now.judged
        (asked rendering.entry.format options) marking.entry
        (texts_in rendering.entry.format rendering.entry.ring.now enforced.entry.chart)
        (round_texts_in rendering.entry.format rendering.entry.ring.now enforced.entry.chart)
        result (W.contents writer.old) (W.contents writer.new) }
{
    the_witness_reverses();
    short_witnesses_show();
    enforced.facts();
    rounds.listing.enforced().facts();
    let races = enforced.count_races();
    let (chart, numbers) = (enforced.chart(), rounds.numbers);
    match rendering.format {
        ChartFormat::Lines(style) => {
            let renderer = &Lines::of(alloc, chart, races, style)?;
            let names = RoundNames {
                chart,
                numbers,
                texts: renderer.texts(),
            };
            let check = RaceCheck {
                enforced,
                races,
                options,
                marking,
                renderer,
            };
            judge_rounds(alloc, check, rounds, &RoundLines { names, style }, writer)
        }
        ChartFormat::Count(file) => {
            let check = RaceCheck {
                enforced,
                races,
                options: CheckOptions::counted(options.allowed),
                marking,
                renderer: &Counts { file },
            };
            judge_rounds(alloc, check, rounds, &Silent, writer)
        }
        ChartFormat::Editor(event_positions) => {
            let renderer = &EditorLines::of(alloc, chart, races, event_positions, rendering.ring)?;
            let names = RoundNames {
                chart,
                numbers,
                texts: None,
            };
            let check = RaceCheck {
                enforced,
                races,
                options: options.for_editors(),
                marking,
                renderer,
            };
            judge_rounds(
                alloc,
                check,
                rounds,
                &RoundEditor {
                    names,
                    event_positions,
                },
                writer,
            )
        }
        ChartFormat::Full(format) => {
            let ring = rendering.ring;
            let renderer = &FullRaces {
                alloc,
                format,
                ring,
            };
            let check = RaceCheck {
                enforced,
                races,
                options: options.for_people(),
                marking,
                renderer,
            };
            let second = &FullRounds {
                alloc,
                format,
                numbers,
                can_happen: ring.is_empty(),
            };
            judge_rounds(alloc, check, rounds, second, writer)
        }
    }
}

/// Writes the races of a chart with these marks in a format, and those of its two rounds if they
/// are given.
fn judge_by<W: Write>(
    alloc: Global,
    enforced: Enforced<'_>,
    options: CheckOptions,
    marking: Marking<'_>,
    rounds: Option<&Unrolled<'_>>,
    format: ChartFormat<'_, '_>,
    writer: &mut W,
) -> Result<Judged, WriteFault>
    requires stale { AreEventsOf enforced.chart marking.stale.now }
    requires rounds { AreItsRounds enforced.chart rounds }
    ensures { (marks : Option (List Mark)) → IsMarking enforced.entry marks marking.entry
        → Tells W.contents (JudgesChart enforced.entry.chart enforced.entry.queues options marks
        (is_some rounds.entry) format.entry) result writer.old writer.new }
{
    enforced.facts();
    let ring = ring_in(alloc, &enforced, format)?;
    let steps = ring_steps(alloc, ring.as_slice())?;
    let rendering = Rendering {
        format,
        ring: steps.as_slice(),
    };
    let never = !ring.is_empty();
    let Some(unrolled) = rounds else {
        let totals = judge_in(alloc, enforced, options, marking, rendering, writer)?;
        return Ok(Judged { totals, never });
    };
    let both = Enforced::of(alloc, unrolled.two(), enforced.queues())?;
    both.facts();
    let left = LeftOut::of_kinds(options.allowed);
    let listing = Listing::of(alloc, both, left, false)?;
    let rounds = Rounds {
        listing: &listing,
        numbers: unrolled.numbers(),
    };
    let found = judge_rounds_of(alloc, enforced, options, marking, rounds, rendering, writer)?;
    Ok(Judged {
        totals: found,
        never,
    })
}

/// A chart under an architecture, with its marks and its two rounds.
#[derive(Clone, Copy)]
pub struct CheckInput<'j> {
    pub chart: &'j Chart,
    pub queues: Queues,
    /// The marks of the chart's text, if the races that they accept do not count.
    pub marks: Option<&'j Marks>,
    /// Two rounds of the chart, if the races between them count too.
    pub rounds: Option<&'j Unrolled<'j>>,
}

impl<'j> CheckInput<'j> {
    /// A chart under an architecture, with these marks and rounds.
    pub fn of(
        chart: &'j Chart,
        queues: Queues,
        marks: Option<&'j Marks>,
        rounds: Option<&'j Unrolled<'j>>,
    ) -> CheckInput<'j>
        ensures chart { result.chart ≡ chart.entry }
        ensures queues { result.queues ≡ queues }
        ensures marks { result.marks ≡ marks.entry }
        ensures rounds { result.rounds ≡ rounds.entry }
    {
        CheckInput {
            chart,
            queues,
            marks,
            rounds,
        }
    }
}

/// Writes the races of a chart that the options select, in a format, and then, if two rounds are
/// given, the closest races between the first and the second. Returns what was found. `Device` says
/// that a write failed.
pub fn judge_chart<W: Write>(
    alloc: Global,
    input: CheckInput<'_>,
    options: CheckOptions,
    format: ChartFormat<'_, '_>,
    writer: &mut W,
) -> Result<Judged, WriteFault>
    requires { AreItsRounds input.chart.now input.rounds }
    ensures { Tells W.contents (JudgesChart input.entry.chart.now input.entry.queues options
        (option_map (λ m. m.now) input.entry.marks) (is_some input.entry.rounds) format.entry)
        result writer.old writer.new }
{
    let (chart, queues, marks) = (input.chart, input.queues, input.marks);
    chart.facts();
    let enforced = Enforced::of(alloc, chart, queues)?;
    enforced.facts();
    let Some(marks) = marks else {
        let marking = Marking::none();
        return judge_by(
            alloc,
            enforced,
            options,
            marking,
            input.rounds,
            format,
            writer,
        );
    };
    let accepted = Accepted::of(alloc, marks, chart, queues)?;
    let pairs = accepted.pairs(alloc, &enforced)?;
    let stale = accepted.stale(alloc, &enforced)?;
    let marking = Marking {
        accepted: Some(&pairs),
        stale: stale.as_slice(),
    };
    judge_by(
        alloc,
        enforced,
        options,
        marking,
        input.rounds,
        format,
        writer,
    )
}

/// Whether no race counts, and each mark accepts a race. Races of these kinds and accepted races do
/// not count.
fn none_left(
    alloc: Global,
    enforced: &Enforced<'_>,
    allowed: KindSet,
    marking: Marking<'_>,
) -> Result<bool, AllocError>
    ensures { IfOk result (λ none. none ≡ (nat_eq (length
        (counting enforced.now (left_out allowed marking.entry) (cause_in enforced.now))) 0
        && nat_eq (length marking.entry.stale.now) 0)) }
{
    if !marking.stale.is_empty() {
        return Ok(false);
    }
    let left = LeftOut {
        kinds: allowed,
        accepted: marking.accepted,
    };
    none_counts(alloc, enforced, left)
}

/// Whether no race of a chart counts under an architecture, and each mark accepts a race. Races of
/// these kinds do not count, nor those that marks accept, if marks are given.
fn passes_once(
    alloc: Global,
    chart: &Chart,
    queues: Queues,
    allowed: KindSet,
    marks: Option<&Marks>,
) -> Result<bool, AllocError>
    ensures { IfOk result
        (PassesOnce chart.now queues allowed (option_map (λ m. m.now) marks.entry)) }
{
    chart.facts();
    let enforced = Enforced::of(alloc, chart, queues)?;
    enforced.facts();
    let Some(marks) = marks else {
        return none_left(alloc, &enforced, allowed, Marking::none());
    };
    let accepted = Accepted::of(alloc, marks, chart, queues)?;
    let pairs = accepted.pairs(alloc, &enforced)?;
    let stale = accepted.stale(alloc, &enforced)?;
    let marking = Marking {
        accepted: Some(&pairs),
        stale: stale.as_slice(),
    };
    none_left(alloc, &enforced, allowed, marking)
}

/// Whether no race is between two rounds of a chart, but of these kinds.
fn passes_rounds(
    alloc: Global,
    unrolled: &Unrolled<'_>,
    queues: Queues,
    allowed: KindSet,
) -> Result<bool, AllocError>
    ensures { IfOk result (PassesRounds unrolled.now queues allowed) }
{
    let both = Enforced::of(alloc, unrolled.two(), queues)?;
    both.facts();
    let listing = Listing::of(alloc, both, LeftOut::of_kinds(allowed), false)?;
    let rounds = Rounds {
        listing: &listing,
        numbers: unrolled.numbers(),
    };
    rounds.are_closest();
    rounds.has_none(alloc)
}

/// Whether no race of a chart counts, each mark accepts a race, and no race is between the two
/// rounds, if these are given. Races of these kinds do not count. It stops at the first race that
/// counts, and makes no text. An error is a growth of memory that was refused.
pub fn passes_chart(
    alloc: Global,
    input: CheckInput<'_>,
    allowed: KindSet,
) -> Result<bool, AllocError>
    requires { AreItsRounds input.chart.now input.rounds }
    ensures { IfOk result (Passes input.entry.chart.now input.entry.queues allowed
        (option_map (λ m. m.now) input.entry.marks) (is_some input.entry.rounds)) }
{
    let (chart, queues, marks) = (input.chart, input.queues, input.marks);
    let passed = passes_once(alloc, chart, queues, allowed, marks)?;
    let Some(rounds) = input.rounds else {
        return Ok(passed);
    };
    if !passed {
        return Ok(false);
    }
    passes_rounds(alloc, rounds, queues, allowed)
}
