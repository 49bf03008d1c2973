//! The events of a scenario, as findings show them.

ghost use Rattle.std.specs.Prelude.{◌≡◌, ◌<◌, IfOk, length, map, option_map};
ghost use Rattle.msc_shown_chart.specs.Shown.{plain_event};
ghost use Rattle.msc_shown_diagram.specs.Shown.{arrow_event, event_by, loop_rounds, loops_at};
ghost use Rattle.msc_shown_diagram.specs.Shown.{lost_event, no_event, numbers_at, rounds_at};
ghost use Rattle.msc_shown_diagram.specs.Shown.{shown_at, shown_events, shown_rounds, words_at};
ghost use Rattle.msc_shown_diagram.specs.Words.{plain_arrow};

use crate::words::{ArrowWords, DiagramWords};
use listed::Listed;
use msc_chart::{Chart, Event, LinkKind, Queues};
use msc_findings::LoopRound;
use msc_full::ShownEvent;
use msc_shown_chart::shown_as;
use msc_wording::{Act, SpokenEvent};
use std::alloc::{AllocError, Global};

/// The event of an arrow that no statement draws.
fn no_event() -> ShownEvent<'static>
    ensures { plain_event result ≡ no_event }
{
    ShownEvent {
        spoken: SpokenEvent {
            act: Act::Acts,
            message: "",
            owner: 0,
            peer: 0,
            line: 0,
        },
        first: 0,
        past: 0,
        place: "",
        kind: LinkKind::Pair,
        queue: 0,
    }
}

/// This event as the output of a message that is lost, to the line of this number.
fn lost_event(event: ShownEvent<'_>, to: usize) -> ShownEvent<'_>
    ensures { plain_event result ≡ lost_event to (plain_event event.entry) }
{
    ShownEvent {
        spoken: SpokenEvent {
            act: Act::Loses,
            message: event.spoken.message,
            owner: event.spoken.owner,
            peer: to,
            line: event.spoken.line,
        },
        first: event.first,
        past: event.past,
        place: event.place,
        kind: event.kind,
        queue: event.queue,
    }
}

/// Event `e` of a chart under an architecture, of this arrow.
fn arrow_event<'w>(chart: &Chart, queues: Queues, arrow: &'w ArrowWords, e: Event) -> ShownEvent<'w>
    requires { e < length chart.now.events }
    ensures { plain_event result ≡ arrow_event chart.now queues e (plain_arrow arrow.entry.now) }
{
    let event = shown_as(chart, queues, &arrow.event, e);
    if chart.is_local(e) && arrow.loses {
        return lost_event(event, arrow.to);
    }
    event
}

/// The words of the arrow of an event, by the numbers of the statements that draw events, if there
/// are some.
fn words_at<'w>(words: &'w [ArrowWords], arrows: &[usize], e: Event) -> Option<&'w ArrowWords>
    ensures { option_map (λ w. plain_arrow w.now) result
        ≡ words_at (map plain_arrow words.entry.now) arrows.now e }
{
    match arrows.get(e as usize) {
        Some(number) => words.get(*number),
        None => None,
    }
}

/// Event `e` of a chart under an architecture, with these words of its arrow, if it has some.
fn event_by<'w>(
    chart: &Chart,
    queues: Queues,
    arrow: Option<&'w ArrowWords>,
    e: Event,
) -> ShownEvent<'w>
    requires { e < length chart.now.events }
    ensures { plain_event result
        ≡ event_by chart.now queues e (option_map (λ w. plain_arrow w.now) arrow.entry) }
{
    match arrow {
        Some(arrow) => arrow_event(chart, queues, arrow, e),
        None => no_event(),
    }
}

/// The numbers in the list of this number; none, if there are fewer lists.
fn numbers_at(lists: &[Listed<usize>], number: usize) -> &[usize]
    ensures { result.now ≡ numbers_at lists.now number }
{
    match lists.get(number) {
        Some(list) => list.as_slice(),
        None => &[],
    }
}

/// The loops around the arrow of an event; none, if it has no arrow.
fn loops_at<'l>(loops: &'l [Listed<usize>], arrows: &[usize], e: Event) -> &'l [usize]
    ensures { result.now ≡ loops_at loops.entry.now arrows.now e }
{
    match arrows.get(e as usize) {
        Some(number) => numbers_at(loops, *number),
        None => &[],
    }
}

/// These rounds of these loops.
fn loop_rounds(
    alloc: Global,
    loops: &[usize],
    rounds: &[usize],
) -> Result<Vec<LoopRound>, AllocError>
    ensures { IfOk result (λ found. found.items ≡ loop_rounds loops.now rounds.now) }
{
    loops
        .iter()
        .zip(rounds.iter())
        .map(|(begin, round)| LoopRound {
            begin: *begin,
            round: *round,
        })
        .collect(alloc)
}

/// The rounds of event `e`.
fn rounds_at(
    alloc: Global,
    loops: &[Listed<usize>],
    arrows: &[usize],
    rounds: &[Listed<usize>],
    e: Event,
) -> Result<Listed<LoopRound>, AllocError>
    ensures { IfOk result (λ found. found ≡ rounds_at loops.now arrows.now rounds.now e) }
{
    let around = loops_at(loops, arrows, e);
    let found = loop_rounds(alloc, around, numbers_at(rounds, e as usize))?;
    Ok(Listed::from_vec(found))
}

/// Event `e` of a scenario.
fn shown_at<'w>(
    words: &'w [ArrowWords],
    chart: &Chart,
    queues: Queues,
    arrows: &[usize],
    e: Event,
) -> ShownEvent<'w>
    requires { e < length chart.now.events }
    ensures { plain_event result
        ≡ shown_at chart.now queues (map plain_arrow words.entry.now) arrows.now e }
{
    event_by(chart, queues, words_at(words, arrows, e), e)
}

impl DiagramWords {
    /// The events of a scenario, by its chart under an architecture and the numbers of the
    /// statements that draw its events.
    pub(crate) fn events(
        &self,
        alloc: Global,
        chart: &Chart,
        queues: Queues,
        arrows: &[usize],
    ) -> Result<Vec<ShownEvent<'_>>, AllocError>
        ensures { IfOk result (λ events. map plain_event events.items
            ≡ shown_events chart.now queues (map plain_arrow self.now.arrows.items) arrows.now) }
    {
        let words = self.arrows.as_slice();
        let mut events = Vec::new(alloc);
        for e in 0..chart.events() {
            events.push(shown_at(words, chart, queues, arrows, e))?;
        }
        Ok(events)
    }

    /// The rounds of each event of a scenario, by its chart, the numbers of the statements that draw
    /// its events, and the rounds of the loops around these, outermost first.
    pub(crate) fn rounds(
        &self,
        alloc: Global,
        chart: &Chart,
        arrows: &[usize],
        rounds: &[Listed<usize>],
    ) -> Result<Vec<Listed<LoopRound>>, AllocError>
        ensures { IfOk result (λ all. all.items
            ≡ shown_rounds chart.now self.now.loops.items arrows.now rounds.now) }
    {
        let loops = self.loops.as_slice();
        let mut all = Vec::new(alloc);
        for e in 0..chart.events() {
            all.push(rounds_at(alloc, loops, arrows, rounds, e)?)?;
        }
        Ok(all)
    }
}
