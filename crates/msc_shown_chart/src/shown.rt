//! The events of a chart, as findings show them.

ghost use Rattle.std.specs.Prelude.{◌≡◌, ◌<◌, IfOk, length, map};
ghost use Rattle.msc_chart.specs.Charts.{is_local};
ghost use Rattle.msc_shown_chart.specs.Shown.{act_of, kind_of_event, plain_event, queue_of_event};
ghost use Rattle.msc_shown_chart.specs.Shown.{shown_as, shown_events};
ghost use Rattle.msc_shown_chart.specs.Words.{plain_words};

use crate::words::{ChartWords, EventWords};
use msc_chart::{Chart, Event, LinkKind, Queues};
use msc_full::ShownEvent;
use msc_wording::{Act, SpokenEvent};
use std::alloc::{AllocError, Global};

/// What an event does.
fn act_of(chart: &Chart, e: Event) -> Act
    requires { e < length chart.now.events }
    ensures { result ≡ act_of chart.now e }
{
    if chart.is_local(e) {
        Act::Acts
    } else if chart.is_output(e) {
        Act::Sends
    } else {
        Act::Receives
    }
}

/// The kind of the link of an event's message; of an action it is `Pair`.
fn kind_of_event(chart: &Chart, queues: Queues, e: Event) -> LinkKind
    requires { e < length chart.now.events }
    ensures { result ≡ kind_of_event chart.now queues e }
{
    if chart.is_local(e) {
        return LinkKind::Pair;
    }
    let m = chart.message_of(e);
    let _instances = chart.instances();
    queues.kind(chart.sender(m), chart.receiver(m))
}

/// The number of the queue of an event's message; of an action it is 0.
fn queue_of_event(chart: &Chart, queues: Queues, e: Event) -> u32
    requires { e < length chart.now.events }
    ensures { result ≡ queue_of_event chart.now queues e }
{
    if chart.is_local(e) {
        return 0;
    }
    chart.queue(chart.message_of(e), queues)
}

/// Event `e` of a chart under an architecture, with these words. It takes no memory.
pub fn shown_as<'w>(
    chart: &Chart,
    queues: Queues,
    words: &'w EventWords,
    e: Event,
) -> ShownEvent<'w>
    requires { e < length chart.now.events }
    ensures { plain_event result ≡ shown_as chart.now queues (plain_words words.entry.now) e }
{
    ShownEvent {
        spoken: SpokenEvent {
            act: act_of(chart, e),
            message: words.message.as_str(),
            owner: chart.instance_of(e) as usize,
            peer: chart.instance_of(chart.other_end(e)) as usize,
            line: words.line,
        },
        first: words.first,
        past: words.past,
        place: words.place.as_str(),
        kind: kind_of_event(chart, queues, e),
        queue: queue_of_event(chart, queues, e),
    }
}

impl ChartWords {
    /// The events of a chart under an architecture, with these words, as findings show them. The
    /// only error is want of memory.
    pub fn shown(
        &self,
        alloc: Global,
        chart: &Chart,
        queues: Queues,
    ) -> Result<Vec<ShownEvent<'_>>, AllocError>
        requires { length (map plain_words self.now.events.items) ≡ length chart.now.events }
        ensures { IfOk result (λ events. map plain_event events.items
            ≡ shown_events chart.now queues (map plain_words self.now.events.items)) }
    {
        let mut shown = Vec::new(alloc);
        for e in 0..chart.events() {
            let words = &self.events[e as usize];
            shown.push(shown_as(chart, queues, words, e))?;
        }
        Ok(shown)
    }
}
