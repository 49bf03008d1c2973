//! The listed races of a chart, and their number: the races that count, or the closest of them.

ghost use Rattle.std.specs.Prelude.{◌≡◌, ◌+◌, ◌<◌, ◌≤◌, ◌++◌, [], List, length, nat_eq, IfOk};
ghost use Rattle.std.specs.Prelude.{OnErr, OnOk};
ghost use Rattle.std.specs.List.{filter};
ghost use Rattle.msc_race.specs.Views.{races_of};
ghost use Rattle.msc_race.specs.Walks.{HasReached};
ghost use Rattle.msc_chart.specs.declared.event.ChartEvent.{ChartEvent};
ghost use Rattle.msc_reason.specs.Counting.{counting, is_alone, listed};
ghost use Rattle.msc_reason.specs.Marked.{cause_in, listed_from, AreOfOneEvent};
ghost use Rattle.msc_reason.specs.Selected.{selected};
ghost use Rattle.msc_reason.specs.declared.left_out.LeftOut.{LeftOut};

use crate::counting::{next_counting, some_counts};
use crate::left_out::LeftOut;
use crate::marks::{Marks, least_second};
use msc_chart::Event;
use msc_race::{Enforced, Walk};
use std::alloc::{AllocError, Global};
use std::marker::Model;

/// A walk over the events of a chart that has the listed races of one event.
#[derive(Drop)]
pub struct Stream {
    pub walk: Walk,
    /// The listed races of the event that was reached last, ascending.
    pub races: Vec<(Event, Event)>,
    counted: Vec<(Event, Event)>,
    all: Vec<(Event, Event)>,
}

impl Stream {
    /// Before the first event.
    pub fn new(alloc: Global) -> Stream
        ensures { (events : List ChartEvent) → HasReached events 0 result.walk }
    {
        Stream {
            walk: Walk::new(),
            races: Vec::new(alloc),
            counted: Vec::new(alloc),
            all: Vec::new(alloc),
        }
    }
}

/// The listed races of a chart: the races that count, or only the closest of them. Contracts see
/// the chart under its architecture, what is left out, and whether only the closest races are
/// listed.
#[derive(Drop)]
pub struct Listing<'a> {
    enforced: Enforced<'a>,
    allowed: LeftOut<'a>,
    marks: Option<Marks>,
}

impl<'a> Model for Listing<'a> {
    ghost use Rattle.std.specs.Prelude.{length, is_some, MatchOption};
    ghost use Rattle.msc_reason.specs.Marked.{is_counted, AreMarks};
    ghost use Rattle.msc_reason.specs.Selected.{selected, Selected};

    ghost Value = { Selected };

    ghost view = { λ l. selected l.enforced l.allowed (is_some l.marks) };

    ghost invariant = { λ l. MatchOption l.marks (Unit {0})
        (λ m. AreMarks (is_counted l.enforced l.allowed) (length l.enforced.chart.events)
        m.last.items m.least.items) };
}

/// Appends those of these races, all of one event and all counting, that span no other one. `end`
/// is the number past the segment of the event. The marks have the races that count.
fn push_alone(
    list: &mut Vec<(Event, Event)>,
    marks: &Marks,
    enforced: &Enforced,
    end: Event,
    races: &[(Event, Event)],
) -> Result<(), AllocError>
    requires { (allowed : LeftOut) × AreOfOneEvent enforced.now allowed
        marks.now.last.items marks.now.least.items end races.now }
    ensures { (allowed : LeftOut) → AreOfOneEvent enforced.now allowed
        marks.now.last.items marks.now.least.items end races.now
        → OnOk result (list.new.items ≡ list.old.items ++ filter (is_alone
        enforced.now.chart.events (counting enforced.now allowed (cause_in enforced.now)))
        races.now) }
{
    let first = least_second(races, enforced.events());
    for race in races {
        if !marks.has_within(enforced, first, end, *race) {
            list.push(*race)?;
        }
    }
    Ok(())
}

impl<'a> Listing<'a> {
    /// The races of a chart that count, or only the closest of them. An error is a growth of memory
    /// that was refused.
    pub fn of(
        alloc: Global,
        enforced: Enforced<'a>,
        allowed: LeftOut<'a>,
        closest: bool,
    ) -> Result<Listing<'a>, AllocError>
        ensures { IfOk result (λ listing. listing ≡ selected enforced.entry allowed.entry closest) }
    {
        let marks = if closest {
            Some(Marks::of(alloc, &enforced, allowed)?)
        } else {
            None
        };
        Ok(Listing {
            enforced,
            allowed,
            marks,
        })
    }

    /// The chart under its architecture.
    pub fn enforced(&self) -> &Enforced<'a>
        ensures { result.now ≡ self.now.judged }
    {
        &self.enforced
    }

    /// The races that are left out.
    pub fn left_out(&self) -> LeftOut<'a>
        ensures { result ≡ self.now.allowed }
    {
        self.allowed
    }

    /// Whether only the closest races are listed.
    pub fn closest(&self) -> bool
        ensures { result ≡ self.now.closest }
    {
        self.marks.is_some()
    }

    /// The number of events of the chart.
    pub fn events(&self) -> u32
        ensures { result ≡ length self.now.judged.chart.events }
    {
        self.enforced.events()
    }

    /// Proceeds to event `e`: the stream has its listed races. An error is a growth of memory that
    /// was refused; the stream then has no race.
    pub fn next(&self, stream: &mut Stream, e: Event) -> Result<(), AllocError>
        requires known { e < length self.now.judged.chart.events }
        requires reached { HasReached self.now.judged.chart.events e stream.old.walk }
        ensures reached { HasReached self.now.judged.chart.events (e + 1) stream.new.walk }
        ensures list { OnOk result (stream.new.races.items
            ≡ listed_from self.now.judged self.now.allowed self.now.closest e) }
        ensures error { OnErr result (stream.new.races.items ≡ []) }
    {
        let filled = self.fill(stream, e);
        if filled.is_err() {
            stream.races.clear();
        }
        filled
    }

    /// Fills the stream with the listed races of event `e`. An error is a growth of memory that was
    /// refused.
    fn fill(&self, stream: &mut Stream, e: Event) -> Result<(), AllocError>
        requires known { e < length self.now.judged.chart.events }
        requires reached { HasReached self.now.judged.chart.events e stream.old.walk }
        ensures reached { HasReached self.now.judged.chart.events (e + 1) stream.new.walk }
        ensures list { OnOk result (stream.new.races.items
            ≡ listed_from self.now.judged self.now.allowed self.now.closest e) }
    {
        let walk = &mut stream.walk;
        let Some(marks) = &self.marks else {
            return next_counting(
                walk,
                &mut stream.races,
                &mut stream.all,
                &self.enforced,
                self.allowed,
                e,
            );
        };
        next_counting(
            walk,
            &mut stream.counted,
            &mut stream.all,
            &self.enforced,
            self.allowed,
            e,
        )?;
        stream.races.clear();
        push_alone(
            &mut stream.races,
            marks,
            &self.enforced,
            stream.walk.segment_end,
            stream.counted.as_slice(),
        )
    }

    /// The number of listed races, if the chart has `races` races. An error is a growth of memory
    /// that was refused.
    pub fn count(&self, alloc: Global, races: u32) -> Result<u32, AllocError>
        requires { races ≡ length (races_of self.now.judged) }
        ensures few { IfOk result (λ count. count ≤ races) }
        ensures count { IfOk result (λ count. count ≡ length
            (listed self.now.judged self.now.allowed self.now.closest (cause_in self.now.judged))) }
    {
        let mut stream = Stream::new(alloc);
        let mut count = 0;
        for e in 0..self.events() {
            self.next(&mut stream, e)?;
            count += stream.races.len() as u32;
        }
        Ok(count)
    }
}

/// The number of races of a chart that count, if it has `races` races. An error is a growth of
/// memory that was refused.
pub fn count_counting(
    alloc: Global,
    enforced: &Enforced,
    allowed: LeftOut,
    races: u32,
) -> Result<u32, AllocError>
    requires { races ≡ length (races_of enforced.now) }
    ensures few { IfOk result (λ count. count ≤ races) }
    ensures count { IfOk result (λ count. count
        ≡ length (counting enforced.now allowed.entry (cause_in enforced.now))) }
{
    if allowed.is_empty() {
        return Ok(races);
    }
    let mut list = Vec::new(alloc);
    let mut room = Vec::new(alloc);
    let mut walk = Walk::new();
    let mut count = 0;
    for e in 0..enforced.events() {
        next_counting(&mut walk, &mut list, &mut room, enforced, allowed, e)?;
        count += list.len() as u32;
    }
    Ok(count)
}

/// Whether no race of a chart counts. It stops at the first race that does. An error is a growth of
/// memory that was refused.
pub fn none_counts(alloc: Global, enforced: &Enforced, allowed: LeftOut) -> Result<bool, AllocError>
    ensures { IfOk result (λ none. none
        ≡ nat_eq (length (counting enforced.now allowed.entry (cause_in enforced.now))) 0) }
{
    let mut list = Vec::new(alloc);
    let mut walk = Walk::new();
    for e in 0..enforced.events() {
        enforced.next_races(&mut walk, &mut list, e)?;
        if some_counts(enforced, allowed, list.as_slice()) {
            return Ok(false);
        }
    }
    Ok(true)
}
