//! The races of a chart that marks accept, under an architecture.

ghost use Rattle.std.specs.Prelude.{◌≡◌, ◌<◌, ◌&&◌, ◌||◌, ℕ, All, false, get_or, is_some, length};
ghost use Rattle.std.specs.Prelude.{nat_eq, not, IfOk};
ghost use Rattle.std.specs.List.{position_or_len};
ghost use Rattle.msc_chart.specs.Lists.{Occurs};
ghost use Rattle.msc_race.specs.Views.{races_of};
ghost use Rattle.msc_reason.specs.PairTables.{has_pair};
ghost use Rattle.msc_mark.specs.Accepting.{acceptance, accepts_from, accepts_race, fits_race};
ghost use Rattle.msc_mark.specs.Accepting.{fits_some};
ghost use Rattle.msc_mark.specs.Accepting.{is_accepted, is_mark_for, mark_for, stale_events};
ghost use Rattle.msc_mark.specs.Kept.{accepts_pair, accepts_some, AreEvents, AreNumbers};

use crate::mark::Mark;
use crate::marks::Marks;
use crate::named::NamedEvents;
use msc_chart::{Chart, Event, Queues};
use msc_race::{Enforced, Walk};
use msc_reason::Pairs;
use std::alloc::{AllocError, Global};
use std::marker::Model;

/// The races of a chart that marks accept, under an architecture. Contracts see the three.
#[derive(Drop)]
pub struct Accepted<'a> {
    marks: &'a Marks,
    chart: &'a Chart,
    queues: Queues,
    /// For each event the number of its mark among those that are for the architecture, or the
    /// number of all marks if it has none.
    at: Vec<usize>,
    /// The events that each mark is for.
    named: NamedEvents<'a>,
}

impl<'a> Model for Accepted<'a> {
    ghost use Rattle.msc_mark.specs.Accepting.{Acceptance, acceptance};
    ghost use Rattle.msc_mark.specs.Kept.{IsLookedUp};

    ghost Value = { Acceptance };

    ghost view = { λ a. acceptance a.marks.now a.chart.now a.queues };

    ghost invariant = { λ a.
        IsLookedUp (acceptance a.marks.now a.chart.now a.queues) a.at.items a.named };
}

/// Whether a mark is one of event `e`, and for the architecture.
fn is_mark_for(mark: &Mark, e: Event, queues: Queues) -> bool
    ensures { result ≡ is_mark_for queues e mark.now }
{
    mark.event == e as usize && mark.is_for(queues)
}

/// The number of the mark of event `e` that is for the architecture, or the number of all marks.
fn number_of(marks: &[Mark], e: Event, queues: Queues) -> usize
    ensures { result ≡ position_or_len (is_mark_for queues e) marks.now }
{
    for (i, mark) in marks.iter().enumerate() {
        if is_mark_for(mark, e, queues) {
            return i;
        }
    }
    marks.len()
}

/// For each event of the chart the number of its mark that is for the architecture, or the number
/// of all marks if it has none.
fn numbers_of(
    alloc: Global,
    marks: &[Mark],
    chart: &Chart,
    queues: Queues,
) -> Result<Vec<usize>, AllocError>
    ensures { IfOk result (λ at. AreNumbers (acceptance marks.now chart.now queues) at.items) }
{
    let mut at = Vec::new(alloc);
    for e in 0..chart.events() {
        at.push(number_of(marks, e, queues))?;
    }
    Ok(at)
}

/// Records whether a mark of event `x` fits; one that fits is enough.
fn note(fitting: &mut Vec<bool>, x: Event, fits: bool)
    requires { x < length fitting.old.items }
    ensures size { length fitting.new.items ≡ length fitting.old.items }
    ensures noted { (y : ℕ) → get_or fitting.new.items y false
        ≡ (get_or fitting.old.items y false || (nat_eq x y && fits)) }
{
    let noted = fitting[x as usize] || fits;
    fitting[x as usize] = noted;
}

impl<'a> Accepted<'a> {
    /// The races of a chart that marks accept under an architecture. An error is a growth of memory
    /// that was refused.
    pub fn of(
        alloc: Global,
        marks: &'a Marks,
        chart: &'a Chart,
        queues: Queues,
    ) -> Result<Accepted<'a>, AllocError>
        ensures marks { IfOk result (λ accepted. accepted.marks ≡ marks.now) }
        ensures chart { IfOk result (λ accepted. accepted.chart ≡ chart.now) }
        ensures queues { IfOk result (λ accepted. accepted.queues ≡ queues) }
    {
        Ok(Accepted {
            marks,
            chart,
            queues,
            at: numbers_of(alloc, marks.as_slice(), chart, queues)?,
            named: NamedEvents::of(alloc, marks, chart)?,
        })
    }

    /// Whether event `e` has a mark that is for the architecture and for event `f`.
    fn accepts_from(&self, e: Event, f: Event) -> bool
        requires e_known { e < length self.now.chart.events }
        requires f_known { f < length self.now.chart.events }
        ensures { result ≡ accepts_from self.now.marks self.now.chart self.now.queues e f }
    {
        let i = self.at[e as usize];
        if i >= self.marks.as_slice().len() {
            return false;
        }
        self.named.has(i, f)
    }

    /// Whether the race (`e`, `f`) is accepted. It takes no memory, and takes two look-ups if
    /// neither event has a mark.
    pub fn has(&self, e: Event, f: Event) -> bool
        requires e_known { e < length self.now.chart.events }
        requires f_known { f < length self.now.chart.events }
        ensures { result ≡ is_accepted self.now.marks self.now.chart self.now.queues e f }
    {
        self.accepts_from(e, f) || self.accepts_from(f, e)
    }

    /// Adds a race to a set, if it is accepted.
    fn put_race(&self, pairs: &mut Pairs, e: Event, f: Event)
        requires size { pairs.old.events ≡ length self.now.chart.events }
        requires first { e < length self.now.chart.events }
        requires second { f < length self.now.chart.events }
        ensures size { pairs.new.events ≡ pairs.old.events }
        ensures put { (x y : ℕ) → has_pair pairs.new x y
            ≡ (has_pair pairs.old x y || accepts_pair self.now x y (e, f)) }
    {
        if self.has(e, f) {
            pairs.put(e, f);
        }
    }

    /// Adds the accepted ones of these races to a set.
    fn put_races(&self, pairs: &mut Pairs, races: &[(Event, Event)])
        requires size { pairs.old.events ≡ length self.now.chart.events }
        requires known { All (AreEvents self.now) races.now }
        ensures size { pairs.new.events ≡ pairs.old.events }
        ensures put { (x y : ℕ) → has_pair pairs.new x y
            ≡ (has_pair pairs.old x y || accepts_some self.now races.now x y) }
    {
        for race in races {
            self.put_race(pairs, race.0, race.1);
        }
    }

    /// The races of the chart that are accepted. `enforced` is the chart under the architecture. An
    /// error is a growth of memory that was refused.
    pub fn pairs(&self, alloc: Global, enforced: &Enforced) -> Result<Pairs, AllocError>
        requires { enforced.now.chart ≡ self.now.chart }
        ensures { IfOk result (λ pairs. (p : ℕ × ℕ) → Occurs (races_of enforced.now) p
            → has_pair pairs p.0 p.1 ≡ accepts_race self.now p) }
    {
        let events = self.chart.events();
        let mut pairs = Pairs::none(alloc, events)?;
        let mut races = Vec::new(alloc);
        let mut walk = Walk::new();
        for e in 0..events {
            enforced.next_races(&mut walk, &mut races, e)?;
            self.put_races(&mut pairs, races.as_slice());
        }
        Ok(pairs)
    }

    /// Records which of the events of a race have marks that fit it.
    fn note_race(&self, fitting: &mut Vec<bool>, e: Event, f: Event)
        requires size { length fitting.old.items ≡ length self.now.chart.events }
        requires first { e < length self.now.chart.events }
        requires second { f < length self.now.chart.events }
        ensures size { length fitting.new.items ≡ length fitting.old.items }
        ensures noted { (x : ℕ) → get_or fitting.new.items x false
            ≡ (get_or fitting.old.items x false || fits_race self.now x (e, f)) }
    {
        note(fitting, e, self.accepts_from(e, f));
        note(fitting, f, self.accepts_from(f, e));
    }

    /// Records which events have marks that fit one of these races.
    fn note_races(&self, fitting: &mut Vec<bool>, races: &[(Event, Event)])
        requires size { length fitting.old.items ≡ length self.now.chart.events }
        requires known { All (AreEvents self.now) races.now }
        ensures size { length fitting.new.items ≡ length fitting.old.items }
        ensures noted { (x : ℕ) → get_or fitting.new.items x false
            ≡ (get_or fitting.old.items x false || fits_some self.now races.now x) }
    {
        for race in races {
            self.note_race(fitting, race.0, race.1);
        }
    }

    /// Which events have marks that fit some race of the chart, of whatever kind.
    fn fitting(&self, alloc: Global, enforced: &Enforced) -> Result<Vec<bool>, AllocError>
        requires chart { enforced.now.chart ≡ self.now.chart }
        ensures size { IfOk result (λ v. length v.items ≡ length self.now.chart.events) }
        ensures noted { IfOk result (λ v. (x : ℕ) → get_or v.items x false
            ≡ fits_some self.now (races_of enforced.now) x) }
    {
        let events = self.chart.events();
        let mut fitting = vec![in alloc; false; events as usize]?;
        let mut races = Vec::new(alloc);
        let mut walk = Walk::new();
        for e in 0..events {
            enforced.next_races(&mut walk, &mut races, e)?;
            self.note_races(&mut fitting, races.as_slice());
        }
        Ok(fitting)
    }

    /// Whether event `e` has a mark for the architecture that fits no race.
    fn is_left(&self, fitting: &[bool], e: Event) -> bool
        requires known { e < length self.now.chart.events }
        requires size { length fitting.now ≡ length self.now.chart.events }
        ensures { result ≡ (is_some (mark_for self.now.marks self.now.queues e)
            && not (get_or fitting.now e false)) }
    {
        let i = self.at[e as usize];
        if i >= self.marks.as_slice().len() {
            return false;
        }
        !fitting[e as usize]
    }

    /// The events whose marks are for the architecture and fit no race, of whatever kind,
    /// ascending. `enforced` is the chart under the architecture. An error is a growth of memory
    /// that was refused.
    pub fn stale(&self, alloc: Global, enforced: &Enforced) -> Result<Vec<Event>, AllocError>
        requires chart { enforced.now.chart ≡ self.now.chart }
        requires queues { enforced.now.queues ≡ self.now.queues }
        ensures { IfOk result (λ list. list.items ≡ stale_events self.now (races_of enforced.now)) }
    {
        let fitting = self.fitting(alloc, enforced)?;
        let mut list = Vec::new(alloc);
        for e in 0..self.chart.events() {
            if self.is_left(fitting.as_slice(), e) {
                list.push(e)?;
            }
        }
        Ok(list)
    }
}
