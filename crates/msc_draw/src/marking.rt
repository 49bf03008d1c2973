//! The bars of closest races, made of the races of one event after the other. So no list of all
//! races is held.

ghost use Rattle.std.specs.Prelude.{◌≡◌, ◌<◌, ◌≤◌, ◌+◌, ◌++◌, ◌∷◌, [], IfOk, List, OnOk, Some};
ghost use Rattle.std.specs.Prelude.{cond, false, filter, get_or, length, slice_set, true, ℕ};
ghost use Rattle.std.specs.List.{range_with_len};
ghost use Rattle.msc_chart.specs.Charts.{line};
ghost use Rattle.msc_picture.specs.Bars.{bars_of};
ghost use Rattle.msc_picture.specs.Rows.{grown};
ghost use Rattle.msc_draw.specs.Marking.{AreOf, HasTables, HoldsMarking, IsAdded};
ghost use Rattle.msc_draw.specs.Marking.{IsFresh, bar_by};

use crate::notes::Notes;
use listed::Listed;
use msc_chart::{Chart, Event};
use msc_picture::{RaceBar, begins_segment, grow, plus};
use std::alloc::{AllocError, Global};

/// The bars of the segments above the current one, and the closest races from the current one: the
/// events that are the first, or the second, of one, and the places of the first and the last of
/// these races among all.
#[derive(Drop)]
pub struct Marking {
    bars: Vec<RaceBar>,
    upper: Notes,
    lower: Notes,
    begun: Event,
    reach: Option<(usize, usize)>,
    told: usize,
}

impl Marking {
    /// No race yet; the first segment is the current one.
    pub fn start(alloc: Global, chart: &Chart) -> Result<Marking, AllocError>
        ensures { IfOk result (HoldsMarking chart.now.events 0 []) }
    {
        let many = chart.events();
        Ok(Marking {
            bars: Vec::new(alloc),
            upper: Notes::none(alloc, many)?,
            lower: Notes::none(alloc, many)?,
            begun: 0,
            reach: None,
            told: 0,
        })
    }

    /// Appends the bar of the current segment to the bars, if races lead from it.
    fn close(&mut self, alloc: Global, chart: &Chart) -> Result<(), AllocError>
        requires tables { HasTables chart.now.events self.old }
        requires some { 0 < length chart.now.events }
        ensures bars { OnOk result (self.new.bars.items ≡ self.old.bars.items
            ++ bar_by chart.now.events self.old.upper self.old.lower self.old.begun
            self.old.reach) }
        ensures tables { OnOk result (HasTables chart.now.events self.new) }
        ensures told { OnOk result (self.new.told ≡ self.old.told) }
    {
        let Some((first, last)) = self.reach else {
            return Ok(());
        };
        self.bars.push(RaceBar {
            instance: chart.instance_of(self.begun),
            upper: self.upper.list(alloc)?,
            lower: self.lower.list(alloc)?,
            first: plus(first, 1)?,
            last: plus(last, 1)?,
        })?;
        Ok(())
    }

    /// Proceeds to the segment that event `e` begins.
    fn begin(&mut self, alloc: Global, chart: &Chart, e: Event) -> Result<(), AllocError>
        requires tables { HasTables chart.now.events self.old }
        requires some { 0 < length chart.now.events }
        ensures bars { OnOk result (self.new.bars.items ≡ self.old.bars.items
            ++ bar_by chart.now.events self.old.upper self.old.lower self.old.begun
            self.old.reach) }
        ensures fresh { OnOk result (IsFresh chart.now.events e self.new) }
        ensures told { OnOk result (self.new.told ≡ self.old.told) }
    {
        self.close(alloc, chart)?;
        self.upper.clear();
        self.lower.clear();
        self.begun = e;
        self.reach = None;
        Ok(())
    }

    /// Reaches event `e`.
    fn turn(&mut self, alloc: Global, chart: &Chart, e: Event) -> Result<(), AllocError>
        requires known { e < length chart.now.events }
        requires tables { HasTables chart.now.events self.old }
        requires begun { self.old.begun ≤ e }
        ensures told { OnOk result ((told : List (ℕ × ℕ))
            → HoldsMarking chart.now.events e told self.old
            → HoldsMarking chart.now.events (e + 1) told self.new) }
        ensures tables { OnOk result (HasTables chart.now.events self.new) }
    {
        chart.facts();
        if e > 0 && begins_segment(chart, e) {
            self.begin(alloc, chart, e)?;
        }
        Ok(())
    }

    /// Notes a race from the current segment.
    fn add(&mut self, race: (Event, Event)) -> Result<(), AllocError>
        requires upper { race.0 < length self.old.upper }
        requires lower { race.1 < length self.old.lower }
        ensures { OnOk result (IsAdded race self.old self.new) }
    {
        self.upper.note(race.0);
        self.lower.note(race.1);
        self.reach = Some(grow(self.reach, self.told));
        self.told = plus(self.told, 1)?;
        Ok(())
    }

    /// Notes the races of event `e`, which it reaches.
    pub fn take(
        &mut self,
        alloc: Global,
        chart: &Chart,
        e: Event,
        races: &[(Event, Event)],
    ) -> Result<(), AllocError>
        requires known { e < length chart.now.events }
        requires tables { HasTables chart.now.events self.old }
        requires begun { self.old.begun ≤ e }
        requires races { AreOf (length chart.now.events) e races.now }
        ensures { OnOk result ((told : List (ℕ × ℕ)) → HoldsMarking chart.now.events e told self.old
            → HoldsMarking chart.now.events (e + 1) (told ++ races.now) self.new) }
    {
        chart.facts();
        self.turn(alloc, chart, e)?;
        for race in races {
            self.add(*race)?;
        }
        Ok(())
    }

    /// All bars, and the number of their races.
    pub fn finish(
        self,
        alloc: Global,
        chart: &Chart,
    ) -> Result<(Listed<RaceBar>, usize), AllocError>
        requires tables { HasTables chart.now.events self }
        ensures bars { IfOk result (λ p. (told : List (ℕ × ℕ))
            → HoldsMarking chart.now.events (length chart.now.events) told self
            → p.0 ≡ bars_of chart.now.events told) }
        ensures told { IfOk result (λ p. p.1 ≡ self.told) }
    {
        let mut all = self;
        if chart.events() > 0 {
            all.close(alloc, chart)?;
        }
        Ok((Listed::from_vec(all.bars), all.told))
    }
}
