//! The blocked pairs of a chart, event by event: they are counted and enumerated without a list of
//! all of them.
//!
//! A blocked pair consists of two inputs of one line. So for each input the code visits the rest of
//! its line.

ghost use Rattle.std.specs.Prelude.{◌≡◌, ◌<◌, ◌++◌, length, OnOk};
ghost use Rattle.msc_ready.specs.Views.{blocked_pairs_from, blocked_pairs_of, IsLeastFirst};

use crate::ready::Ready;
use msc_chart::Event;
use std::alloc::AllocError;

impl Ready<'_> {
    /// Appends the blocked pairs whose first event is `e`, ascending. An error is a growth of
    /// memory that was refused.
    pub fn push_blocked_pairs(
        &self,
        list: &mut Vec<(Event, Event)>,
        e: Event,
    ) -> Result<(), AllocError>
        requires { e < length self.now.chart.events }
        ensures { OnOk result (list.new.items ≡ list.old.items ++ blocked_pairs_from self.now e) }
    {
        self.facts();
        if !self.is_input(e) {
            return Ok(());
        }
        let end = self.chart().line_end(e);
        for f in e..end {
            if self.is_blocked_pair(e, f) {
                list.push((e, f))?;
            }
        }
        Ok(())
    }

    /// The number of blocked pairs with `e` as their first event. It takes no memory.
    fn count_from(&self, e: Event) -> u32
        requires { e < length self.now.chart.events }
        ensures { result ≡ length (blocked_pairs_from self.now e) }
    {
        self.facts();
        if !self.is_input(e) {
            return 0;
        }
        let end = self.chart().line_end(e);
        let mut count = 0;
        for f in e..end {
            if self.is_blocked_pair(e, f) {
                count += 1;
            }
        }
        count
    }

    /// The number of blocked pairs of the chart. It takes no memory.
    pub fn count_blocked_pairs(&self) -> u32
        ensures { result ≡ length (blocked_pairs_of self.now) }
    {
        // A pair is of two events, so there are fewer than the square of `EVENT_LIMIT`, which fits.
        self.facts();
        let mut total = 0;
        for e in 0..self.events() {
            total += self.count_from(e);
        }
        total
    }

    /// The least event that makes a blocked pair with `h` as the second event, or the number of
    /// events if there is none. It takes no memory.
    pub(crate) fn least_first(&self, h: Event) -> Event
        requires { h < length self.now.chart.events }
        ensures { IsLeastFirst self.now h result }
    {
        self.facts();
        let chart = self.chart();
        for g in chart.line(chart.instance_of(h)).0..h {
            if self.is_blocked_pair(g, h) {
                return g;
            }
        }
        self.events()
    }
}
