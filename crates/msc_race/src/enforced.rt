//! A chart under an architecture, with its enforced order.

ghost use Rattle.std.specs.Prelude.{◌≡◌, ◌+◌, ◌<◌, ◌↔◌, length, IfOk, IsTrue, OnOk};
ghost use Rattle.msc_chart.specs.Charts.{IsSegmentEnd};
ghost use Rattle.msc_chart.specs.Drawings.{IsAccepted};
ghost use Rattle.msc_chart.specs.Orders.{Enforced as IsEnforcedBefore};
ghost use Rattle.msc_order.specs.Tables.{orders};
ghost use Rattle.msc_race.specs.Views.{races_from, races_of, wiring_of, AreFrom, AreRacesOf};
ghost use Rattle.msc_race.specs.Views.{HasEnforcedOrder};
ghost use Rattle.msc_race.specs.Walks.{HasReached};

use crate::racing::{Walk, count_races};
use msc_chart::{Chart, Event, Queues, Wiring};
use msc_order::Order;
use std::alloc::{AllocError, Global};
use std::marker::Model;

/// A chart under an architecture, with its enforced order. Contracts see these three.
#[derive(Drop)]
pub struct Enforced<'a> {
    wiring: Wiring<'a>,
    order: Order,
}

impl<'a> Model for Enforced<'a> {
    ghost use Rattle.msc_race.specs.Wired.{EnforcedChart, enforced_chart, IsEnforced};

    ghost Value = { EnforcedChart };

    ghost view = { λ e. enforced_chart e.wiring.chart.now e.wiring.queues e.order };

    ghost invariant = { λ e.
        IsEnforced (enforced_chart e.wiring.chart.now e.wiring.queues e.order) };
}

impl<'a> Enforced<'a> {
    /// A chart under an architecture. An error is a growth of memory that was refused.
    pub fn of(alloc: Global, chart: &'a Chart, queues: Queues) -> Result<Enforced<'a>, AllocError>
        ensures chart { IfOk result (λ enforced. enforced.chart ≡ chart.now) }
        ensures queues { IfOk result (λ enforced. enforced.queues ≡ queues) }
    {
        let order = Order::enforced(alloc, chart, queues)?;
        Ok(Enforced {
            wiring: Wiring { chart, queues },
            order,
        })
    }

    /// The chart.
    pub fn chart(&self) -> &'a Chart
        ensures { result.now ≡ self.now.chart }
    {
        self.wiring.chart
    }

    /// The architecture.
    pub fn queues(&self) -> Queues
        ensures { result ≡ self.now.queues }
    {
        self.wiring.queues
    }

    /// The enforced order.
    pub fn order(&self) -> &Order
        ensures { result.now ≡ self.now.order }
    {
        &self.order
    }

    /// The chart under the architecture.
    pub fn wiring(&self) -> &Wiring<'a>
        ensures chart { result.now.chart.now ≡ self.now.chart }
        ensures queues { result.now.queues ≡ self.now.queues }
    {
        &self.wiring
    }

    /// Whether `e` is enforced before `f`. Both are numbers of events, from 0. It takes no memory.
    pub fn holds(&self, e: Event, f: Event) -> bool
        requires e_known { e < length self.now.chart.events }
        requires f_known { f < length self.now.chart.events }
        ensures value { result ≡ orders self.now.order e f }
        ensures exact { IsTrue result ↔ IsEnforcedBefore (wiring_of self.now) e f }
    {
        self.order.holds(e, f)
    }

    /// The facts that hold for every such chart. It does nothing when it runs; a caller that needs
    /// these facts calls it.
    pub fn facts(&self)
        ensures order { HasEnforcedOrder self.now }
        ensures chart { IsAccepted self.now.chart }
    {
        let chart = self.wiring.chart;
        chart.facts();
    }

    /// The number of races of the chart. It takes no memory.
    pub fn count_races(&self) -> u32
        ensures { result ≡ length (races_of self.now) }
    {
        count_races(self.wiring.chart, &self.order)
    }

    /// The number of events of the chart.
    pub fn events(&self) -> u32
        ensures { result ≡ length self.now.chart.events }
    {
        self.wiring.chart.events()
    }

    /// Proceeds to event `e` of a walk: the list then has its races, ascending. An error is a
    /// growth of memory that was refused.
    pub fn next_races(
        &self,
        walk: &mut Walk,
        list: &mut Vec<(Event, Event)>,
        e: Event,
    ) -> Result<(), AllocError>
        requires known { e < length self.now.chart.events }
        requires reached { HasReached self.now.chart.events e walk.old }
        ensures reached { HasReached self.now.chart.events (e + 1) walk.new }
        ensures segment { IsSegmentEnd self.now.chart.events e walk.new.segment_end }
        ensures list { OnOk result (list.new.items ≡ races_from self.now e) }
        ensures races { AreRacesOf self.now (races_from self.now e) }
        ensures first { AreFrom e (races_from self.now e) }
    {
        list.clear();
        walk.push_races(list, self.wiring.chart, &self.order, e)
    }
}
