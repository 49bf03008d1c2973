//! An instance while it runs.

ghost use Rattle.std.specs.Prelude.{◌≡◌, ◌<◌, ◌≤◌, ◌+◌, ◌++◌, ◌∷◌, [], false, ℕ, IsTrue};
ghost use Rattle.msc_chart.specs.Lists.{occurs};
ghost use Rattle.msc_chart.specs.Charts.{before, is_controlled, is_local, is_output};
ghost use Rattle.msc_fifo.specs.Ends.{IsSpentClock};
ghost use Rattle.msc_instance.specs.Active.{HasSent, IsSound, logged_by};

use crate::ends::InstanceEnds;
use crate::journal::Journal;
use crate::line::{first_missing, next_controlled};
use crate::outlets::{outlet_at, put_one};
use msc_chart::{Chart, Event, Queues};
use msc_fifo::{Inlet, Outlet};
use std::snapshot::Snapshot;

/// The post of an instance: the architecture, its number, the number of its line's first event and
/// the number past the last, and the ends with which it began.
#[derive(Drop)]
pub(crate) struct Post {
    pub queues: Queues,
    pub instance: u32,
    pub start: Event,
    pub end: Event,
    pub began: Snapshot<InstanceEnds>,
}

/// An instance between two steps: its ends, its log and its clock. Its outputs and local events
/// below `next` are logged, and all its events below `first`. Once it has nothing more to send it
/// is `shut`: its outlets are closed.
#[derive(Drop)]
pub(crate) struct Active {
    pub outlets: Vec<(u32, Outlet)>,
    pub inlets: Vec<(u32, Inlet)>,
    pub journal: Journal,
    pub clock: u64,
    pub next: Event,
    pub first: Event,
    pub shut: bool,
}

impl Active {
    /// Advances to the next output or local event and to the first event that is not logged.
    pub fn look(&mut self, chart: &Chart, post: &Post)
        requires { IsSound chart.now post.now self.old }
        ensures sound { IsSound chart.now post.now self.new }
        ensures sent { HasSent self.old self.new }
        ensures ahead { self.old.next ≤ self.new.next }
        ensures next { self.new.next < post.now.end
            → IsTrue (is_controlled chart.now.events self.new.next) }
        ensures first { self.new.first < post.now.end
            → occurs (logged_by self.new) self.new.first ≡ false }
        ensures logged { logged_by self.new ≡ logged_by self.old }
        ensures shut { self.new.shut ≡ self.old.shut }
    {
        self.next = next_controlled(chart, self.next, post.end);
        self.first = first_missing(&self.journal, self.first, post.end);
    }

    /// Sends the message of the next event, an output, and logs it. False means that the clock is
    /// spent.
    pub fn send(&mut self, chart: &Chart, post: &Post) -> bool
        requires sound { IsSound chart.now post.now self.old }
        requires within { self.old.next < post.now.end }
        requires output { IsTrue (is_output chart.now.events self.old.next) }
        requires ready { (x : ℕ) → IsTrue (before chart.now.events x self.old.next)
            → IsTrue (occurs (logged_by self.old) x) }
        ensures sound { IsSound chart.now post.now self.new }
        ensures sent { HasSent self.old self.new }
        ensures next { IsTrue result → self.new.next ≡ self.old.next + 1 }
        ensures spent { result ≡ false → IsSpentClock self.new.clock }
        ensures logged { IsTrue result
            → logged_by self.new ≡ logged_by self.old ++ self.old.next ∷ [] }
        ensures kept { result ≡ false → logged_by self.new ≡ logged_by self.old }
        ensures shut { self.new.shut ≡ self.old.shut }
    {
        let e = self.next;
        let m = chart.message_of(e);
        let k = outlet_at(self.outlets.as_slice(), chart.queue(m, post.queues));
        let Some(now) = put_one(&mut self.outlets[k], m, self.clock) else {
            return false;
        };
        self.clock = now;
        self.journal.note(e);
        self.next = e + 1;
        true
    }

    /// Logs the next event, a local event.
    pub fn act(&mut self, chart: &Chart, post: &Post)
        requires sound { IsSound chart.now post.now self.old }
        requires within { self.old.next < post.now.end }
        requires local { IsTrue (is_local chart.now.events self.old.next) }
        requires ready { (x : ℕ) → IsTrue (before chart.now.events x self.old.next)
            → IsTrue (occurs (logged_by self.old) x) }
        ensures sound { IsSound chart.now post.now self.new }
        ensures sent { HasSent self.old self.new }
        ensures next { self.new.next ≡ self.old.next + 1 }
        ensures logged { logged_by self.new ≡ logged_by self.old ++ self.old.next ∷ [] }
        ensures shut { self.new.shut ≡ self.old.shut }
    {
        let e = self.next;
        self.journal.note(e);
        self.next = e + 1;
    }
}
