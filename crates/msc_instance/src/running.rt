//! The run of an instance.

ghost use Rattle.std.specs.Prelude.{◌≡◌, ◌↔◌, ◌<◌, ◌≤◌, [], length, IsTrue, vec_capacity};
ghost use Rattle.msc_execution.specs.Roles.{role, IsFit};
ghost use Rattle.msc_execution.specs.Logs.{line_events};
ghost use Rattle.msc_execution.specs.Running.{AllHaveEnded, AreEager, HasRun, SomeIdled};
ghost use Rattle.msc_instance.specs.Active.{EndsSo, IsSound, logged_by};
ghost use Rattle.msc_instance.specs.Gates.{AreLet, WasLet};
ghost use Rattle.msc_instance.specs.Views.{ends_of, left_by};

use crate::active::{Active, Post};
use crate::ends::{InstanceEnd, InstanceEnds};
use crate::gate::Gate;
use crate::journal::Journal;
use crate::outlets::close_all;
use crate::round::Round;
use msc_chart::laws::lines_are_ranges;
use msc_chart::{Chart, Event};
use msc_ending::End;
use msc_execution::laws::{inlets_bring_own, logs_keep_quotas, outputs_have_outlets};
use msc_fifo::Inlet;
use std::snapshot::Snapshot;
use std::thread;

/// Whether every sender of every inlet has ended.
fn all_ended(inlets: &[(u32, Inlet)]) -> bool
    ensures { IsTrue result ↔ AllHaveEnded inlets.now }
{
    for inlet in inlets {
        if inlet.1.unended() != 0 {
            return false;
        }
    }
    true
}

impl Active {
    /// Runs to an end. The outlets may be left open.
    fn run<G: Gate>(&mut self, chart: &Chart, post: &Post, gate: &G, patience: u32) -> End
        requires { IsSound chart.now post.now self.old }
        ensures ends { EndsSo chart.now post.now G.is_open patience self.new result }
        ensures in_time { result ≡ End.Impatient → AreEager self.old.inlets.items
            → SomeIdled patience self.new.inlets.items }
        ensures asked { AreLet (G.lets gate.now) post.now.instance (logged_by self.old)
            → WasLet (G.lets gate.now) chart.now post.now.instance (logged_by self.new) result }
        ensures untaken { patience ≡ 0 → self.new.inlets.items ≡ self.old.inlets.items }
    {
        let mut empty = 0;
        'rounds: loop {
            if !self.go_on(chart, post, gate) {
                return End::Stopped;
            }
            if self.first == post.end {
                return End::Finished;
            }
            if all_ended(self.inlets.as_slice()) {
                return End::Starved;
            }
            if empty == patience {
                return End::Impatient;
            }
            match self.take_each(chart, post, gate) {
                Round::Empty => {
                    empty += 1;
                    thread::yield_now();
                }
                Round::Busy => empty = 0,
                Round::Stopped => return End::Stopped,
                Round::Foreign(m) => return End::Foreign(m),
            }
        }
    }
}

/// Runs instance `i` of a chart with these ends, which fit, and logs its events into `log`. It
/// sends the messages that its line allows and takes those that come, until all its events are
/// logged or another end is reached; its outlets are closed then. `patience` is the number of
/// rounds of takes in a row that may find nothing. It never waits for another thread: an empty
/// round gives up the rest of its time slice. It takes no memory.
pub fn run_instance<G: Gate>(
    chart: &Chart,
    i: u32,
    ends: InstanceEnds,
    gate: &G,
    patience: u32,
    log: Vec<Event>,
) -> InstanceEnd
    requires instance { i < length chart.now.instances }
    requires fit { IsFit (role ends.queues chart.now i) (ends_of ends) }
    requires empty { log.items ≡ [] }
    requires room { length (line_events chart.now i) ≤ vec_capacity log }
    ensures run { HasRun (role ends.queues chart.now i) G.is_open patience (ends_of ends)
        (left_by result) }
    ensures asked { WasLet (G.lets gate.now) chart.now i result.log.items result.end }
    ensures same { result.ends.queues ≡ ends.queues }
{
    chart.facts();
    lines_are_ranges();
    outputs_have_outlets();
    logs_keep_quotas();
    inlets_bring_own();
    let (start, end) = chart.line(i);
    let began = Snapshot::of(&ends);
    let InstanceEnds {
        queues,
        outlets,
        inlets,
    } = ends;
    let post = Post {
        queues,
        instance: i,
        start,
        end,
        began,
    };
    let mut active = Active {
        outlets,
        inlets,
        journal: Journal::new(log),
        clock: 0,
        next: start,
        first: start,
        shut: false,
    };
    let last = active.run(chart, &post, gate, patience);
    close_all(active.outlets.as_mut_slice());
    let Active {
        outlets,
        inlets,
        journal,
        ..
    } = active;
    InstanceEnd {
        log: journal.log,
        ends: InstanceEnds {
            queues,
            outlets,
            inlets,
        },
        end: last,
    }
}
