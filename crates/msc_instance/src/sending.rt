//! The events that an instance controls: outputs and local events.

ghost use Rattle.std.specs.Prelude.{◌≡◌, ◌<◌, ◌+◌, ℕ, false, true, IsTrue};
ghost use Rattle.msc_chart.specs.Lists.{occurs};
ghost use Rattle.msc_chart.specs.Charts.{before, is_controlled, is_output};
ghost use Rattle.msc_fifo.specs.Ends.{IsSpentClock};
ghost use Rattle.msc_execution.specs.Running.{IsReadyToSend};
ghost use Rattle.msc_instance.specs.Active.{AreClosed, HasSent, IsBlocked, IsSound, logged_by};
ghost use Rattle.msc_instance.specs.Active.{post_role};
ghost use Rattle.msc_instance.specs.Gates.{AreLet};

use crate::active::{Active, Post};
use crate::gate::Gate;
use crate::outlets::close_all;
use msc_chart::Chart;

/// The progress of an instance without a take.
#[derive(Clone, Copy)]
pub(crate) enum Sending {
    Done,
    Waits,
    Stopped,
}

impl Active {
    /// Does the next event, an output or a local event, if the gate allows it. False means that the
    /// instance is stopped.
    pub fn do_next<G: Gate>(&mut self, chart: &Chart, post: &Post, gate: &G) -> bool
        requires sound { IsSound chart.now post.now self.old }
        requires within { self.old.next < post.now.end }
        requires due { IsTrue (is_controlled chart.now.events self.old.next) }
        requires ready { (x : ℕ) → IsTrue (before chart.now.events x self.old.next)
            → IsTrue (occurs (logged_by self.old) x) }
        ensures sound { IsSound chart.now post.now self.new }
        ensures sent { HasSent self.old self.new }
        ensures next { IsTrue result → self.new.next ≡ self.old.next + 1 }
        ensures stopped { G.is_open ≡ true → result ≡ false
            → IsSpentClock self.new.clock }
        ensures output { G.is_open ≡ true → result ≡ false
            → IsTrue (is_output chart.now.events self.old.next) }
        ensures kept { result ≡ false → logged_by self.new ≡ logged_by self.old }
        ensures asked { AreLet (G.lets gate.now) post.now.instance (logged_by self.old)
            → AreLet (G.lets gate.now) post.now.instance (logged_by self.new) }
        ensures shut { self.new.shut ≡ self.old.shut }
    {
        if !gate.at(post.instance, self.next) {
            return false;
        }
        if chart.is_output(self.next) {
            return self.send(chart, post);
        }
        self.act(chart, post);
        true
    }

    /// Does the events that are ready, until all are done or one waits.
    pub fn do_ready<G: Gate>(&mut self, chart: &Chart, post: &Post, gate: &G) -> Sending
        requires { IsSound chart.now post.now self.old }
        ensures sound { IsSound chart.now post.now self.new }
        ensures sent { HasSent self.old self.new }
        ensures done { result ≡ Sending.Done → self.new.next ≡ post.now.end }
        ensures waits { result ≡ Sending.Waits
            → IsBlocked chart.now post.now.instance (logged_by self.new) }
        ensures behind { result ≡ Sending.Waits → self.new.next < post.now.end }
        ensures stopped { G.is_open ≡ true → result ≡ Sending.Stopped
            → IsSpentClock self.new.clock }
        ensures ready { G.is_open ≡ true → result ≡ Sending.Stopped
            → IsReadyToSend (post_role chart.now post.now) (logged_by self.new) }
        ensures first { (result ≡ Sending.Stopped → ⊥) → self.new.first < post.now.end
            → occurs (logged_by self.new) self.new.first ≡ false }
        ensures asked { AreLet (G.lets gate.now) post.now.instance (logged_by self.old)
            → AreLet (G.lets gate.now) post.now.instance (logged_by self.new) }
        ensures shut { self.new.shut ≡ self.old.shut }
    {
        'events: loop {
            self.look(chart, post);
            if self.next == post.end {
                return Sending::Done;
            }
            if chart.before(self.first, self.next) {
                return Sending::Waits;
            }
            if !self.do_next(chart, post, gate) {
                return Sending::Stopped;
            }
        }
    }

    /// Does the events that are ready, and closes the outlets once nothing more is to be sent.
    /// False means that the instance is stopped.
    pub fn go_on<G: Gate>(&mut self, chart: &Chart, post: &Post, gate: &G) -> bool
        requires { IsSound chart.now post.now self.old }
        ensures sound { IsSound chart.now post.now self.new }
        ensures sent { HasSent self.old self.new }
        ensures blocked { IsTrue result
            → IsBlocked chart.now post.now.instance (logged_by self.new) }
        ensures first { IsTrue result → self.new.first < post.now.end
            → occurs (logged_by self.new) self.new.first ≡ false }
        ensures stopped { G.is_open ≡ true → result ≡ false
            → IsSpentClock self.new.clock }
        ensures ready { G.is_open ≡ true → result ≡ false
            → IsReadyToSend (post_role chart.now post.now) (logged_by self.new) }
        ensures closed { IsTrue result → self.new.next ≡ post.now.end
            → AreClosed self.new.outlets.items }
        ensures asked { AreLet (G.lets gate.now) post.now.instance (logged_by self.old)
            → AreLet (G.lets gate.now) post.now.instance (logged_by self.new) }
    {
        match self.do_ready(chart, post, gate) {
            Sending::Stopped => return false,
            Sending::Waits => return true,
            Sending::Done => {}
        }
        if !self.shut {
            close_all(self.outlets.as_mut_slice());
            self.shut = true;
        }
        true
    }
}
