//! Rounds of takes.

ghost use Rattle.std.specs.Prelude.{◌≡◌, true};
ghost use Rattle.msc_instance.specs.Active.{IsSound, logged_by};
ghost use Rattle.msc_instance.specs.Gates.{AreLet, EndsAtInput};
ghost use Rattle.msc_instance.specs.Taking.{TookEach};

use crate::active::{Active, Post};
use crate::gate::Gate;
use crate::taking::TakeStep;
use msc_chart::Chart;

/// How a round of takes went.
#[derive(Clone, Copy)]
pub(crate) enum Round {
    Empty,
    Busy,
    Stopped,
    Foreign(u32),
}

impl Active {
    /// Takes once from each inlet, ascending.
    pub fn take_each<G: Gate>(&mut self, chart: &Chart, post: &Post, gate: &G) -> Round
        requires sound { IsSound chart.now post.now self.old }
        ensures took { TookEach chart.now post.now self.old self.new result }
        ensures open { G.is_open ≡ true → result ≡ Round.Stopped → ⊥ }
        ensures asked { (result ≡ Round.Stopped → ⊥)
            → AreLet (G.lets gate.now) post.now.instance (logged_by self.old)
            → AreLet (G.lets gate.now) post.now.instance (logged_by self.new) }
        ensures last { result ≡ Round.Stopped
            → AreLet (G.lets gate.now) post.now.instance (logged_by self.old)
            → EndsAtInput (G.lets gate.now) chart.now post.now.instance (logged_by self.new) }
    {
        let mut found = false;
        for k in 0..self.inlets.len() {
            match self.take(chart, post, gate, k) {
                TakeStep::Nothing => {}
                TakeStep::Ended => found = true,
                TakeStep::Logged => found = true,
                TakeStep::Stopped => return Round::Stopped,
                TakeStep::Foreign(m) => return Round::Foreign(m),
            }
        }
        if found { Round::Busy } else { Round::Empty }
    }
}
