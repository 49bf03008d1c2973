//! The races that are left out: some kinds of races, and races that are accepted.

ghost use Rattle.std.specs.Prelude.{◌≡◌};
ghost use Rattle.msc_reason.specs.LeftOut.{is_accepted, leaves_none, of_kinds};

use crate::kinds::KindSet;
use crate::pairs::Pairs;
use msc_chart::Event;

/// The races that do not count: those of some kinds, and those that are accepted.
#[derive(Clone, Copy)]
pub struct LeftOut<'a> {
    /// The kinds.
    pub kinds: KindSet,
    /// The accepted pairs, if races can be accepted.
    pub accepted: Option<&'a Pairs>,
}

impl LeftOut<'static> {
    /// Some kinds only.
    pub fn of_kinds(kinds: KindSet) -> LeftOut<'static>
        ensures { result ≡ of_kinds kinds }
    {
        LeftOut {
            kinds,
            accepted: None,
        }
    }
}

impl<'a> LeftOut<'a> {
    /// Whether the pair (`e`, `f`) is accepted. It takes no memory.
    pub fn accepts(self, e: Event, f: Event) -> bool
        ensures { result ≡ is_accepted self.entry (e, f) }
    {
        match self.accepted {
            Some(pairs) => pairs.has(e, f),
            None => false,
        }
    }

    /// Whether there are no kinds, and races are not accepted.
    pub fn is_empty(self) -> bool
        ensures { result ≡ leaves_none self.entry }
    {
        self.kinds.is_empty() && self.accepted.is_none()
    }
}
