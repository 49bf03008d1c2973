//! A source of pairs of events.

ghost use Rattle.std.specs.Prelude.{◌≡◌, ℕ, ◌+◌, ◌<◌, List, OnOk};

use std::alloc::AllocError;

/// Two events, by their numbers.
pub type Pair = (u32, u32);

/// A source of pairs of events, grouped by their first event. A walk goes from event to event and
/// holds the pairs of one of them, so no list holds all pairs.
pub trait Pairs {
    /// The state of a walk: where it is, and the pairs of the last event that it visited.
    type Walk: Drop;

    /// The number of events.
    ghost size: { Self → ℕ };

    /// The pairs whose first event is this one, in order.
    ghost from: { Self → ℕ → List (ℕ × ℕ) };

    /// The walk has visited all events below this one.
    ghost has_reached: { Self → Self.Walk → ℕ → Type 0 };

    /// The pairs of the last event that the walk visited.
    ghost at: { Self.Walk → List (ℕ × ℕ) };

    /// The number of events.
    fn size(&self) -> u32
        ensures { result ≡ size self.now };

    /// Visits the next event. An error is a growth of memory that was refused.
    fn next(&self, walk: &mut Self::Walk, e: u32) -> Result<(), AllocError>
        requires known { e < size self.now }
        requires reached { has_reached self.now walk.old e }
        ensures reached { OnOk result (has_reached self.now walk.new (e + 1)) }
        ensures pairs { OnOk result (at walk.new ≡ from self.now e) };

    /// The pairs of the last event that the walk visited.
    fn pairs<'w>(&self, walk: &'w Self::Walk) -> &'w [Pair]
        ensures { result.now ≡ at walk.now };
}

/// The pairs of a list, as a source that visits them at once. The list is its own walk.
#[derive(Clone, Copy)]
pub struct PairList<'l> {
    pub pairs: &'l [Pair],
}

impl<'l> Pairs for PairList<'l> {
    type Walk = PairList<'l>;

    ghost size = { λ s. 1 };

    ghost from = { λ s e. s.pairs.now };

    ghost has_reached = { λ s w e. Unit {0} };

    ghost at = { λ w. w.pairs.now };

    fn size(&self) -> u32 {
        1
    }

    fn next(&self, walk: &mut PairList<'l>, _e: u32) -> Result<(), AllocError> {
        *walk = *self;
        Ok(())
    }

    fn pairs<'w>(&self, walk: &'w PairList<'l>) -> &'w [Pair] {
        walk.pairs
    }
}
