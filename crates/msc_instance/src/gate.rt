//! Gates decide when an event may happen.

ghost use Rattle.std.specs.Prelude.{Bool, IsTrue, ℕ};

use msc_chart::Event;

/// A gate is called before each output and local event, and after each input; false stops the
/// instance.
pub trait Gate {
    /// Whether it is known to return true always.
    ghost is_open: { Bool };

    /// The events of each instance that it may allow: it returns true only for these.
    ghost lets: { Self → ℕ → ℕ → Bool };

    /// Whether the event of the instance may happen or, for an input, stand. Both are numbers of
    /// the chart.
    fn at(&self, instance: u32, event: Event) -> bool
        ensures open { IsTrue is_open → IsTrue result }
        ensures asked { IsTrue result → IsTrue (lets self.now instance event) };
}

/// The gate that never stops an instance.
#[derive(Clone, Copy, Debug, Default)]
pub struct AlwaysOpen;

impl Gate for AlwaysOpen {
    ghost use Rattle.std.specs.Prelude.{true};

    ghost is_open = { true };

    ghost lets = { λ _ _ _. true };

    fn at(&self, _instance: u32, _event: Event) -> bool {
        true
    }
}
