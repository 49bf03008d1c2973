//! The races of a chart that marks accept, and the marks that accept none.

ghost use Rattle.std.specs.Prelude.{◌≡◌, [], None};

use msc_chart::Event;
use msc_reason::Pairs;

/// What the marks of a text accept of the races of its chart, under an architecture.
#[derive(Clone, Copy)]
pub struct Marking<'m> {
    /// The races that are accepted, if marks are used.
    pub accepted: Option<&'m Pairs>,
    /// The events whose marks accept no race, ascending.
    pub stale: &'m [Event],
}

impl Marking<'static> {
    /// No marks are used.
    pub fn none() -> Marking<'static>
        ensures accepted { result.accepted ≡ None }
        ensures stale { result.stale.now ≡ [] }
    {
        Marking {
            accepted: None,
            stale: &[],
        }
    }
}
