//! A source of the scenarios of a diagram, one after the other.

ghost use Rattle.std.specs.Prelude.{◌≡◌, ◌<◌, List, length, slice_get, IfOk, Some};
ghost use Rattle.msc_diagram.specs.declared.scenario.Scenario.{Scenario};

use crate::lent::Lent;
use std::alloc::{AllocError, Global};

/// All scenarios of a diagram, in their order. Each is kept, or made when it is taken: so memory
/// need not hold all.
pub trait Source {
    /// The list of them.
    ghost scenarios: { Self → List Scenario };

    /// Their number. It takes no memory.
    fn len(&self) -> usize
        ensures { result ≡ length (scenarios self.now) };

    /// The scenario with this number, from 0. An error is a growth of memory that was refused.
    fn scenario(&self, alloc: Global, i: usize) -> Result<Lent<'_>, AllocError>
        requires { i < length (scenarios self.now) }
        ensures { IfOk result (λ s. slice_get (scenarios self.now) i ≡ Some s) };
}
