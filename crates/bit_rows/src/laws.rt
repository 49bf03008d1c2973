//! The limit of a set, as a law. The function has no code.

ghost use Rattle.std.specs.Prelude.{◌≡◌};

use crate::SET_LIMIT;

/// The limit of a set's numbers.
pub fn limit_of_sets()
    ensures { SET_LIMIT ≡ 4096 }
{}
