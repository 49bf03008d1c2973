//! All races of a chart under an architecture.

ghost use Rattle.std.specs.Prelude.{◌≡◌, IfOk};
ghost use Rattle.msc_race.specs.Views.{races_of};

use msc_chart::Event;
use msc_race::{Enforced, Walk};
use std::alloc::{AllocError, Global};

/// All races of a chart under an architecture, ascending. An error is a growth of memory that was
/// refused.
pub fn all_races(alloc: Global, enforced: &Enforced<'_>) -> Result<Vec<(Event, Event)>, AllocError>
    ensures { IfOk result (λ races. races.items ≡ races_of enforced.now) }
{
    let mut all = Vec::new(alloc);
    let mut races = Vec::new(alloc);
    let mut walk = Walk::new();
    for e in 0..enforced.events() {
        enforced.next_races(&mut walk, &mut races, e)?;
        all.extend_from_slice(races.as_slice())?;
    }
    Ok(all)
}
