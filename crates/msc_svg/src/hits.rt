//! The events of bars. One pass over the bars serves all events.

ghost use Rattle.std.specs.Prelude.{◌≡◌, ◌<◌, ◌||◌, IfOk, false, get_or, length, nat_eq, slice_set};
ghost use Rattle.std.specs.Prelude.{true, ℕ};
ghost use Rattle.std.specs.List.{list_any};
ghost use Rattle.msc_svg.specs.Hits.{AreHits};

use msc_chart::Event;
use msc_picture::Scene;
use std::alloc::{AllocError, Global};

/// Notes that event `e` belongs to a bar, if it has a place.
fn note(hits: &mut Vec<bool>, e: Event)
    ensures { hits.new.items ≡ slice_set hits.old.items e true }
{
    if (e as usize) < hits.len() {
        hits[e as usize] = true;
    }
}

/// Notes that these events belong to a bar.
fn note_all(hits: &mut Vec<bool>, events: &[Event])
    ensures long { length hits.new.items ≡ length hits.old.items }
    ensures each { (e : ℕ) → e < length hits.old.items → get_or hits.new.items e false
        ≡ (get_or hits.old.items e false || list_any (nat_eq e) events.now) }
{
    for e in events {
        note(hits, *e);
    }
}

/// For each event, whether it belongs to a bar.
pub fn hits_of(alloc: Global, scene: &Scene) -> Result<Vec<bool>, AllocError>
    ensures { IfOk result (λ hits. AreHits scene.now hits.items) }
{
    let bars = scene.bars.as_slice();
    let mut hits = vec![in alloc; false; scene.spots.as_slice().len()]?;
    for bar in bars {
        note_all(&mut hits, bar.upper.as_slice());
        note_all(&mut hits, bar.lower.as_slice());
    }
    Ok(hits)
}
