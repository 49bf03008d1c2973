//! The earliest event that may follow, by given ranks.
//!
//! Only the listed events are visited: words without a listed event are skipped.

ghost use Rattle.std.specs.Prelude.{◌≡◌, ◌+◌, ◌*◌, ◌<◌, ◌≤◌, ◌↔◌, ℕ, IfNone, IfSome, IsTrue};
ghost use Rattle.std.specs.Prelude.{length};
ghost use Rattle.msc_picture.specs.Courses.{IsLaid, frame_of};
ghost use Rattle.msc_picture.specs.Drawn.{Holds};
ghost use Rattle.msc_picture.specs.Frames.{IsEarliest, IsNoLater, MayFollow, rank_of};
ghost use Rattle.msc_picture.specs.Ready.{HoldsDrawing, IsEarliestTo};

use crate::drawn::Drawn;
use crate::frame::Framed;
use crate::ordering::Drawing;
use bit_rows::row::word_count;
use msc_chart::Event;

/// The rank of event `e`, or 0 if there is none.
fn rank_of(ranks: &[usize], e: Event) -> usize
    ensures { result ≡ rank_of ranks.now e }
{
    match ranks.get(e as usize) {
        Some(rank) => *rank,
        None => 0,
    }
}

/// The earliest event up to event `e` that may follow, given the earliest below `e`.
fn with_event(
    d: &Drawn,
    f: &Framed,
    ranks: &[usize],
    best: Option<Event>,
    e: Event,
) -> Option<Event>
    requires laid { IsLaid f.now }
    requires held { Holds f.now d.now }
    requires known { e < length f.now.chart.now.events }
    requires best { IsEarliestTo ranks.now (MayFollow (frame_of f.now) d.now.past.items) e best }
    ensures { IsEarliestTo ranks.now (MayFollow (frame_of f.now) d.now.past.items) (e + 1)
        result }
{
    if !d.may_follow(f, e) {
        return best;
    }
    let Some(x) = best else {
        return Some(e);
    };
    if rank_of(ranks, e) < rank_of(ranks, x) {
        return Some(e);
    }
    Some(x)
}

/// The earliest event below `end` that may follow, given the earliest below `start`.
fn earliest_between(
    d: &Drawn,
    f: &Framed,
    ranks: &[usize],
    best: Option<Event>,
    start: Event,
    end: Event,
) -> Option<Event>
    requires laid { IsLaid f.now }
    requires held { Holds f.now d.now }
    requires best { IsEarliestTo ranks.now (MayFollow (frame_of f.now) d.now.past.items) start
        best }
    requires ordered { start ≤ end }
    requires within { end ≤ length f.now.chart.now.events }
    ensures { IsEarliestTo ranks.now (MayFollow (frame_of f.now) d.now.past.items) end result }
{
    let mut earliest = best;
    for e in start..end {
        earliest = with_event(d, f, ranks, earliest, e);
    }
    earliest
}

impl Drawing {
    /// The earliest event up to word `k` of the listed events that may follow, given the earliest
    /// below that word.
    fn earliest_to(&self, f: &Framed, ranks: &[usize], best: Option<Event>, k: u32) -> Option<Event>
        requires laid { IsLaid f.now }
        requires held { HoldsDrawing f.now self.now }
        requires best { IsEarliestTo ranks.now
            (MayFollow (frame_of f.now) self.now.drawn.past.items) (64 * k) best }
        requires known { k < length self.now.ready.rests.items }
        ensures { IsEarliestTo ranks.now (MayFollow (frame_of f.now) self.now.drawn.past.items)
            (64 * k + 64) result }
    {
        f.chart.facts();
        if self.ready.rests()[k as usize] == 0 && self.ready.sends()[k as usize] == 0 {
            return best;
        }
        let end = f.chart.events().min(64 * k + 64);
        earliest_between(&self.drawn, f, ranks, best, 64 * k, end)
    }

    /// The earliest event that may follow.
    pub fn earliest(&self, f: &Framed, ranks: &[usize]) -> Option<Event>
        requires laid { IsLaid f.now }
        requires held { HoldsDrawing f.now self.now }
        ensures some { IfSome result
            (IsEarliest ranks.now (MayFollow (frame_of f.now) self.now.drawn.past.items)) }
        ensures none { IfNone result
            ((e : ℕ) → MayFollow (frame_of f.now) self.now.drawn.past.items e → ⊥) }
    {
        f.chart.facts();
        let mut earliest = None;
        for k in 0..word_count(f.chart.events()) as u32 {
            earliest = self.earliest_to(f, ranks, earliest, k);
        }
        earliest
    }
}
