//! The link of each event: the last event of another log that has to precede it.

ghost use Rattle.std.specs.List.{concat};
ghost use Rattle.std.specs.Prelude.{◌++◌, ◌<◌, ◌∷◌, ◌≡◌, [], false, IfOk, IsTrue, length, List};
ghost use Rattle.std.specs.Prelude.{ℕ};
ghost use Rattle.msc_chart.specs.Charts.{is_local};
ghost use Rattle.msc_chart.specs.Lists.{IsOnce, occurs};
ghost use Rattle.msc_chart.specs.Orders.{queue};
ghost use Rattle.msc_chart.specs.Wirings.{size, wired_by};
ghost use Rattle.msc_gather.specs.Heads.{IsLink};
ghost use Rattle.msc_gather.specs.Held.{log_lists, HasLinks, HasLogs, HasMarks, TookFrom};
ghost use Rattle.msc_gather.specs.Marks.{AreMarks};
ghost use Rattle.msc_gather.specs.Schedule.{AreLogs, IsSeated};

use msc_chart::laws::ends_share_queues;
use msc_chart::{Event, Wiring};
use std::alloc::{AllocError, Global};

/// The events of all logs, one log after the other.
fn joined(alloc: Global, logs: &[Vec<Event>]) -> Result<Vec<Event>, AllocError>
    ensures { IfOk result (λ all. all.items ≡ concat (log_lists logs.now)) }
{
    let mut all = Vec::new(alloc);
    for log in logs {
        all.extend_from_slice(log.as_slice())?;
    }
    Ok(all)
}

/// The state of the queues: for each queue the last output whose message was taken, and for each
/// output whose input was met the output that was taken from its queue before it.
#[derive(Drop)]
struct TakenSoFar {
    last: Vec<Option<Event>>,
    before: Vec<Option<Event>>,
}

impl TakenSoFar {
    /// Before any event.
    fn start(alloc: Global, w: &Wiring) -> Result<TakenSoFar, AllocError>
        ensures { IfOk result (λ t. TookFrom w.now [] t) }
    {
        Ok(TakenSoFar {
            last: vec![in alloc; None; w.queue_count() as usize]?,
            before: vec![in alloc; None; w.chart.events() as usize]?,
        })
    }

    /// Meets event `r`, which was not met yet.
    fn meet(&mut self, w: &Wiring, r: Event)
        requires known { r < size w.now }
        requires long { length self.old.before.items ≡ size w.now }
        requires queues { (e : ℕ) → e < size w.now → is_local w.now.chart.now.events e ≡ false
            → queue (wired_by w.now) e < length self.old.last.items }
        ensures { (list : List ℕ) → occurs list r ≡ false → TookFrom w.now list self.old
            → TookFrom w.now (list ++ r ∷ []) self.new }
    {
        ends_share_queues();
        w.chart.facts();
        if w.chart.is_controlled(r) {
            return;
        }
        let q = w.queue(r) as usize;
        let s = w.chart.other_end(r);
        self.before[s as usize] = self.last[q];
        self.last[q] = Some(s);
    }

    /// The state after these events.
    fn of(alloc: Global, w: &Wiring, events: &[Event]) -> Result<TakenSoFar, AllocError>
        requires known { (e : ℕ) → IsTrue (occurs events.now e) → e < size w.now }
        requires once { IsOnce events.now }
        ensures { IfOk result (λ t. TookFrom w.now events.now t) }
    {
        let mut taken = TakenSoFar::start(alloc, w)?;
        for r in events {
            taken.meet(w, *r);
        }
        Ok(taken)
    }

    /// The link of event `x`, if all logs were met.
    fn link(&self, w: &Wiring, marks: &[bool], x: Event) -> Option<Event>
        requires known { x < size w.now }
        requires marks { length marks.now ≡ size w.now }
        requires long { length self.now.before.items ≡ size w.now }
        requires queues { (e : ℕ) → e < size w.now → is_local w.now.chart.now.events e ≡ false
            → queue (wired_by w.now) e < length self.now.last.items }
        ensures { (logs : List (List ℕ)) → IsSeated (wired_by w.now) (length logs)
            → AreLogs (wired_by w.now) (length logs) logs → AreMarks (wired_by w.now) logs marks.now
            → TookFrom w.now (concat logs) self.now → IsLink (wired_by w.now) logs x result }
    {
        if w.chart.is_local(x) {
            return None;
        }
        let other = w.chart.other_end(x);
        if !w.chart.is_output(x) {
            return Some(other);
        }
        if marks[other as usize] {
            return self.before[x as usize];
        }
        let at = w.queue(x) as usize;
        self.last[at]
    }
}

/// The link of each event.
pub fn links_of(
    alloc: Global,
    w: &Wiring,
    logs: &[Vec<Event>],
    marks: &[bool],
) -> Result<Vec<Option<Event>>, AllocError>
    requires seated { IsSeated (wired_by w.now) (length logs.now) }
    requires logs { HasLogs w.now logs.now }
    requires marks { HasMarks w.now logs.now marks.now }
    ensures { IfOk result (λ links. HasLinks w.now logs.now links.items) }
{
    let events = joined(alloc, logs)?;
    let taken = TakenSoFar::of(alloc, w, &events)?;
    let mut links = Vec::new(alloc);
    for x in 0..w.chart.events() {
        links.push(taken.link(w, marks, x))?;
    }
    Ok(links)
}
