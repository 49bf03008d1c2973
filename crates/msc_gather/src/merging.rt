//! The least run of logs, by one head for each log and one link for each event.

ghost use Rattle.std.specs.Prelude.{◌++◌, ◌+◌, ◌<◌, ◌∷◌, ◌≡◌, [], IfNone, IfOk, IfSome, length};
ghost use Rattle.std.specs.Prelude.{min, None, OnOk, Some, ℕ};
ghost use Rattle.msc_chart.specs.Wirings.{wired_by};
ghost use Rattle.msc_gather.specs.Held.{MergesOn, HasLinks, HasLogs, HoldsMerge, MayGoOn};
ghost use Rattle.msc_gather.specs.Held.{MayGoOnAt};
ghost use Rattle.msc_gather.specs.Schedule.{IsSeated};

use crate::marking::log_at;
use msc_chart::{Event, Wiring};
use std::alloc::{AllocError, Global};

/// A part of the least run: its events, the number of events of each log among them, and for each
/// event whether it is among them.
#[derive(Drop)]
pub struct Merge {
    pub past: Vec<Event>,
    pub heads: Vec<usize>,
    pub done: Vec<bool>,
}

/// The lesser of two events, or the only one.
fn lesser(a: Option<Event>, b: Option<Event>) -> Option<Event>
    ensures none { a ≡ None → result ≡ b }
    ensures other { b ≡ None → result ≡ a }
    ensures both { (x y : ℕ) → a ≡ Some x → b ≡ Some y → result ≡ Some (min x y) }
{
    match (a, b) {
        (None, b) => b,
        (a, None) => a,
        (Some(x), Some(y)) => Some(x.min(y)),
    }
}

/// The place after a place of a log.
fn place_after(log: &[Event], k: usize) -> usize
    requires { k < length log.now }
    ensures { result ≡ k + 1 }
{
    k + 1
}

impl Merge {
    /// No event yet.
    fn start(alloc: Global, w: &Wiring, logs: &[Vec<Event>]) -> Result<Merge, AllocError>
        ensures { IfOk result (λ m. HoldsMerge w.now logs.now m) }
    {
        Ok(Merge {
            past: Vec::new(alloc),
            heads: vec![in alloc; 0; logs.len()]?,
            done: vec![in alloc; false; w.chart.events() as usize]?,
        })
    }

    /// The first event that is left in log `i`, if it may follow: if its link is done.
    fn head(
        &self,
        w: &Wiring,
        logs: &[Vec<Event>],
        links: &[Option<Event>],
        i: u32,
    ) -> Option<Event>
        requires seated { IsSeated (wired_by w.now) (length logs.now) }
        requires logs { HasLogs w.now logs.now }
        requires links { HasLinks w.now logs.now links.now }
        requires merging { HoldsMerge w.now logs.now self.now }
        requires i { i < length logs.now }
        ensures some { IfSome result (λ x. MayGoOnAt w.now logs.now self.now i x) }
        ensures least { (x : ℕ) → MayGoOnAt w.now logs.now self.now i x → result ≡ Some x }
    {
        let log = log_at(logs, i);
        let k = self.heads[i as usize];
        if k >= log.len() {
            return None;
        }
        let e = log[k];
        match links[e as usize] {
            None => Some(e),
            Some(y) => { if self.done[y as usize] { Some(e) } else { None } }
        }
    }

    /// The least event that may follow.
    fn next(&self, w: &Wiring, logs: &[Vec<Event>], links: &[Option<Event>]) -> Option<Event>
        requires seated { IsSeated (wired_by w.now) (length logs.now) }
        requires logs { HasLogs w.now logs.now }
        requires links { HasLinks w.now logs.now links.now }
        requires merging { HoldsMerge w.now logs.now self.now }
        requires few { length logs.now ≡ length w.now.chart.now.instances }
        ensures some { IfSome result (λ x. MergesOn w.now logs.now self.now x) }
        ensures none { IfNone result ((x : ℕ) → MayGoOn w.now logs.now self.now x → ⊥) }
    {
        let mut best = None;
        for i in 0..w.chart.instances() {
            best = lesser(best, self.head(w, logs, links, i));
        }
        best
    }

    /// Event `x` follows.
    fn follow(&mut self, w: &Wiring, logs: &[Vec<Event>], x: Event) -> Result<(), AllocError>
        requires seated { IsSeated (wired_by w.now) (length logs.now) }
        requires logs { HasLogs w.now logs.now }
        requires merging { HoldsMerge w.now logs.now self.old }
        requires follows { MergesOn w.now logs.now self.old x }
        ensures merging { OnOk result (HoldsMerge w.now logs.now self.new) }
        ensures past { OnOk result (self.new.past.items ≡ self.old.past.items ++ x ∷ []) }
    {
        let i = w.chart.instance_of(x);
        let k = place_after(log_at(logs, i), self.heads[i as usize]);
        self.past.push(x)?;
        self.done[x as usize] = true;
        self.heads[i as usize] = k;
        Ok(())
    }
}

/// The least events that may follow one another, until none may.
pub fn merged(
    alloc: Global,
    w: &Wiring,
    logs: &[Vec<Event>],
    links: &[Option<Event>],
) -> Result<Merge, AllocError>
    requires seated { IsSeated (wired_by w.now) (length logs.now) }
    requires logs { HasLogs w.now logs.now }
    requires links { HasLinks w.now logs.now links.now }
    requires few { length logs.now ≡ length w.now.chart.now.instances }
    ensures merging { IfOk result (λ m. HoldsMerge w.now logs.now m) }
    ensures end { IfOk result (λ m. (x : ℕ) → MayGoOn w.now logs.now m x → ⊥) }
{
    let mut merge = Merge::start(alloc, w, logs)?;
    while let Some(x) = merge.next(w, logs, links) {
        merge.follow(w, logs, x)?;
    }
    Ok(merge)
}
