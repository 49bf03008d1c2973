//! Sets of pairs of a chart's events.

ghost use Rattle.std.specs.Prelude.{◌≡◌, ℕ, ◌<◌, ◌&&◌, ◌||◌, false, nat_eq, IfOk};
ghost use Rattle.msc_reason.specs.PairTables.{has_pair};

use bit_rows::table;
use msc_chart::Event;
use std::alloc::{AllocError, Global};
use std::marker::Model;

/// A set of pairs of a chart's events: a row of bits for each event. Contracts see the table.
#[derive(Drop)]
pub struct Pairs {
    events: u32,
    cells: Vec<u64>,
}

impl Model for Pairs {
    ghost use Rattle.msc_reason.specs.PairTables.{pair_table, IsSquare, PairTable};

    ghost Value = { PairTable };

    ghost view = { λ p. pair_table p.events p.cells.items };

    ghost invariant = { λ p. IsSquare (pair_table p.events p.cells.items) };
}

impl Pairs {
    /// No pair of this number of events. An error is a growth of memory that was refused.
    pub fn none(alloc: Global, events: u32) -> Result<Pairs, AllocError>
        ensures events { IfOk result (λ pairs. pairs.events ≡ events) }
        ensures none { IfOk result (λ pairs. (x y : ℕ) → has_pair pairs x y ≡ false) }
    {
        let cells = table::blank(alloc, events, events)?;
        Ok(Pairs { events, cells })
    }

    /// Puts the pair (`e`, `f`) into the set.
    pub fn put(&mut self, e: Event, f: Event)
        requires e_known { e < self.old.events }
        requires f_known { f < self.old.events }
        ensures events { self.new.events ≡ self.old.events }
        ensures pairs { (x y : ℕ) → has_pair self.new x y
            ≡ (has_pair self.old x y || (nat_eq x e && nat_eq y f)) }
    {
        table::put(&mut self.cells, self.events, e, f);
    }

    /// Whether the set has the pair (`e`, `f`). It takes no memory.
    pub fn has(&self, e: Event, f: Event) -> bool
        ensures { result ≡ has_pair self.now e f }
    {
        if e >= self.events || f >= self.events {
            return false;
        }
        table::has(self.cells.as_slice(), self.events, e, f)
    }
}
