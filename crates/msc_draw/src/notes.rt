//! Noted events: a table with a place for each event. Passes over it go only from the first noted
//! event to the last.

ghost use Rattle.std.specs.Prelude.{◌≡◌, ◌<◌, ◌≤◌, ◌++◌, ◌∷◌, [], IfOk, OnOk, cond, false, get_or};
ghost use Rattle.std.specs.Prelude.{length, replicate, slice_set, true, ℕ};
ghost use Rattle.msc_draw.specs.Notes.{AreWithin, noted};

use listed::Listed;
use msc_chart::Event;
use std::alloc::{AllocError, Global};
use std::marker::Model;

/// The noted events: the true places of the table, all of them from `low` on and below `high`.
/// Contracts see the table.
#[derive(Drop)]
pub struct Notes {
    table: Vec<bool>,
    low: Event,
    high: Event,
}

impl Model for Notes {
    ghost use Rattle.std.specs.Prelude.{Bool, List};
    ghost use Rattle.msc_draw.specs.Notes.{AreWithin};

    ghost Value = { List Bool };

    ghost view = { λ n. n.table.items };

    ghost invariant = { λ n. AreWithin n.table.items n.low n.high };
}

/// Appends event `x` to the events, if it is noted.
fn print_if(events: &mut Vec<Event>, x: Event, is_noted: bool) -> Result<(), AllocError>
    ensures { OnOk result (events.new.items ≡ events.old.items ++ cond is_noted (x ∷ []) []) }
{
    if is_noted {
        events.push(x)?;
    }
    Ok(())
}

/// The noted events of a table, ascending, all of which are between two numbers.
fn noted_within(
    alloc: Global,
    table: &[bool],
    low: Event,
    high: Event,
) -> Result<Listed<Event>, AllocError>
    requires { AreWithin table.now low high }
    ensures { IfOk result (λ events. events ≡ noted table.now (length table.now)) }
{
    let mut events = Vec::new(alloc);
    for x in low..high {
        print_if(&mut events, x, table[x as usize])?;
    }
    Ok(Listed::from_vec(events))
}

/// Clears the notes of a table, all of which are between two numbers.
fn take_back(table: &mut Vec<bool>, low: Event, high: Event)
    requires { AreWithin table.old.items low high }
    ensures { table.new.items ≡ replicate (length table.old.items) false }
{
    for x in low..high {
        table[x as usize] = false;
    }
}

impl Notes {
    /// No note of `many` events.
    pub fn none(alloc: Global, many: Event) -> Result<Notes, AllocError>
        ensures { IfOk result (λ notes. notes ≡ replicate many false) }
    {
        Ok(Notes {
            table: vec![in alloc; false; many as usize]?,
            low: many,
            high: 0,
        })
    }

    /// Notes event `x`. It takes no memory.
    pub fn note(&mut self, x: Event)
        requires { x < length self.old }
        ensures { self.new ≡ slice_set self.old x true }
    {
        self.table[x as usize] = true;
        self.low = self.low.min(x);
        self.high = self.high.max(x + 1);
    }

    /// The events that are noted, ascending.
    pub fn list(&self, alloc: Global) -> Result<Listed<Event>, AllocError>
        ensures { IfOk result (λ events. events ≡ noted self.now (length self.now)) }
    {
        noted_within(alloc, &self.table, self.low, self.high)
    }

    /// Clears all notes. It takes no memory.
    pub fn clear(&mut self)
        ensures { self.new ≡ replicate (length self.old) false }
    {
        take_back(&mut self.table, self.low, self.high);
        self.low = u32::MAX;
        self.high = 0;
    }
}
