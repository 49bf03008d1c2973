//! The log of an instance, with a mark for each event that is in it.

ghost use Rattle.std.specs.Prelude.{◌≡◌, ◌<◌, ◌++◌, ◌∷◌, ℕ, [], false, get_or, length};
ghost use Rattle.std.specs.Prelude.{vec_capacity};
ghost use Rattle.msc_chart.specs.Lists.{occurs};
ghost use Rattle.msc_chart.specs.declared.TheConstants.{EVENT_LIMIT};

use msc_chart::{EVENT_LIMIT, Event};

/// The number of events that a journal can mark: those of the largest chart.
const MARKS: usize = EVENT_LIMIT as usize;

/// The log of an instance. The look-up of an event needs no walk.
#[derive(Drop)]
pub(crate) struct Journal {
    pub log: Vec<Event>,
    pub marks: [bool; MARKS],
    ghost marked: { (e : ℕ) → e < EVENT_LIMIT → get_or marks e false ≡ occurs log.items e },
}

impl Journal {
    /// Begins with an empty log.
    pub fn new(log: Vec<Event>) -> Journal
        requires { log.items ≡ [] }
        ensures { result.log ≡ log }
    {
        Journal {
            log,
            marks: [false; MARKS],
        }
    }

    /// Whether an event is logged.
    pub fn has(&self, e: Event) -> bool
        requires { e < EVENT_LIMIT }
        ensures { result ≡ occurs self.now.log.items e }
    {
        self.marks[e as usize]
    }

    /// Logs an event.
    pub fn note(&mut self, e: Event)
        requires event { e < EVENT_LIMIT }
        requires room { length self.old.log.items < vec_capacity self.old.log }
        ensures noted { self.new.log.items ≡ self.old.log.items ++ e ∷ [] }
        ensures room { vec_capacity self.new.log ≡ vec_capacity self.old.log }
    {
        self.log.push_reserved(e);
        self.marks[e as usize] = true;
    }
}
