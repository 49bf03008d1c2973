//! The first event that is one too many.

ghost use Rattle.std.specs.Prelude.{◌≡◌, map, MatchOption};
ghost use Rattle.msc_notes.specs.Events.{statement_view};
ghost use Rattle.msc_notes.specs.Faults.{HasNone, IsFirstTooMany, IsNth};
ghost use Rattle.msc_notes.specs.Sorts.{is_of, lesser};
ghost use Rattle.msc_notes.specs.declared.counting.Sort.TheVariants.{Action};

use crate::event::OwnEvent;
use msc_chart::{ACTION_LIMIT, MESSAGE_LIMIT};
use msc_parser::{Direction, Statement};

/// The sorts of events that are counted apart.
#[derive(Clone, Copy, Debug, PartialEq, Eq)]
pub(crate) enum Sort {
    Output,
    Input,
    Action,
}

/// Whether a statement is of a sort.
fn is_of(sort: Sort, statement: &Statement) -> bool
    ensures { result ≡ is_of sort statement.now }
{
    match (sort, statement) {
        (Sort::Output, Statement::Message(signal)) => signal.direction == Direction::Output,
        (Sort::Input, Statement::Message(signal)) => signal.direction == Direction::Input,
        (Sort::Action, Statement::Action(_)) => true,
        _ => false,
    }
}

/// The event of a sort after `count` others of it.
fn nth(events: &[OwnEvent], sort: Sort, count: u32) -> Option<usize>
    ensures { MatchOption result (HasNone (IsNth sort count (map statement_view events.now)))
        (IsNth sort count (map statement_view events.now)) }
{
    let mut left = count;
    for (e, event) in events.iter().enumerate() {
        if is_of(sort, event.statement) {
            if left == 0 {
                return Some(e);
            }
            left -= 1;
        }
    }
    None
}

/// The smaller of two numbers, or the one that is given.
fn lesser(a: Option<usize>, b: Option<usize>) -> Option<usize>
    ensures { result ≡ lesser a b }
{
    match (a, b) {
        (Some(a), Some(b)) => Some(a.min(b)),
        (Some(a), None) => Some(a),
        (None, b) => b,
    }
}

/// The first output or input that is one too many.
pub(crate) fn last_message(events: &[OwnEvent]) -> Option<usize>
    ensures { MatchOption result (HasNone (IsFirstTooMany (map statement_view events.now)))
        (IsFirstTooMany (map statement_view events.now)) }
{
    let output = nth(events, Sort::Output, MESSAGE_LIMIT);
    let input = nth(events, Sort::Input, MESSAGE_LIMIT);
    lesser(output, input)
}

/// The first action that is one too many.
pub(crate) fn last_action(events: &[OwnEvent]) -> Option<usize>
    ensures { MatchOption result
        (HasNone (IsNth Action ACTION_LIMIT (map statement_view events.now)))
        (IsNth Action ACTION_LIMIT (map statement_view events.now)) }
{
    nth(events, Sort::Action, ACTION_LIMIT)
}
