//! Numbers that depend on every part of a result, by the hash of Fowler, Noll and Vo (FNV-1a), a
//! word at a time.

ghost use Rattle.std.specs.Prelude.{◌≡◌, length};

use msc_chart::{Chart, Event};
use msc_order::Order;
use msc_parser::Draft;

/// The number of no parts.
const NO_PARTS: u64 = 14_695_981_039_346_656_037;

/// The number of some parts and one more.
fn and(number: u64, part: u64) -> u64 {
    (number ^ part).wrapping_mul(1_099_511_628_211)
}

/// The number of a draft: the number of items of each section.
pub fn parsed(draft: &Draft) -> u64 {
    let sections = draft.sections().iter();
    sections.fold(
        NO_PARTS,
        |number, section| and(number, section.items.as_slice().len() as u64),
    )
}

/// The number of a chart: the message of each event.
pub fn built(chart: &Chart) -> u64 {
    let events = 0..chart.events();
    events.fold(
        NO_PARTS,
        |number, e| and(number, u64::from(chart.message(e).unwrap_or(0))),
    )
}

/// The number of some parts and the words of a row.
fn and_row(number: u64, row: &[u64]) -> u64 {
    row.iter().fold(number, |number, word| and(number, *word))
}

/// The number of an order: all its rows.
pub fn ordered(chart: &Chart, order: &Order) -> u64
    requires events { length order.now ≡ length chart.now.events }
{
    let mut number = NO_PARTS;
    for e in 0..chart.events() {
        number = and_row(number, order.row(e));
    }
    number
}

/// The number of a list of races.
pub fn listed(races: &[(Event, Event)]) -> u64 {
    races.iter().fold(
        NO_PARTS,
        |number, (e, f)| and(and(number, u64::from(*e)), u64::from(*f)),
    )
}
