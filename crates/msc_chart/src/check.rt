//! The faults of a draft, one by one.

ghost use Rattle.std.specs.Prelude.{◌≡◌, ◌<◌, ◌↔◌, IsTrue, map, length, count_by};
ghost use Rattle.std.specs.Map.Iter.{deref};
ghost use Rattle.msc_chart.specs.Building.{AnswersLeast};
ghost use Rattle.msc_chart.specs.Events.{address_of, is_action};
ghost use Rattle.msc_chart.specs.Charting.{is_of};
ghost use Rattle.msc_chart.specs.Tables.{partners_of};
ghost use Rattle.msc_chart.specs.Views.{mark_view};
ghost use Rattle.msc_chart.specs.Faults.{AreTooMany, HoldsAt, IsUnknown, IsUnmatched};
ghost use Rattle.msc_chart.specs.Faults.{OfEnd};

use crate::end::Mark;
use crate::event::EventKind;
use crate::{ACTION_LIMIT, MESSAGE_LIMIT};
use indexmap::IndexSet;
use msc_parser::Decl;

/// Whether no instance has the name.
fn is_unknown<'d>(instances: &IndexSet<&'d [u8]>, name: &[u8]) -> bool
    ensures { IsTrue result ↔ IsUnknown (map deref instances.now.keys) name.now }
{
    !instances.contains(name)
}

/// Whether it is an end of a message whose address is no instance's name.
fn is_away<'d>(instances: &IndexSet<&'d [u8]>, mark: &Mark<'d>) -> bool
    ensures { IsTrue result ↔ OfEnd
        (λ x. IsUnknown (map deref instances.now.keys) (address_of x)) (mark_view mark.now) }
{
    match mark {
        Mark::OfMessage(end) => is_unknown(instances, end.address()),
        Mark::Action(_, _) => false,
    }
}

/// Whether the event at place `e` is an output, or an input, without its other end.
fn is_unmatched(marks: &[Mark], partners: &[u32], e: usize, sends: bool) -> bool
    requires event { e < length marks.now }
    requires partners { partners.now ≡ partners_of (map mark_view marks.now) }
    ensures { IsTrue result ↔ HoldsAt
        (OfEnd (IsUnmatched sends (map mark_view marks.now))) (map mark_view marks.now) e }
{
    match marks[e] {
        Mark::OfMessage(end) => end.sends == sends && partners[e] as usize == marks.len(),
        Mark::Action(_, _) => false,
    }
}

/// The first header name that is no section's name.
pub(crate) fn unknown_header<'d>(header: &[Decl], instances: &IndexSet<&'d [u8]>) -> Option<usize>
    ensures { AnswersLeast (HoldsAt
        (IsUnknown (map deref instances.now.keys)) (map (λ d. d.name) header.now)) result }
{
    for (k, decl) in header.iter().enumerate() {
        if is_unknown(instances, decl.name.as_slice()) {
            return Some(k);
        }
    }
    None
}

/// The first event whose address is no section's name.
pub(crate) fn unknown_address<'d>(
    marks: &[Mark<'d>],
    instances: &IndexSet<&'d [u8]>,
) -> Option<usize>
    ensures { AnswersLeast (HoldsAt
        (OfEnd (λ x. IsUnknown (map deref instances.now.keys) (address_of x)))
        (map mark_view marks.now)) result }
{
    for (e, mark) in marks.iter().enumerate() {
        if is_away(instances, mark) {
            return Some(e);
        }
    }
    None
}

/// The first output, or the first input, without its other end.
pub(crate) fn unmatched(marks: &[Mark], partners: &[u32], sends: bool) -> Option<usize>
    requires { partners.now ≡ partners_of (map mark_view marks.now) }
    ensures { AnswersLeast (HoldsAt
        (OfEnd (IsUnmatched sends (map mark_view marks.now)))
        (map mark_view marks.now)) result }
{
    for e in 0..marks.len() {
        if is_unmatched(marks, partners, e, sends) {
            return Some(e);
        }
    }
    None
}

/// The number of events of this kind.
fn count(marks: &[Mark], kind: EventKind) -> usize
    ensures { result ≡ count_by (is_of kind) (map mark_view marks.now) }
{
    marks.iter().filter(|mark| mark.is_of(kind)).count()
}

/// Whether there are more outputs, or more inputs, than a chart may have messages.
pub(crate) fn are_too_many(marks: &[Mark]) -> bool
    ensures { IsTrue result ↔ AreTooMany (map mark_view marks.now) }
{
    let limit = MESSAGE_LIMIT as usize;
    count(marks, EventKind::Output) > limit || count(marks, EventKind::Input) > limit
}

/// Whether there are more actions than a chart may have.
pub(crate) fn are_too_many_actions(marks: &[Mark]) -> bool
    ensures { IsTrue result ↔ (ACTION_LIMIT < count_by is_action (map mark_view marks.now)) }
{
    count(marks, EventKind::Local) > ACTION_LIMIT as usize
}
