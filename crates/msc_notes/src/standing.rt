//! All faults of names, of addresses and of ends of messages that stand in a draft.

ghost use Rattle.std.specs.Prelude.{◌≡◌, ◌<◌, ◌≤◌, ◌↔◌, ◌^◌, IsTrue, length, map, IfOk, OnOk};
ghost use Rattle.std.specs.Prelude.{false};
ghost use Rattle.std.specs.Map.Iter.{deref};
ghost use Rattle.msc_chart.specs.declared.fault.ChartFault.TheVariants.{HeaderWithoutBody};
ghost use Rattle.msc_chart.specs.declared.fault.ChartFault.TheVariants.{TwiceEvent, TwiceInstance};
ghost use Rattle.msc_chart.specs.declared.fault.ChartFault.TheVariants.{UnknownAddress};
ghost use Rattle.msc_chart.specs.Events.{address_of};
ghost use Rattle.msc_chart.specs.Lists.{Occurs};
ghost use Rattle.msc_chart.specs.Faults.{HoldsAt, IsTwice, IsUnknown, IsUnmatched, OfEnd};
ghost use Rattle.msc_notes.specs.AllFaults.{AreAllFaults};
ghost use Rattle.msc_notes.specs.Events.{act_view, end_view, own_view, owned_of};
ghost use Rattle.msc_notes.specs.Putting.{HasEnds, HasNames, HasPut, HasWith, IsAlone};
ghost use Rattle.msc_notes.specs.Putting.{IsFewRepeats, decl_names, section_names};
ghost use Rattle.msc_notes.specs.Putting.{unmatched_fault};

use crate::alike::End;
use crate::event::{OwnEvent, events_of};
use indexmap::IndexSet;
use msc_chart::ChartFault;
use msc_lexer::TEXT_LIMIT;
use msc_parser::{Decl, Draft, Section};
use std::alloc::{AllocError, Global};

/// Whether the name of section `i` is not new, and a fault can have the section's number; no text
/// has more sections.
fn is_repeat(is_new: bool, i: usize) -> bool
    ensures { IsTrue result ↔ ((is_new ≡ false) × (i < 2 ^ 32)) }
{
    !is_new && i < 0x1_0000_0000
}

/// Appends the faults of sections whose name an earlier one has, and returns all names of sections.
fn put_repeated_names<'d>(
    alloc: Global,
    faults: &mut Vec<ChartFault>,
    sections: &'d [Section],
) -> Result<IndexSet<&'d [u8]>, AllocError>
    ensures faults { OnOk result (HasPut TwiceInstance
        (IsFewRepeats (section_names sections.entry.now)) (length sections.entry.now)
        faults.old.items faults.new.items) }
    ensures names { IfOk result (λ names.
        HasNames (map deref names.keys) (section_names sections.entry.now)) }
{
    let mut names = IndexSet::with_capacity(alloc, sections.len())?;
    for (i, section) in sections.iter().enumerate() {
        let (_, is_new) = names.insert_full(section.decl.name.as_slice())?;
        if is_repeat(is_new, i) {
            faults.push(ChartFault::TwiceInstance(i as u32))?;
        }
    }
    Ok(names)
}

/// Appends the faults of header names that no section has.
fn put_unknown_headers<'d>(
    faults: &mut Vec<ChartFault>,
    header: &[Decl],
    names: &IndexSet<&'d [u8]>,
) -> Result<(), AllocError>
    requires { length header.now ≤ TEXT_LIMIT }
    ensures { OnOk result (HasPut HeaderWithoutBody
        (HoldsAt (IsUnknown (map deref names.now.keys)) (decl_names header.now))
        (length header.now) faults.old.items faults.new.items) }
{
    for (k, decl) in header.iter().enumerate() {
        if !names.contains(decl.name.as_slice()) {
            faults.push(ChartFault::HeaderWithoutBody(k as u32))?;
        }
    }
    Ok(())
}

/// Whether an event is an end of a message whose address is the name of no section.
fn is_away<'d>(event: &OwnEvent<'d>, names: &IndexSet<&'d [u8]>) -> bool
    ensures { IsTrue result ↔ OfEnd
        (λ x. IsUnknown (map deref names.now.keys) (address_of x)) (act_view event.now) }
{
    match End::of(event) {
        Some(end) => !names.contains(end.address()),
        None => false,
    }
}

/// Appends the faults of events whose address is the name of no section.
fn put_unknown_addresses<'d>(
    faults: &mut Vec<ChartFault>,
    events: &[OwnEvent<'d>],
    names: &IndexSet<&'d [u8]>,
) -> Result<(), AllocError>
    requires { length events.now ≤ TEXT_LIMIT }
    ensures { OnOk result (HasPut UnknownAddress
        (HoldsAt (OfEnd (λ x. IsUnknown (map deref names.now.keys) (address_of x)))
        (map act_view events.now)) (length events.now) faults.old.items faults.new.items) }
{
    for (e, event) in events.iter().enumerate() {
        if is_away(event, names) {
            faults.push(ChartFault::UnknownAddress(e as u32))?;
        }
    }
    Ok(())
}

/// Adds the end of a message that an event is, if it is one, to a set, and returns whether it was
/// there.
fn put_end<'d>(ends: &mut IndexSet<End<'d>>, event: &OwnEvent<'d>) -> Result<bool, AllocError>
    ensures again { IfOk result (λ was. IsTrue was ↔ OfEnd
        (Occurs (map end_view ends.old.keys)) (act_view event.now)) }
    ensures ends { OnOk result (HasWith (map end_view ends.old.keys) (act_view event.now)
        (map end_view ends.new.keys)) }
{
    match End::of(event) {
        Some(end) => {
            let (_, is_new) = ends.insert_full(end)?;
            Ok(!is_new)
        }
        None => Ok(false),
    }
}

/// All ends of messages that events are.
pub(crate) fn ends_of<'d>(
    alloc: Global,
    events: &[OwnEvent<'d>],
) -> Result<IndexSet<End<'d>>, AllocError> {
    let mut ends = IndexSet::with_capacity(alloc, events.len())?;
    for event in events {
        put_end(&mut ends, event)?;
    }
    Ok(ends)
}

/// Appends the faults of events whose kind and key an earlier one has, and returns all ends of
/// messages.
fn put_repeated_ends<'d>(
    alloc: Global,
    faults: &mut Vec<ChartFault>,
    events: &[OwnEvent<'d>],
) -> Result<IndexSet<End<'d>>, AllocError>
    requires { length events.now ≤ TEXT_LIMIT }
    ensures faults { OnOk result (HasPut TwiceEvent (IsTwice (map act_view events.now))
        (length events.now) faults.old.items faults.new.items) }
    ensures ends { IfOk result (λ ends.
        HasEnds (map end_view ends.keys) (map act_view events.now)) }
{
    let mut ends = IndexSet::with_capacity(alloc, events.len())?;
    for (e, event) in events.iter().enumerate() {
        if put_end(&mut ends, event)? {
            faults.push(ChartFault::TwiceEvent(e as u32))?;
        }
    }
    Ok(ends)
}

/// Whether an event is an output, or an input, whose other end is none of these.
pub(crate) fn is_unmatched<'d>(event: &OwnEvent<'d>, ends: &IndexSet<End<'d>>, sends: bool) -> bool
    ensures { IsTrue result ↔ OfEnd
        (IsAlone sends (map end_view ends.now.keys)) (act_view event.now) }
{
    match End::of(event) {
        Some(end) => end.sends == sends && !ends.contains(&end.other()),
        None => false,
    }
}

/// The fault of an output, or of an input, that has no other end.
fn unmatched_fault(sends: bool, e: u32) -> ChartFault
    ensures { result ≡ unmatched_fault sends e }
{
    if sends {
        ChartFault::UnmatchedOut(e)
    } else {
        ChartFault::UnmatchedIn(e)
    }
}

/// Appends the faults of outputs, or of inputs, that have no other end.
fn put_unmatched<'d>(
    faults: &mut Vec<ChartFault>,
    events: &[OwnEvent<'d>],
    ends: &IndexSet<End<'d>>,
    sends: bool,
) -> Result<(), AllocError>
    requires few { length events.now ≤ TEXT_LIMIT }
    requires ends { HasEnds (map end_view ends.now.keys) (map act_view events.now) }
    ensures { OnOk result (HasPut (unmatched_fault sends)
        (HoldsAt (OfEnd (IsUnmatched sends (map act_view events.now))) (map act_view events.now))
        (length events.now) faults.old.items faults.new.items) }
{
    for (e, event) in events.iter().enumerate() {
        if is_unmatched(event, ends, sends) {
            faults.push(unmatched_fault(sends, e as u32))?;
        }
    }
    Ok(())
}

/// Whether a fault is of a sort that [`faults`] lists.
pub(crate) fn is_listed(fault: ChartFault) -> bool {
    match fault {
        ChartFault::TwiceInstance(_)
        | ChartFault::HeaderWithoutBody(_)
        | ChartFault::UnknownAddress(_)
        | ChartFault::TwiceEvent(_)
        | ChartFault::UnmatchedOut(_)
        | ChartFault::UnmatchedIn(_) => true,
        ChartFault::TooManyInstances
        | ChartFault::TooManyMessages
        | ChartFault::TooManyActions
        | ChartFault::Cyclic(_)
        | ChartFault::Memory => false,
    }
}

/// The faults of names, of addresses and of ends of messages that stand in a draft, each by its own
/// rule, whether others stand or not. They are in the order in which each would be the first one,
/// and each occurs once. The only error is want of memory.
pub fn faults(alloc: Global, draft: &Draft) -> Result<Vec<ChartFault>, AllocError>
    ensures { IfOk result (λ faults. AreAllFaults draft.now faults.items) }
{
    let mut faults = Vec::new(alloc);
    let names = put_repeated_names(alloc, &mut faults, draft.sections())?;
    put_unknown_headers(&mut faults, draft.header(), &names)?;
    let drawn = events_of(alloc, draft)?;
    let events = drawn.as_slice();
    put_unknown_addresses(&mut faults, events, &names)?;
    let ends = put_repeated_ends(alloc, &mut faults, events)?;
    put_unmatched(&mut faults, events, &ends, true)?;
    put_unmatched(&mut faults, events, &ends, false)?;
    Ok(faults)
}
