//! The events of a draft, with borrowed names.

ghost use Rattle.std.specs.Prelude.{◌≡◌, ◌+◌, ◌<◌, ◌≤◌, ◌++◌, [], map, length, IfOk, OnOk};
ghost use mathlib.Core.Path.{refl};
ghost use Rattle.msc_chart.specs.Events.{events_of, events_of_item, events_of_items, next_segment};
ghost use Rattle.msc_chart.specs.Events.{act_of, drawn, end_of, other_end, address_of};
ghost use Rattle.msc_chart.specs.Charting.{is_of};
ghost use Rattle.msc_chart.specs.Hashing.{fed_end, ends_alike};
ghost use Rattle.msc_chart.specs.Views.{act_view, end_view, event_view, mark_at, mark_view};
ghost use Rattle.msc_chart.specs.Views.{HasNext};

use crate::INSTANCE_LIMIT;
use crate::event::EventKind;
use msc_lexer::TEXT_LIMIT;
use msc_parser::{Direction, Draft, Item, Section, Signal, Statement};
use std::alloc::{AllocError, Global};
use std::hash::{Hash, Hasher};

/// An end of a message, with its names in the draft.
#[derive(Clone, Copy, PartialEq, Eq)]
pub(crate) struct MessageEnd<'d> {
    pub sends: bool,
    pub sender: &'d [u8],
    pub receiver: &'d [u8],
    pub name: &'d [u8],
    pub number: Option<&'d [u8]>,
}

impl<'d> MessageEnd<'d> {
    /// The other end of the same message.
    pub fn other(&self) -> MessageEnd<'d>
        ensures { end_view result ≡ other_end (end_view self.entry.now) }
    {
        MessageEnd {
            sends: !self.sends,
            ..*self
        }
    }

    /// The name in its address.
    pub fn address(&self) -> &'d [u8]
        ensures { result.now ≡ address_of (end_view self.entry.now) }
    {
        if self.sends {
            self.receiver
        } else {
            self.sender
        }
    }
}

/// The hasher gets each name as a whole; of a slice it would get byte by byte.
impl Hash for MessageEnd<'_> {
    ghost hash_input = { fed_end };

    ghost respects_eq = { ends_alike.fed };

    fn hash<H: Hasher>(&self, state: &mut H) {
        self.sends.hash(state);
        state.write(self.sender);
        state.write(self.receiver);
        state.write(self.name);
        if let Some(number) = self.number {
            state.write(number);
        }
    }
}

/// The act of an event of a draft: it is an end of a message, or an action with its text.
#[derive(Clone, Copy)]
pub(crate) enum Act<'d> {
    OfMessage(MessageEnd<'d>),
    Action(&'d [u8]),
}

impl<'d> Act<'d> {
    /// The mark of event `e`, which has this act.
    pub fn mark(self, e: u32) -> Mark<'d>
        ensures { result ≡ mark_at e self.entry }
    {
        match self {
            Act::OfMessage(end) => Mark::OfMessage(end),
            Act::Action(bytes) => Mark::Action(e, ActionText { bytes }),
        }
    }
}

/// An event of a draft.
#[derive(Clone, Copy)]
pub(crate) struct DraftEvent<'d> {
    pub line: u32,
    pub segment: u32,
    pub act: Act<'d>,
}

/// The text of an action. Actions are distinguished by the numbers of their events, so the text is
/// not hashed.
#[derive(Clone, Copy, PartialEq, Eq)]
pub(crate) struct ActionText<'d> {
    pub bytes: &'d [u8],
}

impl Hash for ActionText<'_> {
    ghost hash_input = { λ _. [] };

    ghost respects_eq = { λ x y h. refl };

    fn hash<H: Hasher>(&self, _state: &mut H) {}
}

/// The key of an event of a draft: an end of a message by itself, an action with the number of its
/// event. So no two actions are equal.
#[derive(Clone, Copy, PartialEq, Eq, Hash)]
pub(crate) enum Mark<'d> {
    OfMessage(MessageEnd<'d>),
    Action(u32, ActionText<'d>),
}

impl<'d> Mark<'d> {
    /// Whether it becomes an event of this kind.
    pub fn is_of(&self, kind: EventKind) -> bool
        ensures { result ≡ is_of kind (mark_view self.entry.now) }
    {
        match (self, kind) {
            (Mark::OfMessage(end), EventKind::Output) => end.sends,
            (Mark::OfMessage(end), EventKind::Input) => !end.sends,
            (Mark::Action(_, _), EventKind::Local) => true,
            _ => false,
        }
    }
}

/// The end of a message that a statement of the instance `own` draws.
fn end_of<'d>(own: &'d [u8], signal: &'d Signal) -> MessageEnd<'d>
    ensures { end_view result ≡ end_of own.entry.now signal.entry.now }
{
    let address = signal.address.as_slice();
    let name = signal.name.as_slice();
    let number = match &signal.number {
        Some(number) => Some(number.as_slice()),
        None => None,
    };
    match signal.direction {
        Direction::Output => MessageEnd {
            sends: true,
            sender: own,
            receiver: address,
            name,
            number,
        },
        Direction::Input => MessageEnd {
            sends: false,
            sender: address,
            receiver: own,
            name,
            number,
        },
    }
}

/// The act of a statement of the instance `own`.
fn act_of<'d>(own: &'d [u8], statement: &'d Statement) -> Act<'d>
    ensures { act_view result ≡ act_of own.entry.now statement.entry.now }
{
    match statement {
        Statement::Message(signal) => Act::OfMessage(end_of(own, signal)),
        Statement::Action(text) => Act::Action(text.as_slice()),
    }
}

/// Appends the events of a coregion, all in one segment.
fn push_coregion<'d>(
    events: &mut Vec<DraftEvent<'d>>,
    line: u32,
    own: &'d [u8],
    segment: u32,
    statements: &'d [Statement],
) -> Result<(), AllocError>
    ensures { OnOk result (map event_view events.new.items
        ≡ map event_view events.old.items
        ++ map (drawn line own.entry.now segment) statements.entry.now) }
{
    for statement in statements {
        events.push(DraftEvent {
            line,
            segment,
            act: act_of(own, statement),
        })?;
    }
    Ok(())
}

/// Appends the events of an item, and returns the next item's segment.
fn push_item<'d>(
    events: &mut Vec<DraftEvent<'d>>,
    line: u32,
    own: &'d [u8],
    segment: u32,
    item: &'d Item,
) -> Result<u32, AllocError>
    requires { HasNext segment }
    ensures pushed { OnOk result (map event_view events.new.items
        ≡ map event_view events.old.items
        ++ events_of_item line own.entry.now segment item.entry.now) }
    ensures next { IfOk result (λ next. next ≡ next_segment segment item.entry.now) }
{
    match item {
        Item::Single(statement) => {
            events.push(DraftEvent {
                line,
                segment,
                act: act_of(own, statement),
            })?;
            Ok(segment + 1)
        }
        Item::Coregion(statements) => {
            let statements = statements.as_slice();
            push_coregion(events, line, own, segment, statements)?;
            if statements.is_empty() {
                Ok(segment)
            } else {
                Ok(segment + 1)
            }
        }
    }
}

/// Appends the events of a section.
fn push_section<'d>(
    events: &mut Vec<DraftEvent<'d>>,
    line: u32,
    section: &'d Section,
) -> Result<(), AllocError>
    requires { HasNext (length
        (events_of_items line section.now.decl.name 0 section.now.items)) }
    ensures { OnOk result (map event_view events.new.items
        ≡ map event_view events.old.items
        ++ events_of_items line section.entry.now.decl.name 0 section.entry.now.items) }
{
    let own = section.decl.name.as_slice();
    let mut segment = 0;
    for item in section.items.as_slice() {
        segment = push_item(events, line, own, segment, item)?;
    }
    Ok(())
}

/// The events of a draft of few sections.
pub(crate) fn events_of<'d>(
    alloc: Global,
    draft: &'d Draft,
) -> Result<Vec<DraftEvent<'d>>, AllocError>
    requires sections { length draft.now.sections ≤ INSTANCE_LIMIT }
    ensures events { IfOk result (λ events.
        map event_view events.items ≡ events_of draft.entry.now) }

    // A draft has at most as many events as a text has bytes.
    ensures few { IfOk result (λ events. length events.items ≤ TEXT_LIMIT) }
{
    let mut events = Vec::new(alloc);
    let mut line = 0;
    for section in draft.sections() {
        push_section(&mut events, line, section)?;
        line += 1;
    }
    Ok(events)
}
