//! The events of a draft, in the order of its text, and their texts in notes.

ghost use Rattle.std.specs.Prelude.{◌≡◌, ◌++◌, map, IfOk, OnOk, MatchOption};
ghost use Rattle.msc_parser.specs.declared.tree.Statement.TheVariants.{Message};
ghost use Rattle.std.specs.List.{flat_map};
ghost use Rattle.msc_parser.specs.Drafts.{statements_in};
ghost use Rattle.msc_notes.specs.Events.{own_view, owned_in, owned_of};
ghost use Rattle.msc_notes.specs.Events.{own_statement, IsAction};

use msc_parser::{Direction, Draft, Item, Section, Signal, Statement};
use std::alloc::{AllocError, Global};
use std::slice;

/// An event of a draft, with its instance.
#[derive(Clone, Copy)]
pub struct OwnEvent<'d> {
    /// The number of its instance, from 0.
    pub line: usize,
    /// The number of its item in the instance, from 0; a coregion is one item.
    pub item: usize,
    /// The name of its instance.
    pub own: &'d [u8],
    pub statement: &'d Statement,
}

impl<'d> OwnEvent<'d> {
    /// The message event, if it is one.
    pub fn signal(&self) -> Option<&'d Signal>
        ensures { MatchOption result (IsAction self.entry.now.statement.now)
            (λ s. self.entry.now.statement.now ≡ Message s.now) }
    {
        match self.statement {
            Statement::Message(signal) => Some(signal),
            Statement::Action(_) => None,
        }
    }
}

/// The statements of an item.
fn statements_in(item: &Item) -> &[Statement]
    ensures { result.now ≡ statements_in item.now }
{
    match item {
        Item::Single(statement) => slice::from_ref(statement),
        Item::Coregion(statements) => statements.as_slice(),
    }
}

/// Appends the events of an item.
fn push_item<'d>(
    events: &mut Vec<OwnEvent<'d>>,
    line: usize,
    own: &'d [u8],
    place: usize,
    item: &'d Item,
) -> Result<(), AllocError>
    ensures { OnOk result (map own_view events.new.items
        ≡ map own_view events.old.items
        ++ map (own_statement own.entry.now) (statements_in item.entry.now)) }
{
    for statement in statements_in(item) {
        events.push(OwnEvent {
            line,
            item: place,
            own,
            statement,
        })?;
    }
    Ok(())
}

/// Appends the events of a section.
fn push_section<'d>(
    events: &mut Vec<OwnEvent<'d>>,
    line: usize,
    section: &'d Section,
) -> Result<(), AllocError>
    ensures { OnOk result (map own_view events.new.items
        ≡ map own_view events.old.items ++ owned_in section.entry.now) }
{
    let own = section.decl.name.as_slice();
    for (place, item) in section.items.as_slice().iter().enumerate() {
        push_item(events, line, own, place, item)?;
    }
    Ok(())
}

/// The events of a draft, in the order of its text. The only error is want of memory.
pub fn events_of<'d>(alloc: Global, draft: &'d Draft) -> Result<Vec<OwnEvent<'d>>, AllocError>
    ensures { IfOk result (λ events.
        map own_view events.items ≡ owned_of draft.entry.now.sections) }
{
    let mut events = Vec::new(alloc);
    for (line, section) in draft.sections().iter().enumerate() {
        push_section(&mut events, line, section)?;
    }
    Ok(events)
}

/// Appends the name of a message, and its message instance name if it has one.
pub(crate) fn put_message(
    text: &mut Vec<u8>,
    name: &[u8],
    number: Option<&[u8]>,
) -> Result<(), AllocError> {
    text.extend_from_slice(name)?;
    if let Some(number) = number {
        text.extend_from_slice(b", ")?;
        text.extend_from_slice(number)?;
    }
    Ok(())
}

/// The message instance name, if there is one.
fn number_of(signal: &Signal) -> Option<&[u8]> {
    match &signal.number {
        Some(number) => Some(number.as_slice()),
        None => None,
    }
}

/// Appends a message event, in the words of its statement.
fn put_signal(text: &mut Vec<u8>, signal: &Signal) -> Result<(), AllocError> {
    let (word, preposition): (&[u8], &[u8]) = match signal.direction {
        Direction::Output => (b"out ", b" to "),
        Direction::Input => (b"in ", b" from "),
    };
    text.extend_from_slice(word)?;
    put_message(text, signal.name.as_slice(), number_of(signal))?;
    text.extend_from_slice(preposition)?;
    text.extend_from_slice(signal.address.as_slice())?;
    Ok(())
}

/// Appends a byte of an action's text: an apostrophe doubled, and a question mark for a byte that
/// is neither a visible character of ASCII nor a space.
fn put_byte(text: &mut Vec<u8>, byte: u8) -> Result<(), AllocError> {
    match byte {
        b'\'' => text.extend_from_slice(b"''")?,
        b' '..=b'~' => text.push(byte)?,
        _ => text.push(b'?')?,
    }
    Ok(())
}

/// Appends an action.
fn put_action(text: &mut Vec<u8>, label: &[u8]) -> Result<(), AllocError> {
    text.extend_from_slice(b"action '")?;
    for byte in label {
        put_byte(text, *byte)?;
    }
    text.push(b'\'')?;
    Ok(())
}

/// Appends an event, after the name of its instance, as a trace has it.
pub(crate) fn put_event(text: &mut Vec<u8>, event: &OwnEvent) -> Result<(), AllocError> {
    text.extend_from_slice(event.own)?;
    text.push(b' ')?;
    match event.statement {
        Statement::Message(signal) => put_signal(text, signal),
        Statement::Action(label) => put_action(text, label.as_slice()),
    }
}
