//! Events.

ghost use Rattle.msc_record.specs.Events.{event_json, event_members, kind_members};
ghost use Rattle.msc_record.specs.Events.{message_members, number_json, position_json};
ghost use Rattle.msc_record.specs.Events.{position_members, statement_members};
ghost use Rattle.msc_record.specs.Lent.{plain_event, plain_kind, plain_message};
ghost use Rattle.msc_record.specs.Members.{tokens_of};
ghost use Rattle.msc_record.specs.Writing.{Adds};

use crate::value::{Object, Value, write_array, write_member, write_object};
use json::Writer;
use std::alloc::{AllocError, Global};

/// A position in a text: a line and a column, both from 1.
#[derive(Clone, Copy, Debug, PartialEq, Eq)]
pub struct Position {
    pub line: usize,
    pub column: usize,
}

impl Object for Position {
    ghost members = { position_members };

    fn write_members(&self, alloc: Global, writer: &mut Writer) -> Result<(), AllocError> {
        write_member(alloc, writer, "line", &self.line)?;
        write_member(alloc, writer, "column", &self.column)
    }
}

impl Value for Position {
    ghost json = { position_json };

    fn write(&self, alloc: Global, writer: &mut Writer) -> Result<(), AllocError> {
        write_object(alloc, writer, self)
    }
}

/// The bytes of a statement: the place of the first, from 0, and how many there are.
#[derive(Clone, Copy, Debug, PartialEq, Eq)]
pub struct Statement {
    pub byte: usize,
    pub length: usize,
}

/// Writes the bytes of a statement, if they are known.
fn write_statement(
    alloc: Global,
    writer: &mut Writer,
    statement: Option<Statement>,
) -> Result<(), AllocError>
    ensures { Adds result writer.old writer.new (tokens_of (statement_members statement)) }
{
    let Some(statement) = statement else {
        return Ok(());
    };
    write_member(alloc, writer, "byte", &statement.byte)?;
    write_member(alloc, writer, "length", &statement.length)
}

/// A message, as one of its two events has it.
#[derive(Clone, Copy)]
pub struct Message<'t> {
    /// Its name; in a diagram its label.
    pub name: &'t [u8],
    /// Its message instance name; in a diagram its number, with the rounds of loops.
    pub number: Option<&'t [u8]>,
    /// The instance at its other end.
    pub other: &'t [u8],
}

impl Object for Message<'_> {
    ghost members = { λ m. message_members (plain_message m) };

    fn write_members(&self, alloc: Global, writer: &mut Writer) -> Result<(), AllocError> {
        write_member(alloc, writer, "message", &self.name)?;
        write_member(alloc, writer, "number", &self.number)?;
        write_member(alloc, writer, "other", &self.other)
    }
}

/// What an event does.
#[derive(Clone, Copy)]
pub enum EventKind<'t> {
    /// It sends a message.
    Output(Message<'t>),
    /// It receives a message.
    Input(Message<'t>),
    /// It is an action with this text.
    Action(&'t [u8]),
}

impl Object for EventKind<'_> {
    ghost members = { λ k. kind_members (plain_kind k) };

    fn write_members(&self, alloc: Global, writer: &mut Writer) -> Result<(), AllocError> {
        match self {
            EventKind::Output(message) => {
                write_member(alloc, writer, "way", &"out")?;
                message.write_members(alloc, writer)
            }
            EventKind::Input(message) => {
                write_member(alloc, writer, "way", &"in")?;
                message.write_members(alloc, writer)
            }
            EventKind::Action(text) => {
                write_member(alloc, writer, "way", &"action")?;
                write_member(alloc, writer, "text", text)
            }
        }
    }
}

/// An event of a chart, or of a scenario of a diagram.
#[derive(Clone, Copy)]
pub struct Event<'t> {
    /// Its number, from 0.
    pub event: u32,
    pub kind: EventKind<'t>,
    /// Where its statement begins.
    pub position: Position,
    /// The bytes of its statement; only a chart has these.
    pub statement: Option<Statement>,
}

impl Object for Event<'_> {
    ghost members = { λ e. event_members (plain_event e) };

    fn write_members(&self, alloc: Global, writer: &mut Writer) -> Result<(), AllocError> {
        write_member(alloc, writer, "event", &self.event)?;
        self.kind.write_members(alloc, writer)?;
        self.position.write_members(alloc, writer)?;
        write_statement(alloc, writer, self.statement)
    }
}

impl Value for Event<'_> {
    ghost json = { λ e. event_json (plain_event e) };

    fn write(&self, alloc: Global, writer: &mut Writer) -> Result<(), AllocError> {
        write_object(alloc, writer, self)
    }
}

/// An event by its number, from 0.
#[derive(Clone, Copy, Debug, PartialEq, Eq)]
pub struct EventNumber {
    pub event: u32,
    /// Its round, from 1, if it is an event of one of two rounds.
    pub round: Option<u32>,
}

impl Value for EventNumber {
    ghost json = { number_json };

    fn write(&self, alloc: Global, writer: &mut Writer) -> Result<(), AllocError> {
        match self.round {
            Some(round) => write_array(alloc, writer, &[self.event, round]),
            None => self.event.write(alloc, writer),
        }
    }
}
