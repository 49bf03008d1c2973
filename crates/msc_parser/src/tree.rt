//! The parts of a draft: names and texts of actions, and the statements of a chart's text.
//!
//! A name is the list of its bytes as they are in the text, since capital and small letters count.
//! Contracts see each part as the record or the variant that it is, with lists for its lists.

use crate::name::Name;
use listed::Listed;

/// The text of an action: any bytes, or none. A doubled apostrophe of the chart's text is a single
/// one here.
pub type Label = Listed<u8>;

/// Whether a message event is an output (`out`) or an input (`in`) of its message.
#[derive(Clone, Copy, Debug, PartialEq, Eq)]
pub enum Direction {
    /// The message is sent.
    Output,
    /// The message is received.
    Input,
}

/// The name of an instance with its kind, the names that give the kind of the instance (Z.120).
/// `kind` has no name if the text gives no kind, and otherwise one name or two.
#[derive(Drop)]
pub struct Decl {
    pub name: Name,
    pub kind: Listed<Name>,
}

/// A message event: an output to the instance `address`, or an input from it.
///
/// `name` is the message's name, `number` its message instance name (Z.120), if it has one, and
/// `parameters` the names between the parentheses.
#[derive(Drop)]
pub struct Signal {
    pub direction: Direction,
    pub name: Name,
    pub number: Option<Name>,
    pub parameters: Listed<Name>,
    pub address: Name,
}

/// A statement that is one event of its instance.
#[derive(Drop)]
pub enum Statement {
    /// An output or an input of a message.
    Message(Signal),
    /// An action (Z.120): something that the instance does by itself, described by a text.
    Action(Label),
}

/// A part of a section.
#[derive(Drop)]
pub enum Item {
    /// An event that is ordered on the instance's line.
    Single(Statement),
    /// A coregion: events that are unordered among themselves (Z.120), in the order of the text.
    Coregion(Listed<Statement>),
}

/// The part of a text that describes one instance, from `instance` to `endinstance`.
#[derive(Drop)]
pub struct Section {
    pub decl: Decl,
    pub items: Listed<Item>,
}
