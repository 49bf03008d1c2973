//! Where things are in a chart's text: lines and columns, the line of a place with a mark below it,
//! and the places of events and names.
//!
//! A place is a byte of a text, from 0, or the text's length. Lines and columns are counted from 1.
//! Contracts define the place of an event by the tokens of the text and the grammar: its statement
//! is read from its place on.
//!
//! # Choices
//!
//! - Drafts have no places, since all relations of the grammar would change with them. A second
//!   pass finds places by tokens: `out`, `in` and `action` are reserved and only begin the
//!   statement of an event, `to` or `from` precedes its address, and `instance` begins a section.
//! - [`Lines`] keeps the position of each 256th byte. A text may be one line, so an index of line
//!   ends would not bound the time for a column.
#![tactic(auto)]

mod event_positions;
mod excerpting;
mod index;
pub mod laws;
mod naming;
mod places;
mod position;
mod statements;
mod tokens_at;
pub mod writing;

pub use event_positions::EventPositions;
pub use excerpting::excerpt;
pub use index::Lines;
pub use places::{EventPlace, Places};
pub use position::Position;
pub use tokens_at::{TokenAt, token_at};
