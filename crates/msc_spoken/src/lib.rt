//! How names, labels and lines of a text are shown to people.
//!
//! A text is bytes. They are read as UTF-8, and `?` replaces each byte that is part of no
//! character. A character is shown if its general category (Unicode) is one of letters, marks,
//! numbers, punctuation, symbols or blanks. So no control and no override of the direction of
//! writing reaches a terminal. A name or label of a diagram is spoken: its markup becomes blanks,
//! and its entities become characters.
//!
//! Contracts see a text as the list of its bytes, and what is shown as the list of its characters.
//! Columns are those of a terminal.
//!
//! # Choices
//!
//! - `?` replaces a byte, and not a longest front that could begin a character, so that a reader
//!   can count what is missing.
//! - The joiners U+200C and U+200D have no width and no shape of their own. They are left out:
//!   emoji that they join are shown next to each other, in the columns that each of them takes.
//! - Markup is found in bytes, since names of charts are made of bytes in the same way.
//!
//! # Where to change what
//!
//! - which characters are shown: `is_shown` and `shown_for` in `showing.rt` and
//!   `specs/Showing.antt`
//! - a named entity: `named_character` in `entity.rt` and `specs/Entities.antt`
//! - a tag or an escape: `markup.rt` and `specs/Markup.antt`
//! - the number of columns at which a text is cut: `COLUMNS` in `cutting.rt`, and
//!   `specs/Cutting.antt`
#![tactic(auto)]

mod cutting;
mod entity;
mod front;
pub mod laws;
mod markup;
mod reading;
mod showing;
mod speaking;
#[cfg(test)]
mod tests;
mod text;

pub use cutting::{columns, cut, fitting, width};
pub use markup::without_markup;
pub use showing::{is_shown, shown};
pub use speaking::{before_blanks, spoken, spoken_name};
