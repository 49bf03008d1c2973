//! From a chart's text (a profile of MSC/PR, ITU-T Z.120) to its draft, and from a draft to its
//! canonical text.
//!
//! A text is a list of bytes; places in it are byte places, from 0. Contracts see a text by its
//! tokens, and the grammar as relations between lists of tokens and parts of a draft: a text has at
//! most one draft. If it has none, it has a first fault. The grammar determines the place of this
//! fault, and what was expected there.
//!
//! # Choices
//!
//! - [`parse`] reads all tokens first. So a lexical fault anywhere precedes a grammar fault, and
//!   the grammar needs no bytes.
//! - A table lists the tokens that may follow a token. A law states that it fits the grammar
//!   (`laws::table_fits_the_grammar`): it allows exactly the tokens with which some chart
//!   continues.
//! - A name is a list of bytes, not a `String`: its bytes are ASCII, and contracts compare lists. A
//!   name of up to 16 bytes is in the [`Name`] itself: an allocation for each name took a fifth of
//!   a check.
#![tactic(auto)]

mod draft;
mod fault;
mod heading;
pub mod laws;
mod name;
mod opening;
mod parsing;
mod sectioning;
mod signalling;
mod taking;
mod tree;
mod writing;

pub use draft::Draft;
pub use fault::{ParseFault, What};
pub use name::Name;
pub use parsing::parse;
pub use tree::{Decl, Direction, Item, Label, Section, Signal, Statement};
