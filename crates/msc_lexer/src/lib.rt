//! The tokens of a chart's text (a profile of MSC/PR, ITU-T Z.120), or its first lexical fault.
//!
//! A text is a list of bytes; places in it are byte places, from 0. Contracts see a text as a list
//! of pieces, which are white space, notes and tokens; a text has at most one such list.
//!
//! # Choices
//!
//! - The end of a name is searched 16 bytes at a time (`lanes`), since names are most of a text.
//!   Its contract is the same as that of a plain loop.
//! - The end of a note is searched from slash to slash with `memchr`: a note may be most of a text,
//!   and often has rows of stars, but few slashes.
#![tactic(auto)]

mod byte;
mod fault;
mod lanes;
pub mod laws;
mod lexing;
mod quoting;
mod scanning;
mod token;
mod word;

pub use fault::LexFault;
pub use lexing::lex;
pub use quoting::text_bytes;
pub use token::{Kind, Token};
pub use word::Word;

/// The greatest number of bytes of a text.
pub const TEXT_LIMIT: usize = 1_048_576;

/// The greatest number of bytes of a name.
pub const NAME_LIMIT: usize = 64;
