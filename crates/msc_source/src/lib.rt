//! From bytes to a source: an input that is read to its end, its text, and the text's chart.
//!
//! [`read_all`] takes the bytes of an input. [`Reading::of`] makes the draft of a text, and
//! [`Source::of`] its chart; each returns a fault if there is none. A text is a list of bytes in a
//! [`Language`].
//!
//! # Choices
//!
//! - Verdicts, explanations and executions refuse a text or draft by the one clause of
//!   [`Source::of`]. A law over that clause states that it returns a fault of the text, unless
//!   memory runs out (`laws::texts_are_read_in_one_way`).
//! - A text is read whole before it is parsed: at most one byte more than the limit, which shows
//!   that it is too long.
//! - One read gives at most 16 KiB, since its room is cleared first. With 64 KiB a small chart
//!   spent a sixth of its instructions on that.
#![tactic(auto)]

mod fault;
mod language;
pub mod laws;
mod reading;
mod source;

pub use fault::{ReadFault, SourceFault};
pub use language::Language;
pub use reading::{BYTE_LIMIT, CALL_LIMIT, read_all};
pub use source::{Reading, Source};
