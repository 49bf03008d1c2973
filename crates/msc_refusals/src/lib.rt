//! Refusals of charts as people read them: whole answers, each a diagnostic for every fault and a line
//! that closes it.
//!
//! [`parse_refusal`] is for a text that has no draft, [`draft_refusal`] for a draft that is no chart,
//! and [`words_refusal`] for all else that `msc_fault_words` has words for. Places are bytes of the
//! text, from 0; events and instances are numbered from 0, in the order of the text. Contracts see
//! texts as their bytes.
#![tactic(auto)]

mod answer;
mod chart;
mod end;
mod parse;
mod part;
mod ring;

pub use answer::{RefusedText, words_refusal};
pub use chart::draft_refusal;
pub use parse::parse_refusal;
