//! Why a text is not imported, as people read it: a stage with a number, a sentence, marks in the text,
//! and what helps, as `msc_fault_words` has them.
//!
//! A fault is shown with what `msc_import_notes` says of it: its place, and notes such as what was found
//! there. Callers give spans of the text to underline. Places are bytes of the text, from 0.
//!
//! # Where to change what
//!
//! - what was expected, and what was found: `expected.rt` and `specs/Expected.antt`
//! - the other sentences: `sentence.rt` and `specs/Sentences.antt`
//! - marks and helps, and which fault has which: `import_fault.rt` and `specs/Imports.antt`
#![tactic(auto)]

mod expected;
mod import_fault;
mod sentence;
#[cfg(test)]
mod tests;

pub use import_fault::import_words;
