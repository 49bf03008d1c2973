//! Tests of imports: of diagrams, of their scenarios, of blocks of Markdown, and of their faults.
#![tactic(auto)]

#[cfg(test)]
mod imports;
#[cfg(test)]
mod markdown;
#[cfg(test)]
mod spans;
