//! The files that the paths of a scan stand for.
//!
//! [`entries_of`] lists what a path stands for, in the order of the names: a file for itself, and a
//! folder for the files below it whose names say how they are read ([`FileKind`]). What cannot be
//! read is in the list too, so that a scan can report it in its place.
//!
//! Where to change what: which names are passed over, and how a file is read by its name, is in
//! `name`; how folders are walked in `walk`.
//!
//! # Choices
//!
//! - Which names a folder has is trusted: no clause can say it. The contract says what each name
//!   that was read adds (`specs/Walks`).
//! - `.gitignore` is not read. Its rules are many, and the answer would depend on files that a
//!   reader of the log does not see.
//! - Links to folders are not entered, so no walk goes in a circle. Folders more than 64 levels
//!   below a path are reported, and not entered.
//! - The names of a folder are read before those of the folders in it, so that one folder is open
//!   at a time.
//! - Names are sorted as a whole once all are found: `d/a.msc` comes before `d/a/b.msc`.
#![tactic(auto)]

mod finding;
mod name;
#[cfg(test)]
mod tests;
mod walk;

pub use finding::entries_of;
pub use name::{FileKind, kind_of_name};
pub use walk::{Entry, Found, LEVELS};
