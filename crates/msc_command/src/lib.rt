//! The command line of the program `msc`: its words, the file that they name, and its exit status.
//!
//! It is apart from `msc_answer`, whose calls do the work: so these are checked without the library
//! that reads command lines, which costs more to load than most crates to check.
//!
//! # Choices
//!
//! - Commands and options are tables (`words`, `tables`, and `help` for the texts). The grammar for
//!   `clap`, the reading of the words, the help and the completions are made of them. No clause is
//!   about the text of help and of completions: transcripts compare the former, and
//!   `tools/completions.py` makes the latter of the help.
//! - The order of the tables is that of the help. An option belongs to one group of the help, in all
//!   commands, so an option of two meanings has two rows, such as `Show` and `ShowSticks`.
//! - A command that is no task on a file has its own variant of `Invocation`.
//! - Without `--jobs`, a scan checks as many files at a time as there are processors. No clause says
//!   how many these are: it changes no byte of the output.
//! - If the first word names a command, `grammar` makes the words of that command only: those of
//!   all take longer than the check of a small chart. Contracts are about the whole grammar
//!   (`whole_command`); a lemma says that both take such words in the same way
//!   (`proofs/AskedGrammar`).
//! - Contracts begin with the words of the command line: `clap` says exactly what it takes of them
//!   by a grammar, and `IsGrammar` which grammar that is. They say nothing of the bytes of a named
//!   file, of help and of wrong words, and status 4 may always come.
//! - Names of events are texts for `clap`, since `:LINE` is no number; `name_in` reads them.
//! - Words that exclude each other are refused in `is_twofold`. With `conflicts_with`, `clap` has
//!   no exact clauses.
//! - No clause can say that a stream is a terminal. So the program reads that as one truth value,
//!   and `tells_notes` is proved for either.
#![tactic(auto)]

mod alternatives;
mod asking;
mod completions;
mod grammar;
mod help;
mod invocation;
mod misuse;
mod program;
mod scanning;
mod shown;
mod tables;
mod words;

pub use program::{command, refuse_words};
