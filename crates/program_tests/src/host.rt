//! The host of the helpers of tests, which end the process if a call of theirs fails.

use msc_chart::Chart;
use msc_parser::parse;
use msc_scanning::ReadsFiles;
use std::alloc::AllocGlobal;
use std::process::Abort;
use std::rt::Files;
use std::sync::Wait;
use std::thread::Threads;

/// A host with memory, at which a test may end.
pub trait Host: Abort + AllocGlobal {}

impl<R: Abort + AllocGlobal> Host for R {}

/// The further traits that the instances of a chart need.
pub trait Parallel: Abort + AllocGlobal + Threads + Wait + Sync {}

impl<R: Abort + AllocGlobal + Threads + Wait + Sync> Parallel for R {}

/// The further traits that the program needs.
pub trait Machine: Abort
    + AllocGlobal
    + Files
    + ReadsFiles
    + Threads
    + Wait
    + Sync
    + Clone
    + Drop {}

impl<R: Abort + AllocGlobal + Files + ReadsFiles + Threads + Wait + Sync + Clone + Drop> Machine
    for R {}

/// The chart of a text that has one.
pub fn chart_of(rt: &impl Host, text: &[u8]) -> Chart {
    Chart::build(rt.alloc(), &parse(rt.alloc(), text).expect(rt, "a draft")).expect(rt, "a chart")
}
