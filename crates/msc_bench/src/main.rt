//! The program whose runs are measured (`bench/charts`, `checks`, `orders`, `queues`).
//!
//! Its words are a phase, which takes the chart on standard input, and a count. The steps before
//! the phase are done once, and the phase as often as the count, but at least once. The program
//! prints a number that depends on every part of the phase's result.
//!
//! Or the word `queues`, a number of senders from 1 to 32, and a number of queues: the program
//! prints the number of messages that went through them, and to standard error the time in
//! nanoseconds.
//!
//! # Choices
//!
//! - One program does all measurements: the crates that a program links are proved and compiled
//!   anew for it. Executions are measured as runs of `msc`, since they would link five more crates.
#![tactic(auto)]

ghost use Rattle.std.specs.Prelude.{◌≡◌, length};

mod digest;
mod phase;
mod sending;

use crate::digest::{built, listed, ordered, parsed};
use crate::phase::{Phase, Step, phase_of};
use crate::sending::{ends_of, measured};
use anyhow::{Context, Result};
use msc_chart::{Chart, Queues};
use msc_order::Order;
use msc_parser::{Draft, parse};
use msc_race::races;
use std::alloc::Global;
use std::env;
use std::io::Read;

/// Parses a text.
fn parse_often(alloc: Global, text: &[u8], count: u32) -> Result<u64> {
    for _ in 1..count {
        parse(alloc, text).map(drop)?;
    }
    Ok(parsed(&parse(alloc, text)?))
}

/// Builds the chart of a draft.
fn build_often(alloc: Global, draft: &Draft, count: u32) -> Result<u64> {
    for _ in 1..count {
        Chart::build(alloc, draft).map(drop)?;
    }
    Ok(built(&Chart::build(alloc, draft)?))
}

/// Builds the chart of a text.
fn build_text_often(alloc: Global, text: &[u8], count: u32) -> Result<u64> {
    build_often(alloc, &parse(alloc, text)?, count)
}

/// Makes the visual order.
fn visual_often(alloc: Global, chart: &Chart, count: u32) -> Result<u64> {
    for _ in 1..count {
        Order::visual(alloc, chart)?;
    }
    Ok(ordered(chart, &Order::visual(alloc, chart)?))
}

/// Makes the enforced order.
fn enforced_often(alloc: Global, chart: &Chart, queues: Queues, count: u32) -> Result<u64> {
    for _ in 1..count {
        Order::enforced(alloc, chart, queues)?;
    }
    Ok(ordered(chart, &Order::enforced(alloc, chart, queues)?))
}

/// Lists the races of an order.
fn list_often(alloc: Global, chart: &Chart, order: &Order, count: u32) -> Result<u64>
    requires events { length order.now ≡ length chart.now.events }
{
    for _ in 1..count {
        races(alloc, chart, order)?;
    }
    Ok(listed(&races(alloc, chart, order)?))
}

/// Lists the races of the enforced order.
fn races_often(alloc: Global, chart: &Chart, queues: Queues, count: u32) -> Result<u64> {
    list_often(alloc, chart, &Order::enforced(alloc, chart, queues)?, count)
}

/// The chart of a text.
fn read_chart(alloc: Global, text: &[u8]) -> Result<Chart> {
    Ok(Chart::build(alloc, &parse(alloc, text)?)?)
}

/// Does a step from a chart, and returns the number of its result.
fn take_step(alloc: Global, chart: &Chart, step: Step, count: u32) -> Result<u64> {
    match step {
        Step::Visual => visual_often(alloc, chart, count),
        Step::Enforced(queues) => enforced_often(alloc, chart, queues, count),
        Step::Races(queues) => races_often(alloc, chart, queues, count),
    }
}

/// The same with the chart of a text.
fn take_step_of_text(alloc: Global, text: &[u8], step: Step, count: u32) -> Result<u64> {
    take_step(alloc, &read_chart(alloc, text)?, step, count)
}

/// Does a phase, and returns the number of its result.
fn go_through(alloc: Global, text: &[u8], phase: Phase, count: u32) -> Result<u64> {
    match phase {
        Phase::Parse => parse_often(alloc, text, count),
        Phase::Build => build_text_often(alloc, text, count),
        Phase::FromChart(step) => take_step_of_text(alloc, text, step, count),
    }
}

/// The task of the program.
enum Task {
    /// To send through this number of queues, from this number of senders, which comes first.
    Send(u32, u32),
    /// To do a phase this number of times.
    GoThrough(Phase, u32),
}

/// The number that a word is, if there is a word; otherwise `asked` is the error.
fn number(word: Option<String>, asked: &'static str) -> Result<u32> {
    let word = word.context(asked)?;
    Ok(word.parse()?)
}

/// The task in the words of the command line, after the program's name.
fn read_words(rt: &HostRuntime) -> Result<Task> {
    let mut words = env::args(rt)?.skip(1);
    let word = words.next().context("what?")?;
    let first = number(words.next(), "how many?")?;
    if word.as_str() == "queues" {
        return Ok(Task::Send(first, number(words.next(), "how many queues?")?));
    }
    Ok(Task::GoThrough(phase_of(&word).context("no such phase")?, first))
}

/// Does a phase on the text on standard input, and returns the number of its result.
fn go_through_input(rt: &HostRuntime, phase: Phase, count: u32) -> Result<u64> {
    let mut text = Vec::new(rt.alloc());
    rt.stdin().read_to_end(&mut text)?;
    go_through(rt.alloc(), &text, phase, count)
}

fn main(rt: HostRuntime) -> Result<()> {
    match read_words(&rt)? {
        Task::Send(senders, queues) => {
            let (taken, time) = measured(&rt, ends_of(rt.alloc(), senders, queues)?)?;
            println!(rt; "{taken} messages")?;
            eprintln!(rt; "{time} nanoseconds")?;
        }
        Task::GoThrough(phase, count) => {
            println!(rt; "{}", go_through_input(&rt, phase, count)?)?;
        }
    }
    Ok(())
}
