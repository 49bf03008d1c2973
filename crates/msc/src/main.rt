//! The program `msc`.
#![tactic(auto)]

use msc_answer::Recorded;
use msc_command::{command, refuse_words};
use std::env::VarError;
use std::io::IsTerminal;
use std::process::ExitCode;
use std::{env, io};

/// The words of the command line, the program's name first.
fn words(rt: &HostRuntime) -> io::Result<Vec<String>> {
    Ok(env::args(rt)?.collect(rt.alloc())?)
}

/// Whether a variable of the environment is not set, or empty.
fn is_unset(rt: &HostRuntime, name: &str) -> bool {
    match env::var(rt, name) {
        Ok(value) => value.is_empty(),
        Err(error) => error == VarError::NotPresent,
    }
}

/// Whether the terminal shows no colours, as its kind says.
fn is_dumb(rt: &HostRuntime) -> bool {
    match env::var(rt, "TERM") {
        Ok(value) => value.as_str() == "dumb",
        Err(_) => false,
    }
}

fn main(rt: HostRuntime) -> ExitCode {
    let alloc = rt.alloc();
    let (mut input, mut faults) = (rt.stdin(), rt.stderr());
    let output = rt.stdout();
    let colours = output.is_terminal() && is_unset(&rt, "NO_COLOR") && !is_dumb(&rt);
    let mut output = Recorded::new(output, colours);
    ExitCode::from(match words(&rt) {
        Ok(words) => command(&rt, alloc, words, &mut input, &mut output, &mut faults),
        Err(error) => refuse_words(&mut faults, &error),
    })
}
