//! Runs of the program whose output fails.

use crate::devices::{Narrow, Screen, Unflushed};
use crate::host::Machine;
use example_charts::ONE_MESSAGE;
use msc_answer::Recorded;
use msc_command::command;
use std::io::Write;

/// Adds a word to a command line.
fn add_word(rt: &impl Machine, all: &mut Vec<String>, word: &str) {
    let word = String::from_str(rt.alloc(), word).expect(rt, "memory");
    all.push(word).expect(rt, "memory");
}

/// The words of a command line, a file's name for the program first.
fn command_line(rt: &impl Machine, words: &[&str]) -> Vec<String> {
    let mut all = Vec::new(rt.alloc());
    add_word(rt, &mut all, "./out/program");
    for word in words {
        add_word(rt, &mut all, word);
    }
    all
}

/// Runs the program over these words and this standard input, into this output. Returns its exit
/// status and the bytes on standard error.
fn run_into<O: Write>(
    rt: &impl Machine,
    words: &[&str],
    stdin: &[u8],
    output: &mut O,
) -> (u8, Vec<u8>) {
    let all = command_line(rt, words);
    let mut input = stdin;
    let mut faults = Screen::new(rt.alloc(), false);
    let mut recorded = Recorded::new(output, false);
    let status = command(rt, rt.alloc(), all, &mut input, &mut recorded, &mut faults);
    (status, faults.into_shown())
}

/// The words of one run of each command and architecture.
const RUNS: &[&[&str]] = &[
    &["read", "-"],
    &["check", "--queues", "pair", "-"],
    &["check", "--queues", "mailbox", "-"],
    &["check", "--queues", "single", "-"],
    &["scan", "-"],
    &["explain", "--queues", "pair", "-", "0", "1"],
    &["run", "--queues", "pair", "-"],
    &["list", "-"],
    &["completions", "bash"],
];

/// The output on standard error if a device fails, and the exit status.
const DEVICE_FAULT: (&[u8], u8) = (b"device fault\n", 4);

/// Whether a run over these words reports that the first call of its output failed.
fn fails_at_once(rt: &impl Machine, words: &[&str]) -> bool {
    let mut output = Narrow {
        written: Vec::new(rt.alloc()),
        step: usize::MAX,
        calls: 0,
        fails_at: 1,
    };
    let (status, faults) = run_into(rt, words, ONE_MESSAGE, &mut output);
    (faults.as_slice(), status) == DEVICE_FAULT
}

/// Whether a run over these words and this text flushes its output once, and reports that this
/// failed.
fn fails_when_flushed(rt: &impl Machine, words: &[&str], text: &[u8]) -> bool {
    let mut output = Unflushed { flushes: 0 };
    let (status, faults) = run_into(rt, words, text, &mut output);
    ((faults.as_slice(), status), output.flushes) == (DEVICE_FAULT, 1)
}

#[test]
fn an_output_that_fails_at_its_first_call(rt: HostRuntime) {
    for &words in RUNS {
        assert!(rt; fails_at_once(&rt, words), "{words:?}");
    }
}

#[test]
fn an_output_that_fails_when_it_is_flushed(rt: HostRuntime) {
    for &words in RUNS {
        assert!(rt; fails_when_flushed(&rt, words, ONE_MESSAGE), "{words:?}");
    }
}

/// The words of a run that prints lines for editors, and a text that it refuses.
const REFUSED: &[(&[&str], &[u8])] = &[
    (
        &["check", "--queues", "pair", "--format", "lines", "-"],
        b"msc open;",
    ),
    (
        &[
            "check", "--from", "any", "--queues", "pair", "--format", "lines", "-",
        ],
        b"sequenceDiagram\n  A->>",
    ),
];

#[test]
fn the_lines_of_a_refusal_are_flushed(rt: HostRuntime) {
    for &(words, text) in REFUSED {
        assert!(rt; fails_when_flushed(&rt, words, text), "{words:?}");
    }
}
