//! The lines of faults, compared with the messages that their types print.

use crate::host::Host;
use msc_calls::{Fault, write_fault};
use msc_chart::ChartFault;
use msc_lexer::LexFault;
use msc_parser::ParseFault;
use msc_report::{EventName, NamedFault, write_pair_fault};

/// A fault of charts of each kind that has a number, the number, and its line.
const CHART_FAULTS: &[(ChartFault, u32, &str)] = &[
    (
        ChartFault::TooManyInstances,
        1,
        "chart fault 1: more than 32 instances\n",
    ),
    (
        ChartFault::TwiceInstance(31),
        2,
        "chart fault 2: section 31 repeats an instance name\n",
    ),
    (
        ChartFault::HeaderWithoutBody(2),
        3,
        "chart fault 3: header name 2 has no section\n",
    ),
    (
        ChartFault::UnknownAddress(2047),
        4,
        "chart fault 4: event 2047 has an unknown address\n",
    ),
    (
        ChartFault::TooManyMessages,
        5,
        "chart fault 5: more than 1024 messages\n",
    ),
    (
        ChartFault::TooManyActions,
        11,
        "chart fault 11: more than 1024 actions\n",
    ),
    (
        ChartFault::TwiceEvent(1),
        6,
        "chart fault 6: event 1 repeats a message\n",
    ),
    (
        ChartFault::UnmatchedOut(0),
        7,
        "chart fault 7: output 0 has no input\n",
    ),
    (
        ChartFault::UnmatchedIn(10),
        8,
        "chart fault 8: input 10 has no output\n",
    ),
    (
        ChartFault::Cyclic(4294967295),
        9,
        "chart fault 9: event 4294967295 precedes itself\n",
    ),
];

/// Whether this is the line of a fault.
fn is_line(rt: &impl Host, fault: Fault, wanted: &str) -> bool {
    let mut line = Vec::new(rt.alloc());
    write_fault(&mut line, &fault).expect(rt, "a line");
    line.as_slice() == wanted.as_bytes()
}

/// Whether a fault's number and the message that its type prints are this line.
fn is_message(rt: &impl Host, fault: ChartFault, number: u32, wanted: &str) -> bool {
    let line = format!(in rt.alloc(); "chart fault {number}: {fault}\n").expect(rt, "memory");
    line.as_str() == wanted
}

#[test]
fn a_chart_fault_is_printed_as_its_number_and_its_message(rt: HostRuntime) {
    for &(fault, number, wanted) in CHART_FAULTS {
        let is = is_line(&rt, Fault::Chart(fault), wanted);
        assert!(rt; is && is_message(&rt, fault, number, wanted), "{wanted}");
    }
}

/// A lexical fault of each kind, its number and its place, and its line.
const LEXICAL_FAULTS: &[(LexFault, &str, &str)] = &[
    (
        LexFault::TooLong,
        "1",
        "lexical fault 1: text longer than 1048576 bytes\n",
    ),
    (
        LexFault::BadByte(0),
        "2 at 0",
        "lexical fault 2 at 0: byte that begins no token\n",
    ),
    (
        LexFault::OpenNote(7),
        "3 at 7",
        "lexical fault 3 at 7: note without end\n",
    ),
    (
        LexFault::OpenText(1_048_575),
        "4 at 1048575",
        "lexical fault 4 at 1048575: text without end\n",
    ),
    (
        LexFault::LongName(10),
        "5 at 10",
        "lexical fault 5 at 10: name longer than 64 bytes\n",
    ),
];

/// Whether a fault's number and place and the message that its type prints are this line.
fn is_lexical_message(rt: &impl Host, fault: LexFault, head: &str, wanted: &str) -> bool {
    let line = format!(in rt.alloc(); "lexical fault {head}: {fault}\n").expect(rt, "memory");
    line.as_str() == wanted
}

#[test]
fn a_lexical_fault_is_printed_as_its_number_its_place_and_its_message(rt: HostRuntime) {
    for &(fault, head, wanted) in LEXICAL_FAULTS {
        let is = is_line(&rt, Fault::Parse(ParseFault::Lex(fault)), wanted);
        assert!(rt;
            is && is_lexical_message(&rt, fault, head, wanted),
            "{wanted}"
        );
    }
}

/// The faults that have no number, and their lines, which are their messages.
const OTHER_FAULTS: &[(Fault, &str)] = &[
    (Fault::Memory, "memory fault\n"),
    (Fault::Chart(ChartFault::Memory), "memory fault\n"),
    (Fault::Device, "device fault\n"),
];

/// Whether the message that the type of a fault prints is this line.
fn is_whole_message(rt: &impl Host, fault: Fault, wanted: &str) -> bool {
    let line = format!(in rt.alloc(); "{fault}\n").expect(rt, "memory");
    line.as_str() == wanted
}

#[test]
fn a_fault_without_a_number_is_printed_as_its_message(rt: HostRuntime) {
    for &(fault, wanted) in OTHER_FAULTS {
        let is = is_line(&rt, fault, wanted);
        assert!(rt; is && is_whole_message(&rt, fault, wanted), "{wanted}");
    }
}

/// A fault of running a chart and its line: its number precedes its message.
const RUN_FAULTS: &[(Fault, u32, &str)] = &[
    (
        Fault::NotStarted(0),
        1,
        "run fault 1: instance 0 could not be started\n",
    ),
    (
        Fault::NotStarted(31),
        1,
        "run fault 1: instance 31 could not be started\n",
    ),
    (
        Fault::NotStarted(4294967295),
        1,
        "run fault 1: instance 4294967295 could not be started\n",
    ),
];

/// Whether a fault's number and the message that its type prints are this line.
fn is_run_message(rt: &impl Host, fault: Fault, number: u32, wanted: &str) -> bool {
    let line = format!(in rt.alloc(); "run fault {number}: {fault}\n").expect(rt, "memory");
    line.as_str() == wanted
}

#[test]
fn a_run_fault_is_printed_as_its_number_and_its_message(rt: HostRuntime) {
    for &(fault, number, wanted) in RUN_FAULTS {
        let is = is_line(&rt, fault, wanted);
        assert!(rt;
            is && is_run_message(&rt, fault, number, wanted),
            "{wanted}"
        );
    }
}

/// Faults of pairs of names, and their lines.
const PAIR_FAULTS: &[(NamedFault, &str)] = &[
    (
        NamedFault::NoEvent(EventName::Number(4294967295)),
        "pair fault 1: no event 4294967295\n",
    ),
    (
        NamedFault::NoEvent(EventName::Line(7)),
        "pair fault 1: no event :7\n",
    ),
    (
        NamedFault::OneEvent(EventName::Number(12), EventName::Number(12)),
        "pair fault 2: 12 and 12 are one event\n",
    ),
    (
        NamedFault::OneEvent(EventName::Line(3), EventName::Number(0)),
        "pair fault 2: :3 and 0 are one event\n",
    ),
    (
        NamedFault::NoRace(EventName::Line(3), EventName::Number(0)),
        "pair fault 3: :3 0 is no race\n",
    ),
];

/// Whether this is the line of a fault of pairs.
fn is_pair_line(rt: &impl Host, fault: NamedFault, wanted: &str) -> bool {
    let mut line = Vec::new(rt.alloc());
    let is_written = write_pair_fault(&mut line, fault).is_ok();
    (is_written, line.as_slice()) == (true, wanted.as_bytes())
}

#[test]
fn faults_of_pairs_are_printed(rt: HostRuntime) {
    for &(fault, wanted) in PAIR_FAULTS {
        assert!(rt; is_pair_line(&rt, fault, wanted), "{wanted}");
    }
}
