//! Diagrams, their marks, and their faulty marks.

use crate::{ArrowMark, DiagramMarks, FaultyMark};
use msc_mermaid::diagram_of;
use std::alloc::AllocGlobal;
use std::process::Abort;

/// The text of a diagram behind its first line, and a line for each of its marks and each faulty
/// one: the place of its arrow among the statements, or 99, the numbers of architectures and arrows that it names, and
/// its reason; or what is wrong, and the number of bytes before it.
type Row = (&'static [u8], &'static str);

const ROWS: &[Row] = &[
    (b"A->>B: a", ""),
    (b"%% race ok: seen\nA->>B: a", "0 0 0 seen\n"),
    (
        b"A->>B: a\n%%race ok in pair, single:  b: c \nopt x\nA->>B: b\nend\n%% race ok: late",
        "2 2 0 b: c\n99 0 0 late\n",
    ),
    (
        b"%% race ok in mailbox with \"a; b: c\"; 2; \"\": \"quoted: ends\nA->>B: a",
        "0 1 3 \"quoted: ends\n",
    ),
    (b"%% Race ok: no\n%% a race ok: no\nA->>B: a", ""),
    (
        b"%% race ok\n%% race okay: x\n%% race ok:\t\n%% race ok in  pair: x\nA->>B: a",
        "Reason 16\nPart 27\nReason 43\nPart 56\n",
    ),
    (
        b"%% race ok with: x\n%% race ok with \"a: x\n%% race ok with 1;2: x\nA->>B: a",
        "Part 16\nPart 35\nPart 57\n",
    ),
    (
        b"%% race ok with 1 in pair: x\n%% race ok in pair,single: x\n%% race ok with a: x\nA->>B: a",
        "Part 16\nPart 45\nPart 74\n",
    ),
    (
        b"%% race ok: one\nnote over A: n\n%% race ok: two\nA->>B: a %% race ok: three\nA->>B: %%race ok",
        "0 0 0 one\nSecond 47\nLabel 63\nLabel 90\n",
    ),
    (
        b"A->>B: 5%race ok\nA->>B: %% a\nA->>B: %%%race ok\nA->>B: %% % race ok\nA->>B: % race ok %%",
        "Label 45\n",
    ),
];

/// Appends the line of a mark.
fn describe_mark<R: Abort + AllocGlobal>(rt: &R, said: &mut String, mark: &ArrowMark) {
    let arrow = mark.arrow.unwrap_or(99);
    let kinds = mark.said.kinds.as_slice().len();
    let others = mark.said.others.as_slice().len();
    write!(said, "{arrow} {kinds} {others} ").expect(rt, "memory for a line");
    let reason = str::from_utf8(mark.said.reason.as_slice()).unwrap_or("");
    said.push_str(reason).expect(rt, "memory for a line");
    said.push('\n').expect(rt, "memory for a line");
}

/// Appends the line of a faulty mark.
fn describe_faulty<R: Abort + AllocGlobal>(rt: &R, said: &mut String, faulty: &FaultyMark) {
    let (slip, first) = (faulty.slip, faulty.span.first);
    writeln!(said, "{slip:?} {first}").expect(rt, "memory for a line");
}

/// The lines of a diagram's marks, and of the faulty ones.
fn described<R: Abort + AllocGlobal>(rt: &R, rest: &[u8]) -> String {
    let mut text = Vec::from_slice(rt.alloc(), b"sequenceDiagram\n").expect(rt, "memory");
    text.extend_from_slice(rest).expect(rt, "memory");
    let diagram = diagram_of(rt.alloc(), None, &text).expect(rt, "a diagram");
    let found = DiagramMarks::of(rt.alloc(), &text, &diagram).expect(rt, "memory");
    let mut said = String::new(rt.alloc());
    for mark in found.marks.as_slice() {
        describe_mark(rt, &mut said, mark);
    }
    for faulty in found.faults.as_slice() {
        describe_faulty(rt, &mut said, faulty);
    }
    said
}

#[test]
fn diagrams_have_their_marks(rt: HostRuntime) {
    for (rest, wanted) in ROWS {
        let said = described(&rt, rest);
        assert_eq!(rt; said.as_str(), *wanted, "{rest:?}");
    }
}
