//! Refusals of charts in words: golden diagnostics, and tables of sentences.

use crate::{
    FaultWords, MarkSlip, MessageEnd, Span, cause_of, chart_words, instance_words, link_words,
    mark_words, memory_words, parse_words, queues_words, reading_words, rounds_words, words_text,
    writing_words,
};
use listed::Listed;
use msc_chart::{ChartFault, UnrollFault};
use msc_diagnostic::{LineEnds, Source};
use msc_lexer::LexFault;
use msc_links::LinkFault;
use msc_notes::{FaultNotes, Note, Tag};
use msc_parser::{ParseFault, What};
use std::alloc::AllocGlobal;
use std::process::Abort;

/// A note of this text and place.
fn note<R: Abort + AllocGlobal>(rt: &R, tag: Tag, text: &str, place: Option<usize>) -> Note {
    let text = Vec::from_slice(rt.alloc(), text.as_bytes());
    Note {
        tag,
        text: Listed::from_vec(text.expect(rt, "memory for a note")),
        place,
        pair: None,
    }
}

/// A fault's place, and one or two notes.
fn told<R: Abort + AllocGlobal>(
    rt: &R,
    place: usize,
    first: Note,
    second: Option<Note>,
) -> FaultNotes {
    let mut notes = Vec::new(rt.alloc());
    notes.push(first).expect(rt, "memory for a note");
    if let Some(second) = second {
        notes.push(second).expect(rt, "memory for a note");
    }
    FaultNotes {
        place: Some(place),
        notes: Listed::from_vec(notes),
    }
}

/// A fault without notes.
fn untold<R: Abort + AllocGlobal>(rt: &R, place: Option<usize>) -> FaultNotes {
    FaultNotes {
        place,
        notes: Listed::from_vec(Vec::new(rt.alloc())),
    }
}

/// The bytes that are printed of a refusal.
fn printed<R: Abort + AllocGlobal>(rt: &R, text: &str, place: &str, words: &FaultWords) -> Vec<u8> {
    let source = Source::new(rt.alloc(), text.as_bytes(), LineEnds::LineFeed);
    let source = source.expect(rt, "memory for a text");
    let text = words_text(rt.alloc(), &source, Some(place), words, false);
    text.expect(rt, "memory for a refusal")
}

/// A chart with a misspelt address.
const TYPO: &str = "msc t;
instance caller;
  out connect to caler;
endinstance;
endmsc;
";

/// The text of its diagnostic.
const TYPO_PRINTED: &str = "error[chart 4]: no instance is named \"caler\"
 --> typo.msc:3:18
  |
2 | instance caller;
  |          ------ is this one meant?
3 |   out connect to caler;
  |                  ^^^^^

";

#[test]
fn a_misspelt_name_is_told(rt: HostRuntime) {
    let name = note(&rt, Tag::Name, "caler", None);
    let nearest = note(&rt, Tag::Nearest, "caller", Some(16));
    let told = told(&rt, 41, name, Some(nearest));
    let spans = [
        Span {
            first: 16,
            past: 22,
        },
        Span {
            first: 41,
            past: 46,
        },
    ];
    let fault = ChartFault::UnknownAddress(0);
    let words = chart_words(rt.alloc(), fault, &told, &spans, None);
    let words = words.expect(&rt, "memory for a refusal");
    assert_eq!(rt; words.place(), Some(41));
    let printed = printed(&rt, TYPO, "typo.msc:3:18", &words);
    assert_eq!(rt; printed.as_slice(), TYPO_PRINTED.as_bytes());
}

/// A chart with an output that has no input, and a similar input.
const UNMATCHED: &str = "msc t;
instance a;
  out ack, 2 to b;
endinstance;
instance b;
  in ackn from a;
endinstance;
endmsc;
";

/// The text of its diagnostic.
const UNMATCHED_PRINTED: &str = "error[chart 7]: \"ack, 2\" is sent to b, which never receives it
 --> unmatched.msc:3:3
  |
3 |   out ack, 2 to b;
  |   ^^^^^^^^^^^^^^^^ sent here
...
6 |   in ackn from a;
  |   --------------- this input has no output
  |
  = help: b needs: in ack, 2 from a

";

/// Its output.
const ACK: MessageEnd<'static> = MessageEnd {
    sends: true,
    message: "ack, 2",
    owner: "a",
    address: "b",
};

#[test]
fn an_output_without_input_is_told(rt: HostRuntime) {
    let wanted = note(&rt, Tag::Wanted, "in ack, 2 from a on b", None);
    let near = note(&rt, Tag::Near, "b in ackn from a", Some(65));
    let told = told(&rt, 21, wanted, Some(near));
    let spans = [
        Span {
            first: 21,
            past: 37,
        },
        Span {
            first: 65,
            past: 80,
        },
    ];
    let fault = ChartFault::UnmatchedOut(0);
    let words = chart_words(rt.alloc(), fault, &told, &spans, Some(ACK));
    let words = words.expect(&rt, "memory for a refusal");
    let printed = printed(&rt, UNMATCHED, "unmatched.msc:3:3", &words);
    assert_eq!(rt; printed.as_slice(), UNMATCHED_PRINTED.as_bytes());
}

/// A chart with a message that is sent twice.
const TWICE: &str = "msc t;
instance a;
  out m to b;
  out m to b;
endinstance;
instance b;
  in m from a;
endinstance;
endmsc;
";

/// The text of its diagnostic.
const TWICE_PRINTED: &str = "error[chart 6]: \"m\" is sent to b twice
 --> twice.msc:4:3
  |
3 |   out m to b;
  |   ----------- first here
4 |   out m to b;
  |   ^^^^^^^^^^^ again here
  |
  = help: a number tells them apart: m, 2

";

#[test]
fn a_repeated_message_is_told(rt: HostRuntime) {
    let end = MessageEnd {
        sends: true,
        message: "m",
        owner: "a",
        address: "b",
    };
    let first = note(&rt, Tag::First, "", Some(21));
    let apart = note(&rt, Tag::Hint, "m, 2 tells them apart", None);
    let told = told(&rt, 35, first, Some(apart));
    let spans = [
        Span {
            first: 21,
            past: 32,
        },
        Span {
            first: 35,
            past: 46,
        },
    ];
    let words = chart_words(
        rt.alloc(),
        ChartFault::TwiceEvent(1),
        &told,
        &spans,
        Some(end),
    );
    let words = words.expect(&rt, "memory for a refusal");
    let printed = printed(&rt, TWICE, "twice.msc:4:3", &words);
    assert_eq!(rt; printed.as_slice(), TWICE_PRINTED.as_bytes());
}

/// A chart in which a semicolon is missing.
const BEHIND: &str = "msc t;
instance a;
  in m from b
  out n to b;
endinstance;
";

/// The text of its diagnostic.
const BEHIND_PRINTED: &str = "error[grammar 3]: expected \";\", found \"out\"
 --> behind.msc:4:3
  |
3 |   in m from b
  |             - expected behind this
4 |   out n to b;
  |   ^^^ found here

";

#[test]
fn a_missing_semicolon_is_told(rt: HostRuntime) {
    let found = note(&rt, Tag::Found, "the reserved word out", None);
    let behind = note(&rt, Tag::Behind, "", Some(32));
    let told = told(&rt, 35, found, Some(behind));
    let fault = ParseFault::Expected(35, What::End);
    let words = parse_words(rt.alloc(), BEHIND.as_bytes(), fault, 38, &told);
    let words = words.expect(&rt, "memory for a refusal");
    let printed = printed(&rt, BEHIND, "behind.msc:4:3", &words);
    assert_eq!(rt; printed.as_slice(), BEHIND_PRINTED.as_bytes());
}

/// A chart with an instance that is defined twice.
const TWO: &str = "msc t;
inst x;
instance a;
endinstance;
instance a;
endinstance;
endmsc;
";

/// The text of its diagnostic.
const TWO_PRINTED: &str = "error[chart 2]: the instance \"a\" is defined twice
 --> two.msc:5:10
  |
3 | instance a;
  |          - first defined here
4 | endinstance;
5 | instance a;
  |          ^ defined again here

";

#[test]
fn a_repeated_instance_is_told(rt: HostRuntime) {
    let name = note(&rt, Tag::Name, "a", None);
    let first = note(&rt, Tag::First, "", Some(24));
    let told = told(&rt, 49, name, Some(first));
    let fault = ChartFault::TwiceInstance(1);
    let words = chart_words(rt.alloc(), fault, &told, &[], None);
    let words = words.expect(&rt, "memory for a refusal");
    let printed = printed(&rt, TWO, "two.msc:5:10", &words);
    assert_eq!(rt; printed.as_slice(), TWO_PRINTED.as_bytes());
}

/// The first row of the diagnostic of a refusal.
fn first_row<R: Abort + AllocGlobal>(rt: &R, words: &FaultWords) -> Vec<u8> {
    let printed = printed(rt, "", "t", words);
    let mut row = Vec::new(rt.alloc());
    for byte in printed.as_slice() {
        if *byte == b'\n' {
            return row;
        }
        row.push(*byte).expect(rt, "memory for a row");
    }
    row
}

#[test]
fn faults_of_texts_have_sentences(rt: HostRuntime) {
    let table = [
        (
            ParseFault::Lex(LexFault::TooLong),
            0,
            "error[lexical 1]: the text is longer than 1048576 bytes",
        ),
        (
            ParseFault::Lex(LexFault::BadByte(4)),
            4,
            "error[lexical 2]: unexpected character '\"'",
        ),
        (
            ParseFault::Lex(LexFault::BadByte(3)),
            3,
            "error[lexical 2]: unexpected byte 32",
        ),
        (
            ParseFault::Lex(LexFault::OpenNote(0)),
            0,
            "error[lexical 3]: this note has no end",
        ),
        (
            ParseFault::Lex(LexFault::OpenText(0)),
            0,
            "error[lexical 4]: this text has no end",
        ),
        (
            ParseFault::Lex(LexFault::LongName(0)),
            65,
            "error[lexical 5]: a name of 65 bytes; at most 64 are allowed",
        ),
        (
            ParseFault::Expected(0, What::Name),
            3,
            "error[grammar 3]: expected a name, found \"msc\"",
        ),
        (
            ParseFault::Expected(7, What::Section),
            7,
            "error[grammar 3]: expected a section, found the end of the text",
        ),
        (ParseFault::Memory, 0, "error[memory]: out of memory"),
    ];
    for (fault, past, wanted) in table {
        let told = untold(&rt, None);
        let words = parse_words(rt.alloc(), b"msc \"t\"".as_slice(), fault, past, &told);
        let words = words.expect(&rt, "memory for a refusal");
        assert_eq!(rt; first_row(&rt, &words).as_slice(), wanted.as_bytes());
    }
}

#[test]
fn faults_of_charts_have_sentences(rt: HostRuntime) {
    let table = [
        (
            ChartFault::TooManyInstances,
            "error[chart 1]: more than 32 instances",
        ),
        (
            ChartFault::TooManyMessages,
            "error[chart 5]: more than 1024 messages",
        ),
        (
            ChartFault::TooManyActions,
            "error[chart 11]: more than 1024 actions",
        ),
        (
            ChartFault::Cyclic(0),
            "error[chart 9]: these events wait for each other, so none of them can happen",
        ),
        (
            ChartFault::UnmatchedIn(1),
            "error[chart 8]: \"m\" is received from a, which never sends it",
        ),
        (ChartFault::Memory, "error[memory]: out of memory"),
    ];
    let input = MessageEnd {
        sends: false,
        message: "m",
        owner: "b",
        address: "a",
    };
    for (fault, wanted) in table {
        let told = untold(&rt, Some(0));
        let words = chart_words(rt.alloc(), fault, &told, &[], Some(input));
        let words = words.expect(&rt, "memory for a refusal");
        assert_eq!(rt; first_row(&rt, &words).as_slice(), wanted.as_bytes());
    }
}

#[test]
fn faults_of_rules_have_sentences(rt: HostRuntime) {
    let comment = Some(Span { first: 0, past: 3 });
    let name = "\u{e9}\t".as_bytes();
    let table = [
        (
            LinkFault::NoLink(name),
            None,
            "error[link 1]: \u{e9}? is no link",
        ),
        (
            LinkFault::NoInstance(name),
            comment,
            "error[link 2]: no instance ? ",
        ),
        (
            LinkFault::TwoKinds(b"a>b".as_slice()),
            None,
            "error[link 3]: a>b has two kinds",
        ),
    ];
    for (fault, comment, wanted) in table {
        let words = link_words(rt.alloc(), fault, comment);
        let words = words.expect(&rt, "memory for a refusal");
        assert_eq!(rt; words.place().is_some(), comment.is_some());
        assert_eq!(rt; first_row(&rt, &words).as_slice(), wanted.as_bytes());
    }
}

/// A comment that is faulty.
const COMMENT: &str = "queues piar";

#[test]
fn faulty_comments_are_told(rt: HostRuntime) {
    let span = Span { first: 0, past: 11 };
    let words = queues_words(rt.alloc(), span).expect(&rt, "memory for a refusal");
    let printed = printed(&rt, COMMENT, "t:1:1", &words);
    let wanted = "error[link 4]: this does not say which queues
 --> t:1:1
  |
1 | queues piar
  | ^^^^^^^^^^^
  |
  = help: queues ARCH; KIND LINK, LINK; ..

";
    assert_eq!(rt; printed.as_slice(), wanted.as_bytes());
    let table = [
        (MarkSlip::Part, "error[accept 1]: this mark cannot be read"),
        (
            MarkSlip::Reason,
            "error[accept 2]: this mark gives no reason",
        ),
        (
            MarkSlip::Label,
            "error[accept 3]: this mark is part of the arrow's label",
        ),
        (
            MarkSlip::Second,
            "error[accept 4]: the arrow below has a mark already",
        ),
    ];
    for (slip, wanted) in table {
        let words = mark_words(rt.alloc(), slip, span).expect(&rt, "memory for a refusal");
        assert_eq!(rt; first_row(&rt, &words).as_slice(), wanted.as_bytes());
    }
}

#[test]
fn other_faults_have_sentences(rt: HostRuntime) {
    let alloc = rt.alloc();
    let cause = cause_of("No such file or directory (os error 2)");
    let table = [
        (
            instance_words(alloc, "no\tone"),
            "error[ready 1]: no instance is named \"no?one\"",
        ),
        (
            rounds_words(alloc, UnrollFault::TooManyMessages),
            "error[again 1]: more than 512 messages",
        ),
        (
            rounds_words(alloc, UnrollFault::TooManyActions),
            "error[again 2]: more than 512 actions",
        ),
        (
            reading_words(alloc, "nofile.msc", cause),
            "error[device]: cannot read nofile.msc: No such file or directory",
        ),
        (
            writing_words(alloc, "Broken pipe"),
            "error[device]: cannot write: Broken pipe",
        ),
        (memory_words(alloc), "error[memory]: out of memory"),
    ];
    for (words, wanted) in table {
        let words = words.expect(&rt, "memory for a refusal");
        assert_eq!(rt; first_row(&rt, &words).as_slice(), wanted.as_bytes());
    }
}
