//! Refusals of imports in words: golden diagnostics, and a table of sentences.

use crate::import_words;
use listed::Listed;
use msc_diagnostic::{LineEnds, Source};
use msc_fault_words::{FaultWords, Span, words_text};
use msc_mermaid::{Closer, Expectation, Head, ImportFault};
use msc_notes::{FaultNotes, Note, Tag};
use msc_place::Position;
use std::alloc::AllocGlobal;
use std::process::Abort;

/// A note of this text and place.
fn note<R: Abort + AllocGlobal>(rt: &R, tag: Tag, text: &str, place: Option<usize>) -> Note {
    let text = Vec::from_slice(rt.alloc(), text.as_bytes());
    Note {
        tag,
        text: Listed::from_vec(text.expect(rt, "memory for a note")),
        place,
        pair: None,
    }
}

/// A fault's place, and one or two notes.
fn told<R: Abort + AllocGlobal>(
    rt: &R,
    place: Option<usize>,
    first: Note,
    second: Option<Note>,
) -> FaultNotes {
    let mut notes = Vec::new(rt.alloc());
    notes.push(first).expect(rt, "memory for a note");
    if let Some(second) = second {
        notes.push(second).expect(rt, "memory for a note");
    }
    FaultNotes {
        place,
        notes: Listed::from_vec(notes),
    }
}

/// The bytes that are printed of a refusal.
fn printed<R: Abort + AllocGlobal>(rt: &R, text: &str, place: &str, words: &FaultWords) -> Vec<u8> {
    let source = Source::new(rt.alloc(), text.as_bytes(), LineEnds::Any);
    let source = source.expect(rt, "memory for a text");
    let text = words_text(rt.alloc(), &source, Some(place), words, false);
    text.expect(rt, "memory for a refusal")
}

/// The beginning of a text.
const BEGINNING: Position = Position { line: 1, column: 1 };

/// A flow chart.
const FLOW: &str = "graph TD\n";

/// The text of its diagnostic.
const FLOW_PRINTED: &str = "error[import 2]: \"graph\" is no sequence diagram
 --> flow_chart.mmd:1:1
  |
1 | graph TD
  | ^^^^^

";

#[test]
fn another_kind_of_diagram_is_told(rt: HostRuntime) {
    let found = note(&rt, Tag::Found, "graph", None);
    let kind = note(&rt, Tag::Hint, "graph is no sequence diagram", None);
    let told = told(&rt, Some(0), found, Some(kind));
    let fault = ImportFault::Expected(BEGINNING, Expectation::AnyDiagram);
    let spans = [Span { first: 0, past: 5 }];
    let words = import_words(rt.alloc(), fault, b"", &told, &spans);
    let words = words.expect(&rt, "memory for a refusal");
    let printed = printed(&rt, FLOW, "flow_chart.mmd:1:1", &words);
    assert_eq!(rt; printed.as_slice(), FLOW_PRINTED.as_bytes());
}

/// A diagram with a word in the wrong block.
const OUTSIDE: &str = "sequenceDiagram
  loop
  else
  end
";

/// The text of its diagnostic.
const OUTSIDE_PRINTED: &str = "error[import 5]: \"else\" stands outside of its block
 --> outside.mmd:3:3
  |
2 |   loop
  |   ---- this block is open
3 |   else
  |   ^^^^

";

#[test]
fn a_word_outside_of_its_block_is_told(rt: HostRuntime) {
    let inside = note(&rt, Tag::Inside, "loop", Some(18));
    let told = told(&rt, Some(25), inside, None);
    let fault = ImportFault::Outside(BEGINNING, Closer::Else);
    let spans = [
        Span {
            first: 25,
            past: 29,
        },
        Span {
            first: 18,
            past: 22,
        },
    ];
    let words = import_words(rt.alloc(), fault, b"", &told, &spans);
    let words = words.expect(&rt, "memory for a refusal");
    let printed = printed(&rt, OUTSIDE, "outside.mmd:3:3", &words);
    assert_eq!(rt; printed.as_slice(), OUTSIDE_PRINTED.as_bytes());
}

#[test]
fn too_many_scenarios_are_told(rt: HostRuntime) {
    let limit = note(
        &rt,
        Tag::Hint,
        "there are 34: --limit 34 checks them all",
        None,
    );
    let word = note(&rt, Tag::Nearest, "loop", None);
    let told = told(&rt, None, limit, Some(word));
    let fault = ImportFault::TooManyScenarios(7);
    let words = import_words(rt.alloc(), fault, b"", &told, &[]);
    let words = words.expect(&rt, "memory for a refusal");
    let printed = printed(&rt, FLOW, "retries.mmd", &words);
    let wanted = "error[import 11]: more than 7 scenarios
 --> retries.mmd
  = help: there are 34: --limit 34 checks them all
  = help: is \"loop\" meant?

";
    assert_eq!(rt; printed.as_slice(), wanted.as_bytes());
}

/// The first row of the diagnostic of a refusal.
fn first_row<R: Abort + AllocGlobal>(rt: &R, words: &FaultWords) -> Vec<u8> {
    let printed = printed(rt, "", "t", words);
    let mut row = Vec::new(rt.alloc());
    for byte in printed.as_slice() {
        if *byte == b'\n' {
            return row;
        }
        row.push(*byte).expect(rt, "memory for a row");
    }
    row
}

/// Faults, and their sentences.
const SENTENCES: [(ImportFault, &str); 23] = [
    (
        ImportFault::TooLong,
        "error[import 1]: text longer than 1048576 bytes",
    ),
    (
        ImportFault::Expected(BEGINNING, Expectation::Statement),
        "error[import 2]: this is no statement of a sequence diagram",
    ),
    (
        ImportFault::Expected(BEGINNING, Expectation::Label),
        "error[import 2]: this arrow has no label",
    ),
    (
        ImportFault::Expected(BEGINNING, Expectation::Name),
        "error[import 2]: expected a name, found \":\"",
    ),
    (
        ImportFault::Expected(BEGINNING, Expectation::Front),
        "error[import 2]: expected \"---\", found \":\"",
    ),
    (
        ImportFault::Expected(BEGINNING, Expectation::Directive),
        "error[import 2]: expected \"}%%\", found \":\"",
    ),
    (
        ImportFault::Expected(BEGINNING, Expectation::Description),
        "error[import 2]: expected \"}\", found \":\"",
    ),
    (
        ImportFault::Expected(BEGINNING, Expectation::Diagram),
        "error[import 2]: expected \"sequenceDiagram\", found \":\"",
    ),
    (
        ImportFault::Expected(BEGINNING, Expectation::LineEnd),
        "error[import 2]: expected the end of the line, found \":\"",
    ),
    (
        ImportFault::Unsupported(BEGINNING, Head::Upper),
        "error[import 3]: \"-|\\\" is not supported",
    ),
    (
        ImportFault::Entity(BEGINNING),
        "error[import 3]: \"C\" is not supported",
    ),
    (
        ImportFault::Unended(BEGINNING),
        "error[import 4]: this block has no end",
    ),
    (
        ImportFault::Stray(BEGINNING),
        "error[import 5]: \"sequenceDiagram\" stands outside of its block",
    ),
    (
        ImportFault::TooDeep(BEGINNING),
        "error[import 6]: more than 10 blocks inside each other",
    ),
    (
        ImportFault::TooManyLines(BEGINNING),
        "error[import 7]: more than 32 instances",
    ),
    (
        ImportFault::Several(4096),
        "error[import 12]: 4096 scenarios, say --choose",
    ),
    (
        ImportFault::Several(4097),
        "error[import 12]: more than 4096 scenarios, say --choose",
    ),
    (
        ImportFault::Choice(BEGINNING, 3, 2),
        "error[import 13]: choice 3 is more than 2",
    ),
    (
        ImportFault::TooManyChoices(3, 2),
        "error[import 14]: 3 choices for 2 blocks",
    ),
    (
        ImportFault::TooManyArrows(BEGINNING),
        "error[import 15]: more than 1024 arrows",
    ),
    (
        ImportFault::Shared(BEGINNING, 1),
        "error[import 16]: parallel branches share C",
    ),
    (ImportFault::NoDiagram(3), "error[import 17]: no diagram 3"),
    (
        ImportFault::SeveralDiagrams(2),
        "error[import 20]: 2 diagrams, say --fence",
    ),
];

#[test]
fn faults_of_imports_have_sentences(rt: HostRuntime) {
    for (fault, wanted) in SENTENCES {
        let told = told(&rt, Some(0), note(&rt, Tag::Found, ":", None), None);
        let words = import_words(rt.alloc(), fault, b"C", &told, &[]);
        let words = words.expect(&rt, "memory for a refusal");
        assert_eq!(rt; first_row(&rt, &words).as_slice(), wanted.as_bytes());
    }
}

#[test]
fn ends_have_no_quotes(rt: HostRuntime) {
    let found = note(&rt, Tag::Found, "the end of the text", None);
    let told = told(&rt, Some(0), found, None);
    let fault = ImportFault::Expected(BEGINNING, Expectation::Front);
    let words = import_words(rt.alloc(), fault, b"", &told, &[]);
    let words = words.expect(&rt, "memory for a refusal");
    let wanted = "error[import 2]: expected \"---\", found the end of the text";
    assert_eq!(rt; first_row(&rt, &words).as_slice(), wanted.as_bytes());
}
