//! Tests of the positions in imports: names, labels and statements in a text. The numbers are those
//! of the second reader of Mermaid in `tools/naive`.

use msc_import::{EventSpans, Imported, Importing, Language, Manner, Own, Par, Refused, import};
use msc_mermaid::Span;
use std::alloc::AllocGlobal;

/// The places of the statement of an event and of the label of its arrow.
struct Site {
    label: Span,
    statement: Span,
}

/// A text; the places at which its lines are named first, and those of their shown names; and for
/// each event the places of its statement and its label.
type Sited = (
    &'static [u8],
    &'static [Span],
    &'static [Option<Span>],
    &'static [Site],
);

/// A byte order mark and line ends of two bytes; a block of Markdown after bytes that are no
/// columns; and a configuration over several lines.
const SITED: &[Sited] = &[
    (
        b"\xef\xbb\xbfsequenceDiagram\r\n    participant A as wrap: The  first\r\n  A->>+ B : one; B--xA:nowrap: two \r\n",
        &[
            Span {
                first: 36,
                past: 37,
            },
            Span {
                first: 67,
                past: 68,
            },
        ],
        &[
            Some(Span {
                first: 47,
                past: 57,
            }),
            None,
        ],
        &[
            Site {
                label: Span {
                    first: 71,
                    past: 74,
                },
                statement: Span {
                    first: 61,
                    past: 74,
                },
            },
            Site {
                label: Span {
                    first: 71,
                    past: 74,
                },
                statement: Span {
                    first: 61,
                    past: 74,
                },
            },
            Site {
                label: Span {
                    first: 90,
                    past: 93,
                },
                statement: Span {
                    first: 76,
                    past: 93,
                },
            },
        ],
    ),
    (
        b"# Title \xc3\xa9\n\n> <pre title=\"\xc3\xa9\" class=\"mermaid\">sequenceDiagram\n> Alice->>Bob: caf\xc3\xa9 #35; x\n> </pre>\n",
        &[
            Span {
                first: 64,
                past: 69,
            },
            Span {
                first: 72,
                past: 75,
            },
        ],
        &[None, None],
        &[
            Site {
                label: Span {
                    first: 77,
                    past: 89,
                },
                statement: Span {
                    first: 64,
                    past: 89,
                },
            },
            Site {
                label: Span {
                    first: 77,
                    past: 89,
                },
                statement: Span {
                    first: 64,
                    past: 89,
                },
            },
        ],
    ),
    (
        b"sequenceDiagram\n participant A@{ \"type\": \"queue\",\n\n \"alias\": \"Data, as\" }\n A->>B: one\n",
        &[
            Span {
                first: 29,
                past: 30,
            },
            Span {
                first: 79,
                past: 80,
            },
        ],
        &[
            Some(Span {
                first: 62,
                past: 70,
            }),
            None,
        ],
        &[
            Site {
                label: Span {
                    first: 82,
                    past: 85,
                },
                statement: Span {
                    first: 75,
                    past: 85,
                },
            },
            Site {
                label: Span {
                    first: 82,
                    past: 85,
                },
                statement: Span {
                    first: 75,
                    past: 85,
                },
            },
        ],
    ),
];

/// The main scenario of a text.
fn main_of(rt: &impl AllocGlobal, text: &[u8]) -> Result<Imported, Refused> {
    let importing = Importing {
        language: Language::Any,
        fence: None,
        cross: None,
        manner: Manner {
            own: Own::Action,
            par: Par::Refused,
        },
        choices: Some(&[]),
        name: b"t",
    };
    import(rt.alloc(), importing, text)
}

/// Whether the events have these sites, outside of all loops.
fn has_events(found: &[EventSpans], events: &[Site]) -> bool {
    found.len() == events.len()
        && found.iter().zip(events.iter()).all(|(found, event)| {
            found.statement == event.statement
                && found.label == event.label
                && found.rounds.as_slice().is_empty()
        })
}

/// Whether these positions are those of a text.
fn has_sites(rt: &impl AllocGlobal, sited: &Sited) -> bool {
    let &(text, names, shown, events) = sited;
    match main_of(rt, text) {
        Ok(found) => {
            found.spans.names.as_slice() == names
                && found.spans.shown.as_slice() == shown
                && has_events(found.spans.events.as_slice(), events)
        }
        Err(_) => false,
    }
}

#[test]
fn names_labels_and_statements_stand_there(rt: HostRuntime) {
    for sited in SITED {
        assert!(rt; has_sites(&rt, sited), "{:?}", sited.0);
    }
}

/// A loop of two rounds in a loop of one, and an arrow after it.
const LOOPS: &[u8] =
    b"sequenceDiagram\nloop outer\nloop inner\nA->>B: one\nend\nA->>B: two\nend\nA->>B: three\n";

/// The rounds of the events on a line of it.
const ROUNDS: [&[usize]; 4] = [&[1, 1], &[1, 2], &[1], &[]];

#[test]
fn events_have_the_rounds_of_their_loops(rt: HostRuntime) {
    let importing = Importing {
        language: Language::Any,
        fence: None,
        cross: None,
        manner: Manner {
            own: Own::Action,
            par: Par::Refused,
        },
        choices: Some(&[1, 2]),
        name: b"t",
    };
    let Ok(found) = import(rt.alloc(), importing, LOOPS) else {
        panic!(rt; "a scenario of two loops");
    };
    let events = found.spans.events.as_slice();
    assert_eq!(rt; events.len(), 2 * ROUNDS.len());
    for (i, rounds) in ROUNDS.iter().enumerate() {
        assert_eq!(rt; events[i].rounds.as_slice(), *rounds, "{i}");
        assert_eq!(rt; events[i + ROUNDS.len()].rounds.as_slice(), *rounds, "{i}");
    }
}
