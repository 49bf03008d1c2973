//! Diagnostics and the rows that they print.

ghost use Rattle.std.specs.Prelude.{◌≡◌};
ghost use Rattle.msc_diagnostic.specs.Blocks.{diagnostic_text};
ghost use Rattle.msc_diagnostic.specs.Plain.{plain_diagnostic};

use crate::{Diagnostic, Level, LineEnds, Mark, Note, NoteKind, Sign, Source, print_diagnostic};
use msc_print::{Page, Print, Printer, write_by};
use std::alloc::{AllocError, AllocGlobal, Global};
use std::io::Write;
use std::process::Abort;

/// A diagnostic on a text, which can be printed.
#[derive(Drop)]
struct OnText<'s> {
    source: &'s Source<'s>,
    diagnostic: &'s Diagnostic<'s>,
    colours: bool,
}

impl<'s> Print for OnText<'s> {
    ghost can_print = { λ s. Unit {0} };

    ghost is_text = { λ s text. text ≡ diagnostic_text s.colours s.source.now.ends
        s.source.now.text.now (plain_diagnostic s.diagnostic.now) };

    ghost is_answer = { λ s passed. Unit {0} };

    fn print<W: Write>(
        &self,
        alloc: Global,
        printer: &mut Printer<'_, W>,
    ) -> Result<bool, AllocError> {
        print_diagnostic(alloc, printer, self.source, self.diagnostic, self.colours);
        Ok(true)
    }
}

/// The bytes of these rows, each with a line feed after it.
fn bytes_of<R: Abort + AllocGlobal>(rt: &R, rows: &[&str]) -> Vec<u8> {
    let mut bytes = Vec::new(rt.alloc());
    for row in rows {
        bytes
            .extend_from_slice(row.as_bytes())
            .expect(rt, "memory for a row");
        bytes
            .extend_from_slice(b"\n")
            .expect(rt, "memory for a row");
    }
    bytes
}

/// Prints a diagnostic on a text, and compares the rows with the wanted ones.
fn check<R: Abort + AllocGlobal>(
    rt: &R,
    text: &[&str],
    ends: LineEnds,
    diagnostic: &Diagnostic<'_>,
    colours: bool,
    wanted: &[&str],
) {
    let text = bytes_of(rt, text);
    let source = Source::new(rt.alloc(), text.as_slice(), ends).expect(rt, "memory for a text");
    let on_text = OnText {
        source: &source,
        diagnostic,
        colours,
    };
    let mut page = Page::new(rt.alloc());
    write_by(rt.alloc(), &on_text, &mut page).expect(rt, "memory for rows");
    let wanted = bytes_of(rt, wanted);
    assert_eq!(rt; page.bytes.as_slice(), wanted.as_slice());
}

/// A diagram with wide characters.
const CHINESE: &[&str] = &[
    "sequenceDiagram",
    "    participant \u{7528}\u{6237}",
    "    participant \u{7F51}\u{5173} as API \u{7F51}\u{5173}",
    "    participant \u{8BA2}\u{5355} as \u{8BA2}\u{5355}\u{670D}\u{52A1}",
    "    participant \u{5E93}\u{5B58} as \u{5E93}\u{5B58}\u{670D}\u{52A1}",
    "    \u{7528}\u{6237}->>\u{7F51}\u{5173}: \u{63D0}\u{4EA4}\u{8BA2}\u{5355}",
    "    \u{7F51}\u{5173}->>\u{8BA2}\u{5355}: \u{521B}\u{5EFA}\u{8BA2}\u{5355}",
    "    \u{8BA2}\u{5355}-)\u{5E93}\u{5B58}: \u{9884}\u{7559}\u{5E93}\u{5B58}",
    "    \u{8BA2}\u{5355}-->>\u{7F51}\u{5173}: \u{8BA2}\u{5355}\u{53F7} 42",
    "    \u{7F51}\u{5173}-->>\u{7528}\u{6237}: \u{5DF2}\u{53D7}\u{7406}",
    "    \u{5E93}\u{5B58}-)\u{7528}\u{6237}: \u{77ED}\u{4FE1}\u{FF1A}\u{5E93}\u{5B58}\u{5DF2}\u{9884}\u{7559}",
];

/// A race in it.
const CHINESE_RACE: Diagnostic<'static> = Diagnostic {
    level: Level::Warning,
    id: "queues",
    sentence: "\u{7528}\u{6237} can receive \"\u{77ED}\u{4FE1}\u{FF1A}\u{5E93}\u{5B58}\u{5DF2}\u{9884}\u{7559}\" from \u{5E93}\u{5B58}\u{670D}\u{52A1} before \"\u{5DF2}\u{53D7}\u{7406}\" from API \u{7F51}\u{5173}",
    place: Some("chinese.mmd:10:5"),
    marks: &[
        Mark {
            first: 294,
            past: 321,
            sign: Sign::Caret,
            label: "drawn first",
        },
        Mark {
            first: 326,
            past: 366,
            sign: Sign::Dash,
            label: "can happen first",
        },
    ],
    notes: &[
        Note {
            kind: NoteKind::Note,
            text: "they come over two connections, and nothing orders them",
            rows: &[],
        },
        Note {
            kind: NoteKind::Help,
            text: "the order holds if \u{5E93}\u{5B58}\u{670D}\u{52A1} sends \"\u{77ED}\u{4FE1}\u{FF1A}\u{5E93}\u{5B58}\u{5DF2}\u{9884}\u{7559}\" only after \u{7528}\u{6237} has received \"\u{5DF2}\u{53D7}\u{7406}\" from API \u{7F51}\u{5173}",
            rows: &[],
        },
    ],
};

/// The rows of this diagnostic.
const CHINESE_ROWS: &[&str] = &[
    "warning[queues]: \u{7528}\u{6237} can receive \"\u{77ED}\u{4FE1}\u{FF1A}\u{5E93}\u{5B58}\u{5DF2}\u{9884}\u{7559}\" from \u{5E93}\u{5B58}\u{670D}\u{52A1} before \"\u{5DF2}\u{53D7}\u{7406}\" from API \u{7F51}\u{5173}",
    "  --> chinese.mmd:10:5",
    "   |",
    "10 |     \u{7F51}\u{5173}-->>\u{7528}\u{6237}: \u{5DF2}\u{53D7}\u{7406}",
    "   |     ^^^^^^^^^^^^^^^^^^^^ drawn first",
    "11 |     \u{5E93}\u{5B58}-)\u{7528}\u{6237}: \u{77ED}\u{4FE1}\u{FF1A}\u{5E93}\u{5B58}\u{5DF2}\u{9884}\u{7559}",
    "   |     ---------------------------- can happen first",
    "   |",
    "   = note: they come over two connections, and nothing orders them",
    "   = help: the order holds if \u{5E93}\u{5B58}\u{670D}\u{52A1} sends \"\u{77ED}\u{4FE1}\u{FF1A}\u{5E93}\u{5B58}\u{5DF2}\u{9884}\u{7559}\" only after \u{7528}\u{6237} has received \"\u{5DF2}\u{53D7}\u{7406}\" from API \u{7F51}\u{5173}",
    "",
];

/// The same with colours.
const CHINESE_COLOURS: &[&str] = &[
    "\x1b[1;33mwarning[queues]\x1b[0m\x1b[1m: \u{7528}\u{6237} can receive \"\u{77ED}\u{4FE1}\u{FF1A}\u{5E93}\u{5B58}\u{5DF2}\u{9884}\u{7559}\" from \u{5E93}\u{5B58}\u{670D}\u{52A1} before \"\u{5DF2}\u{53D7}\u{7406}\" from API \u{7F51}\u{5173}\x1b[0m",
    "  \x1b[1;34m-->\x1b[0m chinese.mmd:10:5",
    "\x1b[1;34m   |\x1b[0m",
    "\x1b[1;34m10 |\x1b[0m     \u{7F51}\u{5173}-->>\u{7528}\u{6237}: \u{5DF2}\u{53D7}\u{7406}",
    "\x1b[1;34m   |\x1b[0m     \x1b[1;33m^^^^^^^^^^^^^^^^^^^^ drawn first\x1b[0m",
    "\x1b[1;34m11 |\x1b[0m     \u{5E93}\u{5B58}-)\u{7528}\u{6237}: \u{77ED}\u{4FE1}\u{FF1A}\u{5E93}\u{5B58}\u{5DF2}\u{9884}\u{7559}",
    "\x1b[1;34m   |\x1b[0m     \x1b[34m---------------------------- can happen first\x1b[0m",
    "\x1b[1;34m   |\x1b[0m",
    "  \x1b[1;34m = \x1b[0m\x1b[1mnote\x1b[0m: they come over two connections, and nothing orders them",
    "  \x1b[1;34m = \x1b[0m\x1b[1mhelp\x1b[0m: the order holds if \u{5E93}\u{5B58}\u{670D}\u{52A1} sends \"\u{77ED}\u{4FE1}\u{FF1A}\u{5E93}\u{5B58}\u{5DF2}\u{9884}\u{7559}\" only after \u{7528}\u{6237} has received \"\u{5DF2}\u{53D7}\u{7406}\" from API \u{7F51}\u{5173}",
    "",
];

/// A diagram of which one line is between those with marks.
const ORDER_SAGA: &[&str] = &[
    "%%{init: {'theme': 'forest', 'sequence': {'mirrorActors': false}}}%%",
    "sequenceDiagram",
    "    participant O as Order Service",
    "    participant P as Payment Service",
    "    participant I as Inventory Service",
    "    participant D as Delivery Service",
    "    O-)P: reserve money",
    "    O-)I: reserve stock",
    "    P--)O: money reserved",
    "    alt stock there",
    "        I--)O: stock reserved",
    "        O-)D: schedule",
    "        D--)O: scheduled",
    "        O-)P: capture",
    "    else out of stock",
    "        I--)O: out of stock",
    "        O-)P: release money",
    "        P--)O: money released",
    "    end",
];

/// The rows for a race in it.
const ORDER_SAGA_ROWS: &[&str] = &[
    "warning[queues]: Order Service can receive \"stock reserved\" from Inventory Service before \"money reserved\" from Payment Service",
    "  --> order_saga.mmd:9:5",
    "   |",
    " 9 |     P--)O: money reserved",
    "   |     ^^^^^^^^^^^^^^^^^^^^^ drawn first",
    "10 |     alt stock there",
    "11 |         I--)O: stock reserved",
    "   |         --------------------- can happen first",
    "   |",
    "   = note: they come over two connections, and nothing orders them",
    "",
];

/// A diagram of which more lines are between them.
const PAYMENT_WEBHOOK: &[&str] = &[
    "sequenceDiagram",
    "    title Card payment with webhook",
    "    participant Shop",
    "    participant PSP as Payment Provider",
    "    participant Bank",
    "    participant W as Webhook Worker",
    "    Shop->>+PSP: POST /payment_intents",
    "    PSP-->>-Shop: 201 client_secret",
    "    Shop->>PSP: confirm",
    "    PSP->>Bank: authorize",
    "    Bank-->>PSP: approved",
    "    PSP-->>Shop: processing",
    "    loop until 200",
    "        PSP-)W: payment_intent.succeeded",
    "        W-->>PSP: 200 or 500",
    "    end",
    "    W-)Shop: mark as paid",
    "    Shop->>PSP: GET /payment_intents/1",
    "    PSP-->>Shop: succeeded",
];

/// The rows for a race in it.
const PAYMENT_WEBHOOK_ROWS: &[&str] = &[
    "warning[queues]: Shop can receive \"mark as paid\" from Webhook Worker before \"processing\" from Payment Provider",
    "  --> payment_webhook.mmd:12:5",
    "   |",
    "12 |     PSP-->>Shop: processing",
    "   |     ^^^^^^^^^^^^^^^^^^^^^^^ drawn first",
    "...",
    "17 |     W-)Shop: mark as paid",
    "   |     --------------------- can happen first",
    "",
];

/// A race in it.
const ORDER_SAGA_RACE: Diagnostic<'static> = Diagnostic {
    level: Level::Warning,
    id: "queues",
    sentence: "Order Service can receive \"stock reserved\" from Inventory Service before \"money reserved\" from Payment Service",
    place: Some("order_saga.mmd:9:5"),
    marks: &[
        Mark {
            first: 286,
            past: 307,
            sign: Sign::Caret,
            label: "drawn first",
        },
        Mark {
            first: 336,
            past: 357,
            sign: Sign::Dash,
            label: "can happen first",
        },
    ],
    notes: &[Note {
        kind: NoteKind::Note,
        text: "they come over two connections, and nothing orders them",
        rows: &[],
    }],
};

/// A race in it.
const PAYMENT_WEBHOOK_RACE: Diagnostic<'static> = Diagnostic {
    level: Level::Warning,
    id: "queues",
    sentence: "Shop can receive \"mark as paid\" from Webhook Worker before \"processing\" from Payment Provider",
    place: Some("payment_webhook.mmd:12:5"),
    marks: &[
        Mark {
            first: 325,
            past: 348,
            sign: Sign::Caret,
            label: "drawn first",
        },
        Mark {
            first: 450,
            past: 471,
            sign: Sign::Dash,
            label: "can happen first",
        },
    ],
    notes: &[],
};

/// A chart with a mark that is not listed in order.
const CAUSAL_NEWS: &[&str] = &[
    "/* News and an answer to it reach a third one: the usual example of causal delivery (Birman, Joseph",
    "   1987), with names of a newspaper. */",
    "msc causal_news;",
    "inst author, reader, editor;",
    "instance author;",
    "  out article to reader;",
    "  out article to editor;",
    "endinstance;",
    "instance editor;",
    "  in article from author;",
    "  out correction to reader;",
    "endinstance;",
    "instance reader;",
    "  in article from author;",
    "  in correction from editor;",
    "endinstance;",
    "endmsc;",
];

/// The rows for a stick in it, with a run.
const CAUSAL_NEWS_ROWS: &[&str] = &[
    "error[stick]: reader can block: it waits for \"correction\" from editor, and the next round's \"article\" from author is first in its mailbox",
    "  --> causal_news.msc:15:3",
    "   |",
    "14 |   in article from author;",
    "   |   ----------------------- first in its mailbox",
    "15 |   in correction from editor;",
    "   |   ^^^^^^^^^^^^^^^^^^^^^^^^^^ waits for this",
    "   |",
    "   = help: it cannot block here if author sends the next round's \"article\" (line 6) only after editor has sent \"correction\" (line 11)",
    "   = note: a run that shows it:",
    "     1. round 1: author sends \"article\" to reader (line 6)",
    "     2. round 1: author sends \"article\" to editor (line 7)",
    "     3. round 2: author sends \"article\" to reader (line 6)",
    "     4. round 2: author sends \"article\" to editor (line 7)",
    "     5. round 1: editor receives \"article\" from author (line 10)",
    "     6. round 1: editor sends \"correction\" to reader (line 11)",
    "     7. round 2: editor receives \"article\" from author (line 10)",
    "     8. round 2: editor sends \"correction\" to reader (line 11)",
    "     9. round 1: reader receives \"article\" from author (line 14)",
    "",
];

/// An instance that can block in it.
const CAUSAL_NEWS_STICK: Diagnostic<'static> = Diagnostic {
    level: Level::Error,
    id: "stick",
    sentence: "reader can block: it waits for \"correction\" from editor, and the next round's \"article\" from author is first in its mailbox",
    place: Some("causal_news.msc:15:3"),
    marks: &[
        Mark {
            first: 395,
            past: 421,
            sign: Sign::Caret,
            label: "waits for this",
        },
        Mark {
            first: 369,
            past: 392,
            sign: Sign::Dash,
            label: "first in its mailbox",
        },
    ],
    notes: &[
        Note {
            kind: NoteKind::Help,
            text: "it cannot block here if author sends the next round's \"article\" (line 6) only after editor has sent \"correction\" (line 11)",
            rows: &[],
        },
        Note {
            kind: NoteKind::Note,
            text: "a run that shows it:",
            rows: &[
                "1. round 1: author sends \"article\" to reader (line 6)",
                "2. round 1: author sends \"article\" to editor (line 7)",
                "3. round 2: author sends \"article\" to reader (line 6)",
                "4. round 2: author sends \"article\" to editor (line 7)",
                "5. round 1: editor receives \"article\" from author (line 10)",
                "6. round 1: editor sends \"correction\" to reader (line 11)",
                "7. round 2: editor receives \"article\" from author (line 10)",
                "8. round 2: editor sends \"correction\" to reader (line 11)",
                "9. round 1: reader receives \"article\" from author (line 14)",
            ],
        },
    ],
};

/// A line of several hundred columns.
const LONG_LINE: &[&str] = &[
    "                                                                                                                                            /* far to the right */ in m from a;                                                                                                                          in n from c;                                                                                          ",
];

/// The rows for a race in it: each mark has a window.
const LONG_LINE_ROWS: &[&str] = &[
    "warning[queues]: b can receive \"n\" from c before \"m\" from a",
    " --> long_lines.msc:1:164",
    "  |",
    "1 | ...                          /* far to the right */ in m from a;                                       ...",
    "  |                                                     ^^^^^^^^^^^^ drawn first",
    "1 | ...                                                 in n from c;                                       ...",
    "  |                                                     ------------ can happen first",
    "",
];

/// A race in it.
const LONG_LINE_RACE: Diagnostic<'static> = Diagnostic {
    level: Level::Warning,
    id: "queues",
    sentence: "b can receive \"n\" from c before \"m\" from a",
    place: Some("long_lines.msc:1:164"),
    marks: &[
        Mark {
            first: 163,
            past: 175,
            sign: Sign::Caret,
            label: "drawn first",
        },
        Mark {
            first: 297,
            past: 309,
            sign: Sign::Dash,
            label: "can happen first",
        },
    ],
    notes: &[],
};

/// A diagnostic without a place.
const BARE: Diagnostic<'static> = Diagnostic {
    level: Level::Error,
    id: "device",
    sentence: "cannot read a.mmd: No such file or directory",
    place: None,
    marks: &[],
    notes: &[],
};

/// A diagnostic with a place, and without marks.
const PLACED: Diagnostic<'static> = Diagnostic {
    level: Level::Error,
    id: "import 6",
    sentence: "the file has no block",
    place: Some("a.md"),
    marks: &[],
    notes: &[Note {
        kind: NoteKind::Help,
        text: "write one",
        rows: &[],
    }],
};

/// A diagnostic on a text with a tab, an override and other ends of lines.
const ODD: Diagnostic<'static> = Diagnostic {
    level: Level::Error,
    id: "x",
    sentence: "y",
    place: Some("f:1:9"),
    marks: &[
        Mark {
            first: 8,
            past: 9,
            sign: Sign::Caret,
            label: "here",
        },
        Mark {
            first: 15,
            past: 30,
            sign: Sign::Dash,
            label: "",
        },
    ],
    notes: &[],
};

#[test]
fn wide_characters_are_underlined(rt: HostRuntime) {
    check(
        &rt,
        CHINESE,
        LineEnds::Any,
        &CHINESE_RACE,
        false,
        CHINESE_ROWS,
    );
    check(
        &rt,
        CHINESE,
        LineEnds::Any,
        &CHINESE_RACE,
        true,
        CHINESE_COLOURS,
    );
}

#[test]
fn one_line_between_is_shown(rt: HostRuntime) {
    check(
        &rt,
        ORDER_SAGA,
        LineEnds::Any,
        &ORDER_SAGA_RACE,
        false,
        ORDER_SAGA_ROWS,
    );
}

#[test]
fn more_lines_between_are_left_out(rt: HostRuntime) {
    check(
        &rt,
        PAYMENT_WEBHOOK,
        LineEnds::Any,
        &PAYMENT_WEBHOOK_RACE,
        false,
        PAYMENT_WEBHOOK_ROWS,
    );
}

#[test]
fn marks_are_ordered_and_notes_have_rows(rt: HostRuntime) {
    check(
        &rt,
        CAUSAL_NEWS,
        LineEnds::LineFeed,
        &CAUSAL_NEWS_STICK,
        false,
        CAUSAL_NEWS_ROWS,
    );
}

#[test]
fn long_lines_are_shown_through_windows(rt: HostRuntime) {
    check(
        &rt,
        LONG_LINE,
        LineEnds::LineFeed,
        &LONG_LINE_RACE,
        false,
        LONG_LINE_ROWS,
    );
}

#[test]
fn parts_may_be_absent(rt: HostRuntime) {
    check(
        &rt,
        &[],
        LineEnds::Any,
        &BARE,
        false,
        &[
            "error[device]: cannot read a.mmd: No such file or directory",
            "",
        ],
    );
    check(
        &rt,
        &[],
        LineEnds::Any,
        &PLACED,
        false,
        &[
            "error[import 6]: the file has no block",
            " --> a.md",
            "  = help: write one",
            "",
        ],
    );
}

#[test]
fn only_shown_characters_are_printed(rt: HostRuntime) {
    check(
        &rt,
        &["\tA->>B: \u{7528}\u{202E}\rB->>A: x \t\r", ""],
        LineEnds::Any,
        &ODD,
        false,
        &[
            "error[x]: y",
            " --> f:1:9",
            "  |",
            "1 |  A->>B: \u{7528}?",
            "  |         ^^ here",
            "2 | B->>A: x",
            "  | --------",
            "",
        ],
    );
}
