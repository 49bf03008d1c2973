//! Records of a chart, of a diagram, and of refused texts.

use crate::{
    Checked, CheckedChart, CheckedDiagram, Counts, Entry, Event, EventKind, EventNumber, Fault,
    FaultNote, FaultPosition, Head, Link, ListedScenario, Message, Opening, Position, Refusal,
    Statement, print_end, print_entry, print_head, print_refusal, run_text,
};
use std::alloc::{AllocError, AllocGlobal, Global};
use std::process::Abort;

/// The bytes of these parts, one after another.
fn joined(alloc: Global, parts: &[&str]) -> Result<Vec<u8>, AllocError> {
    let mut bytes = Vec::new(alloc);
    for part in parts {
        bytes.extend_from_slice(part.as_bytes())?;
    }
    Ok(bytes)
}

/// What precedes the race of the chart with two senders, whose messages arrive in any order.
const TWO_SENDERS: Head<'static> = Head {
    opening: Opening {
        version: "0.2.0",
        file: b"charts/two_senders.msc",
        fence: None,
        status: 1,
    },
    queues: "pair",
    links: &[],
    counts: Counts {
        races: 1,
        allowed: None,
        accepted: None,
        closest: None,
    },
    checked: Checked::Chart(CheckedChart {
        name: b"t",
        ring: None,
        again: None,
        stale: None,
    }),
};

/// Its race.
const TWO_SENDERS_RACE: Entry<'static> = Entry {
    scenario: None,
    instance: b"b",
    is_next: false,
    kind: "queues",
    is_always: false,
    sentence: "b can receive \"m2\" from c before \"m1\" from a",
    notes: &[
        "they come over two connections, and nothing orders them",
        "the order holds if c sends \"m2\" only after b has received \"m1\" from a",
    ],
    first: Event {
        event: 1,
        kind: EventKind::Input(Message {
            name: b"m1",
            number: None,
            other: b"a",
        }),
        position: Position {
            line: 1,
            column: 58,
        },
        statement: Some(Statement {
            byte: 57,
            length: 13,
        }),
    },
    second: Event {
        event: 2,
        kind: EventKind::Input(Message {
            name: b"m2",
            number: None,
            other: b"c",
        }),
        position: Position {
            line: 1,
            column: 72,
        },
        statement: Some(Statement {
            byte: 71,
            length: 13,
        }),
    },
    needed: EventNumber {
        event: 1,
        round: None,
    },
    output: EventNumber {
        event: 3,
        round: None,
    },
};

/// Its record.
const TWO_SENDERS_RECORD: &[&str] = &[
    "{\"msc\":1,\"version\":\"0.2.0\",\"file\":\"charts/two_senders.msc\",\"status\":1,",
    "\"chart\":\"t\",\"queues\":\"pair\",\"verdict\":\"races\",\"races\":1,\"follows\":true,",
    "\"list\":[{\"instance\":\"b\",\"kind\":\"queues\",\"always\":false,",
    "\"sentence\":\"b can receive \\\"m2\\\" from c before \\\"m1\\\" from a\",",
    "\"notes\":[\"they come over two connections, and nothing orders them\",",
    "\"the order holds if c sends \\\"m2\\\" only after b has received \\\"m1\\\" from a\"],",
    "\"first\":{\"event\":1,\"way\":\"in\",\"message\":\"m1\",\"number\":null,\"other\":\"a\",",
    "\"line\":1,\"column\":58,\"byte\":57,\"length\":13},",
    "\"second\":{\"event\":2,\"way\":\"in\",\"message\":\"m2\",\"number\":null,\"other\":\"c\",",
    "\"line\":1,\"column\":72,\"byte\":71,\"length\":13},",
    "\"needs\":[1,3],\"run\":[0,3,2,1]}]}\n",
];

/// The run that shows it.
const TWO_SENDERS_RUN: [EventNumber; 4] = [
    EventNumber {
        event: 0,
        round: None,
    },
    EventNumber {
        event: 3,
        round: None,
    },
    EventNumber {
        event: 2,
        round: None,
    },
    EventNumber {
        event: 1,
        round: None,
    },
];

/// What precedes the empty list of a diagram that passes: the second one of a text of Markdown.
const UPLOADS: Head<'static> = Head {
    opening: Opening {
        version: "0.2.0",
        file: b"shop/docs/uploads.md",
        fence: Some(2),
        status: 0,
    },
    queues: "pair",
    links: &[Link {
        sender: None,
        receiver: b"API",
        kind: "mailbox",
    }],
    counts: Counts {
        races: 0,
        allowed: None,
        accepted: Some(0),
        closest: None,
    },
    checked: Checked::Diagram(CheckedDiagram {
        name: b"uploads",
        serves: &[],
        scenarios: 1,
        free: 1,
        stale: Some(&[]),
    }),
};

/// Its record.
const UPLOADS_RECORD: &[&str] = &[
    "{\"msc\":1,\"version\":\"0.2.0\",\"file\":\"shop/docs/uploads.md\",\"fence\":2,\"status\":0,",
    "\"diagram\":\"uploads\",\"queues\":\"pair\",",
    "\"links\":[{\"to\":\"API\",\"kind\":\"mailbox\"}],",
    "\"scenarios\":1,\"verdict\":\"pass\",\"races\":0,\"accepted\":0,\"free\":1,\"stale\":[],",
    "\"list\":[]}\n",
];

/// A race of a diagram, after another one.
const CHECKOUT_RACE: Entry<'static> = Entry {
    scenario: Some(ListedScenario {
        scenario: 2,
        choices: &[2],
        scenarios: 1,
    }),
    instance: b"PSP",
    is_next: false,
    kind: "queues",
    is_always: false,
    sentence: "Provider can receive \"GET /payment_intents/1\" before \"200 or 500\"",
    notes: &["they come over two connections, and nothing orders them"],
    first: Event {
        event: 16,
        kind: EventKind::Input(Message {
            name: b"200 or 500",
            number: Some(b"8_2"),
            other: b"W",
        }),
        position: Position {
            line: 15,
            column: 9,
        },
        statement: None,
    },
    second: Event {
        event: 17,
        kind: EventKind::Input(Message {
            name: b"GET /payment_intents/1",
            number: Some(b"10"),
            other: b"Shop",
        }),
        position: Position {
            line: 18,
            column: 5,
        },
        statement: None,
    },
    needed: EventNumber {
        event: 16,
        round: None,
    },
    output: EventNumber {
        event: 5,
        round: None,
    },
};

/// What is printed of it.
const CHECKOUT_TEXT: &[&str] = &[
    ",{\"scenario\":2,\"choose\":[2],\"scenarios\":1,\"instance\":\"PSP\",\"kind\":\"queues\",",
    "\"always\":false,\"sentence\":\"Provider can receive \\\"GET /payment_intents/1\\\" ",
    "before \\\"200 or 500\\\"\",",
    "\"notes\":[\"they come over two connections, and nothing orders them\"],",
    "\"first\":{\"event\":16,\"way\":\"in\",\"message\":\"200 or 500\",\"number\":\"8_2\",",
    "\"other\":\"W\",\"line\":15,\"column\":9},",
    "\"second\":{\"event\":17,\"way\":\"in\",\"message\":\"GET /payment_intents/1\",",
    "\"number\":\"10\",\"other\":\"Shop\",\"line\":18,\"column\":5},\"needs\":[16,5]}",
];

/// A diagram that is refused. The name of its file is no UTF-8.
const CANCEL: Refusal<'static> = Refusal {
    opening: Opening {
        version: "0.2.0",
        file: b"0007-\xE2\x82cancel.md",
        fence: Some(3),
        status: 2,
    },
    fault: Fault {
        stage: "import",
        number: Some(2),
        text: b"import fault 2 at 25: expected a statement",
        sentence: "this is no statement of a sequence diagram",
        position: Some(FaultPosition {
            line: 25,
            column: 15,
            byte: None,
        }),
        notes: &[
            FaultNote {
                text: b"found =>",
                position: None,
            },
            FaultNote {
                text: b"hint arrows are ->> -->> -> --> -x --x -) --) <<->> <<-->>",
                position: None,
            },
        ],
    },
    further: &[],
};

/// Its record.
const CANCEL_RECORD: &[&str] = &[
    "{\"msc\":1,\"version\":\"0.2.0\",\"file\":\"0007-\u{FFFD}cancel.md\",",
    "\"fence\":3,\"status\":2,",
    "\"fault\":{\"stage\":\"import\",\"number\":2,",
    "\"text\":\"import fault 2 at 25: expected a statement\",",
    "\"sentence\":\"this is no statement of a sequence diagram\",\"line\":25,\"column\":15,",
    "\"notes\":[{\"text\":\"found =>\"},",
    "{\"text\":\"hint arrows are ->> -->> -> --> -x --x -) --) <<->> <<-->>\"}]}}\n",
];

/// Prints the record of the chart.
fn print_two_senders(alloc: Global) -> Result<Vec<u8>, AllocError> {
    let mut page = Vec::new(alloc);
    let run = run_text(alloc, &TWO_SENDERS_RUN)?;
    print_head(alloc, &mut page, &TWO_SENDERS)?;
    print_entry(
        alloc,
        &mut page,
        true,
        &TWO_SENDERS_RACE,
        Some(run.as_slice()),
    )?;
    print_end(&mut page)?;
    Ok(page)
}

/// Prints the record of the diagram that passes.
fn print_uploads(alloc: Global) -> Result<Vec<u8>, AllocError> {
    let mut page = Vec::new(alloc);
    print_head(alloc, &mut page, &UPLOADS)?;
    print_end(&mut page)?;
    Ok(page)
}

/// Prints the race of the other diagram.
fn print_checkout(alloc: Global) -> Result<Vec<u8>, AllocError> {
    let mut page = Vec::new(alloc);
    print_entry(alloc, &mut page, false, &CHECKOUT_RACE, None)?;
    Ok(page)
}

/// Prints the record of the refusal.
fn print_cancel(alloc: Global) -> Result<Vec<u8>, AllocError> {
    let mut page = Vec::new(alloc);
    print_refusal(alloc, &mut page, &CANCEL)?;
    Ok(page)
}

/// Compares what was printed with the wanted parts.
pub(crate) fn check<R: Abort + AllocGlobal>(
    rt: &R,
    printed: Result<Vec<u8>, AllocError>,
    wanted: &[&str],
) {
    let printed = printed.expect(rt, "memory for a record");
    let wanted = joined(rt.alloc(), wanted).expect(rt, "memory for a record");
    assert_eq!(rt; printed.as_slice(), wanted.as_slice());
}

#[test]
fn records_are_printed(rt: HostRuntime) {
    let alloc = rt.alloc();
    check(&rt, print_two_senders(alloc), TWO_SENDERS_RECORD);
    check(&rt, print_uploads(alloc), UPLOADS_RECORD);
    check(&rt, print_checkout(alloc), CHECKOUT_TEXT);
    check(&rt, print_cancel(alloc), CANCEL_RECORD);
}
