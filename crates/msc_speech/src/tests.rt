//! Tables of messages, steps and lines, and what people call them.

use crate::{LineName, action_said, label_said, line_names, message_said};

/// Labels of arrows, whether the arrow is a step, and what it is called on line 7.
const LABELS: &[(&[u8], bool, &str)] = &[
    (b"mark as paid", false, "\"mark as paid\""),
    (b" put #quot;42#quot;<br/>now ", false, "'put \"42\" now'"),
    (b"it's", true, "\"it's\""),
    (b"", false, "the message of line 7"),
    (b" <br/> ", false, "the message of line 7"),
    (b"#32;", true, "the step of line 7"),
    (
        b"a label of more than forty columns is cut there",
        false,
        "\"a label of more than forty columns is cu...\"",
    ),
];

#[test]
fn labels_are_said(rt: HostRuntime) {
    for (label, is_step, wanted) in LABELS {
        let said = label_said(rt.alloc(), label, *is_step, 7).expect(&rt, "memory");
        assert_eq!(rt; said.as_str(), *wanted, "{label:?}");
    }
}

/// Names and numbers of messages, and what they are called.
const MESSAGES: &[(&[u8], Option<&[u8]>, &str)] = &[
    (b"END_MARKER", None, "\"END_MARKER\""),
    (b"END_MARKER", Some(b"2"), "\"END_MARKER, 2\""),
];

#[test]
fn messages_are_said(rt: HostRuntime) {
    for (name, number, wanted) in MESSAGES {
        let said = message_said(rt.alloc(), name, *number).expect(&rt, "memory");
        assert_eq!(rt; said.as_str(), *wanted, "{name:?}");
    }
}

/// Texts of actions, and what they are called on line 12.
const ACTIONS: &[(&[u8], &str)] = &[
    (b"log it", "\"log it\""),
    (b"say \"no\"", "'say \"no\"'"),
    (b"", "the action of line 12"),
];

#[test]
fn actions_are_said(rt: HostRuntime) {
    for (text, wanted) in ACTIONS {
        let said = action_said(rt.alloc(), text, 12).expect(&rt, "memory");
        assert_eq!(rt; said.as_str(), *wanted, "{text:?}");
    }
}

/// Lines of a diagram.
const LINES: [LineName<'static>; 5] = [
    LineName {
        ident: b"W",
        shown: Some(b"Webhook Worker"),
    },
    LineName {
        ident: b"PSP",
        shown: Some(b"\"Payment<br/>Provider\""),
    },
    LineName {
        ident: b"P2",
        shown: Some(b"Payment Provider"),
    },
    LineName {
        ident: b"Shop",
        shown: None,
    },
    LineName {
        ident: b"db",
        shown: Some(b"<br/>"),
    },
];

/// What these lines are called.
const NAMES: [&str; 5] = [
    "Webhook Worker",
    "Payment Provider (PSP)",
    "Payment Provider (P2)",
    "Shop",
    "db",
];

#[test]
fn lines_are_named(rt: HostRuntime) {
    let names = line_names(rt.alloc(), &LINES).expect(&rt, "memory");
    for (name, wanted) in names.iter().zip(NAMES.iter()) {
        assert_eq!(rt; name.as_str(), *wanted);
    }
}
