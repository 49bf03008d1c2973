//! Why a text has no draft, and the place of the fault.

use crate::host::Host;
use msc_lexer::{LexFault, Word};
use msc_parser::{ParseFault, What, parse};

/// The fault of a text that has no draft.
pub fn fault(rt: &impl Host, text: &[u8]) -> Option<ParseFault> {
    parse(rt.alloc(), text).err()
}

/// Texts without a draft, and their faults.
const REFUSED: &[(&[u8], ParseFault)] = &[
    (
        b"msc t; instance a; out m to env; endinstance; endmsc;",
        ParseFault::Unsupported(28, Word::Env),
    ),
    (b"msc t; /* x", ParseFault::Lex(LexFault::OpenNote(7))),
    (b"msc t;", ParseFault::Expected(6, What::Section)),
    (
        b"msc t; instance a; out m t",
        ParseFault::Expected(25, What::To),
    ),
    (b"msc t; endmsc; x", ParseFault::Expected(15, What::Nothing)),
    (b"", ParseFault::Expected(0, What::Msc)),
    (b"msc t; x /*", ParseFault::Lex(LexFault::OpenNote(9))),
    (
        b"msc t; instance a; out m to action;",
        ParseFault::Expected(28, What::Name),
    ),
    (
        b"msc t; instance a; out in to b;",
        ParseFault::Expected(23, What::Name),
    ),
];

/// Whether this is the fault of a text without a draft.
pub fn has_fault(rt: &impl Host, text: &[u8], wanted: ParseFault) -> bool {
    fault(rt, text) == Some(wanted)
}

#[test]
fn refused_texts(rt: HostRuntime) {
    for &(text, wanted) in REFUSED {
        assert!(rt; has_fault(&rt, text, wanted), "{text:?}");
    }
}

/// Whether this is the message of a fault.
fn has_message(rt: &impl Host, fault: ParseFault, wanted: &str) -> bool {
    fault.to_string(rt.alloc()).expect(rt, "memory").as_str() == wanted
}

/// Faults and their messages.
const MESSAGES: &[(ParseFault, &str)] = &[
    (
        ParseFault::Unsupported(28, Word::Env),
        "env is not supported",
    ),
    (ParseFault::Expected(26, What::Text), "expected a text"),
    (
        ParseFault::Expected(6, What::End),
        "expected the end of the statement",
    ),
    (ParseFault::Lex(LexFault::OpenNote(7)), "note without end"),
];

#[test]
fn messages_are_the_printed_words(rt: HostRuntime) {
    for &(fault, wanted) in MESSAGES {
        assert!(rt; has_message(&rt, fault, wanted), "{wanted}");
    }
}

/// Whether this is the fault of a text of one byte, repeated `count` times.
fn has_fault_of_many(rt: &impl Host, byte: u8, count: usize, wanted: ParseFault) -> bool {
    let text = vec![in rt.alloc(); byte; count].expect(rt, "memory");
    has_fault(rt, &text, wanted)
}

/// Bytes, the number of them that makes a text, and its fault.
const LIMITS: &[(u8, usize, ParseFault)] = &[
    (b' ', 1_048_577, ParseFault::Lex(LexFault::TooLong)),
    (b' ', 1_048_576, ParseFault::Expected(1_048_576, What::Msc)),
    (b'(', 1_048_576, ParseFault::Expected(0, What::Msc)),
];

#[test]
fn texts_at_the_limit(rt: HostRuntime) {
    for &(byte, count, wanted) in LIMITS {
        assert!(rt; has_fault_of_many(&rt, byte, count, wanted), "{count}");
    }
}
