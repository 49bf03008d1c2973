//! Tokens and lexical faults.

use crate::host::Host;
use msc_lexer::{Kind, LexFault, Token, Word, lex};

/// A list of tokens, each with its first place and the place past its last.
macro_rules! tokens {
    ($(($kind:expr, $start:expr, $end:expr)),*) => {
        &[$(Token { kind: $kind, start: $start, end: $end }),*]
    };
}

/// Whether a text has exactly these tokens.
fn has_tokens(rt: &impl Host, text: &[u8], wanted: &[Token]) -> bool {
    match lex(rt.alloc(), text) {
        Ok(tokens) => tokens.as_slice() == wanted,
        Err(_) => false,
    }
}

/// Texts and their tokens.
const TOKENS: &[(&[u8], &[Token])] = &[
    (
        b"in /**/ x1;",
        tokens![
            (Kind::Word(Word::Input), 0, 2),
            (Kind::Name, 8, 10),
            (Kind::Semicolon, 10, 11)
        ],
    ),
    (
        b":,()'it''s';",
        tokens![
            (Kind::Colon, 0, 1),
            (Kind::Comma, 1, 2),
            (Kind::LeftParen, 2, 3),
            (Kind::RightParen, 3, 4),
            (Kind::Text, 4, 11),
            (Kind::Semicolon, 11, 12)
        ],
    ),
    (&[b'a'; 64], tokens![(Kind::Name, 0, 64)]),
];

#[test]
fn a_word_a_name_and_a_mark(rt: HostRuntime) {
    for &(text, wanted) in TOKENS {
        assert!(rt; has_tokens(&rt, text, wanted), "{text:?}");
    }
}

/// The reserved words, in capital and small letters.
const WORDS: &[u8] = b"MSC endmsc Inst instance ENDinstance in from OUT to concurrent \
endConcurrent comment env action condition set reset timeout create STOP";

/// Their tokens.
const WORD_TOKENS: &[Token] = tokens![
    (Kind::Word(Word::Msc), 0, 3),
    (Kind::Word(Word::EndMsc), 4, 10),
    (Kind::Word(Word::Inst), 11, 15),
    (Kind::Word(Word::Instance), 16, 24),
    (Kind::Word(Word::EndInstance), 25, 36),
    (Kind::Word(Word::Input), 37, 39),
    (Kind::Word(Word::From), 40, 44),
    (Kind::Word(Word::Output), 45, 48),
    (Kind::Word(Word::To), 49, 51),
    (Kind::Word(Word::Concurrent), 52, 62),
    (Kind::Word(Word::EndConcurrent), 63, 76),
    (Kind::Word(Word::Comment), 77, 84),
    (Kind::Word(Word::Env), 85, 88),
    (Kind::Word(Word::Action), 89, 95),
    (Kind::Word(Word::Condition), 96, 105),
    (Kind::Word(Word::Set), 106, 109),
    (Kind::Word(Word::Reset), 110, 115),
    (Kind::Word(Word::Timeout), 116, 123),
    (Kind::Word(Word::Create), 124, 130),
    (Kind::Word(Word::Stop), 131, 135)
];

#[test]
fn each_reserved_word_in_any_case(rt: HostRuntime) {
    assert!(rt; has_tokens(&rt, WORDS, WORD_TOKENS));
}

/// Texts, and their first lexical faults.
const FAULTS: &[(&[u8], LexFault)] = &[
    (b"a.", LexFault::BadByte(1)),
    (b"a/b", LexFault::BadByte(1)),
    (b"/*/", LexFault::OpenNote(0)),
    (b"/* /* */ */", LexFault::BadByte(9)),
    (b"'it''", LexFault::OpenText(0)),
    (b"a 'b' 'c", LexFault::OpenText(6)),
    (b"a /* b", LexFault::OpenNote(2)),
    (b"a. /*", LexFault::BadByte(1)),
    (&[b'a'; 65], LexFault::LongName(0)),
];

/// Whether this is the first lexical fault of a text.
fn has_fault(rt: &impl Host, text: &[u8], wanted: LexFault) -> bool {
    lex(rt.alloc(), text).err() == Some(wanted)
}

#[test]
fn lexical_faults(rt: HostRuntime) {
    for &(text, wanted) in FAULTS {
        assert!(rt; has_fault(&rt, text, wanted), "{text:?}");
    }
}
