//! The whole grammar: drafts of kinds, message instance names, parameters and coregions, and a
//! refused text for each place.

use crate::drafts::{canonical, draft_of};
use crate::faults::{fault, has_fault};
use crate::host::Host;
use example_charts::KINDS_AND_COMMENTS;
use msc_lexer::LexFault;
use msc_parser::{Draft, Item, Name, ParseFault, Signal, Statement, What};

/// Whether these are the two names.
fn are_names(names: &[Name], first: &[u8], second: &[u8]) -> bool {
    match names {
        [one, other] => one.as_slice() == first && other.as_slice() == second,
        _ => false,
    }
}

/// Whether an event has the message instance name `1` and the parameters `x` and `y`.
fn has_number_and_parameters(signal: &Signal) -> bool {
    match &signal.number {
        Some(number) => {
            number.as_slice() == b"1".as_slice()
                && are_names(signal.parameters.as_slice(), b"x", b"y")
        }
        None => false,
    }
}

/// Whether a draft is the draft of `KINDS_AND_COMMENTS`, up to the only event of its first section.
fn has_kinds_numbers_and_parameters(draft: &Draft) -> bool {
    let [a, _b] = draft.sections() else {
        return false;
    };
    if draft.header().len() != 2 || !are_names(a.decl.kind.as_slice(), b"process", b"p") {
        return false;
    }
    match a.items.as_slice() {
        [Item::Single(Statement::Message(signal))] => has_number_and_parameters(signal),
        _ => false,
    }
}

/// Whether the first section of a draft is a coregion of no events and one of two.
fn has_coregions(draft: &Draft) -> bool {
    let [section, ..] = draft.sections() else {
        return false;
    };
    match section.items.as_slice() {
        [Item::Coregion(none), Item::Coregion(two)] => {
            none.as_slice().is_empty() && two.as_slice().len() == 2
        }
        _ => false,
    }
}

/// A text with a coregion of no events and one of two.
const COREGIONS: &[u8] = b"msc t; instance a; concurrent comment 'c'; endconcurrent; \
concurrent; in m() from b; out n to b; endconcurrent; endinstance; endmsc;";

#[test]
fn kinds_numbers_parameters_and_coregions(rt: HostRuntime) {
    assert!(rt; has_kinds_numbers_and_parameters(&draft_of(&rt, KINDS_AND_COMMENTS)));
    assert!(rt; has_coregions(&draft_of(&rt, COREGIONS)));
}

/// Texts without a draft, the place of the first token that is not expected, and the expected part.
const PLACES: &[(&[u8], usize, What)] = &[
    (b"x", 0, What::Msc),
    (b"msc ;", 4, What::Name),
    (b"msc t; inst ;", 12, What::Name),
    (b"msc t; instance ;", 16, What::Name),
    (b"msc t; instance a; out ;", 23, What::Name),
    (b"msc t; instance a; in ;", 22, What::Name),
    (b"msc t; instance a; out m to ;", 28, What::Name),
    (b"msc t; instance a; in m from ;", 29, What::Name),
    (b"msc t; instance a : ;", 20, What::Name),
    (b"msc t; inst a, ;", 15, What::Name),
    (b"msc t; instance a; out m, ;", 26, What::Name),
    (b"msc t; instance a; out m(x, ;", 28, What::Name),
    (b"msc t comment ;", 14, What::Text),
    (b"msc t; instance a; action x;", 26, What::Text),
    (b"msc t; instance a; action 'x' x", 30, What::End),
    (b"msc t; instance a; out action", 23, What::Name),
    (b"msc t x", 6, What::End),
    (b"msc t; instance a; out m to b x", 30, What::End),
    (b"msc t; endmsc x", 14, What::End),
    (b"msc t; instance a; endinstance x", 31, What::End),
    (b"msc t; instance a; concurrent x", 30, What::End),
    (
        b"msc t; instance a; concurrent; endconcurrent x",
        45,
        What::End,
    ),
    (b"msc t comment 'c' x", 18, What::End),
    (b"msc t; inst a b;", 14, What::End),
    (b"msc t; inst a : p (", 18, What::End),
    (b"msc t; inst a : p q r", 20, What::End),
    (b"msc t; instance a, b;", 17, What::End),
    (b"msc t; instance a : p, q", 21, What::End),
    (b"msc t; instance a : p q r", 24, What::End),
    (b"msc t; out m to b;", 7, What::Section),
    (b"msc t; action 'x';", 7, What::Section),
    (b"msc t; inst a; x", 15, What::Section),
    (
        b"msc t; instance a; endinstance; inst b;",
        32,
        What::Section,
    ),
    (b"msc t; instance a; endmsc;", 19, What::Item),
    (
        b"msc t; instance a; concurrent; concurrent;",
        31,
        What::Event,
    ),
    (
        b"msc t; instance a; concurrent; endinstance;",
        31,
        What::Event,
    ),
    (b"msc t; instance a; out m from b", 25, What::To),
    (b"msc t; instance a; out m, 1, 2", 27, What::To),
    (b"msc t; instance a; out m() (", 27, What::To),
    (b"msc t; instance a; in m to b", 24, What::From),
    (b"msc t; instance a; in m, 1 to b", 27, What::From),
    (b"msc t; instance a; in m() to b", 26, What::From),
    (b"msc t; instance a; out m(;", 25, What::Parameter),
    (b"msc t; instance a; out m(x y", 27, What::Parameter),
    (b"msc t; endmsc; msc", 15, What::Nothing),
];

#[test]
fn a_refused_text_for_each_place(rt: HostRuntime) {
    for &(text, at, what) in PLACES {
        let is = has_fault(&rt, text, ParseFault::Expected(at, what));
        assert!(rt; is, "{text:?}");
    }
}

/// The fault of the first `length` bytes of `KINDS_AND_COMMENTS`.
fn fault_of_beginning(rt: &impl Host, length: usize) -> Option<ParseFault> {
    fault(rt, KINDS_AND_COMMENTS.get(..length).unwrap_or(b""))
}

/// Numbers of bytes, and the faults of the first bytes, this many of them.
const CUT: &[(usize, ParseFault)] = &[
    (50, ParseFault::Lex(LexFault::OpenText(49))),
    (51, ParseFault::Lex(LexFault::OpenText(49))),
    (52, ParseFault::Lex(LexFault::OpenText(49))),
    (53, ParseFault::Expected(53, What::End)),
    (54, ParseFault::Lex(LexFault::OpenText(49))),
    (55, ParseFault::Lex(LexFault::OpenText(49))),
    (56, ParseFault::Expected(56, What::End)),
    (57, ParseFault::Expected(57, What::Item)),
    (58, ParseFault::Expected(58, What::Item)),
    (59, ParseFault::Lex(LexFault::BadByte(58))),
    (60, ParseFault::Lex(LexFault::OpenNote(58))),
    (67, ParseFault::Lex(LexFault::OpenNote(58))),
    (68, ParseFault::Expected(68, What::Item)),
];

#[test]
fn a_text_that_is_cut(rt: HostRuntime) {
    for &(length, wanted) in CUT {
        let is = fault_of_beginning(&rt, length) == Some(wanted);
        assert!(rt; is, "{length}");
    }
}

/// Whether the first bytes are refused, and not as unsupported.
fn is_refused_beginning(rt: &impl Host, length: usize) -> bool {
    match fault_of_beginning(rt, length) {
        Some(ParseFault::Lex(_) | ParseFault::Expected(_, _)) => true,
        _ => false,
    }
}

#[test]
fn every_beginning_is_refused_and_none_as_unsupported(rt: HostRuntime) {
    for length in 0..KINDS_AND_COMMENTS.len() {
        assert!(rt; is_refused_beginning(&rt, length), "{length}");
    }
}

/// A text of forty thousand empty coregions.
fn empty_coregions(rt: &impl Host) -> Vec<u8> {
    let mut text = Vec::new(rt.alloc());
    text.extend_from_slice(b"msc t;instance a;")
        .expect(rt, "memory");
    for _ in 0..40_000 {
        text.extend_from_slice(b"concurrent;endconcurrent;")
            .expect(rt, "memory");
    }
    text.extend_from_slice(b"endinstance;endmsc;")
        .expect(rt, "memory");
    text
}

/// The lengths of that text and of its canonical text, and the fault of the latter.
fn of_empty_coregions(rt: &impl Host) -> (usize, usize, Option<ParseFault>) {
    let text = empty_coregions(rt);
    let written = canonical(rt, &text);
    (text.len(), written.len(), fault(rt, &written))
}

#[test]
fn forty_thousand_empty_coregions(rt: HostRuntime) {
    let too_long = Some(ParseFault::Lex(LexFault::TooLong));
    let wanted = (1_000_036, 1_240_040, too_long);
    assert!(rt; of_empty_coregions(&rt) == wanted);
}
