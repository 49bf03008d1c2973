//! Drafts: their parts, and the canonical text.

use crate::host::Host;
use example_charts::ONE_MESSAGE;
use msc_parser::{Direction, Draft, Item, Section, Signal, Statement, parse};

/// Whether an event is this one of message `m`, with no message instance name and no parameters.
fn is_plain(signal: &Signal, direction: Direction, address: &[u8]) -> bool {
    signal.direction == direction
        && signal.name.as_slice() == b"m".as_slice()
        && signal.number.is_none()
        && signal.parameters.as_slice().is_empty()
        && signal.address.as_slice() == address
}

/// Whether a section belongs to this instance, which has no kind, and has one event, of message
/// `m`.
fn is_of(section: &Section, name: &[u8], direction: Direction, address: &[u8]) -> bool {
    if section.decl.name.as_slice() != name || !section.decl.kind.as_slice().is_empty() {
        return false;
    }
    match section.items.as_slice() {
        [Item::Single(Statement::Message(signal))] => is_plain(signal, direction, address),
        _ => false,
    }
}

/// Whether a draft is the draft of `ONE_MESSAGE`.
fn is_one_message(draft: &Draft) -> bool {
    if draft.name() != b"t".as_slice() || !draft.header().is_empty() {
        return false;
    }
    match draft.sections() {
        [a, b] => is_of(a, b"a", Direction::Output, b"b") && is_of(b, b"b", Direction::Input, b"a"),
        _ => false,
    }
}

/// The draft of a text that has one.
pub fn draft_of(rt: &impl Host, text: &[u8]) -> Draft {
    parse(rt.alloc(), text).expect(rt, "a draft")
}

/// The canonical text of a text's draft.
pub fn canonical(rt: &impl Host, text: &[u8]) -> Vec<u8> {
    let draft = draft_of(rt, text);
    draft.write(rt.alloc()).expect(rt, "memory")
}

#[test]
fn the_parts_of_one_message(rt: HostRuntime) {
    assert!(rt; is_one_message(&draft_of(&rt, ONE_MESSAGE)));
}

/// Whether the canonical text of a text is `wanted`, and that of `wanted` is `wanted`.
pub fn is_written_as(rt: &impl Host, text: &[u8], wanted: &[u8]) -> bool {
    let first = canonical(rt, text);
    let again = canonical(rt, wanted);
    first.as_slice() == wanted && again.as_slice() == wanted
}

/// A text; its header has the names of all `inst` statements.
const TEXT: &[u8] = b"MSC t; inst a,b; /* a note */ inst a; instance a; out m to b;\t\
endinstance; EndMsc;";

/// Its canonical text.
const CANONICAL: &[u8] = b"msc t;\ninst a, b, a;\ninstance a;\n  out m to b;\nendinstance;\n\
endmsc;\n";

#[test]
fn a_written_draft_is_read_again(rt: HostRuntime) {
    assert!(rt; is_written_as(&rt, TEXT, CANONICAL));
}

/// The canonical text with a comment, in which an apostrophe is doubled.
const COMMENTED: &[u8] = b"msc t comment 'queues pair; it''s';\ninst a, b, a;\n\
instance a;\n  out m to b;\nendinstance;\nendmsc;\n";

/// The canonical text of `TEXT` with a comment.
fn commented(rt: &impl Host) -> Vec<u8> {
    let draft = draft_of(rt, TEXT);
    let comment: &[u8] = b"queues pair; it's";
    draft
        .write_with(rt.alloc(), Some(comment))
        .expect(rt, "memory")
}

#[test]
fn a_draft_with_a_comment_is_read_again(rt: HostRuntime) {
    let written = commented(&rt);
    assert!(rt; written.as_slice() == COMMENTED);
    assert!(rt; canonical(&rt, COMMENTED).as_slice() == CANONICAL);
}
