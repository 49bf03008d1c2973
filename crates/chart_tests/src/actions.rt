//! Actions: their texts, and their printed forms.

use crate::drafts::{draft_of, is_written_as};
use crate::host::Host;
use msc_lexer::{Kind, lex, text_bytes};
use msc_parser::{Draft, Item, Statement};

/// Charts with actions, and their canonical texts.
const CHARTS: &[(&[u8], &[u8])] = &[
    (
        b"msc t; instance a; action 'go'; endinstance; endmsc;",
        b"msc t;\ninstance a;\n  action 'go';\nendinstance;\nendmsc;\n",
    ),
    (
        b"msc t; instance a; concurrent; Action '' comment 'c'; out m to b; endconcurrent; \
endinstance; endmsc;",
        b"msc t;\ninstance a;\n  concurrent;\n    action '';\n    out m to b;\n  endconcurrent;\n\
endinstance;\nendmsc;\n",
    ),
    (
        b"msc t; instance a; action 'it''s' comment 'it''s'; action ''''''; endinstance; endmsc;",
        b"msc t;\ninstance a;\n  action 'it''s';\n  action '''''';\nendinstance;\nendmsc;\n",
    ),
    (
        b"msc t; instance a; action '/*;\n\xff\x00 */' /* '' */; endinstance; endmsc;",
        b"msc t;\ninstance a;\n  action '/*;\n\xff\x00 */';\nendinstance;\nendmsc;\n",
    ),
];

/// Whether the first token of a text is a text that holds `wanted`.
fn holds(rt: &impl Host, text: &[u8], wanted: &[u8]) -> bool {
    let Ok(tokens) = lex(rt.alloc(), text) else {
        return false;
    };
    match tokens.first() {
        Some(token) if token.kind == Kind::Text => {
            text_bytes(rt.alloc(), text, token)
                .expect(rt, "memory")
                .as_slice()
                == wanted
        }
        _ => false,
    }
}

/// Whether the first section of a draft is one action with this text.
fn is_action(draft: &Draft, text: &[u8]) -> bool {
    let [section, ..] = draft.sections() else {
        return false;
    };
    match section.items.as_slice() {
        [Item::Single(Statement::Action(label))] => label.as_slice() == text,
        _ => false,
    }
}

#[test]
fn actions_are_written_and_read_again(rt: HostRuntime) {
    for &(text, wanted) in CHARTS {
        assert!(rt; is_written_as(&rt, text, wanted), "{text:?}");
    }
}

/// Texts in apostrophes, and the bytes that they hold.
const HELD: &[(&[u8], &[u8])] = &[(b"'it''s'", b"it's"), (b"''", b""), (b"'''''a'", b"''a")];

#[test]
fn what_a_text_holds(rt: HostRuntime) {
    for &(text, wanted) in HELD {
        assert!(rt; holds(&rt, text, wanted), "{text:?}");
    }
}

/// Whether the first section of a text's draft is one action with this text.
fn has_action(rt: &impl Host, text: &[u8], wanted: &[u8]) -> bool {
    is_action(&draft_of(rt, text), wanted)
}

/// A text with an action that has an apostrophe, and a comment.
const COMMENTED: &[u8] = b"msc t; instance a; action 'it''s' comment 'no'; endinstance; endmsc;";

#[test]
fn the_text_of_an_action(rt: HostRuntime) {
    assert!(rt; has_action(&rt, COMMENTED, b"it's"));
}
