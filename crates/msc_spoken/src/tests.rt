//! Tables of texts, and what is shown of them.

use crate::{columns, cut, shown, spoken, spoken_name};

/// Texts, and what is shown of them.
const SHOWN: &[(&[u8], &str)] = &[
    (b"\tG-)Q: queue\r", " G-)Q: queue?"),
    (b"Z\xC3\xA4hler", "Z\u{E4}hler"),
    (b"a\xFFb\x80", "a?b?"),
    (b"\xE2\x82", "??"),
    (b"\xE2\x82z", "??z"),
    (b"\xC0\xAF", "??"),
    (b"\xE0\x80\xAF", "???"),
    (b"\xED\xA0\x80", "???"),
    (b"\xF4\x90\x80\x80", "????"),
    (
        b"\xE2\x80\xAEevil\xE2\x80\xAC\xE2\x80\x8B label \x7F",
        "?evil?? label ?",
    ),
    (
        b"\xF0\x9F\x91\xA8\xE2\x80\x8D\xF0\x9F\x92\xBB",
        "\u{1F468}\u{1F4BB}",
    ),
    (b"\xE1\x85\x9F\xE3\x85\xA4\xEE\x80\x80\xE2\x80\xA8", "????"),
    (b"e\xCC\x81\xC2\xA0\xE2\x88\x9E", "e\u{301}\u{A0}\u{221E}"),
];

#[test]
fn texts_are_shown(rt: HostRuntime) {
    for (text, wanted) in SHOWN {
        let found = shown(rt.alloc(), text).expect(&rt, "memory for a text");
        assert_eq!(rt; found.as_str(), *wanted, "{text:?}");
    }
}

/// Names and labels, and how people read them.
const SPOKEN: &[(&[u8], &str)] = &[
    (b"Store#59; EU", "Store; EU"),
    (b"put #quot;42#quot;", "put \"42\""),
    (
        b"list #lt;all#gt; #infin;#1114112; #copy; #55296;",
        "list <all> \u{221E}#1114112; #copy; #55296;",
    ),
    (
        b"up to #35;5#59; then\xE2\x80\x8C stop",
        "up to #5; then stop",
    ),
    (b"b#nbsp;#nbsp;c #9; d#0;", "b\u{A0}\u{A0}c d?"),
    (b"#0000065;#00000065;#;#65", "A#00000065;#;#65"),
    (b"#8238;x", "?x"),
    (b" <b>deployed</b>  it<br/>\tall ", "deployed it all"),
    (b"<BR >a\\nb</Font color=\"red\"><bx>", "a b <bx>"),
    (b"a\\b\\r", "a\\b"),
];

#[test]
fn labels_are_spoken(rt: HostRuntime) {
    for (label, wanted) in SPOKEN {
        let found = spoken(rt.alloc(), label).expect(&rt, "memory for a label");
        assert_eq!(rt; found.as_str(), *wanted, "{label:?}");
    }
}

#[test]
fn names_lose_their_quotes(rt: HostRuntime) {
    let table: [(&[u8], &str); 4] = [
        (b"\"Checkout #amp; Pay\"", "Checkout & Pay"),
        (b"\"\"", "\"\""),
        (b"\"", "\""),
        (b"\"\"\"", "\""),
    ];
    for (name, wanted) in table {
        let found = spoken_name(rt.alloc(), name).expect(&rt, "memory for a name");
        assert_eq!(rt; found.as_str(), wanted, "{name:?}");
    }
}

/// Texts with the columns that they take, and what is left of them.
const CUT: &[(&str, usize, &str)] = &[
    ("\u{7528}\u{6237}", 4, "\u{7528}\u{6237}"),
    (
        "0123456789012345678901234567890123456789",
        40,
        "0123456789012345678901234567890123456789",
    ),
    (
        "01234567890123456789012345678901234567890",
        41,
        "0123456789012345678901234567890123456789...",
    ),
    (
        "The client application that runs in the browser of whoever is there",
        67,
        "The client application that runs in the...",
    ),
    (
        "012345678901234567890123456789012345678\u{7528}",
        41,
        "012345678901234567890123456789012345678...",
    ),
    (
        "012345678901234567890123456789012345678e\u{301}\u{7528}",
        42,
        "012345678901234567890123456789012345678e\u{301}...",
    ),
];

#[test]
fn texts_are_cut(rt: HostRuntime) {
    for (text, width, wanted) in CUT {
        assert_eq!(rt; columns(text), *width, "{text:?}");
        let found = cut(rt.alloc(), text).expect(&rt, "memory for a text");
        assert_eq!(rt; found.as_str(), *wanted, "{text:?}");
    }
}
