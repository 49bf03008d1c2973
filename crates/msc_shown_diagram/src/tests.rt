//! Diagrams, what their lines, arrows and choices are called, and the loops around their statements.
//! The names and words are those of the second reader of Mermaid in `tools/naive`.

use crate::{DiagramWords, choices_said};
use msc_mermaid::{Diagram, Placed, Span, Statement, diagram_of};
use std::alloc::{AllocError, AllocGlobal, Global};

/// Names and labels of wide characters.
const CHINESE: &str = "sequenceDiagram
    participant 用户
    participant 网关 as API 网关
    用户->>网关: 提交订单
    网关-->>用户: 已受理
";

/// Entities, quotation marks, and characters that only join others.
const ENTITIES: &str = "sequenceDiagram
    participant C as \"Checkout #amp; Pay\"
    participant D as 👨\u{200d}💻 Developer
    participant S as Store#59; EU
    participant Q as \"\"
    C->>S: put #quot;42#quot;
    D->>S: list #lt;all#gt; #infin;#1114112; #copy; #55296;
    S->>C: stored \"42\" #8805; 1
    %% race ok with \"stored #quot;42#quot; #8805; 1\": it's meant
    Q->>C: 👨\u{200d}💻 up to #35;5#59; then\u{200c} stop
    Q->>D: a
    C->>Q: b#nbsp;#nbsp;c #9; d#0;
";

/// Names and labels of which nothing is left.
const EMPTY: &str = "sequenceDiagram
    participant A as <br/>
    A->>C:
    B->>C: <b></b>
    C->>C:
    B->>C: last
";

/// Two lines with one shown name.
const SAME: &str = "sequenceDiagram
    participant A as Worker
    participant B as Worker
    participant C as Store
    A->>C: put
    B->>C: put
    C-->>A: ok
    C-->>B: ok
    par first
        A->>C: get
    and second
        B->>C: get
    end
    loop until done
        A->>A: think
        C-)A: tick
    end
";

/// A loop with choices in it, and a break.
const RETRIES: &str = "sequenceDiagram
    autonumber
    participant S as Scheduler
    participant W as Worker
    participant D as Database
    loop every job
        S-)W: run job
        W->>D: insert row
        D-->>W: inserted
        opt slow
            S-)W: are you alive?
            W--)S: yes
        end
        alt it worked
            W--)S: done
        else it failed
            W--)S: failed
        end
    end
    break shutdown
        S-)W: stop
    end
    S->>D: vacuum
";

/// Options, a branch without a label, crosses, and a long label.
const FATES: &str = "sequenceDiagram
  critical reach the server
    A->>B: connect
  option <br/>
    A->>A: log
  option \"no\" route
    A-xB: retry
  end
  alt
    A-xB:
  end
  opt #quot;maybe#quot; a label of more than forty columns
    B->>A: 确认
  end
";

/// Diagrams, what their lines are called, and what their arrows are called.
const NAMED: [(&str, &[&str], &[&str]); 4] = [
    (CHINESE, &["用户", "API 网关"], &["\"提交订单\"", "\"已受理\""]),
    (
        ENTITIES,
        &["Checkout & Pay", "👨💻 Developer", "Store; EU", "\"\""],
        &[
            "'put \"42\"'",
            "\"list <all> ∞#1114112; #copy; #55296;\"",
            "'stored \"42\" ≥ 1'",
            "\"👨💻 up to #5; then stop\"",
            "\"a\"",
            "\"b\u{a0}\u{a0}c d?\"",
        ],
    ),
    (
        EMPTY,
        &["A", "C", "B"],
        &[
            "the message of line 3",
            "the message of line 4",
            "the step of line 5",
            "\"last\"",
        ],
    ),
    (
        SAME,
        &["Worker (A)", "Worker (B)", "Store"],
        &[
            "\"put\"",
            "\"put\"",
            "\"ok\"",
            "\"ok\"",
            "\"get\"",
            "\"get\"",
            "\"think\"",
            "\"tick\"",
        ],
    ),
];

/// The place of the first shown name of a line.
fn shown_at(line: &[u8], statements: &[Placed]) -> Option<Span> {
    for placed in statements {
        if let Statement::Declares(ident, Some(_)) = &placed.statement {
            if ident.as_slice() == line {
                return Some(placed.shown);
            }
        }
    }
    None
}

/// The words of a diagram.
fn words_of(alloc: Global, diagram: &Diagram, text: &str) -> Result<DiagramWords, AllocError> {
    let mut shown = Vec::new(alloc);
    for line in diagram.lines.as_slice() {
        shown.push(shown_at(line.as_slice(), diagram.statements.as_slice()))?;
    }
    DiagramWords::of(alloc, diagram, shown.as_slice(), b"t.mmd", text.as_bytes())
}

/// What the arrows of a diagram are called.
fn messages<'w>(
    alloc: Global,
    diagram: &Diagram,
    words: &'w DiagramWords,
) -> Result<Vec<&'w str>, AllocError> {
    let mut messages = Vec::new(alloc);
    for (placed, arrow) in diagram
        .statements
        .as_slice()
        .iter()
        .zip(words.arrows.iter())
    {
        if let Statement::Says(_) = placed.statement {
            messages.push(arrow.event.message.as_str())?;
        }
    }
    Ok(messages)
}

#[test]
fn lines_and_arrows_are_named(rt: HostRuntime) {
    for (text, names, labels) in &NAMED {
        let diagram = diagram_of(rt.alloc(), None, text.as_bytes()).expect(&rt, "a diagram");
        let words = words_of(rt.alloc(), &diagram, text).expect(&rt, "memory");
        assert_eq!(rt; words.names.len(), names.len());
        for (name, wanted) in words.names.iter().zip(names.iter()) {
            assert_eq!(rt; name.as_str(), *wanted);
        }
        let messages = messages(rt.alloc(), &diagram, &words).expect(&rt, "memory");
        assert_eq!(rt; messages.as_slice(), *labels);
    }
}

#[test]
fn statements_stand_there(rt: HostRuntime) {
    let diagram = diagram_of(rt.alloc(), None, EMPTY.as_bytes()).expect(&rt, "a diagram");
    let words = words_of(rt.alloc(), &diagram, EMPTY).expect(&rt, "memory");
    let Some(arrow) = words.arrows.get(1) else {
        assert!(rt; false, "a second statement");
        return;
    };
    assert_eq!(rt; arrow.event.place.as_str(), "t.mmd:3:5");
    assert_eq!(rt; (arrow.event.first, arrow.event.past), (47, 53));
    assert_eq!(rt; (arrow.event.line, arrow.to, arrow.loses), (3, 1, true));
}

/// Loops in loops, and other blocks.
const LOOPS: &str =
    "sequenceDiagram\nloop a\nopt b\nloop c\nA->>B: one\nend\nend\nA->>B: two\nend\nA->>B: three\n";

/// The loops around each of its statements.
const AROUND: [&[usize]; 9] = [&[], &[0], &[0], &[0, 2], &[0, 2], &[0], &[0], &[0], &[]];

#[test]
fn loops_are_around_statements(rt: HostRuntime) {
    let diagram = diagram_of(rt.alloc(), None, LOOPS.as_bytes()).expect(&rt, "a diagram");
    let words = words_of(rt.alloc(), &diagram, LOOPS).expect(&rt, "memory");
    assert_eq!(rt; words.loops.len(), AROUND.len());
    for (loops, wanted) in words.loops.iter().zip(AROUND.iter()) {
        assert_eq!(rt; loops.as_slice(), *wanted);
    }
}

/// Diagrams, choices, and these choices in words.
const CHOSEN: [(&str, &[usize], &str); 6] = [
    (
        RETRIES,
        &[2, 0, 0, 1, 0, 0],
        "loop \"every job\" (line 6) twice, opt \"slow\" (line 10) skipped, alt \"it worked\" (line 14), opt \"slow\" (line 10) taken, alt \"it worked\" (line 14), break \"shutdown\" (line 20) skipped",
    ),
    (
        RETRIES,
        &[4, 0, 1, 0, 0, 0, 0, 0, 0, 1],
        "loop \"every job\" (line 6) 4 times, opt \"slow\" (line 10) skipped, else \"it failed\" (line 16), opt \"slow\" (line 10) skipped, alt \"it worked\" (line 14), opt \"slow\" (line 10) skipped, alt \"it worked\" (line 14), opt \"slow\" (line 10) skipped, and 2 more choices",
    ),
    (
        FATES,
        &[0, 1, 0, 1],
        "critical \"reach the server\" (line 2) without an option, alt (line 9) taken, the message of line 10 is lost, opt '\"maybe\" a label of more than forty colum...' (line 12) taken",
    ),
    (
        FATES,
        &[1, 0, 0],
        "option (line 4), alt (line 9) skipped, opt '\"maybe\" a label of more than forty colum...' (line 12) skipped",
    ),
    (
        FATES,
        &[2, 1, 1, 1, 1],
        "option '\"no\" route' (line 6), \"retry\" (line 7) arrives, alt (line 9) taken, the message of line 10 arrives, opt '\"maybe\" a label of more than forty colum...' (line 12) taken",
    ),
    (EMPTY, &[], ""),
];

#[test]
fn choices_are_said(rt: HostRuntime) {
    for (text, choices, wanted) in &CHOSEN {
        let diagram = diagram_of(rt.alloc(), None, text.as_bytes()).expect(&rt, "a diagram");
        let said = choices_said(rt.alloc(), &diagram, text.as_bytes(), choices);
        let said = said.expect(&rt, "memory");
        assert_eq!(rt; said.as_str(), *wanted, "{choices:?}");
    }
}
