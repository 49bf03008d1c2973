//! Tests of Markdown: which lines are blocks of diagrams, which of these are sequence diagrams, and
//! which of them is imported.

use msc_import::{Importing, Language, Manner, Own, Par, Refused, import};
use msc_markdown::{BlockKind, Markdown, Start};
use msc_mermaid::{Expectation, ImportFault};
use msc_place::Position;
use std::alloc::AllocGlobal;

/// A text; whether it is a diagram as a whole; its blocks of diagrams, with the lines on which they
/// begin; and the numbers of the sequence diagrams among them.
type Held = (
    &'static [u8],
    bool,
    &'static [(usize, BlockKind)],
    &'static [usize],
);

/// Each beginning and each end of blocks, marks before them, and lines that are none of these.
const HELD: &[Held] = &[
    // a diagram, whatever else is in it
    (
        b"%% c\nsequenceDiagram\n```mermaid\nsequenceDiagram\n```\n",
        true,
        &[(2, BlockKind::Stray), (3, BlockKind::Fenced)],
        &[1, 2],
    ),
    // fences of both kinds, longer ones, and one within another
    (
        b"```mermaid\nsequenceDiagram\n```\n~~~~ Mermaid x\n~~~\nsequenceDiagram\n~~~~~ \n````\n```mermaid\nsequenceDiagram\n```\n````\n```mermaid `\n",
        false,
        &[(1, BlockKind::Fenced), (4, BlockKind::Fenced)],
        &[1],
    ),
    // words of languages
    (
        b"``` {mermaid\n```\n```{.mermaid #a}\nSequencediagram\n```\n```mermaids\n```\n```puml\n```\n```PUML\n```\n```mscgen\na\n```\n",
        false,
        &[
            (1, BlockKind::Fenced),
            (3, BlockKind::Fenced),
            (8, BlockKind::Fenced),
            (12, BlockKind::Fenced),
        ],
        &[2],
    ),
    // marks of quotes and list items
    (
        b"> - ```mermaid\n>   sequenceDiagram\n> ```\n1. ~~~mermaid\nsequenceDiagram\n~~~\n1234567890. ```mermaid\n>> ```mermaid\n>> sequenceDiagram\n> ```mermaid\n> pie\n",
        false,
        &[
            (1, BlockKind::Fenced),
            (4, BlockKind::Fenced),
            (8, BlockKind::Fenced),
            (10, BlockKind::Fenced),
        ],
        &[1, 2, 3],
    ),
    // directives
    (
        b":::mermaid\nsequenceDiagram\n::: \n::: MERMAID\n:::mermaid x\n:::x\n",
        false,
        &[(1, BlockKind::Fenced), (4, BlockKind::Fenced)],
        &[1],
    ),
    // options of MyST
    (
        b"```{mermaid}\n:a-b: c\n\n:d:\nsequenceDiagram\n:e:\n```\n```mermaid\n:a: b\nsequenceDiagram\n```\n",
        false,
        &[(1, BlockKind::Fenced), (8, BlockKind::Fenced)],
        &[1],
    ),
    // shortcodes of Hugo
    (
        b"{{< mermaid >}}\nsequenceDiagram\n{{% /mermaid %}}\n{{</mermaid>}}\n{{%mermaid a=1%}}sequenceDiagram{{% / mermaid %}}\n{{% mermaid a/%}}\n{{% mermaid %}}\n{{< mermaids >}}\n{{< /mermaid >}}\n",
        false,
        &[(1, BlockKind::Markup), (5, BlockKind::Markup)],
        &[1, 2],
    ),
    // elements of HTML
    (
        b"<pre class=\"mermaid\">\nsequenceDiagram\n</PRE>\n<DIV id=x\tclass='a Mermaid'>sequenceDiagram</div>\n<div class=mermaid\n>\n<div class=mermaids>\n<div data-class=mermaid>\n<pre class = mermaid>pie</pre>",
        false,
        &[
            (1, BlockKind::Markup),
            (4, BlockKind::Markup),
            (9, BlockKind::Markup),
        ],
        &[1, 2],
    ),
    // lines outside of blocks
    (
        b"sequenceDiagrams\n> sequenceDiagram\n```mermaid\npie\n```\n- sequenceDiagram\n\tsequenceDiagram x\n",
        false,
        &[
            (2, BlockKind::Stray),
            (3, BlockKind::Fenced),
            (7, BlockKind::Stray),
        ],
        &[1, 3],
    ),
    // no block, and a line that begins a diagram
    (b"text\nsequenceDiagram\n```js\n```\n", false, &[], &[]),
    // what precedes a diagram
    (
        b"```mermaid\n---\ntitle: x\n---\n%% c\n%%{init: {}}%%\nsequence\n```\n```mermaid\n---\nsequenceDiagram\n```\n```mermaid\n%%{\nsequence\n```\n```mermaid\n%% %%{\nsequenceDiagram\n```\n```mermaid\n\n```\n",
        false,
        &[
            (1, BlockKind::Fenced),
            (9, BlockKind::Fenced),
            (13, BlockKind::Fenced),
            (17, BlockKind::Fenced),
            (21, BlockKind::Fenced),
        ],
        &[1, 2, 4],
    ),
    // line ends, and a block without end
    (
        b"\xef\xbb\xbfx\r\n```mermaid\rsequenceDiagram\r\n```\r~~~mermaid\r\nflowchart",
        false,
        &[(2, BlockKind::Fenced), (5, BlockKind::Fenced)],
        &[1],
    ),
    // nothing
    (b"", false, &[], &[]),
];

/// Whether blocks begin on these lines, in these forms.
fn start_so(blocks: &[Start], wanted: &[(usize, BlockKind)]) -> bool {
    if blocks.len() != wanted.len() {
        return false;
    }
    for i in 0..blocks.len() {
        let (line, kind) = wanted[i];
        if blocks[i].line != line || blocks[i].kind != kind {
            return false;
        }
    }
    true
}

/// Whether these are the contents that a text should have.
fn is_held(found: &Markdown<'_>, held: &Held) -> bool {
    found.is_diagram() == held.1 && found.numbers() == held.3 && start_so(found.blocks(), held.2)
}

/// Whether a text has the contents that it should.
fn holds(rt: &impl AllocGlobal, held: &Held) -> bool {
    let text: &[u8] = held.0;
    match Markdown::of(rt.alloc(), text) {
        Ok(found) => is_held(&found, held),
        Err(_) => false,
    }
}

#[test]
fn the_blocks_of_markdown(rt: HostRuntime) {
    for held in HELD {
        assert!(rt; holds(&rt, held), "{:?}", held.0);
    }
}

/// Why a text is not imported.
fn fault_of(rt: &impl AllocGlobal, text: &[u8], fence: Option<usize>) -> Option<ImportFault> {
    let importing = Importing {
        language: Language::Any,
        fence,
        cross: None,
        manner: Manner {
            own: Own::Action,
            par: Par::Refused,
        },
        choices: None,
        name: b"t",
    };
    import(rt.alloc(), importing, text)
        .err()
        .map(|refused: Refused| refused.fault)
}

/// A text, the number of a block, and the fault, if there is one.
type Refusing = (&'static [u8], Option<usize>, Option<ImportFault>);

/// The only diagram, one of several, a line outside of blocks, and a block that is none.
const REFUSING: &[Refusing] = &[
    (
        b"# T\n```mermaid\npie\n```\n~~~mermaid\nsequenceDiagram\n~~~\n",
        None,
        None,
    ),
    (
        b"```mermaid\nsequenceDiagram\n```\n~~~mermaid\nsequenceDiagram\n~~~\n",
        None,
        Some(ImportFault::SeveralDiagrams(2)),
    ),
    (
        b"```mermaid\nsequenceDiagram\n```\n~~~mermaid\nsequenceDiagram\n~~~\n",
        Some(2),
        None,
    ),
    (
        b"```mermaid\npie\n```\n\n> sequenceDiagram\n",
        None,
        Some(ImportFault::Stray(Position { line: 5, column: 3 })),
    ),
    (
        b"> ```mermaid\n> sequenceDiagram\n> > A->>B: x\n> ```\n",
        None,
        Some(ImportFault::Expected(Position { line: 3, column: 3 }, Expectation::Name)),
    ),
    (
        b"> ```mermaid\n> sequenceDiagram\n>> A->>B: x\n> opt\n",
        Some(1),
        Some(ImportFault::Expected(Position { line: 3, column: 2 }, Expectation::Name)),
    ),
    (
        b"```mermaid\npie\n```\n",
        Some(1),
        Some(ImportFault::Expected(Position { line: 2, column: 1 }, Expectation::AnyDiagram)),
    ),
    (
        b"```mermaid\n---\nsequenceDiagram\n```\n",
        None,
        Some(ImportFault::Expected(Position { line: 5, column: 1 }, Expectation::Front)),
    ),
    // entities of HTML, if a browser reads them first
    (
        b"<pre class=mermaid>\nsequenceDiagram\n%% &lt;\nA-&gt;&#62;B: x\n</pre>\n",
        None,
        Some(ImportFault::Entity(Position { line: 4, column: 3 })),
    ),
    (
        b"{{< mermaid >}}sequenceDiagram\nA->>B: x;=y &#62;\n{{< /mermaid >}}\n",
        None,
        Some(ImportFault::Entity(Position {
            line: 2,
            column: 13,
        })),
    ),
    (
        b"```mermaid\nsequenceDiagram\nA->>B: &lt;\n```\n",
        None,
        None,
    ),
    (
        b"<div class=mermaid>sequenceDiagram\nA->>B: &lt &# &; x\n</div>\n",
        None,
        None,
    ),
];

#[test]
fn the_diagram_that_is_imported(rt: HostRuntime) {
    for &(text, fence, wanted) in REFUSING {
        assert!(rt; fault_of(&rt, text, fence) == wanted, "{text:?} {fence:?}");
    }
}
