//! The parts of a report's page that do not depend on its chart: the style sheet, the head of an
//! arrow, and the advice on a race.

ghost use Rattle.std.specs.Prelude.{◌≡◌, ◌++◌, OnOk, codes};
ghost use Rattle.msc_html.specs.Front.{advice_nodes, diagram_advice, head_node, head_with};
ghost use Rattle.msc_html.specs.Front.{sheet, store_node, wide_sheet};
ghost use Rattle.msc_tree.specs.Shapes.{plain};
ghost use Rattle.msc_tree.specs.Trees.{line_text, lines_text};

use msc_tree::put_plain;
use std::alloc::{AllocError, Global};

/// The style sheet of a report.
const SHEET: &[u8] =
    b":root{--ink:#111;--soft:#444;--faint:#555;--paper:#fff;--race:#b80f2a;--count:#fff;\
--page:#f5f5f2;--edge:#999;--pass:#17652f}\
body{margin:0;background:var(--page);color:var(--ink);font:16px/1.5 system-ui,\
sans-serif;overflow-wrap:anywhere}\
main{max-width:62rem;margin:0 auto;padding:1rem}h1{margin:1rem 0 0;font-size:1.8rem}\
h2{margin:2.5rem 0 .5rem;font-size:1.3rem}h3{margin:0;font-size:1.05rem}\
p,li{max-width:44rem}.soft,figcaption,footer{color:var(--soft)}\
.verdict{font-size:1.2rem;font-weight:bold;color:var(--race)}\
.pass{color:var(--pass)}article{margin:1rem 0;padding:1rem;background:var(--paper);\
border:1px solid var(--edge);border-left:5px solid var(--race);border-radius:4px}\
b{padding:0 .5em;border-radius:1em;background:var(--race);color:var(--count)}\
code,pre{font:.9em ui-monospace,Menlo,Consolas,DejaVu Sans Mono,monospace}\
pre,figure{margin:.5rem 0;padding:.5rem;background:var(--paper);border:1px solid \
var(--edge);border-radius:4px;overflow-x:auto}\
article figure{border:0;padding:0}svg{display:block;margin:auto}\
.store{position:absolute}summary{cursor:pointer}footer{margin:2rem 0}\
text{font:12px ui-monospace,Menlo,Consolas,DejaVu Sans Mono,monospace;\
text-anchor:middle;fill:var(--ink)}\
.right{text-anchor:start}.left{text-anchor:end}.name{font-weight:bold}\
.kind{fill:var(--soft)}.number{font-size:10px;fill:var(--faint)}\
.badge{font-size:10px;font-weight:bold;fill:var(--count)}.plate{fill:var(--paper);\
fill-opacity:.8}\
.head,.action{fill:var(--paper);stroke:var(--ink)}.axis,.tick,.open{fill:none;\
stroke:var(--ink)}\
.open{stroke-dasharray:6 4}.card,.head,.action,.axis,.tick,.open{\
shape-rendering:crispEdges}\
.foot,.tip{fill:var(--ink)}.arrow{fill:none;stroke:var(--ink);stroke-width:1.5;\
marker-end:url(#tip)}\
.race{fill:var(--race);fill-opacity:.14;stroke:var(--race);stroke-width:1.5}\
.end,.count{fill:var(--race)}.hit{stroke:var(--race);stroke-width:2}\
@media screen and (prefers-color-scheme:dark){:root{--ink:#eee;--soft:#bbb;\
--faint:#aaa;--paper:#1b1c1f;--race:#ff6f80;--count:#111;--page:#111214;--edge:#666;\
--pass:#7fd197}\
}@media print{body{background:#fff}main{max-width:none;padding:0}\
article{break-inside:avoid}h2,summary{break-after:avoid}svg{max-width:100%;\
height:auto}\
details::details-content{content-visibility:visible}}";

/// What a page for several scenarios adds to the style sheet.
const WIDE: &[u8] = b"main{max-width:none}article{max-width:62rem}";

/// The metadata of a page.
const METAS: &[u8] = b"<meta charset=\"utf-8\"/>\n\
<meta name=\"viewport\" content=\"width=device-width,initial-scale=1\"/>\n\
<meta name=\"color-scheme\" content=\"light dark\"/>\n";

/// The advice on a race.
const ADVICE: &[u8] = b"<h2>What to do about a race</h2>\n<ul>\n\
<li>Bring the missing order about, for instance by an acknowledgement that its sender waits \
for.</li>\n\
<li>Or mean both orders: draw the two events in one coregion (<code>concurrent</code>), and \
program the instance for both.</li>\n\
<li>Or let the instance leave a message in its queue until it is ready for it. That is another \
program than the one drawn, and nothing is said of it here.</li>\n</ul>\n";

/// The advice on a race of a diagram.
const DIAGRAM_ADVICE: &[u8] = b"<h2>What to do about a race</h2>\n<ul>\n\
<li>Bring the missing order about, for instance by an answer that the sender waits for.</li>\n\
<li>Or mean both orders: draw the two arrows as branches of a <code>par</code> block, and program \
the participant for both.</li>\n\
<li>Or accept the race: the line <code>%% race ok: REASON</code> above one of its arrows does so \
for <code>msc check --accept</code>.</li>\n\
<li>Or let the participant leave a message in its queue until it is ready for it. That is another \
program than the one drawn; <code>msc ready</code> says whether it can block.</li>\n</ul>\n";

/// The head of an arrow, which is itself hidden.
const STORE: &[u8] = b"<svg class=\"store\" width=\"0\" height=\"0\" aria-hidden=\"true\">\n\
<marker id=\"tip\" markerUnits=\"userSpaceOnUse\" markerWidth=\"12\" markerHeight=\"8\" \
refX=\"12\" refY=\"4\" orient=\"auto\">\n\
<path class=\"tip\" d=\"M0,0L12,4L0,8z\"/>\n</marker>\n</svg>\n";

/// Appends the head of a page with this title and this style sheet to it.
fn put_head_with(page: &mut Vec<u8>, sheet: &[u8], title: &[u8]) -> Result<(), AllocError>
    ensures { OnOk result
        (page.new.items ≡ page.old.items ++ line_text (head_with sheet.now title.now)) }
{
    page.extend_from_slice(b"<head>\n")?;
    page.extend_from_slice(METAS)?;
    put_plain(page, b"title", title)?;
    put_plain(page, b"style", sheet)?;
    page.extend_from_slice(b"</head>\n")?;
    Ok(())
}

/// Appends the head of a page with this title to it.
pub fn put_head(page: &mut Vec<u8>, title: &[u8]) -> Result<(), AllocError>
    ensures { OnOk result
        (page.new.items ≡ page.old.items ++ line_text (head_node title.now)) }
{
    put_head_with(page, SHEET, title)
}

/// Appends the head of a page for several scenarios with this title to it: its pictures are as wide
/// as the window.
pub fn put_wide_head(page: &mut Vec<u8>, alloc: Global, title: &[u8]) -> Result<(), AllocError>
    ensures { OnOk result
        (page.new.items ≡ page.old.items ++ line_text (head_with wide_sheet title.now)) }
{
    let mut sheet = Vec::from_slice(alloc, SHEET)?;
    sheet.extend_from_slice(WIDE)?;
    put_head_with(page, &sheet, title)?;
    Ok(())
}

/// Appends the hidden head of an arrow to a page.
pub fn put_store(page: &mut Vec<u8>) -> Result<(), AllocError>
    ensures { OnOk result (page.new.items ≡ page.old.items ++ line_text store_node) }
{
    page.extend_from_slice(STORE)
}

/// Appends the advice on a race to a page.
pub fn put_advice(page: &mut Vec<u8>) -> Result<(), AllocError>
    ensures { OnOk result (page.new.items ≡ page.old.items ++ lines_text advice_nodes) }
{
    page.extend_from_slice(ADVICE)
}

/// Appends the advice on a race of a diagram to a page.
pub fn put_diagram_advice(page: &mut Vec<u8>) -> Result<(), AllocError>
    ensures { OnOk result (page.new.items ≡ page.old.items ++ lines_text diagram_advice) }
{
    page.extend_from_slice(DIAGRAM_ADVICE)
}
