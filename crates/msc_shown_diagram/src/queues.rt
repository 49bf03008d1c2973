//! An architecture between the lines of a diagram, as the closing line of findings has it.

ghost use Rattle.std.specs.Prelude.{◌≡◌, IfOk, length, map};
ghost use Rattle.std.specs.String.{string_bytes};
ghost use Rattle.msc_shown_diagram.specs.Queues.{queues_written};
ghost use Rattle.msc_speech.specs.Names.{ident_said};

use listed::Listed;
use msc_chart::{Chart, Queues};
use msc_links::print_queues_named;
use msc_speech::ident_said;
use msc_spoken::shown;
use std::alloc::{AllocError, Global};

/// The identifiers of lines as people read them.
fn idents_said(alloc: Global, lines: &[Listed<u8>]) -> Result<Vec<String>, AllocError>
    ensures { IfOk result (λ idents.
        map string_bytes idents.items ≡ map ident_said lines.now) }
{
    let mut idents = Vec::new(alloc);
    for line in lines {
        idents.push(ident_said(alloc, line.as_slice())?)?;
    }
    Ok(idents)
}

/// The bytes of these names.
fn bytes_of(alloc: Global, names: &[String]) -> Result<Vec<&[u8]>, AllocError>
    ensures { IfOk result (λ bytes.
        map (λ name. name.now) bytes.items ≡ map string_bytes names.now) }
{
    let mut bytes = Vec::new(alloc);
    for name in names {
        bytes.push(name.as_bytes())?;
    }
    Ok(bytes)
}

/// An architecture as it is written, for a chart of a diagram with these lines. Each line has its
/// identifier as people read it, which is its name in the text, and not the name of the chart's
/// instance. The only error is want of memory.
pub fn queues_said(
    alloc: Global,
    lines: &[Listed<u8>],
    chart: &Chart,
    queues: Queues,
) -> Result<String, AllocError>
    ensures { IfOk result (λ said. string_bytes said
        ≡ queues_written lines.now (length chart.now.instances) queues) }
{
    let idents = idents_said(alloc, lines)?;
    let names = bytes_of(alloc, idents.as_slice())?;
    let mut bytes = Vec::new(alloc);
    print_queues_named(&mut bytes, alloc, chart, names.as_slice(), &queues)?;
    shown(alloc, bytes.as_slice())
}
