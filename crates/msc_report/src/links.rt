//! The lines of an architecture: its word, and the links whose kind is not the usual one.
//!
//! Links are in the order of their receivers, and then of their senders. If all links to a receiver
//! are of one kind, one line has them all.

ghost use Rattle.std.specs.Prelude.{◌≡◌, ◌<◌, ◌++◌, OnOk, codes, length};
ghost use Rattle.std.specs.Io.KnownBytes.{Appends};
ghost use Rattle.msc_chart.specs.Architectures.{kind_of, link_word};
ghost use Rattle.msc_links.specs.declared.link.Link.TheVariants.{Between, To};
ghost use Rattle.msc_links.specs.Listed.{links_below, links_to, receivers_below, unless_usual};
ghost use Rattle.msc_report.specs.Links.{link_lines, links_text, queues_text};
ghost use Rattle.msc_report.specs.Texts.{text_line};
ghost use Rattle.msc_report.specs.Verdicts.{queues_line};

use crate::race::write_instance;
use msc_chart::{Chart, LinkKind, Queues};
use msc_links::{are_alike, same_kind};
use std::io;
use std::io::Write;

/// Writes a kind, at the end of a line.
fn write_kind<W: Write>(writer: &mut W, kind: LinkKind) -> io::Result<()>
    ensures { OnOk result (Appends (W.contents writer.old) (W.contents writer.new)
        (codes " " ++ text_line (link_word kind))) }
{
    let word = kind.word();
    writeln!(writer, " {word}")
}

/// Writes the line of the link from `s` to `r`, unless its kind is the usual one.
fn write_one_link<W: Write>(
    writer: &mut W,
    chart: &Chart,
    queues: &Queues,
    r: u32,
    s: u32,
) -> io::Result<()>
    requires receiver { r < length chart.now.instances }
    requires sender { s < length chart.now.instances }
    ensures { OnOk result (Appends (W.contents writer.old) (W.contents writer.new)
        (link_lines chart.now
        (unless_usual queues.now (kind_of queues.now s r) (Between s r)))) }
{
    chart.facts();
    let kind = queues.kind(s, r);
    if same_kind(kind, queues.usual()) {
        return Ok(());
    }
    writer.write_all(b"link ")?;
    write_instance(writer, chart, s)?;
    writer.write_all(b">")?;
    write_instance(writer, chart, r)?;
    write_kind(writer, kind)
}

/// Writes the lines of the links to `r` one by one.
fn write_each_link<W: Write>(
    writer: &mut W,
    chart: &Chart,
    queues: &Queues,
    r: u32,
) -> io::Result<()>
    requires { r < length chart.now.instances }
    ensures { OnOk result (Appends (W.contents writer.old) (W.contents writer.new)
        (link_lines chart.now (links_below queues.now r (length chart.now.instances)))) }
{
    for s in 0..chart.instances() {
        write_one_link(writer, chart, queues, r, s)?;
    }
    Ok(())
}

/// Writes the line of all links to `r`, which are of one kind, unless it is the usual one.
fn write_all_links<W: Write>(
    writer: &mut W,
    chart: &Chart,
    queues: &Queues,
    r: u32,
) -> io::Result<()>
    requires { r < length chart.now.instances }
    ensures { OnOk result (Appends (W.contents writer.old) (W.contents writer.new)
        (link_lines chart.now (unless_usual queues.now (kind_of queues.now 0 r) (To r)))) }
{
    chart.facts();
    let kind = queues.kind(0, r);
    if same_kind(kind, queues.usual()) {
        return Ok(());
    }
    writer.write_all(b"link ")?;
    write_instance(writer, chart, r)?;
    write_kind(writer, kind)
}

/// Writes the lines of the links to `r`.
fn write_links_to<W: Write>(
    writer: &mut W,
    chart: &Chart,
    queues: &Queues,
    r: u32,
) -> io::Result<()>
    requires { r < length chart.now.instances }
    ensures { OnOk result (Appends (W.contents writer.old) (W.contents writer.new)
        (link_lines chart.now (links_to queues.now (length chart.now.instances) r))) }
{
    chart.facts();
    if are_alike(queues, r, chart.instances()) {
        return write_all_links(writer, chart, queues, r);
    }
    write_each_link(writer, chart, queues, r)
}

/// Writes the lines of the links to each receiver.
fn write_receivers<W: Write>(writer: &mut W, chart: &Chart, queues: &Queues) -> io::Result<()>
    ensures { OnOk result (Appends (W.contents writer.old) (W.contents writer.new)
        (link_lines chart.now (receivers_below queues.now (length chart.now.instances)
        (length chart.now.instances)))) }
{
    for r in 0..chart.instances() {
        write_links_to(writer, chart, queues, r)?;
    }
    Ok(())
}

/// Writes the lines of all links whose kind is not the usual one.
fn write_links<W: Write>(writer: &mut W, chart: &Chart, queues: &Queues) -> io::Result<()>
    ensures { OnOk result (Appends (W.contents writer.old) (W.contents writer.new)
        (links_text chart.now queues.now)) }
{
    match queues {
        Queues::Uniform(_) => Ok(()),
        Queues::Mixed(_) => write_receivers(writer, chart, queues),
    }
}

/// Writes the line of an architecture's word.
pub fn write_queues_line<W: Write>(writer: &mut W, queues: &Queues) -> io::Result<()>
    ensures { OnOk result (Appends (W.contents writer.old) (W.contents writer.new)
        (queues_line queues.now)) }
{
    let word = queues.word();
    writeln!(writer, "queues {word}")
}

/// Writes the lines of an architecture, with names of instances of a chart: its word, and the links
/// whose kind is not the usual one.
pub fn write_queues<W: Write>(writer: &mut W, chart: &Chart, queues: &Queues) -> io::Result<()>
    ensures { OnOk result (Appends (W.contents writer.old) (W.contents writer.new)
        (queues_text chart.now queues.now)) }
{
    write_queues_line(writer, queues)?;
    write_links(writer, chart, queues)
}
