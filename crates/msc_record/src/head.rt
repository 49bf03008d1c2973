//! The members of a record before its list.

ghost use Rattle.std.specs.Prelude.{◌≡◌, codes, map};
ghost use Rattle.std.specs.Option.{option_copied, option_map};
ghost use Rattle.msc_record.specs.Heads.{counts_members, events_json, follows_members};
ghost use Rattle.msc_record.specs.Heads.{head_members, link_json, link_members, name_members};
ghost use Rattle.msc_record.specs.Heads.{opening_members, own_members, queues_members};
ghost use Rattle.msc_record.specs.Heads.{races_members, scenarios_members, verdict};
ghost use Rattle.msc_record.specs.Lent.{plain_checked, plain_event, plain_head, plain_link};
ghost use Rattle.msc_record.specs.Lent.{plain_opening};
ghost use Rattle.msc_record.specs.Members.{member_if, member_if_any, text, tokens_of};
ghost use Rattle.msc_record.specs.Writing.{Adds};

use crate::event::{Event, Position};
use crate::value::{
    Object, Value, write_list, write_list_if, write_list_if_any, write_member, write_member_if,
    write_object,
};
use json::Writer;
use std::alloc::{AllocError, Global};

/// The number of this form, which is raised when a member changes its meaning.
const FORM: u64 = 1;

/// What each record begins with.
#[derive(Clone, Copy)]
pub struct Opening<'t> {
    /// The version of the program.
    pub version: &'t str,
    /// The name of the file.
    pub file: &'t [u8],
    /// In Markdown the number of the diagram, from 1.
    pub fence: Option<u64>,
    /// The exit status of a check of this chart or diagram by itself.
    pub status: u32,
}

impl Object for Opening<'_> {
    ghost members = { λ o. opening_members (plain_opening o) };

    fn write_members(&self, alloc: Global, writer: &mut Writer) -> Result<(), AllocError> {
        write_member(alloc, writer, "msc", &FORM)?;
        write_member(alloc, writer, "version", &self.version)?;
        write_member(alloc, writer, "file", &self.file)?;
        write_member_if(alloc, writer, "fence", &self.fence)?;
        write_member(alloc, writer, "status", &self.status)
    }
}

/// A link whose kind differs from that of the architecture; without a sender, all links to the
/// receiver.
#[derive(Clone, Copy)]
pub struct Link<'t> {
    pub sender: Option<&'t [u8]>,
    pub receiver: &'t [u8],
    /// The word of its kind.
    pub kind: &'t str,
}

impl Object for Link<'_> {
    ghost members = { λ l. link_members (plain_link l) };

    fn write_members(&self, alloc: Global, writer: &mut Writer) -> Result<(), AllocError> {
        write_member_if(alloc, writer, "from", &self.sender)?;
        write_member(alloc, writer, "to", &self.receiver)?;
        write_member(alloc, writer, "kind", &self.kind)
    }
}

impl Value for Link<'_> {
    ghost json = { λ l. link_json (plain_link l) };

    fn write(&self, alloc: Global, writer: &mut Writer) -> Result<(), AllocError> {
        write_object(alloc, writer, self)
    }
}

/// Writes links, if there are any.
fn write_links(alloc: Global, writer: &mut Writer, links: &[Link<'_>]) -> Result<(), AllocError>
    ensures { Adds result writer.old writer.new
        (tokens_of (member_if_any link_json (codes "links") (map plain_link links.now))) }
{
    write_list_if_any(alloc, writer, "links", links)
}

/// How many races there are.
#[derive(Clone, Copy, Debug, PartialEq, Eq)]
pub struct Counts {
    /// All of them.
    pub races: u64,
    /// Those of kinds that are left out, if kinds are left out.
    pub allowed: Option<u64>,
    /// Those that are accepted, if marks count.
    pub accepted: Option<u64>,
    /// The closest of those that count, if only these are listed.
    pub closest: Option<u64>,
}

/// The word for a number of races.
fn verdict(races: u64) -> &'static str
    ensures { result.now ≡ verdict races }
{
    if races == 0 { "pass" } else { "races" }
}

/// Writes the number of races.
fn write_races(alloc: Global, writer: &mut Writer, races: u64) -> Result<(), AllocError>
    ensures { Adds result writer.old writer.new (tokens_of (races_members races)) }
{
    write_member(alloc, writer, "verdict", &verdict(races))?;
    write_member(alloc, writer, "races", &races)
}

impl Object for Counts {
    ghost members = { counts_members };

    fn write_members(&self, alloc: Global, writer: &mut Writer) -> Result<(), AllocError> {
        write_races(alloc, writer, self.races)?;
        write_member_if(alloc, writer, "allowed", &self.allowed)?;
        write_member_if(alloc, writer, "accepted", &self.accepted)?;
        write_member_if(alloc, writer, "closest", &self.closest)
    }
}

/// A chart, and its findings besides races.
#[derive(Clone, Copy)]
pub struct CheckedChart<'t> {
    pub name: &'t [u8],
    /// If no run follows the drawing: events that wait for each other in a ring.
    pub ring: Option<&'t [u32]>,
    /// The number of pairs of two rounds, if these are included.
    pub again: Option<u64>,
    /// The events whose marks accept no race, if marks count.
    pub stale: Option<&'t [Event<'t>]>,
}

/// Writes whether some run follows the drawing, and if none does the events of a ring.
fn write_follows(alloc: Global, writer: &mut Writer, ring: Option<&[u32]>) -> Result<(), AllocError>
    ensures { Adds result writer.old writer.new
        (tokens_of (follows_members (option_copied ring.entry))) }
{
    let Some(ring) = ring else {
        return write_member(alloc, writer, "follows", &true);
    };
    write_member(alloc, writer, "follows", &false)?;
    write_list(alloc, writer, "ring", ring)
}

/// Writes events whose marks accept no race, if marks count.
fn write_stale(
    alloc: Global,
    writer: &mut Writer,
    stale: Option<&[Event<'_>]>,
) -> Result<(), AllocError>
    ensures { Adds result writer.old writer.new (tokens_of (member_if events_json (codes "stale")
        (option_map (λ events. map plain_event events.now) stale.entry))) }
{
    write_list_if(alloc, writer, "stale", stale)
}

/// A diagram, and its findings besides races.
#[derive(Clone, Copy)]
pub struct CheckedDiagram<'t> {
    pub name: &'t [u8],
    /// The instances that serve each request by itself.
    pub serves: &'t [&'t [u8]],
    /// The number of its scenarios.
    pub scenarios: u64,
    /// The number of scenarios in which no race counts.
    pub free: u64,
    /// The marks that accept no race, if marks count.
    pub stale: Option<&'t [Position]>,
}

/// Writes the instances that serve each request by itself, if there are any.
fn write_serves(alloc: Global, writer: &mut Writer, serves: &[&[u8]]) -> Result<(), AllocError>
    ensures { Adds result writer.old writer.new
        (tokens_of (member_if_any text (codes "serves") (map (λ name. name.now) serves.now))) }
{
    write_list_if_any(alloc, writer, "serves", serves)
}

/// A chart or a diagram that was checked.
#[derive(Clone, Copy)]
pub enum Checked<'t> {
    Chart(CheckedChart<'t>),
    Diagram(CheckedDiagram<'t>),
}

impl Checked<'_> {
    /// Writes its name.
    fn write_name(&self, alloc: Global, writer: &mut Writer) -> Result<(), AllocError>
        ensures { Adds result writer.old writer.new
            (tokens_of (name_members (plain_checked self.now))) }
    {
        match self {
            Checked::Chart(chart) => write_member(alloc, writer, "chart", &chart.name),
            Checked::Diagram(diagram) => write_member(alloc, writer, "diagram", &diagram.name),
        }
    }

    /// Writes the scenarios of a diagram.
    fn write_scenarios(&self, alloc: Global, writer: &mut Writer) -> Result<(), AllocError>
        ensures { Adds result writer.old writer.new
            (tokens_of (scenarios_members (plain_checked self.now))) }
    {
        let Checked::Diagram(diagram) = self else {
            return Ok(());
        };
        write_serves(alloc, writer, diagram.serves)?;
        write_member(alloc, writer, "scenarios", &diagram.scenarios)
    }

    /// Writes the members that only a chart or only a diagram has.
    fn write_own(&self, alloc: Global, writer: &mut Writer) -> Result<(), AllocError>
        ensures { Adds result writer.old writer.new
            (tokens_of (own_members (plain_checked self.now))) }
    {
        match self {
            Checked::Chart(chart) => {
                write_follows(alloc, writer, chart.ring)?;
                write_member_if(alloc, writer, "again", &chart.again)?;
                write_stale(alloc, writer, chart.stale)
            }
            Checked::Diagram(diagram) => {
                write_member(alloc, writer, "free", &diagram.free)?;
                write_list_if(alloc, writer, "stale", diagram.stale)
            }
        }
    }
}

/// All members before the list.
#[derive(Clone, Copy)]
pub struct Head<'t> {
    pub opening: Opening<'t>,
    /// The word of the architecture.
    pub queues: &'t str,
    /// The links whose kind differs from it.
    pub links: &'t [Link<'t>],
    pub counts: Counts,
    pub checked: Checked<'t>,
}

impl Head<'_> {
    /// Writes the queues.
    fn write_queues(&self, alloc: Global, writer: &mut Writer) -> Result<(), AllocError>
        ensures { Adds result writer.old writer.new
            (tokens_of (queues_members (plain_head self.now))) }
    {
        write_member(alloc, writer, "queues", &self.queues)?;
        write_links(alloc, writer, self.links)
    }
}

impl Object for Head<'_> {
    ghost members = { λ h. head_members (plain_head h) };

    fn write_members(&self, alloc: Global, writer: &mut Writer) -> Result<(), AllocError> {
        self.opening.write_members(alloc, writer)?;
        self.checked.write_name(alloc, writer)?;
        self.write_queues(alloc, writer)?;
        self.checked.write_scenarios(alloc, writer)?;
        self.counts.write_members(alloc, writer)?;
        self.checked.write_own(alloc, writer)
    }
}
