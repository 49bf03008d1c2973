//! Findings as results of SARIF.

ghost use Rattle.std.specs.Prelude.{◌≡◌, ◌++◌, [], ◌∷◌, IfOk, OnOk, codes, map};
ghost use Rattle.std.specs.List.{enumerate_from};
ghost use Rattle.std.specs.Option.{option_copied};
ghost use Rattle.std.specs.String.{string_bytes};
ghost use Rattle.json.specs.Tree.{json_tokens};
ghost use Rattle.msc_record.specs.Locations.{location_json, message_json};
ghost use Rattle.msc_record.specs.Members.{array_of, member_if_any, member_tokens, tokens_of};
ghost use Rattle.msc_record.specs.Results.{finding_members, first_region, label_text, level_word};
ghost use Rattle.msc_record.specs.Results.{message_text, notes_part, numbered_marks, others_part};
ghost use Rattle.msc_record.specs.Results.{places_members, queues_part, related_json};
ghost use Rattle.msc_record.specs.Results.{related_members, words_members};
ghost use Rattle.msc_record.specs.SarifLent.{plain_finding, plain_mark};
ghost use Rattle.msc_record.specs.Uris.{file_uri};
ghost use Rattle.msc_record.specs.Writing.{Adds};

use crate::location::{Location, Physical, Region, Text};
use crate::uri::file_uri;
use crate::value::{Object, write_list, write_member, write_object};
use itoa::Buffer;
use json::Writer;
use std::alloc::{AllocError, Global};

/// How grave a finding is.
#[derive(Clone, Copy, Debug, PartialEq, Eq)]
pub enum Level {
    Error,
    Warning,
}

impl Level {
    /// The word of the level.
    fn word(self) -> &'static str
        ensures { result.now ≡ level_word self }
    {
        match self {
            Level::Error => "error",
            Level::Warning => "warning",
        }
    }
}

/// A marked part of the text.
#[derive(Clone, Copy)]
pub struct Mark<'t> {
    pub region: Region,
    /// What it is to the finding. It may be empty.
    pub label: &'t str,
}

/// A finding, such as a race or a refusal.
#[derive(Clone, Copy)]
pub struct Finding<'t> {
    /// The rule that it breaks.
    pub rule: &'t str,
    pub level: Level,
    pub sentence: &'t str,
    /// The word of the architecture, if the message has it.
    pub queues: Option<&'t str>,
    pub notes: &'t [&'t str],
    /// The name of the file.
    pub file: &'t [u8],
    /// The marks, the first one where the finding is.
    pub marks: &'t [Mark<'t>],
    /// What stays the same when lines move, so that services know the finding again.
    pub key: Option<&'t [u8]>,
}

/// Appends the architecture to a message, if it is named.
fn push_queues(message: &mut String, queues: Option<&str>) -> Result<(), AllocError>
    ensures { OnOk result (string_bytes message.new
        ≡ string_bytes message.old ++ queues_part (option_copied queues.entry)) }
{
    let Some(queues) = queues else {
        return Ok(());
    };
    message.push_str(" [")?;
    message.push_str(queues)?;
    message.push_str("]")
}

/// Appends notes after the first one to a message.
fn push_others(message: &mut String, notes: &[&str]) -> Result<(), AllocError>
    ensures { OnOk result (string_bytes message.new
        ≡ string_bytes message.old ++ others_part (map (λ note. note.now) notes.now)) }
{
    for note in notes {
        message.push_str("; ")?;
        message.push_str(note)?;
    }
    Ok(())
}

/// Appends notes to a message.
fn push_notes(message: &mut String, notes: &[&str]) -> Result<(), AllocError>
    ensures { OnOk result (string_bytes message.new
        ≡ string_bytes message.old ++ notes_part (map (λ note. note.now) notes.now)) }
{
    match notes {
        [] => Ok(()),
        [first, others @ ..] => {
            message.push_str(": ")?;
            message.push_str(first)?;
            push_others(message, others)
        }
    }
}

/// The label of a mark, or else its line.
fn label_text(alloc: Global, mark: &Mark<'_>) -> Result<String, AllocError>
    ensures { IfOk result (λ label. string_bytes label ≡ label_text (plain_mark mark.now)) }
{
    if !mark.label.is_empty() {
        return String::from_str(alloc, mark.label);
    }
    let mut buffer = Buffer::new();
    let mut label = String::from_str(alloc, "line ")?;
    label.push_str(buffer.format(mark.region.start_line))?;
    Ok(label)
}

/// Writes the label of a mark, or else its line.
fn write_label(alloc: Global, writer: &mut Writer, mark: &Mark<'_>) -> Result<(), AllocError>
    ensures { Adds result writer.old writer.new
        (member_tokens (codes "message", message_json (label_text (plain_mark mark.now)))) }
{
    let label = label_text(alloc, mark)?;
    write_member(
        alloc,
        writer,
        "message",
        &Text {
            text: label.as_str(),
        },
    )
}

/// A mark of a file after the first one, with its number, from 0.
#[derive(Clone, Copy)]
struct Related<'u, 't> {
    id: usize,
    uri: &'u str,
    mark: Mark<'t>,
}

impl Object for Related<'_, '_> {
    ghost members = { λ r. related_members r.uri.now r.id (plain_mark r.mark) };

    fn write_members(&self, alloc: Global, writer: &mut Writer) -> Result<(), AllocError> {
        let physical = Physical {
            uri: self.uri,
            region: Some(self.mark.region),
        };
        write_member(alloc, writer, "id", &self.id)?;
        write_member(alloc, writer, "physicalLocation", &physical)?;
        write_label(alloc, writer, &self.mark)
    }
}

/// Writes marks as an array, with numbers from 0.
fn write_numbered(
    alloc: Global,
    writer: &mut Writer,
    uri: &str,
    marks: &[Mark<'_>],
) -> Result<(), AllocError>
    ensures { Adds result writer.old writer.new (json_tokens (array_of
        (map (related_json uri.now) (enumerate_from 0 (map plain_mark marks.now))))) }
{
    writer.begin_array()?;
    for (id, mark) in marks.iter().enumerate() {
        let related = Related {
            id,
            uri,
            mark: *mark,
        };
        write_object(alloc, writer, &related)?;
    }
    writer.end_array()
}

/// Where the finding is: the first mark, or else the file.
fn first_region(marks: &[Mark<'_>]) -> Option<Region>
    ensures { result ≡ first_region (map plain_mark marks.now) }
{
    match marks {
        [] => None,
        [first, ..] => Some(first.region),
    }
}

/// Writes the first location of a finding.
fn write_first(
    alloc: Global,
    writer: &mut Writer,
    uri: &str,
    marks: &[Mark<'_>],
) -> Result<(), AllocError>
    ensures { Adds result writer.old writer.new (member_tokens (
      codes "locations",
      array_of (location_json uri.now (first_region (map plain_mark marks.now)) ∷ []),
    )) }
{
    let region = first_region(marks);
    let location = Location {
        physical: Physical { uri, region },
    };
    write_list(alloc, writer, "locations", &[location])
}

/// Writes the other locations of a finding, if there are any.
fn write_related(
    alloc: Global,
    writer: &mut Writer,
    uri: &str,
    marks: &[Mark<'_>],
) -> Result<(), AllocError>
    ensures { Adds result writer.old writer.new (tokens_of
        (member_if_any (related_json uri.now) (codes "relatedLocations")
        (numbered_marks (map plain_mark marks.now)))) }
{
    if marks.len() <= 1 {
        return Ok(());
    }
    writer.key("relatedLocations")?;
    write_numbered(alloc, writer, uri, &marks[1..])
}

impl Finding<'_> {
    /// Its message.
    fn message(&self, alloc: Global) -> Result<String, AllocError>
        ensures { IfOk result (λ message.
            string_bytes message ≡ message_text (plain_finding self.now)) }
    {
        let mut message = String::from_str(alloc, self.sentence)?;
        push_queues(&mut message, self.queues)?;
        push_notes(&mut message, self.notes)?;
        Ok(message)
    }

    /// Writes its message.
    fn write_message(&self, alloc: Global, writer: &mut Writer) -> Result<(), AllocError>
        ensures { Adds result writer.old writer.new (member_tokens
            (codes "message", message_json (message_text (plain_finding self.now)))) }
    {
        let message = self.message(alloc)?;
        write_member(
            alloc,
            writer,
            "message",
            &Text {
                text: message.as_str(),
            },
        )
    }

    /// Writes its rule, its level and its message.
    fn write_words(&self, alloc: Global, writer: &mut Writer) -> Result<(), AllocError>
        ensures { Adds result writer.old writer.new
            (tokens_of (words_members (plain_finding self.now))) }
    {
        write_member(alloc, writer, "ruleId", &self.rule)?;
        write_member(alloc, writer, "level", &self.level.word())?;
        self.write_message(alloc, writer)
    }

    /// Writes its locations, in the file with this URI.
    fn write_locations(
        &self,
        alloc: Global,
        writer: &mut Writer,
        uri: &str,
    ) -> Result<(), AllocError>
        ensures { Adds result writer.old writer.new (tokens_of
            (places_members uri.now (map plain_mark self.now.marks.now))) }
    {
        write_first(alloc, writer, uri, self.marks)?;
        write_related(alloc, writer, uri, self.marks)
    }

    /// Writes its locations.
    fn write_places(&self, alloc: Global, writer: &mut Writer) -> Result<(), AllocError>
        ensures { Adds result writer.old writer.new (tokens_of
            (places_members (file_uri self.now.file.now) (map plain_mark self.now.marks.now))) }
    {
        let uri = file_uri(alloc, self.file)?;
        self.write_locations(alloc, writer, uri.as_str())
    }
}

impl Object for Finding<'_> {
    ghost members = { λ f. finding_members (plain_finding f) };

    #[tactic(auto, unfolding(crate::specs::Results::finding_members))]
    fn write_members(&self, alloc: Global, writer: &mut Writer) -> Result<(), AllocError> {
        self.write_words(alloc, writer)?;
        self.write_places(alloc, writer)
    }
}
