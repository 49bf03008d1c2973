//! Documents of SARIF, printed in parts: a head, findings, and an end.

ghost use Rattle.std.specs.Prelude.{◌≡◌, ◌++◌, [], ◌∷◌, IfOk, None, OnOk, codes, map};
ghost use Rattle.std.specs.Option.{option_copied};
ghost use Rattle.json.specs.Print.{print};
ghost use Rattle.json.specs.Token.{begin_object};
ghost use Rattle.msc_record.specs.Documents.{ending_members, ending_text, ending_tokens};
ghost use Rattle.msc_record.specs.Documents.{failure_json, failure_members, file_json};
ghost use Rattle.msc_record.specs.Documents.{file_members, finding_text, flows_part};
ghost use Rattle.msc_record.specs.Documents.{invocation_json, invocation_members, key_part};
ghost use Rattle.msc_record.specs.Documents.{results_tokens, run_members, runs_tokens};
ghost use Rattle.msc_record.specs.Documents.{sarif_head_text, sarif_head_tokens, schema_members};
ghost use Rattle.msc_record.specs.Documents.{steps_text};
ghost use Rattle.msc_record.specs.Locations.{location_json};
ghost use Rattle.msc_record.specs.Members.{array_of, member_if_any, member_tokens, tokens_of};
ghost use Rattle.msc_record.specs.Numbers.{EndingHasNumbers, FindingHasNumbers, StepsHaveNumbers};
ghost use Rattle.msc_record.specs.Results.{key_members};
ghost use Rattle.msc_record.specs.SarifLent.{plain_ending, plain_failure, plain_finding};
ghost use Rattle.msc_record.specs.SarifLent.{plain_step};
ghost use Rattle.msc_record.specs.Uris.{file_uri};
ghost use Rattle.msc_record.specs.Writing.{Adds};

use crate::flow::{Step, write_steps};
use crate::location::{Artifact, Location, Physical, Text};
use crate::part::{print_comma, print_object, print_open, put, writer_after};
use crate::result::Finding;
use crate::rule::Tool;
use crate::uri::file_uri;
use crate::value::{Object, Value, write_list, write_list_if_any, write_member, write_object};
use json::Writer;
use std::alloc::{AllocError, Global};

/// The schema of SARIF.
const SCHEMA: &str = "https://json.schemastore.org/sarif-2.1.0.json";

/// The exit status of a scan in which something failed.
const FAILED: u32 = 4;

/// A file that failed, and why.
#[derive(Clone, Copy)]
pub struct Failure<'t> {
    pub sentence: &'t str,
    /// The name of the file.
    pub file: &'t [u8],
}

/// Writes the location of a file.
fn write_file(alloc: Global, writer: &mut Writer, name: &[u8]) -> Result<(), AllocError>
    ensures { Adds result writer.old writer.new (member_tokens
        (codes "locations", array_of (location_json (file_uri name.now) None ∷ []))) }
{
    let uri = file_uri(alloc, name)?;
    let location = Location {
        physical: Physical {
            uri: uri.as_str(),
            region: None,
        },
    };
    write_list(alloc, writer, "locations", &[location])
}

impl Object for Failure<'_> {
    ghost members = { λ f. failure_members (plain_failure f) };

    fn write_members(&self, alloc: Global, writer: &mut Writer) -> Result<(), AllocError> {
        write_member(alloc, writer, "level", &"error")?;
        write_member(
            alloc,
            writer,
            "message",
            &Text {
                text: self.sentence,
            },
        )?;
        write_file(alloc, writer, self.file)
    }
}

impl Value for Failure<'_> {
    ghost json = { λ f. failure_json (plain_failure f) };

    fn write(&self, alloc: Global, writer: &mut Writer) -> Result<(), AllocError> {
        write_object(alloc, writer, self)
    }
}

/// A file of a scan.
#[derive(Clone, Copy)]
pub struct ScannedFile<'t> {
    pub name: &'t [u8],
}

impl Object for ScannedFile<'_> {
    ghost members = { λ f. file_members f.name.now };

    fn write_members(&self, alloc: Global, writer: &mut Writer) -> Result<(), AllocError> {
        let uri = file_uri(alloc, self.name)?;
        write_member(alloc, writer, "location", &Artifact { uri: uri.as_str() })
    }
}

impl Value for ScannedFile<'_> {
    ghost json = { λ f. file_json f.name.now };

    fn write(&self, alloc: Global, writer: &mut Writer) -> Result<(), AllocError> {
        write_object(alloc, writer, self)
    }
}

/// What a scan comes to.
#[derive(Clone, Copy)]
pub struct Ending<'t> {
    /// Its files, in order.
    pub files: &'t [ScannedFile<'t>],
    /// Its exit status.
    pub status: u32,
    /// The files that failed, in order.
    pub failures: &'t [Failure<'t>],
}

/// Writes the files that failed, if any did.
fn write_failures(
    alloc: Global,
    writer: &mut Writer,
    failures: &[Failure<'_>],
) -> Result<(), AllocError>
    ensures { Adds result writer.old writer.new (tokens_of (member_if_any failure_json
        (codes "toolExecutionNotifications") (map plain_failure failures.now))) }
{
    write_list_if_any(alloc, writer, "toolExecutionNotifications", failures)
}

/// How a scan ended.
#[derive(Clone, Copy)]
struct Invocation<'e, 't> {
    ending: &'e Ending<'t>,
}

impl Object for Invocation<'_, '_> {
    ghost members = { λ i. invocation_members (plain_ending i.ending.now) };

    fn write_members(&self, alloc: Global, writer: &mut Writer) -> Result<(), AllocError> {
        let is_success = self.ending.status != FAILED;
        write_member(alloc, writer, "executionSuccessful", &is_success)?;
        write_member(alloc, writer, "exitCode", &self.ending.status)?;
        write_failures(alloc, writer, self.ending.failures)
    }
}

impl Value for Invocation<'_, '_> {
    ghost json = { λ i. invocation_json (plain_ending i.ending.now) };

    fn write(&self, alloc: Global, writer: &mut Writer) -> Result<(), AllocError> {
        write_object(alloc, writer, self)
    }
}

/// Writes the files of a scan.
fn write_files(
    alloc: Global,
    writer: &mut Writer,
    files: &[ScannedFile<'_>],
) -> Result<(), AllocError>
    ensures { Adds result writer.old writer.new (member_tokens (
      codes "artifacts",
      array_of (map file_json (map (λ file. file.name.now) files.now)),
    )) }
{
    write_list(alloc, writer, "artifacts", files)
}

impl Object for Ending<'_> {
    ghost members = { λ e. ending_members (plain_ending e) };

    fn write_members(&self, alloc: Global, writer: &mut Writer) -> Result<(), AllocError> {
        write_files(alloc, writer, self.files)?;
        write_list(alloc, writer, "invocations", &[Invocation { ending: self }])
    }
}

/// Writes the schema and the version of a document.
fn write_schema(alloc: Global, writer: &mut Writer) -> Result<(), AllocError>
    ensures { Adds result writer.old writer.new (begin_object ∷ tokens_of schema_members) }
{
    writer.begin_object()?;
    write_member(alloc, writer, "$schema", &SCHEMA)?;
    write_member(alloc, writer, "version", &"2.1.0")
}

/// Writes the beginning of the list of runs, and of the only run.
fn write_runs(writer: &mut Writer) -> Result<(), AllocError>
    ensures { Adds result writer.old writer.new runs_tokens }
{
    writer.key("runs")?;
    writer.begin_array()?;
    writer.begin_object()
}

/// Writes the members of a run before its results.
fn write_tool(alloc: Global, writer: &mut Writer, version: &str) -> Result<(), AllocError>
    ensures { Adds result writer.old writer.new (tokens_of (run_members version.now)) }
{
    write_member(alloc, writer, "tool", &Tool { version })?;
    write_member(alloc, writer, "columnKind", &"unicodeCodePoints")
}

/// Writes the beginning of the results.
fn write_results(writer: &mut Writer) -> Result<(), AllocError>
    ensures { Adds result writer.old writer.new results_tokens }
{
    writer.key("results")?;
    writer.begin_array()
}

/// Writes the tokens of the first part of a document.
fn write_head(alloc: Global, writer: &mut Writer, version: &str) -> Result<(), AllocError>
    ensures { Adds result writer.old writer.new (sarif_head_tokens version.now) }
{
    write_schema(alloc, writer)?;
    write_runs(writer)?;
    write_tool(alloc, writer, version)?;
    write_results(writer)
}

/// Appends the first part of a document to a page, up to the bracket before the results. `version`
/// is that of the program. The only error is want of memory; the page then has any bytes.
#[tactic(auto, unfolding(crate::specs::Documents::sarif_head_text))]
pub fn print_sarif_head(alloc: Global, page: &mut Vec<u8>, version: &str) -> Result<(), AllocError>
    ensures { OnOk result (page.new.items ≡ page.old.items ++ sarif_head_text version.now) }
{
    let mut writer = writer_after(alloc, page);
    let written = write_head(alloc, &mut writer, version);
    *page = writer.into_inner();
    written
}

/// Appends the text of a run to a page as a flow, if there is one.
fn print_flow(page: &mut Vec<u8>, run: Option<&[u8]>) -> Result<(), AllocError>
    ensures { OnOk result
        (page.new.items ≡ page.old.items ++ flows_part (option_copied run.entry)) }
{
    let Some(run) = run else {
        return Ok(());
    };
    put(page, b",\"codeFlows\":[{\"threadFlows\":[{\"locations\":")?;
    put(page, run)?;
    put(page, b"}]}]")
}

/// What stays the same when lines move.
#[derive(Clone, Copy)]
struct Fingerprint<'t> {
    key: &'t [u8],
}

impl Object for Fingerprint<'_> {
    ghost members = { λ f. key_members f.key.now };

    fn write_members(&self, alloc: Global, writer: &mut Writer) -> Result<(), AllocError> {
        write_member(alloc, writer, "race/v1", &self.key)
    }
}

/// Appends the fingerprint of a finding to a page, if there is one.
fn print_key(alloc: Global, page: &mut Vec<u8>, key: Option<&[u8]>) -> Result<(), AllocError>
    ensures { OnOk result
        (page.new.items ≡ page.old.items ++ key_part (option_copied key.entry)) }
{
    let Some(key) = key else {
        return Ok(());
    };
    put(page, b",\"partialFingerprints\":")?;
    print_object(alloc, page, &Fingerprint { key })
}

/// Appends a finding to a page, after a comma if it is not the first of the document. `run` is the
/// text of a run that shows it, which `steps_text` makes. The only error is want of memory; the
/// page then has any bytes.
pub fn print_finding(
    alloc: Global,
    page: &mut Vec<u8>,
    is_first: bool,
    finding: &Finding<'_>,
    run: Option<&[u8]>,
) -> Result<(), AllocError>
    ensures printed { OnOk result (page.new.items ≡ page.old.items
        ++ finding_text is_first (plain_finding finding.now) (option_copied run.entry)) }
    ensures numbers { OnOk result (FindingHasNumbers (plain_finding finding.now)) }
{
    print_comma(page, is_first)?;
    print_open(alloc, page, finding)?;
    print_flow(page, run)?;
    print_key(alloc, page, finding.key)?;
    put(page, b"}")
}

/// The text of a run of a file: an array of the locations of its events. The only error is want of
/// memory.
pub fn steps_text(alloc: Global, file: &[u8], steps: &[Step<'_>]) -> Result<Vec<u8>, AllocError>
    ensures text { IfOk result
        (λ text. text.items ≡ steps_text file.now (map plain_step steps.now)) }
    ensures numbers { OnOk result (StepsHaveNumbers file.now (map plain_step steps.now)) }
{
    let uri = file_uri(alloc, file)?;
    let mut writer = Writer::new(Vec::new(alloc));
    write_steps(alloc, &mut writer, uri.as_str(), steps)?;
    Ok(writer.into_inner())
}

/// Writes the tokens of the last part of a document.
fn write_ending(alloc: Global, writer: &mut Writer, ending: &Ending<'_>) -> Result<(), AllocError>
    ensures { Adds result writer.old writer.new (ending_tokens (plain_ending ending.now)) }
{
    writer.end_array()?;
    ending.write_members(alloc, writer)?;
    writer.end_object()?;
    writer.end_array()?;
    writer.end_object()
}

/// Appends the last part of a document to a page.
fn print_ending(alloc: Global, page: &mut Vec<u8>, ending: &Ending<'_>) -> Result<(), AllocError>
    ensures printed { OnOk result (page.new.items
        ≡ page.old.items ++ print (ending_tokens (plain_ending ending.now))) }
    ensures numbers { OnOk result (EndingHasNumbers (plain_ending ending.now)) }
{
    let mut writer = writer_after(alloc, page);
    let written = write_ending(alloc, &mut writer, ending);
    *page = writer.into_inner();
    written
}

/// Appends the last part of a document to a page, and the end of its line. The only error is want
/// of memory; the page then has any bytes.
#[tactic(auto, unfolding(crate::specs::Documents::ending_text))]
pub fn print_sarif_end(
    alloc: Global,
    page: &mut Vec<u8>,
    ending: &Ending<'_>,
) -> Result<(), AllocError>
    ensures printed { OnOk result
        (page.new.items ≡ page.old.items ++ ending_text (plain_ending ending.now)) }
    ensures numbers { OnOk result (EndingHasNumbers (plain_ending ending.now)) }
{
    print_ending(alloc, page, ending)?;
    put(page, b"\n")
}
