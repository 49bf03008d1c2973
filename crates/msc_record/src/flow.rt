//! Runs as flows of SARIF.

ghost use Rattle.std.specs.Prelude.{map};
ghost use Rattle.json.specs.Tree.{json_tokens};
ghost use Rattle.msc_record.specs.Members.{array_of, object_of};
ghost use Rattle.msc_record.specs.Results.{place_members, step_json, step_members};
ghost use Rattle.msc_record.specs.SarifLent.{plain_step};
ghost use Rattle.msc_record.specs.Writing.{Adds};

use crate::location::{Location, Physical, Region, Text};
use crate::value::{Object, Value, write_member, write_object};
use json::Writer;
use std::alloc::{AllocError, Global};

/// An event of a run.
#[derive(Clone, Copy)]
pub struct Step<'t> {
    pub region: Region,
    /// What happens, in words.
    pub text: &'t str,
}

/// Where an event of a run is, and what happens.
#[derive(Clone, Copy)]
struct Place<'u, 't> {
    uri: &'u str,
    step: Step<'t>,
}

impl Object for Place<'_, '_> {
    ghost members = { λ p. place_members p.uri.now (plain_step p.step) };

    fn write_members(&self, alloc: Global, writer: &mut Writer) -> Result<(), AllocError> {
        let location = Location {
            physical: Physical {
                uri: self.uri,
                region: Some(self.step.region),
            },
        };
        location.write_members(alloc, writer)?;
        write_member(
            alloc,
            writer,
            "message",
            &Text {
                text: self.step.text,
            },
        )
    }
}

impl Value for Place<'_, '_> {
    ghost json = { λ p. object_of (place_members p.uri.now (plain_step p.step)) };

    fn write(&self, alloc: Global, writer: &mut Writer) -> Result<(), AllocError> {
        write_object(alloc, writer, self)
    }
}

/// An event of a run of a file.
#[derive(Clone, Copy)]
struct FlowStep<'u, 't> {
    uri: &'u str,
    step: Step<'t>,
}

impl Object for FlowStep<'_, '_> {
    ghost members = { λ s. step_members s.uri.now (plain_step s.step) };

    fn write_members(&self, alloc: Global, writer: &mut Writer) -> Result<(), AllocError> {
        let place = Place {
            uri: self.uri,
            step: self.step,
        };
        write_member(alloc, writer, "location", &place)
    }
}

/// Writes a run of a file as an array.
pub(crate) fn write_steps(
    alloc: Global,
    writer: &mut Writer,
    uri: &str,
    steps: &[Step<'_>],
) -> Result<(), AllocError>
    ensures { Adds result writer.old writer.new (json_tokens (array_of
        (map (step_json uri.now) (map plain_step steps.now)))) }
{
    writer.begin_array()?;
    for step in steps {
        write_object(alloc, writer, &FlowStep { uri, step: *step })?;
    }
    writer.end_array()
}
