//! Where something is in a file, and the texts of SARIF.

ghost use Rattle.msc_record.specs.Locations.{artifact_json, artifact_members, location_json};
ghost use Rattle.msc_record.specs.Locations.{location_members, message_json, message_members};
ghost use Rattle.msc_record.specs.Locations.{physical_json, physical_members, region_json};
ghost use Rattle.msc_record.specs.Locations.{region_members};

use crate::value::{Object, Value, write_member, write_member_if, write_object};
use json::Writer;
use std::alloc::{AllocError, Global};

/// A region of a text: its first character, and the one after its last. Lines and columns are
/// numbered from 1; columns count characters.
#[derive(Clone, Copy, Debug, PartialEq, Eq)]
pub struct Region {
    pub start_line: usize,
    pub start_column: usize,
    pub end_line: usize,
    pub end_column: usize,
}

impl Object for Region {
    ghost members = { region_members };

    fn write_members(&self, alloc: Global, writer: &mut Writer) -> Result<(), AllocError> {
        write_member(alloc, writer, "startLine", &self.start_line)?;
        write_member(alloc, writer, "startColumn", &self.start_column)?;
        write_member(alloc, writer, "endLine", &self.end_line)?;
        write_member(alloc, writer, "endColumn", &self.end_column)
    }
}

impl Value for Region {
    ghost json = { region_json };

    fn write(&self, alloc: Global, writer: &mut Writer) -> Result<(), AllocError> {
        write_object(alloc, writer, self)
    }
}

/// A file, by its URI.
#[derive(Clone, Copy)]
pub(crate) struct Artifact<'u> {
    pub uri: &'u str,
}

impl Object for Artifact<'_> {
    ghost members = { λ a. artifact_members a.uri.now };

    fn write_members(&self, alloc: Global, writer: &mut Writer) -> Result<(), AllocError> {
        write_member(alloc, writer, "uri", &self.uri)
    }
}

impl Value for Artifact<'_> {
    ghost json = { λ a. artifact_json a.uri.now };

    fn write(&self, alloc: Global, writer: &mut Writer) -> Result<(), AllocError> {
        write_object(alloc, writer, self)
    }
}

/// A file, or a region of it.
#[derive(Clone, Copy)]
pub(crate) struct Physical<'u> {
    pub uri: &'u str,
    pub region: Option<Region>,
}

impl Object for Physical<'_> {
    ghost members = { λ p. physical_members p.uri.now p.region };

    fn write_members(&self, alloc: Global, writer: &mut Writer) -> Result<(), AllocError> {
        write_member(
            alloc,
            writer,
            "artifactLocation",
            &Artifact { uri: self.uri },
        )?;
        write_member_if(alloc, writer, "region", &self.region)
    }
}

impl Value for Physical<'_> {
    ghost json = { λ p. physical_json p.uri.now p.region };

    fn write(&self, alloc: Global, writer: &mut Writer) -> Result<(), AllocError> {
        write_object(alloc, writer, self)
    }
}

/// The location of a file, or of a region of it.
#[derive(Clone, Copy)]
pub(crate) struct Location<'u> {
    pub physical: Physical<'u>,
}

impl Object for Location<'_> {
    ghost members = { λ l. location_members l.physical.uri.now l.physical.region };

    fn write_members(&self, alloc: Global, writer: &mut Writer) -> Result<(), AllocError> {
        write_member(alloc, writer, "physicalLocation", &self.physical)
    }
}

impl Value for Location<'_> {
    ghost json = { λ l. location_json l.physical.uri.now l.physical.region };

    fn write(&self, alloc: Global, writer: &mut Writer) -> Result<(), AllocError> {
        write_object(alloc, writer, self)
    }
}

/// A text of SARIF.
#[derive(Clone, Copy)]
pub(crate) struct Text<'t> {
    pub text: &'t str,
}

impl Object for Text<'_> {
    ghost members = { λ t. message_members t.text.now };

    fn write_members(&self, alloc: Global, writer: &mut Writer) -> Result<(), AllocError> {
        write_member(alloc, writer, "text", &self.text)
    }
}

impl Value for Text<'_> {
    ghost json = { λ t. message_json t.text.now };

    fn write(&self, alloc: Global, writer: &mut Writer) -> Result<(), AllocError> {
        write_object(alloc, writer, self)
    }
}
