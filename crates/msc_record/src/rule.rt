//! The rules of findings, and the program that has them.

ghost use Rattle.std.specs.Prelude.{codes};
ghost use Rattle.msc_record.specs.Members.{member_tokens};
ghost use Rattle.msc_record.specs.Rules.{driver_json, driver_members, rule_json, rule_members};
ghost use Rattle.msc_record.specs.Rules.{rules_json, tool_json, tool_members};
ghost use Rattle.msc_record.specs.Writing.{Adds};

use crate::location::Text;
use crate::value::{Object, Value, write_list, write_member, write_object};
use json::Writer;
use std::alloc::{AllocError, Global};

/// A rule: the first word of the ID of a diagnostic, and what it says.
#[derive(Clone, Copy)]
struct Rule {
    id: &'static str,
    text: &'static str,
}

impl Object for Rule {
    ghost members = { λ r. rule_members r.id.now r.text.now };

    fn write_members(&self, alloc: Global, writer: &mut Writer) -> Result<(), AllocError> {
        write_member(alloc, writer, "id", &self.id)?;
        write_member(alloc, writer, "shortDescription", &Text { text: self.text })
    }
}

impl Value for Rule {
    ghost json = { λ r. rule_json (r.id.now, r.text.now) };

    fn write(&self, alloc: Global, writer: &mut Writer) -> Result<(), AllocError> {
        write_object(alloc, writer, self)
    }
}

/// All rules.
const RULES: [Rule; 13] = [
    Rule {
        id: "early",
        text: "race: the input can come before what is drawn above it",
    },
    Rule {
        id: "queues",
        text: "race: the inputs come by two queues, and nothing makes the first one come first",
    },
    Rule {
        id: "unordered",
        text: "race: the inputs come by one queue, and nothing makes the first one be sent first",
    },
    Rule {
        id: "overtaken",
        text: "race: the inputs come by one queue, and the second one is sent first",
    },
    Rule {
        id: "never",
        text: "no run follows the drawing",
    },
    Rule {
        id: "lexical",
        text: "the text has a fault of its tokens",
    },
    Rule {
        id: "grammar",
        text: "the text has a fault of its grammar",
    },
    Rule {
        id: "chart",
        text: "the text is no chart",
    },
    Rule {
        id: "again",
        text: "two rounds of the chart are no chart",
    },
    Rule {
        id: "stale",
        text: "the mark accepts no race",
    },
    Rule {
        id: "accept",
        text: "the text has a mark that cannot be read",
    },
    Rule {
        id: "link",
        text: "the text's queues cannot be read",
    },
    Rule {
        id: "import",
        text: "the text is no diagram that can be taken",
    },
];

/// Writes all rules.
fn write_rules(alloc: Global, writer: &mut Writer) -> Result<(), AllocError>
    ensures { Adds result writer.old writer.new (member_tokens (codes "rules", rules_json)) }
{
    write_list(alloc, writer, "rules", &RULES)
}

/// The program, of this version.
#[derive(Clone, Copy)]
struct Driver<'v> {
    version: &'v str,
}

impl Object for Driver<'_> {
    ghost members = { λ d. driver_members d.version.now };

    fn write_members(&self, alloc: Global, writer: &mut Writer) -> Result<(), AllocError> {
        write_member(alloc, writer, "name", &"msc")?;
        write_member(alloc, writer, "version", &self.version)?;
        write_rules(alloc, writer)
    }
}

impl Value for Driver<'_> {
    ghost json = { λ d. driver_json d.version.now };

    fn write(&self, alloc: Global, writer: &mut Writer) -> Result<(), AllocError> {
        write_object(alloc, writer, self)
    }
}

/// The program as a tool of SARIF.
#[derive(Clone, Copy)]
pub(crate) struct Tool<'v> {
    pub version: &'v str,
}

impl Object for Tool<'_> {
    ghost members = { λ t. tool_members t.version.now };

    fn write_members(&self, alloc: Global, writer: &mut Writer) -> Result<(), AllocError> {
        let driver = Driver {
            version: self.version,
        };
        write_member(alloc, writer, "driver", &driver)
    }
}

impl Value for Tool<'_> {
    ghost json = { λ t. tool_json t.version.now };

    fn write(&self, alloc: Global, writer: &mut Writer) -> Result<(), AllocError> {
        write_object(alloc, writer, self)
    }
}
