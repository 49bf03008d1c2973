//! A document of SARIF.

use crate::tests::check;
use crate::{
    Ending, Failure, Finding, Level, Mark, Region, ScannedFile, Step, print_finding,
    print_sarif_end, print_sarif_head, steps_text,
};
use std::alloc::{AllocError, Global};

/// A refused chart, which names an instance that it does not have.
const TYPO: Finding<'static> = Finding {
    rule: "chart",
    level: Level::Error,
    sentence: "no instance is named \"caler\"",
    queues: None,
    notes: &[],
    file: b"typo.msc",
    marks: &[
        Mark {
            region: Region {
                start_line: 23,
                start_column: 18,
                end_line: 23,
                end_column: 23,
            },
            label: "",
        },
        Mark {
            region: Region {
                start_line: 5,
                start_column: 10,
                end_line: 5,
                end_column: 16,
            },
            label: "is this one meant?",
        },
    ],
    key: None,
};

/// The places of the two arrows of a race.
const PROCESSING: Region = Region {
    start_line: 12,
    start_column: 5,
    end_line: 12,
    end_column: 28,
};

const MARK_AS_PAID: Region = Region {
    start_line: 17,
    start_column: 5,
    end_line: 17,
    end_column: 26,
};

/// The race.
const CHECKOUT: Finding<'static> = Finding {
    rule: "queues",
    level: Level::Warning,
    sentence: "Shop can receive \"mark as paid\" from Webhook Worker before \"processing\" from Payment Provider",
    queues: None,
    notes: &[
        "they come over two connections, and nothing orders them",
        "in both scenarios",
        "the order holds if Webhook Worker sends \"mark as paid\" only after Shop has received \"processing\" from Payment Provider",
    ],
    file: b"shop/docs/checkout.mmd",
    marks: &[
        Mark {
            region: PROCESSING,
            label: "drawn first",
        },
        Mark {
            region: MARK_AS_PAID,
            label: "can happen first",
        },
    ],
    key: Some(
        b"checkout pair Shop receives \"processing\" from Payment Provider; receives \"mark as paid\" from Webhook Worker",
    ),
};

/// A run that shows it.
const CHECKOUT_RUN: [Step<'static>; 2] = [
    Step {
        region: MARK_AS_PAID,
        text: "Webhook Worker sends \"mark as paid\" to Shop",
    },
    Step {
        region: MARK_AS_PAID,
        text: "Shop receives \"mark as paid\" from Webhook Worker",
    },
];

/// What the scan comes to: one of its files has a name with bytes that a URI escapes.
const ENDING: Ending<'static> = Ending {
    files: &[
        ScannedFile {
            name: b"shop/docs/checkout.mmd",
        },
        ScannedFile { name: b"-" },
        ScannedFile {
            name: b"a b%\xC3\xBC\".mmd",
        },
    ],
    status: 4,
    failures: &[Failure {
        sentence: "cannot read nofile.mmd: No such file or directory",
        file: b"nofile.mmd",
    }],
};

/// The document.
const DOCUMENT: &[&str] = &[
    "{\"$schema\":\"https://json.schemastore.org/sarif-2.1.0.json\",\"version\":\"2.1.0\",\"r",
    "uns\":[{\"tool\":{\"driver\":{\"name\":\"msc\",\"version\":\"0.2.0\",\"rules\":[{\"id\":",
    "\"early\",\"shortDescription\":{\"text\":\"race: the input can come before what is drawn",
    " above it\"}},{\"id\":\"queues\",\"shortDescription\":{\"text\":\"race: the inputs come ",
    "by two queues, and nothing makes the first one come first\"}},{\"id\":\"unordered\",\"sh",
    "ortDescription\":{\"text\":\"race: the inputs come by one queue, and nothing makes the f",
    "irst one be sent first\"}},{\"id\":\"overtaken\",\"shortDescription\":{\"text\":\"race: ",
    "the inputs come by one queue, and the second one is sent first\"}},{\"id\":\"never\",\"s",
    "hortDescription\":{\"text\":\"no run follows the drawing\"}},{\"id\":\"lexical\",\"short",
    "Description\":{\"text\":\"the text has a fault of its tokens\"}},{\"id\":\"grammar\",\"s",
    "hortDescription\":{\"text\":\"the text has a fault of its grammar\"}},{\"id\":\"chart\",",
    "\"shortDescription\":{\"text\":\"the text is no chart\"}},{\"id\":\"again\",\"shortDescr",
    "iption\":{\"text\":\"two rounds of the chart are no chart\"}},{\"id\":\"stale\",\"shortD",
    "escription\":{\"text\":\"the mark accepts no race\"}},{\"id\":\"accept\",\"shortDescript",
    "ion\":{\"text\":\"the text has a mark that cannot be read\"}},{\"id\":\"link\",\"shortDe",
    "scription\":{\"text\":\"the text's queues cannot be read\"}},{\"id\":\"import\",\"shortD",
    "escription\":{\"text\":\"the text is no diagram that can be taken\"}}]}},\"columnKind\":",
    "\"unicodeCodePoints\",\"results\":[",
    "{\"ruleId\":\"chart\",\"level\":\"error\",\"message\":{\"text\":\"no instance is named ",
    "\\\"caler\\\"\"},\"locations\":[{\"physicalLocation\":{\"artifactLocation\":{\"uri\":\"t",
    "ypo.msc\"},\"region\":{\"startLine\":23,\"startColumn\":18,\"endLine\":23,\"endColumn\":",
    "23}}}],\"relatedLocations\":[{\"id\":0,\"physicalLocation\":{\"artifactLocation\":{\"uri",
    "\":\"typo.msc\"},\"region\":{\"startLine\":5,\"startColumn\":10,\"endLine\":5,\"endColum",
    "n\":16}},\"message\":{\"text\":\"is this one meant?\"}}]}",
    ",",
    "{\"ruleId\":\"queues\",\"level\":\"warning\",\"message\":{\"text\":\"Shop can receive \\",
    "\"mark as paid\\\" from Webhook Worker before \\\"processing\\\" from Payment Provider: ",
    "they come over two connections, and nothing orders them; in both scenarios; the order ho",
    "lds if Webhook Worker sends \\\"mark as paid\\\" only after Shop has received \\\"proces",
    "sing\\\" from Payment Provider\"},\"locations\":[{\"physicalLocation\":{\"artifactLocati",
    "on\":{\"uri\":\"shop/docs/checkout.mmd\"},\"region\":{\"startLine\":12,\"startColumn\":5",
    ",\"endLine\":12,\"endColumn\":28}}}],\"relatedLocations\":[{\"id\":0,\"physicalLocation",
    "\":{\"artifactLocation\":{\"uri\":\"shop/docs/checkout.mmd\"},\"region\":{\"startLine\":",
    "17,\"startColumn\":5,\"endLine\":17,\"endColumn\":26}},\"message\":{\"text\":\"can happe",
    "n first\"}}],\"codeFlows\":[{\"threadFlows\":[{\"locations\":[{\"location\":{\"physicalL",
    "ocation\":{\"artifactLocation\":{\"uri\":\"shop/docs/checkout.mmd\"},\"region\":{\"start",
    "Line\":17,\"startColumn\":5,\"endLine\":17,\"endColumn\":26}},\"message\":{\"text\":\"We",
    "bhook Worker sends \\\"mark as paid\\\" to Shop\"}}},{\"location\":{\"physicalLocation\"",
    ":{\"artifactLocation\":{\"uri\":\"shop/docs/checkout.mmd\"},\"region\":{\"startLine\":17",
    ",\"startColumn\":5,\"endLine\":17,\"endColumn\":26}},\"message\":{\"text\":\"Shop receiv",
    "es \\\"mark as paid\\\" from Webhook Worker\"}}}]}]}],\"partialFingerprints\":{\"race/v1",
    "\":\"checkout pair Shop receives \\\"processing\\\" from Payment Provider; receives \\\"",
    "mark as paid\\\" from Webhook Worker\"}}",
    "],\"artifacts\":[{\"location\":{\"uri\":\"shop/docs/checkout.mmd\"}},{\"location\":{\"ur",
    "i\":\"stdin\"}},{\"location\":{\"uri\":\"a%20b%25%C3%BC%22.mmd\"}}],\"invocations\":[{\"",
    "executionSuccessful\":false,\"exitCode\":4,\"toolExecutionNotifications\":[{\"level\":\"",
    "error\",\"message\":{\"text\":\"cannot read nofile.mmd: No such file or directory\"},\"l",
    "ocations\":[{\"physicalLocation\":{\"artifactLocation\":{\"uri\":\"nofile.mmd\"}}}]}]}]}",
    "]}\n",
];

/// Prints the document.
fn print_document(alloc: Global) -> Result<Vec<u8>, AllocError> {
    let mut page = Vec::new(alloc);
    let run = steps_text(alloc, b"shop/docs/checkout.mmd", &CHECKOUT_RUN)?;
    print_sarif_head(alloc, &mut page, "0.2.0")?;
    print_finding(alloc, &mut page, true, &TYPO, None)?;
    print_finding(alloc, &mut page, false, &CHECKOUT, Some(run.as_slice()))?;
    print_sarif_end(alloc, &mut page, &ENDING)?;
    Ok(page)
}

#[test]
fn documents_are_printed(rt: HostRuntime) {
    check(&rt, print_document(rt.alloc()), DOCUMENT);
}
