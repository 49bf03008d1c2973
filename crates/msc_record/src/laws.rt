//! Laws of records and of documents of SARIF, over their definitions only. The functions have no
//! code: a caller that needs a law calls its function.

ghost use Rattle.msc_record.specs.Laws.{DocumentsReadBack, EntriesAreJson, FindingsAreJson};
ghost use Rattle.msc_record.specs.Laws.{PartsMakeDocuments, PartsMakeRecords, RecordsReadBack};

/// The head, the entries and the end of a record, printed one after another, are the line of its
/// value of JSON. An entry is printed as a value of JSON too, after a comma if it is not the first,
/// and its run is its last member.
pub fn parts_make_records()
    ensures parts { PartsMakeRecords }
    ensures entries { EntriesAreJson }
{}

/// The grammar of JSON reads a record as the value that was printed, if the numbers of its parts
/// are numbers of JSON; each call that prints a part ensures that.
pub fn records_read_back()
    ensures { RecordsReadBack }
{}

/// The head, the findings and the end of a document of SARIF, printed one after another, are the
/// line of its value of JSON. A finding is printed as a value of JSON too, after a comma if it is
/// not the first.
pub fn parts_make_documents()
    ensures parts { PartsMakeDocuments }
    ensures findings { FindingsAreJson }
{}

/// The grammar of JSON reads a document of SARIF as the value that was printed, if the numbers of
/// its parts are numbers of JSON; each call that prints a part ensures that.
pub fn documents_read_back()
    ensures { DocumentsReadBack }
{}
