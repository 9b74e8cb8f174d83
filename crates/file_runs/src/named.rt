//! The documents that options name.

ghost use Rattle.std.specs.Prelude.{◌≡◌, ◌≢◌, ℕ, List as AnyList, option_map, MatchOption, IfOk, IfErr};
ghost use Rattle.serde_json.specs.Data.{Data};
ghost use Rattle.serde_json.specs.View.{view};
ghost use Rattle.file_runs.specs.Contents.{IsReadOf, TellsDocument};
ghost use Rattle.file_runs.specs.Given.{IsDocumentText, IsDocumentAt, named_view};
ghost use Rattle.file_runs.specs.Owed.{status_of, status_at, report_of, FailsAt};
ghost use Rattle.file_runs.specs.Reports.{document_line};

use crate::contents::MOST_BYTES;
use crate::ending::Ending;
use crate::reading::bytes_at;
use crate::status::Status;
use documents::value_of;
use files::{FileBytes, Files};
use serde_json::Value;
use std::alloc::{AllocError, Global};
use telling::printable;
use texts::Text;

/// A document in JSON, and the path of its file.
#[derive(Debug, Drop)]
pub struct NamedDocument {
    pub path: Text,
    pub value: Value,
}

/// The value of a file of which this was read, where it is one in JSON.
fn value_in(alloc: Global, read: &Option<FileBytes>) -> Result<Option<Value>, AllocError>
    ensures { IfOk result (λ found. (text : AnyList ℕ) → IsReadOf MOST_BYTES text read.now
        → MatchOption found ((value : Data) → ¬ IsDocumentText text value)
        (λ value. IsDocumentText text (view value))) }
{
    match read {
        Some(bytes) => value_of(alloc, bytes.as_slice()),
        None => Ok(None),
    }
}

/// That the file at the path is no document.
fn document_line(alloc: Global, path: &str) -> Result<Text, AllocError>
    ensures { IfOk result (λ line. line ≡ document_line path.now) }
{
    let line = format!(in alloc; "{path}: BadConfig: this is no JSON of at most 16777216 bytes\n")?;
    printable(alloc, line.as_str())
}

/// The document at the path, where one is named.
pub(crate) fn document_at<F: Files>(
    alloc: Global,
    path: &Option<Text>,
    files: &mut F,
) -> Result<Option<NamedDocument>, Ending>
    ensures said { IfOk result (λ named. IsDocumentAt (F.tells files.old) (F.held files.old)
        path.now (option_map named_view named)) }
    ensures ending { IfErr result (λ ending. (of : AnyList ℕ) × (path.now ≡ Some of)
        × TellsDocument (F.tells files.old) (F.held files.old of) of ending
        × (status_of ending ≡ Status.FileFault
        → FailsAt (F.faults files.old) (F.faults files.new) (F.failed files.new)
        (F.why files.new) of (report_of ending))) }
    ensures tells_on { F.tells files.new ≡ F.tells files.old }
    ensures same { (other : AnyList ℕ) → F.held files.new other ≡ F.held files.old other }
    ensures kept { status_at result ≢ Status.FileFault → status_at result ≢ Status.Memory
        → F.faults files.new ≡ F.faults files.old }
{
    let Some(path) = path else {
        return Ok(None);
    };
    let read = bytes_at(alloc, path.as_str(), MOST_BYTES, files)?;
    match value_in(alloc, &read)? {
        Some(value) => Ok(Some(NamedDocument {
            path: path.copy(alloc)?,
            value,
        })),
        None => Err(Ending::Refused(document_line(alloc, path.as_str())?)),
    }
}
