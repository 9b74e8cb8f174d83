//! What answers a request.

ghost use Rattle.std.specs.Prelude.{◌≡◌, ◌≢◌, ℕ, List, Some};
ghost use Rattle.std.specs.Io.KnownBytes.{IsAtEnd};
ghost use Rattle.streams.specs.Faults.{CountsFault};
ghost use Rattle.configuration.specs.Configuration.{Configuration};
ghost use Rattle.configuration_json.specs.Form.{IsConfigurationText};
ghost use Rattle.configuration_json.specs.Said.{IsSaidBy};
ghost use Rattle.reporting.specs.Beginning.{Beginning};
ghost use Rattle.file_runs.specs.Contents.{Begins};
ghost use Rattle.file_runs.specs.Owed.{IsEndingAt, status_at, report_at, FailsAt};
ghost use Rattle.file_runs.specs.Words.{IsOfInput, IsOfWholeInput, IsOfPath};

use crate::document::{Written, document_text, read};
use crate::ending::Ending;
use crate::request::Request;
use crate::status::Status;
use files::Files;
use std::alloc::Global;
use streams::Source;

/// The text of the document of what the request selects of its files, with what is warned of, or the ending of a run that has none. It reads the
/// configuration, the input and the files that the request names, in this order, and writes nothing: `Refused` where the
/// configuration or the files are refused, `ReadFault` where the input cannot be read, `FileFault` where a file cannot.
pub fn answer<S: Source, F: Files>(
    alloc: Global,
    request: &Request,
    input: &mut S,
    files: &mut F,
) -> Result<Written, Ending>
    ensures owed { (begun : Beginning)
        → Begins S.Source F.Files request.now input.old files.old begun
        → IsEndingAt begun result }
    ensures end { status_at result ≡ Status.Done
        → IsOfWholeInput request.now (S.left input.old) → IsAtEnd (S.left input.new) }
    ensures unread { ¬ (IsOfInput request.now) → input.new ≡ input.old }
    ensures unread_config { ((c : Configuration) → ¬ (IsSaidBy IsConfigurationText
        (F.tells files.old) (F.held files.old) request.now.config c)) → input.new ≡ input.old }
    ensures kept { status_at result ≢ Status.ReadFault
        → S.faults input.new ≡ S.faults input.old }
    ensures failed { status_at result ≡ Status.ReadFault
        → CountsFault (S.faults input.old) (S.faults input.new) }
    ensures tells_on { F.tells files.new ≡ F.tells files.old }
    ensures same { (path : List ℕ) → F.held files.new path ≡ F.held files.old path }
    ensures files_kept { status_at result ≢ Status.FileFault → status_at result ≢ Status.Memory
        → F.faults files.new ≡ F.faults files.old }
    ensures files_failed { status_at result ≡ Status.FileFault → (path : List ℕ)
        × IsOfPath request.now path × FailsAt (F.faults files.old) (F.faults files.new)
        (F.failed files.new) (F.why files.new) path (report_at result) }
{
    let reading = read(alloc, request, input, files)?;
    document_text(alloc, request, reading)
}
