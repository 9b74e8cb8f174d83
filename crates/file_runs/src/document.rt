//! The document of the files that words name.

ghost use Rattle.std.specs.Prelude.{◌≡◌, ◌≢◌, ◌<◌, ℕ, List as AnyList, MatchBool, option_map, IfOk, IfErr, Some, true};
ghost use Rattle.schema_core.specs.Document.{Entry};
ghost use Rattle.streams.specs.Faults.{CountsFault};
ghost use Rattle.configuration.specs.Configuration.{Configuration};
ghost use Rattle.configuration_json.specs.Form.{IsConfigurationText};
ghost use Rattle.configuration_json.specs.Said.{IsSaidBy};
ghost use Rattle.gathering.specs.Files.{FileOf, Gathers};
ghost use Rattle.telling.specs.declared.told.Told.{Told as AnyTold};
ghost use Rattle.file_derivation.specs.Outcomes.{AreDerivedFrom};
ghost use Rattle.file_derivation.specs.Warned.{AreFirst};
ghost use Rattle.file_runs.specs.Contents.{IsTextAt, EndsReading, EndsWriting, EndsDerivation};
ghost use Rattle.file_runs.specs.Given.{AreFilesAt, IsDocumentAt, named_view};
ghost use Rattle.file_runs.specs.Owed.{status_at, report_at, FailsAt};
ghost use Rattle.file_runs.specs.Shown.{wanted, IsWritten};
ghost use Rattle.file_runs.specs.Words.{IsOfInput, IsOfPath};

use crate::contents::contents_of;
use crate::ending::Ending;
use crate::named::NamedDocument;
use crate::options::{Options, options_at};
use crate::reading::gather;
use crate::request::Request;
use crate::showing::{Unshown, shown};
use crate::status::Status;
use compose::Composition;
use file_derivation::{Refusal, Warnings, derive_gathered};
use files::Files;
use gathering::Gathered;
use std::alloc::Global;
use streams::Source;
use telling::{all_told, first_told};
use texts::Text;

/// What is read for a request: what its options name, and its files.
#[derive(Drop)]
pub(crate) struct Reading {
    pub(crate) options: Options,
    pub(crate) gathered: Gathered,
}

/// What the request names: what its options do, then the input, then the files, in their order.
pub(crate) fn read<S: Source, F: Files>(
    alloc: Global,
    request: &Request,
    input: &mut S,
    files: &mut F,
) -> Result<Reading, Ending>
    ensures said { IfOk result (λ reading. IsSaidBy IsConfigurationText (F.tells files.old)
        (F.held files.old) request.now.config reading.options.config) }
    ensures openapi { IfOk result (λ reading. IsDocumentAt (F.tells files.old)
        (F.held files.old) request.now.openapi (option_map named_view reading.options.openapi)) }
    ensures check { IfOk result (λ reading. IsDocumentAt (F.tells files.old)
        (F.held files.old) request.now.check (option_map named_view reading.options.check)) }
    ensures gathered { IfOk result (λ reading. (of : AnyList FileOf)
        × AreFilesAt (IsTextAt (F.tells files.old) (F.held files.old) (S.left input.old)
        (S.left input.new)) request.now.files of × Gathers of reading.gathered) }
    ensures ending { IfErr result
        (EndsReading (F.tells files.old) (F.held files.old) request.now) }
    ensures unread { ¬ (IsOfInput request.now) → input.new ≡ input.old }
    ensures unread_config { ((c : Configuration) → ¬ (IsSaidBy IsConfigurationText
        (F.tells files.old) (F.held files.old) request.now.config c)) → input.new ≡ input.old }
    ensures kept { status_at result ≢ Status.ReadFault
        → S.faults input.new ≡ S.faults input.old }
    ensures failed { status_at result ≡ Status.ReadFault
        → CountsFault (S.faults input.old) (S.faults input.new) }
    ensures tells_on { F.tells files.new ≡ F.tells files.old }
    ensures same { (path : AnyList ℕ) → F.held files.new path ≡ F.held files.old path }
    ensures files_kept { status_at result ≢ Status.FileFault → status_at result ≢ Status.Memory
        → F.faults files.new ≡ F.faults files.old }
    ensures files_failed { status_at result ≡ Status.FileFault → (path : AnyList ℕ)
        × IsOfPath request.now path × FailsAt (F.faults files.old) (F.faults files.new)
        (F.failed files.new) (F.why files.new) path (report_at result) }
{
    let options = options_at(alloc, request, files)?;
    let contents = contents_of(alloc, request, input)?;
    let gathered = gather(alloc, request.files.as_slice(), &contents, files)?;
    Ok(Reading { options, gathered })
}

/// The text of a document, and what is reported beside it.
#[derive(Drop)]
pub struct Written {
    pub document: Text,
    pub report: Text,
}

/// Whether the warnings are refusals: there are some, and `strict` makes them such.
fn are_refused(strict: bool, warnings: &Warnings) -> bool
    ensures { MatchBool result ((strict ≡ true) × (0 < warnings.now.count))
        (strict ≡ true → warnings.now.count ≡ 0) }
{
    strict && warnings.count > 0
}

/// What is written of the components, with what they are warned of; by `strict` warnings end the run.
fn written_of(
    alloc: Global,
    request: &Request,
    openapi: Option<NamedDocument>,
    check: &Option<NamedDocument>,
    composition: &Composition,
    warnings: &Warnings,
) -> Result<Written, Ending>
    ensures written { IfOk result (λ w. (all : AnyList AnyTold) → AreFirst all warnings.now
        → IsWritten (wanted request.now openapi check.now) composition.now all w) }
    ensures ending { IfErr result (EndsWriting (wanted request.now openapi check.now)
        composition.now warnings.now) }
{
    let mut report = first_told(alloc, warnings.told.as_slice(), warnings.count)?;
    if are_refused(request.strict, warnings) {
        return Err(Ending::Refused(report));
    }
    match shown(alloc, request, openapi, check, composition) {
        Ok(document) => Ok(Written { document, report }),
        Err(Unshown::Line(line)) => {
            report.push(line.as_str())?;
            Err(Ending::Refused(report))
        }
        Err(Unshown::Memory) => Err(Ending::Memory),
    }
}

/// What is written of what is selected of the files, and what is warned of.
pub(crate) fn document_text(
    alloc: Global,
    request: &Request,
    reading: Reading,
) -> Result<Written, Ending>
    ensures document { IfOk result (λ w. (files : AnyList FileOf)
        → Gathers files reading.gathered → (components : AnyList Entry) × (all : AnyList AnyTold)
        × AreDerivedFrom request.now.selection reading.options.config files components all
        × IsWritten (wanted request.now reading.options.openapi reading.options.check)
        components all w) }
    ensures ending { IfErr result
        (EndsDerivation (wanted request.now reading.options.openapi reading.options.check)
        reading.options.config reading.gathered) }
{
    let Reading { options, gathered } = reading;
    let Options {
        config,
        openapi,
        check,
    } = options;
    match derive_gathered(alloc, gathered, &request.selection, config) {
        Ok((composition, warnings)) => {
            written_of(alloc, request, openapi, &check, &composition, &warnings)
        }
        Err(Refusal::Told(told)) => Err(Ending::Refused(all_told(alloc, told.as_slice())?)),
        Err(Refusal::Memory) => Err(Ending::Memory),
    }
}
