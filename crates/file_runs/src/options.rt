//! What is read for the options of a request.

ghost use Rattle.std.specs.Prelude.{◌≡◌, ◌≢◌, ℕ, List as AnyList, option_map, IfOk, IfErr};
ghost use Rattle.configuration_json.specs.Form.{IsConfigurationText};
ghost use Rattle.configuration_json.specs.Said.{IsSaidBy};
ghost use Rattle.file_runs.specs.Contents.{EndsOptions};
ghost use Rattle.file_runs.specs.Given.{IsDocumentAt, named_view};
ghost use Rattle.file_runs.specs.Owed.{status_at, report_at, FailsAt};
ghost use Rattle.file_runs.specs.Words.{IsOfOption};

use crate::configured::config_at;
use crate::ending::Ending;
use crate::named::{NamedDocument, document_at};
use crate::request::Request;
use crate::status::Status;
use configuration::Config;
use files::Files;
use std::alloc::Global;

/// The configuration, and the documents that options name.
#[derive(Drop)]
pub(crate) struct Options {
    pub(crate) config: Config,
    pub(crate) openapi: Option<NamedDocument>,
    pub(crate) check: Option<NamedDocument>,
}

/// What the options of the request name: its configuration, the OpenAPI document, and the document that is compared with.
pub(crate) fn options_at<F: Files>(
    alloc: Global,
    request: &Request,
    files: &mut F,
) -> Result<Options, Ending>
    ensures said { IfOk result (λ options. IsSaidBy IsConfigurationText (F.tells files.old)
        (F.held files.old) request.now.config options.config) }
    ensures openapi { IfOk result (λ options. IsDocumentAt (F.tells files.old)
        (F.held files.old) request.now.openapi (option_map named_view options.openapi)) }
    ensures check { IfOk result (λ options. IsDocumentAt (F.tells files.old)
        (F.held files.old) request.now.check (option_map named_view options.check)) }
    ensures ending { IfErr result
        (EndsOptions (F.tells files.old) (F.held files.old) request.now) }
    ensures tells_on { F.tells files.new ≡ F.tells files.old }
    ensures same { (path : AnyList ℕ) → F.held files.new path ≡ F.held files.old path }
    ensures kept { status_at result ≢ Status.FileFault → status_at result ≢ Status.Memory
        → F.faults files.new ≡ F.faults files.old }
    ensures failed { status_at result ≡ Status.FileFault → (path : AnyList ℕ)
        × IsOfOption request.now path × FailsAt (F.faults files.old) (F.faults files.new)
        (F.failed files.new) (F.why files.new) path (report_at result) }
{
    let config = config_at(alloc, request, files)?;
    let openapi = document_at(alloc, &request.openapi, files)?;
    let check = document_at(alloc, &request.check, files)?;
    Ok(Options {
        config,
        openapi,
        check,
    })
}
