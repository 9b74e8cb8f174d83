//! The configuration that words name.

ghost use Rattle.std.specs.Prelude.{◌≡◌, ◌≢◌, ℕ, List as AnyList, IfOk, IfErr};
ghost use Rattle.diag.specs.Refusal.{Refuses};
ghost use Rattle.configuration_json.specs.Form.{IsConfigurationText, IsRefusedText};
ghost use Rattle.configuration_json.specs.Said.{IsSaidBy, SayNone};
ghost use Rattle.telling.specs.Told.{told_text};
ghost use Rattle.file_runs.specs.Contents.{IsReadOf, TellsConfig, TellsError, IsFaultyRead};
ghost use Rattle.file_runs.specs.Given.{told_config};
ghost use Rattle.file_runs.specs.Owed.{status_of, status_at, report_of, FailsAt};

use crate::ending::Ending;
use crate::reading::bytes_at;
use crate::request::Request;
use crate::status::Status;
use configuration::Config;
use configuration_json::{ConfigPart, FromJson, bad_config, faulty_part, part_help};
use diag::{DeriveError, Diagnostics};
use files::{FileBytes, Files};
use gathering::told_unplaced;
use std::alloc::{AllocError, Global};
use telling::told_text;
use texts::Text;

/// The most bytes of a configuration.
const MOST_BYTES: usize = 1_048_576;

/// The part of the configuration that is at fault, where it is refused for its form, in a file of which this was read.
fn part_of(alloc: Global, read: &Option<FileBytes>) -> Result<Option<ConfigPart>, AllocError>
    ensures { IfOk result (IsFaultyRead MOST_BYTES read.now) }
{
    match read {
        Some(bytes) => faulty_part(alloc, bytes.as_slice()),
        None => Ok(Some(ConfigPart::Text)),
    }
}

/// What is told of the refusal of the configuration at the path, of which this part is at fault.
fn report_of(
    alloc: Global,
    path: &str,
    refusal: &Diagnostics,
    part: Option<ConfigPart>,
) -> Result<Text, AllocError>
    ensures { IfOk result (λ report. report ≡ told_text (told_config path.now refusal.now part)) }
{
    let mut told = told_unplaced(alloc, path, refusal)?;
    if let Some(part) = part {
        told.help = Some(Text::new(alloc, part_help(part))?);
    }
    told_text(alloc, &told)
}

/// The ending of a run whose configuration, at the path, is refused; this was read of it.
fn refused_at(
    alloc: Global,
    path: &str,
    read: &Option<FileBytes>,
    refusal: &Diagnostics,
) -> Result<Ending, AllocError>
    ensures { IfOk result
        (TellsError (IsFaultyRead MOST_BYTES read.now) path.now (DeriveError.Refused refusal.now)) }
{
    let part = part_of(alloc, read)?;
    Ok(Ending::Refused(report_of(alloc, path, refusal, part)?))
}

/// The ending of a run whose configuration, at the path, has this error; this was read of it.
fn ending_of(alloc: Global, path: &str, read: &Option<FileBytes>, error: DeriveError) -> Ending
    ensures { TellsError (IsFaultyRead MOST_BYTES read.now) path.now error result }
{
    match error {
        DeriveError::Refused(refusal) => match refused_at(alloc, path, read, &refusal) {
            Ok(ending) => ending,
            Err(AllocError) => Ending::Memory,
        },
        DeriveError::Memory => Ending::Memory,
    }
}

/// The configuration of a file of which this was read.
fn config_of(alloc: Global, read: &Option<FileBytes>) -> Result<Config, DeriveError>
    ensures said { IfOk result (λ config. (text : AnyList ℕ) → IsReadOf MOST_BYTES text read.now
        → IsConfigurationText text config) }
    ensures refused { Refuses result (λ e. (text : AnyList ℕ) → IsReadOf MOST_BYTES text read.now
        → SayNone text × IsRefusedText text e) }
{
    match read {
        Some(bytes) => Config::from_slice(alloc, bytes.as_slice()),
        None => Err(bad_config(alloc)),
    }
}

/// The configuration that the request names, or the empty one.
pub(crate) fn config_at<F: Files>(
    alloc: Global,
    request: &Request,
    files: &mut F,
) -> Result<Config, Ending>
    ensures said { IfOk result (IsSaidBy IsConfigurationText (F.tells files.old)
        (F.held files.old) request.now.config) }
    ensures ending { IfErr result (λ ending. (path : AnyList ℕ)
        × (request.now.config ≡ Some path)
        × TellsConfig (F.tells files.old) (F.held files.old path) path ending
        × (status_of ending ≡ Status.FileFault
        → FailsAt (F.faults files.old) (F.faults files.new) (F.failed files.new)
        (F.why files.new) path (report_of ending))) }
    ensures tells_on { F.tells files.new ≡ F.tells files.old }
    ensures same { (other : AnyList ℕ) → F.held files.new other ≡ F.held files.old other }
    ensures kept { status_at result ≢ Status.FileFault → status_at result ≢ Status.Memory
        → F.faults files.new ≡ F.faults files.old }
{
    let Some(path) = &request.config else {
        return Ok(Config::new(alloc));
    };
    let read = bytes_at(alloc, path.as_str(), MOST_BYTES, files)?;
    match config_of(alloc, &read) {
        Ok(config) => Ok(config),
        Err(error) => Err(ending_of(alloc, path.as_str(), &read, error)),
    }
}
