//! What is read of the input.

ghost use Rattle.std.specs.Prelude.{◌≡◌, ◌≢◌, IfOk, IfErr};
ghost use Rattle.streams.specs.Faults.{CountsFault};
ghost use Rattle.file_runs.specs.Contents.{AreContents, TellsInput};
ghost use Rattle.file_runs.specs.Owed.{status_at};
ghost use Rattle.file_runs.specs.Words.{IsOfInput};

use crate::ending::Ending;
use crate::request::Request;
use crate::status::Status;
use files::FileBytes;
use prepare::is_in;
use std::alloc::Global;
use streams::{ReadError, Source, read_all};

/// The most bytes of a file.
pub(crate) const MOST_BYTES: usize = 16_777_216;

/// What the input has, where the request names it, or nothing where that is too long; else nothing is read.
pub(crate) fn contents_of<S: Source>(
    alloc: Global,
    request: &Request,
    input: &mut S,
) -> Result<Option<FileBytes>, Ending>
    ensures contents { IfOk result (λ read. IsOfInput request.now
        → AreContents (S.left input.old) (S.left input.new) read) }
    ensures ending { IfErr result TellsInput }
    ensures named { IfErr result (λ _. IsOfInput request.now) }
    ensures unread { ¬ (IsOfInput request.now) → input.new ≡ input.old }
    ensures kept { status_at result ≢ Status.ReadFault
        → S.faults input.new ≡ S.faults input.old }
    ensures failed { status_at result ≡ Status.ReadFault
        → CountsFault (S.faults input.old) (S.faults input.new) }
{
    if !is_in("-", request.files.as_slice()) {
        return Ok(None);
    }
    match read_all(alloc, input, MOST_BYTES) {
        Ok(bytes) => Ok(Some(FileBytes::from(bytes))),
        Err(ReadError::TooLong) => Ok(None),
        Err(ReadError::Failed) => Err(Ending::ReadFault),
        Err(ReadError::Memory) => Err(Ending::Memory),
    }
}
