//! What a run has to write, made whole before the first byte is written.

ghost use Rattle.std.specs.Prelude.{◌≡◌};
ghost use Rattle.reporting.specs.Endings.{status_of, document_of, report_of, Reports, ReportsError};

use crate::refusal::refusal_line;
use crate::status::Status;
use diag::{DeriveError, Diagnostics, Kind};
use std::alloc::{AllocError, Global};
use texts::Text;

/// The end of a run, before it is written.
#[derive(Drop)]
pub(crate) enum Ending {
    /// The run has made this document.
    Done(Text),
    /// What the run was given is refused, for a cause of this kind, and this line tells it.
    Refused(Kind, Text),
    /// The words have no form that is known, and this line tells how to use the program.
    Usage(&'static str),
    /// The input could not be read.
    ReadFault,
    /// There is no memory for the work.
    Memory,
    /// The file that the words name could not be read.
    FileFault,
}

impl Ending {
    /// The end of a run that is refused. It is want of memory where there is none for the line.
    fn of_refusal(alloc: Global, refusal: &Diagnostics) -> Ending
        ensures { Reports refusal.now result }
    {
        match refusal_line(alloc, refusal) {
            Ok(line) => Ending::Refused(refusal.kind(), line),
            Err(AllocError) => Ending::Memory,
        }
    }

    /// The end of a run that ends with the error.
    pub(crate) fn of_error(alloc: Global, error: DeriveError) -> Ending
        ensures { ReportsError error result }
    {
        match error {
            DeriveError::Refused(refusal) => Ending::of_refusal(alloc, &refusal),
            DeriveError::Memory => Ending::Memory,
        }
    }

    /// The status of a run that ends so, where nothing fails while that is written.
    pub(crate) fn status(&self) -> Status
        ensures { result ≡ status_of self.now }
    {
        match self {
            Ending::Done(_) => Status::Done,
            Ending::Refused(kind, _) => Status::Refused(*kind),
            Ending::Usage(_) => Status::Usage,
            Ending::ReadFault => Status::ReadFault,
            Ending::Memory => Status::Memory,
            Ending::FileFault => Status::FileFault,
        }
    }

    /// What the output gets.
    pub(crate) fn document(&self) -> &str
        ensures { result.now ≡ document_of self.now }
    {
        match self {
            Ending::Done(text) => text.as_str(),
            _ => "",
        }
    }

    /// What the output for reports gets.
    pub(crate) fn report(&self) -> &str
        ensures { result.now ≡ report_of self.now }
    {
        match self {
            Ending::Refused(_, line) => line.as_str(),
            Ending::Usage(line) => line,
            Ending::ReadFault => "read fault\n",
            Ending::FileFault => "file fault\n",
            Ending::Done(_) | Ending::Memory => "",
        }
    }
}
