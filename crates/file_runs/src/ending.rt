//! What a run has to write, made whole before the first byte is written.

ghost use Rattle.std.specs.Prelude.{◌≡◌};
ghost use Rattle.file_runs.specs.Owed.{status_of, document_of, report_of};

use crate::status::Status;
use std::alloc::AllocError;
use texts::Text;

/// The end of a run, before it is written.
#[derive(Drop)]
pub enum Ending {
    /// This text answers the words, and this is reported beside it.
    Done(Text, Text),
    /// The configuration or the files are refused, and the text tells why.
    Refused(Text),
    /// The words ask for nothing, and the text tells why.
    Usage(Text),
    /// The input could not be read.
    ReadFault,
    /// There is no memory for the work.
    Memory,
    /// A file could not be read, which the text names.
    FileFault(Text),
}

impl From<AllocError> for Ending {
    ghost use Rattle.std.specs.Prelude.{◌≡◌};
    ghost use Rattle.file_runs.specs.declared.ending.Ending.TheVariants.{Memory};

    ghost from_gives = { λ _ ending. ending ≡ Memory };

    fn from(_error: AllocError) -> Ending {
        Ending::Memory
    }
}

impl Ending {
    /// The status of a run that ends so, where nothing fails while that is written.
    pub fn status(&self) -> Status
        ensures { result ≡ status_of self.now }
    {
        match self {
            Ending::Done(_, _) => Status::Done,
            Ending::Refused(_) => Status::Refused,
            Ending::Usage(_) => Status::Usage,
            Ending::ReadFault => Status::ReadFault,
            Ending::Memory => Status::Memory,
            Ending::FileFault(_) => Status::FileFault,
        }
    }

    /// What the output gets.
    pub fn document(&self) -> &str
        ensures { result.now ≡ document_of self.now }
    {
        match self {
            Ending::Done(text, _) => text.as_str(),
            _ => "",
        }
    }

    /// What the output for reports gets.
    pub fn report(&self) -> &str
        ensures { result.now ≡ report_of self.now }
    {
        match self {
            Ending::Done(_, report) => report.as_str(),
            Ending::Refused(report) => report.as_str(),
            Ending::Usage(report) => report.as_str(),
            Ending::FileFault(report) => report.as_str(),
            Ending::ReadFault => "-: cannot be read\n",
            Ending::Memory => "",
        }
    }
}
