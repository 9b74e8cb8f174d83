ghost use Rattle.std.specs.Prelude.{◌≡◌};
ghost use Rattle.reporting.specs.Numbers.{number_of};

use diag::Kind;

/// How a run ends.
#[derive(Clone, Copy, Debug, PartialEq, Eq)]
pub enum Status {
    /// The document was written.
    Done,
    /// The configuration or the source was refused, for a cause of this kind.
    Refused(Kind),
    /// The words have no form that is known.
    Usage,
    /// The input could not be read.
    ReadFault,
    /// The output, or the output for reports, could not be written or flushed.
    WriteFault,
    /// There is no memory for the work.
    Memory,
    /// The file that the words name could not be read.
    FileFault,
}

impl Status {
    /// The number that the program ends with.
    pub fn number(&self) -> u8
        ensures { result ≡ number_of self.now }
    {
        match self {
            Status::Done => 0,
            Status::Refused(_) => 1,
            Status::Usage => 2,
            Status::ReadFault => 3,
            Status::WriteFault => 4,
            Status::Memory => 5,
            Status::FileFault => 6,
        }
    }
}
