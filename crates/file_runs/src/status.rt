ghost use Rattle.std.specs.Prelude.{◌≡◌};
ghost use Rattle.file_runs.specs.Owed.{number_of};

/// How a run ends.
#[derive(Clone, Copy, Debug, PartialEq, Eq)]
pub enum Status {
    /// What the words ask for was written.
    Done,
    /// The configuration or the files were refused.
    Refused,
    /// The words ask for nothing.
    Usage,
    /// The input could not be read.
    ReadFault,
    /// The output, or the output for reports, could not be written or flushed.
    WriteFault,
    /// There is no memory for the work.
    Memory,
    /// A file that the words name could not be read.
    FileFault,
}

impl Status {
    /// The number that the program ends with.
    pub fn number(&self) -> u8
        ensures { result ≡ number_of self.now }
    {
        match self {
            Status::Done => 0,
            Status::Refused => 1,
            Status::Usage => 2,
            Status::ReadFault => 3,
            Status::WriteFault => 4,
            Status::Memory => 5,
            Status::FileFault => 6,
        }
    }
}
