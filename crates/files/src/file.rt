ghost use Rattle.std.specs.Prelude.{◌≡◌};

use std::alloc::AllocError;
use std::marker::Model;

/// Why a file was not read.
#[derive(Clone, Copy, Debug, PartialEq, Eq, Drop)]
pub enum FileAnswer {
    /// There is no file at the path, or reading it failed.
    Failed,
    /// The file has more bytes than were asked for.
    Longer,
    /// There is no memory to hold the bytes.
    Memory,
}

impl From<AllocError> for FileAnswer {
    ghost use Rattle.std.specs.Prelude.{◌≡◌};
    ghost use Rattle.files.specs.declared.file.FileAnswer.TheVariants.{Memory};

    ghost from_gives = { λ _ answer. answer ≡ Memory };

    fn from(_error: AllocError) -> FileAnswer {
        FileAnswer::Memory
    }
}

/// The bytes of a whole file. Contracts see the list of them.
#[derive(Debug, Drop)]
pub struct FileBytes {
    bytes: Vec<u8>,
}

impl Model for FileBytes {
    ghost use Rattle.std.specs.Prelude.{List, ℕ};

    ghost Value = { List ℕ };

    ghost view = { λ file. file.bytes.items };
}

impl FileBytes {
    /// The bytes, in order.
    pub fn as_slice(&self) -> &[u8]
        ensures { result.now ≡ self.now }
    {
        self.bytes.as_slice()
    }
}

impl From<Vec<u8>> for FileBytes {
    ghost use Rattle.std.specs.Prelude.{◌≡◌};

    ghost from_gives = { λ bytes file. file ≡ bytes.items };

    fn from(bytes: Vec<u8>) -> FileBytes {
        FileBytes { bytes }
    }
}
