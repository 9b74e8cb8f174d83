ghost use Rattle.std.specs.Prelude.{◌≡◌, None, false};
ghost use Rattle.files.specs.Faults.{fault_path};

use crate::cause::Cause;
use crate::faults::Faults;
use crate::file::{FileAnswer, FileBytes};
use crate::files::Files;
use std::alloc::Global;
use std::rt::Files as FileSystem;
use std::{fs, io};
use streams::{ReadError, StdSource, read_all};

/// The files of a runtime, as those of the system. They tell nothing of what is held.
#[derive(Drop)]
pub struct StdFiles<R> {
    runtime: R,
    faults: Faults,
}

/// Why a file could not be opened.
fn cause_of(error: &io::Error) -> Cause {
    match error.kind() {
        io::ErrorKind::NotFound => Cause::Missing,
        io::ErrorKind::PermissionDenied => Cause::Denied,
        _ => Cause::Unknown,
    }
}

/// Why what was opened at the path could not be read.
fn unread_cause<R: FileSystem>(runtime: &R, path: &str) -> Cause {
    match fs::metadata(runtime, path) {
        Ok(metadata) if metadata.is_dir() => Cause::IsFolder,
        _ => Cause::Unknown,
    }
}

impl<R: FileSystem> StdFiles<R> {
    /// No fault was counted yet.
    pub fn new(runtime: R) -> StdFiles<R>
        ensures tells { ⟦<StdFiles<R> as Files>⟧.tells result ≡ false }
        ensures failed { ⟦<StdFiles<R> as Files>⟧.failed result ≡ None }
        ensures faults { ⟦<StdFiles<R> as Files>⟧.faults result ≡ 0 }
    {
        StdFiles {
            runtime,
            faults: Faults::none(),
        }
    }
}

impl<R: FileSystem> Files for StdFiles<R> {
    ghost tells = { λ _. false };

    ghost held = { λ _ _. None };

    ghost failed = { λ files. fault_path files.faults };

    ghost why = { λ files. files.faults.cause };

    ghost faults = { λ files. files.faults.count };

    fn read_file(
        &mut self,
        alloc: Global,
        path: &str,
        most: usize,
    ) -> Result<FileBytes, FileAnswer> {
        let file = match fs::open(&self.runtime, path) {
            Ok(file) => file,
            Err(error) => return Err(self.faults.raise(alloc, path, cause_of(&error))),
        };
        match read_all(alloc, &mut StdSource::new(file), most) {
            Ok(bytes) => Ok(FileBytes::from(bytes)),
            Err(ReadError::TooLong) => Err(FileAnswer::Longer),
            Err(ReadError::Memory) => Err(FileAnswer::Memory),
            Err(ReadError::Failed) => {
                let cause = unread_cause(&self.runtime, path);
                Err(self.faults.raise(alloc, path, cause))
            }
        }
    }

    fn cause(&self) -> Cause {
        self.faults.cause
    }
}
