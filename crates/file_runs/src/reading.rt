//! What is read of the files that words name.

ghost use Rattle.std.specs.Prelude.{◌≡◌, ◌≤◌, ℕ, List as AnyList, true, false, codes, IfOk, IfErr, OnOk};
ghost use Rattle.std.specs.declared.option.Option.{Option as AnyOption};
ghost use Rattle.files.specs.Held.{IsHeld};
ghost use Rattle.texts.specs.Names.{is_in};
ghost use Rattle.gathering.specs.Files.{FileOf, Gathers, most_bytes};
ghost use Rattle.file_runs.specs.Contents.{IsReadOf, AreContents, IsTextBy, IsTextAt, Adds, TellsFile};
ghost use Rattle.file_runs.specs.Given.{AreFilesAt};
ghost use Rattle.file_runs.specs.Owed.{status_of, status_at, report_of, report_at, FailsAt};
ghost use Rattle.file_runs.specs.Words.{is_input};

use crate::contents::MOST_BYTES;
use crate::ending::Ending;
use crate::reports::file_fault;
use crate::status::Status;
use files::{FileAnswer, FileBytes, Files};
use gathering::{Gathered, Source};
use std::alloc::{AllocError, Global};
use texts::Text;

/// The bytes of the file at the path, or nothing where there are more than so many.
pub(crate) fn bytes_at<F: Files>(
    alloc: Global,
    path: &str,
    most: usize,
    files: &mut F,
) -> Result<Option<FileBytes>, Ending>
    ensures bytes { IfOk result (λ read. (text : AnyList ℕ)
        × IsHeld (F.tells files.old) (F.held files.old path.now) text × IsReadOf most text read) }
    ensures ending { IfErr result (TellsFile path.now) }
    ensures tells_on { F.tells files.new ≡ F.tells files.old }
    ensures same { (other : AnyList ℕ) → F.held files.new other ≡ F.held files.old other }
    ensures calm { OnOk result (F.faults files.new ≡ F.faults files.old) }
    ensures failed { status_at result ≡ Status.FileFault
        → FailsAt (F.faults files.old) (F.faults files.new) (F.failed files.new)
        (F.why files.new) path.now (report_at result) }
{
    match files.read_file(alloc, path, most) {
        Ok(bytes) => Ok(Some(bytes)),
        Err(FileAnswer::Longer) => Ok(None),
        Err(FileAnswer::Failed) => Err(file_fault(alloc, path, files.cause())),
        Err(FileAnswer::Memory) => Err(Ending::Memory),
    }
}

/// Adds the file of the name, of which this was read.
fn add(
    alloc: Global,
    gathered: &mut Gathered,
    name: &str,
    read: &Option<FileBytes>,
) -> Result<(), AllocError>
    ensures { OnOk result ((text : AnyList ℕ) → IsReadOf most_bytes text read.now
        → Adds gathered.old gathered.new name.now text) }
{
    match read {
        Some(bytes) => {
            let source = Source {
                name,
                bytes: bytes.as_slice(),
            };
            gathered.add(alloc, &source)
        }
        None => gathered.add_longer(alloc, name),
    }
}

/// Adds the file at the path; `-` is the input, which has these contents.
fn add_path<F: Files>(
    alloc: Global,
    gathered: &mut Gathered,
    path: &str,
    contents: &Option<FileBytes>,
    files: &mut F,
) -> Result<(), Ending>
    ensures added { OnOk result ((had has : AnyOption (AnyList ℕ))
        → (is_input path.now ≡ true → AreContents had has contents.now) → (text : AnyList ℕ)
        × IsTextBy (is_input path.now) (F.tells files.old) (F.held files.old path.now) had has text
        × Adds gathered.old gathered.new path.now text) }
    ensures ending { IfErr result (TellsFile path.now) }
    ensures named { status_at result ≡ Status.FileFault → is_input path.now ≡ false }
    ensures tells_on { F.tells files.new ≡ F.tells files.old }
    ensures same { (other : AnyList ℕ) → F.held files.new other ≡ F.held files.old other }
    ensures calm { OnOk result (F.faults files.new ≡ F.faults files.old) }
    ensures failed { status_at result ≡ Status.FileFault
        → FailsAt (F.faults files.old) (F.faults files.new) (F.failed files.new)
        (F.why files.new) path.now (report_at result) }
{
    if path == "-" {
        add(alloc, gathered, path, contents)?;
        return Ok(());
    }
    let read = bytes_at(alloc, path, MOST_BYTES, files)?;
    add(alloc, gathered, path, &read)?;
    Ok(())
}

/// The files at the paths, read one after another; `-` is the input, which has these contents.
pub(crate) fn gather<F: Files>(
    alloc: Global,
    paths: &[Text],
    contents: &Option<FileBytes>,
    files: &mut F,
) -> Result<Gathered, Ending>
    ensures gathered { IfOk result (λ gathered. (had has : AnyOption (AnyList ℕ))
        → (is_in (codes "-") paths.now ≡ true → AreContents had has contents.now)
        → (of : AnyList FileOf)
        × AreFilesAt (IsTextAt (F.tells files.old) (F.held files.old) had has) paths.now of
        × Gathers of gathered) }
    ensures ending { IfErr result (λ ending. (path : AnyList ℕ) × TellsFile path ending
        × (status_of ending ≡ Status.FileFault
        → (is_in path paths.now ≡ true) × (is_input path ≡ false)
        × FailsAt (F.faults files.old) (F.faults files.new) (F.failed files.new)
        (F.why files.new) path (report_of ending))) }
    ensures tells_on { F.tells files.new ≡ F.tells files.old }
    ensures same { (other : AnyList ℕ) → F.held files.new other ≡ F.held files.old other }
    ensures calm { OnOk result (F.faults files.new ≡ F.faults files.old) }
{
    let mut gathered = Gathered::new(alloc);
    for path in paths {
        add_path(alloc, &mut gathered, path.as_str(), contents, files)?;
    }
    Ok(gathered)
}
