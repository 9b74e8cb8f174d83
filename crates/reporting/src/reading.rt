//! A run up to its ending: it reads the file that the words name and the input, and writes nothing.

ghost use Rattle.std.specs.Prelude.{◌≡◌, ◌≢◌, ◌≤◌, ◌⊎◌, ℕ, List, Option, length, IfOk, IfErr, IsErrAnd, MatchOption, OnOk};
ghost use Rattle.std.specs.Io.KnownBytes.{IsAtEnd};
ghost use Rattle.diag.specs.declared.kind.Kind.{Kind as AnyKind};
ghost use Rattle.streams.specs.Faults.{CountsFault};
ghost use Rattle.streams.specs.Told.{IsAll};
ghost use Rattle.files.specs.Held.{IsMissing};
ghost use Rattle.reporting.specs.Beginning.{Beginning, begun_with, beginning_of};
ghost use Rattle.reporting.specs.Bytes.{most_bytes};
ghost use Rattle.reporting.specs.Command.{HasFile, HasNoFile, IsRest};
ghost use Rattle.reporting.specs.Endings.{status_of};
ghost use Rattle.reporting.specs.Owed.{IsEnding};
ghost use Rattle.reporting.specs.Program.{AreOfForm, IsRefusedGiven, IsReportOf};

use crate::command::Command;
use crate::ending::Ending;
use crate::refusal::{MAX_BYTES, too_long};
use crate::rest::Rest;
use crate::status::Status;
use crate::words::Words;
use files::{FileAnswer, Files};
use std::alloc::Global;
use streams::{ReadError, Source, read_all};

/// The ending of a run with an input of these bytes.
fn end_of_bytes<C: Command>(alloc: Global, work: &C::Work, bytes: &[u8]) -> Ending
    requires { length bytes.now ≤ most_bytes }
    ensures owed { (begun : Beginning) → AreOfForm C.program begun.words
        → C.is_work work.now begun → IsAll begun.left bytes.now
        → IsEnding C.program begun result }
    ensures of_given { (begun : Beginning) (kind : AnyKind)
        → C.is_work work.now begun → IsAll begun.left bytes.now
        → status_of result ≡ Status.Refused kind
        → (line : List ℕ) × IsReportOf (IsRefusedGiven C.program begun) kind line }
    ensures no_read_fault { status_of result ≢ Status.ReadFault }
    ensures no_file_fault { status_of result ≢ Status.FileFault }
{
    match C::answer(alloc, work, bytes) {
        Ok(text) => Ending::Done(text),
        Err(error) => Ending::of_error(alloc, error),
    }
}

/// Reads the input and does the work.
fn end_of_input<C: Command, S: Source>(alloc: Global, work: &C::Work, input: &mut S) -> Ending
    ensures owed { (begun : Beginning) → AreOfForm C.program begun.words
        → C.is_work work.now begun → begun.left ≡ S.left input.old
        → IsEnding C.program begun result }
    ensures of_given { (begun : Beginning) (kind : AnyKind)
        → C.is_work work.now begun → begun.left ≡ S.left input.old
        → status_of result ≡ Status.Refused kind
        → (line : List ℕ) × IsReportOf (IsRefusedGiven C.program begun) kind line }
    ensures end { status_of result ≡ Status.Done → IsAtEnd (S.left input.new) }
    ensures later { S.faults input.old ≤ S.faults input.new }
    ensures kept { status_of result ≢ Status.ReadFault → S.faults input.new ≡ S.faults input.old }
    ensures failed { status_of result ≡ Status.ReadFault
        → CountsFault (S.faults input.old) (S.faults input.new) }
    ensures no_file_fault { status_of result ≢ Status.FileFault }
{
    match read_all(alloc, input, MAX_BYTES) {
        Ok(bytes) => end_of_bytes::<C>(alloc, work, bytes.as_slice()),
        Err(ReadError::Failed) => Ending::ReadFault,
        Err(ReadError::TooLong) => Ending::of_error(alloc, too_long(alloc)),
        Err(ReadError::Memory) => Ending::Memory,
    }
}

/// Does what is left to be done. It reads the input only where that is asked for.
fn end_of_rest<C: Command, S: Source>(alloc: Global, rest: Rest<C::Work>, input: &mut S) -> Ending
    ensures owed { (begun : Beginning) → AreOfForm C.program begun.words
        → IsRest C.program C.is_work begun rest → begun.left ≡ S.left input.old
        → IsEnding C.program begun result }
    ensures of_given { (begun : Beginning) (kind : AnyKind)
        → IsRest C.program C.is_work begun rest → begun.left ≡ S.left input.old
        → status_of result ≡ Status.Refused kind
        → (line : List ℕ) × IsReportOf (IsRefusedGiven C.program begun) kind line }
    ensures unread { (begun : Beginning) → IsRest C.program C.is_work begun rest
        → ¬ (C.program.asks_for_input begun) → input.new ≡ input.old }
    ensures end { (begun : Beginning) → IsRest C.program C.is_work begun rest
        → status_of result ≡ Status.Done → C.program.asks_for_input begun
        → IsAtEnd (S.left input.new) }
    ensures later { S.faults input.old ≤ S.faults input.new }
    ensures kept { status_of result ≢ Status.ReadFault → S.faults input.new ≡ S.faults input.old }
    ensures failed { status_of result ≡ Status.ReadFault
        → CountsFault (S.faults input.old) (S.faults input.new) }
    ensures no_file_fault { status_of result ≢ Status.FileFault }
{
    match rest {
        Rest::Work(work) => end_of_input::<C, S>(alloc, &work, input),
        Rest::Answer(text) => Ending::Done(text),
    }
}

/// What the bytes of the file leave to be done, or the ending of a run with that file.
fn rest_of_bytes<C: Command>(
    alloc: Global,
    command: &C,
    bytes: &[u8],
) -> Result<Rest<C::Work>, Ending>
    requires { length bytes.now ≤ most_bytes }
    ensures rest { IfOk result (λ rest. (begun : Beginning)
        → HasFile C.program begun (C.request command.now) bytes.now
        → IsRest C.program C.is_work begun rest) }
    ensures owed { IfErr result (λ ending. (begun : Beginning)
        → HasFile C.program begun (C.request command.now) bytes.now
        → IsEnding C.program begun ending) }
    ensures not_done { IfErr result (λ ending. status_of ending ≢ Status.Done) }
    ensures no_read_fault { IfErr result (λ ending. status_of ending ≢ Status.ReadFault) }
    ensures no_file_fault { IfErr result (λ ending. status_of ending ≢ Status.FileFault) }
{
    match command.with_file(alloc, bytes) {
        Ok(rest) => Ok(rest),
        Err(error) => Err(Ending::of_error(alloc, error)),
    }
}

/// What the file at the path leaves to be done, or the ending of a run that names it.
fn rest_of_file<C: Command, F: Files>(
    alloc: Global,
    command: &C,
    path: &str,
    files: &mut F,
) -> Result<Rest<C::Work>, Ending>
    ensures rest { IfOk result (λ rest. (words : List (List ℕ)) (left : Option (List ℕ))
        → C.program.ask_for words (C.request command.now) → C.program.name_path words path.now
        → IsRest C.program C.is_work (begun_with F.Files words files.old left) rest) }
    ensures owed { IfErr result (λ ending. (words : List (List ℕ)) (left : Option (List ℕ))
        → C.program.ask_for words (C.request command.now) → C.program.name_path words path.now
        → IsEnding C.program (begun_with F.Files words files.old left) ending) }
    ensures missing { IsMissing (F.tells files.old) (F.held files.old path.now)
        → IsErrAnd result (λ ending. (status_of ending ≡ Status.FileFault)
        ⊎ (status_of ending ≡ Status.Memory)) }
    ensures not_done { IfErr result (λ ending. status_of ending ≢ Status.Done) }
    ensures no_read_fault { IfErr result (λ ending. status_of ending ≢ Status.ReadFault) }
    ensures tells_on { F.tells files.new ≡ F.tells files.old }
    ensures same { (other : List ℕ) → F.held files.new other ≡ F.held files.old other }
    ensures later { F.faults files.old ≤ F.faults files.new }
    ensures calm { OnOk result (F.faults files.new ≡ F.faults files.old) }
    ensures kept { IfErr result (λ ending. status_of ending ≢ Status.FileFault
        → F.faults files.new ≡ F.faults files.old) }
    ensures failed { IfErr result (λ ending. status_of ending ≡ Status.FileFault
        → CountsFault (F.faults files.old) (F.faults files.new)
        × (F.failed files.new ≡ Some path.now)) }
{
    match files.read_file(alloc, path, MAX_BYTES) {
        Ok(bytes) => rest_of_bytes(alloc, command, bytes.as_slice()),
        Err(FileAnswer::Longer) => Err(Ending::of_error(alloc, command.longer_file(alloc))),
        Err(FileAnswer::Failed) => Err(Ending::FileFault),
        Err(FileAnswer::Memory) => Err(Ending::Memory),
    }
}

/// What words that name no file leave to be done, or the ending of a run with them.
fn rest_of_none<C: Command>(alloc: Global, command: &C) -> Result<Rest<C::Work>, Ending>
    ensures rest { IfOk result (λ rest. (begun : Beginning)
        → HasNoFile C.program begun (C.request command.now)
        → IsRest C.program C.is_work begun rest) }
    ensures owed { IfErr result (λ ending. (begun : Beginning)
        → HasNoFile C.program begun (C.request command.now) → IsEnding C.program begun ending) }
    ensures not_done { IfErr result (λ ending. status_of ending ≢ Status.Done) }
    ensures no_read_fault { IfErr result (λ ending. status_of ending ≢ Status.ReadFault) }
    ensures no_file_fault { IfErr result (λ ending. status_of ending ≢ Status.FileFault) }
{
    match command.without_file(alloc) {
        Ok(rest) => Ok(rest),
        Err(error) => Err(Ending::of_error(alloc, error)),
    }
}

/// What the words, and the file that they name, leave to be done, or the ending of a run with them.
fn rest_of_words<C: Command, F: Files>(
    alloc: Global,
    words: &Words,
    command: Option<C>,
    files: &mut F,
) -> Result<Rest<C::Work>, Ending>
    requires { MatchOption command (¬ (AreOfForm C.program words.now))
        (λ command. C.program.ask_for words.now (C.request command)) }
    ensures form { OnOk result (AreOfForm C.program words.now) }
    ensures usage { ¬ (AreOfForm C.program words.now)
        → IsErrAnd result (λ ending. status_of ending ≡ Status.Usage) }
    ensures rest { IfOk result (λ rest. (left : Option (List ℕ))
        → IsRest C.program C.is_work (begun_with F.Files words.now files.old left) rest) }
    ensures owed { IfErr result (λ ending. (left : Option (List ℕ))
        → IsEnding C.program (begun_with F.Files words.now files.old left) ending) }
    ensures missing { (path : List ℕ) → C.program.name_path words.now path
        → IsMissing (F.tells files.old) (F.held files.old path)
        → AreOfForm C.program words.now
        → IsErrAnd result (λ ending. (status_of ending ≡ Status.FileFault)
        ⊎ (status_of ending ≡ Status.Memory)) }
    ensures not_done { IfErr result (λ ending. status_of ending ≢ Status.Done) }
    ensures no_read_fault { IfErr result (λ ending. status_of ending ≢ Status.ReadFault) }
    ensures no_file { ((path : List ℕ) → ¬ (C.program.name_path words.now path))
        → files.new ≡ files.old }
    ensures tells_on { F.tells files.new ≡ F.tells files.old }
    ensures same { (path : List ℕ) → F.held files.new path ≡ F.held files.old path }
    ensures later { F.faults files.old ≤ F.faults files.new }
    ensures calm { OnOk result (F.faults files.new ≡ F.faults files.old) }
    ensures kept { IfErr result (λ ending. status_of ending ≢ Status.FileFault
        → F.faults files.new ≡ F.faults files.old) }
    ensures failed { IfErr result (λ ending. status_of ending ≡ Status.FileFault
        → CountsFault (F.faults files.old) (F.faults files.new)
        × ((path : List ℕ) × C.program.name_path words.now path
        × (F.failed files.new ≡ Some path))) }
{
    let Some(command) = command else {
        return Err(Ending::Usage(C::usage()));
    };
    match command.path() {
        Some(path) => rest_of_file(alloc, &command, path, files),
        None => rest_of_none(alloc, &command),
    }
}

/// Reads and answers; it writes nothing. With words of no form it reads nothing, and it reads the input only where that is
/// asked for.
pub(crate) fn end_of<C: Command, S: Source, F: Files>(
    alloc: Global,
    words: &Words,
    command: Option<C>,
    input: &mut S,
    files: &mut F,
) -> Ending
    requires { MatchOption command (¬ (AreOfForm C.program words.now))
        (λ command. C.program.ask_for words.now (C.request command)) }
    ensures owed { IsEnding C.program
        (beginning_of S.Source F.Files words.now input.old files.old) result }
    ensures usage { ¬ (AreOfForm C.program words.now) → status_of result ≡ Status.Usage }
    ensures missing { (path : List ℕ) → C.program.name_path words.now path
        → IsMissing (F.tells files.old) (F.held files.old path)
        → AreOfForm C.program words.now
        → (status_of result ≡ Status.FileFault) ⊎ (status_of result ≡ Status.Memory) }
    ensures unread { ¬ (C.program.asks_for_input
        (beginning_of S.Source F.Files words.now input.old files.old))
        → input.new ≡ input.old }
    ensures unread_fault { status_of result ≡ Status.FileFault → input.new ≡ input.old }
    ensures unread_refusal { (kind : AnyKind) → status_of result ≡ Status.Refused kind
        → (input.new ≡ input.old) ⊎ ((line : List ℕ) × IsReportOf (IsRefusedGiven C.program
        (beginning_of S.Source F.Files words.now input.old files.old)) kind line) }
    ensures no_file { ((path : List ℕ) → ¬ (C.program.name_path words.now path))
        → files.new ≡ files.old }
    ensures end { status_of result ≡ Status.Done → C.program.asks_for_input
        (beginning_of S.Source F.Files words.now input.old files.old)
        → IsAtEnd (S.left input.new) }
    ensures later { S.faults input.old ≤ S.faults input.new }
    ensures kept { status_of result ≢ Status.ReadFault → S.faults input.new ≡ S.faults input.old }
    ensures failed { status_of result ≡ Status.ReadFault
        → CountsFault (S.faults input.old) (S.faults input.new) }
    ensures tells_on { F.tells files.new ≡ F.tells files.old }
    ensures same { (path : List ℕ) → F.held files.new path ≡ F.held files.old path }
    ensures files_later { F.faults files.old ≤ F.faults files.new }
    ensures files_kept { status_of result ≢ Status.FileFault
        → F.faults files.new ≡ F.faults files.old }
    ensures files_failed { status_of result ≡ Status.FileFault
        → CountsFault (F.faults files.old) (F.faults files.new)
        × ((path : List ℕ) × C.program.name_path words.now path
        × (F.failed files.new ≡ Some path)) }
{
    match rest_of_words(alloc, words, command, files) {
        Ok(rest) => end_of_rest::<C, S>(alloc, rest, input),
        Err(ending) => ending,
    }
}
