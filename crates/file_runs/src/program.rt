//! A run: what its words ask for, how it ends, and what is written.

ghost use Rattle.std.specs.Prelude.{◌≡◌, ◌≢◌, ◌⊎◌, ℕ, List, IfOk, IfErr, codes};
ghost use Rattle.std.specs.Io.KnownBytes.{Appends, Keeps, IsAtEnd};
ghost use Rattle.configuration.specs.Configuration.{Configuration};
ghost use Rattle.streams.specs.Faults.{CountsFault};
ghost use Rattle.streams.specs.Told.{AppendsPart};
ghost use Rattle.reporting.specs.Beginning.{beginning_of};
ghost use Rattle.file_runs.specs.Contents.{EndsWords};
ghost use Rattle.file_runs.specs.Given.{IsConfiguredBy};
ghost use Rattle.file_runs.specs.Owed.{IsDone, IsRefused, IsTold, IsSound, Owed, IsEnding, FailsAt, status_of, report_of, answered_by, ending_of};
ghost use Rattle.file_runs.specs.Reports.{misuse_text, fault_line};
ghost use Rattle.file_runs.specs.Words.{Ask, AskFor, AreMisused, NameInput, NameWholeInput, NamePath};
ghost use Rattle.file_runs.specs.declared.request.Misuse.{Misuse as AnyMisuse};
ghost use Rattle.file_runs.specs.declared.request.Question.{Question as AnyQuestion};
ghost use Rattle.file_runs.specs.declared.request.Request.{Request as AnyRequest};
ghost use Rattle.file_runs.specs.declared.status.Status.{Status as AnyStatus};

use crate::answering::answer;
use crate::arguments::{Stop, question_in, request_of};
use crate::document::Written;
use crate::ending::Ending;
use crate::law::sound_runs_are_not_refused;
use crate::reports::{answer_text, misuse_text};
use crate::request::{Question, Request};
use crate::status::Status;
use files::Files;
use reporting::{Words, deliver};
use std::alloc::{AllocError, Global};
use streams::{Failed, Sink, Source};
use texts::Text;

/// The ending of a run that answers the question.
fn answer_of(alloc: Global, question: Question) -> Result<Ending, AllocError>
    ensures { IfOk result (λ ending. ending ≡ answered_by question) }
{
    let text = Text::new(alloc, answer_text(question))?;
    Ok(Ending::Done(text, Text::new(alloc, "")?))
}

/// What the words ask for, or the ending of a run that reads nothing: the answer to their question, or how they are misused.
fn request_at(alloc: Global, words: &Words) -> Result<Request, Ending>
    ensures asked { IfOk result (AskFor words.now) }
    ensures ending { IfErr result (EndsWords words.now) }
{
    let words = words.as_slice();
    if let Some(question) = question_in(words) {
        return Err(answer_of(alloc, question)?);
    }
    match request_of(alloc, words) {
        Ok(request) => Ok(request),
        Err(Stop::Misused(misuse)) => Err(Ending::Usage(misuse_text(alloc, &misuse)?)),
        Err(Stop::Memory) => Err(Ending::Memory),
    }
}

/// How a run ends that has this document, or this ending without one.
fn ending_of(answered: Result<Written, Ending>) -> Ending
    ensures { result ≡ ending_of answered }
{
    match answered {
        Ok(written) => Ending::Done(written.document, written.report),
        Err(ending) => ending,
    }
}

/// How a run with these words ends, before anything is written.
fn end_of<S: Source, F: Files>(alloc: Global, words: &Words, input: &mut S, files: &mut F) -> Ending
    ensures owed { IsEnding (beginning_of S.Source F.Files words.now input.old files.old) result }
    ensures end { status_of result ≡ Status.Done → NameWholeInput words.now (S.left input.old)
        → IsAtEnd (S.left input.new) }
    ensures unread { ¬ (NameInput words.now) → input.new ≡ input.old }
    ensures unread_config { ((c : Configuration) → ¬ (IsConfiguredBy
        (beginning_of S.Source F.Files words.now input.old files.old) c)) → input.new ≡ input.old }
    ensures unread_files { ((request : AnyRequest) → ¬ (AskFor words.now request))
        → files.new ≡ files.old }
    ensures kept { status_of result ≢ Status.ReadFault
        → S.faults input.new ≡ S.faults input.old }
    ensures failed { status_of result ≡ Status.ReadFault
        → CountsFault (S.faults input.old) (S.faults input.new) }
    ensures tells_on { F.tells files.new ≡ F.tells files.old }
    ensures same { (path : List ℕ) → F.held files.new path ≡ F.held files.old path }
    ensures files_kept { status_of result ≢ Status.FileFault → status_of result ≢ Status.Memory
        → F.faults files.new ≡ F.faults files.old }
    ensures files_failed { status_of result ≡ Status.FileFault → (path : List ℕ)
        × NamePath words.now path × FailsAt (F.faults files.old) (F.faults files.new)
        (F.failed files.new) (F.why files.new) path (report_of result) }
{
    match request_at(alloc, words) {
        Ok(request) => ending_of(answer(alloc, &request, input, files)),
        Err(ending) => ending,
    }
}

/// Runs the program: writes the document of the files that the words name to `out`, or the answer to their question, and
/// what there is to say beside to `err`: beside a document its warnings, where there is none each fault that is told, of words
/// that ask for nothing why and how to use the program, and of the input or a file that cannot be read its path. Words are taken as Unix tools
/// take them: options stand before or behind files, and each name of an option is whole. A question is answered whatever else
/// the words say, also where a value is wanted, but not behind a `--` that ends the options.
///
/// Nothing is written before all is made, and writing takes no memory. So `out` gets the whole document or nothing, except
/// after a fault of writing, when it has a front of what it was to get.
#[tactic(auto, using(crate::proofs::Consequences::consequences))]
pub fn run<S: Source, F: Files, O: Sink, E: Sink>(
    alloc: Global,
    words: &Words,
    input: &mut S,
    files: &mut F,
    out: &mut O,
    err: &mut E,
) -> Status
    // The bytes that were written are the document of the files, which describes what is selected
    // of them, with its warnings, or the answer to a question.
    ensures done { result ≡ Status.Done → (text : List ℕ) × (report : List ℕ)
        × IsDone (beginning_of S.Source F.Files words.now input.old files.old) text report
        × Appends (O.written out.old) (O.written out.new) text
        × Appends (E.written err.old) (E.written err.new) report }
    ensures refused { result ≡ Status.Refused → (report : List ℕ)
        × IsRefused (beginning_of S.Source F.Files words.now input.old files.old) report
        × Appends (E.written err.old) (E.written err.new) report }
    ensures usage { result ≡ Status.Usage → (misuse : AnyMisuse) × AreMisused words.now misuse
        × Appends (E.written err.old) (E.written err.new) (misuse_text misuse) }
    ensures only_usage { (misuse : AnyMisuse) → AreMisused words.now misuse
        → (result ≡ Status.Usage) ⊎ (result ≡ Status.Memory) ⊎ (result ≡ Status.WriteFault) }
    ensures answered { (question : AnyQuestion) → Ask words.now question
        → (result ≡ Status.Done) ⊎ (result ≡ Status.Memory) ⊎ (result ≡ Status.WriteFault) }
    // The input is read only where the words name it and a configuration is said, and files only
    // where the words ask for a document; these hold what they held.
    ensures unread { ¬ (NameInput words.now) → input.new ≡ input.old }
    ensures unread_config { ((c : Configuration) → ¬ (IsConfiguredBy
        (beginning_of S.Source F.Files words.now input.old files.old) c)) → input.new ≡ input.old }
    ensures unread_files { ((request : AnyRequest) → ¬ (AskFor words.now request))
        → files.new ≡ files.old }
    ensures tells_on { F.tells files.new ≡ F.tells files.old }
    ensures same { (path : List ℕ) → F.held files.new path ≡ F.held files.old path }
    // What is sound has its document, where it is told, unless something fails or memory is wanted.
    ensures complete { IsTold (beginning_of S.Source F.Files words.now input.old files.old)
        → IsSound (beginning_of S.Source F.Files words.now input.old files.old)
        → ¬ (CountsFault (S.faults input.old) (S.faults input.new))
        → ¬ (CountsFault (F.faults files.old) (F.faults files.new))
        → ¬ (CountsFault (O.faults out.old) (O.faults out.new))
        → ¬ (CountsFault (E.faults err.old) (E.faults err.new))
        → (result ≡ Status.Done) ⊎ (result ≡ Status.Memory) }
    // What was written is what the status owes, and after a fault of writing a front of what a
    // status owes.
    ensures written { result ≢ Status.WriteFault → (text : List ℕ) × (report : List ℕ)
        × Owed (beginning_of S.Source F.Files words.now input.old files.old) result text report
        × Appends (O.written out.old) (O.written out.new) text
        × Appends (E.written err.old) (E.written err.new) report }
    ensures cut { result ≡ Status.WriteFault
        → (status : AnyStatus) × (text : List ℕ) × (report : List ℕ)
        × Owed (beginning_of S.Source F.Files words.now input.old files.old) status text report
        × (status ≡ Status.ReadFault → CountsFault (S.faults input.old) (S.faults input.new))
        × (status ≡ Status.FileFault → CountsFault (F.faults files.old) (F.faults files.new))
        × AppendsPart (O.written out.old) (O.written out.new) text
        × AppendsPart (E.written err.old) (E.written err.new) report }
    ensures out_kept { result ≢ Status.Done → result ≢ Status.WriteFault
        → Keeps (O.written out.old) (O.written out.new) }
    ensures err_kept { result ≡ Status.Memory → Keeps (E.written err.old) (E.written err.new) }
    // Faults have causes, and after `Done` the input that the words name has nothing left, unless it
    // is left out.
    ensures read_fault { result ≡ Status.ReadFault → NameInput words.now }
    ensures read_count { result ≡ Status.ReadFault
        → CountsFault (S.faults input.old) (S.faults input.new) }
    ensures read_line { result ≡ Status.ReadFault → Appends (E.written err.old)
        (E.written err.new) (codes "-: cannot be read\n") }
    ensures file_fault { result ≡ Status.FileFault → (path : List ℕ)
        × NamePath words.now path × CountsFault (F.faults files.old) (F.faults files.new)
        × (F.failed files.new ≡ Some path)
        × Appends (E.written err.old) (E.written err.new) (fault_line path (F.why files.new)) }
    ensures write_fault { result ≡ Status.WriteFault
        → CountsFault (O.faults out.old) (O.faults out.new)
        ⊎ CountsFault (E.faults err.old) (E.faults err.new) }
    ensures end { result ≡ Status.Done → NameWholeInput words.now (S.left input.old)
        → IsAtEnd (S.left input.new) }
    ensures input_calm { result ≢ Status.ReadFault → result ≢ Status.WriteFault
        → S.faults input.new ≡ S.faults input.old }
    // (where there is no memory to tell which file failed, the run ends for want of memory)
    ensures files_calm { result ≢ Status.FileFault → result ≢ Status.Memory
        → result ≢ Status.WriteFault → F.faults files.new ≡ F.faults files.old }
    ensures out_calm { result ≢ Status.WriteFault → O.faults out.new ≡ O.faults out.old }
    ensures err_calm { result ≢ Status.WriteFault → E.faults err.new ≡ E.faults err.old }
{
    sound_runs_are_not_refused();
    let ending = end_of(alloc, words, input, files);
    let document = ending.document().as_bytes();
    let report = ending.report().as_bytes();
    match deliver(document, report, out, err) {
        Ok(()) => ending.status(),
        Err(Failed) => Status::WriteFault,
    }
}
