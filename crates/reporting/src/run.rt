ghost use Rattle.std.specs.Prelude.{◌≡◌, ◌≢◌, ◌⊎◌, ℕ, List, MatchOption, codes};
ghost use Rattle.std.specs.Io.KnownBytes.{Appends, Keeps, IsAtEnd};
ghost use Rattle.diag.specs.Refusal.{RefusesNone};
ghost use Rattle.diag.specs.declared.kind.Kind.{Kind as AnyKind};
ghost use Rattle.streams.specs.Faults.{CountsFault};
ghost use Rattle.streams.specs.Told.{AppendsPart};
ghost use Rattle.files.specs.Held.{IsMissing};
ghost use Rattle.reporting.specs.Beginning.{beginning_of};
ghost use Rattle.reporting.specs.Owed.{Owes};
ghost use Rattle.reporting.specs.Program.{AreOfForm, IsAnswered, IsRefusedGiven, IsRefusedRun, IsReportOf};
ghost use Rattle.reporting.specs.declared.status.Status.{Status as AnyStatus};

use crate::command::Command;
use crate::delivery::deliver;
use crate::reading::end_of;
use crate::status::Status;
use crate::words::Words;
use files::Files;
use std::alloc::Global;
use streams::{Failed, Sink, Source};

/// Runs the program with these words, which ask for the command. Nothing is written before all is made, and writing takes no
/// memory.
pub fn run_command<C: Command, S: Source, F: Files, O: Sink, E: Sink>(
    alloc: Global,
    words: &Words,
    command: Option<C>,
    input: &mut S,
    files: &mut F,
    out: &mut O,
    err: &mut E,
) -> Status
    requires { MatchOption command (¬ (AreOfForm C.program words.now))
        (λ command. C.program.ask_for words.now (C.request command)) }
    // The bytes that were written answer what the run is given.
    ensures done { result ≡ Status.Done → (text : List ℕ)
        × IsAnswered C.program
        (beginning_of S.Source F.Files words.now input.old files.old) text
        × Appends (O.written out.old) (O.written out.new) text }
    ensures refused { (kind : AnyKind) → result ≡ Status.Refused kind → (line : List ℕ)
        × IsReportOf (IsRefusedRun C.program
        (beginning_of S.Source F.Files words.now input.old files.old)) kind line
        × Appends (E.written err.old) (E.written err.new) line }
    ensures usage { result ≡ Status.Usage → ¬ (AreOfForm C.program words.now) }
    ensures usage_line { result ≡ Status.Usage
        → Appends (E.written err.old) (E.written err.new) C.program.usage }
    ensures only_usage { ¬ (AreOfForm C.program words.now)
        → (result ≡ Status.Usage) ⊎ (result ≡ Status.WriteFault) }
    // The file comes first, and nothing is read of what is not asked for.
    ensures missing { (path : List ℕ) → AreOfForm C.program words.now
        → C.program.name_path words.now path
        → IsMissing (F.tells files.old) (F.held files.old path)
        → (result ≡ Status.FileFault) ⊎ (result ≡ Status.Memory) ⊎ (result ≡ Status.WriteFault) }
    ensures unread { ¬ (C.program.asks_for_input
        (beginning_of S.Source F.Files words.now input.old files.old))
        → input.new ≡ input.old }
    ensures unread_fault { result ≡ Status.FileFault → input.new ≡ input.old }
    ensures unread_refusal { (kind : AnyKind) → result ≡ Status.Refused kind
        → (input.new ≡ input.old) ⊎ ((line : List ℕ) × IsReportOf (IsRefusedGiven C.program
        (beginning_of S.Source F.Files words.now input.old files.old)) kind line) }
    ensures no_file { ((path : List ℕ) → ¬ (C.program.name_path words.now path))
        → files.new ≡ files.old }
    ensures tells_on { F.tells files.new ≡ F.tells files.old }
    ensures same { (path : List ℕ) → F.held files.new path ≡ F.held files.old path }
    // What has a form and is not refused is answered, unless something fails or memory is wanted.
    ensures complete { AreOfForm C.program words.now
        → RefusesNone (IsRefusedRun C.program
        (beginning_of S.Source F.Files words.now input.old files.old))
        → ¬ (CountsFault (S.faults input.old) (S.faults input.new))
        → ¬ (CountsFault (F.faults files.old) (F.faults files.new))
        → ¬ (CountsFault (O.faults out.old) (O.faults out.new))
        → ¬ (CountsFault (E.faults err.old) (E.faults err.new))
        → (result ≡ Status.Done) ⊎ (result ≡ Status.Memory) }
    // What was written is what the status owes, and after a fault of writing a front of what a
    // status owes.
    ensures written { result ≢ Status.WriteFault → (text : List ℕ) × (report : List ℕ)
        × Owes C.program
        (beginning_of S.Source F.Files words.now input.old files.old) result text report
        × Appends (O.written out.old) (O.written out.new) text
        × Appends (E.written err.old) (E.written err.new) report }
    ensures cut { result ≡ Status.WriteFault
        → (status : AnyStatus) × (text : List ℕ) × (report : List ℕ)
        × Owes C.program
        (beginning_of S.Source F.Files words.now input.old files.old) status text report
        × (status ≡ Status.ReadFault → CountsFault (S.faults input.old) (S.faults input.new))
        × (status ≡ Status.FileFault → CountsFault (F.faults files.old) (F.faults files.new))
        × AppendsPart (O.written out.old) (O.written out.new) text
        × AppendsPart (E.written err.old) (E.written err.new) report }
    ensures out_kept { result ≢ Status.Done → result ≢ Status.WriteFault
        → Keeps (O.written out.old) (O.written out.new) }
    ensures err_kept { (result ≡ Status.Done) ⊎ (result ≡ Status.Memory)
        → Keeps (E.written err.old) (E.written err.new) }
    // Faults have causes, and after `Done` the input that is asked for has nothing left.
    ensures read_fault { result ≡ Status.ReadFault → C.program.asks_for_input
        (beginning_of S.Source F.Files words.now input.old files.old) }
    ensures read_count { result ≡ Status.ReadFault
        → CountsFault (S.faults input.old) (S.faults input.new) }
    ensures read_line { result ≡ Status.ReadFault
        → Appends (E.written err.old) (E.written err.new) (codes "read fault\n") }
    ensures file_fault { result ≡ Status.FileFault → (path : List ℕ)
        × C.program.name_path words.now path × (F.failed files.new ≡ Some path) }
    ensures file_count { result ≡ Status.FileFault
        → CountsFault (F.faults files.old) (F.faults files.new) }
    ensures file_line { result ≡ Status.FileFault
        → Appends (E.written err.old) (E.written err.new) (codes "file fault\n") }
    ensures write_fault { result ≡ Status.WriteFault
        → CountsFault (O.faults out.old) (O.faults out.new)
        ⊎ CountsFault (E.faults err.old) (E.faults err.new) }
    ensures end { result ≡ Status.Done → C.program.asks_for_input
        (beginning_of S.Source F.Files words.now input.old files.old)
        → IsAtEnd (S.left input.new) }
    ensures input_calm { result ≢ Status.ReadFault → result ≢ Status.WriteFault
        → S.faults input.new ≡ S.faults input.old }
    ensures files_calm { result ≢ Status.FileFault → result ≢ Status.WriteFault
        → F.faults files.new ≡ F.faults files.old }
    ensures out_calm { result ≢ Status.WriteFault → O.faults out.new ≡ O.faults out.old }
    ensures err_calm { result ≢ Status.WriteFault → E.faults err.new ≡ E.faults err.old }
{
    let ending = end_of(alloc, words, command, input, files);
    let document = ending.document().as_bytes();
    let report = ending.report().as_bytes();
    match deliver(document, report, out, err) {
        Ok(()) => ending.status(),
        Err(Failed) => Status::WriteFault,
    }
}
