ghost use Rattle.std.specs.Prelude.{◌≡◌, ◌≢◌, ◌⊎◌, ℕ, List, Option, IsTrue, codes};
ghost use Rattle.std.specs.Io.KnownBytes.{Appends, Keeps, IsAtEnd};
ghost use Rattle.diag.specs.declared.kind.Kind.{Kind as AnyKind};
ghost use Rattle.acceptance.specs.Json.{Json};
ghost use Rattle.schema_trees.specs.Held.{IsHeld};
ghost use Rattle.schema_core.specs.Document.{text_of};
ghost use Rattle.streams.specs.Faults.{CountsFault};
ghost use Rattle.streams.specs.Told.{AppendsPart};
ghost use Rattle.configuration.specs.Configuration.{Configuration};
ghost use Rattle.configuration_json.specs.Form.{SaysInText};
ghost use Rattle.configuration_json.specs.Said.{is_of_configuration};
ghost use Rattle.files.specs.Held.{IsMissing};
ghost use Rattle.shapes.specs.Declarations.{DeclarationOf};
ghost use Rattle.closing.specs.Described.{Describes};
ghost use Rattle.compose.specs.Bounds.{collects_all};
ghost use Rattle.reporting.specs.Beginning.{beginning_of};
ghost use Rattle.reporting.specs.declared.status.Status.{Status as AnyStatus};
ghost use Rattle.schema_gen.specs.Derived.{IsDocument};
ghost use Rattle.schema_gen.specs.Given.{Given as AnyGiven, IsGiven, IsGivenBy, IsConfigured, IsMisconfigured, IsMisconfiguredBy, ResolvesTo};
ghost use Rattle.schema_gen.specs.Owed.{IsReported, IsTold, Owed};
ghost use Rattle.schema_gen.specs.Refusals.{IsSound};
ghost use Rattle.schema_gen.specs.Sampled.{IsSampleLine};
ghost use Rattle.schema_gen.specs.Words.{HaveForm, IsDerive, IsSample};

use crate::derivation::derivation_of;
use crate::law::sound_is_not_refused;
use configuration_json::{
    configurations_are_one, configurations_are_said, refused_texts_have_faults,
};
use derive_decl::resolved_is_meant;
use files::Files;
use reporting::{Status, Words, run_command};
use std::alloc::Global;
use streams::{Sink, Source};

/// Runs the program. With the word `derive` alone it reads the source to its end, and writes the document of its components
/// to `out`. With `derive --config PATH` it first reads the configuration from the file at the path. With `sample N` it reads
/// nothing, and writes to `out` a line: how many declarations `sample_source` of this number has, and how many components and
/// bytes its document. What it has to say beside goes to `err`, in lines: of a refusal the kind, the span in bytes and the
/// message; of other words how to use them; of a fault of reading the input or the file that there was one.
///
/// Nothing is written before all is made, and writing takes no memory. So `out` gets all that it is to get or nothing,
/// except after a fault of writing, when it has a front of it.
pub fn run<S: Source, F: Files, O: Sink, E: Sink>(
    alloc: Global,
    words: &Words,
    input: &mut S,
    files: &mut F,
    out: &mut O,
    err: &mut E,
) -> Status
    // The bytes that were written are one document. It describes the declarations of the source, as
    // the configuration says what they mean: each root has its component, and so has each
    // reference, and the component of a plain instance accepts exactly the JSON of its shape. Its
    // maps have distinct names, in byte order, so a reader finds in the text just this document.
    ensures done { (path : Option (List ℕ)) → IsDerive words.now path → result ≡ Status.Done
        → (given : AnyGiven) × (resolved : List DeclarationOf) × (document : Json)
        × IsGivenBy SaysInText (beginning_of S.Source F.Files words.now input.old files.old) given
        × ResolvesTo given resolved
        × IsHeld document
        × Describes resolved (collects_all given.config.collect) document
        × Appends (O.written out.old) (O.written out.new) (text_of document) }
    // The document is that of the source's components, without others, and no condition of a
    // refusal holds. No other value that `serde_json` can hold has the text that was written.
    ensures derived { (path : Option (List ℕ)) → IsDerive words.now path → result ≡ Status.Done
        → (text : List ℕ)
        × IsDocument (beginning_of S.Source F.Files words.now input.old files.old) text
        × Appends (O.written out.old) (O.written out.new) text }
    // The line of a sample tells of the document that its source has. No sample is refused.
    ensures sampled { (many : ℕ) → IsSample words.now many → result ≡ Status.Done
        → (line : List ℕ) × IsSampleLine many line
        × Appends (O.written out.old) (O.written out.new) line }
    ensures unrefused { (many : ℕ) → IsSample words.now many
        → (result ≡ Status.Done) ⊎ (result ≡ Status.Memory) ⊎ (result ≡ Status.WriteFault) }
    ensures refused { (kind : AnyKind) → result ≡ Status.Refused kind → (line : List ℕ)
        × IsReported (beginning_of S.Source F.Files words.now input.old files.old) kind line
        × Appends (E.written err.old) (E.written err.new) line }
    ensures usage { result ≡ Status.Usage → ¬ (HaveForm words.now) }
    ensures usage_line { result ≡ Status.Usage
        → Appends (E.written err.old) (E.written err.new)
        (codes "usage: schema_gen derive [--config PATH]\n   or: schema_gen sample N\n") }
    ensures only_usage { ¬ (HaveForm words.now)
        → (result ≡ Status.Usage) ⊎ (result ≡ Status.WriteFault) }
    // The configuration comes first, and is refused with kinds of its own. Where the words give
    // none, nothing of the input is read, and where they name no path, no file is.
    ensures bad_config { (kind : AnyKind) → IsTrue (is_of_configuration kind)
        → result ≡ Status.Refused kind → IsMisconfiguredBy kind
        (beginning_of S.Source F.Files words.now input.old files.old) }
    ensures only_bad_config { IsTrue (F.tells files.old)
        → IsMisconfigured (beginning_of S.Source F.Files words.now input.old files.old)
        → ((kind : AnyKind) × IsMisconfiguredBy kind
        (beginning_of S.Source F.Files words.now input.old files.old)
        × (result ≡ Status.Refused kind)) ⊎ (result ≡ Status.FileFault)
        ⊎ (result ≡ Status.Memory) ⊎ (result ≡ Status.WriteFault) }
    ensures missing { (path : List ℕ) → IsDerive words.now (Some path)
        → IsMissing (F.tells files.old) (F.held files.old path)
        → (result ≡ Status.FileFault) ⊎ (result ≡ Status.Memory) ⊎ (result ≡ Status.WriteFault) }
    ensures unread { ((c : Configuration)
        → ¬ (IsConfigured (beginning_of S.Source F.Files words.now input.old files.old) c))
        → input.new ≡ input.old }
    ensures unread_config { ((kind : AnyKind) × IsTrue (is_of_configuration kind)
        × (result ≡ Status.Refused kind)) ⊎ (result ≡ Status.FileFault)
        → input.new ≡ input.old }
    ensures no_file { ((path : List ℕ) → ¬ (IsDerive words.now (Some path)))
        → files.new ≡ files.old }
    ensures tells_on { F.tells files.new ≡ F.tells files.old }
    ensures same { (path : List ℕ) → F.held files.new path ≡ F.held files.old path }
    // What is given has its document, where it is told and sound, unless something fails or memory
    // is wanted.
    ensures complete { (given : AnyGiven)
        → IsGiven (beginning_of S.Source F.Files words.now input.old files.old) given
        → IsTold (beginning_of S.Source F.Files words.now input.old files.old)
        → IsSound given.config given.text
        → ¬ (CountsFault (S.faults input.old) (S.faults input.new))
        → ¬ (CountsFault (F.faults files.old) (F.faults files.new))
        → ¬ (CountsFault (O.faults out.old) (O.faults out.new))
        → ¬ (CountsFault (E.faults err.old) (E.faults err.new))
        → (result ≡ Status.Done) ⊎ (result ≡ Status.Memory) }
    // What was written is what the status owes, and after a fault of writing a front of what a
    // status owes.
    ensures written { result ≢ Status.WriteFault → (text : List ℕ) × (report : List ℕ)
        × Owed (beginning_of S.Source F.Files words.now input.old files.old) result text report
        × Appends (O.written out.old) (O.written out.new) text
        × Appends (E.written err.old) (E.written err.new) report }
    ensures cut { result ≡ Status.WriteFault
        → (status : AnyStatus) × (text : List ℕ) × (report : List ℕ)
        × Owed (beginning_of S.Source F.Files words.now input.old files.old) status text report
        × (status ≡ Status.ReadFault → CountsFault (S.faults input.old) (S.faults input.new))
        × (status ≡ Status.FileFault → CountsFault (F.faults files.old) (F.faults files.new))
        × AppendsPart (O.written out.old) (O.written out.new) text
        × AppendsPart (E.written err.old) (E.written err.new) report }
    ensures out_kept { result ≢ Status.Done → result ≢ Status.WriteFault
        → Keeps (O.written out.old) (O.written out.new) }
    ensures err_kept { (result ≡ Status.Done) ⊎ (result ≡ Status.Memory)
        → Keeps (E.written err.old) (E.written err.new) }
    // Faults have causes, and after `Done` the input has nothing left.
    ensures read_fault { result ≡ Status.ReadFault → (c : Configuration)
        × IsConfigured (beginning_of S.Source F.Files words.now input.old files.old) c }
    ensures read_count { result ≡ Status.ReadFault
        → CountsFault (S.faults input.old) (S.faults input.new) }
    ensures read_line { result ≡ Status.ReadFault
        → Appends (E.written err.old) (E.written err.new) (codes "read fault\n") }
    ensures file_fault { result ≡ Status.FileFault → (path : List ℕ)
        × IsDerive words.now (Some path) × (F.failed files.new ≡ Some path) }
    ensures file_count { result ≡ Status.FileFault
        → CountsFault (F.faults files.old) (F.faults files.new) }
    ensures file_line { result ≡ Status.FileFault
        → Appends (E.written err.old) (E.written err.new) (codes "file fault\n") }
    ensures write_fault { result ≡ Status.WriteFault
        → CountsFault (O.faults out.old) (O.faults out.new)
        ⊎ CountsFault (E.faults err.old) (E.faults err.new) }
    ensures end { (path : Option (List ℕ)) → IsDerive words.now path → result ≡ Status.Done
        → IsAtEnd (S.left input.new) }
    ensures input_calm { result ≢ Status.ReadFault → result ≢ Status.WriteFault
        → S.faults input.new ≡ S.faults input.old }
    ensures files_calm { result ≢ Status.FileFault → result ≢ Status.WriteFault
        → F.faults files.new ≡ F.faults files.old }
    ensures out_calm { result ≢ Status.WriteFault → O.faults out.new ≡ O.faults out.old }
    ensures err_calm { result ≢ Status.WriteFault → E.faults err.new ≡ E.faults err.old }
{
    sound_is_not_refused();
    resolved_is_meant();
    configurations_are_one();
    configurations_are_said();
    refused_texts_have_faults();
    run_command(alloc, words, derivation_of(words), input, files, out, err)
}
