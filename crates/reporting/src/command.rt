//! What a program does in its runs.

ghost use Rattle.std.specs.Prelude.{◌≡◌, ◌<◌, ◌≤◌, ◌↔◌, ℕ, List, length, IfOk, MatchOption};
ghost use Rattle.diag.specs.Refusal.{IsErrorFor, Refuses};
ghost use Rattle.diag.specs.declared.error.DeriveError.{DeriveError as AnyError};
ghost use Rattle.streams.specs.Told.{IsAll};
ghost use Rattle.reporting.specs.Beginning.{Beginning};
ghost use Rattle.reporting.specs.Bytes.{most_bytes, IsTooLong};
ghost use Rattle.reporting.specs.Command.{HasFile, HasNoFile, IsRest};
ghost use Rattle.reporting.specs.Program.{Program, IsRefusedRun};

use crate::rest::Rest;
use diag::DeriveError;
use std::alloc::Global;
use texts::Text;

/// What words ask a program for: it names a file that is read first, or none, and then there is some work with the input, or
/// only an answer to write.
pub trait Command: Drop {
    /// What there is to do with the input.
    type Work: Drop;

    /// What the program is to its runs.
    ghost program: { Program };

    /// What it asks for.
    ghost request: { Self → program.Request };

    /// What a run that begins so has to do with its input.
    ghost is_work: { Self.Work → Beginning → Type 0 };

    /// What the run is given where these are the bytes of the input.
    ghost given: { Self.Work → List ℕ → program.Given };

    /// How to use the program.
    fn usage() -> &'static str
        ensures { result.now ≡ program.usage };

    /// The path of the file that the words name.
    fn path(&self) -> Option<&str>
        ensures { (words : List (List ℕ)) → program.ask_for words (request self.now)
            → MatchOption result ((path : List ℕ) → ¬ (program.name_path words path))
            (λ path. (other : List ℕ) → program.name_path words other ↔ (other ≡ path.now)) };

    /// What is left to be done where the words name no file.
    fn without_file(&self, alloc: Global) -> Result<Rest<Self::Work>, DeriveError>
        ensures rest { IfOk result (λ rest. (begun : Beginning)
            → HasNoFile program begun (request self.now) → IsRest program is_work begun rest) }
        ensures refused { Refuses result (λ e. (begun : Beginning)
            → HasNoFile program begun (request self.now) → IsRefusedRun program begun e) };

    /// What the bytes of the file leave to be done.
    fn with_file(&self, alloc: Global, bytes: &[u8]) -> Result<Rest<Self::Work>, DeriveError>
        requires { length bytes.now ≤ most_bytes }
        ensures rest { IfOk result (λ rest. (begun : Beginning)
            → HasFile program begun (request self.now) bytes.now
            → IsRest program is_work begun rest) }
        ensures refused { Refuses result (λ e. (begun : Beginning)
            → HasFile program begun (request self.now) bytes.now
            → IsRefusedRun program begun e) };

    /// The refusal of a file of too many bytes, or want of memory.
    fn longer_file(&self, alloc: Global) -> DeriveError
        ensures { IsErrorFor (λ e. (begun : Beginning) (bytes : List ℕ)
            → HasFile program begun (request self.now) bytes → most_bytes < length bytes
            → IsRefusedRun program begun e) result };

    /// What answers the work with an input of these bytes.
    fn answer(alloc: Global, work: &Self::Work, bytes: &[u8]) -> Result<Text, DeriveError>
        requires { length bytes.now ≤ most_bytes }
        ensures made { IfOk result (program.answers (given work.now bytes.now)) }
        ensures refused { Refuses result (program.refuses (given work.now bytes.now)) };

    /// Where there is work, the input is asked for.
    ghost asked: { (work : Self.Work) (begun : Beginning)
        → is_work work begun → program.asks_for_input begun };

    /// It is about all that the input has left.
    ghost gives: { (work : Self.Work) (begun : Beginning) (bytes : List ℕ)
        → is_work work begun → IsAll begun.left bytes → program.is_given begun (given work bytes) };

    /// Too many bytes of the input are refused.
    ghost refuses_longer: { (work : Self.Work) (bytes : List ℕ) (e : AnyError)
        → IsTooLong bytes e → program.refuses (given work bytes) e };
}
