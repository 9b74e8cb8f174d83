ghost use Rattle.std.specs.Prelude.{◌≡◌, ◌≢◌, ◌≤◌, ◌<◌, ◌⊎◌, ℕ, List, Bool, length, IfOk, IsTrue, Some, None};
ghost use Rattle.std.specs.declared.option.Option.{Option};
ghost use Rattle.streams.specs.Faults.{CountsFault};
ghost use Rattle.files.specs.Held.{IsHeld, IsMissing};

use crate::cause::Cause;
use crate::file::{FileAnswer, FileBytes};
use std::alloc::Global;

/// What holds files. Proofs know it by the bytes that are held at each path, where they are told, and by the count of
/// its faults, which never falls.
pub trait Files {
    ghost use Rattle.files.specs.declared.cause.Cause.{Cause};

    /// Whether it tells what is held.
    ghost tells: { Self → Bool };

    /// The bytes of the file at a path, if there is one.
    ghost held: { Self → List ℕ → Option (List ℕ) };

    /// The path of the last call that answered `Failed`, if any did.
    ghost failed: { Self → Option (List ℕ) };

    /// The cause of the last fault, as far as it is known.
    ghost why: { Self → Cause };

    /// How many faults there were, up to 2^64 - 1.
    ghost faults: { Self → ℕ };

    /// The bytes of the file at the path, if they are at most `most`. It answers `Longer` where the file has more, and
    /// `Failed` where there is no file or reading it failed. `Failed` counts a fault, and the path and the cause are kept;
    /// every other answer leaves the count and the path and the cause of the last fault. No call changes a file.
    fn read_file(&mut self, alloc: Global, path: &str, most: usize) -> Result<FileBytes, FileAnswer>
        ensures bytes { IfOk result (λ bytes.
            IsHeld (tells self.old) (held self.old path.now) bytes) }
        ensures short { IfOk result (λ bytes. length bytes ≤ most) }
        ensures longer { result ≡ Err FileAnswer.Longer →
            (text : List ℕ) × IsHeld (tells self.old) (held self.old path.now) text
            × (most < length text) }
        ensures missing { IsMissing (tells self.old) (held self.old path.now) →
            (result ≡ Err FileAnswer.Failed) ⊎ (result ≡ Err FileAnswer.Memory) }
        ensures tells_on { tells self.new ≡ tells self.old }
        ensures same { (other : List ℕ) → held self.new other ≡ held self.old other }
        ensures later { faults self.old ≤ faults self.new }
        ensures kept { result ≢ Err FileAnswer.Failed → faults self.new ≡ faults self.old }
        ensures counted { result ≡ Err FileAnswer.Failed →
            CountsFault (faults self.old) (faults self.new) }
        ensures path_kept { result ≢ Err FileAnswer.Failed → failed self.new ≡ failed self.old }
        ensures path { result ≡ Err FileAnswer.Failed → failed self.new ≡ Some path.now }
        ensures why_kept { result ≢ Err FileAnswer.Failed → why self.new ≡ why self.old }
        ensures why_missing { result ≡ Err FileAnswer.Failed → why self.new ≡ Cause.Missing →
            IsTrue (tells self.old) → held self.old path.now ≡ None };

    /// The cause of the last fault; `Unknown` where there was none.
    fn cause(&self) -> Cause
        ensures { result ≡ why self.now };
}
