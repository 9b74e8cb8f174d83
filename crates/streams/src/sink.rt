ghost use Rattle.std.specs.Prelude.{ℕ, ◌<◌, List, length, IfOk};
ghost use Rattle.std.specs.declared.option.Option.{Option};
ghost use Rattle.std.specs.Io.{WritesAtMost};
ghost use Rattle.std.specs.Io.KnownBytes.{WriteAppends, Keeps};
ghost use Rattle.streams.specs.Faults.{HasCause};

use crate::source::Failed;

/// What takes bytes. Proofs know it by the bytes that were written to it, where they are told, and by the count of
/// its faults, which never falls.
pub trait Sink {
    /// The bytes that were written, where they are told.
    ghost written: { Self → Option (List ℕ) };

    /// How many faults there were, up to 2^64 - 1.
    ghost faults: { Self → ℕ };

    /// Writes a front of the piece, and answers how many bytes: one at least, of a piece that is not empty. A failed
    /// write writes nothing, and counts a fault.
    fn write(&mut self, piece: &[u8]) -> Result<usize, Failed>
        ensures bound { WritesAtMost result piece.now }
        ensures some { IfOk result (λ count. 0 < length piece.now → 0 < count) }
        ensures bytes { WriteAppends (written self.old) (written self.new) result piece.now }
        ensures cause { HasCause (faults self.old) (faults self.new) result };

    /// Hands on what is held back. What was written stays so.
    fn flush(&mut self) -> Result<(), Failed>
        ensures bytes { Keeps (written self.old) (written self.new) }
        ensures cause { HasCause (faults self.old) (faults self.new) result };
}
