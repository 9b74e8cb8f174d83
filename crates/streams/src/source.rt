ghost use Rattle.std.specs.Prelude.{◌≤◌, ℕ, List};
ghost use Rattle.std.specs.declared.option.Option.{Option};
ghost use Rattle.std.specs.Io.{ReadsAtMost};
ghost use Rattle.std.specs.Io.KnownBytes.{ReadConsumes};
ghost use Rattle.streams.specs.Faults.{CountsFault, HasCause};

/// What gives the bytes, or takes them, failed.
#[derive(Clone, Copy, Debug, PartialEq, Eq)]
pub struct Failed;

/// What gives bytes. Proofs know it by the bytes that are still to come, where they are told, and by the count of
/// its faults, which never falls.
pub trait Source {
    /// The bytes that are still to come, where they are told.
    ghost left: { Self → Option (List ℕ) };

    /// How many faults there were, up to 2^64 - 1.
    ghost faults: { Self → ℕ };

    /// Moves the next bytes into the front of the buffer, and answers how many. No bytes into a buffer that is not
    /// empty are the end. A failed read moves nothing, and counts a fault.
    fn read(&mut self, buffer: &mut [u8]) -> Result<usize, Failed>
        ensures bound { ReadsAtMost result buffer.new }
        ensures bytes { ReadConsumes (left self.old) (left self.new) result buffer.new }
        ensures cause { HasCause (faults self.old) (faults self.new) result };
}

/// Counts a fault, up to 2^64 - 1, and answers it.
pub(crate) fn count_fault(faults: &mut u64) -> Failed
    ensures later { faults.old ≤ faults.new }
    ensures counted { CountsFault faults.old faults.new }
{
    *faults = faults.saturating_add(1);
    Failed
}
