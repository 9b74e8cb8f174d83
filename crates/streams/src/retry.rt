//! Calls that are tried again where the system interrupted them. Each loop must end: it does behind 2^64 - 1 tries.

ghost use Rattle.std.specs.Prelude.{◌≢◌, IfErr};
ghost use Rattle.std.specs.IoError.{error_kind};
ghost use Rattle.std.specs.Io.{ReadsAtMost, WritesAtMost};
ghost use Rattle.std.specs.Io.KnownBytes.{ReadConsumes, WriteAppends, Keeps};

use std::io;
use std::io::{ErrorKind, Read, Write};

/// A read that is tried again where the system interrupted it, which moved nothing.
pub(crate) fn read<R: Read>(reader: &mut R, buffer: &mut [u8]) -> io::Result<usize>
    ensures bound { ReadsAtMost result buffer.new }
    ensures bytes { ReadConsumes (R.remaining reader.old) (R.remaining reader.new)
        result buffer.new }
    ensures retried { IfErr result (λ error. error_kind error ≢ ErrorKind.Interrupted) }
{
    for _ in 0..u64::MAX {
        match reader.read(buffer) {
            Err(error) if error.kind() == ErrorKind::Interrupted => {}
            settled => return settled,
        }
    }
    Err(io::Error::from(ErrorKind::TimedOut))
}

/// A write that is tried again where the system interrupted it, which wrote nothing.
pub(crate) fn write<W: Write>(writer: &mut W, piece: &[u8]) -> io::Result<usize>
    ensures bound { WritesAtMost result piece.now }
    ensures bytes { WriteAppends (W.contents writer.old) (W.contents writer.new) result piece.now }
    ensures retried { IfErr result (λ error. error_kind error ≢ ErrorKind.Interrupted) }
{
    for _ in 0..u64::MAX {
        match writer.write(piece) {
            Err(error) if error.kind() == ErrorKind::Interrupted => {}
            settled => return settled,
        }
    }
    Err(io::Error::from(ErrorKind::TimedOut))
}

/// A flush that is tried again where the system interrupted it.
pub(crate) fn flush<W: Write>(writer: &mut W) -> io::Result<()>
    ensures bytes { Keeps (W.contents writer.old) (W.contents writer.new) }
    ensures retried { IfErr result (λ error. error_kind error ≢ ErrorKind.Interrupted) }
{
    for _ in 0..u64::MAX {
        match writer.flush() {
            Err(error) if error.kind() == ErrorKind::Interrupted => {}
            settled => return settled,
        }
    }
    Err(io::Error::from(ErrorKind::TimedOut))
}
