ghost use Rattle.std.specs.Prelude.{◌≡◌, ◌≢◌, ◌≤◌, ◌<◌, ℕ, List, length, IfOk, OnOk, IsErrOf};
ghost use Rattle.std.specs.Io.KnownBytes.{IsAtEnd};
ghost use Rattle.streams.specs.Faults.{CountsFault};
ghost use Rattle.streams.specs.Told.{IsAll};

use crate::source::{Failed, Source};
use std::alloc::{AllocError, Global};

/// Why not all bytes of a source were read.
#[derive(Clone, Copy, Debug, PartialEq, Eq, Drop)]
pub enum ReadError {
    /// A read failed.
    Failed,
    /// There are more bytes than were asked for.
    TooLong,
    /// There is no memory to hold the bytes.
    Memory,
}

impl From<Failed> for ReadError {
    ghost use Rattle.std.specs.Prelude.{◌≡◌};
    ghost use Rattle.streams.specs.declared.read.ReadError.TheVariants.{Failed as FailedRead};

    ghost from_gives = { λ _ error. error ≡ FailedRead };

    fn from(_error: Failed) -> ReadError {
        ReadError::Failed
    }
}

impl From<AllocError> for ReadError {
    ghost use Rattle.std.specs.Prelude.{◌≡◌};
    ghost use Rattle.streams.specs.declared.read.ReadError.TheVariants.{Memory};

    ghost from_gives = { λ _ error. error ≡ Memory };

    fn from(_error: AllocError) -> ReadError {
        ReadError::Memory
    }
}

/// The most bytes of one read.
const PIECE: usize = 4096;

/// All bytes that the source has left, if they are at most `most`. It reads one byte more to see that there are
/// more. After an error some bytes may be gone from the source.
#[tactic(auto, using(crate::proofs::Told::longer_text))]
pub fn read_all<S: Source>(alloc: Global, source: &mut S, most: usize) -> Result<Vec<u8>, ReadError>
    ensures all { IfOk result (λ bytes. IsAll (S.left source.old) bytes.items) }
    ensures end { OnOk result (IsAtEnd (S.left source.new)) }
    ensures short { IfOk result (λ bytes. length bytes.items ≤ most) }
    ensures too_long { IsErrOf result ReadError.TooLong →
        (text : List ℕ) × IsAll (S.left source.old) text × (most < length text) }
    ensures later { S.faults source.old ≤ S.faults source.new }
    ensures kept { result ≢ Err ReadError.Failed → S.faults source.new ≡ S.faults source.old }
    ensures failed { result ≡ Err ReadError.Failed →
        CountsFault (S.faults source.old) (S.faults source.new) }
{
    let mut bytes = Vec::new(alloc);
    let mut buffer = [0u8; PIECE];
    while bytes.len() <= most {
        let room = PIECE.min((most - bytes.len()).saturating_add(1));
        let count = source.read(&mut buffer[..room])?;
        if count == 0 {
            return Ok(bytes);
        }
        bytes.extend_from_slice(&buffer[..count])?;
    }
    Err(ReadError::TooLong)
}
