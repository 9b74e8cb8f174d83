ghost use Rattle.std.specs.Prelude.{◌≡◌};

use crate::retry;
use crate::sink::Sink;
use crate::source::{Failed, Source, count_fault};
use std::io::{Read, Write};

/// A reader of std as a source. It tells of its bytes what the reader tells: of a file or a pipe, nothing. A read that the
/// system interrupted is tried again, and is no fault.
#[derive(Drop)]
pub struct StdSource<R> {
    reader: R,
    faults: u64,
}

impl<R: Read> StdSource<R> {
    /// No fault was counted yet.
    pub fn new(reader: R) -> StdSource<R>
        ensures left { ⟦<StdSource<R> as Source>⟧.left result ≡ R.remaining reader }
        ensures faults { ⟦<StdSource<R> as Source>⟧.faults result ≡ 0 }
    {
        StdSource { reader, faults: 0 }
    }
}

impl<R: Read> Source for StdSource<R> {
    ghost left = { λ source. R.remaining source.reader };

    ghost faults = { λ source. source.faults };

    fn read(&mut self, buffer: &mut [u8]) -> Result<usize, Failed> {
        match retry::read(&mut self.reader, buffer) {
            Ok(count) => Ok(count),
            Err(_) => Err(count_fault(&mut self.faults)),
        }
    }
}

/// A writer of std as a sink. It tells of its bytes what the writer tells: of a file or a pipe, nothing. A write or a flush
/// that the system interrupted is tried again, and is no fault.
#[derive(Drop)]
pub struct StdSink<W> {
    writer: W,
    faults: u64,
}

impl<W: Write> StdSink<W> {
    /// No fault was counted yet.
    pub fn new(writer: W) -> StdSink<W>
        ensures written { ⟦<StdSink<W> as Sink>⟧.written result ≡ W.contents writer }
        ensures faults { ⟦<StdSink<W> as Sink>⟧.faults result ≡ 0 }
    {
        StdSink { writer, faults: 0 }
    }
}

impl<W: Write> Sink for StdSink<W> {
    ghost written = { λ sink. W.contents sink.writer };

    ghost faults = { λ sink. sink.faults };

    fn write(&mut self, piece: &[u8]) -> Result<usize, Failed> {
        match retry::write(&mut self.writer, piece) {
            Ok(count) if count > 0 || piece.is_empty() => Ok(count),
            _ => Err(count_fault(&mut self.faults)),
        }
    }

    fn flush(&mut self) -> Result<(), Failed> {
        match retry::flush(&mut self.writer) {
            Ok(()) => Ok(()),
            Err(_) => Err(count_fault(&mut self.faults)),
        }
    }
}
