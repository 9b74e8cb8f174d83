ghost use Rattle.std.specs.Prelude.{◌≡◌, ◌≤◌, ◌<◌, ◌+◌, ◌-◌, ◌^◌, ◌++◌, ◌↔◌, ℕ, List, [], min, take, drop, length, Contains, IfOk, IsErr, IsTrue, vec_len, vec_capacity, Some};

use crate::sink::Sink;
use crate::source::{Failed, Source, count_fault};
use std::alloc::{AllocError, Global};

/// Moves the bytes from a place on into the front of the buffer, at most so many.
fn fill(buffer: &mut [u8], bytes: &[u8], at: usize, most: usize) -> usize
    requires { at ≤ length bytes.now }
    ensures count { result ≡ min (min (length bytes.now - at) (length buffer.old)) most }
    ensures moved { drop at bytes.now ≡ take result buffer.new ++ drop (at + result) bytes.now }
{
    let rest = &bytes[at..];
    let count = rest.len().min(buffer.len()).min(most);
    buffer[..count].copy_from_slice(&rest[..count]);
    count
}

/// Adds what fits of the piece, at most so many bytes. It takes no memory.
fn put(bytes: &mut Vec<u8>, room: usize, piece: &[u8], most: usize) -> usize
    requires within { vec_len bytes.old ≤ room }
    requires taken { room ≤ vec_capacity bytes.old }
    ensures count { result ≡ min (min (length piece.now) (room - vec_len bytes.old)) most }
    ensures grown { bytes.new.items ≡ bytes.old.items ++ take result piece.now }
    ensures within { vec_len bytes.new ≤ room }
    ensures taken { room ≤ vec_capacity bytes.new }
{
    let count = piece.len().min(room - bytes.len()).min(most);
    match bytes.extend_from_slice(&piece[..count]) {
        Ok(()) => count,
        Err(_) => unreachable!(),
    }
}

/// Whether the number is one of these.
fn is_among(numbers: &[usize], number: usize) -> bool
    ensures { IsTrue result ↔ Contains numbers.now number }
{
    numbers.contains(&number)
}

/// A source of bytes in memory, of which chosen calls fail: for tests of what a caller does about a fault.
#[derive(Drop)]
pub struct MemorySource {
    bytes: Vec<u8>,
    at: usize,
    piece: usize,
    fails: Vec<usize>,
    calls: usize,
    faults: u64,
    ghost within: { at ≤ vec_len bytes },
    ghost some: { 0 < piece },
}

impl MemorySource {
    ghost use Rattle.streams.specs.Memory.{source_fails, source_calls, source_piece};

    /// A source that gives these bytes, at most `piece` of them in a call. The calls whose numbers, from 0, are in
    /// `fails` fail.
    pub fn new(bytes: Vec<u8>, piece: usize, fails: Vec<usize>) -> MemorySource
        requires { 0 < piece }
        ensures left { ⟦<MemorySource as Source>⟧.left result ≡ Some bytes.items }
        ensures faults { ⟦<MemorySource as Source>⟧.faults result ≡ 0 }
        ensures fails { source_fails result ≡ fails.items }
        ensures calls { source_calls result ≡ 0 }
        ensures piece { source_piece result ≡ piece }
    {
        MemorySource {
            bytes,
            at: 0,
            piece,
            fails,
            calls: 0,
            faults: 0,
        }
    }
}

impl Source for MemorySource {
    ghost use Rattle.std.specs.Io.{ReadsAtMost};
    ghost use Rattle.std.specs.Io.KnownBytes.{ReadConsumes};
    ghost use Rattle.streams.specs.Faults.{HasCause};
    ghost use Rattle.streams.specs.Memory.{source_left, source_faults, source_fails, source_calls, source_piece, SourceCounts};

    ghost left = { λ source. Some (source_left source) };

    ghost faults = { λ source. source_faults source };

    fn read(&mut self, buffer: &mut [u8]) -> Result<usize, Failed>
        ensures bound { ReadsAtMost result buffer.new }
        ensures bytes { ReadConsumes (Some (source_left self.old)) (Some (source_left self.new))
            result buffer.new }
        ensures cause { HasCause (source_faults self.old) (source_faults self.new) result }

        // a call fails where its number is among those, and nowhere else
        ensures failing { IsErr result ↔ Contains (source_fails self.old) (source_calls self.old) }
        ensures count { IfOk result (λ count.
            count ≡ min (min (length (source_left self.old)) (length buffer.old))
            (source_piece self.old)) }
        ensures call { SourceCounts self.old self.new }
    {
        let call = self.calls;
        self.calls = call.saturating_add(1);
        if is_among(&self.fails, call) {
            return Err(count_fault(&mut self.faults));
        }
        let count = fill(buffer, &self.bytes, self.at, self.piece);
        self.at += count;
        Ok(count)
    }
}

/// A source of bytes in memory that never fails: for a caller that has the input at hand, in place of standard input.
#[derive(Drop)]
pub struct HonestSource {
    bytes: Vec<u8>,
    at: usize,
    ghost within: { at ≤ vec_len bytes },
}

impl HonestSource {
    /// A source that gives these bytes, in one call where the buffer has room.
    pub fn new(bytes: Vec<u8>) -> HonestSource
        ensures left { ⟦<HonestSource as Source>⟧.left result ≡ Some bytes.items }
        ensures faults { ⟦<HonestSource as Source>⟧.faults result ≡ 0 }
    {
        HonestSource { bytes, at: 0 }
    }
}

impl Source for HonestSource {
    ghost use Rattle.streams.specs.Memory.{honest_left};

    ghost left = { λ source. Some (honest_left source) };

    ghost faults = { λ _. 0 };

    fn read(&mut self, buffer: &mut [u8]) -> Result<usize, Failed> {
        let count = fill(buffer, &self.bytes, self.at, usize::MAX);
        self.at += count;
        Ok(count)
    }
}

/// A sink that holds its bytes in memory, of which chosen calls fail: for tests of what a caller does about a fault.
#[derive(Drop)]
pub struct MemorySink {
    bytes: Vec<u8>,
    room: usize,
    piece: usize,
    fails: Vec<usize>,
    calls: usize,
    faults: u64,
    ghost within: { vec_len bytes ≤ room },
    ghost taken: { room ≤ vec_capacity bytes },
    ghost some: { 0 < piece },
}

impl MemorySink {
    ghost use Rattle.streams.specs.Memory.{sink_fails, sink_calls, sink_piece, sink_room, SinkCounts};

    /// A sink for `room` bytes, which takes at most `piece` of them in a call. All memory is taken here. The calls,
    /// writes and flushes alike, whose numbers, from 0, are in `fails` fail, and so do writes where the room is full.
    pub fn new(
        alloc: Global,
        room: usize,
        piece: usize,
        fails: Vec<usize>,
    ) -> Result<MemorySink, AllocError>
        requires { 0 < piece }
        ensures written { IfOk result (λ sink. ⟦<MemorySink as Sink>⟧.written sink ≡ Some []) }
        ensures faults { IfOk result (λ sink. ⟦<MemorySink as Sink>⟧.faults sink ≡ 0) }
        ensures fails { IfOk result (λ sink. sink_fails sink ≡ fails.items) }
        ensures calls { IfOk result (λ sink. sink_calls sink ≡ 0) }
        ensures piece { IfOk result (λ sink. sink_piece sink ≡ piece) }
        ensures room { IfOk result (λ sink. sink_room sink ≡ room) }
    {
        let bytes = Vec::with_capacity(alloc, room)?;
        Ok(MemorySink {
            bytes,
            room,
            piece,
            fails,
            calls: 0,
            faults: 0,
        })
    }

    /// What was written.
    pub fn as_slice(&self) -> &[u8]
        ensures { ⟦<MemorySink as Sink>⟧.written self.now ≡ Some result.now }
    {
        self.bytes.as_slice()
    }

    /// Counts a call, and whether it is to fail.
    fn is_to_fail(&mut self) -> bool
        ensures answer { IsTrue result ↔ Contains (sink_fails self.old) (sink_calls self.old) }
        ensures call { SinkCounts self.old self.new }
        ensures bytes { self.new.bytes ≡ self.old.bytes }
        ensures faults { self.new.faults ≡ self.old.faults }
    {
        let call = self.calls;
        self.calls = call.saturating_add(1);
        is_among(&self.fails, call)
    }
}

impl Sink for MemorySink {
    ghost use Rattle.std.specs.Prelude.{◌⊎◌};
    ghost use Rattle.std.specs.Io.{WritesAtMost};
    ghost use Rattle.std.specs.Io.KnownBytes.{WriteAppends};
    ghost use Rattle.streams.specs.Faults.{HasCause};
    ghost use Rattle.streams.specs.Memory.{sink_written, sink_faults, sink_room, sink_fails, sink_calls, sink_piece, SinkCounts};

    ghost written = { λ sink. Some (sink_written sink) };

    ghost faults = { λ sink. sink_faults sink };

    fn write(&mut self, piece: &[u8]) -> Result<usize, Failed>
        ensures bound { WritesAtMost result piece.now }
        ensures some { IfOk result (λ count. 0 < length piece.now → 0 < count) }
        ensures bytes { WriteAppends (Some (sink_written self.old)) (Some (sink_written self.new))
            result piece.now }
        ensures cause { HasCause (sink_faults self.old) (sink_faults self.new) result }

        // a call fails where its number is among those or the room is full, and nowhere else
        ensures to_fail { Contains (sink_fails self.old) (sink_calls self.old) → IsErr result }
        ensures failing { IsErr result → Contains (sink_fails self.old) (sink_calls self.old)
            ⊎ (length (sink_written self.old) ≡ sink_room self.old) }
        ensures count { IfOk result (λ count. count ≡
            min (min (length piece.now) (sink_room self.old - length (sink_written self.old)))
            (sink_piece self.old)) }
        ensures call { SinkCounts self.old self.new }
    {
        if self.is_to_fail() {
            return Err(count_fault(&mut self.faults));
        }
        let count = put(&mut self.bytes, self.room, piece, self.piece);
        if count == 0 && !piece.is_empty() {
            return Err(count_fault(&mut self.faults));
        }
        Ok(count)
    }

    fn flush(&mut self) -> Result<(), Failed>
        ensures bytes { sink_written self.new ≡ sink_written self.old }
        ensures cause { HasCause (sink_faults self.old) (sink_faults self.new) result }
        ensures failing { IsErr result ↔ Contains (sink_fails self.old) (sink_calls self.old) }
        ensures call { SinkCounts self.old self.new }
    {
        if self.is_to_fail() {
            return Err(count_fault(&mut self.faults));
        }
        Ok(())
    }
}

/// A sink that holds its bytes in memory, and fails only where its room is full: for a caller that wants what is written, in
/// place of standard output or standard error.
#[derive(Drop)]
pub struct HonestSink {
    bytes: Vec<u8>,
    room: usize,
    faults: u64,
    ghost within: { vec_len bytes ≤ room },
    ghost taken: { room ≤ vec_capacity bytes },
}

impl HonestSink {
    ghost use Rattle.streams.specs.Memory.{honest_room};

    /// A sink for `room` bytes. All memory is taken here.
    pub fn new(alloc: Global, room: usize) -> Result<HonestSink, AllocError>
        ensures written { IfOk result (λ sink. ⟦<HonestSink as Sink>⟧.written sink ≡ Some []) }
        ensures faults { IfOk result (λ sink. ⟦<HonestSink as Sink>⟧.faults sink ≡ 0) }
        ensures room { IfOk result (λ sink. honest_room sink ≡ room) }
    {
        let bytes = Vec::with_capacity(alloc, room)?;
        Ok(HonestSink {
            bytes,
            room,
            faults: 0,
        })
    }

    /// What was written.
    pub fn as_slice(&self) -> &[u8]
        ensures { ⟦<HonestSink as Sink>⟧.written self.now ≡ Some result.now }
    {
        self.bytes.as_slice()
    }
}

impl Sink for HonestSink {
    ghost use Rattle.std.specs.Prelude.{OnErr, IsOk};
    ghost use Rattle.std.specs.Io.{WritesAtMost};
    ghost use Rattle.std.specs.Io.KnownBytes.{WriteAppends};
    ghost use Rattle.streams.specs.Faults.{HasCause};
    ghost use Rattle.streams.specs.Memory.{honest_written, honest_faults, honest_room};

    ghost written = { λ sink. Some (honest_written sink) };

    ghost faults = { λ sink. honest_faults sink };

    fn write(&mut self, piece: &[u8]) -> Result<usize, Failed>
        ensures bound { WritesAtMost result piece.now }
        ensures some { IfOk result (λ count. 0 < length piece.now → 0 < count) }
        ensures bytes { WriteAppends
            (Some (honest_written self.old)) (Some (honest_written self.new)) result piece.now }
        ensures cause { HasCause (honest_faults self.old) (honest_faults self.new) result }
        ensures full { OnErr result (length (honest_written self.old) ≡ honest_room self.old) }
        ensures count { IfOk result (λ count. count ≡ min (length piece.now)
            (honest_room self.old - length (honest_written self.old))) }
        ensures room { honest_room self.new ≡ honest_room self.old }
    {
        let count = put(&mut self.bytes, self.room, piece, usize::MAX);
        if count == 0 && !piece.is_empty() {
            return Err(count_fault(&mut self.faults));
        }
        Ok(count)
    }

    fn flush(&mut self) -> Result<(), Failed>
        ensures never { IsOk result }
        ensures same { self.new ≡ self.old }
    {
        Ok(())
    }
}
