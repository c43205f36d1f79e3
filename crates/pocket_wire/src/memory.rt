ghost use Rattle.std.specs.Prelude.{◌≡◌, ◌≤◌, ◌<◌, ◌↔◌, ◌++◌, [], IfOk, take, drop, length, vec_len, Option, None, Some, List, ℕ, IsErr, ⊤};
ghost use Rattle.std.specs.Io.{ReadsAtMost, WritesAtMost};
ghost use Rattle.std.specs.Io.KnownBytes.{ReadConsumes, WriteAppends};
ghost use Rattle.pocket_types.specs.Causes.{HasCause};
ghost use Rattle.pocket_wire.specs.Fakes.{IsCounted, IsOneRead, IsToFail};
ghost use Rattle.pocket_wire.specs.Reads.{piece_of};

use crate::calls::Calls;
use crate::source::{Link, Sink, Source};
use pocket_types::{Failed, Seq};

/// Bytes in memory, given out in pieces. Calls of `read` fail on demand.
#[derive(Drop)]
pub struct MemorySource {
    /// The calls of `read`.
    pub calls: Calls,
    bytes: Vec<u8>,
    at: usize,
    piece: usize,
    ghost in_range: { at ≤ vec_len bytes },
    ghost some: { 0 < piece },
}

impl MemorySource {
    /// All of these bytes in pieces of at most `piece`. The calls with the numbers `failing`, counted from 0, fail.
    pub fn new(bytes: Seq<u8>, piece: usize, failing: Vec<u64>) -> MemorySource
        requires { 0 < piece }
        ensures left { ⟦<MemorySource as Source>⟧.left result ≡ Some bytes }
        ensures faults { ⟦<MemorySource as Source>⟧.faults result ≡ 0 }
        ensures failing { result.calls.failing ≡ failing }
        ensures made { result.calls.made ≡ 0 }
    {
        MemorySource {
            calls: Calls::new(failing),
            bytes: bytes.into_vec(),
            at: 0,
            piece,
        }
    }

    // The next piece of what is left.
    fn give(&mut self, buffer: &mut [u8]) -> usize
        ensures bound { (result ≤ length buffer.new) × (length buffer.new ≡ length buffer.old) }
        ensures left { drop self.old.at self.old.bytes.items ≡ take result buffer.new ++ drop self.new.at self.new.bytes.items }
        ensures ended { result ≡ 0 → 0 < length buffer.new → drop self.new.at self.new.bytes.items ≡ [] }
        ensures few { result ≤ self.old.piece }
        ensures piece { self.new.piece ≡ self.old.piece }
        ensures calls { self.new.calls ≡ self.old.calls }
    {
        let count = (self.bytes.len() - self.at)
            .min(self.piece)
            .min(buffer.len());
        buffer[..count].copy_from_slice(&self.bytes[self.at..self.at + count]);
        self.at += count;
        count
    }
}

impl Source for MemorySource {
    ghost gives = { λ old piece new. IsOneRead old.piece old.calls new.calls (drop old.at old.bytes.items) piece (drop new.at new.bytes.items)
        × (new.piece ≡ old.piece) };

    ghost left = { λ s. Some (drop s.at s.bytes.items) };

    ghost faults = { λ s. s.calls.faults };

    ghost Apart = { ⊤ };

    ghost untouched = { λ _. tt };

    fn read(&mut self, buffer: &mut [u8]) -> Result<usize, Failed>
        ensures bound { ReadsAtMost result buffer.new }
        ensures bytes { ReadConsumes (⟦<MemorySource as Source>⟧.left self.old) (⟦<MemorySource as Source>⟧.left self.new) result buffer.new }
        ensures cause { HasCause self.old.calls.faults self.new.calls.faults result }
        ensures given { ⟦<MemorySource as Source>⟧.gives self.old (piece_of result buffer.new) self.new }
        ensures fails { IsErr result ↔ IsToFail self.old.calls }
        ensures counted { IsCounted self.old.calls self.new.calls result }
    {
        if self.calls.begin() {
            return Err(self.calls.fail());
        }
        Ok(self.give(buffer))
    }
}

/// Bytes taken into memory. Calls of `write` fail on demand.
#[derive(Drop)]
pub struct MemorySink {
    /// The calls of `write`.
    pub calls: Calls,
    bytes: Vec<u8>,
}

impl MemorySink {
    /// A sink that took these bytes. The calls with the numbers `failing`, counted from 0, fail, and so does one that finds
    /// no memory.
    pub fn new(bytes: Seq<u8>, failing: Vec<u64>) -> MemorySink
        ensures taken { ⟦<MemorySink as Sink>⟧.taken result ≡ Some bytes }
        ensures faults { ⟦<MemorySink as Sink>⟧.faults result ≡ 0 }
        ensures failing { result.calls.failing ≡ failing }
        ensures made { result.calls.made ≡ 0 }
    {
        MemorySink {
            calls: Calls::new(failing),
            bytes: bytes.into_vec(),
        }
    }

    /// The bytes that it took.
    pub fn bytes(&self) -> &[u8]
        ensures { ⟦<MemorySink as Sink>⟧.taken self.now ≡ Some result.now }
    {
        &self.bytes
    }
}

impl Sink for MemorySink {
    ghost taken = { λ s. Some s.bytes.items };

    ghost faults = { λ s. s.calls.faults };

    ghost Apart = { ⊤ };

    ghost untouched = { λ _. tt };

    /// Beside the calls that are to fail, one fails that finds no memory.
    fn write(&mut self, piece: &[u8]) -> Result<usize, Failed>
        ensures bound { WritesAtMost result piece.now }
        ensures all { IfOk result (λ n. n ≡ length piece.now) }
        ensures bytes { WriteAppends (⟦<MemorySink as Sink>⟧.taken self.old) (⟦<MemorySink as Sink>⟧.taken self.new) result piece.now }
        ensures cause { HasCause self.old.calls.faults self.new.calls.faults result }
        ensures fails { IsToFail self.old.calls → IsErr result }
        ensures counted { IsCounted self.old.calls self.new.calls result }
    {
        if self.calls.begin() {
            return Err(self.calls.fail());
        }
        if self.bytes.extend_from_slice(piece).is_err() {
            return Err(self.calls.fail());
        }
        Ok(piece.len())
    }
}

/// A source and a sink in memory, as one connection.
#[derive(Drop)]
pub struct MemoryLink {
    pub source: MemorySource,
    pub sink: MemorySink,
}

impl Source for MemoryLink {
    ghost gives = { λ old piece new. ⟦<MemorySource as Source>⟧.gives old.source piece new.source };

    ghost left = { λ l. ⟦<MemorySource as Source>⟧.left l.source };

    ghost faults = { λ l. ⟦<MemorySource as Source>⟧.faults l.source };

    ghost Apart = { Option (List ℕ) × ℕ };

    ghost untouched = { λ l. (⟦<MemorySink as Sink>⟧.taken l.sink, ⟦<MemorySink as Sink>⟧.faults l.sink) };

    fn read(&mut self, buffer: &mut [u8]) -> Result<usize, Failed> {
        self.source.read(buffer)
    }
}

impl Sink for MemoryLink {
    ghost taken = { λ l. ⟦<MemorySink as Sink>⟧.taken l.sink };

    ghost faults = { λ l. ⟦<MemorySink as Sink>⟧.faults l.sink };

    ghost Apart = { Option (List ℕ) × ℕ };

    ghost untouched = { λ l. (⟦<MemorySource as Source>⟧.left l.source, ⟦<MemorySource as Source>⟧.faults l.source) };

    fn write(&mut self, piece: &[u8]) -> Result<usize, Failed> {
        self.sink.write(piece)
    }
}

impl Link for MemoryLink {
    ghost use Rattle.std.specs.Prelude.{⊤};
    ghost use Rattle.pocket_wire.specs.Parts.{link_apart};

    ghost Place = { ⊤ };

    ghost place = { λ _. tt };

    ghost read_apart = { λ one two same. link_apart tt same };

    ghost write_apart = { λ one two same. link_apart tt same };
}
