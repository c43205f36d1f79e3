ghost use Rattle.std.specs.Prelude.{◌≡◌, ℕ, ◌≤◌, ◌<◌, List, Option, length, IfOk};
ghost use Rattle.std.specs.Io.{ReadsAtMost, WritesAtMost};
ghost use Rattle.std.specs.Io.KnownBytes.{ReadConsumes, WriteAppends};
ghost use Rattle.pocket_types.specs.Causes.{HasCause, StaysUntold};
ghost use Rattle.pocket_wire.specs.Reads.{piece_of};

use pocket_types::Failed;

/// Bytes that are read piece by piece.
pub trait Source {
    // one read of the first gives these bytes, none where it fails, and leaves the second
    ghost gives: { Self → List ℕ → Self → Type 0 };
    // the bytes that are left, where they are told
    ghost left: { Self → Option (List ℕ) };
    // how often a read has failed
    ghost faults: { Self → ℕ };
    // what a read leaves as it is
    ghost Apart: { Type 0 };

    ghost untouched: { Self → Apart };

    /// Reads from the front into the buffer, and answers how many bytes. A read into a buffer with room gives 0 bytes only
    /// at the end. One that fails leaves what is left.
    fn read(&mut self, buffer: &mut [u8]) -> Result<usize, Failed>
        ensures bound { ReadsAtMost result buffer.new }
        ensures bytes { ReadConsumes (left self.old) (left self.new) result buffer.new }
        ensures untold { StaysUntold (left self.old) (left self.new) }
        ensures cause { HasCause (faults self.old) (faults self.new) result }
        ensures given { gives self.old (piece_of result buffer.new) self.new }
        ensures apart { untouched self.new ≡ untouched self.old };
}

/// A place that bytes are written to.
pub trait Sink {
    // the bytes that it took, where they are told
    ghost taken: { Self → Option (List ℕ) };
    // how often a write has failed
    ghost faults: { Self → ℕ };
    // what a write leaves as it is
    ghost Apart: { Type 0 };

    ghost untouched: { Self → Apart };

    /// Writes from the front of the piece, and answers how many bytes. One that takes none of a piece that isn't empty is
    /// a fault. One that fails leaves what was taken.
    fn write(&mut self, piece: &[u8]) -> Result<usize, Failed>
        ensures bound { WritesAtMost result piece.now }
        ensures some { 0 < length piece.now → IfOk result (λ n. 0 < n) }
        ensures bytes { WriteAppends (taken self.old) (taken self.new) result piece.now }
        ensures untold { StaysUntold (taken self.old) (taken self.new) }
        ensures cause { HasCause (faults self.old) (faults self.new) result }
        ensures apart { untouched self.new ≡ untouched self.old };
}

/// A connection: a read changes nothing of the sink, and a write nothing of the source.
pub trait Link: Source + Sink {
    // what it lends from, where it is made of references: it stays the same, so that the lender knows what it gets back
    ghost Place: { Type 0 };

    ghost place: { Self → Place };

    ghost read_apart: { (one two : Self) → Self.Source.untouched two ≡ Self.Source.untouched one
        → (Self.taken two ≡ Self.taken one) × (Self.Sink.faults two ≡ Self.Sink.faults one) × (place two ≡ place one) };

    ghost write_apart: { (one two : Self) → Self.Sink.untouched two ≡ Self.Sink.untouched one
        → (Self.left two ≡ Self.left one) × (Self.Source.faults two ≡ Self.Source.faults one) × (place two ≡ place one) };
}
