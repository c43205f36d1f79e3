// A source and a sink of their own, as one connection.
ghost use Rattle.std.specs.Prelude.{Option, List, ℕ};

use crate::source::{Link, Sink, Source};
use pocket_types::Failed;

/// A source and a sink that are lent, as one connection. While it is used it stays one of the same two.
#[derive(Drop)]
pub struct Ends<'source, 'sink, S, O> {
    pub source: &'source mut S,
    pub sink: &'sink mut O,
}

impl<S: Source, O: Sink> Source for Ends<'_, '_, S, O> {
    ghost gives = { λ old piece new. S.gives old.source.now piece new.source.now };

    ghost left = { λ e. S.left e.source.now };

    ghost faults = { λ e. S.faults e.source.now };

    ghost Apart = { Option (List ℕ) × ℕ × ℕ × ℕ };

    ghost untouched = { λ e. (O.taken e.sink.now, O.faults e.sink.now, e.source.ghost_name, e.sink.ghost_name) };

    fn read(&mut self, buffer: &mut [u8]) -> Result<usize, Failed> {
        self.source.read(buffer)
    }
}

impl<S: Source, O: Sink> Sink for Ends<'_, '_, S, O> {
    ghost taken = { λ e. O.taken e.sink.now };

    ghost faults = { λ e. O.faults e.sink.now };

    ghost Apart = { Option (List ℕ) × ℕ × ℕ × ℕ };

    ghost untouched = { λ e. (S.left e.source.now, S.faults e.source.now, e.source.ghost_name, e.sink.ghost_name) };

    fn write(&mut self, piece: &[u8]) -> Result<usize, Failed> {
        self.sink.write(piece)
    }
}

impl<S: Source, O: Sink> Link for Ends<'_, '_, S, O> {
    ghost use Rattle.std.specs.Prelude.{ℕ};
    ghost use Rattle.pocket_wire.specs.Parts.{ends_apart};

    ghost Place = { ℕ × ℕ };

    ghost place = { λ e. (e.source.ghost_name, e.sink.ghost_name) };

    ghost read_apart = { λ one two same. ends_apart same };

    ghost write_apart = { λ one two same. ends_apart same };
}
