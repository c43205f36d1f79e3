// What links in memory are made of, and how they ended.
ghost use Rattle.std.specs.Prelude.{◌<◌};

use pocket_types::Seq;
use pocket_wire::{Ended, MemoryLink};

/// What a link in memory gives, and which of its calls fail.
#[derive(Drop)]
pub struct LinkInput {
    pub bytes: Seq<u8>,
    /// The most bytes that a read gives.
    pub piece: usize,
    /// The reads with these numbers fail, counted from 0.
    pub failing_reads: Vec<u64>,
    /// The writes with these numbers fail, counted from 0.
    pub failing_writes: Vec<u64>,
    pub ghost some: { 0 < piece },
}

/// A link in memory that ended.
#[derive(Drop)]
pub struct FinishedLink {
    pub link: MemoryLink,
    pub ended: Ended,
}
