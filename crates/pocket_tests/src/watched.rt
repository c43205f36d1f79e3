// Connections in memory that another thread can watch.
ghost use Rattle.std.specs.Prelude.{◌<◌, ℕ, None, ⊤};
ghost use Rattle.pocket_tests.specs.Links.{few_of, left_of};

use pocket_serve::{Acceptor, Gate};
use pocket_types::{Failed, Seq};
use pocket_wire::{Ended, Link, MemorySink, MemorySource, Sink, Source};
use std::alloc::Global;
use std::rt::Clock;
use std::sync::atomic::{AtomicBool, Ordering};
use std::thread;
use std::time::{Duration, Instant};

// How long is waited for a flag until it counts as never set, in seconds: a test may take a minute.
const LONGEST_WAIT: u64 = 20;

/// Whether this instant was longer ago than what waits may wait. A clock that fails says so too.
fn is_over(rt: &impl Clock, start: &Instant) -> bool {
    match start.elapsed(rt) {
        Ok(waited) => waited.as_secs() >= LONGEST_WAIT,
        Err(_) => true,
    }
}

/// Waits until the flag is set, but not for ever. Whether it was.
fn wait_for(rt: &impl Clock, flag: &AtomicBool) -> bool {
    let Ok(start) = Instant::now(rt) else {
        return false;
    };
    for _ in 0..u64::MAX {
        if flag.load(Ordering::SeqCst) {
            return true;
        }
        if is_over(rt, &start) {
            return false;
        }
        thread::sleep(rt, Duration::from_millis(1));
    }
    false
}

/// Two flags: whether the watched connection has taken bytes of a reply, and whether what waits for that saw it.
#[derive(Drop)]
pub(crate) struct Watch {
    rt: HostRuntime,
    answered: AtomicBool,
    seen: AtomicBool,
}

impl Watch {
    pub(crate) fn new(rt: HostRuntime) -> Watch {
        Watch {
            rt,
            answered: AtomicBool::new(false),
            seen: AtomicBool::new(false),
        }
    }

    fn hold(&self) {
        if wait_for(&self.rt, &self.answered) {
            self.seen.store(true, Ordering::SeqCst);
        }
    }

    /// Whether what waited saw the reply.
    pub(crate) fn was_seen(&self) -> bool {
        self.seen.load(Ordering::SeqCst)
    }
}

/// What a connection does beside giving and taking bytes.
#[derive(Clone, Copy, PartialEq, Eq)]
pub(crate) enum Part {
    /// Its first reply is told.
    Watched,
    /// Its first call waits at the gate until the watched connection is answered.
    HeldCall,
    /// Its second read waits so.
    HeldRead,
}

/// Holds the first call of the first worker, where that one's connection has this part.
#[derive(Drop)]
pub(crate) struct HoldingGate<'w> {
    pub(crate) watch: &'w Watch,
    pub(crate) first: Part,
}

impl Gate for HoldingGate<'_> {
    fn before(&self, worker: u64, request: u64) {
        if self.first == Part::HeldCall && worker == 0 && request == 0 {
            self.watch.hold();
        }
    }
}

/// A connection in memory. It tells nothing.
#[derive(Drop)]
pub(crate) struct WatchedLink<'w> {
    source: MemorySource,
    sink: MemorySink,
    part: Part,
    reads: u64,
    watch: &'w Watch,
}

impl Source for WatchedLink<'_> {
    ghost gives = { λ old piece new. ⟦<MemorySource as Source>⟧.gives old.source piece new.source };

    ghost left = { λ _. None };

    ghost faults = { λ link. ⟦<MemorySource as Source>⟧.faults link.source };

    ghost Apart = { ℕ };

    ghost untouched = { λ link. ⟦<MemorySink as Sink>⟧.faults link.sink };

    fn read(&mut self, buffer: &mut [u8]) -> Result<usize, Failed> {
        if self.part == Part::HeldRead && self.reads == 1 {
            self.watch.hold();
        }
        self.reads = self.reads.saturating_add(1);
        self.source.read(buffer)
    }
}

impl Sink for WatchedLink<'_> {
    ghost taken = { λ _. None };

    ghost faults = { λ link. ⟦<MemorySink as Sink>⟧.faults link.sink };

    ghost Apart = { ℕ };

    ghost untouched = { λ link. ⟦<MemorySource as Source>⟧.faults link.source };

    fn write(&mut self, piece: &[u8]) -> Result<usize, Failed> {
        let written = self.sink.write(piece);
        if self.part == Part::Watched {
            self.watch.answered.store(true, Ordering::SeqCst);
        }
        written
    }
}

impl Link for WatchedLink<'_> {
    ghost use Rattle.std.specs.Prelude.{refl, ⊤};

    ghost Place = { ⊤ };

    ghost place = { λ _. tt };

    ghost read_apart = { λ one two same. (refl, same, refl) };

    ghost write_apart = { λ one two same. (refl, same, refl) };
}

/// Gives one connection.
#[derive(Drop)]
pub(crate) struct OneAcceptor<'w> {
    alloc: Global,
    bytes: Option<Seq<u8>>,
    piece: usize,
    part: Part,
    watch: &'w Watch,
    ended: Option<WatchedLink<'w>>,
    ghost some: { 0 < piece },
}

impl<'w> OneAcceptor<'w> {
    /// Of these bytes, in pieces of at most `piece`.
    pub(crate) fn new(
        alloc: Global,
        bytes: Seq<u8>,
        piece: usize,
        part: Part,
        watch: &'w Watch,
    ) -> OneAcceptor<'w>
        requires { 0 < piece }
    {
        OneAcceptor {
            alloc,
            bytes: Some(bytes),
            piece,
            part,
            watch,
            ended: None,
        }
    }

    /// What the connection took until it ended.
    pub(crate) fn sent(&self) -> &[u8] {
        match &self.ended {
            Some(link) => link.sink.bytes(),
            None => &[],
        }
    }
}

impl<'w> Acceptor for OneAcceptor<'w> {
    type Link = WatchedLink<'w>;

    ghost told = { λ acceptor. record { waiting = left_of acceptor.bytes; inputs = None; finished = None; faults = 0 } };

    ghost has_place = { λ _. ⊤ };

    ghost few = { λ acceptor. few_of acceptor.bytes };

    fn accept(&mut self) -> Result<Option<WatchedLink<'w>>, Failed> {
        let Some(bytes) = self.bytes.take() else {
            return Ok(None);
        };
        Ok(Some(WatchedLink {
            source: MemorySource::new(bytes, self.piece, Vec::new(self.alloc)),
            sink: MemorySink::new(Seq::new(self.alloc), Vec::new(self.alloc)),
            part: self.part,
            reads: 0,
            watch: self.watch,
        }))
    }

    fn finish(&mut self, link: WatchedLink<'w>, _ended: Ended) {
        self.ended = Some(link);
    }
}
