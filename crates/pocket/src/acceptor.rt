// The host's connections.
ghost use Rattle.std.specs.Prelude.{◌≡◌, ◌<◌, ◌^◌, ℕ, None, Option, IfOk, length, ⊤};
ghost use Rattle.std.specs.Io.{ReadsAtMost, WritesAtMost};
ghost use Rattle.std.specs.Io.KnownBytes.{Consumes, ReadConsumes, WriteAppends};
ghost use Rattle.pocket_types.specs.Causes.{HasCause};
ghost use Rattle.pocket_serve.specs.Accepting.{IsAccepted};
ghost use Rattle.pocket.specs.Listening.{GivesWithin, faults_after, stream_of};

use pocket_serve::Acceptor;
use pocket_types::Failed;
use pocket_wire::{Ended, Link, Sink, Source};
use std::io::{Read, Write};
use std::net::{OpenStream, Shutdown, TcpListener, TcpStream};
use std::time::Duration;

// How often an accept is tried before it counts as failed: a peer that goes before it is accepted is no fault of the
// listener.
const TRIES: u32 = 8;

// How many pieces are read of what a peer still sends behind the end, and how long the next one is waited for, in
// milliseconds.
const LAST_PIECES: u32 = 64;

const LAST_WAIT: u64 = 200;

/// A connection over a stream. It tells nothing of the bytes that it has left or has taken, and passes on what the
/// stream gives and what it takes.
#[derive(Drop)]
pub struct HostLink<S> {
    pub stream: S,
    pub read_faults: u64,
    pub write_faults: u64,
}

impl<S: Read> Source for HostLink<S> {
    ghost gives = { λ old piece new. Consumes (S.remaining old.stream) (S.remaining new.stream) piece };

    ghost left = { λ _. None };

    ghost faults = { λ link. link.read_faults };

    ghost Apart = { ℕ };

    ghost untouched = { λ link. link.write_faults };

    /// Waits for as long as the peer sends nothing.
    fn read(&mut self, buffer: &mut [u8]) -> Result<usize, Failed>
        ensures bound { ReadsAtMost result buffer.new }
        ensures passes { ReadConsumes (S.remaining self.old.stream) (S.remaining self.new.stream) result buffer.new }
        ensures cause { HasCause self.old.read_faults self.new.read_faults result }
        ensures apart { self.new.write_faults ≡ self.old.write_faults }
    {
        match self.stream.read(buffer) {
            Ok(count) => Ok(count),
            Err(_) => {
                self.read_faults = self.read_faults.saturating_add(1);
                Err(Failed)
            }
        }
    }
}

impl<S: Write> Sink for HostLink<S> {
    ghost taken = { λ _. None };

    ghost faults = { λ link. link.write_faults };

    ghost Apart = { ℕ };

    ghost untouched = { λ link. link.read_faults };

    /// Waits for as long as the peer reads nothing and the system has no room for more.
    fn write(&mut self, piece: &[u8]) -> Result<usize, Failed>
        ensures bound { WritesAtMost result piece.now }
        ensures some { 0 < length piece.now → IfOk result (λ n. 0 < n) }
        ensures passes { WriteAppends (S.contents self.old.stream) (S.contents self.new.stream) result piece.now }
        ensures cause { HasCause self.old.write_faults self.new.write_faults result }
        ensures apart { self.new.read_faults ≡ self.old.read_faults }
    {
        match self.stream.write(piece) {
            Ok(count) if count > 0 || piece.is_empty() => Ok(count),
            _ => {
                self.write_faults = self.write_faults.saturating_add(1);
                Err(Failed)
            }
        }
    }
}

impl<S: Read + Write> Link for HostLink<S> {
    ghost use Rattle.std.specs.Prelude.{refl, ⊤};

    ghost Place = { ⊤ };

    ghost place = { λ _. tt };

    ghost read_apart = { λ one two same. (refl, same, refl) };

    ghost write_apart = { λ one two same. (refl, same, refl) };
}

impl<S: Read + OpenStream + Drop> HostLink<S> {
    /// Ends the connection. What the peer still sends is read for a moment, since the system may reset a connection
    /// that is closed over unread bytes, and the peer then loses its last replies.
    fn end(self) {
        let mut stream = self.stream;
        if stream.shutdown(Shutdown::Write).is_err() {
            return;
        }
        if stream
            .set_read_timeout(Some(Duration::from_millis(LAST_WAIT)))
            .is_err()
        {
            return;
        }
        let mut buffer = [0; 4096];
        for _ in 0..LAST_PIECES {
            match stream.read(&mut buffer) {
                Ok(count) if count > 0 => {}
                _ => return,
            }
        }
    }
}

/// What gives the streams of connections.
pub trait Listener {
    type Stream: Read + Write + OpenStream + Drop;

    // a try on the first listener may give this and leave the second
    ghost gives: { Self → Option Self.Stream → Self → Type 0 };

    /// Tries to take the next stream, and may wait for it.
    fn take_stream(&mut self) -> Option<Self::Stream>
        ensures { gives self.old result self.new };
}

/// A port of the host. Where it couldn't be listened on there is none, and it gives no stream.
impl Listener for Option<TcpListener> {
    ghost use Rattle.std.specs.Prelude.{◌≡◌, None};

    type Stream = TcpStream;

    ghost gives = { λ old given _. old ≡ None → given ≡ None };

    fn take_stream(&mut self) -> Option<TcpStream> {
        let (stream, _) = self.as_ref()?.accept().ok()?;
        Some(stream)
    }
}

/// The next stream of a listener, which is tried more than once.
fn next_stream<L: Listener>(listener: &mut L) -> Option<L::Stream>
    ensures { GivesWithin L.gives 8 listener.old result listener.new }
{
    for _ in 0..TRIES {
        if let Some(stream) = listener.take_stream() {
            return Some(stream);
        }
    }
    None
}

/// Accepts connections of a listener. It tells nothing of what comes by them.
#[derive(Drop)]
pub struct HostAcceptor<L> {
    pub listener: L,
    /// How many connections it still accepts.
    pub left: u64,
    pub faults: u64,
    ghost few: { left < 2 ^ 64 },
}

impl<L: Listener> Acceptor for HostAcceptor<L> {
    type Link = HostLink<L::Stream>;

    ghost told = { λ acceptor. record { waiting = acceptor.left; inputs = None; finished = None; faults = acceptor.faults } };

    ghost has_place = { λ _. ⊤ };

    ghost few = { λ acceptor. acceptor.few };

    /// Waits for as long as nobody connects.
    fn accept(&mut self) -> Result<Option<HostLink<L::Stream>>, Failed>
        ensures accepts { IsAccepted ⟦<HostLink<L::Stream> as Source>⟧.left ⟦<HostLink<L::Stream> as Sink>⟧.taken
            ⟦<HostLink<L::Stream> as Source>⟧.faults ⟦<HostLink<L::Stream> as Sink>⟧.faults
            (⟦<HostAcceptor<L> as Acceptor>⟧.told self.old) (⟦<HostAcceptor<L> as Acceptor>⟧.told self.new) result }
        ensures cause { HasCause self.old.faults self.new.faults result }
        // Where a connection is left, the link is over the stream that the listener gave, and it fails only where each
        // try gave none.
        ensures stream { 0 < self.old.left → GivesWithin L.gives 8 self.old.listener (stream_of result) self.new.listener }
        ensures count { self.new.faults ≡ faults_after self.old.faults result }
    {
        if self.left == 0 {
            return Ok(None);
        }
        let Some(stream) = next_stream(&mut self.listener) else {
            self.faults = self.faults.saturating_add(1);
            return Err(Failed);
        };
        self.left -= 1;
        // A reply is sent at once, also where the one before it wasn't acknowledged yet.
        let _ = stream.set_nodelay(true);
        Ok(Some(HostLink {
            stream,
            read_faults: 0,
            write_faults: 0,
        }))
    }

    fn finish(&mut self, link: HostLink<L::Stream>, ended: Ended) {
        match ended {
            Ended::SourceFault | Ended::SinkFault => drop(link),
            _ => link.end(),
        }
    }
}
