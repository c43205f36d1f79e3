ghost use Rattle.std.specs.Prelude.{◌≡◌, ◌<◌, None, IfOk, length, pos, ⊤};
ghost use Rattle.std.specs.Io.{ReadsAtMost, WritesAtMost};
ghost use Rattle.std.specs.Io.KnownBytes.{Consumes, ReadConsumes, WriteAppends};
ghost use Rattle.pocket_types.specs.Causes.{HasCause};

use crate::clock::Clock;
use crate::dice::Dice;
use crate::source::{Sink, Source};
use pocket_types::{Failed, Moment};
use std::io::{Read, Write};
use std::random::RandomSource;
use std::rt::Clock as SystemClock;
use std::time::SystemTime;

/// A reader of std that counts its faults. It tells nothing of what is left.
#[derive(Drop)]
pub struct HostSource<R> {
    pub inner: R,
    pub faults: u64,
}

impl<R: Read> Source for HostSource<R> {
    ghost gives = { λ old piece new. Consumes (R.remaining old.inner) (R.remaining new.inner) piece };

    ghost left = { λ _. None };

    ghost faults = { λ s. s.faults };

    ghost Apart = { ⊤ };

    ghost untouched = { λ _. tt };

    fn read(&mut self, buffer: &mut [u8]) -> Result<usize, Failed>
        ensures bound { ReadsAtMost result buffer.new }
        ensures cause { HasCause self.old.faults self.new.faults result }
        ensures passes { ReadConsumes (R.remaining self.old.inner) (R.remaining self.new.inner) result buffer.new }
    {
        match self.inner.read(buffer) {
            Ok(count) => Ok(count),
            Err(_) => {
                self.faults = self.faults.saturating_add(1);
                Err(Failed)
            }
        }
    }
}

/// A writer of std that counts its faults. It tells nothing of what it took.
#[derive(Drop)]
pub struct HostSink<W> {
    pub inner: W,
    pub faults: u64,
}

impl<W: Write> Sink for HostSink<W> {
    ghost taken = { λ _. None };

    ghost faults = { λ s. s.faults };

    ghost Apart = { ⊤ };

    ghost untouched = { λ _. tt };

    fn write(&mut self, piece: &[u8]) -> Result<usize, Failed>
        ensures bound { WritesAtMost result piece.now }
        ensures some { 0 < length piece.now → IfOk result (λ n. 0 < n) }
        ensures cause { HasCause self.old.faults self.new.faults result }
        ensures passes { WriteAppends (W.contents self.old.inner) (W.contents self.new.inner) result piece.now }
    {
        match self.inner.write(piece) {
            Ok(count) if count > 0 || piece.is_empty() => Ok(count),
            _ => {
                self.faults = self.faults.saturating_add(1);
                Err(Failed)
            }
        }
    }
}

/// The system's clock. Where the system gives no time, one before 1970 or one after the year 9999, it repeats its last
/// answer, which at first is the year 1970's begin.
#[derive(Drop)]
pub struct HostClock<R> {
    pub rt: R,
    /// The last answer.
    pub last: Moment,
}

impl<R> HostClock<R> {
    /// Over the runtime.
    pub fn new(rt: R) -> HostClock<R>
        ensures { result.last ≡ pos 0 }
    {
        let last = match Moment::of_millis(0) {
            Some(moment) => moment,
            None => unreachable!(),
        };
        HostClock { rt, last }
    }
}

/// What the system's clock says.
fn system_moment<R: SystemClock>(rt: &R) -> Option<Moment> {
    let time = SystemTime::now(rt).ok()?;
    let since = time.duration_since(SystemTime::UNIX_EPOCH).ok()?;
    let millis = i64::try_from(since.as_millis()).ok()?;
    Moment::of_millis(millis)
}

impl<R: SystemClock> Clock for HostClock<R> {
    ghost answers = { λ _. None };

    fn now(&mut self) -> Moment
        ensures { result ≡ self.new.last }
    {
        if let Some(moment) = system_moment(&self.rt) {
            self.last = moment;
        }
        self.last
    }
}

/// The system's random words. Where the system gives none, it repeats its last answer, which at first is 0.
#[derive(Drop)]
pub struct HostDice<R> {
    pub rt: R,
    /// The last answer.
    pub last: u64,
}

impl<R> HostDice<R> {
    /// Over the runtime.
    pub fn new(rt: R) -> HostDice<R>
        ensures { result.last ≡ 0 }
    {
        HostDice { rt, last: 0 }
    }
}

impl<R: RandomSource> Dice for HostDice<R> {
    ghost answers = { λ _. None };

    fn word(&mut self) -> u64
        ensures { result ≡ self.new.last }
    {
        let mut bytes = [0; 8];
        if self.rt.fill_bytes(&mut bytes).is_ok() {
            self.last = u64::from_le_bytes(bytes);
        }
        self.last
    }
}
