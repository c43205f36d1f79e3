// Adapters over the host's readers, writers, clock and random words.
use pocket_wire::{Clock, Dice, HostClock, HostDice, HostSink, HostSource, Source, write_all};
use std::io;
use std::random::RandomSource;
use std::rt::Clock as SystemClock;
use std::time::Duration;

#[test]
fn the_end_of_an_input_is_no_fault(rt: HostRuntime) {
    let mut source = HostSource {
        inner: b"hello".as_slice(),
        faults: 0,
    };
    let mut buffer = [0; 4];
    for want in [4, 1, 0, 0] {
        assert_eq!(rt; source.read(&mut buffer).ok(), Some(want));
    }
    assert_eq!(rt; source.faults, 0);
}

// A writer that is full takes nothing.
#[test]
fn a_writer_that_takes_nothing_has_a_fault(rt: HostRuntime) {
    let mut room = [0; 7];
    let mut sink = HostSink {
        inner: room.as_mut_slice(),
        faults: 0,
    };
    for (want, faults) in [(true, 0), (false, 1)] {
        assert_eq!(rt; write_all(&mut sink, b"hello").is_ok(), want);
        assert_eq!(rt; sink.faults, faults);
    }
    assert_eq!(rt; room, *b"hellohe");
}

/// A system whose clock and random words can be taken away.
#[derive(Drop)]
struct System {
    secs: Option<u64>,
    random: bool,
}

impl SystemClock for System {
    fn monotonic(&self) -> io::Result<Duration> {
        self.since_1970()
    }

    fn since_1970(&self) -> io::Result<Duration> {
        match self.secs {
            Some(secs) => Ok(Duration::from_secs(secs)),
            None => Err(io::Error::from(io::ErrorKind::Other)),
        }
    }
}

impl RandomSource for System {
    fn fill_bytes(&self, buf: &mut [u8]) -> io::Result<()> {
        if !self.random {
            return Err(io::Error::from(io::ErrorKind::Other));
        }
        buf.fill(1);
        Ok(())
    }
}

/// A system that gives no time and no words.
fn silent() -> System {
    System {
        secs: None,
        random: false,
    }
}

// The last time is in the year 10000.
#[test]
fn a_clock_that_fails_gives_the_last_moment(rt: HostRuntime) {
    let mut clock = HostClock::new(silent());
    let cases = [
        (None, 0),
        (Some(1_714_557_600), 1_714_557_600_000),
        (None, 1_714_557_600_000),
        (Some(253_402_300_800), 1_714_557_600_000),
    ];
    for (secs, millis) in cases {
        clock.rt.secs = secs;
        assert_eq!(rt; clock.now().millis(), millis);
    }
}

#[test]
fn dice_that_fail_give_the_last_word(rt: HostRuntime) {
    let mut dice = HostDice::new(silent());
    for (random, word) in [
        (false, 0),
        (true, 0x0101_0101_0101_0101),
        (false, 0x0101_0101_0101_0101),
    ] {
        dice.rt.random = random;
        assert_eq!(rt; dice.word(), word);
    }
}

#[test]
fn the_host_gives_time_and_words(rt: HostRuntime) {
    assert!(rt; HostClock::new(&rt).now().millis() > 1_714_557_600_000);
    let mut dice = HostDice::new(&rt);
    assert_ne!(rt; dice.word(), dice.word());
}
