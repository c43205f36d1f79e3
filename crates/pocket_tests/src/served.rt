// A server over the sample.
use pocket::{Closed, ServeStatus, run_serve, sample_rows};
use pocket_keeper::MemoryKeeper;
use pocket_serve::{Acceptor, Gate, Hand};
use pocket_types::Moment;
use pocket_wire::{CountingDice, FixedClock};
use std::alloc::{AllocError, Global};
use std::sync::Wait;
use std::thread::Threads;

/// A worker's part with a clock that stands.
pub(crate) type TestHand<A> = Hand<A, FixedClock, CountingDice>;

/// How a server ended, the number of commands that it accepted, and its hands.
#[derive(Drop)]
pub(crate) struct Served<A> {
    pub(crate) status: ServeStatus,
    pub(crate) accepted: usize,
    pub(crate) hands: Vec<TestHand<A>>,
}

fn first_of_1970() -> Moment {
    match Moment::of_millis(0) {
        Some(moment) => moment,
        None => unreachable!(),
    }
}

/// A hand whose dice count up from a word.
pub(crate) fn hand_over<A>(acceptor: A, first_word: u64) -> TestHand<A> {
    Hand {
        acceptor,
        clock: FixedClock::new(first_of_1970()),
        dice: CountingDice::new(first_word),
    }
}

/// The words of a server.
pub(crate) fn words_of(alloc: Global) -> Result<Vec<String>, AllocError> {
    let mut words = Vec::new(alloc);
    for word in ["serve", "--admin", "adminadminadmin1", "--port", "8090"] {
        words.push(String::from_str(alloc, word)?)?;
    }
    Ok(words)
}

/// The keeper of the sample.
pub(crate) fn sample_keeper(alloc: Global) -> Result<MemoryKeeper, AllocError> {
    MemoryKeeper::new(alloc, sample_rows(alloc)?, Vec::new(alloc))
}

/// Serves the hands over the sample.
pub(crate) fn serve_sample<R: Threads + Wait + Sync, A: Acceptor + Send + Drop, G: Gate + Sync>(
    rt: &R,
    alloc: Global,
    hands: Vec<TestHand<A>>,
    gate: &G,
) -> Result<Served<A>, AllocError>
where
    A::Link: Send,
{
    let words = words_of(alloc)?;
    let keeper = sample_keeper(alloc)?;
    let (status, closed) = run_serve(rt, alloc, words.as_slice(), hands, keeper, gate);
    let Closed {
        keeper: _,
        journal,
        hands,
    } = closed;
    Ok(Served {
        status,
        accepted: journal.len(),
        hands,
    })
}
