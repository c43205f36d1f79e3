// Requests of standard input, answered on standard output.
ghost use Rattle.std.specs.Prelude.{◌≡◌, ℕ, List, map};
ghost use Rattle.std.specs.String.{string_bytes};
ghost use Rattle.pocket.specs.Runs.{AreRead, IsPipeEnd};
ghost use Rattle.pocket.specs.Words.{IsPipe};

use crate::keepers::{HostKeeper, open_keeper};
use pocket::{RunEnd, Status, run_plain};
use pocket_keeper::Committer;
use pocket_types::Text;
use pocket_wire::{HostClock, HostDice, HostSink, HostSource};
use std::io;

/// Answers the requests over a keeper.
fn run_over(rt: &HostRuntime, words: &[String], keeper: &mut HostKeeper) -> RunEnd
    ensures words { AreRead (IsPipe (map string_bytes words.now)) result }
    ensures ended { IsPipeEnd (map string_bytes words.now) (⟦<HostKeeper as Committer>⟧.rows keeper.old)
        (⟦<HostKeeper as Committer>⟧.rows keeper.new) (⟦<HostKeeper as Committer>⟧.faults keeper.old)
        (⟦<HostKeeper as Committer>⟧.faults keeper.new) result }
{
    let mut source = HostSource {
        inner: rt.reader(),
        faults: 0,
    };
    let mut sink = HostSink {
        inner: io::writer(rt),
        faults: 0,
    };
    let mut clock = HostClock::new(*rt);
    let mut dice = HostDice::new(*rt);
    let Status {
        ended,
        turns: _,
        journal: _,
    } = run_plain(
        rt.alloc(),
        words,
        &mut source,
        &mut sink,
        keeper,
        &mut clock,
        &mut dice,
    );
    ended
}

/// Runs `pipe` with these words, over a file or over memory.
pub fn run(rt: &HostRuntime, words: &[String], store: Option<Text>, sample: bool) -> RunEnd
    ensures refused { result ≡ RunEnd.Words → (token : List ℕ) → ¬ IsPipe (map string_bytes words.now) token }
{
    match open_keeper(rt, store, sample) {
        Ok(mut keeper) => run_over(rt, words, &mut keeper),
        Err(ended) => ended,
    }
}
