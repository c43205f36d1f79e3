ghost use Rattle.std.specs.Prelude.{◌≡◌, ◌⊎◌, ◌<◌, ◌≤◌, [], ℕ, List, map};
ghost use Rattle.std.specs.Io.KnownBytes.{Consumes, IsAtEnd};
ghost use Rattle.std.specs.String.{string_bytes};
ghost use Rattle.pocket_types.specs.Causes.{Rose, StaysUntold};
ghost use Rattle.pocket_keeper.specs.Keeping.{AreAsBefore};
ghost use Rattle.pocket_wire.specs.declared.request.Ended.TheVariants.{Done, SourceFault, Truncated};
ghost use Rattle.pocket_api.specs.declared.reply.Reply.{Reply};
ghost use Rattle.pocket_api.specs.declared.work.Work.{Work};
ghost use Rattle.pocket_desk.specs.declared.view.Call.{Call};
ghost use Rattle.pocket_serve.specs.Drawing.{IsDrawn, draws_of};
ghost use Rattle.pocket_serve.specs.Sending.{Takes};
ghost use Rattle.pocket_core.specs.Answers.{after};
ghost use Rattle.pocket_core.specs.Opening.{AreRowsOf};
ghost use Rattle.pocket_states.specs.States.{MachineState};
ghost use Rattle.pocket.specs.Calls.{IsKeptOver, IsOwnSession, turns_of};
ghost use Rattle.pocket.specs.Runs.{AreRead, IsOpeningFor, IsPipeEnd, OnPipe, OnSession, OnUnopened, end_of, word_end_of};
ghost use Rattle.pocket.specs.Words.{IsPipe};

use crate::service::StateService;
use crate::status::{RunEnd, Status};
use crate::words::pipe_token;
use pocket_core::{StartFault, State};
use pocket_keeper::{Committer, Keeper};
use pocket_serve::run_session;
use pocket_types::{Seq, Steps};
use pocket_wire::{Clock, Dice, Sink, Source};
use pocket_words::WordFault;
use std::alloc::Global;
use std::marker::{Brand, PhantomData};
use std::sync::ledger::{Blank, Ledger};

/// A run without a session.
fn unopened(alloc: Global, ended: RunEnd) -> Status
    ensures ended { result.ended ≡ ended }
    ensures turns { result.turns ≡ [] }
    ensures journal { result.journal ≡ [] }
{
    Status {
        ended,
        turns: Seq::new(alloc),
        journal: Seq::new(alloc),
    }
}

pub(crate) fn word_end(fault: WordFault) -> RunEnd
    ensures { result ≡ word_end_of fault }
{
    match fault {
        WordFault::BadWords => RunEnd::Words,
        WordFault::Memory => RunEnd::Memory,
    }
}

pub(crate) fn start_end(fault: StartFault) -> RunEnd
    ensures { result ≡ end_of fault }
{
    match fault {
        StartFault::KeeperFault => RunEnd::KeeperFault,
        StartFault::BadStore(key) => RunEnd::BadStore(key),
        StartFault::Memory => RunEnd::Memory,
    }
}

/// The session over an opened state.
fn run_opened<S: Source, O: Sink, K: Committer, C: Clock, D: Dice, L: Ledger>(
    alloc: Global,
    state: State,
    source: &mut S,
    sink: &mut O,
    keeper: &mut K,
    clock: &mut C,
    dice: &mut D,
    blank: Blank,
) -> Status
    requires name { blank.name ≡ L.name }
    requires parts { blank.parts ≡ L.parts }
    requires some { 0 < L.parts }
    requires fresh { state.journal ≡ [] }
    requires rows { AreRowsOf (K.rows keeper.old) state.opening }
    ensures session { OnSession result.ended (λ ended. (calls : List (Call Work Reply)) × (bytes : List ℕ) × (said : List ℕ) × (last : List ℕ)
        × Consumes (S.left source.old) (S.left source.new) bytes
        × (result.turns ≡ turns_of calls)
        × IsOwnSession state.opening result.journal calls bytes said last ended
        × Takes (O.taken sink.old) (O.taken sink.new) (O.faults sink.old) (O.faults sink.new) said last ended
        × IsDrawn (C.answers clock.old) (C.answers clock.new) (D.answers dice.old) (D.answers dice.new) (draws_of calls) ended
        × AreRowsOf (K.rows keeper.new) (after state.opening result.journal)
        × IsKeptOver calls (K.rows keeper.old) (K.rows keeper.new) (K.faults keeper.old) (K.faults keeper.new)) }
    ensures source_fault { OnSession result.ended (λ ended. ended ≡ SourceFault → Rose (S.faults source.old) (S.faults source.new)) }
    ensures at_end { OnSession result.ended (λ ended. (ended ≡ Done) ⊎ (ended ≡ Truncated) → IsAtEnd (S.left source.new)) }
    ensures opened { OnUnopened result.ended ⊥ }
    ensures untold { StaysUntold (K.rows keeper.old) (K.rows keeper.new) }
    ensures keeper_count { K.faults keeper.old ≤ K.faults keeper.new }
    ensures source_count { S.faults source.old ≤ S.faults source.new }
    ensures sink_count { O.faults sink.old ≤ O.faults sink.new }
{
    let service = StateService::<K, L> {
        state,
        turns: Seq::new(alloc),
        steps: Steps::new(blank),
        keeper: PhantomData,
    };
    let (service, ended) = run_session(alloc, service, keeper, source, sink, clock, dice);
    let StateService {
        state,
        turns,
        steps: _,
        keeper: _,
    } = service;
    Status {
        ended: RunEnd::Session(ended),
        turns,
        journal: state.into_journal(),
    }
}

/// Runs the program that the words name, over bytes, a keeper, a clock and dice. So far that is `pipe`, which answers the requests of the
/// source on the sink, one after the other; the words of other programs aren't good here. It returns for every input.
#[tactic(auto, using(crate::proofs::KeeperLemmas::as_they_were, crate::proofs::KeeperLemmas::opening_end, crate::proofs::KeeperLemmas::word_read, crate::proofs::KeeperLemmas::bad_words, crate::proofs::KeeperLemmas::named))]
pub fn run_plain<S: Source, O: Sink, K: Keeper, C: Clock, D: Dice>(
    alloc: Global,
    words: &[String],
    source: &mut S,
    sink: &mut O,
    keeper: &mut K,
    clock: &mut C,
    dice: &mut D,
) -> Status
    // The words are refused exactly where they aren't good, if memory isn't wanting, and each other end has its cause.
    ensures words { AreRead (IsPipe (map string_bytes words.now)) result.ended }
    ensures ended { IsPipeEnd (map string_bytes words.now) (K.rows keeper.old) (K.rows keeper.new) (K.faults keeper.old) (K.faults keeper.new) result.ended }

    // `pipe`: from the state that the rows told at first stand for, the turns and the accepted commands are those of a session over
    // the bytes that the source gave; the sink took what the session sent, and clock and dice gave what was drawn; the rows told at
    // the end, also after a fault, are those of the state after the accepted commands; and the keeper's count rose by at least the number
    // of replies 500, or stands at its end.
    ensures session { OnPipe (map string_bytes words.now) (OnSession result.ended (λ ended. (opening : MachineState)
        × IsOpeningFor (IsPipe (map string_bytes words.now)) (K.rows keeper.old) (K.rows keeper.new) opening
        × (calls : List (Call Work Reply)) × (bytes : List ℕ) × (said : List ℕ) × (last : List ℕ)
        × Consumes (S.left source.old) (S.left source.new) bytes
        × (result.turns ≡ turns_of calls)
        × IsOwnSession opening result.journal calls bytes said last ended
        × Takes (O.taken sink.old) (O.taken sink.new) (O.faults sink.old) (O.faults sink.new) said last ended
        × IsDrawn (C.answers clock.old) (C.answers clock.new) (D.answers dice.old) (D.answers dice.new) (draws_of calls) ended
        × AreRowsOf (K.rows keeper.new) (after opening result.journal)
        × IsKeptOver calls (K.rows keeper.old) (K.rows keeper.new) (K.faults keeper.old) (K.faults keeper.new))) }
    ensures source_fault { OnPipe (map string_bytes words.now) (OnSession result.ended (λ ended. ended ≡ SourceFault → Rose (S.faults source.old) (S.faults source.new))) }
    ensures at_end { OnPipe (map string_bytes words.now) (OnSession result.ended (λ ended. (ended ≡ Done) ⊎ (ended ≡ Truncated) → IsAtEnd (S.left source.new))) }

    // Without a session nothing is read, sent or drawn, and the told rows are as before.
    ensures no_turn { OnUnopened result.ended ((result.turns ≡ []) × (result.journal ≡ [])) }
    ensures untouched { OnUnopened result.ended
        ((source.new ≡ source.old) × (sink.new ≡ sink.old) × (clock.new ≡ clock.old) × (dice.new ≡ dice.old)) }

    ensures rows { OnUnopened result.ended (AreAsBefore (K.rows keeper.old) (K.rows keeper.new)) }

    // What the keeper didn't tell it doesn't tell now, and no count of faults falls.
    ensures untold { StaysUntold (K.rows keeper.old) (K.rows keeper.new) }
    ensures keeper_count { K.faults keeper.old ≤ K.faults keeper.new }
    ensures source_count { S.faults source.old ≤ S.faults source.new }
    ensures sink_count { O.faults sink.old ≤ O.faults sink.new }
{
    let admin = match pipe_token(alloc, words) {
        Ok(admin) => admin,
        Err(fault) => return unopened(alloc, word_end(fault)),
    };
    match State::load(alloc, keeper, admin) {
        Ok(state) => run_opened::<S, O, K, C, D, Brand>(
            alloc,
            state,
            source,
            sink,
            keeper,
            clock,
            dice,
            Blank::new(1),
        ),
        Err(fault) => unopened(alloc, start_end(fault)),
    }
}
