// A server: workers over one history.
ghost use Rattle.std.specs.Prelude.{◌≡◌, ◌⊎◌, ◌≤◌, [], List, map};
ghost use Rattle.std.specs.String.{string_bytes};
ghost use Rattle.pocket_types.specs.Causes.{StaysUntold};
ghost use Rattle.pocket_keeper.specs.Keeping.{AreAsBefore};
ghost use Rattle.pocket_api.specs.declared.work.Work.{Work};
ghost use Rattle.pocket_serve.specs.Hands.{hand_view};
ghost use Rattle.pocket_serve.specs.Owners.{Shared};
ghost use Rattle.pocket_serve.specs.Workers.{AreWorked};
ghost use Rattle.pocket_core.specs.Answers.{after};
ghost use Rattle.pocket_core.specs.Opening.{AreRowsOf};
ghost use Rattle.pocket_states.specs.States.{MachineState};
ghost use Rattle.pocket_office.specs.Offices.{AreAccepted};
ghost use Rattle.pocket.specs.Calls.{OfficeFits, StateEnters};
ghost use Rattle.pocket.specs.Runs.{AreRead, IsOpeningFor, IsServeEnd, OnSession, OnUnopened};
ghost use Rattle.pocket.specs.Words.{IsServe};

use crate::run::{start_end, word_end};
use crate::status::{RunEnd, ServeStatus};
use crate::words::serve_token;
use pocket_api::Work;
use pocket_core::State;
use pocket_keeper::Keeper;
use pocket_office::Office;
use pocket_serve::{Acceptor, Gate, Hand, ServedMachine, WorkerEnd, serve_machine};
use pocket_types::Seq;
use pocket_wire::{Clock, Dice, Ended};
use std::alloc::Global;
use std::sync::Wait;
use std::thread::Threads;

/// What a server gives back.
#[derive(Drop)]
pub struct Closed<K, A, C, D> {
    pub keeper: K,
    /// The commands that were accepted, in their order.
    pub journal: Seq<Work>,
    /// The hands, in the order in which they came.
    pub hands: Vec<Hand<A, C, D>>,
}

/// A server that served nothing.
fn unserved<K, A, C, D>(
    alloc: Global,
    started: RunEnd,
    keeper: K,
    hands: Vec<Hand<A, C, D>>,
) -> (ServeStatus, Closed<K, A, C, D>)
    ensures started { result.0.started ≡ started }
    ensures workers { result.0.workers ≡ [] }
    ensures keeper { result.1.keeper ≡ keeper }
    ensures journal { result.1.journal ≡ [] }
    ensures hands { result.1.hands.items ≡ hands.items }
{
    let status = ServeStatus {
        started,
        workers: Seq::new(alloc),
    };
    let closed = Closed {
        keeper,
        journal: Seq::new(alloc),
        hands,
    };
    (status, closed)
}

/// A server whose workers all ended.
fn served<K: Keeper, A, C, D>(
    office: Office<K>,
    hands: Vec<Hand<A, C, D>>,
    ends: Vec<WorkerEnd>,
) -> (ServeStatus, Closed<K, A, C, D>)
    ensures started { result.0.started ≡ RunEnd.Session Ended.Done }
    ensures workers { result.0.workers ≡ ends.items }
    ensures rows { AreRowsOf (K.rows result.1.keeper) (after office.state.opening result.1.journal) }
    ensures accepted { AreAccepted office.state.opening result.1.journal }
    ensures journal { result.1.journal ≡ office.state.journal }
    ensures hands { result.1.hands.items ≡ hands.items }
    ensures untold { StaysUntold (K.rows office.first) (K.rows result.1.keeper) }
    ensures keeper_count { K.faults office.first ≤ K.faults result.1.keeper }
{
    let (state, keeper) = office.into_parts();
    let status = ServeStatus {
        started: RunEnd::Session(Ended::Done),
        workers: Seq::from_vec(ends),
    };
    let closed = Closed {
        keeper,
        journal: state.into_journal(),
        hands,
    };
    (status, closed)
}

/// Serves over an opened state and the keeper of its rows.
fn serve_opened<
    A: Acceptor + Send + Drop,
    K: Keeper + Send,
    C: Clock + Send + Drop,
    D: Dice + Send + Drop,
    G: Gate + Sync,
    R: Threads + Wait + Sync,
>(
    rt: &R,
    alloc: Global,
    state: State,
    keeper: K,
    hands: Vec<Hand<A, C, D>>,
    gate: &G,
) -> (ServeStatus, Closed<K, A, C, D>)
where
    A::Link: Send,
    requires fresh { state.journal ≡ [] }
    requires rows { AreRowsOf (K.rows keeper) state.opening }
    ensures ended { (result.0.started ≡ RunEnd.Session Ended.Done) ⊎ (result.0.started ≡ RunEnd.Memory) }
    ensures served { OnSession result.0.started (λ _. AreAccepted state.opening result.1.journal
        × AreRowsOf (K.rows result.1.keeper) (after state.opening result.1.journal)
        × AreWorked (OfficeFits state.opening) (StateEnters state.opening) Shared result.1.journal
        (map (hand_view A.told C.answers D.answers) hands.items) (map (hand_view A.told C.answers D.answers) result.1.hands.items) result.0.workers
        result.1.journal) }
    ensures unserved { OnUnopened result.0.started ((result.0.workers ≡ []) × (result.1.journal ≡ []) × (result.1.hands.items ≡ hands.items)
        × (result.1.keeper ≡ keeper)) }
    ensures untold { StaysUntold (K.rows keeper) (K.rows result.1.keeper) }
    ensures keeper_count { K.faults keeper ≤ K.faults result.1.keeper }
{
    match serve_machine(rt, alloc, Office::new(alloc, state, keeper), hands, gate) {
        Ok(
            ServedMachine {
                machine,
                hands,
                ends,
            },
        ) => served(machine, hands, ends),
        Err((_, office, hands)) => {
            let (state, keeper) = office.into_parts();
            drop(state);
            unserved(alloc, RunEnd::Memory, keeper, hands)
        }
    }
}

/// Serves the connections of all hands, each by a worker of its own, over the state that the keeper's rows stand for, until every worker
/// ended. It may wait for as long as connections and callers do.
#[tactic(auto, using(crate::proofs::KeeperLemmas::as_they_were, crate::proofs::KeeperLemmas::opening_end, crate::proofs::KeeperLemmas::word_read, crate::proofs::KeeperLemmas::bad_words, crate::proofs::KeeperLemmas::named, crate::proofs::KeeperLemmas::served_end))]
pub fn run_serve<
    A: Acceptor + Send + Drop,
    K: Keeper + Send,
    C: Clock + Send + Drop,
    D: Dice + Send + Drop,
    G: Gate + Sync,
    R: Threads + Wait + Sync,
>(
    rt: &R,
    alloc: Global,
    words: &[String],
    hands: Vec<Hand<A, C, D>>,
    keeper: K,
    gate: &G,
) -> (ServeStatus, Closed<K, A, C, D>)
where
    A::Link: Send,
    // The words are refused exactly where they aren't good, if memory isn't wanting, and each other end has its cause.
    ensures words { AreRead (IsServe (map string_bytes words.now)) result.0.started }
    ensures ended { IsServeEnd (map string_bytes words.now) (K.rows keeper) (K.rows result.1.keeper) (K.faults keeper) (K.faults result.1.keeper)
        result.0.started }

    // From the state that the rows told at first stand for there is one history: each command of it is one that the machine enters after
    // those before it, and the rows told at the end are those of the state after all of them. Each worker served the connections of its
    // hand, which are sessions over this history, until none was left or none could be accepted. What they entered by the calls of these
    // connections, interleaved, is the whole history: each command once, and nothing that nobody sent.
    ensures served { OnSession result.0.started (λ _. (opening : MachineState)
        × IsOpeningFor (IsServe (map string_bytes words.now)) (K.rows keeper) (K.rows result.1.keeper) opening
        × AreAccepted opening result.1.journal
        × AreRowsOf (K.rows result.1.keeper) (after opening result.1.journal)
        × AreWorked (OfficeFits opening) (StateEnters opening) Shared result.1.journal
        (map (hand_view A.told C.answers D.answers) hands.items) (map (hand_view A.told C.answers D.answers) result.1.hands.items) result.0.workers
        result.1.journal) }

    // Where nothing was served, nothing is accepted, the hands are as before, and so are the told rows.
    ensures unserved { OnUnopened result.0.started ((result.0.workers ≡ []) × (result.1.journal ≡ []) × (result.1.hands.items ≡ hands.items)) }
    ensures rows { OnUnopened result.0.started (AreAsBefore (K.rows keeper) (K.rows result.1.keeper)) }

    // What the keeper didn't tell it doesn't tell now, and its count of faults doesn't fall.
    ensures untold { StaysUntold (K.rows keeper) (K.rows result.1.keeper) }
    ensures keeper_count { K.faults keeper ≤ K.faults result.1.keeper }
{
    let admin = match serve_token(alloc, words) {
        Ok(admin) => admin,
        Err(fault) => return unserved(alloc, word_end(fault), keeper, hands),
    };
    let mut keeper = keeper;
    match State::load(alloc, &mut keeper, admin) {
        Ok(state) => serve_opened(rt, alloc, state, keeper, hands, gate),
        Err(fault) => unserved(alloc, start_end(fault), keeper, hands),
    }
}
