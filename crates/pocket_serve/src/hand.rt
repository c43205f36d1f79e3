// A worker that serves the links of its acceptor.
ghost use Rattle.std.specs.Prelude.{◌≡◌, List, length};
ghost use Rattle.pocket_desk.specs.History.{works};
ghost use Rattle.pocket_desk.specs.Pass.{IsOf};
ghost use Rattle.pocket_serve.specs.Accepting.{Finished, IsFresh, with_finished};
ghost use Rattle.pocket_serve.specs.Drawing.{IsDrawn, draws_of};
ghost use Rattle.pocket_serve.specs.Hands.{AreSessions, IsFinishedAs, IsHandRun, Served, calls_of, hand_view};
ghost use Rattle.pocket_serve.specs.Owners.{Shared, SharedFits};
ghost use Rattle.pocket_serve.specs.Passes.{HasCalled};
ghost use Rattle.pocket_serve.specs.Sessions.{IsSession};

use crate::acceptor::Acceptor;
use crate::connection::{Worker, answer_connection};
use crate::gate::Gate;
use pocket_api::{Reply, Work};
use pocket_desk::{Desk, Machine, Pass};
use pocket_wire::{Clock, Dice};
use std::alloc::Global;
use std::sync::Wait;

/// What one worker has: where its links come from, and what it draws moments and words from.
#[derive(Drop)]
pub struct Hand<A, C, D> {
    pub acceptor: A,
    pub clock: C,
    pub dice: D,
}

/// How a worker ended.
#[derive(Clone, Copy, Debug, PartialEq, Eq)]
pub struct WorkerEnd {
    /// How many links it accepted.
    pub connections: u64,
    /// Whether it ended because no link could be accepted. Otherwise none was left.
    pub faulted: bool,
}

/// Serves a link that was just accepted, and gives it back to the acceptor, which has a place for it.
fn serve_link<
    M: Machine<Work = Work, Reply = Reply>,
    A: Acceptor,
    C: Clock,
    D: Dice,
    G: Gate,
    R: Wait,
>(
    worker: Worker<'_, M, G, R>,
    alloc: Global,
    pass: Pass<M>,
    link: A::Link,
    hand: &mut Hand<A, C, D>,
) -> Pass<M>
    requires desk { IsOf worker.desk.now pass }
    requires fresh { IsFresh A.Link.left A.Link.taken A.Link.Source.faults A.Link.Sink.faults link }
    requires place { A.has_place hand.old.acceptor }
    ensures desk { IsOf worker.entry.desk.now result }
    ensures served { (served : Served) × (finished : Finished)
        × HasCalled (M.enters (M.opening worker.entry.desk.now.opened)) pass served.calls result
        × IsSession (SharedFits (M.fits (M.opening worker.entry.desk.now.opened))) (M.enters (M.opening worker.entry.desk.now.opened)) Shared (works result.seen)
        (length (works pass.seen)) served.calls served.bytes served.said served.last served.ended (length (works result.seen))
        × IsFinishedAs (A.Link.left link) served finished
        × (A.told hand.new.acceptor ≡ with_finished (A.told hand.old.acceptor) finished)
        × IsDrawn (C.answers hand.old.clock) (C.answers hand.new.clock) (D.answers hand.old.dice) (D.answers hand.new.dice)
        (draws_of served.calls) served.ended }
{
    let mut link = link;
    let (pass, ended) = answer_connection(
        worker.rt,
        alloc,
        worker.desk,
        pass,
        &mut link,
        &mut hand.clock,
        &mut hand.dice,
        worker.gate,
        worker.number,
    );
    hand.acceptor.finish(link, ended);
    pass
}

/// Serves the links of a hand, one after the other, until none is left or none can be accepted. It may wait for the calls of others.
pub fn serve_hand<
    M: Machine<Work = Work, Reply = Reply>,
    A: Acceptor,
    C: Clock,
    D: Dice,
    G: Gate,
    R: Wait,
>(
    rt: &R,
    alloc: Global,
    desk: &Desk<M>,
    pass: Pass<M>,
    hand: &mut Hand<A, C, D>,
    gate: &G,
    worker: u64,
) -> (Pass<M>, WorkerEnd)
    requires desk { IsOf desk.now pass }
    ensures desk { IsOf desk.now result.0 }
    // The pass made the calls of some links, which are sessions one after the other over the history that it has seen now; and these
    // links, as many as the end says, were accepted, served and finished.
    ensures served { (links : List Served)
        × HasCalled (M.enters (M.opening desk.now.opened)) pass (calls_of links) result.0
        × AreSessions (SharedFits (M.fits (M.opening desk.now.opened))) (M.enters (M.opening desk.now.opened)) Shared (works result.0.seen)
        (length (works pass.seen)) links (length (works result.0.seen))
        × IsHandRun (hand_view A.told C.answers D.answers hand.old) (hand_view A.told C.answers D.answers hand.new) links
        result.1.connections result.1.faulted }
{
    let worker = Worker {
        rt,
        desk,
        gate,
        number: worker,
    };
    let mut pass = pass;
    let mut connections = 0;
    'links: loop {
        match hand.acceptor.accept() {
            Ok(Some(link)) => {
                pass = serve_link(worker, alloc, pass, link, hand);
                connections += 1;
            }
            Ok(None) => {
                let end = WorkerEnd {
                    connections,
                    faulted: false,
                };
                return (pass, end);
            }
            Err(_) => {
                let end = WorkerEnd {
                    connections,
                    faulted: true,
                };
                return (pass, end);
            }
        }
    }
}
