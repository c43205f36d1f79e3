// The workers of a server, each in a thread of its own where one can be started.
ghost use Rattle.std.specs.Prelude.{◌≡◌, ◌≤◌, [], IfErr, IfOk, List, map, vec_capacity, vec_len};
ghost use denote.Param.Send.{IsSend, IsSync};
ghost use Rattle.pocket_desk.specs.History.{works};
ghost use Rattle.pocket_desk.specs.Pass.{IsOf};
ghost use Rattle.pocket_serve.specs.Hands.{hand_view};
ghost use Rattle.pocket_serve.specs.Owners.{Shared, SharedFits};
ghost use Rattle.pocket_serve.specs.Passes.{StillHolds};
ghost use Rattle.pocket_serve.specs.Workers.{AreWorked, IsWorked};

use crate::acceptor::Acceptor;
use crate::connection::Worker;
use crate::gate::Gate;
use crate::hand::{Hand, WorkerEnd, serve_hand};
use pocket_api::{Reply, Work};
use pocket_desk::{Desk, Machine, Pass};
use pocket_wire::{Clock, Dice};
use std::alloc::{AllocError, Global};
use std::sync::Wait;
use std::thread::{Threads, join};

/// A machine that was served, with what the workers have and how they ended, both in the order of the hands.
pub struct ServedMachine<M, A, C, D> {
    pub machine: M,
    pub hands: Vec<Hand<A, C, D>>,
    pub ends: Vec<WorkerEnd>,
}

/// Serves the links of a hand by a new pass, and gives the hand back. The pass's works are those entered for these links.
fn serve_by<
    M: Machine<Work = Work, Reply = Reply>,
    A: Acceptor,
    C: Clock,
    D: Dice,
    G: Gate,
    R: Wait,
>(
    worker: Worker<'_, M, G, R>,
    alloc: Global,
    pass: Pass<M>,
    hand: Hand<A, C, D>,
) -> (Pass<M>, Hand<A, C, D>, WorkerEnd)
    requires desk { IsOf worker.desk.now pass }
    requires new { (pass.seen ≡ []) × (pass.ours ≡ []) }
    ensures desk { IsOf worker.entry.desk.now result.0 }
    ensures held { result.0.held ≡ pass.held }
    ensures worked { IsWorked (SharedFits (M.fits (M.opening worker.entry.desk.now.opened))) (M.enters (M.opening worker.entry.desk.now.opened)) Shared (works result.0.seen)
        (hand_view A.told C.answers D.answers hand) (hand_view A.told C.answers D.answers result.1) result.2 result.0.ours }
{
    let mut hand = hand;
    let (pass, end) = serve_hand(
        worker.rt,
        alloc,
        worker.desk,
        pass,
        &mut hand,
        worker.gate,
        worker.number,
    );
    (pass, hand, end)
}

/// Serves the links of these hands, each by a worker of its own with the hand's number, and gives them back with the workers' ends, for
/// which the list has room.
fn serve_all<
    M: Machine<Work = Work, Reply = Reply> + Send,
    A: Acceptor + Send + Drop,
    C: Clock + Send + Drop,
    D: Dice + Send + Drop,
    G: Gate + Sync,
    R: Threads + Wait + Sync,
>(
    rt: &R,
    alloc: Global,
    desk: &Desk<M>,
    pass: Pass<M>,
    hands: Vec<Hand<A, C, D>>,
    ends: Vec<WorkerEnd>,
    gate: &G,
) -> (Pass<M>, Vec<Hand<A, C, D>>, Vec<WorkerEnd>)
where
    A::Link: Send,
    requires desk { IsOf desk.now pass }
    requires new { (pass.seen ≡ []) × (pass.ours ≡ []) }
    requires none { ends.items ≡ [] }
    requires room { vec_len hands ≤ vec_capacity ends }
    ensures desk { IsOf desk.now result.0 }
    ensures held { StillHolds pass result.0 }
    ensures worked { AreWorked (SharedFits (M.fits (M.opening desk.now.opened))) (M.enters (M.opening desk.now.opened)) Shared (works result.0.seen)
        (map (hand_view A.told C.answers D.answers) hands.items) (map (hand_view A.told C.answers D.answers) result.1.items) result.2.items
        result.0.ours }
    ensures hands { (vec_len result.1 ≡ vec_len hands) × (vec_capacity result.1 ≡ vec_capacity hands) }
    ensures ends { (vec_len result.2 ≡ vec_len hands) × (vec_capacity result.2 ≡ vec_capacity ends) }
{
    let mut hands = hands;
    let Some(hand) = hands.pop() else {
        return (pass, hands, ends);
    };
    let number = hands.len() as u64;
    let (one, two) = desk.split(pass);
    let (last, others) = join(
        rt,
        || -> (Pass<M>, Hand<A, C, D>, WorkerEnd)
            requires { IsSync R.row × IsSend M.row × IsSend A.row × IsSend A.Link.row × IsSend C.row × IsSend D.row × IsSync G.row
                × IsOf desk.now one × (one.seen ≡ []) × (one.ours ≡ []) }
            ensures { IsOf desk.entry.now result.0
                × (result.0.held ≡ one.held)
                × IsWorked (SharedFits (M.fits (M.opening desk.entry.now.opened))) (M.enters (M.opening desk.entry.now.opened)) Shared (works result.0.seen)
                (hand_view A.told C.answers D.answers hand) (hand_view A.told C.answers D.answers result.1) result.2
                result.0.ours }
        {
            serve_by(
                Worker {
                    rt,
                    desk,
                    gate,
                    number,
                },
                alloc,
                one,
                hand,
            )
        },
        || -> (Pass<M>, Vec<Hand<A, C, D>>, Vec<WorkerEnd>)
            requires { IsSync R.row × IsSend M.row × IsSend A.row × IsSend A.Link.row × IsSend C.row × IsSend D.row × IsSync G.row
                × IsOf desk.now two × (two.seen ≡ []) × (two.ours ≡ []) × (ends.items ≡ []) × (vec_len hands ≤ vec_capacity ends) }
            ensures { IsOf desk.entry.now result.0
                × StillHolds two result.0
                × AreWorked (SharedFits (M.fits (M.opening desk.entry.now.opened))) (M.enters (M.opening desk.entry.now.opened)) Shared (works result.0.seen)
                (map (hand_view A.told C.answers D.answers) hands.items) (map (hand_view A.told C.answers D.answers) result.1.items) result.2.items
                result.0.ours
                × (vec_len result.1 ≡ vec_len hands) × (vec_capacity result.1 ≡ vec_capacity hands)
                × (vec_len result.2 ≡ vec_len hands) × (vec_capacity result.2 ≡ vec_capacity ends) }
        { serve_all(rt, alloc, desk, two, hands, ends, gate) },
    );
    let (one, hand, end) = last;
    let (two, mut hands, mut ends) = others;
    hands.push_reserved(hand);
    ends.push_reserved(end);
    (desk.join(one, two), hands, ends)
}

/// Opens a desk for a machine, serves the links of each hand by a worker of its own, and closes the desk when all workers ended. A worker
/// for which no thread can be started is run by the caller. It may wait, and ends only where every worker does.
///
/// All memory of its own is taken before the first link is accepted: where there is none, machine and hands come back as they were.
pub fn serve_machine<
    M: Machine<Work = Work, Reply = Reply> + Send,
    A: Acceptor + Send + Drop,
    C: Clock + Send + Drop,
    D: Dice + Send + Drop,
    G: Gate + Sync,
    R: Threads + Wait + Sync,
>(
    rt: &R,
    alloc: Global,
    machine: M,
    hands: Vec<Hand<A, C, D>>,
    gate: &G,
) -> Result<ServedMachine<M, A, C, D>, (AllocError, M, Vec<Hand<A, C, D>>)>
where
    A::Link: Send,
    requires new { M.history machine ≡ [] }
    // Each worker served some links, which are sessions over the history of the machine. What they entered by the calls of
    // these links, interleaved, is the whole history: nobody else entered a work, and none was entered twice.
    ensures worked { IfOk result (λ served. AreWorked (SharedFits (M.fits (M.opening machine))) (M.enters (M.opening machine)) Shared
        (M.history served.machine) (map (hand_view A.told C.answers D.answers) hands.items)
        (map (hand_view A.told C.answers D.answers) served.hands.items) served.ends.items
        (M.history served.machine)) }
    ensures opening { IfOk result (λ served. M.opening served.machine ≡ M.opening machine) }
    ensures refused { IfErr result (λ e. (e.1 ≡ machine) × (e.2.items ≡ hands.items)) }
{
    let Ok(ends) = Vec::with_capacity(alloc, hands.len()) else {
        return Err((AllocError, machine, hands));
    };
    match Desk::start(alloc, machine) {
        Ok((desk, pass)) => {
            let (pass, hands, ends) = serve_all(rt, alloc, &desk, pass, hands, ends, gate);
            let machine = desk.close(rt, pass);
            Ok(ServedMachine {
                machine,
                hands,
                ends,
            })
        }
        Err((error, machine)) => Err((error, machine, hands)),
    }
}
