// A connection whose requests are answered by calls on a desk.
ghost use Rattle.std.specs.Prelude.{◌≡◌, ◌⊎◌, ◌≤◌, ℕ, List, length};
ghost use Rattle.std.specs.Io.KnownBytes.{Consumes, IsAtEnd};
ghost use Rattle.pocket_types.specs.Causes.{Rose};
ghost use Rattle.pocket_api.specs.declared.reply.Reply.{Reply};
ghost use Rattle.pocket_api.specs.declared.work.Work.{Work};
ghost use Rattle.pocket_desk.specs.History.{works};
ghost use Rattle.pocket_desk.specs.Pass.{IsOf};
ghost use Rattle.pocket_desk.specs.declared.view.Call.{Call};
ghost use Rattle.pocket_serve.specs.Drawing.{IsDrawn, draws_of};
ghost use Rattle.pocket_serve.specs.Owners.{Shared, SharedFits};
ghost use Rattle.pocket_serve.specs.Passes.{HasCalled};
ghost use Rattle.pocket_serve.specs.Sending.{Takes};
ghost use Rattle.pocket_serve.specs.Sessions.{IsSession};

use crate::gate::Gate;
use crate::service::Service;
use crate::session::run_link;
use pocket_api::{Reply, Work};
use pocket_desk::{Desk, Machine, Pass};
use pocket_wire::{Clock, Dice, Ended, Link};
use std::alloc::{AllocError, Global};
use std::sync::Wait;

/// What a worker serves by: a runtime to wait with, the desk, the gate that each of its calls is told to, and its number.
pub(crate) struct Worker<'desk, M: Machine, G, R> {
    pub(crate) rt: &'desk R,
    pub(crate) desk: &'desk Desk<M>,
    pub(crate) gate: &'desk G,
    pub(crate) number: u64,
}

impl<M: Machine, G, R> Copy for Worker<'_, M, G, R> {}

impl<M: Machine, G, R> Clone for Worker<'_, M, G, R> {
    fn clone(&self) -> Result<Self, AllocError> {
        Ok(*self)
    }
}

/// A desk that answers the requests of a worker's connection, with the worker's pass.
struct DeskService<'desk, M: Machine, G, R> {
    worker: Worker<'desk, M, G, R>,
    pass: Pass<M>,
}

impl<M: Machine<Work = Work, Reply = Reply>, G: Gate, R: Wait> Service
    for DeskService<'_, M, G, R> {
    ghost use Rattle.std.specs.Prelude.{◌≡◌, refl};
    ghost use Rattle.pocket_desk.specs.History.{works};
    ghost use Rattle.pocket_desk.specs.Pass.{IsOf};
    ghost use Rattle.pocket_serve.specs.Growing.{same_more};
    ghost use Rattle.pocket_serve.specs.Owners.{Shared, SharedFits};
    ghost use Rattle.pocket_serve.specs.PassLaws.{called_more_at, called_none};
    ghost use Rattle.pocket_serve.specs.Passes.{HasCalled};

    type Lent = ();

    ghost Opening = { M.Opening };

    ghost opening = { λ s. M.opening s.worker.desk.now.opened };

    ghost seen = { λ s. works s.pass.seen };

    ghost fits = { λ opening. SharedFits (M.fits opening) };

    ghost enters = { M.enters };

    // others call in between
    ghost follows = { Shared };

    ghost is_ready = { λ s _. IsOf s.worker.desk.now s.pass };

    ghost came_by = { λ one _ calls two _. HasCalled (M.enters (M.opening one.worker.desk.now.opened)) one.pass calls two.pass
        × (two.worker.desk.now ≡ one.worker.desk.now) };

    ghost came_by_none = { λ one _. (called_none (M.enters (M.opening one.worker.desk.now.opened)) one.pass, refl) };

    ghost came_by_more = { λ one two three _ _ _ calls more first second. (
      called_more_at (λ desk. M.enters (M.opening desk.opened)) one.worker.desk.now two.worker.desk.now one.pass two.pass three.pass calls more first.1 first.0 second.0,
      same_more one.worker.desk.now two.worker.desk.now three.worker.desk.now first.1 second.1,
    ) };

    fn call(
        self,
        _lent: &mut (),
        _alloc: Global,
        number: u64,
        work: Work,
    ) -> (Self, Option<Reply>) {
        let DeskService { worker, pass } = self;
        worker.gate.before(worker.number, number);
        let (pass, reply) = worker.desk.call(worker.rt, pass, work);
        let service = DeskService { worker, pass };
        (service, Some(reply))
    }
}

/// Answers the requests of a connection one after the other, each by a call on the desk, for which it may wait. Before each call it
/// tells the gate the worker, and how many requests came before on the connection.
pub fn answer_connection<
    M: Machine<Work = Work, Reply = Reply>,
    N: Link,
    C: Clock,
    D: Dice,
    G: Gate,
    R: Wait,
>(
    rt: &R,
    alloc: Global,
    desk: &Desk<M>,
    pass: Pass<M>,
    link: &mut N,
    clock: &mut C,
    dice: &mut D,
    gate: &G,
    worker: u64,
) -> (Pass<M>, Ended)
    requires desk { IsOf desk.now pass }
    ensures desk { IsOf desk.now result.0 }
    // The pass made the calls of a session over the bytes that the link gave, one for each request that reached the machine, over the
    // history that it has seen now. The link took what the session sent.
    ensures session { (calls : List (Call Work Reply)) × (bytes : List ℕ) × (said : List ℕ) × (last : List ℕ)
        × Consumes (N.left link.old) (N.left link.new) bytes
        × HasCalled (M.enters (M.opening desk.now.opened)) pass calls result.0
        × IsSession (SharedFits (M.fits (M.opening desk.now.opened))) (M.enters (M.opening desk.now.opened)) Shared (works result.0.seen)
        (length (works pass.seen)) calls bytes said last result.1 (length (works result.0.seen))
        × Takes (N.taken link.old) (N.taken link.new) (N.Sink.faults link.old) (N.Sink.faults link.new) said last result.1
        × IsDrawn (C.answers clock.old) (C.answers clock.new) (D.answers dice.old) (D.answers dice.new) (draws_of calls) result.1 }
    ensures source_fault { result.1 ≡ Ended.SourceFault → Rose (N.Source.faults link.old) (N.Source.faults link.new) }
    ensures at_end { (result.1 ≡ Ended.Done) ⊎ (result.1 ≡ Ended.Truncated) → IsAtEnd (N.left link.new) }

    // No count of faults falls.
    ensures source_count { N.Source.faults link.old ≤ N.Source.faults link.new }
    ensures sink_count { N.Sink.faults link.old ≤ N.Sink.faults link.new }
{
    let worker = Worker {
        rt,
        desk,
        gate,
        number: worker,
    };
    let service = DeskService { worker, pass };
    let (service, ended) = run_link(alloc, service, &mut (), link, clock, dice);
    let DeskService { worker: _, pass } = service;
    (pass, ended)
}
