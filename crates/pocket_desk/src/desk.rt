// The desk and its passes.
ghost use Rattle.std.specs.Prelude.{◌≡◌, [], ◌∷◌, Some, IfOk, IfErr};
ghost use Rattle.pocket_desk.specs.History.{works, BeginsWith};
ghost use Rattle.pocket_desk.specs.Pass.{IsOf, KnowsOwnWorks, IsNew, IsWhole, IsCall, IsSplit, IsJoin};

use crate::lock::{Close, Halves, LockRule, LockSeat, Merge, SERVING};
use crate::machine::Machine;
use crate::turn::{await_turn, serve, take_machine, take_ticket};
use crate::view::View;
use atomic_table::{Refused, Table};
use std::alloc::{AllocError, AllocFailed, Global};
use std::marker::Model;
use std::snapshot::Snapshot;
use std::sync::Wait;

/// A machine that any number of threads share. It serves one call at a time, in the order of tickets.
///
/// Contracts see it as its `name` and the machine as it was when it was `opened`. It isn't dropped: `close`
/// gives the machine back.
pub struct Desk<M: Machine> {
    table: Table<Option<M>, View<M, M::Work, M::Reply>, Snapshot<M>, LockRule<M>, Global>,
}

impl<M: Machine> Model for Desk<M> {
    ghost use Rattle.std.specs.Prelude.{◌≡◌};
    ghost use Rattle.pocket_desk.specs.Pass.{DeskView, desk_name};

    ghost Value = { DeskView M };

    ghost view = { λ d. let lock = d.table.shared in
        record { name = desk_name lock.table_id lock.key.value; opened = lock.key.value } };

    ghost invariant = { λ d. (d.table.shared.table_id.words ≡ 3) × (d.table.shared.table_id.slots ≡ 1) };
}

/// What one caller has seen of a desk's history. It has no bytes, and may go to another thread.
///
/// Contracts see it as the name of its `desk`, its own `number`, the numbers that it `held`, which are those
/// of passes that were joined to it as well, the entries that it has `seen`, the works that are `mine`, which
/// came by it and were entered, those that are `ours`, which came by passes that were joined to it as well,
/// and all its `calls`. A desk is closed with a pass, so keep the last one.
#[derive(Drop)]
pub struct Pass<M: Machine> {
    seat: LockSeat<M>,
}

impl<M: Machine> Model for Pass<M> {
    ghost use Rattle.pocket_desk.specs.Pass.{PassView, pass_view, IsPass};

    ghost Value = { PassView M M.Work M.Reply };

    ghost view = { λ p. pass_view p.seat };

    ghost invariant = { λ p. IsPass p.seat };
}

// The slot as it is at the start.
fn one_slot<M: Machine>(alloc: Global, machine: M) -> Result<Vec<Option<M>>, M>
    ensures ok { IfOk result (λ v. v.items ≡ Some machine ∷ []) }
    ensures err { IfErr result (λ m. m ≡ machine) }
{
    let mut slots = Vec::new(alloc);
    if let Err(AllocFailed { value }) = slots.push(Some(machine)) {
        slots.destroy_empty();
        return Err(value.unwrap());
    }
    Ok(slots)
}

impl<M: Machine> Desk<M> {
    /// Opens a desk, with the first pass to it. Where there is no memory, the machine comes back.
    pub fn start(alloc: Global, machine: M) -> Result<(Desk<M>, Pass<M>), (AllocError, M)>
        requires { M.history machine ≡ [] }
        ensures opened { IfOk result (λ r. r.0.opened ≡ machine) }
        ensures pass { IfOk result (λ r. IsOf r.0 r.1 × IsNew r.1) }
        ensures own { IfOk result (λ r. KnowsOwnWorks r.1) }
        ensures refused { IfErr result (λ e. e.1 ≡ machine) }
    {
        let opened = Snapshot::of(&machine);
        let slots = match one_slot(alloc, machine) {
            Ok(slots) => slots,
            Err(machine) => return Err((AllocError, machine)),
        };
        match Table::new(alloc, &[0, 0, 0], slots, &opened) {
            Ok((table, seat)) => Ok((Desk { table }, Pass { seat })),
            Err(Refused { mut slots }) => {
                let machine = slots.pop().unwrap();
                slots.destroy_empty();
                Err((AllocError, machine.unwrap()))
            }
        }
    }

    /// Has the machine serve a work. It waits, and yields while it does, until the calls that came before
    /// have been served. The reply is the machine's own: a desk refuses nothing.
    pub fn call(&self, rt: &impl Wait, pass: Pass<M>, work: M::Work) -> (Pass<M>, M::Reply)
        requires { IsOf self.now pass }
        ensures desk { IsOf self.now result.0 }
        ensures call { IsCall (M.fits (M.opening self.now.opened)) (M.enters (M.opening self.now.opened))
            pass work result.0 result.1 }
        ensures own { KnowsOwnWorks result.0 }
    {
        let lock = &self.table.shared;
        let Pass { mut seat } = pass;
        let ticket = take_ticket(rt, lock, &mut seat);
        await_turn(rt, lock, &mut seat, ticket);
        let reply = serve(lock, &mut seat, work);
        (Pass { seat }, reply)
    }

    /// A second pass, as for another thread.
    pub fn split(&self, pass: Pass<M>) -> (Pass<M>, Pass<M>)
        requires { IsOf self.now pass }
        ensures desk { IsOf self.now result.0 × IsOf self.now result.1 }
        ensures split { IsSplit pass result.0 result.1 }
        ensures own { KnowsOwnWorks result.0 × KnowsOwnWorks result.1 }
    {
        let Pass { mut seat } = pass;
        let other = self.table.shared.split_seat::<Halves>(&mut seat);
        (Pass { seat }, Pass { seat: other })
    }

    /// One pass of two, which has seen what either had.
    pub fn join(&self, one: Pass<M>, two: Pass<M>) -> Pass<M>
        requires { IsOf self.now one × IsOf self.now two }
        ensures desk { IsOf self.now result }
        ensures join { IsJoin one two result }
        ensures own { KnowsOwnWorks result }
    {
        let Pass { mut seat } = one;
        let Pass { seat: other } = two;
        self.table.shared.join_seat::<Halves>(&mut seat, other);
        self.table.shared.load::<Merge>(&mut seat, SERVING);
        Pass { seat }
    }

    /// Takes the machine out, after a last turn for which it waits as a call does.
    pub fn close(self, rt: &impl Wait, pass: Pass<M>) -> M
        requires { IsOf self pass }
        ensures opening { M.opening result ≡ M.opening self.opened }
        ensures history { BeginsWith (M.history result) (works pass.seen) }
        // Where each other pass was joined to it again, there is nothing else in the history.
        ensures whole { IsWhole pass → M.history result ≡ pass.ours }
    {
        let Desk { table } = self;
        let Pass { mut seat } = pass;
        let lock = &table.shared;
        let last = take_ticket(rt, lock, &mut seat);
        await_turn(rt, lock, &mut seat, last);
        let machine = take_machine(lock, &mut seat);
        lock.load::<Close>(&mut seat, SERVING);
        let mut closed = table.close_with(seat);
        let left = closed.take(0);
        let None = left else { unreachable!() };
        closed.free();
        machine
    }
}
