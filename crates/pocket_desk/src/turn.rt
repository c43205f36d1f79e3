// One turn at the lock, step by step.
ghost use Rattle.std.specs.Prelude.{◌≡◌, ℕ, ◌+◌, ◌^◌, ◌<◌, [], length, Some, None, MatchBool};
ghost use Rattle.std.specs.Bool.{OnTrue};
ghost use Rattle.pocket_desk.specs.View.{entered, answered, call_of};
ghost use Rattle.pocket_desk.specs.Steps.{GetsTurn};
ghost use Rattle.pocket_desk.specs.Turn.{IsSeatOf, IsSameSeat, IsIdle, IsWaiting, HasTicketFrom, HoldsSlot, IsServing, HasTurn, IsServed};

use crate::lock::{
    AddToLength, AddToServing, LENGTH, Lock, LockSeat, LookAtServing, SERVING, Said, TICKET,
    TakeTicket,
};
use crate::machine::Machine;
use crate::view::Call;
use std::marker::Brand;
use std::snapshot::Snapshot;
use std::sync::Wait;
use std::thread;

// Takes a ticket. Once the last one was taken it waits for ever.
pub fn take_ticket<M: Machine, R: Wait>(rt: &R, lock: &Lock<M>, seat: &mut LockSeat<M>) -> u64
    requires seat { IsSeatOf lock.now.table_id seat.old }
    requires idle { IsIdle seat.old }
    ensures { HasTicketFrom seat.old result seat.new }
{
    for _ in rt.forever() {
        let next = lock.peek(TICKET);
        if next < u64::MAX {
            let found = lock.compare_exchange::<TakeTicket>(seat, TICKET, next, next + 1);
            if found == next {
                return next;
            }
        }
        thread::yield_now();
    }
    unreachable!()
}

// Waits for the turn of the seat's ticket.
pub fn await_turn<M: Machine, R: Wait>(rt: &R, lock: &Lock<M>, seat: &mut LockSeat<M>, ticket: u64)
    requires seat { IsSeatOf lock.now.table_id seat.old }
    requires waiting { IsWaiting ticket seat.old }
    ensures seat { IsSameSeat seat.old seat.new }
    ensures turn { GetsTurn M.opening M.history ticket seat.old.me seat.new.me }
{
    for _ in rt.forever() {
        if lock.load::<LookAtServing<M>>(seat, SERVING) == ticket {
            return;
        }
        thread::yield_now();
    }
    unreachable!()
}

// Takes the machine out of the slot.
pub fn take_machine<M: Machine>(lock: &Lock<M>, seat: &mut LockSeat<M>) -> M
    requires seat { IsSeatOf lock.now.table_id seat.old }
    requires slot { (machine : _) × HoldsSlot (Some machine) seat.old }
    ensures seat { IsSameSeat seat.old seat.new × (seat.new.me.0 ≡ seat.old.me.0) }
    ensures machine { HoldsSlot (Some result) seat.old }
    ensures slot { HoldsSlot None seat.new }
{
    lock.exchange(seat, 0, None).unwrap()
}

// Fixes the entry of the work, if the machine entered it.
fn add_entry<M: Machine, A: Said<M::Work>>(
    lock: &Lock<M>,
    seat: &mut LockSeat<M>,
    grew: bool,
    asked: &Snapshot<M::Work>,
)
    requires seat { IsSeatOf lock.now.table_id seat.old }
    requires turn { IsServing seat.old }
    requires said { A.said ≡ Some asked.now.value }
    requires room { OnTrue grew (length seat.old.me.0.seen + 1 < 2 ^ 64) }
    ensures seat { IsSameSeat seat.old seat.new }
    ensures view { MatchBool grew
        (seat.new.me ≡ (entered seat.old.me.0 asked.now.value, seat.old.me.1))
        (seat.new.me ≡ seat.old.me) }
{
    if grew {
        lock.fetch_add::<AddToLength<A>>(seat, LENGTH, 1);
    }
}

// Puts the machine back into the slot.
fn put_machine<M: Machine>(lock: &Lock<M>, seat: &mut LockSeat<M>, machine: M)
    requires seat { IsSeatOf lock.now.table_id seat.old }
    requires slot { HoldsSlot None seat.old }
    ensures seat { IsSameSeat seat.old seat.new × (seat.new.me.0 ≡ seat.old.me.0) }
    ensures slot { HoldsSlot (Some machine) seat.new }
{
    let left = lock.exchange(seat, 0, Some(machine));
    let None = left else { unreachable!() };
}

// Keeps the call, and gives the turn on with the slot, in which the machine is up to date.
fn end_turn<M: Machine, A: Said<Call<M::Work, M::Reply>>>(
    lock: &Lock<M>,
    seat: &mut LockSeat<M>,
    position: u64,
    asked: &Snapshot<M::Work>,
    reply: &M::Reply,
)
    requires seat { IsSeatOf lock.now.table_id seat.old }
    requires turn { HasTurn M.opening M.history lock.now.key.value seat.old }
    requires said { A.said ≡ Some (call_of position asked.now.value reply.now) }
    ensures seat { IsSameSeat seat.old seat.new }
    ensures view { seat.new.me ≡ (answered seat.old.me.0 (call_of position asked.now.value reply.now), []) }
{
    lock.fetch_add::<AddToServing<A>>(seat, SERVING, 1);
}

// Serves the work in the seat's turn, which then ends.
pub fn serve<M: Machine>(lock: &Lock<M>, seat: &mut LockSeat<M>, work: M::Work) -> M::Reply
    requires seat { IsSeatOf lock.now.table_id seat.old }
    requires turn { HasTurn M.opening M.history lock.now.key.value seat.old }
    ensures { IsServed (M.fits (M.opening lock.now.key.value)) (M.enters (M.opening lock.now.key.value))
        seat.old work seat.new result }
{
    let mut machine = take_machine(lock, seat);
    let asked = Snapshot::of(&work);
    let position = machine.length();
    let reply = machine.serve(work);
    let grew = machine.length() > position;
    add_entry::<M, Brand>(lock, seat, grew, &asked);
    put_machine(lock, seat, machine);
    end_turn::<M, Brand>(lock, seat, position, &asked, &reply);
    reply
}
