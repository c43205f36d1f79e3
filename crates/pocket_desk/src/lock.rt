// The lock's words, its rule, and what each step tells the seat that steps. The types are for the proofs
// alone.
use crate::machine::Machine;
use crate::view::{Call, View};
use atomic_table::{Join, Play, Seat, Shared, Split, TableRule};
use std::marker::{Brand, PhantomData};
use std::snapshot::Snapshot;

/// The word that has the next ticket to be taken.
pub const TICKET: usize = 0;

/// The word that has the ticket whose turn it is.
pub const SERVING: usize = 1;

/// The word that has the number of entries of the history.
pub const LENGTH: usize = 2;

pub struct LockRule<M> {
    machine: PhantomData<M>,
}

impl<M: Machine> TableRule<Option<M>, View<M, M::Work, M::Reply>, Snapshot<M>> for LockRule<M> {
    ghost use Rattle.pocket_desk.specs.Lock.{LockHolds};
    ghost use Rattle.pocket_desk.specs.View.{first_view};

    ghost holds = { λ key. LockHolds M.opening M.history key.value };

    ghost first = { λ key. first_view key.value };
}

/// The lock as every thread shares it. Its one slot is the machine's.
pub type Lock<M> = Shared<
    Option<M>,
    View<M, <M as Machine>::Work, <M as Machine>::Reply>,
    Snapshot<M>,
    LockRule<M>,
>;

/// One thread's place at the lock.
pub type LockSeat<M> = Seat<Option<M>, View<M, <M as Machine>::Work, <M as Machine>::Reply>>;

/// What a step puts into its seat's view. A call at `Brand` picks it.
pub trait Said<X> {
    ghost use Rattle.std.specs.Prelude.{Option};

    ghost said: { Option X };
}

impl<X> Said<X> for Brand {
    ghost use Rattle.std.specs.Prelude.{None};

    ghost said = { None };
}

/// A try to take a ticket.
pub struct TakeTicket;

impl<M, W, R> Play<Option<M>, View<M, W, R>> for TakeTicket {
    ghost use Rattle.pocket_desk.specs.Steps.{TakesTicket};

    ghost then = { TakesTicket };
}

/// A look at `serving` by a seat with a ticket. At its turn it takes the machine's slot.
pub struct LookAtServing<M> {
    machine: PhantomData<M>,
}

impl<M: Machine> Play<Option<M>, View<M, M::Work, M::Reply>> for LookAtServing<M> {
    ghost use Rattle.pocket_desk.specs.Steps.{LooksAtServing};

    ghost then = { LooksAtServing M.opening M.history };
}

/// The add to `length`, which fixes an entry of the history.
pub struct AddToLength<A> {
    said: PhantomData<A>,
}

impl<M, W, R, A: Said<W>> Play<Option<M>, View<M, W, R>> for AddToLength<A> {
    ghost use Rattle.pocket_desk.specs.Steps.{AddsToLength};

    ghost then = { AddsToLength A.said };
}

/// The add to `serving`, which puts the machine's slot home and ends the turn.
pub struct AddToServing<A> {
    said: PhantomData<A>,
}

impl<M, W, R, A: Said<Call<W, R>>> Play<Option<M>, View<M, W, R>> for AddToServing<A> {
    ghost use Rattle.pocket_desk.specs.Steps.{AddsToServing};

    ghost then = { AddsToServing A.said };
}

/// The last step of a lock: the slot goes home with no machine, and the turn is not given on.
pub struct Close;

impl<M, W, R> Play<Option<M>, View<M, W, R>> for Close {
    ghost use Rattle.pocket_desk.specs.Steps.{Closes};

    ghost then = { Closes };
}

/// A look by a seat that was joined with another, which merges what both have seen.
pub struct Merge;

impl<M, W, R> Play<Option<M>, View<M, W, R>> for Merge {
    ghost use Rattle.pocket_desk.specs.Steps.{Merges};

    ghost then = { Merges };
}

/// How a seat's view is cut in two, and how two views become one.
pub struct Halves;

impl<M, W, R> Split<View<M, W, R>> for Halves {
    ghost use Rattle.pocket_desk.specs.View.{left_view, right_view};

    ghost left = { left_view };

    ghost right = { right_view };
}

impl<M, W, R> Join<View<M, W, R>> for Halves {
    ghost use Rattle.pocket_desk.specs.View.{joined_view, spent_view};

    ghost both = { joined_view };

    ghost spent = { spent_view };
}
