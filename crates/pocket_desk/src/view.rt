// What a seat at the lock knows. No value of these types is ever made: only proofs read them.
use std::collections::LinkedList;

/// A work of the history, and the number of the pass that it came by.
pub struct Entry<W> {
    pub pass: u64,
    pub work: W,
}

/// A call that was answered: its position in the history, its work and its reply.
pub struct Call<W, R> {
    pub position: u64,
    pub work: W,
    pub reply: R,
}

/// A number, and every `stride`th one after it.
pub struct Numbers {
    pub first: u64,
    pub stride: u64,
}

/// Where a seat stands in the queue.
pub enum Stage {
    Idle,
    /// It has this ticket.
    Waiting(u64),
    /// It has this ticket, whose turn it is, and the machine's slot.
    Serving(u64),
    /// It has this ticket, whose turn it is, and put the slot home empty.
    Closing(u64),
    /// It was joined to another seat.
    Joined,
}

/// What a join brought and is still to be merged: the other's number, all numbers that it held, what it had
/// seen, and its works.
pub enum Pending<W> {
    Nothing,
    Other(u64, LinkedList<Numbers>, LinkedList<Entry<W>>, LinkedList<W>),
}

/// What a seat knows.
pub struct View<M, W, R> {
    /// The machine as it was when the desk was opened; none once the seat was joined to another.
    pub opened: Option<M>,
    pub stage: Stage,
    pub number: u64,
    /// The numbers that are its own to give away are its number and every `stride`th one after it.
    pub stride: u64,
    /// The numbers of the seats that were joined to it.
    pub joined: LinkedList<Numbers>,
    pub seen: LinkedList<Entry<W>>,
    pub mine: LinkedList<W>,
    pub calls: LinkedList<Call<W, R>>,
    pub pending: Pending<W>,
}
