/// What is told of each call on a desk before it is made, as for tests that hold a call up.
pub trait Gate {
    /// A worker is about to make the call of a request, of those of its connection the one with this number, counted from 0.
    fn before(&self, worker: u64, request: u64);
}

/// A gate that holds nothing up.
#[derive(Clone, Copy, Debug)]
pub struct NoGate;

impl Gate for NoGate {
    fn before(&self, _worker: u64, _request: u64) {}
}
