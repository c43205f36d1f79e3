ghost use Rattle.std.specs.Prelude.{◌≡◌, [], List, Option, Some, replicate};
ghost use Rattle.pocket_types.specs.Causes.{StaysUntold};
ghost use Rattle.pocket_types.specs.declared.moments.Moment.{Moment};
ghost use Rattle.pocket_wire.specs.Outside.{AddsAnswer, told};

use pocket_types::Moment;

/// What tells the time.
pub trait Clock {
    // its answers so far, where they are told
    ghost answers: { Self → Option (List Moment) };

    /// The moment of this call.
    fn now(&mut self) -> Moment
        ensures adds { AddsAnswer (answers self.old) (answers self.new) result }
        ensures untold { StaysUntold (answers self.old) (answers self.new) };
}

/// A clock that stands still. It tells its answers for 2^64 - 2 calls.
#[derive(Clone, Copy, Debug)]
pub struct FixedClock {
    pub moment: Moment,
    /// How often it was asked.
    pub calls: u64,
}

impl FixedClock {
    /// A clock that was never asked.
    pub fn new(moment: Moment) -> FixedClock
        ensures moment { result.moment ≡ moment }
        ensures answers { ⟦<FixedClock as Clock>⟧.answers result ≡ Some [] }
    {
        FixedClock { moment, calls: 0 }
    }
}

impl Clock for FixedClock {
    ghost answers = { λ c. told c.calls (replicate c.calls c.moment) };

    fn now(&mut self) -> Moment
        ensures adds { AddsAnswer (⟦<FixedClock as Clock>⟧.answers self.old) (⟦<FixedClock as Clock>⟧.answers self.new) result }
        ensures untold { StaysUntold (⟦<FixedClock as Clock>⟧.answers self.old) (⟦<FixedClock as Clock>⟧.answers self.new) }
        ensures moment { self.new.moment ≡ self.old.moment }
    {
        self.calls = self.calls.saturating_add(1);
        self.moment
    }
}
