ghost use Rattle.std.specs.Prelude.{◌≡◌, ◌≤◌, ◌↔◌, ◌+◌, ◌-◌, ◌^◌, min, IsTrue};
ghost use Rattle.pocket_wire.specs.Fakes.{IsToFail};

use pocket_types::Failed;

/// The calls of what stands in memory for the world outside, of which some fail on demand.
#[derive(Drop)]
pub struct Calls {
    /// The numbers of those that fail, counted from 0.
    pub failing: Vec<u64>,
    /// How many there were.
    pub made: u64,
    /// How many failed.
    pub faults: u64,
}

impl Calls {
    /// Before the first call.
    pub fn new(failing: Vec<u64>) -> Calls
        ensures failing { result.failing ≡ failing }
        ensures made { result.made ≡ 0 }
        ensures faults { result.faults ≡ 0 }
    {
        Calls {
            failing,
            made: 0,
            faults: 0,
        }
    }

    /// Counts a call, and says whether it is to fail.
    pub(crate) fn begin(&mut self) -> bool
        ensures fails { IsTrue result ↔ IsToFail self.old }
        ensures made { self.new.made ≡ min (self.old.made + 1) (2 ^ 64 - 1) }
        ensures failing { self.new.failing ≡ self.old.failing }
        ensures faults { self.new.faults ≡ self.old.faults }
    {
        let call = self.made;
        self.made = self.made.saturating_add(1);
        self.failing.contains(&call)
    }

    /// Counts a fault.
    pub(crate) fn fail(&mut self) -> Failed
        ensures faults { self.new.faults ≡ min (self.old.faults + 1) (2 ^ 64 - 1) }
        ensures later { self.old.faults ≤ self.new.faults }
        ensures made { self.new.made ≡ self.old.made }
        ensures failing { self.new.failing ≡ self.old.failing }
    {
        self.faults = self.faults.saturating_add(1);
        Failed
    }
}
