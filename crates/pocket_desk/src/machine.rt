// The trait of what is served.
ghost use Rattle.std.specs.Prelude.{◌≡◌, ℕ, ◌≤◌, Bool, List, length};
ghost use Rattle.pocket_desk.specs.Machine.{has_risen, AddsWhere};

/// What a desk serves. Its history is the list of the works that it entered.
pub trait Machine {
    type Work;

    type Reply;

    // What it began with.
    ghost Opening: { Type 0 };

    ghost opening: { Self → Opening };

    ghost history: { Self → List Self.Work };

    // How often something outside failed, as far as it counts that.
    ghost faults: { Self → ℕ };

    // A reply fits an opening, the history before, a work, and whether the count of faults rose in the
    // call.
    ghost fits: { Opening → List Self.Work → Self.Work → Self.Reply → Bool → Type 0 };

    // With this reply the work is entered into the history.
    ghost enters: { Opening → List Self.Work → Self.Work → Self.Reply → Type 0 };

    /// Answers a work, and adds it at the end of the history or not at all.
    fn serve(&mut self, work: Self::Work) -> Self::Reply
        ensures fits { fits (opening self.old) (history self.old) work result
            (has_risen (faults self.old) (faults self.new)) }
        ensures adds { AddsWhere (enters (opening self.old) (history self.old) work result)
            (history self.old) work (history self.new) }
        ensures opening { opening self.new ≡ opening self.old }
        ensures faults { faults self.old ≤ faults self.new };

    /// How many works the history has.
    fn length(&self) -> u64
        ensures { result ≡ length (history self.now) };
}
