ghost use Rattle.std.specs.Prelude.{◌≡◌, ℕ, [], List, Option, Some};
ghost use Rattle.pocket_types.specs.Causes.{StaysUntold};
ghost use Rattle.pocket_wire.specs.Outside.{AddsAnswer, told, counted_words};

/// What gives random words.
pub trait Dice {
    // its answers so far, where they are told
    ghost answers: { Self → Option (List ℕ) };

    /// The next word.
    fn word(&mut self) -> u64
        ensures adds { AddsAnswer (answers self.old) (answers self.new) result }
        ensures untold { StaysUntold (answers self.old) (answers self.new) };
}

/// Dice that count up from a start. They tell their answers for 2^64 - 2 calls.
#[derive(Clone, Copy, Debug)]
pub struct CountingDice {
    pub start: u64,
    /// How often they were asked.
    pub calls: u64,
}

impl CountingDice {
    /// Dice that were never asked.
    pub fn new(start: u64) -> CountingDice
        ensures start { result.start ≡ start }
        ensures answers { ⟦<CountingDice as Dice>⟧.answers result ≡ Some [] }
    {
        CountingDice { start, calls: 0 }
    }
}

impl Dice for CountingDice {
    ghost answers = { λ d. told d.calls (counted_words d.start d.calls) };

    fn word(&mut self) -> u64
        ensures adds { AddsAnswer (⟦<CountingDice as Dice>⟧.answers self.old) (⟦<CountingDice as Dice>⟧.answers self.new) result }
        ensures untold { StaysUntold (⟦<CountingDice as Dice>⟧.answers self.old) (⟦<CountingDice as Dice>⟧.answers self.new) }
        ensures start { self.new.start ≡ self.old.start }
    {
        let word = self.start.wrapping_add(self.calls);
        self.calls = self.calls.saturating_add(1);
        word
    }
}
