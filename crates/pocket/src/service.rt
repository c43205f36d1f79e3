ghost use Rattle.std.specs.Prelude.{◌≡◌, ◌++◌, ◌∷◌, [], OnErr, OnOk};

use crate::status::Turn;
use pocket_api::{Draw, Reply, Work};
use pocket_core::State;
use pocket_keeper::Committer;
use pocket_serve::Service;
use pocket_types::{Seq, Steps};
use std::alloc::{AllocError, Global};
use std::marker::PhantomData;
use std::sync::ledger::Ledger;

/// A state that answers the requests of a connection alone, over a keeper that is lent to it. It notes the turns.
#[derive(Drop)]
pub(crate) struct StateService<K, L: Ledger> {
    pub(crate) state: State,
    pub(crate) turns: Seq<Turn>,
    pub(crate) steps: Steps<L>,
    pub(crate) keeper: PhantomData<K>,
}

/// Notes the turn of a work.
fn note_turn(turns: &mut Seq<Turn>, at: u64, draw: Draw) -> Result<(), AllocError>
    ensures ok { OnOk result (turns.new ≡ turns.old ++ record { at = at; draw = draw } ∷ []) }
    ensures err { OnErr result (turns.new ≡ turns.old) }
{
    turns.push(Turn { at, draw })
}

impl<K: Committer, L: Ledger> Service for StateService<K, L> {
    ghost use Rattle.std.specs.Prelude.{◌≡◌, ◌++◌, refl};
    ghost use Rattle.pocket_types.specs.Causes.{StaysUntold};
    ghost use Rattle.pocket_serve.specs.Growing.{notes_more, notes_none};
    ghost use Rattle.pocket_serve.specs.Owners.{Alone};
    ghost use Rattle.pocket_core.specs.Answers.{after};
    ghost use Rattle.pocket_core.specs.Opening.{AreRowsOf};
    ghost use Rattle.pocket_states.specs.States.{MachineState};
    ghost use Rattle.pocket.specs.Calls.{CountsOver, StateEnters, StateFits, turn_of, turns_of};
    ghost use Rattle.pocket.specs.Keeping.{counts_more, untold_more, untold_none};

    type Lent = K;

    ghost Opening = { MachineState };

    ghost opening = { λ s. s.state.opening };

    ghost seen = { λ s. s.state.journal };

    ghost fits = { StateFits };

    ghost enters = { StateEnters };

    ghost follows = { Alone };

    ghost is_ready = { λ s keeper. AreRowsOf (K.rows keeper) (after s.state.opening s.state.journal) };

    // the turns are those of the calls, what the keeper didn't tell it doesn't tell now, and its faults are counted
    ghost came_by = { λ one lent calls two lent_now. (two.turns ≡ one.turns ++ turns_of calls)
        × StaysUntold (K.rows lent) (K.rows lent_now) × CountsOver calls (K.faults lent) (K.faults lent_now) };

    ghost came_by_none = { λ one lent. (notes_none turn_of one.turns, untold_none (K.rows lent), refl) };

    ghost came_by_more = { λ one two three lent_one lent_two lent_three calls more first second. (
      notes_more turn_of one.turns two.turns three.turns calls more first.0 second.0,
      untold_more (K.rows lent_one) (K.rows lent_two) (K.rows lent_three) first.1 second.1,
      counts_more calls more (K.faults lent_one) (K.faults lent_two) (K.faults lent_three) first.2 second.2,
    ) };

    fn call(
        mut self,
        lent: &mut K,
        alloc: Global,
        _number: u64,
        work: Work,
    ) -> (Self, Option<Reply>) {
        let at = self.state.journal().len() as u64;
        let Ok(()) = note_turn(&mut self.turns, at, work.draw) else {
            return (self, None);
        };
        let reply = self.state.call(alloc, lent, work, &mut self.steps);
        (self, Some(reply))
    }
}
