//! What follows from the definition of a session. Each law is a function without a body of its own.
ghost use Rattle.pocket_serve.specs.Laws.{OwnPositionsRise, OwnSessionsAreShared, SessionsExtend};
ghost use Rattle.pocket_serve.specs.Owners.{Alone};
ghost use Rattle.pocket_states.specs.States.{MachineState};
ghost use Rattle.pocket.specs.Calls.{StateEnters, StateFits};

use crate::service::StateService;
use pocket_keeper::Committer;
use pocket_serve::laws;
use std::sync::ledger::Ledger;

/// A session over a history is one over every longer history: what was answered stays the right answer, whatever is accepted later.
pub fn sessions_extend<K: Committer, L: Ledger>()
    ensures { (opening : MachineState) → SessionsExtend (StateFits opening) (StateEnters opening) Alone }
{
    laws::sessions_extend::<StateService<K, L>>();
}

/// A session that a state answers alone is one among many callers.
pub fn own_sessions_are_shared<K: Committer, L: Ledger>()
    ensures { (opening : MachineState) → OwnSessionsAreShared (StateFits opening) (StateEnters opening) }
{
    laws::own_sessions_are_shared::<StateService<K, L>>();
}

/// In a session that a state answers alone, the positions rise by one at each call that enters its work and not else, and the history
/// holds just the entered works in the order of the calls.
pub fn own_positions_rise<K: Committer, L: Ledger>()
    ensures { (opening : MachineState) → OwnPositionsRise (StateFits opening) (StateEnters opening) }
{
    laws::own_positions_rise::<StateService<K, L>>();
}
