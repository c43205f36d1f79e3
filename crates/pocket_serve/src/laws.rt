// What follows from the definition of a session. Each law is a function without a body.
ghost use Rattle.pocket_serve.specs.Laws.{HandsExtend, OwnPositionsRise, OwnSessionsAreShared, SessionsExtend};
ghost use Rattle.pocket_serve.specs.Owners.{Shared, SharedFits};

use crate::service::Service;
use pocket_api::{Reply, Work};
use pocket_desk::Machine;

/// A session of a service over a history is one over every longer history.
pub fn sessions_extend<V: Service>()
    ensures { (opening : V.Opening) → SessionsExtend (V.fits opening) (V.enters opening) V.follows }
{}

/// A session of a service with one owner is one among many callers.
pub fn own_sessions_are_shared<V: Service>()
    ensures { (opening : V.Opening) → OwnSessionsAreShared (V.fits opening) (V.enters opening) }
{}

/// The positions of the calls of one owner rise by one at each call that enters its work, and not else; so from the first position
/// on the history holds exactly the works that were entered, in the order of the calls.
pub fn own_positions_rise<V: Service>()
    ensures { (opening : V.Opening) → OwnPositionsRise (V.fits opening) (V.enters opening) }
{}

/// The sessions of a worker at a desk over a history are such over every longer history.
pub fn hands_extend<M: Machine<Work = Work, Reply = Reply>>()
    ensures { (opening : M.Opening) → HandsExtend (SharedFits (M.fits opening)) (M.enters opening) Shared }
{}
