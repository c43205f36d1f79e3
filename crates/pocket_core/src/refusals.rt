// What is said to a caller who is refused.
ghost use Rattle.std.specs.Prelude.{Err, IfOk};
ghost use Rattle.pocket_api.specs.Refusals.{because};
ghost use Rattle.pocket_core.specs.Answers.{IsAnswer, answer_of};

use pocket_api::{Reply, Why};
use std::alloc::{AllocError, Global};

/// The reply that refuses a work for this cause.
pub(crate) fn refuse(alloc: Global, why: Why, at: u64) -> Result<Reply, AllocError>
    ensures { IfOk result (IsAnswer (answer_of at (Err (because why)))) }
{
    Reply::refused(alloc, why, at)
}
