ghost use Rattle.std.specs.Prelude.{◌≡◌, ℕ, List, [], ◌∷◌, ◌++◌, length, IfNone, IfSome};
ghost use Rattle.pocket_api.specs.declared.reply.Reply.{Reply};
ghost use Rattle.pocket_api.specs.declared.work.Work.{Work};
ghost use Rattle.pocket_desk.specs.History.{BeginsWith};
ghost use Rattle.pocket_desk.specs.declared.view.Call.{Call};
ghost use Rattle.pocket_serve.specs.Sessions.{IsCallFrom};

use pocket_api::{Reply, Work};
use std::alloc::Global;

/// What answers the works of a connection, one call after the other.
pub trait Service {
    /// What is lent to it for each call, as a keeper.
    type Lent;

    // what its machine began with
    ghost Opening: { Type 0 };

    ghost opening: { Self → Opening };

    // the accepted works that are known of
    ghost seen: { Self → List Work };

    // a reply fits an opening, the history before, and a work
    ghost fits: { Opening → List Work → Work → Reply → Type 0 };

    // with this reply the work is entered into the history
    ghost enters: { Opening → List Work → Work → Reply → Type 0 };

    // where a call may stand, after so many works were seen
    ghost follows: { ℕ → ℕ → Type 0 };

    // it may be called with what is lent so
    ghost is_ready: { Self → Self.Lent → Type 0 };

    // the one and what was lent to it came to be the others by these calls
    ghost came_by: { Self → Self.Lent → List (Call Work Reply) → Self → Self.Lent → Type 0 };

    ghost came_by_none: { (one : Self) (lent : Self.Lent) → came_by one lent [] one lent };

    ghost came_by_more: { (one two three : Self) (lent_one lent_two lent_three : Self.Lent) (calls more : List (Call Work Reply))
        → came_by one lent_one calls two lent_two → came_by two lent_two more three lent_three
        → came_by one lent_one (calls ++ more) three lent_three };

    /// Has the machine serve the work of a request, which so many came before on its connection. No reply: there was no memory, and
    /// nothing was called.
    fn call(
        self,
        lent: &mut Self::Lent,
        alloc: Global,
        number: u64,
        work: Work,
    ) -> (Self, Option<Reply>)
    where
        Self: Sized,
        requires ready { is_ready self lent.old }
        ensures ready { is_ready result.0 lent.new }
        ensures opening { opening result.0 ≡ opening self }
        ensures grows { BeginsWith (seen result.0) (seen self) }
        ensures none { IfNone result.1 (came_by self lent.old [] result.0 lent.new × (seen result.0 ≡ seen self)) }
        ensures some { IfSome result.1 (λ reply. (call : Call Work Reply) × (call.work ≡ work) × (call.reply ≡ reply)
            × IsCallFrom (fits (opening self)) (enters (opening self)) follows (seen result.0) (length (seen self)) call (length (seen result.0))
            × came_by self lent.old (call ∷ []) result.0 lent.new) };
}
