// What gives connections.
ghost use Rattle.std.specs.Prelude.{◌≡◌, ◌<◌, ◌^◌, IfOk, IsSome};
ghost use Rattle.pocket_types.specs.Causes.{HasCause};
ghost use Rattle.pocket_serve.specs.Accepting.{AcceptorView, IsAccepted, finished_link, with_finished};

use pocket_types::Failed;
use pocket_wire::{Ended, Link};

/// What gives connections one after the other, and takes them back when they ended.
pub trait Acceptor {
    type Link: Link;

    // how many links are left, the inputs of those and the finished links where these are told, and how often it failed
    ghost told: { Self → AcceptorView };

    // it has a place for one more finished link, beside those that the links that are left will take
    ghost has_place: { Self → Type 0 };

    ghost few: { (acceptor : Self) → (told acceptor).waiting < 2 ^ 64 };

    /// The next link, which has taken nothing and has no faults. None exactly where no link is left.
    fn accept(&mut self) -> Result<Option<Self::Link>, Failed>
        ensures accepts { IsAccepted Self.Link.left Self.Link.taken Self.Link.Source.faults Self.Link.Sink.faults (told self.old) (told self.new) result }
        ensures place { IfOk result (λ link. IsSome link → has_place self.new) }
        ensures cause { HasCause (told self.old).faults (told self.new).faults result };

    /// Takes a link back that ended so. It takes no memory.
    fn finish(&mut self, link: Self::Link, ended: Ended)
        requires place { has_place self.old }
        ensures { told self.new ≡ with_finished (told self.old)
            (finished_link Self.Link.left Self.Link.taken Self.Link.Source.faults Self.Link.Sink.faults link ended) };
}
