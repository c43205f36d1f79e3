ghost use Rattle.std.specs.Prelude.{◌≡◌, ◌⊎◌, ◌≤◌, ◌<◌, ◌++◌, ℕ, List, length, IsErrOf};
ghost use Rattle.std.specs.Io.KnownBytes.{Consumes, IsAtEnd};
ghost use Rattle.pocket_types.specs.Causes.{Rose};
ghost use Rattle.pocket_wire.specs.Reading.{HasReplyStatus, IsRead};
ghost use Rattle.pocket_api.specs.declared.reply.Reply.{Reply};
ghost use Rattle.pocket_api.specs.declared.work.Work.{Work};
ghost use Rattle.pocket_desk.specs.History.{BeginsWith};
ghost use Rattle.pocket_desk.specs.declared.view.Call.{Call};
ghost use Rattle.pocket_serve.specs.Drawing.{IsDrawn, draws_of};
ghost use Rattle.pocket_serve.specs.Sending.{Takes};
ghost use Rattle.pocket_serve.specs.Serving.{IsAnswered};
ghost use Rattle.pocket_serve.specs.Sessions.{IsExchange, IsSession};

use crate::service::Service;
use crate::steps::{REQUESTS, answer_request, close_without_memory, refuse};
use pocket_wire::{
    Clock, Dice, Ended, Ends, Inbox, Link, Next, Sink, Source, WireFault, next_request,
};
use std::alloc::Global;

/// Answers what comes next on a connection, where so many requests came before. None: the session goes on.
fn answer_next<V: Service, O: Sink, C: Clock, D: Dice>(
    alloc: Global,
    next: Result<Next, WireFault>,
    number: u64,
    service: V,
    lent: &mut V::Lent,
    sink: &mut O,
    clock: &mut C,
    dice: &mut D,
) -> (V, Option<Ended>)
    requires few { number < 1000 }
    requires status { HasReplyStatus next }
    requires ready { V.is_ready service lent.old }
    ensures ready { V.is_ready result.0 lent.new }
    ensures opening { V.opening result.0 ≡ V.opening service }
    ensures grows { BeginsWith (V.seen result.0) (V.seen service) }
    ensures answered { IsAnswered (λ request call text. IsExchange (V.fits (V.opening service)) (V.enters (V.opening service)) V.follows (V.seen result.0)
        number (length (V.seen service)) request call text (length (V.seen result.0)))
        (λ calls. V.came_by service lent.old calls result.0 lent.new)
        (V.seen service) (V.seen result.0) (O.taken sink.old) (O.taken sink.new) (O.faults sink.old) (O.faults sink.new)
        (C.answers clock.old) (C.answers clock.new) (D.answers dice.old) (D.answers dice.new)
        next result.1 }
    ensures count { O.faults sink.old ≤ O.faults sink.new }
    ensures apart { O.untouched sink.new ≡ O.untouched sink.old }
{
    match next {
        Ok(Next::Request(request)) => {
            answer_request(alloc, &request, number, service, lent, sink, clock, dice)
        }
        Ok(Next::End) => (service, Some(Ended::Done)),
        Ok(Next::Truncated) => (service, Some(Ended::Truncated)),
        Ok(Next::Refused(status)) => (service, Some(refuse(alloc, sink, status))),
        Err(WireFault::SourceFault) => (service, Some(Ended::SourceFault)),
        Err(WireFault::Memory) => (service, Some(close_without_memory(sink))),
    }
}

/// Answers the requests of a source on a sink, one after the other, and says how the session ended. It returns where the service's
/// calls do.
pub fn run_session<V: Service, S: Source, O: Sink, C: Clock, D: Dice>(
    alloc: Global,
    service: V,
    lent: &mut V::Lent,
    source: &mut S,
    sink: &mut O,
    clock: &mut C,
    dice: &mut D,
) -> (V, Ended)
    requires ready { V.is_ready service lent.old }
    // The service came to be what it is by the calls of a session over the bytes that the source gave, and the sink took what the
    // session sent.
    ensures session { (calls : List (Call Work Reply)) × (bytes : List ℕ) × (said : List ℕ) × (last : List ℕ)
        × Consumes (S.left source.old) (S.left source.new) bytes
        × V.came_by service lent.old calls result.0 lent.new
        × IsSession (V.fits (V.opening service)) (V.enters (V.opening service)) V.follows (V.seen result.0) (length (V.seen service))
        calls bytes said last result.1 (length (V.seen result.0))
        × Takes (O.taken sink.old) (O.taken sink.new) (O.faults sink.old) (O.faults sink.new) said last result.1
        × IsDrawn (C.answers clock.old) (C.answers clock.new) (D.answers dice.old) (D.answers dice.new) (draws_of calls) result.1 }
    ensures source_fault { result.1 ≡ Ended.SourceFault → Rose (S.faults source.old) (S.faults source.new) }
    ensures at_end { (result.1 ≡ Ended.Done) ⊎ (result.1 ≡ Ended.Truncated) → IsAtEnd (S.left source.new) }

    // The service may go on, from the same opening, and knows of more.
    ensures ready { V.is_ready result.0 lent.new }
    ensures opening { V.opening result.0 ≡ V.opening service }
    ensures grows { BeginsWith (V.seen result.0) (V.seen service) }

    // No count of faults falls.
    ensures source_count { S.faults source.old ≤ S.faults source.new }
    ensures sink_count { O.faults sink.old ≤ O.faults sink.new }
{
    let mut ends = Ends { source, sink };
    run_link(alloc, service, lent, &mut ends, clock, dice)
}

/// The next request of a link, of which nothing is written.
fn next_of<N: Link>(alloc: Global, inbox: &mut Inbox, link: &mut N) -> Result<Next, WireFault>
    ensures next { (got : List ℕ) × Consumes (N.left link.old) (N.left link.new) got
        × IsRead (inbox.old.left ++ got) (N.left link.new) inbox.new.left result }
    ensures status { HasReplyStatus result }
    ensures fault { IsErrOf result WireFault.SourceFault → Rose (N.Source.faults link.old) (N.Source.faults link.new) }
    ensures count { N.Source.faults link.old ≤ N.Source.faults link.new }
    ensures apart { (N.taken link.new ≡ N.taken link.old) × (N.Sink.faults link.new ≡ N.Sink.faults link.old) × (N.place link.new ≡ N.place link.old) }
{
    next_request(alloc, inbox, link)
}

/// Answers what comes next on a link, of which nothing is read.
fn answer_on<V: Service, N: Link, C: Clock, D: Dice>(
    alloc: Global,
    next: Result<Next, WireFault>,
    number: u64,
    service: V,
    lent: &mut V::Lent,
    link: &mut N,
    clock: &mut C,
    dice: &mut D,
) -> (V, Option<Ended>)
    requires few { number < 1000 }
    requires status { HasReplyStatus next }
    requires ready { V.is_ready service lent.old }
    ensures ready { V.is_ready result.0 lent.new }
    ensures opening { V.opening result.0 ≡ V.opening service }
    ensures grows { BeginsWith (V.seen result.0) (V.seen service) }
    ensures answered { IsAnswered (λ request call text. IsExchange (V.fits (V.opening service)) (V.enters (V.opening service)) V.follows (V.seen result.0)
        number (length (V.seen service)) request call text (length (V.seen result.0)))
        (λ calls. V.came_by service lent.old calls result.0 lent.new)
        (V.seen service) (V.seen result.0) (N.taken link.old) (N.taken link.new) (N.Sink.faults link.old) (N.Sink.faults link.new)
        (C.answers clock.old) (C.answers clock.new) (D.answers dice.old) (D.answers dice.new)
        next result.1 }
    ensures count { N.Sink.faults link.old ≤ N.Sink.faults link.new }
    ensures apart { (N.left link.new ≡ N.left link.old) × (N.Source.faults link.new ≡ N.Source.faults link.old) × (N.place link.new ≡ N.place link.old) }
{
    answer_next(alloc, next, number, service, lent, link, clock, dice)
}

/// Answers the requests of a link, one after the other, and says how the session ended.
pub(crate) fn run_link<V: Service, N: Link, C: Clock, D: Dice>(
    alloc: Global,
    service: V,
    lent: &mut V::Lent,
    link: &mut N,
    clock: &mut C,
    dice: &mut D,
) -> (V, Ended)
    requires ready { V.is_ready service lent.old }
    ensures session { (calls : List (Call Work Reply)) × (bytes : List ℕ) × (said : List ℕ) × (last : List ℕ)
        × Consumes (N.left link.old) (N.left link.new) bytes
        × V.came_by service lent.old calls result.0 lent.new
        × IsSession (V.fits (V.opening service)) (V.enters (V.opening service)) V.follows (V.seen result.0) (length (V.seen service))
        calls bytes said last result.1 (length (V.seen result.0))
        × Takes (N.taken link.old) (N.taken link.new) (N.Sink.faults link.old) (N.Sink.faults link.new) said last result.1
        × IsDrawn (C.answers clock.old) (C.answers clock.new) (D.answers dice.old) (D.answers dice.new) (draws_of calls) result.1 }
    ensures source_fault { result.1 ≡ Ended.SourceFault → Rose (N.Source.faults link.old) (N.Source.faults link.new) }
    ensures at_end { (result.1 ≡ Ended.Done) ⊎ (result.1 ≡ Ended.Truncated) → IsAtEnd (N.left link.new) }
    ensures ready { V.is_ready result.0 lent.new }
    ensures opening { V.opening result.0 ≡ V.opening service }
    ensures grows { BeginsWith (V.seen result.0) (V.seen service) }
    ensures source_count { N.Source.faults link.old ≤ N.Source.faults link.new }
    ensures sink_count { N.Sink.faults link.old ≤ N.Sink.faults link.new }
    ensures place { N.place link.new ≡ N.place link.old }
{
    let mut service = service;
    let mut inbox = Inbox::new(alloc);
    'requests: for number in 0..REQUESTS {
        let next = next_of(alloc, &mut inbox, link);
        let (after, ended) = answer_on(alloc, next, number, service, lent, link, clock, dice);
        service = after;
        if let Some(ended) = ended {
            return (service, ended);
        }
    }
    (service, Ended::Limit)
}
