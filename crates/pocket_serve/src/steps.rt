ghost use Rattle.std.specs.Prelude.{◌≡◌, ◌≤◌, ◌<◌, ◌∷◌, [], List, length, true};
ghost use Rattle.pocket_wire.specs.Phrases.{IsReplyStatus};
ghost use Rattle.pocket_api.specs.Replies.{no_memory_bytes, reply_bytes};
ghost use Rattle.pocket_api.specs.declared.work.Draw.{Draw};
ghost use Rattle.pocket_desk.specs.History.{BeginsWith};
ghost use Rattle.pocket_serve.specs.Drawing.{AreDrawn};
ghost use Rattle.pocket_serve.specs.Sending.{IsSent, TakesSome, is_last};
ghost use Rattle.pocket_serve.specs.Serving.{GoesOn, IsRefusal, IsServed};
ghost use Rattle.pocket_serve.specs.Sessions.{IsExchange};

use crate::service::Service;
use pocket_api::{Draw, Reply, fixed_bytes, no_memory_reply, reply_bytes, work_of};
use pocket_wire::{Clock, Dice, Ended, Request, Sink, refused_reply, write_all};
use std::alloc::Global;

/// The most requests of a connection.
pub(crate) const REQUESTS: u64 = 1_000;

/// Ends the session for want of memory with the fixed reply, which takes none.
pub(crate) fn close_without_memory<O: Sink>(sink: &mut O) -> Ended
    ensures ended { result ≡ Ended.Memory }
    ensures sent { TakesSome (O.taken sink.old) (O.taken sink.new) (O.faults sink.old) (O.faults sink.new) (no_memory_bytes true) }
    ensures count { O.faults sink.old ≤ O.faults sink.new }
    ensures apart { O.untouched sink.new ≡ O.untouched sink.old }
{
    let _sent = write_all(sink, no_memory_reply(true));
    Ended::Memory
}

/// Sends bytes. An end comes only for the sink.
fn send<O: Sink>(sink: &mut O, bytes: &[u8]) -> Option<Ended>
    ensures sent { IsSent (O.taken sink.old) (O.taken sink.new) (O.faults sink.old) (O.faults sink.new) bytes.now result }
    ensures count { O.faults sink.old ≤ O.faults sink.new }
    ensures apart { O.untouched sink.new ≡ O.untouched sink.old }
{
    match write_all(sink, bytes) {
        Ok(()) => None,
        Err(_) => Some(Ended::SinkFault),
    }
}

/// Sends a reply. An end comes only for the sink or for want of memory.
fn send_reply<O: Sink>(alloc: Global, sink: &mut O, reply: &Reply, close: bool) -> Option<Ended>
    ensures sent { IsSent (O.taken sink.old) (O.taken sink.new) (O.faults sink.old) (O.faults sink.new) (reply_bytes reply.now close) result }
    ensures count { O.faults sink.old ≤ O.faults sink.new }
    ensures apart { O.untouched sink.new ≡ O.untouched sink.old }
{
    if let Some(bytes) = fixed_bytes(reply, close) {
        return send(sink, bytes);
    }
    match reply_bytes(alloc, reply, close) {
        Ok(bytes) => send(sink, bytes.as_slice()),
        Err(_) => Some(close_without_memory(sink)),
    }
}

fn is_last_request(number: u64, request: &Request) -> bool
    requires { number < 1000 }
    ensures { result ≡ is_last number request.now }
{
    request.close || number + 1 == REQUESTS
}

/// Sends the reply to a request. An end comes where the request asks for it, for the sink, or for want of memory.
fn conclude<O: Sink>(
    alloc: Global,
    request: &Request,
    number: u64,
    reply: &Reply,
    sink: &mut O,
) -> Option<Ended>
    requires { number < 1000 }
    ensures sent { GoesOn (O.taken sink.old) (O.taken sink.new) (O.faults sink.old) (O.faults sink.new) request.now.close
        (reply_bytes reply.now (is_last number request.now)) result }
    ensures count { O.faults sink.old ≤ O.faults sink.new }
    ensures apart { O.untouched sink.new ≡ O.untouched sink.old }
{
    let sent = send_reply(alloc, sink, reply, is_last_request(number, request));
    if request.close && sent.is_none() {
        return Some(Ended::Closed);
    }
    sent
}

/// Answers bytes that aren't a request.
pub(crate) fn refuse<O: Sink>(alloc: Global, sink: &mut O, status: u16) -> Ended
    requires { IsReplyStatus status }
    ensures sent { IsRefusal (O.taken sink.old) (O.taken sink.new) (O.faults sink.old) (O.faults sink.new) status result }
    ensures count { O.faults sink.old ≤ O.faults sink.new }
    ensures apart { O.untouched sink.new ≡ O.untouched sink.old }
{
    let Ok(bytes) = refused_reply(alloc, status) else {
        return close_without_memory(sink);
    };
    match write_all(sink, bytes.as_slice()) {
        Ok(()) => Ended::Refused(status),
        Err(_) => Ended::SinkFault,
    }
}

/// One moment and two words.
fn draw_next<C: Clock, D: Dice>(clock: &mut C, dice: &mut D) -> Draw
    ensures { AreDrawn (C.answers clock.old) (C.answers clock.new) (D.answers dice.old) (D.answers dice.new) (result ∷ []) }
{
    let moment = clock.now();
    let first = dice.word();
    let second = dice.word();
    Draw {
        moment,
        words: [first, second],
    }
}

/// Answers a request, which so many came before on its connection. An end comes where the request asks for it, for the sink, or for
/// want of memory.
pub(crate) fn answer_request<V: Service, O: Sink, C: Clock, D: Dice>(
    alloc: Global,
    request: &Request,
    number: u64,
    service: V,
    lent: &mut V::Lent,
    sink: &mut O,
    clock: &mut C,
    dice: &mut D,
) -> (V, Option<Ended>)
    requires few { number < 1000 }
    requires ready { V.is_ready service lent.old }
    ensures ready { V.is_ready result.0 lent.new }
    ensures opening { V.opening result.0 ≡ V.opening service }
    ensures grows { BeginsWith (V.seen result.0) (V.seen service) }
    ensures served { (draw : Draw) × AreDrawn (C.answers clock.old) (C.answers clock.new) (D.answers dice.old) (D.answers dice.new) (draw ∷ [])
        × IsServed (λ call text. IsExchange (V.fits (V.opening service)) (V.enters (V.opening service)) V.follows (V.seen result.0)
        number (length (V.seen service)) request.now call text (length (V.seen result.0)))
        (λ calls. V.came_by service lent.old calls result.0 lent.new)
        (V.seen service) (V.seen result.0) (O.taken sink.old) (O.taken sink.new) (O.faults sink.old) (O.faults sink.new)
        request.now.close draw result.1 }
    ensures count { O.faults sink.old ≤ O.faults sink.new }
    ensures apart { O.untouched sink.new ≡ O.untouched sink.old }
{
    let draw = draw_next(clock, dice);
    let Ok(work) = work_of(alloc, request, draw) else {
        return (service, Some(close_without_memory(sink)));
    };
    let (service, reply) = service.call(lent, alloc, number, work);
    let Some(reply) = reply else {
        return (service, Some(close_without_memory(sink)));
    };
    let ended = conclude(alloc, request, number, &reply, sink);
    (service, ended)
}
