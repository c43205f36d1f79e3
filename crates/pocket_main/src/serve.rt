// A server on a port of 127.0.0.1.
ghost use Rattle.std.specs.Prelude.{◌≡◌, ℕ, All, IfOk, None, vec_len};
ghost use Rattle.pocket_main.specs.Outcomes.{IsServedBy};

use crate::keepers::{HostKeeper, open_keeper};
use crate::outcome::Outcome;
use pocket::{HostAcceptor, RunEnd, run_serve};
use pocket_serve::{Hand, NoGate};
use pocket_types::Text;
use pocket_wire::{HostClock, HostDice};
use std::alloc::AllocError;
use std::net::{Ipv4Addr, Net, TcpListener, TcpStream};
use std::sync::Wait;
use std::thread::Threads;

type HostHand = Hand<
    HostAcceptor<Option<TcpListener>>,
    HostClock<HostRuntime>,
    HostDice<HostRuntime>,
>;

/// Listens on the port, and says on standard error that it does or why it can't.
fn listen(
    rt: &impl Eprint,
    net: &impl Net<Listener = TcpListener, Stream = TcpStream>,
    port: u16,
) -> Option<TcpListener> {
    match TcpListener::bind(net, (Ipv4Addr::LOCALHOST, port)) {
        Ok(listener) => {
            let _ = eprintln!(rt; "pocket: listening on http://127.0.0.1:{port}");
            Some(listener)
        }
        Err(fault) => {
            let _ = eprintln!(rt; "pocket: can't listen on 127.0.0.1:{port}: {fault}");
            None
        }
    }
}

/// Another handle of the same port.
fn handle_of(listener: &Option<TcpListener>) -> Option<TcpListener>
    ensures { listener.now ≡ None → result ≡ None }
{
    listener.as_ref()?.try_clone().ok()
}

/// A hand over the port, which takes so many connections.
fn hand_over(rt: &HostRuntime, listener: &Option<TcpListener>, connections: u64) -> HostHand
    ensures left { result.acceptor.left ≡ connections }
    ensures port { listener.now ≡ None → result.acceptor.listener ≡ None }
{
    Hand {
        acceptor: HostAcceptor {
            listener: handle_of(listener),
            left: connections,
            faults: 0,
        },
        clock: HostClock::new(*rt),
        dice: HostDice::new(*rt),
    }
}

/// A hand for each worker, all over one port, each of which takes so many connections.
fn hands_over(
    rt: &HostRuntime,
    listener: &Option<TcpListener>,
    workers: u32,
    connections: u64,
) -> Result<Vec<HostHand>, AllocError>
    ensures workers { IfOk result (λ hands. vec_len hands ≡ workers) }
    ensures connections { IfOk result (λ hands. All (λ hand. hand.acceptor.left ≡ connections) hands.items) }
    ensures port { listener.now ≡ None → IfOk result (λ hands. All (λ hand. hand.acceptor.listener ≡ None) hands.items) }
{
    let mut hands = Vec::new(rt.alloc());
    for _ in 0..workers {
        hands.push(hand_over(rt, listener, connections))?;
    }
    Ok(hands)
}

/// Listens on the port, with a hand for each worker, each of which takes so many connections.
fn hands_on(
    rt: &HostRuntime,
    net: &impl Net<Listener = TcpListener, Stream = TcpStream>,
    port: u16,
    workers: u32,
    connections: u64,
) -> Result<Vec<HostHand>, AllocError>
    ensures workers { IfOk result (λ hands. vec_len hands ≡ workers) }
    ensures connections { IfOk result (λ hands. All (λ hand. hand.acceptor.left ≡ connections) hands.items) }
{
    let listener = listen(rt, net, port);
    hands_over(rt, &listener, workers, connections)
}

/// Serves with these hands over a keeper.
fn run_over<H: Threads + Wait + Sync>(
    rt: &HostRuntime,
    handle: &H,
    words: &[String],
    hands: Vec<HostHand>,
    keeper: HostKeeper,
) -> Outcome
    ensures { (connections : ℕ) → All (λ hand. hand.acceptor.left ≡ connections) hands.items
        → IsServedBy (vec_len hands) connections result }
{
    let (status, closed) = run_serve(handle, rt.alloc(), words, hands, keeper, &NoGate);
    Outcome::Served(status, closed.journal.len())
}

/// Runs `serve` with these words, over a file or over memory. The second handle is the same runtime, as what starts
/// threads and listens.
pub fn run<H: Threads + Wait + Sync + Net<Listener = TcpListener, Stream = TcpStream>>(
    rt: &HostRuntime,
    handle: &H,
    words: &[String],
    port: u16,
    workers: u32,
    connections: u64,
    store: Option<Text>,
) -> Outcome
    ensures { IsServedBy workers connections result }
{
    let Ok(hands) = hands_on(rt, handle, port, workers, connections) else {
        return Outcome::Ended(RunEnd::Memory);
    };
    match open_keeper(rt, store, false) {
        Ok(keeper) => run_over(rt, handle, words, hands, keeper),
        Err(ended) => Outcome::Ended(ended),
    }
}
