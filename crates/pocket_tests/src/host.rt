// A server on a port of this host.
use crate::served::{sample_keeper, words_of};
use pocket::{HostAcceptor, run_serve};
use pocket_serve::{Hand, NoGate};
use pocket_wire::{HostClock, HostDice};
use std::alloc::AllocError;
use std::io;
use std::io::{Read, Write};
use std::net::{Ipv4Addr, Net, TcpListener, TcpStream};
use std::sync::Wait;
use std::test::Fail;
use std::thread::Threads;

const VIEW: &str =
    "GET /api/collections/notes/records/note00000000001 HTTP/1.1\r\nConnection: close\r\n\r\n";

const REPLY: &str =
    "HTTP/1.1 200 OK\r\nContent-Type: application/json\r\nContent-Length: 138\r\nConnection: close\r\n\r\n{\"collectionName\":\"notes\",\"created\":\"2024-01-01 00:00:00.000Z\",\"id\":\"note00000000001\",\"text\":\"hello\",\"updated\":\"2024-01-01 00:00:00.000Z\"}";

type HostHand = Hand<
    HostAcceptor<Option<TcpListener>>,
    HostClock<HostRuntime>,
    HostDice<HostRuntime>,
>;

/// One worker, which takes one connection.
fn hands_over(rt: &HostRuntime, listener: TcpListener) -> Result<Vec<HostHand>, AllocError> {
    let mut hands = Vec::new(rt.alloc());
    hands.push(Hand {
        acceptor: HostAcceptor {
            listener: Some(listener),
            left: 1,
            faults: 0,
        },
        clock: HostClock::new(*rt),
        dice: HostDice::new(*rt),
    })?;
    Ok(hands)
}

/// What comes back from a port for the view. The second handle is the same runtime, as what starts threads and opens sockets.
fn reply_by_port<H: Threads + Wait + Sync + Net<Listener = TcpListener, Stream = TcpStream>>(
    rt: &HostRuntime,
    handle: &H,
) -> io::Result<Vec<u8>> {
    let listener = TcpListener::bind(handle, (Ipv4Addr::LOCALHOST, 0))?;
    let mut client = TcpStream::connect(handle, listener.local_addr()?)?;
    client.write_all(VIEW.as_bytes())?;
    let words = words_of(rt.alloc())?;
    let hands = hands_over(rt, listener)?;
    let keeper = sample_keeper(rt.alloc())?;
    let (status, closed) = run_serve(handle, rt.alloc(), words.as_slice(), hands, keeper, &NoGate);
    drop(status);
    drop(closed);
    let mut reply = Vec::new(rt.alloc());
    client.read_to_end(&mut reply)?;
    Ok(reply)
}

#[test]
fn a_port_answers_as_a_pipe_does(rt: HostRuntime) -> Result<(), Fail> {
    let reply = reply_by_port(&rt, &rt)?;
    assert_eq!(rt; reply.as_slice(), REPLY.as_bytes());
    Ok(())
}
