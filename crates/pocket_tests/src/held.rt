// Two workers of which the first one waits: the second one's connection is answered all the same.
use crate::served::{Served, TestHand, hand_over, serve_sample};
use crate::watched::{HoldingGate, OneAcceptor, Part, Watch};
use pocket_types::Seq;
use std::alloc::{AllocError, Global};
use std::sync::Wait;
use std::test::Fail;
use std::thread::Threads;

const VIEW: &str = "GET /api/collections/notes/records/note00000000001 HTTP/1.1\r\n\r\n";

const REPLY: &str =
    "HTTP/1.1 200 OK\r\nContent-Type: application/json\r\nContent-Length: 138\r\n\r\n{\"collectionName\":\"notes\",\"created\":\"2024-01-01 00:00:00.000Z\",\"id\":\"note00000000001\",\"text\":\"hello\",\"updated\":\"2024-01-01 00:00:00.000Z\"}";

type OneHand<'w> = TestHand<OneAcceptor<'w>>;

/// A hand with one connection, on which so many views come, one with each read.
fn hand_of<'w>(
    alloc: Global,
    count: usize,
    part: Part,
    watch: &'w Watch,
) -> Result<OneHand<'w>, AllocError> {
    let bytes = Seq::from_vec(VIEW.repeat(alloc, count)?.into_bytes());
    let acceptor = OneAcceptor::new(alloc, bytes, VIEW.len(), part, watch);
    Ok(hand_over(acceptor, 0))
}

/// Two workers with a connection each, of which the second is watched.
fn hands_of<'w>(
    alloc: Global,
    count: usize,
    first: Part,
    watch: &'w Watch,
) -> Result<Vec<OneHand<'w>>, AllocError> {
    let mut hands = Vec::new(alloc);
    hands.push(hand_of(alloc, count, first, watch)?)?;
    hands.push(hand_of(alloc, 1, Part::Watched, watch)?)?;
    Ok(hands)
}

/// Whether the server ended well, and the two connections took these bytes.
fn have_taken(served: &Served<OneAcceptor<'_>>, first: &[u8], second: &[u8]) -> bool {
    let [one, two] = served.hands.as_slice() else {
        return false;
    };
    served.status.code() == 0 && one.acceptor.sent() == first && two.acceptor.sent() == second
}

/// Whether a server answers so many views on the first connection, which waits so, and one on the second, and what waited saw the reply
/// to the latter.
fn serves_both<R: Threads + Wait + Sync>(
    rt: &R,
    alloc: Global,
    count: usize,
    first: Part,
    watch: &Watch,
) -> Result<bool, AllocError> {
    let hands = hands_of(alloc, count, first, watch)?;
    let served = serve_sample(rt, alloc, hands, &HoldingGate { watch, first })?;
    let replies = REPLY.repeat(alloc, count)?;
    let taken = have_taken(&served, replies.as_bytes(), REPLY.as_bytes());
    Ok(taken && watch.was_seen())
}

#[test]
fn a_call_that_waits_holds_up_no_other_connection(rt: HostRuntime) -> Result<(), Fail> {
    let watch = Watch::new(rt);
    assert!(rt; serves_both(&rt, rt.alloc(), 1, Part::HeldCall, &watch)?);
    Ok(())
}

#[test]
fn a_read_that_waits_holds_up_no_other_connection(rt: HostRuntime) -> Result<(), Fail> {
    let watch = Watch::new(rt);
    assert!(rt; serves_both(&rt, rt.alloc(), 2, Part::HeldRead, &watch)?);
    Ok(())
}
