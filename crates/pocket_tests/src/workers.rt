// Workers with connections in memory.
use crate::served::{Served, TestHand, hand_over, serve_sample};
use pocket_serve::{FinishedLink, LinkInput, MemoryAcceptor, NoGate, WorkerEnd};
use pocket_types::{Id, Seq};
use pocket_wire::Ended;
use std::alloc::{AllocError, Global};
use std::test::Fail;

type MemoryHand = TestHand<MemoryAcceptor>;

fn numbers(alloc: Global, given: &[u64]) -> Result<Vec<u64>, AllocError> {
    given.to_vec(alloc)
}

/// The requests of a connection: one that makes the note of this id, and a view of it.
fn requests_of(alloc: Global, id: Id) -> Result<Seq<u8>, AllocError> {
    let text = format!(in alloc;
        "POST /api/collections/notes/records HTTP/1.1\r\nContent-Length: 12\r\n\r\n{{\"text\":\"a\"}}GET /api/collections/notes/records/{} HTTP/1.1\r\n\r\n",
        id.as_str()
    )?;
    Ok(Seq::from_vec(text.into_bytes()))
}

/// The connection that makes the first note of dice that begin with this word. Of its reads these fail.
fn input_of(
    alloc: Global,
    first_word: u64,
    failing_reads: &[u64],
) -> Result<LinkInput, AllocError> {
    Ok(LinkInput {
        bytes: requests_of(alloc, Id::made([first_word, first_word.wrapping_add(1)]))?,
        piece: 4096,
        failing_reads: numbers(alloc, failing_reads)?,
        failing_writes: Vec::new(alloc),
    })
}

/// A hand with these connections, whose dice begin with this word, and of whose accepts these fail.
fn hand_of(
    alloc: Global,
    inputs: Vec<LinkInput>,
    first_word: u64,
    failing: &[u64],
) -> Result<MemoryHand, AllocError> {
    let acceptor = MemoryAcceptor::new(alloc, inputs, numbers(alloc, failing)?)?;
    Ok(hand_over(acceptor, first_word))
}

/// Whether a connection ended well, and a note was made and read back by it.
fn is_answered(finished: &FinishedLink) -> bool {
    let sent = finished.link.sink.bytes();
    let (made, read) = sent.split_at(sent.len() / 2);
    matches!(finished.ended, Ended::Done)
        && made == read
        && made.starts_with(b"HTTP/1.1 200 OK\r\n")
}

fn has_failed(finished: &FinishedLink) -> bool {
    matches!(finished.ended, Ended::SourceFault) && finished.link.sink.bytes().is_empty()
}

/// A hand with one connection.
fn hand_with_one(alloc: Global, first_word: u64) -> Result<MemoryHand, AllocError> {
    let inputs = vec![in alloc; input_of(alloc, first_word, &[])?]?;
    hand_of(alloc, inputs, first_word, &[])
}

/// Eight hands with a connection each.
fn eight_hands(alloc: Global) -> Result<Vec<MemoryHand>, AllocError> {
    let mut hands = Vec::new(alloc);
    for first_word in [0, 10, 20, 30, 40, 50, 60, 70] {
        hands.push(hand_with_one(alloc, first_word)?)?;
    }
    Ok(hands)
}

/// Whether all connections of a hand are answered.
fn are_answered(hand: &MemoryHand) -> bool {
    hand.acceptor
        .finished()
        .iter()
        .all(|finished| is_answered(finished))
}

#[test]
fn what_eight_workers_make_is_all_of_the_history(rt: HostRuntime) -> Result<(), Fail> {
    let served = serve_sample(&rt, rt.alloc(), eight_hands(rt.alloc())?, &NoGate)?;
    assert_eq!(rt; served.status.code(), 0);
    assert_eq!(rt; served.accepted, 8);
    assert!(rt; served.hands.iter().all(|hand| are_answered(hand)));
    Ok(())
}

/// Two hands with two connections each, of which the first one's first connection can't be read, and the second one's second not accepted.
fn failing_hands(alloc: Global) -> Result<Vec<MemoryHand>, AllocError> {
    let inputs = vec![in alloc; input_of(alloc, 0, &[0])?, input_of(alloc, 0, &[])?]?;
    let first = hand_of(alloc, inputs, 0, &[])?;
    let inputs = vec![in alloc; input_of(alloc, 10, &[])?, input_of(alloc, 10, &[])?]?;
    let second = hand_of(alloc, inputs, 10, &[1])?;
    Ok(vec![in alloc; first, second]?)
}

/// Whether a fault ended its connection or its worker, and nothing else.
fn are_as_told(served: &Served<MemoryAcceptor>) -> bool {
    let [first, second] = served.hands.as_slice() else {
        return false;
    };
    let [failed, answered] = first.acceptor.finished() else {
        return false;
    };
    let [alone] = second.acceptor.finished() else {
        return false;
    };
    has_failed(failed) && is_answered(answered) && is_answered(alone)
}

#[test]
fn a_fault_ends_its_connection_or_its_worker_alone(rt: HostRuntime) -> Result<(), Fail> {
    let served = serve_sample(&rt, rt.alloc(), failing_hands(rt.alloc())?, &NoGate)?;
    let ends = [
        WorkerEnd {
            connections: 2,
            faulted: false,
        },
        WorkerEnd {
            connections: 1,
            faulted: true,
        },
    ];
    assert_eq!(rt; served.status.workers.as_slice(), ends.as_slice());
    assert_eq!(rt; served.status.code(), 12);
    assert!(rt; are_as_told(&served));
    Ok(())
}
