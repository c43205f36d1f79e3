// An acceptor in memory.
ghost use Rattle.std.specs.Prelude.{◌≡◌, ◌+◌, ◌<◌, ◌≤◌, ◌^◌, IfOk, [], Some, List, ℕ, length, map, vec_len, vec_capacity};
ghost use Rattle.std.specs.VecDeque.{deque_len};
ghost use Rattle.pocket_serve.specs.Accepting.{IsFresh};
ghost use Rattle.pocket_serve.specs.Memory.{finished_view, input_bytes};

use crate::acceptor::Acceptor;
use crate::input::{FinishedLink, LinkInput};
use pocket_types::{Failed, Seq};
use pocket_wire::{Ended, MemoryLink, MemorySink, MemorySource, Sink, Source};
use std::alloc::{AllocError, Global};
use std::collections::VecDeque;

/// Gives links in memory, one for each input. Calls of `accept` fail on demand.
#[derive(Drop)]
pub struct MemoryAcceptor {
    alloc: Global,
    inputs: VecDeque<LinkInput>,
    finished: Vec<FinishedLink>,
    failing: Vec<u64>,
    calls: u64,
    faults: u64,
    ghost few: { deque_len inputs < 2 ^ 64 },
    ghost room: { deque_len inputs + vec_len finished ≤ vec_capacity finished },
}

impl MemoryAcceptor {
    /// A link for each of these inputs, in their order. The calls of `accept` with the numbers `failing`, counted from 0, fail. It takes
    /// the memory for all finished links here.
    pub fn new(
        alloc: Global,
        inputs: Vec<LinkInput>,
        failing: Vec<u64>,
    ) -> Result<MemoryAcceptor, AllocError>
        ensures { IfOk result (λ acceptor. ⟦<MemoryAcceptor as Acceptor>⟧.told acceptor
            ≡ record { waiting = vec_len inputs; inputs = Some (map input_bytes inputs.items); finished = Some []; faults = 0 }) }
    {
        let finished = Vec::with_capacity(alloc, inputs.len())?;
        Ok(MemoryAcceptor {
            alloc,
            inputs: VecDeque::from(inputs),
            finished,
            failing,
            calls: 0,
            faults: 0,
        })
    }

    /// The links that were finished, in their order.
    pub fn finished(&self) -> &[FinishedLink]
        ensures { (⟦<MemoryAcceptor as Acceptor>⟧.told self.now).finished ≡ Some (map (finished_view ⟦<MemoryLink as Source>⟧.left ⟦<MemoryLink as Sink>⟧.taken ⟦<MemoryLink as Source>⟧.faults ⟦<MemoryLink as Sink>⟧.faults) result.now) }
    {
        &self.finished
    }
}

/// The link with this input, of which nothing is used yet.
fn link_of(alloc: Global, input: LinkInput) -> MemoryLink
    ensures fresh { IsFresh ⟦<MemoryLink as Source>⟧.left ⟦<MemoryLink as Sink>⟧.taken ⟦<MemoryLink as Source>⟧.faults ⟦<MemoryLink as Sink>⟧.faults result }
    ensures left { ⟦<MemoryLink as Source>⟧.left result ≡ Some (input_bytes input) }
{
    let LinkInput {
        bytes,
        piece,
        failing_reads,
        failing_writes,
    } = input;
    MemoryLink {
        source: MemorySource::new(bytes, piece, failing_reads),
        sink: MemorySink::new(Seq::new(alloc), failing_writes),
    }
}

impl Acceptor for MemoryAcceptor {
    ghost use Rattle.std.specs.Prelude.{◌+◌, ◌<◌, Some, map, vec_len, vec_capacity};
    ghost use Rattle.std.specs.VecDeque.{deque_len};
    ghost use Rattle.pocket_serve.specs.Memory.{finished_view, input_bytes};

    type Link = MemoryLink;

    ghost told = { λ a. record {
      waiting = deque_len a.inputs;
      inputs = Some (map input_bytes a.inputs.items);
      finished = Some (map (finished_view ⟦<MemoryLink as Source>⟧.left ⟦<MemoryLink as Sink>⟧.taken ⟦<MemoryLink as Source>⟧.faults ⟦<MemoryLink as Sink>⟧.faults) a.finished.items);
      faults = a.faults;
    } };

    ghost has_place = { λ a. deque_len a.inputs + vec_len a.finished < vec_capacity a.finished };

    ghost few = { λ a. a.few };

    fn accept(&mut self) -> Result<Option<MemoryLink>, Failed> {
        let call = self.calls;
        self.calls = self.calls.saturating_add(1);
        if !self.inputs.is_empty() && self.failing.contains(&call) {
            self.faults = self.faults.saturating_add(1);
            return Err(Failed);
        }
        let Some(input) = self.inputs.pop_front() else {
            return Ok(None);
        };
        Ok(Some(link_of(self.alloc, input)))
    }

    fn finish(&mut self, link: MemoryLink, ended: Ended) {
        self.finished.push_reserved(FinishedLink { link, ended });
    }
}
