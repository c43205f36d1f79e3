// A state with its keeper, as a machine.
ghost use Rattle.std.specs.Prelude.{◌≡◌, ◌<◌, ◌≤◌, []};
ghost use Rattle.pocket_desk.specs.Machine.{has_risen};
ghost use Rattle.pocket_core.specs.Answers.{IsHistoryAfter, answer};
ghost use Rattle.pocket_core.specs.Opening.{AreRowsOf};
ghost use Rattle.pocket_office.specs.Offices.{counted, IsOffice, IsOfficeReply};

use pocket_api::{Reply, Work};
use pocket_core::State;
use pocket_desk::Machine;
use pocket_keeper::Committer;
use pocket_types::Steps;
use std::alloc::Global;
use std::marker::{Brand, Model};
use std::snapshot::Snapshot;
use std::sync::ledger::{Blank, Ledger};

/// A state with the keeper of its rows, and the allocator that its calls take. Contracts see the state, the keeper, and the keeper as
/// it was at first.
///
/// The rows that the keeper tells are always those of the state, and each command of the state's history is one that the machine
/// enters after those before it.
pub struct Office<K: Committer> {
    alloc: Global,
    state: State,
    keeper: K,
    // The keeper as it was at first. It has no bytes.
    first: Snapshot<K>,
}

impl<K: Committer> Model for Office<K> {
    ghost use Rattle.std.specs.Coded.{codes};
    ghost use Rattle.pocket_types.specs.contracts.json.Jv as jv;
    ghost use Rattle.pocket_office.specs.Offices.{IsOffice, OfficeView};

    ghost Value = { OfficeView K };

    ghost coded = { Prim.hlevel (codes, jv.the_row.coded) };

    ghost view = { λ office. record { state = office.state; keeper = office.keeper; first = office.first.value } };

    ghost invariant = { λ office. IsOffice K.rows K.faults (record { state = office.state; keeper = office.keeper; first = office.first.value }) };
}

impl<K: Committer> Office<K> {
    /// The office of a state that was just opened, and the keeper of its rows.
    pub fn new(alloc: Global, state: State, keeper: K) -> Office<K>
        requires fresh { state.journal ≡ [] }
        requires rows { AreRowsOf (K.rows keeper) state.opening }
        ensures { result ≡ record { state = state; keeper = keeper; first = keeper } }
    {
        let first = Snapshot::of(&keeper);
        Office {
            alloc,
            state,
            keeper,
            first,
        }
    }

    /// The state and its keeper, apart again.
    pub fn into_parts(self) -> (State, K)
        ensures state { result.0 ≡ self.state }
        ensures keeper { result.1 ≡ self.keeper }
        ensures office { IsOffice K.rows K.faults self }
    {
        let Office {
            alloc: _,
            state,
            keeper,
            first: _,
        } = self;
        (state, keeper)
    }
}

impl<K: Committer> Machine for Office<K> {
    ghost use Rattle.pocket_core.specs.Answers.{EntersWork, answer};
    ghost use Rattle.pocket_office.specs.Offices.{counted, IsOfficeReply, OfficeOpening};

    type Work = Work;

    type Reply = Reply;

    ghost Opening = { OfficeOpening K };

    ghost opening = { λ office. record { state = office.state.opening; keeper = office.first } };

    ghost history = { λ office. office.state.journal };

    // those of the keeper
    ghost faults = { λ office. counted (K.faults office.keeper) };

    ghost fits = { λ opening. IsOfficeReply opening.state };

    ghost enters = { λ opening history work reply. EntersWork (answer opening.state history work) reply };

    fn serve(&mut self, work: Work) -> Reply {
        answer_work::<K, Brand>(self, work, Blank::new(1))
    }

    fn length(&self) -> u64 {
        self.state.journal().len() as u64
    }
}

/// Answers a work, with a count of steps of its own.
fn answer_work<K: Committer, L: Ledger>(office: &mut Office<K>, work: Work, blank: Blank) -> Reply
    requires name { blank.name ≡ L.name }
    requires parts { blank.parts ≡ L.parts }
    requires some { 0 < L.parts }
    ensures reply { IsOfficeReply office.old.state.opening office.old.state.journal work result
        (has_risen (counted (K.faults office.old.keeper)) (counted (K.faults office.new.keeper))) }
    ensures history { IsHistoryAfter (answer office.old.state.opening office.old.state.journal work) result work
        office.old.state.journal office.new.state.journal }
    ensures opening { office.new.state.opening ≡ office.old.state.opening }
    ensures first { office.new.first ≡ office.old.first }
    ensures faults { counted (K.faults office.old.keeper) ≤ counted (K.faults office.new.keeper) }
{
    let mut steps = Steps::<L>::new(blank);
    office
        .state
        .call(office.alloc, &mut office.keeper, work, &mut steps)
}
