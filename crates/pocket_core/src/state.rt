ghost use Rattle.std.specs.Prelude.{◌≡◌, ◌≤◌, [], IfErr, IfOk};
ghost use Rattle.pocket_types.specs.Causes.{StaysUntold};
ghost use Rattle.pocket_keeper.specs.Keeping.{AreAsBefore};
ghost use Rattle.pocket_store.specs.SoundStates.{IsSoundStored};
ghost use Rattle.pocket_core.specs.Answers.{IsHistoryAfter, after, answer};
ghost use Rattle.pocket_core.specs.Entering.{Commits, IsCounted, IsReply};
ghost use Rattle.pocket_core.specs.Opening.{AreRowsOf, IsOpened, IsStartFault};
ghost use Rattle.pocket_states.specs.States.{IsSoundState, opened_state, sender};

use crate::callers::{find_sender, taken_apart};
use crate::handling::handle;
use crate::opening::StartFault;
use pocket_api::{Reply, Work};
use pocket_gate::Rules;
use pocket_keeper::{Committer, KeepFault, Keeper, Token};
use pocket_store::{Stored, stored_of};
use pocket_tables::Tables;
use pocket_types::{Caller, Seq, Steps, Text};
use std::alloc::{AllocError, Global};
use std::marker::Model;
use std::snapshot::Snapshot;
use std::sync::ledger::Ledger;

/// All that the server knows: the collections with their records and rules, the tokens, the administrator's token, and the commands
/// that were accepted since the opening. Contracts see the opened state and the accepted commands, which determine the rest.
#[derive(Drop)]
pub struct State {
    tables: Tables,
    rules: Rules,
    // rising by their texts
    tokens: Seq<Token>,
    admin: Text,
    journal: Vec<Work>,
    // the sum of the costs of the journal's works, in bytes
    costs: u64,
    // What was kept as the state was opened. It has no bytes.
    opening: Snapshot<Stored>,
}

impl Model for State {
    ghost use Rattle.std.specs.Coded.{codes};
    ghost use Rattle.pocket_types.specs.contracts.json.Jv as jv;
    ghost use Rattle.pocket_states.specs.States.{StateView};

    ghost Value = { StateView };

    ghost coded = { Prim.hlevel (codes, jv.the_row.coded) };

    ghost use Rattle.pocket_core.specs.Kept.{view_of, IsKept};

    ghost view = { view_of };

    ghost invariant = { IsKept };
}

/// The state of what is kept.
fn open_state(alloc: Global, stored: Stored, admin: Text) -> Result<State, AllocError>
    requires { IsSoundStored stored }
    ensures { IfOk result (λ s. s ≡ record { opening = opened_state stored admin; journal = [] }) }
{
    let opening = Snapshot::of(&stored);
    let Stored { world, tokens } = stored;
    let tables = Tables::build(alloc, world)?;
    let rules = Rules::build(alloc, tables.collections())?;
    Ok(State {
        tables,
        rules,
        tokens,
        admin,
        journal: Vec::new(alloc),
        costs: 0,
        opening,
    })
}

impl State {
    /// Opens the state that the kept rows stand for. `BadStore` names the first row, in the order of the keys, that may not stand in a
    /// store, or with which the rows up to it pass a limit.
    pub fn load<K: Keeper>(alloc: Global, keeper: &mut K, admin: Text) -> Result<State, StartFault>
        ensures opened { IfOk result (IsOpened (K.rows keeper.new) admin) }
        ensures refused { IfErr result (IsStartFault (K.rows keeper.new) (K.faults keeper.old) (K.faults keeper.new)) }
        ensures as_before { AreAsBefore (K.rows keeper.old) (K.rows keeper.new) }
        ensures untold { StaysUntold (K.rows keeper.old) (K.rows keeper.new) }
        ensures count { K.faults keeper.old ≤ K.faults keeper.new }
    {
        let rows = match keeper.load(alloc) {
            Ok(rows) => rows,
            Err(KeepFault::Failed) => return Err(StartFault::KeeperFault),
            Err(KeepFault::Memory) => return Err(StartFault::Memory),
        };
        let stored = stored_of(alloc, &rows)?;
        drop(rows);
        let state = open_state(alloc, stored, admin)?;
        Ok(state)
    }

    /// Who sends a work.
    fn sender(&self, work: &Work) -> Result<Caller, AllocError>
        ensures { IfOk result (λ who. who ≡ sender (after self.now.opening self.now.journal) work.now) }
    {
        let tokens = self.tokens.as_slice();
        find_sender(&self.admin, tokens, work.draw.moment, &work.token)
    }

    /// Answers one request. For want of memory the answer is 507, and where the keeper fails it is 500; then, as after every refusal, state
    /// and rows are as before. A work that changes something is entered into the history once its row is kept.
    pub fn call<K: Committer, L: Ledger>(
        &mut self,
        alloc: Global,
        keeper: &mut K,
        work: Work,
        steps: &mut Steps<L>,
    ) -> Reply
        requires rows { AreRowsOf (K.rows keeper.old) (after self.old.opening self.old.journal) }
        ensures reply { IsReply self.old.opening self.old.journal work result }
        ensures history { IsHistoryAfter (answer self.old.opening self.old.journal work) result work self.old.journal self.new.journal }
        ensures opening { self.new.opening ≡ self.old.opening }

        // The state that it leaves is sound, and what is told of the keeper are its rows.
        ensures sound { IsSoundState (after self.new.opening self.new.journal) }
        ensures rows { AreRowsOf (K.rows keeper.new) (after self.new.opening self.new.journal) }
        ensures untold { StaysUntold (K.rows keeper.old) (K.rows keeper.new) }

        // The keeper is asked only where the work would be entered and rows change, and its faults are counted.
        ensures unasked { (¬ Commits self.old.opening self.old.journal work) → keeper.new ≡ keeper.old }
        ensures count { IsCounted (K.faults keeper.old) (K.faults keeper.new) result }
        ensures steps { steps.old ≤ steps.new }
    {
        let at = self.journal.as_slice().len() as u64;
        match self.sender(&work) {
            Ok(caller) => {
                let (ask, rest) = taken_apart(alloc, caller, work);
                handle(
                    alloc,
                    &mut self.tables,
                    &mut self.journal,
                    &mut self.costs,
                    &self.rules,
                    keeper,
                    ask,
                    rest,
                    steps,
                )
            }
            Err(_) => {
                drop(work);
                Reply::no_memory(at)
            }
        }
    }

    /// The commands that were accepted since the opening, in their order.
    pub fn journal(&self) -> &[Work]
        ensures { result.now ≡ self.now.journal }
    {
        self.journal.as_slice()
    }

    /// The same, moved out.
    pub fn into_journal(self) -> Seq<Work>
        ensures { result ≡ self.journal }
    {
        let State {
            tables,
            rules,
            tokens: _,
            admin: _,
            journal,
            costs: _,
            opening: _,
        } = self;
        drop(tables);
        drop(rules);
        Seq::from_vec(journal)
    }
}
