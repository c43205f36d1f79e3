// Views of records by rule.
ghost use Rattle.std.specs.Prelude.{◌≡◌, ◌≤◌, false, IfOk, Ok, Some};
ghost use Rattle.std.specs.Option.{option_copied};
ghost use Rattle.pocket_types.specs.Json.{printed};
ghost use Rattle.pocket_types.specs.Within.{collections_of};
ghost use Rattle.pocket_resolve.specs.Fields.{collection_named};
ghost use Rattle.pocket_store.specs.SoundStates.{IsSoundWorld};
ghost use Rattle.pocket_tables.specs.Worlds.{rec_at};
ghost use Rattle.pocket_gate.specs.Built.{rules_of};
ghost use Rattle.pocket_gate.specs.Rules.{keeps_out};
ghost use Rattle.pocket_core.specs.Answers.{IsAnswer, answer_of};
ghost use Rattle.pocket_core.specs.Outcomes.{Shows, Tree};
ghost use Rattle.pocket_core.specs.Showing.{shown_jv};
ghost use Rattle.pocket_core.specs.Views.{rec_named_outcome, rec_outcome, view_outcome};

use crate::refusals::refuse;
use crate::showing::shown_rec;
use pocket_api::{Reply, Shown, Target, Why};
use pocket_gate::{Rules, Verdict, is_locked_for};
use pocket_resolve::collection_named;
use pocket_tables::Tables;
use pocket_types::{Action, Ask, Collection, Id, Jv, Name, Rec, Steps, Text};
use std::alloc::{AllocError, Global};
use std::sync::ledger::Ledger;

/// The record of this id. A text that isn't an id's form is no record's.
fn find_rec<'a, L: Ledger>(
    tables: &'a Tables,
    collection: &Name,
    id: &str,
    steps: &mut Steps<L>,
) -> Option<&'a Rec>
    requires { IsSoundWorld tables.now.world }
    ensures rec { option_copied result ≡ rec_at tables.now.world collection.now id.now }
    ensures steps { steps.old ≤ steps.new }
{
    match Id::read(id) {
        Some(id) => tables.rec(collection, id, steps),
        None => None,
    }
}

/// The compact text of a tree.
pub(crate) fn printed(alloc: Global, tree: Jv) -> Result<Text, AllocError>
    ensures { IfOk result (λ text. text ≡ printed tree) }
{
    let text = tree.print(alloc);
    drop(tree);
    text
}

/// The record as its caller is shown it.
fn show<L: Ledger>(
    alloc: Global,
    tables: &Tables,
    rules: &Rules,
    ask: &Ask,
    collection: &Collection,
    shown: &Shown,
    rec: &Rec,
    at: u64,
    steps: &mut Steps<L>,
) -> Result<Reply, AllocError>
    requires rules { rules.now ≡ rules_of (collections_of tables.now.world) }
    requires there { collection_named (collections_of tables.now.world) collection.now.name ≡ Some collection.now }
    ensures reply { IfOk result (IsAnswer (answer_of at (Ok (Shows (Tree (shown_jv tables.now.world ask.now collection.now shown.now rec.now)))))) }
    ensures steps { steps.old ≤ steps.new }
{
    let tree = shown_rec(alloc, tables, rules, ask, collection, shown, rec, steps)?;
    Ok(Reply::shown(printed(alloc, tree)?, at))
}

/// A view of a record, by what its rule says.
fn answer_rec<L: Ledger>(
    alloc: Global,
    tables: &Tables,
    rules: &Rules,
    ask: &Ask,
    collection: &Collection,
    shown: &Shown,
    rec: &Rec,
    at: u64,
    steps: &mut Steps<L>,
) -> Result<Reply, AllocError>
    requires rules { rules.now ≡ rules_of (collections_of tables.now.world) }
    requires there { collection_named (collections_of tables.now.world) collection.now.name ≡ Some collection.now }
    ensures reply { IfOk result (IsAnswer (answer_of at (rec_outcome tables.now.world ask.now collection.now shown.now rec.now))) }
    ensures steps { steps.old ≤ steps.new }
{
    let name = &collection.name;
    match rules.may(alloc, tables, ask, Action::View, name, rec, steps)? {
        Verdict::Allowed => show(alloc, tables, rules, ask, collection, shown, rec, at, steps),
        Verdict::Locked(name, action) => refuse(alloc, Why::Locked(name, action), at),
        Verdict::RuleFalse(name, action) => refuse(alloc, Why::RuleFalse(name, action), at),
    }
}

/// A view of a collection's record of an id.
fn answer_id<L: Ledger>(
    alloc: Global,
    tables: &Tables,
    rules: &Rules,
    ask: &Ask,
    collection: &Collection,
    id: &str,
    shown: &Shown,
    at: u64,
    steps: &mut Steps<L>,
) -> Result<Reply, AllocError>
    requires sound { IsSoundWorld tables.now.world }
    requires rules { rules.now ≡ rules_of (collections_of tables.now.world) }
    requires there { collection_named (collections_of tables.now.world) collection.now.name ≡ Some collection.now }
    ensures reply { IfOk result (IsAnswer (answer_of at (rec_named_outcome tables.now.world ask.now collection.now id.now shown.now))) }
    ensures steps { steps.old ≤ steps.new }
{
    match find_rec(tables, &collection.name, id, steps) {
        Some(rec) => answer_rec(alloc, tables, rules, ask, collection, shown, rec, at, steps),
        None => refuse(alloc, Why::NoRecord, at),
    }
}

/// A view: the collection first, then its locked rule, then the record, then what the rule says of it.
pub(crate) fn answer_view<L: Ledger>(
    alloc: Global,
    tables: &Tables,
    rules: &Rules,
    ask: &Ask,
    target: &Target,
    shown: &Shown,
    at: u64,
    steps: &mut Steps<L>,
) -> Result<Reply, AllocError>
    requires sound { IsSoundWorld tables.now.world }
    requires rules { rules.now ≡ rules_of (collections_of tables.now.world) }
    ensures reply { IfOk result (IsAnswer (answer_of at (view_outcome tables.now.world ask.now target.now shown.now))) }
    ensures steps { steps.old ≤ steps.new }
{
    let Some(collection) = collection_named(tables.collections(), target.collection.as_str()) else {
        return refuse(alloc, Why::NoCollection, at);
    };
    if is_locked_for(&ask.caller, &collection.view_rule) {
        let name = collection.name.clone()?;
        return refuse(alloc, Why::Locked(name, Action::View), at);
    }
    let id = target.id.as_str();
    answer_id(alloc, tables, rules, ask, collection, id, shown, at, steps)
}
