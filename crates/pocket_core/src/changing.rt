// Creations and updates: the delta that puts a record, or why nothing is changed.
ghost use Rattle.std.specs.Prelude.{◌≡◌, ◌≤◌, IfOk, IfSome, IsSome};
ghost use Rattle.std.specs.Option.{option_copied};
ghost use Rattle.pocket_types.specs.Profile.{IsProfiled};
ghost use Rattle.pocket_types.specs.Within.{collections_of};
ghost use Rattle.pocket_store.specs.SoundStates.{IsSoundWorld};
ghost use Rattle.pocket_tables.specs.Kept.{IsReady};
ghost use Rattle.pocket_tables.specs.Worlds.{collection_at};
ghost use Rattle.pocket_gate.specs.Built.{rules_of};
ghost use Rattle.pocket_change.specs.Answers.{Gives};
ghost use Rattle.pocket_change.specs.Changes.{update};
ghost use Rattle.pocket_core.specs.Changing.{change_why, created_in, updated_in};
ghost use Rattle.pocket_core.specs.Courses.{GivesPlan, NamesCollection};

use crate::lists::verdict_why;
use pocket_api::{Body, Target, Why};
use pocket_change::laws::{created_records_may_be_put, updated_records_may_be_put};
use pocket_change::{ChangeFault, plan_create, plan_update, refuse_update};
use pocket_gate::Rules;
use pocket_resolve::collection_named;
use pocket_tables::Tables;
use pocket_types::{Ask, Delta, Id, Jv, Name, Steps, Text};
use std::alloc::Global;
use std::sync::ledger::Ledger;

/// Why nothing is changed.
fn change_why(fault: ChangeFault) -> Why
    ensures { result ≡ change_why fault }
{
    match fault {
        ChangeFault::Denied(verdict) => verdict_why(verdict),
        ChangeFault::NoRecord => Why::NoRecord,
        ChangeFault::BadBody => Why::BadBody,
        ChangeFault::BadValue(name) => Why::BadValue(name),
        ChangeFault::Invalid(faults) => Why::Invalid(faults),
        ChangeFault::RequiredReference(collection, id, field) => Why::Required(
            collection, id, field,
        ),
        ChangeFault::Limit(limit) => Why::Limit(limit),
        ChangeFault::Memory => Why::Memory,
        ChangeFault::IdTaken => Why::IdTaken,
    }
}

/// The tree of a body, where there is one.
fn body_tree(body: &Option<Body>) -> Option<&Jv>
    ensures tree { option_copied result ≡ body.now }
    ensures profile { IfSome result (λ tree. IsProfiled tree.now) }
{
    match body {
        Some(body) => Some(body.tree()),
        None => None,
    }
}

/// The name of a collection that is found by a text, copied.
fn found_name(tables: &Tables, text: &Text) -> Result<Name, Why>
    ensures { NamesCollection tables.now.world text.now result }
{
    match collection_named(tables.collections(), text.as_str()) {
        Some(collection) => match collection.name.clone() {
            Ok(name) => Ok(name),
            Err(_) => Err(Why::Memory),
        },
        None => Err(Why::NoCollection),
    }
}

/// The delta that creates a record from a body.
pub(crate) fn plan_creation<L: Ledger>(
    alloc: Global,
    tables: &mut Tables,
    rules: &Rules,
    ask: &Ask,
    collection: &Text,
    body: &Option<Body>,
    words: [u64; 2],
    steps: &mut Steps<L>,
) -> Result<Delta, Why>
    requires sound { IsSoundWorld tables.old.world }
    requires rules { rules.now ≡ rules_of (collections_of tables.old.world) }
    ensures plan { GivesPlan tables.new result (created_in tables.old.world ask.now collection.now body.now words) }
    ensures world { tables.new.world ≡ tables.old.world }
    ensures steps { steps.old ≤ steps.new }
{
    created_records_may_be_put();
    // it tells that the moment is one
    let _millis = ask.moment.millis();
    let name = match found_name(tables, collection) {
        Ok(name) => name,
        Err(why) => return Err(why),
    };
    let body = body_tree(body);
    match plan_create(alloc, tables, rules, ask, &name, body, words, steps) {
        Ok(delta) => Ok(delta),
        Err(fault) => Err(change_why(fault)),
    }
}

/// The delta of an update of the record whose id a text is. A text that isn't an id's form is no record's.
fn plan_of_id<L: Ledger>(
    alloc: Global,
    tables: &mut Tables,
    rules: &Rules,
    ask: &Ask,
    collection: &Name,
    id: &Text,
    body: Option<&Jv>,
    steps: &mut Steps<L>,
) -> Result<Delta, ChangeFault>
    requires sound { IsSoundWorld tables.old.world }
    requires rules { rules.now ≡ rules_of (collections_of tables.old.world) }
    requires there { IsSome (collection_at tables.old.world collection.now) }
    requires body { IfSome body (λ tree. IsProfiled tree.now) }
    ensures delta { IfSome (collection_at tables.old.world collection.now)
        (λ c. Gives result (update tables.old.world ask.now c id.now (option_copied body.entry))) }
    ensures world { tables.new.world ≡ tables.old.world }
    ensures ready { IfOk result (λ d. IsReady tables.new d) }
    ensures steps { steps.old ≤ steps.new }
{
    match Id::read(id.as_str()) {
        Some(id) => plan_update(alloc, tables, rules, ask, collection, id, body, steps),
        None => Err(refuse_update(alloc, tables, ask, collection, body)),
    }
}

/// The delta that updates a record by a body.
pub(crate) fn plan_revision<L: Ledger>(
    alloc: Global,
    tables: &mut Tables,
    rules: &Rules,
    ask: &Ask,
    target: &Target,
    body: &Option<Body>,
    steps: &mut Steps<L>,
) -> Result<Delta, Why>
    requires sound { IsSoundWorld tables.old.world }
    requires rules { rules.now ≡ rules_of (collections_of tables.old.world) }
    ensures plan { GivesPlan tables.new result (updated_in tables.old.world ask.now target.now body.now) }
    ensures world { tables.new.world ≡ tables.old.world }
    ensures steps { steps.old ≤ steps.new }
{
    updated_records_may_be_put();
    let _millis = ask.moment.millis();
    let name = match found_name(tables, &target.collection) {
        Ok(name) => name,
        Err(why) => return Err(why),
    };
    let body = body_tree(body);
    match plan_of_id(alloc, tables, rules, ask, &name, &target.id, body, steps) {
        Ok(delta) => Ok(delta),
        Err(fault) => Err(change_why(fault)),
    }
}
