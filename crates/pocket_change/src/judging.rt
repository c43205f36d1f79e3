// Records judged in the world in which they stand.
ghost use Rattle.std.specs.Prelude.{◌≡◌, ◌≤◌, Err, MatchResult, Some};
ghost use Rattle.std.specs.Option.{option_copied};
ghost use Rattle.pocket_types.specs.Sound.{IsSoundCollection};
ghost use Rattle.pocket_types.specs.Within.{collections_of};
ghost use Rattle.pocket_types.specs.declared.records.Collection.{Collection};
ghost use Rattle.pocket_types.specs.declared.records.Rec.{Rec};
ghost use Rattle.pocket_tables.specs.Worlds.{HasShape, collection_at, rec_at, shapes_of};
ghost use Rattle.pocket_gate.specs.Built.{rules_of};
ghost use Rattle.pocket_change.specs.Answers.{Gives};
ghost use Rattle.pocket_change.specs.Changes.{allowed, faultless};
ghost use Rattle.pocket_change.specs.Plans.{Stands, checked, judged};
ghost use Rattle.pocket_change.specs.declared.fault.ChangeFault.TheVariants as fault;

use crate::fault::ChangeFault;
use crate::limits::limit_passed;
use pocket_check::faults;
use pocket_gate::{Rules, Verdict, collection_named};
use pocket_ops::laws::sound_collections_have_own_names;
use pocket_tables::Tables;
use pocket_types::{Action, Ask, Collection, FieldFault, Id, Name, Rec, Seq, Steps};
use std::alloc::{AllocError, Global};
use std::sync::ledger::Ledger;

/// What a verdict means for a change.
pub(crate) fn admit(verdict: Result<Verdict, AllocError>) -> Result<(), ChangeFault>
    ensures { MatchResult verdict (λ v. result ≡ allowed v) (λ _. result ≡ Err fault.Memory) }
{
    match verdict {
        Ok(Verdict::Allowed) => Ok(()),
        Ok(other) => Err(ChangeFault::Denied(other)),
        Err(_) => Err(ChangeFault::Memory),
    }
}

/// What faults of a record mean for a change.
fn no_fault(found: Result<Seq<FieldFault>, AllocError>) -> Result<(), ChangeFault>
    ensures { MatchResult found (λ fs. result ≡ faultless fs) (λ _. result ≡ Err fault.Memory) }
{
    match found {
        Ok(faults) => {
            if faults.is_empty() {
                Ok(())
            } else {
                Err(ChangeFault::Invalid(faults))
            }
        }
        Err(_) => Err(ChangeFault::Memory),
    }
}

/// What is wrong with a record that stands in the tables, or which limit is passed.
fn check<L: Ledger>(
    alloc: Global,
    tables: &Tables,
    collection: &Collection,
    rec: &Rec,
    steps: &mut Steps<L>,
) -> Result<(), ChangeFault>
    requires there { collection_at tables.now.world collection.now.name ≡ Some collection.now }
    requires sound { IsSoundCollection collection.now }
    requires shape { HasShape (shapes_of collection.now) rec.now }
    ensures checked { Gives result (checked tables.now.world collection.now rec.now) }
    ensures steps { steps.old ≤ steps.new }
{
    sound_collections_have_own_names();
    let found = faults(alloc, tables, collection, rec, steps);
    match no_fault(found) {
        Ok(()) => match limit_passed(tables, collection, rec) {
            Some(limit) => Err(ChangeFault::Limit(limit)),
            None => Ok(()),
        },
        Err(fault) => Err(fault),
    }
}

/// Whether nothing is wrong with a record that stands in the tables; of one that a request creates, first whether the
/// create rule admits it.
fn judge<L: Ledger>(
    alloc: Global,
    tables: &Tables,
    rules: &Rules,
    creator: Option<&Ask>,
    collection: &Collection,
    rec: &Rec,
    steps: &mut Steps<L>,
) -> Result<(), ChangeFault>
    requires rules { rules.now ≡ rules_of (collections_of tables.now.world) }
    requires there { collection_at tables.now.world collection.now.name ≡ Some collection.now }
    requires sound { IsSoundCollection collection.now }
    requires shape { HasShape (shapes_of collection.now) rec.now }
    ensures judged { Gives result (judged tables.now.world (option_copied creator.entry) collection.now rec.now) }
    ensures steps { steps.old ≤ steps.new }
{
    let Some(ask) = creator else {
        return check(alloc, tables, collection, rec, steps);
    };
    let name = &collection.name;
    let verdict = rules.may(alloc, tables, ask, Action::Create, name, rec, steps);
    match admit(verdict) {
        Ok(()) => check(alloc, tables, collection, rec, steps),
        Err(fault) => Err(fault),
    }
}

/// Judges the record of a collection and an id.
pub(crate) fn judge_standing<L: Ledger>(
    alloc: Global,
    tables: &Tables,
    rules: &Rules,
    creator: Option<&Ask>,
    collection: &Name,
    id: Id,
    steps: &mut Steps<L>,
) -> Result<(), ChangeFault>
    requires rules { rules.now ≡ rules_of (collections_of tables.now.world) }
    requires stands { Stands tables.now.world collection.now id }
    ensures judged { (c : Collection) (r : Rec) → collection_at tables.now.world collection.now ≡ Some c → rec_at tables.now.world collection.now id ≡ Some r
        → Gives result (judged tables.now.world (option_copied creator.entry) c r) }
    ensures steps { steps.old ≤ steps.new }
{
    let found = collection_named(tables.collections(), collection);
    let rec = tables.rec(collection, id, steps);
    match found {
        Some(collection) => match rec {
            Some(rec) => judge(alloc, tables, rules, creator, collection, rec, steps),
            None => unreachable!(),
        },
        None => unreachable!(),
    }
}
