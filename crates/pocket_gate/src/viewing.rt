// Records as a caller sees them, judged as they are met.
ghost use Rattle.std.specs.Prelude.{◌≡◌, ◌≤◌, IfOk, option_map, Some, None, if◌then◌else◌};
ghost use Rattle.std.specs.Option.{option_copied};
ghost use Rattle.pocket_types.specs.Callers.{is_admin};
ghost use Rattle.pocket_types.specs.Within.{collections_of};
ghost use Rattle.pocket_types.specs.declared.requests.Action.TheVariants as action;
ghost use Rattle.pocket_resolve.specs.Fields as fields;
ghost use Rattle.pocket_meaning.specs.Members as member;
ghost use Rattle.pocket_meaning.specs.Seen.{seen};
ghost use Rattle.pocket_gate.specs.Built.{rules_of};
ghost use Rattle.pocket_gate.specs.Rules.{may};
ghost use Rattle.pocket_gate.specs.Seen.{seen_world};
ghost use Rattle.pocket_gate.specs.Shown.{field_shown, member_at, shown};

use crate::rules::Rules;
use crate::verdict::Verdict;
use pocket_meaning::Member;
use pocket_ops::field_of;
use pocket_plan::open_field_of;
use pocket_tables::Tables;
use pocket_types::{Action, Ask, Cell, Collection, Field, Id, Name, Rec, Steps};
use std::alloc::{AllocError, Global};
use std::sync::ledger::Ledger;

/// The collection of this name.
pub fn collection_named<'a>(collections: &'a [Collection], name: &Name) -> Option<&'a Collection>
    ensures { option_copied result ≡ fields.collection_named collections.now name.now }
{
    pocket_resolve::collection_named(collections, name.as_str())
}

/// A field of a record that isn't hidden, unless the record is seen whole.
pub fn field_seen<'a>(
    whole: bool,
    collection: &'a Collection,
    rec: &'a Rec,
    name: &Name,
) -> Option<(&'a Field, &'a Cell)>
    ensures { option_map (λ x. (x.0.now, x.1.now)) result ≡ field_shown whole collection.now rec.now name.now }
{
    if whole {
        field_of(collection, rec, name)
    } else {
        open_field_of(collection, rec, name)
    }
}

/// A record of a collection, where the caller may view it.
pub fn if_viewable<'a, L: Ledger>(
    alloc: Global,
    tables: &Tables,
    rules: &Rules,
    ask: &Ask,
    collection: &'a Collection,
    rec: &'a Rec,
    steps: &mut Steps<L>,
) -> Result<Option<Member<'a>>, AllocError>
    requires rules { rules.now ≡ rules_of (collections_of tables.now.world) }
    requires there { fields.collection_named (collections_of tables.now.world) collection.now.name ≡ Some collection.now }
    ensures member { IfOk result (λ found. option_map seen found ≡ (if may tables.now.world ask.now action.View collection.now rec.now then Some (member.Record collection.now rec.now) else None)) }
    ensures steps { steps.old ≤ steps.new }
{
    let name = &collection.name;
    match rules.may(alloc, tables, ask, Action::View, name, rec, steps)? {
        Verdict::Allowed => Ok(Some(Member::Record(collection, rec))),
        _ => Ok(None),
    }
}

/// The record of a collection and an id, where the caller may view it.
#[tactic(auto, using(crate::proofs::ShownLemmas::member_found, crate::proofs::ShownLemmas::no_collection_found, crate::proofs::ShownLemmas::no_rec_found))]
pub fn record_seen<'a, L: Ledger>(
    alloc: Global,
    tables: &'a Tables,
    rules: &Rules,
    ask: &Ask,
    name: &Name,
    id: Id,
    steps: &mut Steps<L>,
) -> Result<Option<Member<'a>>, AllocError>
    requires rules { rules.now ≡ rules_of (collections_of tables.now.world) }
    ensures member { IfOk result (λ found. option_map (λ m. shown (is_admin ask.now.caller) (seen m)) found ≡ member_at (seen_world tables.now.world ask.now) name.now id) }
    ensures steps { steps.old ≤ steps.new }
{
    let found = collection_named(tables.collections(), name);
    let rec = tables.rec(name, id, steps);
    match found {
        Some(collection) => match rec {
            Some(rec) => if_viewable(alloc, tables, rules, ask, collection, rec, steps),
            None => Ok(None),
        },
        None => Ok(None),
    }
}
