// The records to which a name leads, looked up and judged as they are met.
ghost use Rattle.std.specs.Prelude.{◌≡◌, ◌≤◌, IfOk, Some, None, filter, filter_map, if◌then◌else◌, map, option_map, take};
ghost use Rattle.pocket_types.specs.Callers.{is_admin};
ghost use Rattle.pocket_types.specs.Within.{collections_of};
ghost use Rattle.pocket_resolve.specs.Fields as fields;
ghost use Rattle.pocket_tables.specs.Reads.{referrers};
ghost use Rattle.pocket_tables.specs.Worlds.{IsTabled};
ghost use Rattle.pocket_meaning.specs.Members as member;
ghost use Rattle.pocket_meaning.specs.Related.{holders};
ghost use Rattle.pocket_meaning.specs.Seen.{seen};
ghost use Rattle.pocket_gate.specs.Built.{rules_of};
ghost use Rattle.pocket_gate.specs.Seen.{seen_world};
ghost use Rattle.pocket_gate.specs.Shown.{member_at};
ghost use Rattle.pocket_expand.specs.Expansion.{of_relation, related_by, shown_collection, shown_rec};
ghost use Rattle.pocket_expand.specs.Met.{found_seen, is_holder, member_seen, points_shown};

use crate::names::Lead;
use pocket_gate::{Rules, collection_named, field_seen, if_viewable, record_seen};
use pocket_meaning::{Member, does_refer};
use pocket_ops::ids_in;
use pocket_tables::Tables;
use pocket_types::{Ask, Cell, Collection, Field, Id, Name, Rec, Steps};
use std::alloc::{AllocError, Global};
use std::sync::ledger::Ledger;

/// Of a back relation so many records count.
const MOST_HOLDERS: usize = 1_000;

/// The records to which a name leads and that the caller may view.
#[derive(Drop)]
pub struct Found<'a> {
    /// Whether several may stand there.
    pub several: bool,
    pub members: Vec<Member<'a>>,
}

/// The records of these ids that the caller may view, in the ids' order.
fn held_seen<'a, L: Ledger>(
    alloc: Global,
    tables: &'a Tables,
    rules: &Rules,
    ask: &Ask,
    target: &Name,
    ids: &[Id],
    steps: &mut Steps<L>,
) -> Result<Vec<Member<'a>>, AllocError>
    requires rules { rules.now ≡ rules_of (collections_of tables.now.world) }
    ensures members { IfOk result (λ found. map (member_seen (is_admin ask.now.caller)) found.items
        ≡ filter_map (member_at (seen_world tables.now.world ask.now) target.now) ids.now) }
    ensures steps { steps.old ≤ steps.new }
{
    let mut found = Vec::new(alloc);
    for id in ids {
        if let Some(member) = record_seen(alloc, tables, rules, ask, target, *id, steps)? {
            found.push(member)?;
        }
    }
    Ok(found)
}

/// The records that a relation holds and that the caller may view. None where the field is no relation.
fn over_relation<'a, L: Ledger>(
    alloc: Global,
    tables: &'a Tables,
    rules: &Rules,
    ask: &Ask,
    field: &Field,
    cell: &Cell,
    steps: &mut Steps<L>,
) -> Result<Option<Found<'a>>, AllocError>
    requires rules { rules.now ≡ rules_of (collections_of tables.now.world) }
    ensures found { IfOk result (λ found. option_map (found_seen (is_admin ask.now.caller)) found
        ≡ of_relation (seen_world tables.now.world ask.now) (field.now, cell.now)) }
    ensures steps { steps.old ≤ steps.new }
{
    let Some(target) = field.kind.target() else {
        return Ok(None);
    };
    let members = held_seen(alloc, tables, rules, ask, target, ids_in(cell), steps)?;
    Ok(Some(Found {
        several: field.kind.is_multiple(),
        members,
    }))
}

/// Whether a record's field, where it isn't hidden or the record is seen whole, refers to the record of a collection and an id.
fn does_point(
    whole: bool,
    collection: &Collection,
    rec: &Rec,
    field: &Name,
    name: &Name,
    id: Id,
) -> bool
    ensures { result ≡ points_shown whole collection.now field.now name.now id rec.now }
{
    match field_seen(whole, collection, rec, field) {
        Some((field, cell)) => does_refer(field, cell, name, id),
        None => false,
    }
}

/// A record, where the caller sees that it refers to the record of a collection and an id.
fn holder_seen<'a, L: Ledger>(
    alloc: Global,
    tables: &Tables,
    rules: &Rules,
    ask: &Ask,
    from: &'a Collection,
    holder: &'a Rec,
    field: &Name,
    name: &Name,
    id: Id,
    steps: &mut Steps<L>,
) -> Result<Option<Member<'a>>, AllocError>
    requires rules { rules.now ≡ rules_of (collections_of tables.now.world) }
    requires there { fields.collection_named (collections_of tables.now.world) from.now.name ≡ Some from.now }
    ensures member { IfOk result (λ found. option_map seen found
        ≡ (if is_holder tables.now.world ask.now from.now field.now name.now id holder.now then Some (member.Record from.now holder.now) else None)) }
    ensures steps { steps.old ≤ steps.new }
{
    if does_point(ask.caller.is_admin(), from, holder, field, name, id) {
        if_viewable(alloc, tables, rules, ask, from, holder, steps)
    } else {
        Ok(None)
    }
}

/// The first records of a collection, by id, of which the caller sees that they refer to the record of a collection and an id.
fn holders_seen<'a, L: Ledger>(
    alloc: Global,
    tables: &'a Tables,
    rules: &Rules,
    ask: &Ask,
    from: &'a Collection,
    field: &Name,
    name: &Name,
    id: Id,
    steps: &mut Steps<L>,
) -> Result<Vec<Member<'a>>, AllocError>
    requires tabled { IsTabled tables.now.world }
    requires rules { rules.now ≡ rules_of (collections_of tables.now.world) }
    requires there { fields.collection_named (collections_of tables.now.world) from.now.name ≡ Some from.now }
    ensures members { IfOk result (λ found. map seen found.items
        ≡ take 1000 (map (member.Record from.now)
        (filter (is_holder tables.now.world ask.now from.now field.now name.now id) (referrers tables.now.world from.now.name field.now id)))) }
    ensures steps { steps.old ≤ steps.new }
{
    let mut found = Vec::new(alloc);
    let mut after = None;
    while let Some(holder) = tables.referrer_after(&from.name, field, id, after, steps) {
        if found.len() >= MOST_HOLDERS {
            return Ok(found);
        }
        if let Some(member) = holder_seen(
            alloc, tables, rules, ask, from, holder, field, name, id, steps,
        )? {
            found.push(member)?;
        }
        after = Some(holder.id);
    }
    Ok(found)
}

/// The records of a collection of this name whose field refers to a record, as far as the caller sees them.
fn over_back_relation<'a, L: Ledger>(
    alloc: Global,
    tables: &'a Tables,
    rules: &Rules,
    ask: &Ask,
    collection: &Collection,
    rec: &Rec,
    from: &Name,
    field: &Name,
    steps: &mut Steps<L>,
) -> Result<Vec<Member<'a>>, AllocError>
    requires rules { rules.now ≡ rules_of (collections_of tables.now.world) }
    ensures members { IfOk result (λ found. map (member_seen (is_admin ask.now.caller)) found.items
        ≡ take 1000 (holders (seen_world tables.now.world ask.now) from.now field.now
        (shown_collection ask.now.caller collection.now) (shown_rec ask.now.caller collection.now rec.now))) }
    ensures steps { steps.old ≤ steps.new }
{
    let name = &collection.name;
    match collection_named(tables.collections(), from) {
        Some(from) => holders_seen(alloc, tables, rules, ask, from, field, name, rec.id, steps),
        None => Ok(Vec::new(alloc)),
    }
}

/// The records to which a name leads from a record, as far as the caller sees them. None where the name is no relation there.
pub fn related_by<'a, L: Ledger>(
    alloc: Global,
    tables: &'a Tables,
    rules: &Rules,
    ask: &Ask,
    collection: &Collection,
    rec: &Rec,
    lead: &Lead,
    steps: &mut Steps<L>,
) -> Result<Option<Found<'a>>, AllocError>
    requires rules { rules.now ≡ rules_of (collections_of tables.now.world) }
    ensures found { IfOk result (λ found. option_map (found_seen (is_admin ask.now.caller)) found
        ≡ related_by (seen_world tables.now.world ask.now) (shown_collection ask.now.caller collection.now)
        (shown_rec ask.now.caller collection.now rec.now) lead.now) }
    ensures steps { steps.old ≤ steps.new }
{
    match lead {
        Lead::Forward(name) => match field_seen(ask.caller.is_admin(), collection, rec, name) {
            Some((field, cell)) => over_relation(alloc, tables, rules, ask, field, cell, steps),
            None => Ok(None),
        },
        Lead::Back(from, field) => {
            let members = over_back_relation(
                alloc, tables, rules, ask, collection, rec, from, field, steps,
            )?;
            Ok(Some(Found {
                several: true,
                members,
            }))
        }
    }
}
