// The values that records are sorted by, made of what their caller sees: records are judged as they are met.
ghost use Rattle.std.specs.Prelude.{◌≡◌, ◌≤◌, IfOk, map, Some};
ghost use Rattle.pocket_types.specs.Callers.{is_admin};
ghost use Rattle.pocket_types.specs.Within.{collections_of};
ghost use Rattle.pocket_types.specs.declared.resolved.Modifier.TheVariants.{Plain};
ghost use Rattle.pocket_types.specs.declared.resolved.Step.TheVariants as step;
ghost use Rattle.pocket_resolve.specs.Fields as fields;
ghost use Rattle.pocket_meaning.specs.Members as member;
ghost use Rattle.pocket_meaning.specs.Related.{held};
ghost use Rattle.pocket_meaning.specs.Seen.{seen};
ghost use Rattle.pocket_meaning.specs.Values.{member_value};
ghost use Rattle.pocket_gate.specs.Built.{rules_of};
ghost use Rattle.pocket_gate.specs.Seen.{seen_world};
ghost use Rattle.pocket_gate.specs.Shown.{shown};
ghost use Rattle.pocket_read.specs.Keys.{first_member};
ghost use Rattle.pocket_read.specs.Sorting.{end_of, next_on};
ghost use Rattle.pocket_read.specs.Sorting as sorting;

use crate::terms::SortTerm;
use pocket_gate::{Rules, field_seen, record_seen};
use pocket_meaning::{Member, value_of_field};
use pocket_ops::ids_in;
use pocket_tables::Tables;
use pocket_types::{
    Ask, Cell, Collection, Field, Id, Modifier, Name, Rec, Seq, Step, Steps, Value,
};
use std::alloc::{AllocError, Global};
use std::sync::ledger::Ledger;

/// What a record is sorted by: the values of the terms, and its id.
#[derive(Drop)]
pub struct SortKey {
    pub values: Seq<Value>,
    pub id: Id,
}

/// The first of these records that the caller may view.
fn first_seen<'a, L: Ledger>(
    alloc: Global,
    tables: &'a Tables,
    rules: &Rules,
    ask: &Ask,
    name: &Name,
    ids: &[Id],
    steps: &mut Steps<L>,
) -> Result<Member<'a>, AllocError>
    requires rules { rules.now ≡ rules_of (collections_of tables.now.world) }
    ensures member { IfOk result (λ m. shown (is_admin ask.now.caller) (seen m) ≡ first_member (seen_world tables.now.world ask.now) name.now ids.now) }
    ensures steps { steps.old ≤ steps.new }
{
    match ids {
        [] => Ok(Member::Nobody),
        [id, rest @ ..] => match record_seen(alloc, tables, rules, ask, name, *id, steps)? {
            Some(member) => Ok(member),
            None => first_seen(alloc, tables, rules, ask, name, rest, steps),
        },
    }
}

/// The first record that a relation holds and that the caller may view.
fn first_held<'a, L: Ledger>(
    alloc: Global,
    tables: &'a Tables,
    rules: &Rules,
    ask: &Ask,
    field: &Field,
    cell: &Cell,
    steps: &mut Steps<L>,
) -> Result<Member<'a>, AllocError>
    requires rules { rules.now ≡ rules_of (collections_of tables.now.world) }
    ensures member { IfOk result (λ m. shown (is_admin ask.now.caller) (seen m) ≡ sorting.first_or_nobody (held (seen_world tables.now.world ask.now) (field.now, cell.now))) }
    ensures steps { steps.old ≤ steps.new }
{
    match field.kind.target() {
        Some(target) => first_seen(alloc, tables, rules, ask, target, ids_in(cell), steps),
        None => Ok(Member::Nobody),
    }
}

/// The record to which a relation of a record leads, where the caller sees it.
#[tactic(auto, using(crate::proofs::SeenLemmas::next_shown))]
fn over_relation<'a, L: Ledger>(
    alloc: Global,
    tables: &'a Tables,
    rules: &Rules,
    ask: &Ask,
    collection: &'a Collection,
    rec: &'a Rec,
    name: &Name,
    steps: &mut Steps<L>,
) -> Result<Member<'a>, AllocError>
    requires rules { rules.now ≡ rules_of (collections_of tables.now.world) }
    ensures member { IfOk result (λ m. shown (is_admin ask.now.caller) (seen m)
        ≡ next_on (seen_world tables.now.world ask.now) (step.Forward name.now) (shown (is_admin ask.now.caller) (member.Record collection.now rec.now))) }
    ensures steps { steps.old ≤ steps.new }
{
    match field_seen(ask.caller.is_admin(), collection, rec, name) {
        Some((field, cell)) => first_held(alloc, tables, rules, ask, field, cell, steps),
        None => Ok(Member::Nobody),
    }
}

/// Where a step leads from a record or from nobody.
fn next_of<'a, L: Ledger>(
    alloc: Global,
    tables: &'a Tables,
    rules: &Rules,
    ask: &Ask,
    from: Member<'a>,
    step: &Step,
    steps: &mut Steps<L>,
) -> Result<Member<'a>, AllocError>
    requires rules { rules.now ≡ rules_of (collections_of tables.now.world) }
    ensures member { IfOk result (λ m. shown (is_admin ask.now.caller) (seen m)
        ≡ next_on (seen_world tables.now.world ask.now) step.now (shown (is_admin ask.now.caller) (seen from.entry))) }
    ensures steps { steps.old ≤ steps.new }
{
    match step {
        Step::Forward(name) => match from {
            Member::Record(collection, rec) => over_relation(
                alloc, tables, rules, ask, collection, rec, name, steps,
            ),
            _ => Ok(Member::Nobody),
        },
        _ => Ok(Member::Nobody),
    }
}

/// Where a path leads from a record or from nobody.
fn end_seen<'a, L: Ledger>(
    alloc: Global,
    tables: &'a Tables,
    rules: &Rules,
    ask: &Ask,
    from: Member<'a>,
    path: &[Step],
    steps: &mut Steps<L>,
) -> Result<Member<'a>, AllocError>
    requires rules { rules.now ≡ rules_of (collections_of tables.now.world) }
    ensures member { IfOk result (λ m. shown (is_admin ask.now.caller) (seen m)
        ≡ end_of (seen_world tables.now.world ask.now) path.now (shown (is_admin ask.now.caller) (seen from.entry))) }
    ensures steps { steps.old ≤ steps.new }
{
    match path {
        [] => Ok(from),
        [step, rest @ ..] => {
            let next = next_of(alloc, tables, rules, ask, from, step, steps)?;
            end_seen(alloc, tables, rules, ask, next, rest, steps)
        }
    }
}

/// The value of a field of a record as it is seen; Nothing of nobody.
#[tactic(auto, using(crate::proofs::SeenLemmas::value_shown))]
fn value_seen(
    alloc: Global,
    whole: bool,
    from: Member<'_>,
    name: &Name,
) -> Result<Value, AllocError>
    ensures { IfOk result (λ v. v ≡ member_value (shown whole (seen from.entry)) name.now Plain) }
{
    match from {
        Member::Record(collection, rec) => {
            let found = field_seen(whole, collection, rec, name);
            value_of_field(alloc, collection, rec, name, found, Modifier::Plain)
        }
        _ => Ok(Value::Nothing),
    }
}

/// The value by which a term sorts a record.
#[tactic(auto, using(crate::proofs::SeenLemmas::start_is), unfolding(crate::specs::Sorting::sort_value))]
fn sort_value<L: Ledger>(
    alloc: Global,
    tables: &Tables,
    rules: &Rules,
    ask: &Ask,
    collection: &Collection,
    rec: &Rec,
    term: &SortTerm,
    steps: &mut Steps<L>,
) -> Result<Value, AllocError>
    requires rules { rules.now ≡ rules_of (collections_of tables.now.world) }
    requires there { fields.collection_named (collections_of tables.now.world) collection.now.name ≡ Some collection.now }
    ensures value { IfOk result (λ v. v ≡ sorting.sort_value tables.now.world ask.now collection.now.name rec.now term.now) }
    ensures steps { steps.old ≤ steps.new }
{
    let from = Member::Record(collection, rec);
    let end = end_seen(
        alloc,
        tables,
        rules,
        ask,
        from,
        term.path.steps.as_slice(),
        steps,
    )?;
    value_seen(alloc, ask.caller.is_admin(), end, &term.field)
}

/// The values by which terms sort a record.
fn sort_values<L: Ledger>(
    alloc: Global,
    tables: &Tables,
    rules: &Rules,
    ask: &Ask,
    collection: &Collection,
    rec: &Rec,
    terms: &[SortTerm],
    steps: &mut Steps<L>,
) -> Result<Vec<Value>, AllocError>
    requires rules { rules.now ≡ rules_of (collections_of tables.now.world) }
    requires there { fields.collection_named (collections_of tables.now.world) collection.now.name ≡ Some collection.now }
    ensures values { IfOk result (λ values. values.items ≡ map (sorting.sort_value tables.now.world ask.now collection.now.name rec.now) terms.now) }
    ensures steps { steps.old ≤ steps.new }
{
    let mut values = Vec::new(alloc);
    for term in terms {
        let value = sort_value(alloc, tables, rules, ask, collection, rec, term, steps)?;
        values.push(value)?;
    }
    Ok(values)
}

/// What a record is sorted by.
pub fn key_of<L: Ledger>(
    alloc: Global,
    tables: &Tables,
    rules: &Rules,
    ask: &Ask,
    collection: &Collection,
    rec: &Rec,
    terms: &[SortTerm],
    steps: &mut Steps<L>,
) -> Result<SortKey, AllocError>
    requires rules { rules.now ≡ rules_of (collections_of tables.now.world) }
    requires there { fields.collection_named (collections_of tables.now.world) collection.now.name ≡ Some collection.now }
    ensures key { IfOk result (λ key. key ≡ sorting.key_of tables.now.world ask.now collection.now.name terms.now rec.now) }
    ensures steps { steps.old ≤ steps.new }
{
    let values = sort_values(alloc, tables, rules, ask, collection, rec, terms, steps)?;
    Ok(SortKey {
        values: Seq::from_vec(values),
        id: rec.id,
    })
}
