// The JSON of collections and their fields.
ghost use Rattle.std.specs.Prelude.{◌≡◌, ℕ, List, [], ◌∷◌, ◌++◌, IfOk, codes, map, take, drop, pos};
ghost use Rattle.pocket_types.specs.Maps.{map_jv, member_of};
ghost use Rattle.pocket_ops.specs.Trees.{text_jv, flag_jv, num_jv, list_jv, rule_jv, bound_jv, date_jv, unique_where_one, field_members, field_jv, type_text, collection_members, collection_jv};
ghost use Rattle.pocket_types.specs.declared.json.Jv.{Jv};
ghost use Rattle.pocket_types.specs.declared.records.Kind.TheVariants as kind;

use crate::cell_trees::date_jv;
use crate::trees::{flag_jv, num_jv, push_made, push_member, push_text, text_jv, texts_jv};
use pocket_types::{Collection, Field, Jv, Kind, Member, Moment, Name, Rule, Seq, Text};
use std::alloc::{AllocError, Global};

fn rule_jv(alloc: Global, rule: &Rule) -> Result<Jv, AllocError>
    ensures { IfOk result (λ tree. tree ≡ rule_jv rule.now) }
{
    match rule {
        Rule::Locked => Ok(Jv::Null),
        Rule::Free => text_jv(alloc, ""),
        Rule::Filter(text) => text_jv(alloc, text.as_str()),
    }
}

fn push_rule(
    members: &mut Vec<Member>,
    alloc: Global,
    key: &str,
    rule: &Rule,
) -> Result<(), AllocError>
    ensures { IfOk result (λ _. members.new.items ≡ members.old.items ++ member_of (key.now, rule_jv rule.now) ∷ []) }
{
    push_member(members, alloc, key, rule_jv(alloc, rule)?)
}

fn bound_jv(bound: Option<i64>) -> Jv
    ensures { result ≡ bound_jv bound }
{
    match bound {
        None => Jv::Null,
        Some(n) => Jv::Num(n),
    }
}

fn push_flag(
    members: &mut Vec<Member>,
    alloc: Global,
    key: &str,
    flag: bool,
) -> Result<(), AllocError>
    ensures { IfOk result (λ _. members.new.items ≡ members.old.items ++ member_of (key.now, flag_jv flag) ∷ []) }
{
    push_member(members, alloc, key, flag_jv(flag))
}

fn push_num(members: &mut Vec<Member>, alloc: Global, key: &str, n: u32) -> Result<(), AllocError>
    ensures { IfOk result (λ _. members.new.items ≡ members.old.items ++ member_of (key.now, num_jv (pos n)) ∷ []) }
{
    push_member(members, alloc, key, num_jv(n))
}

/// The members `name`, `required` and `type`.
fn push_named(
    members: &mut Vec<Member>,
    alloc: Global,
    field: &Field,
    kind: &str,
) -> Result<(), AllocError>
    ensures { IfOk result (λ _. members.new.items ≡ members.old.items ++ map member_of
        ((codes "name", text_jv field.now.name) ∷ (codes "required", flag_jv field.now.required)
        ∷ (codes "type", text_jv kind.now) ∷ [])) }
{
    push_text(members, alloc, "name", field.name.as_str())?;
    push_flag(members, alloc, "required", field.required)?;
    push_text(members, alloc, "type", kind)?;
    Ok(())
}

/// The members `hidden`, `max` and `min`.
fn push_bounds(
    members: &mut Vec<Member>,
    alloc: Global,
    hidden: bool,
    max: Jv,
    min: Jv,
) -> Result<(), AllocError>
    ensures { IfOk result (λ _. members.new.items ≡ members.old.items ++ map member_of
        ((codes "hidden", flag_jv hidden) ∷ (codes "max", max) ∷ (codes "min", min) ∷ [])) }
{
    push_flag(members, alloc, "hidden", hidden)?;
    push_member(members, alloc, "max", max)?;
    push_member(members, alloc, "min", min)?;
    Ok(())
}

/// The members `hidden` and `maxSelect`.
fn push_most(
    members: &mut Vec<Member>,
    alloc: Global,
    hidden: bool,
    most: u32,
) -> Result<(), AllocError>
    ensures { IfOk result (λ _. members.new.items ≡ members.old.items ++ map member_of
        ((codes "hidden", flag_jv hidden) ∷ (codes "maxSelect", num_jv (pos most)) ∷ [])) }
{
    push_flag(members, alloc, "hidden", hidden)?;
    push_num(members, alloc, "maxSelect", most)?;
    Ok(())
}

/// The member `unique`, where at most one item stands.
fn push_unique(
    members: &mut Vec<Member>,
    alloc: Global,
    most: u32,
    unique: bool,
) -> Result<(), AllocError>
    ensures { IfOk result (λ _. members.new.items ≡ members.old.items ++ map member_of (unique_where_one most unique)) }
{
    if most > 1 {
        return Ok(());
    }
    push_flag(members, alloc, "unique", unique)
}

/// The map of these members.
fn map_of(members: Vec<Member>) -> Jv
    ensures { (pairs : List (List ℕ × Jv)) → members.items ≡ map member_of pairs → result ≡ map_jv pairs }
{
    Jv::Map(Seq::from_vec(members))
}

/// A field with a least and a greatest value.
fn bounded_jv(alloc: Global, field: &Field, max: Jv, min: Jv, kind: &str) -> Result<Jv, AllocError>
    ensures { IfOk result (λ tree. tree ≡ map_jv
        ((codes "hidden", flag_jv field.now.hidden) ∷ (codes "max", max) ∷ (codes "min", min)
        ∷ (codes "name", text_jv field.now.name) ∷ (codes "required", flag_jv field.now.required)
        ∷ (codes "type", text_jv kind.now) ∷ (codes "unique", flag_jv field.now.unique) ∷ [])) }
{
    let mut members = Vec::new(alloc);
    push_bounds(&mut members, alloc, field.hidden, max, min)?;
    push_named(&mut members, alloc, field, kind)?;
    push_flag(&mut members, alloc, "unique", field.unique)?;
    Ok(map_of(members))
}

fn text_field_jv(alloc: Global, field: &Field, min: u32, max: u32) -> Result<Jv, AllocError>
    ensures { IfOk result (λ tree. tree ≡ map_jv (field_members (kind.Text min max) field.now)) }
{
    bounded_jv(alloc, field, num_jv(max), num_jv(min), "text")
}

fn number_field_jv(
    alloc: Global,
    field: &Field,
    min: Option<i64>,
    max: Option<i64>,
) -> Result<Jv, AllocError>
    ensures { IfOk result (λ tree. tree ≡ map_jv (field_members (kind.Number min max) field.now)) }
{
    bounded_jv(alloc, field, bound_jv(max), bound_jv(min), "number")
}

fn date_field_jv(
    alloc: Global,
    field: &Field,
    min: &Option<Moment>,
    max: &Option<Moment>,
) -> Result<Jv, AllocError>
    ensures { IfOk result (λ tree. tree ≡ map_jv (field_members (kind.Date min.now max.now) field.now)) }
{
    let max = date_jv(alloc, max)?;
    let min = date_jv(alloc, min)?;
    bounded_jv(alloc, field, max, min, "date")
}

fn flag_field_jv(alloc: Global, field: &Field) -> Result<Jv, AllocError>
    ensures { IfOk result (λ tree. tree ≡ map_jv (field_members kind.Flag field.now)) }
{
    let mut members = Vec::new(alloc);
    push_flag(&mut members, alloc, "hidden", field.hidden)?;
    push_named(&mut members, alloc, field, "bool")?;
    Ok(Jv::Map(Seq::from_vec(members)))
}

fn json_field_jv(alloc: Global, field: &Field, max: u32) -> Result<Jv, AllocError>
    ensures { IfOk result (λ tree. tree ≡ map_jv (field_members (kind.Json max) field.now)) }
{
    let mut members = Vec::new(alloc);
    push_flag(&mut members, alloc, "hidden", field.hidden)?;
    push_num(&mut members, alloc, "maxSize", max)?;
    push_named(&mut members, alloc, field, "json")?;
    Ok(Jv::Map(Seq::from_vec(members)))
}

fn select_field_jv(
    alloc: Global,
    field: &Field,
    values: &[Text],
    most: u32,
) -> Result<Jv, AllocError>
    ensures { IfOk result (λ tree. tree ≡ map_jv (field_members (kind.Select values.now most) field.now)) }
{
    let mut members = Vec::new(alloc);
    push_most(&mut members, alloc, field.hidden, most)?;
    push_named(&mut members, alloc, field, "select")?;
    push_unique(&mut members, alloc, most, field.unique)?;
    push_member(&mut members, alloc, "values", texts_jv(alloc, values)?)?;
    Ok(Jv::Map(Seq::from_vec(members)))
}

fn relation_field_jv(
    alloc: Global,
    field: &Field,
    target: &Name,
    most: u32,
    cascade: bool,
) -> Result<Jv, AllocError>
    ensures { IfOk result (λ tree. tree ≡ map_jv (field_members (kind.Relation target.now most cascade) field.now)) }
{
    let mut members = Vec::new(alloc);
    push_flag(&mut members, alloc, "cascadeDelete", cascade)?;
    push_text(&mut members, alloc, "collection", target.as_str())?;
    push_most(&mut members, alloc, field.hidden, most)?;
    push_named(&mut members, alloc, field, "relation")?;
    push_unique(&mut members, alloc, most, field.unique)?;
    Ok(map_of(members))
}

/// The JSON of a field, with the options of its type.
fn field_jv(alloc: Global, field: &Field) -> Result<Jv, AllocError>
    ensures { IfOk result (λ tree. tree ≡ field_jv field.now) }
{
    match &field.kind {
        Kind::Text { min, max } => text_field_jv(alloc, field, *min, *max),
        Kind::Number { min, max } => number_field_jv(alloc, field, *min, *max),
        Kind::Flag => flag_field_jv(alloc, field),
        Kind::Date { min, max } => date_field_jv(alloc, field, min, max),
        Kind::Select { values, most } => select_field_jv(alloc, field, values.as_slice(), *most),
        Kind::Json { max } => json_field_jv(alloc, field, *max),
        Kind::Relation {
            target,
            most,
            cascade,
        } => relation_field_jv(alloc, field, target, *most, *cascade),
    }
}

fn fields_jv(alloc: Global, fields: &[Field]) -> Result<Jv, AllocError>
    ensures { IfOk result (λ tree. tree ≡ list_jv (map field_jv fields.now)) }
{
    let mut trees = Seq::new(alloc);
    for field in fields {
        push_made(&mut trees, field_jv(alloc, field))?;
    }
    Ok(Jv::List(trees))
}

fn first_members(alloc: Global, collection: &Collection) -> Result<Vec<Member>, AllocError>
    ensures { IfOk result (λ members. members.items ≡ map member_of (take 4 (collection_members collection.now))) }
{
    let mut members = Vec::new(alloc);
    push_rule(&mut members, alloc, "createRule", &collection.create_rule)?;
    push_rule(&mut members, alloc, "deleteRule", &collection.delete_rule)?;
    let fields = fields_jv(alloc, collection.fields.as_slice())?;
    push_member(&mut members, alloc, "fields", fields)?;
    push_rule(&mut members, alloc, "listRule", &collection.list_rule)?;
    Ok(members)
}

fn type_text(is_auth: bool) -> &'static str
    ensures { result.now ≡ type_text is_auth }
{
    if is_auth { "auth" } else { "base" }
}

fn last_members(alloc: Global, collection: &Collection) -> Result<Vec<Member>, AllocError>
    ensures { IfOk result (λ members. members.items ≡ map member_of (drop 4 (collection_members collection.now))) }
{
    let mut members = Vec::new(alloc);
    push_text(&mut members, alloc, "name", collection.name.as_str())?;
    push_text(&mut members, alloc, "type", type_text(collection.is_auth))?;
    push_rule(&mut members, alloc, "updateRule", &collection.update_rule)?;
    push_rule(&mut members, alloc, "viewRule", &collection.view_rule)?;
    Ok(members)
}

/// The JSON of a collection: its rules, its name and type, and its fields with all options of their types.
pub fn collection_jv(alloc: Global, collection: &Collection) -> Result<Jv, AllocError>
    ensures { IfOk result (λ tree. tree ≡ collection_jv collection.now) }
{
    let mut members = first_members(alloc, collection)?;
    members.append(&mut last_members(alloc, collection)?)?;
    Ok(Jv::Map(Seq::from_vec(members)))
}
