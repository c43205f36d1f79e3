// Values of the grammar as trees.
ghost use Rattle.std.specs.Prelude.{◌≡◌, Some, None, Err, [], IfOk, OnOk, IsTrue};
ghost use Rattle.std.specs.List.{list_all};
ghost use Rattle.std.specs.Str.{is_utf8};
ghost use Rattle.json.specs.Value.{value_view, items_view, members_view};
ghost use Rattle.pocket_types.specs.declared.json.Jv.TheOpen as jv;
ghost use Rattle.pocket_types.specs.declared.json.Jv.TheViews.{roll-Jv};
ghost use Rattle.pocket_types.specs.Maps.{map_jv, put};
ghost use Rattle.pocket_types.specs.Profile.{texts_utf8, entry_utf8};
ghost use Rattle.pocket_json.specs.Reading.{tree_of, trees_of, entries_of};

use crate::faults::JsonFault;
use crate::numbers::whole;
use json::Value;
use pocket_types::{Jv, Member, Seq, Text};
use std::alloc::{AllocError, Global};
use std::collections::BTreeMap;

/// The tree of a value, whose numbers must be of the profile.
#[cycle(tree)]
pub fn tree(alloc: Global, value: &Value<'_>) -> Result<Jv, JsonFault>
    ensures ok { IfOk result (λ tree. tree_of (value_view value.now) ≡ Some tree) }
    ensures texts { IfOk result (λ tree. IsTrue (texts_utf8 tree)) }
    ensures bad { result ≡ Err JsonFault.BadJson → tree_of (value_view value.now) ≡ None }
{
    match value {
        Value::Null => Ok(Jv::Null),
        Value::Bool(b) => Ok(Jv::Flag(*b)),
        Value::Number(text) => match whole(text) {
            Some(n) => Ok(Jv::Num(n)),
            None => Err(JsonFault::BadJson),
        },
        Value::String(text) => Ok(Jv::Text(copied(alloc, text)?)),
        Value::Array(items) => Ok(list_jv(trees(alloc, items)?)),
        Value::Object(members) => Ok(map_jv(alloc, entries(alloc, members)?)?),
    }
}

/// A copy of a text.
fn copied(alloc: Global, text: &str) -> Result<Text, AllocError>
    ensures { IfOk result (λ copy. (copy ≡ text.now) × IsTrue (is_utf8 copy)) }
{
    Text::from_str(alloc, text)
}

#[cycle(tree)]
fn trees(alloc: Global, items: &Vec<Value<'_>>) -> Result<Vec<Jv>, JsonFault>
    ensures ok { IfOk result
        (λ found. trees_of (items_view items.now.items) ≡ Some found.items) }
    ensures texts { IfOk result (λ found. IsTrue (list_all texts_utf8 found.items)) }
    ensures bad { result ≡ Err JsonFault.BadJson
        → trees_of (items_view items.now.items) ≡ None }
{
    let mut found = Vec::new(alloc);
    for item in items {
        let value = tree(alloc, item)?;
        found.push(value)?;
    }
    Ok(found)
}

#[cycle(tree)]
fn entries(alloc: Global, members: &Vec<(&str, Value<'_>)>) -> Result<BTreeMap<Text, Jv>, JsonFault>
    ensures ok { IfOk result
        (λ found. entries_of (members_view members.now.items) [] ≡ Some found.entries) }
    ensures texts { IfOk result (λ found. IsTrue (list_all entry_utf8 found.entries)) }
    ensures bad { result ≡ Err JsonFault.BadJson
        → entries_of (members_view members.now.items) [] ≡ None }
{
    let mut found = BTreeMap::new(alloc);
    for member in members {
        let key = copied(alloc, member.0)?;
        let value = tree(alloc, &member.1)?;
        put(&mut found, key, value)?;
    }
    Ok(found)
}

/// Puts an entry among those found; of equal keys the later value counts.
#[tactic(auto, unfolding(pocket_types::specs::Maps::put))]
fn put(found: &mut BTreeMap<Text, Jv>, key: Text, value: Jv) -> Result<(), AllocError>
    ensures { OnOk result (found.new.entries ≡ put key value found.old.entries) }
{
    drop(found.insert(key, value)?);
    Ok(())
}

/// A list of trees.
fn list_jv(items: Vec<Jv>) -> Jv
    ensures { result ≡ roll-Jv (jv.List items.items) }
{
    Jv::List(Seq::from_vec(items))
}

/// A map of entries.
fn map_jv(alloc: Global, entries: BTreeMap<Text, Jv>) -> Result<Jv, AllocError>
    ensures { IfOk result (λ tree. tree ≡ map_jv entries.entries) }
{
    let mut members = Vec::new(alloc);
    for (key, value) in entries {
        members.push(Member { key, value })?;
    }
    Ok(Jv::Map(Seq::from_vec(members)))
}
