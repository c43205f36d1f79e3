// The fields of a collection, read from their tree.
ghost use Rattle.std.specs.Prelude.{◌≡◌, ◌≢◌, ◌↔◌, codes, IfOk, IsTrue, All, AllPairs};
ghost use Rattle.pocket_rows.specs.Cells.{AreShallow};
ghost use Rattle.pocket_rows.specs.CollectionReading.{ReadsFields};
ghost use Rattle.pocket_rows.specs.FieldReading.{field_at, field_name_at, field_name_of, field_read, read_all, unique_at};
ghost use Rattle.pocket_types.specs.Sound.{IsCellTree, is_reserved};

use crate::kinds::{kind_of, may_be_unique};
use crate::members::cell_tree_under;
use crate::scalars::{flag_under, name_of};
use pocket_types::{Field, Jv, Kind, Member, Name, Seq};
use std::alloc::{AllocError, Global};
use std::collections::BTreeSet;

/// Whether no field may have the name.
fn is_reserved(name: &str) -> bool
    ensures { result ≡ is_reserved name.now }
{
    let id = name == "id";
    let created = name == "created";
    let updated = name == "updated";
    let collection = name == "collectionName";
    let expand = name == "expand";
    id || created || updated || collection || expand
}

/// The name of a field that a text spells. None exactly where no field may have this name.
fn field_name(alloc: Global, text: &str) -> Result<Option<Name>, AllocError>
    ensures { IfOk result (λ found. found ≡ field_name_of text.now) }
{
    if is_reserved(text) {
        return Ok(None);
    }
    name_of(alloc, text)
}

/// The name of the field.
#[tactic(auto, unfolding(crate::specs::FieldReading::field_name_at, crate::specs::FieldReading::text_at))]
fn field_name_under(alloc: Global, members: &[Member]) -> Result<Option<Name>, AllocError>
    requires { AreShallow members.now }
    ensures { IfOk result (λ found. found ≡ field_name_at (codes "name") members.now) }
{
    match cell_tree_under(members, "name") {
        Some(Jv::Text(text)) => field_name(alloc, text.as_str()),
        _ => Ok(None),
    }
}

/// Whether a field of this type is unique.
#[tactic(auto, unfolding(crate::specs::FieldReading::unique_at))]
fn unique_of(kind: &Kind, members: &[Member]) -> Option<bool>
    requires { AreShallow members.now }
    ensures { result ≡ unique_at kind.now members.now }
{
    if may_be_unique(kind) {
        flag_under(members, "unique")
    } else {
        Some(false)
    }
}

/// The field whose map may have these members.
#[tactic(auto, unfolding(crate::specs::FieldReading::field_at))]
fn field_of_members(alloc: Global, members: &[Member]) -> Result<Option<Field>, AllocError>
    requires { AreShallow members.now }
    ensures { IfOk result (λ found. found ≡ field_at members.now) }
{
    let Some(name) = field_name_under(alloc, members)? else {
        return Ok(None);
    };
    let Some(kind) = kind_of(alloc, members)? else {
        return Ok(None);
    };
    let Some(required) = flag_under(members, "required") else {
        return Ok(None);
    };
    let Some(hidden) = flag_under(members, "hidden") else {
        return Ok(None);
    };
    let Some(unique) = unique_of(&kind, members) else {
        return Ok(None);
    };
    Ok(Some(Field {
        name,
        kind,
        required,
        hidden,
        unique,
    }))
}

/// The field that may have a tree.
#[tactic(auto, unfolding(crate::specs::FieldReading::field_read))]
fn field_of(alloc: Global, tree: &Jv) -> Result<Option<Field>, AllocError>
    requires { IsCellTree tree.now }
    ensures { IfOk result (λ found. found ≡ field_read tree.now) }
{
    match tree {
        Jv::Map(members) => field_of_members(alloc, members.as_slice()),
        _ => Ok(None),
    }
}

/// The fields that may have these trees.
fn listed(alloc: Global, trees: &[Jv]) -> Result<Option<Seq<Field>>, AllocError>
    requires { All IsCellTree trees.now }
    ensures { IfOk result (λ found. found ≡ read_all field_read trees.now) }
{
    let mut fields = Vec::new(alloc);
    for tree in trees {
        let Some(field) = field_of(alloc, tree)? else {
            return Ok(None);
        };
        fields.push(field)?;
    }
    Ok(Some(Seq::from_vec(fields)))
}

/// Whether no two fields have one name.
fn names_differ(alloc: Global, fields: &[Field]) -> Result<bool, AllocError>
    ensures { IfOk result (λ r. IsTrue r ↔ AllPairs (λ f g. f.name ≢ g.name) fields.now) }
{
    let mut seen = BTreeSet::new(alloc);
    for field in fields {
        if !seen.insert(field.name.as_str())? {
            return Ok(false);
        }
    }
    Ok(true)
}

/// The fields that a tree lists. None only where no sound fields have this tree.
pub fn fields_of(alloc: Global, tree: &Jv) -> Result<Option<Seq<Field>>, AllocError>
    requires { IsCellTree tree.now }
    ensures { IfOk result (λ found. ReadsFields tree.now found) }
{
    let Jv::List(trees) = tree else {
        return Ok(None);
    };
    let Some(fields) = listed(alloc, trees.as_slice())? else {
        return Ok(None);
    };
    if names_differ(alloc, fields.as_slice())? {
        Ok(Some(fields))
    } else {
        Ok(None)
    }
}
