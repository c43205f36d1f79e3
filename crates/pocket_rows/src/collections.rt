// Rows of collections, read back.
ghost use Rattle.std.specs.Prelude.{◌≡◌, ◌≢◌, ◌++◌, ℕ, Bool, List, Some, codes, IfOk, IsTrue, MatchOption};
ghost use Rattle.pocket_types.specs.Names.{is_name};
ghost use Rattle.pocket_ops.specs.Trees.{text_jv, type_text};
ghost use Rattle.pocket_rows.specs.Cells.{AreShallow, value_under};
ghost use Rattle.pocket_rows.specs.CollectionRows.{ReadsFieldsUnder, HasNoCollection, MayHaveCollection, MayKeepCollection};
ghost use Rattle.pocket_rows.specs.RowReading.{KeepsNoCollection, KeepsCollection};

use crate::fields::fields_of;
use crate::members::{cell_tree_under, members_of, text_under};
use crate::rules::rules_under;
use crate::scalars;
use pocket_keeper::{KeptRow, row_of_collection};
use pocket_types::{Collection, Field, Member, Name, Seq};
use std::alloc::{AllocError, Global};

/// The name of the collection that a key may be of.
fn name_of(alloc: Global, key: &str) -> Result<Option<Name>, AllocError>
    ensures { IfOk result (λ found. MatchOption found
        ((name : List ℕ) → IsTrue (is_name name) → key.now ≢ codes "c/" ++ name)
        (λ name. IsTrue (is_name name) × (key.now ≡ codes "c/" ++ name))) }
{
    match key.strip_prefix("c/") {
        Some(text) => scalars::name_of(alloc, text),
        None => Ok(None),
    }
}

/// The fields that may stand under their name. None only where no sound fields do.
fn fields_under(alloc: Global, members: &[Member]) -> Result<Option<Seq<Field>>, AllocError>
    requires { AreShallow members.now }
    ensures { IfOk result (λ found. ReadsFieldsUnder members.now found) }
{
    match cell_tree_under(members, "fields") {
        Some(tree) => fields_of(alloc, tree),
        None => Ok(None),
    }
}

/// Whether a text is the type of an auth collection. None where it is no type.
fn is_auth_type(text: &str) -> Option<bool>
    ensures { MatchOption result ((is_auth : Bool) → text.now ≢ type_text is_auth) (λ is_auth. text.now ≡ type_text is_auth) }
{
    match text {
        "auth" => Some(true),
        "base" => Some(false),
        _ => None,
    }
}

/// Whether the type that stands under its name is that of an auth collection. None where no type does.
fn is_auth_under(members: &[Member]) -> Option<bool>
    requires { AreShallow members.now }
    ensures { MatchOption result
        ((is_auth : Bool) → value_under (codes "type") members.now ≢ Some (text_jv (type_text is_auth)))
        (λ is_auth. value_under (codes "type") members.now ≡ Some (text_jv (type_text is_auth))) }
{
    let text = text_under(members, "type")?;
    is_auth_type(text)
}

/// The one collection of this name that the members may be of. None only where none is.
fn collection_of_members(
    alloc: Global,
    name: Name,
    members: &[Member],
) -> Result<Option<Collection>, AllocError>
    requires name { IsTrue (is_name name) }
    requires members { AreShallow members.now }
    ensures { IfOk result (λ found. MatchOption found (HasNoCollection members.now) (λ collection. MayHaveCollection name members.now collection)) }
{
    let Some(is_auth) = is_auth_under(members) else {
        return Ok(None);
    };
    let Some(fields) = fields_under(alloc, members)? else {
        return Ok(None);
    };
    let Some(rules) = rules_under(alloc, members)? else {
        return Ok(None);
    };
    Ok(Some(Collection {
        name,
        is_auth,
        fields,
        list_rule: rules.list,
        view_rule: rules.view,
        create_rule: rules.create,
        update_rule: rules.update,
        delete_rule: rules.delete,
    }))
}

/// The one collection that may have a row. None only where none has it.
fn candidate(alloc: Global, row: &KeptRow) -> Result<Option<Collection>, AllocError>
    ensures { IfOk result (λ found. MatchOption found (KeepsNoCollection row.now) (λ collection. MayKeepCollection row.now collection)) }
{
    let Some(name) = name_of(alloc, row.key.as_str())? else {
        return Ok(None);
    };
    let Some(members) = members_of(alloc, row.value.as_str())? else {
        return Ok(None);
    };
    collection_of_members(alloc, name, members.as_slice())
}

/// The collection that a row keeps. None exactly where no sound collection has this row.
pub fn collection_of_row(alloc: Global, row: &KeptRow) -> Result<Option<Collection>, AllocError>
    ensures { IfOk result (λ found. MatchOption found (KeepsNoCollection row.now) (KeepsCollection row.now)) }
{
    let Some(collection) = candidate(alloc, row)? else {
        return Ok(None);
    };
    let printed = row_of_collection(alloc, &collection)?;
    let same_key = printed.key == row.key;
    let same_value = printed.value == row.value;
    if same_key && same_value {
        Ok(Some(collection))
    } else {
        Ok(None)
    }
}
