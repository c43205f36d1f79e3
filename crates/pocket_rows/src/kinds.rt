// The type of a field with its options, read from the members of the field's map.
ghost use Rattle.std.specs.Prelude.{◌≡◌, codes, IfOk};
ghost use Rattle.pocket_rows.specs.Cells.{AreShallow};
ghost use Rattle.pocket_rows.specs.FieldReading.{text_kind, number_kind, date_kind, json_kind, select_kind, relation_kind, kind_named, kind_at, texts_at, name_at};
ghost use Rattle.pocket_types.specs.Sound.{may_be_unique};

use crate::items::texts_of;
use crate::members::cell_tree_under;
use crate::scalars::{bound_under, count_under, date_under, flag_under, name_of};
use pocket_types::{Jv, Kind, Member, Name, Seq, Text};
use std::alloc::{AllocError, Global};

#[tactic(auto, unfolding(crate::specs::FieldReading::text_kind))]
fn text_kind(members: &[Member]) -> Option<Kind>
    requires { AreShallow members.now }
    ensures { result ≡ text_kind members.now }
{
    let min = count_under(members, "min")?;
    let max = count_under(members, "max")?;
    Some(Kind::Text { min, max })
}

#[tactic(auto, unfolding(crate::specs::FieldReading::number_kind))]
fn number_kind(members: &[Member]) -> Option<Kind>
    requires { AreShallow members.now }
    ensures { result ≡ number_kind members.now }
{
    let min = bound_under(members, "min")?;
    let max = bound_under(members, "max")?;
    Some(Kind::Number { min, max })
}

#[tactic(auto, unfolding(crate::specs::FieldReading::date_kind))]
fn date_kind(members: &[Member]) -> Option<Kind>
    requires { AreShallow members.now }
    ensures { result ≡ date_kind members.now }
{
    let min = date_under(members, "min")?;
    let max = date_under(members, "max")?;
    Some(Kind::Date { min, max })
}

#[tactic(auto, unfolding(crate::specs::FieldReading::json_kind))]
fn json_kind(members: &[Member]) -> Option<Kind>
    requires { AreShallow members.now }
    ensures { result ≡ json_kind members.now }
{
    let max = count_under(members, "maxSize")?;
    Some(Kind::Json { max })
}

/// The values of a select.
#[tactic(auto, unfolding(crate::specs::FieldReading::texts_at))]
fn values_of(alloc: Global, members: &[Member]) -> Result<Option<Seq<Text>>, AllocError>
    requires { AreShallow members.now }
    ensures { IfOk result (λ found. found ≡ texts_at (codes "values") members.now) }
{
    match cell_tree_under(members, "values") {
        Some(Jv::List(trees)) => texts_of(alloc, trees.as_slice()),
        _ => Ok(None),
    }
}

#[tactic(auto, unfolding(crate::specs::FieldReading::select_kind))]
fn select_kind(alloc: Global, members: &[Member]) -> Result<Option<Kind>, AllocError>
    requires { AreShallow members.now }
    ensures { IfOk result (λ found. found ≡ select_kind members.now) }
{
    let Some(most) = count_under(members, "maxSelect") else {
        return Ok(None);
    };
    match values_of(alloc, members)? {
        Some(values) => Ok(Some(Kind::Select { values, most })),
        None => Ok(None),
    }
}

/// The collection that a relation leads to.
#[tactic(auto, unfolding(crate::specs::FieldReading::name_at, crate::specs::FieldReading::text_at))]
fn target_of(alloc: Global, members: &[Member]) -> Result<Option<Name>, AllocError>
    requires { AreShallow members.now }
    ensures { IfOk result (λ found. found ≡ name_at (codes "collection") members.now) }
{
    match cell_tree_under(members, "collection") {
        Some(Jv::Text(text)) => name_of(alloc, text.as_str()),
        _ => Ok(None),
    }
}

#[tactic(auto, unfolding(crate::specs::FieldReading::relation_kind))]
fn relation_kind(alloc: Global, members: &[Member]) -> Result<Option<Kind>, AllocError>
    requires { AreShallow members.now }
    ensures { IfOk result (λ found. found ≡ relation_kind members.now) }
{
    let Some(most) = count_under(members, "maxSelect") else {
        return Ok(None);
    };
    let Some(cascade) = flag_under(members, "cascadeDelete") else {
        return Ok(None);
    };
    match target_of(alloc, members)? {
        Some(target) => Ok(Some(Kind::Relation {
            target,
            most,
            cascade,
        })),
        None => Ok(None),
    }
}

/// The type of this name, with its options.
#[tactic(auto, unfolding(crate::specs::FieldReading::kind_named))]
fn kind_named(alloc: Global, text: &str, members: &[Member]) -> Result<Option<Kind>, AllocError>
    requires { AreShallow members.now }
    ensures { IfOk result (λ found. found ≡ kind_named text.now members.now) }
{
    match text {
        "text" => Ok(text_kind(members)),
        "number" => Ok(number_kind(members)),
        "bool" => Ok(Some(Kind::Flag)),
        "date" => Ok(date_kind(members)),
        "select" => select_kind(alloc, members),
        "json" => Ok(json_kind(members)),
        "relation" => relation_kind(alloc, members),
        _ => Ok(None),
    }
}

/// The type of a field with its options.
#[tactic(auto, unfolding(crate::specs::FieldReading::kind_at, crate::specs::FieldReading::text_at))]
pub fn kind_of(alloc: Global, members: &[Member]) -> Result<Option<Kind>, AllocError>
    requires { AreShallow members.now }
    ensures { IfOk result (λ found. found ≡ kind_at members.now) }
{
    match cell_tree_under(members, "type") {
        Some(Jv::Text(text)) => kind_named(alloc, text.as_str(), members),
        _ => Ok(None),
    }
}

/// Whether a field of this type may be unique.
pub fn may_be_unique(kind: &Kind) -> bool
    ensures { result ≡ may_be_unique kind.now }
{
    match kind {
        Kind::Text { .. } | Kind::Number { .. } | Kind::Date { .. } => true,
        Kind::Flag | Kind::Json { .. } => false,
        Kind::Select { .. } | Kind::Relation { .. } => !kind.is_multiple(),
    }
}
