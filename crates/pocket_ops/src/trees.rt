// Trees of texts and of texts in lists, and the members of maps.
ghost use Rattle.std.specs.Prelude.{◌≡◌, [], ◌∷◌, ◌++◌, Err, IfOk, MatchResult, map, pos};
ghost use Rattle.pocket_ops.specs.Cells.{texts_jv};
ghost use Rattle.pocket_ops.specs.Dates.{date_text};
ghost use Rattle.pocket_types.specs.Maps.{map_jv, member_of};
ghost use Rattle.pocket_ops.specs.Trees.{text_jv, num_jv, flag_jv};

use crate::date_texts::{as_text, date_text};
use crate::items::Item;
use pocket_types::{Jv, Member, Moment, Seq, Text};
use std::alloc::{AllocError, Global};
use std::collections::BTreeMap;

pub fn text_jv(alloc: Global, text: &str) -> Result<Jv, AllocError>
    ensures { IfOk result (λ tree. tree ≡ text_jv text.now) }
{
    Ok(Jv::Text(Text::from_str(alloc, text)?))
}

/// The text of a moment.
pub fn moment_text(alloc: Global, moment: Moment) -> Result<Text, AllocError>
    ensures { IfOk result (λ t. t ≡ date_text moment) }
{
    let bytes = date_text(moment);
    Text::from_str(alloc, as_text(&bytes))
}

pub fn moment_jv(alloc: Global, moment: &Moment) -> Result<Jv, AllocError>
    ensures { IfOk result (λ tree. tree ≡ text_jv (date_text moment.now)) }
{
    Ok(Jv::Text(moment_text(alloc, *moment)?))
}

pub fn num_jv(n: u32) -> Jv
    ensures { result ≡ num_jv (pos n) }
{
    Jv::Num(i64::from(n))
}

pub fn flag_jv(flag: bool) -> Jv
    ensures { result ≡ flag_jv flag }
{
    Jv::Flag(flag)
}

/// The list of the texts of items.
pub fn texts_jv<T: Item>(alloc: Global, items: &[T]) -> Result<Jv, AllocError>
    ensures { IfOk result (λ tree. tree ≡ texts_jv (T.texts items.now)) }
{
    let mut trees = Seq::new(alloc);
    for item in items {
        push_made(&mut trees, text_jv(alloc, item.as_str()))?;
    }
    Ok(Jv::List(trees))
}

/// Adds a tree to a list, where there is one. A loop that calls this holds no tree of its own.
pub fn push_made(trees: &mut Seq<Jv>, tree: Result<Jv, AllocError>) -> Result<(), AllocError>
    ensures { MatchResult tree (λ t. IfOk result (λ _. trees.new ≡ trees.old ++ t ∷ [])) (λ e. result ≡ Err e) }
{
    match tree {
        Ok(tree) => trees.push(tree),
        Err(refused) => Err(refused),
    }
}

/// Adds a member to those of a map.
pub fn push_member(
    members: &mut Vec<Member>,
    alloc: Global,
    key: &str,
    value: Jv,
) -> Result<(), AllocError>
    ensures { IfOk result (λ _. members.new.items ≡ members.old.items ++ member_of (key.now, value) ∷ []) }
{
    let key = Text::from_str(alloc, key)?;
    members.push(Member { key, value })?;
    Ok(())
}

pub fn push_text(
    members: &mut Vec<Member>,
    alloc: Global,
    key: &str,
    text: &str,
) -> Result<(), AllocError>
    ensures { IfOk result (λ _. members.new.items ≡ members.old.items ++ member_of (key.now, text_jv text.now) ∷ []) }
{
    push_member(members, alloc, key, text_jv(alloc, text)?)
}

/// The map of these entries.
pub fn map_jv(alloc: Global, entries: BTreeMap<Text, Jv>) -> Result<Jv, AllocError>
    ensures { IfOk result (λ tree. tree ≡ map_jv entries.entries) }
{
    let mut members = Vec::new(alloc);
    for (key, value) in entries {
        members.push(Member { key, value })?;
    }
    Ok(Jv::Map(Seq::from_vec(members)))
}
