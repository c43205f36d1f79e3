// The items of selects and relations, read from their trees.
ghost use Rattle.std.specs.Prelude.{◌≡◌, ◌≢◌, ◌↔◌, ◌≤◌, ℕ, List, All, Contains, IfOk, IsTrue, MatchOption, map, length};
ghost use Rattle.pocket_types.specs.Names.{is_id};
ghost use Rattle.pocket_ops.specs.Trees.{text_jv, list_jv, one_jv};
ghost use Rattle.pocket_rows.specs.Cells.{AreFilled, IsNoItem, AreNoItems, MayBeItems};
ghost use Rattle.pocket_rows.specs.FieldReading.{read_all, text_read};
ghost use Rattle.pocket_types.specs.Sound.{Differ, IsItem};

use crate::scalars::text_of;
use pocket_types::{Id, Jv, Seq, Text};
use std::alloc::{AllocError, Global};
use std::collections::BTreeSet;

/// The text of an item, which isn't empty.
fn item_of(tree: &Jv) -> Option<&str>
    ensures { MatchOption result (IsNoItem tree.now) (λ text. IsItem text.now × (tree.now ≡ text_jv text.now)) }
{
    match tree {
        Jv::Text(text) => if text.as_str().is_empty() {
            None
        } else {
            Some(text.as_str())
        },
        _ => None,
    }
}

/// The items of a list.
fn listed(alloc: Global, trees: &[Jv]) -> Result<Option<Seq<Text>>, AllocError>
    ensures { IfOk result (λ found. MatchOption found
        ((items : List (List ℕ)) → AreFilled items → trees.now ≢ map text_jv items)
        (λ items. All IsItem items × (trees.now ≡ map text_jv items))) }
{
    let mut items = Vec::new(alloc);
    for tree in trees {
        let Some(item) = item_of(tree) else {
            return Ok(None);
        };
        items.push(Text::from_str(alloc, item)?)?;
    }
    Ok(Some(Seq::from_vec(items)))
}

/// The texts of a list.
pub fn texts_of(alloc: Global, trees: &[Jv]) -> Result<Option<Seq<Text>>, AllocError>
    ensures { IfOk result (λ found. found ≡ read_all text_read trees.now) }
{
    let mut texts = Vec::new(alloc);
    for tree in trees {
        let Some(text) = text_of(tree) else {
            return Ok(None);
        };
        texts.push(Text::from_str(alloc, text)?)?;
    }
    Ok(Some(Seq::from_vec(texts)))
}

/// Whether no item stands twice.
fn differ(alloc: Global, items: &[Text]) -> Result<bool, AllocError>
    ensures { IfOk result (λ r. IsTrue r ↔ Differ items.now) }
{
    let mut seen = BTreeSet::new(alloc);
    for item in items {
        if !seen.insert(item.as_str())? {
            return Ok(false);
        }
    }
    Ok(true)
}

/// The items of a field that may hold several.
fn several_of(alloc: Global, tree: &Jv) -> Result<Option<Seq<Text>>, AllocError>
    ensures { IfOk result (λ found. MatchOption found
        ((items : List (List ℕ)) → AreFilled items → Differ items → tree.now ≢ list_jv (map text_jv items))
        (λ items. All IsItem items × Differ items × (tree.now ≡ list_jv (map text_jv items)))) }
{
    let Jv::List(trees) = tree else {
        return Ok(None);
    };
    let Some(items) = listed(alloc, trees.as_slice())? else {
        return Ok(None);
    };
    if differ(alloc, items.as_slice())? {
        Ok(Some(items))
    } else {
        Ok(None)
    }
}

/// The item, or none, of a field that may hold one.
fn one_of(alloc: Global, tree: &Jv) -> Result<Option<Seq<Text>>, AllocError>
    ensures { IfOk result (λ found. MatchOption found
        ((items : List (List ℕ)) → tree.now ≢ one_jv items)
        (λ items. All IsItem items × (length items ≤ 1) × ((others : List (List ℕ)) → AreFilled others → length others ≤ 1 → tree.now ≡ one_jv others → others ≡ items))) }
{
    let Jv::Text(text) = tree else {
        return Ok(None);
    };
    let mut items = Seq::new(alloc);
    if !text.as_str().is_empty() {
        items.push(Text::from_str(alloc, text.as_str())?)?;
    }
    Ok(Some(items))
}

/// The items that may have a tree, in a field of at most so many. None only where no such items have it.
pub fn items_of(alloc: Global, most: u32, tree: &Jv) -> Result<Option<Seq<Text>>, AllocError>
    ensures { IfOk result (λ found. MatchOption found (AreNoItems most tree.now) (λ items. MayBeItems most tree.now items)) }
{
    if most > 1 {
        several_of(alloc, tree)
    } else {
        one_of(alloc, tree)
    }
}

/// The ids that texts spell. None exactly where one of them spells none.
pub fn ids_of(alloc: Global, texts: &[Text]) -> Result<Option<Seq<Id>>, AllocError>
    ensures { IfOk result (λ found. MatchOption found
        (¬ All (λ text. IsTrue (is_id text)) texts.now)
        (λ ids. (ids ≡ texts.now) × All (λ text. IsTrue (is_id text)) texts.now)) }
{
    let mut ids = Vec::new(alloc);
    for text in texts {
        let Some(id) = Id::read(text.as_str()) else {
            return Ok(None);
        };
        ids.push(id)?;
    }
    Ok(Some(Seq::from_vec(ids)))
}
