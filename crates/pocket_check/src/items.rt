// Lists of items without repeats, and without those of another list.
ghost use Rattle.std.specs.Prelude.{◌≡◌, [], ◌∷◌, ◌++◌, filter, if◌then◌else◌, IfOk};
ghost use Rattle.pocket_types.specs.Lists.{once};
ghost use Rattle.pocket_check.specs.Bodies.{items_without};
ghost use Rattle.pocket_check.specs.Cells.{is_filled, items_in};
ghost use Rattle.pocket_check.specs.TextSets.{IsSetOf};

use pocket_ops::Item;
use pocket_types::{Faithful, Seq, Text, copied_items};
use std::alloc::{AllocError, Global};
use std::collections::BTreeSet;

/// The texts of items, to be looked up.
fn text_set<'a, T: Item>(alloc: Global, items: &'a [T]) -> Result<BTreeSet<&'a str>, AllocError>
    ensures { IfOk result (λ set. IsSetOf set (T.texts items.now)) }
{
    let mut set = BTreeSet::new(alloc);
    for item in items {
        set.insert(item.as_str())?;
    }
    Ok(set)
}

/// Adds a copy of an item, where it is wanted.
fn push_where<T: Faithful>(kept: &mut Vec<T>, wanted: bool, item: &T) -> Result<(), AllocError>
    ensures { IfOk result (λ _. kept.new.items ≡ kept.old.items ++ (if wanted then item.now ∷ [] else [])) }
{
    if wanted {
        kept.push(item.clone()?)?;
    }
    Ok(())
}

/// Each item once, at its first place.
pub fn once<T: Item + Faithful>(alloc: Global, items: &[T]) -> Result<Seq<T>, AllocError>
    ensures { IfOk result (λ kept. T.texts kept ≡ once (T.texts items.now)) }
{
    let mut seen = BTreeSet::new(alloc);
    let mut kept = Vec::new(alloc);
    for item in items {
        let is_new = seen.insert(item.as_str())?;
        push_where(&mut kept, is_new, item)?;
    }
    Ok(Seq::from_vec(kept))
}

/// The items of a list and of a second behind it, each once.
pub fn joined<T: Item + Faithful>(
    alloc: Global,
    first: &[T],
    second: &[T],
) -> Result<Seq<T>, AllocError>
    ensures { IfOk result (λ kept. T.texts kept ≡ once (T.texts first.now ++ T.texts second.now)) }
{
    let mut items = copied_items(alloc, first)?;
    for item in second {
        items.push(item.clone()?)?;
    }
    once(alloc, items.as_slice())
}

/// The items that aren't in the other list.
pub fn items_without<T: Item + Faithful>(
    alloc: Global,
    items: &[T],
    gone: &[T],
) -> Result<Seq<T>, AllocError>
    ensures { IfOk result (λ left. T.texts left ≡ items_without (T.texts items.now) (T.texts gone.now)) }
{
    let gone = text_set(alloc, gone)?;
    let mut left = Vec::new(alloc);
    for item in items {
        let is_gone = gone.contains(item.as_str());
        push_where(&mut left, !is_gone, item)?;
    }
    Ok(Seq::from_vec(left))
}

/// The texts that aren't empty.
fn filled(alloc: Global, texts: &[Text]) -> Result<Seq<Text>, AllocError>
    ensures { IfOk result (λ kept. kept ≡ filter is_filled texts.now) }
{
    let mut kept = Vec::new(alloc);
    for text in texts {
        if !text.as_str().is_empty() {
            kept.push(text.clone()?)?;
        }
    }
    Ok(Seq::from_vec(kept))
}

/// The items that texts are: the empty text is none, and each keeps its first place.
pub fn items_in(alloc: Global, texts: &[Text]) -> Result<Seq<Text>, AllocError>
    ensures { IfOk result (λ items. items ≡ items_in texts.now) }
{
    let texts = filled(alloc, texts)?;
    once(alloc, texts.as_slice())
}
