// The JSON of cells.
ghost use Rattle.std.specs.Prelude.{◌≡◌, IfOk};
ghost use Rattle.pocket_ops.specs.Trees.{date_jv, items_jv, cell_jv};

use crate::copies::copied_tree;
use crate::items::Item;
use crate::trees::{flag_jv, moment_jv, text_jv, texts_jv};
use pocket_types::{Cell, Jv, Kind, Moment};
use std::alloc::{AllocError, Global};

/// A moment's text, or the empty text.
pub fn date_jv(alloc: Global, date: &Option<Moment>) -> Result<Jv, AllocError>
    ensures { IfOk result (λ tree. tree ≡ date_jv date.now) }
{
    match date {
        None => text_jv(alloc, ""),
        Some(moment) => moment_jv(alloc, moment),
    }
}

/// The items of a field that may hold so many.
fn items_jv<T: Item>(alloc: Global, most: u32, items: &[T]) -> Result<Jv, AllocError>
    ensures { IfOk result (λ tree. tree ≡ items_jv most (T.texts items.now)) }
{
    if most > 1 {
        return texts_jv(alloc, items);
    }
    match items {
        [] => text_jv(alloc, ""),
        [first, ..] => text_jv(alloc, first.as_str()),
    }
}

pub fn cell_jv(alloc: Global, kind: &Kind, cell: &Cell) -> Result<Jv, AllocError>
    ensures { IfOk result (λ tree. tree ≡ cell_jv kind.now cell.now) }
{
    match cell {
        Cell::Text(text) => text_jv(alloc, text.as_str()),
        Cell::Num(n) => Ok(Jv::Num(*n)),
        Cell::Flag(flag) => Ok(flag_jv(*flag)),
        Cell::Date(date) => date_jv(alloc, date),
        Cell::Picks(picks) => items_jv(alloc, kind.most(), picks.as_slice()),
        Cell::Json(tree) => copied_tree(alloc, tree),
        Cell::Refs(ids) => items_jv(alloc, kind.most(), ids.as_slice()),
    }
}
