// The cell of a field, read from its tree.
ghost use Rattle.std.specs.Prelude.{◌≡◌, ◌≢◌, ℕ, ℤ, Bool, Option, List, IfOk, MatchOption};
ghost use Rattle.pocket_types.specs.declared.records.Kind.TheVariants as kind;
ghost use Rattle.pocket_ops.specs.Trees.{num_jv, flag_jv};
ghost use Rattle.pocket_rows.specs.Cells.{MayBeCell, ReadsCell};
ghost use Rattle.pocket_types.specs.Sound.{IsCellTree};

use crate::items::{ids_of, items_of};
use crate::scalars::{date_of_text, text_of};
use pocket_ops::copied_tree;
use pocket_types::{Cell, Jv, Kind, Text};
use std::alloc::{AllocError, Global};

/// A whole number.
fn number_of(tree: &Jv) -> Option<i64>
    requires { IsCellTree tree.now }
    ensures { MatchOption result ((n : ℤ) → tree.now ≢ num_jv n) (λ n. tree.now ≡ num_jv n) }
{
    match tree {
        Jv::Num(n) => Some(*n),
        _ => None,
    }
}

/// A flag.
fn flag_of(tree: &Jv) -> Option<bool>
    ensures { MatchOption result ((b : Bool) → tree.now ≢ flag_jv b) (λ b. tree.now ≡ flag_jv b) }
{
    match tree {
        Jv::Flag(flag) => Some(*flag),
        _ => None,
    }
}

fn text_cell(alloc: Global, tree: &Jv) -> Result<Option<Cell>, AllocError>
    ensures { IfOk result (λ found. (min max : ℕ) → ReadsCell (kind.Text min max) tree.now found) }
{
    match text_of(tree) {
        Some(text) => Ok(Some(Cell::Text(Text::from_str(alloc, text)?))),
        None => Ok(None),
    }
}

fn number_cell(tree: &Jv) -> Option<Cell>
    requires { IsCellTree tree.now }
    ensures { (min max : Option ℤ) → ReadsCell (kind.Number min max) tree.now result }
{
    match number_of(tree) {
        Some(n) => Some(Cell::Num(n)),
        None => None,
    }
}

fn flag_cell(tree: &Jv) -> Option<Cell>
    ensures { ReadsCell kind.Flag tree.now result }
{
    match flag_of(tree) {
        Some(flag) => Some(Cell::Flag(flag)),
        None => None,
    }
}

fn date_cell(tree: &Jv) -> Option<Cell>
    ensures { (min max : Option ℤ) → ReadsCell (kind.Date min max) tree.now result }
{
    let Some(text) = text_of(tree) else {
        return None;
    };
    match date_of_text(text) {
        Some(date) => Some(Cell::Date(date)),
        None => None,
    }
}

fn json_cell(alloc: Global, tree: &Jv) -> Result<Cell, AllocError>
    requires { IsCellTree tree.now }
    ensures { IfOk result (λ found. (max : ℕ) → MayBeCell (kind.Json max) tree.now found) }
{
    Ok(Cell::Json(copied_tree(alloc, tree)?))
}

/// The items of a select.
fn picks_cell(alloc: Global, most: u32, tree: &Jv) -> Result<Option<Cell>, AllocError>
    ensures { IfOk result (λ found. (values : List (List ℕ)) → ReadsCell (kind.Select values most) tree.now found) }
{
    match items_of(alloc, most, tree)? {
        Some(items) => Ok(Some(Cell::Picks(items))),
        None => Ok(None),
    }
}

/// The ids of a relation.
fn refs_cell(alloc: Global, most: u32, tree: &Jv) -> Result<Option<Cell>, AllocError>
    ensures { IfOk result (λ found. (target : List ℕ) (cascade : Bool) → ReadsCell (kind.Relation target most cascade) tree.now found) }
{
    let Some(items) = items_of(alloc, most, tree)? else {
        return Ok(None);
    };
    match ids_of(alloc, items.as_slice())? {
        Some(ids) => Ok(Some(Cell::Refs(ids))),
        None => Ok(None),
    }
}

/// The cell of a kind that may have a tree. None only where no such cell has it.
pub fn cell_of(alloc: Global, kind: &Kind, tree: &Jv) -> Result<Option<Cell>, AllocError>
    requires { IsCellTree tree.now }
    ensures { IfOk result (λ found. ReadsCell kind.now tree.now found) }
{
    match kind {
        Kind::Text { .. } => text_cell(alloc, tree),
        Kind::Number { .. } => Ok(number_cell(tree)),
        Kind::Flag => Ok(flag_cell(tree)),
        Kind::Date { .. } => Ok(date_cell(tree)),
        Kind::Select { most, .. } => picks_cell(alloc, *most, tree),
        Kind::Json { .. } => Ok(Some(json_cell(alloc, tree)?)),
        Kind::Relation { most, .. } => refs_cell(alloc, *most, tree),
    }
}
