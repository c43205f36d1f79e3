// The cells that values of JSON are.
ghost use Rattle.std.specs.Prelude.{◌≡◌, [], ◌∷◌, option_map, option_and_then, All, IfOk};
ghost use Rattle.std.specs.Option.{option_copied};
ghost use Rattle.pocket_types.specs.declared.json.Jv.{out-Jv};
ghost use Rattle.pocket_types.specs.Sound.{IsCellTree};
ghost use Rattle.pocket_rows.specs.FieldReading.{flag_in, list_in, may_be_date, read_all};
ghost use Rattle.pocket_check.specs.Cells.{cell_of, given_cell, is_null, num_in, only_ids, text_of, zero_cell, zero_cells};
ghost use Rattle.pocket_check.specs.Cells as cells;
ghost use Rattle.pocket_types.specs.declared.records.Cell.TheVariants as cell;
ghost use Rattle.pocket_types.specs.Kinds.{is_multiple};

use crate::items::items_in;
use pocket_ops::copied_tree;
use pocket_rows::{date_of_text, ids_of, texts_of};
use pocket_types::{Cell, Collection, Jv, Kind, Seq, Text};
use std::alloc::{AllocError, Global};

/// The cell of a field that was never set.
fn zero_cell(alloc: Global, kind: &Kind) -> Cell
    ensures { result ≡ zero_cell kind.now }
{
    match kind {
        Kind::Text { .. } => Cell::Text(Text::from_string(String::new(alloc))),
        Kind::Number { .. } => Cell::Num(0),
        Kind::Flag => Cell::Flag(false),
        Kind::Date { .. } => Cell::Date(None),
        Kind::Select { .. } => Cell::Picks(Seq::new(alloc)),
        Kind::Json { .. } => Cell::Json(Jv::Null),
        Kind::Relation { .. } => Cell::Refs(Seq::new(alloc)),
    }
}

/// The cells of a collection's fields that were never set.
pub fn zero_cells(alloc: Global, collection: &Collection) -> Result<Seq<Cell>, AllocError>
    ensures { IfOk result (λ cells. cells ≡ zero_cells collection.now) }
{
    let mut cells = Vec::new(alloc);
    for field in collection.fields.as_slice() {
        cells.push(zero_cell(alloc, &field.kind))?;
    }
    Ok(Seq::from_vec(cells))
}

fn is_null(tree: &Jv) -> bool
    ensures { result ≡ is_null (out-Jv tree.now) }
{
    matches!(tree, Jv::Null)
}

/// The texts of a list.
fn listed(alloc: Global, trees: &[Jv]) -> Result<Option<Seq<Text>>, AllocError>
    requires { All IsCellTree trees.now }
    ensures { IfOk result (λ found. found ≡ read_all text_of trees.now) }
{
    texts_of(alloc, trees)
}

/// A list of one text.
fn alone(alloc: Global, text: &str) -> Result<Seq<Text>, AllocError>
    ensures { IfOk result (λ texts. texts ≡ text.now ∷ []) }
{
    let mut texts = Seq::new(alloc);
    texts.push(Text::from_str(alloc, text)?)?;
    Ok(texts)
}

/// The values of a list.
fn list_in(tree: &Jv) -> Option<&[Jv]>
    ensures { option_copied result ≡ list_in (out-Jv tree.now) }
{
    match tree {
        Jv::List(trees) => Some(trees.as_slice()),
        _ => None,
    }
}

/// The texts of a value that is a list of them.
fn texts_of_list(alloc: Global, tree: &Jv) -> Result<Option<Seq<Text>>, AllocError>
    requires { IsCellTree tree.now }
    ensures { IfOk result (λ found. found ≡ option_and_then (read_all text_of) (list_in (out-Jv tree.now))) }
{
    match list_in(tree) {
        Some(trees) => listed(alloc, trees),
        None => Ok(None),
    }
}

/// The texts of a select or relation: one, or a list where several may stand.
fn texts_given(alloc: Global, several: bool, tree: &Jv) -> Result<Option<Seq<Text>>, AllocError>
    requires { IsCellTree tree.now }
    ensures { IfOk result (λ found. found ≡ cells.texts_of several tree.now) }
{
    match tree {
        Jv::Text(text) => Ok(Some(alone(alloc, text.as_str())?)),
        Jv::List(_) => if several {
            texts_of_list(alloc, tree)
        } else {
            Ok(None)
        },
        _ => Ok(None),
    }
}

fn text_cell(alloc: Global, tree: &Jv) -> Result<Option<Cell>, AllocError>
    ensures { IfOk result (λ found. found ≡ option_map (λ t. cell.Text t) (text_of tree.now)) }
{
    match tree {
        Jv::Text(text) => Ok(Some(Cell::Text(text.clone()?))),
        _ => Ok(None),
    }
}

fn number_cell(tree: &Jv) -> Option<Cell>
    ensures { result ≡ option_map (λ n. cell.Num n) (num_in (out-Jv tree.now)) }
{
    match tree {
        Jv::Num(n) => Some(Cell::Num(*n)),
        _ => None,
    }
}

fn flag_cell(tree: &Jv) -> Option<Cell>
    ensures { result ≡ option_map (λ b. cell.Flag b) (flag_in (out-Jv tree.now)) }
{
    match tree {
        Jv::Flag(flag) => Some(Cell::Flag(*flag)),
        _ => None,
    }
}

fn date_cell(tree: &Jv) -> Option<Cell>
    ensures { result ≡ option_map (λ d. cell.Date d) (option_and_then may_be_date (text_of tree.now)) }
{
    match tree {
        Jv::Text(text) => match date_of_text(text.as_str()) {
            Some(date) => Some(Cell::Date(date)),
            None => None,
        },
        _ => None,
    }
}

/// The items of a select.
fn picks_cell(alloc: Global, kind: &Kind, tree: &Jv) -> Result<Option<Cell>, AllocError>
    requires { IsCellTree tree.now }
    ensures { IfOk result (λ found. found ≡ option_map (λ texts. cell.Picks (cells.items_in texts)) (cells.texts_of (is_multiple kind.now) tree.now)) }
{
    match texts_given(alloc, kind.is_multiple(), tree)? {
        Some(texts) => Ok(Some(Cell::Picks(items_in(alloc, texts.as_slice())?))),
        None => Ok(None),
    }
}

/// The ids of a relation, where each item is one.
fn only_ids(alloc: Global, items: &[Text]) -> Result<Option<Cell>, AllocError>
    ensures { IfOk result (λ found. found ≡ only_ids items.now) }
{
    match ids_of(alloc, items)? {
        Some(ids) => Ok(Some(Cell::Refs(ids))),
        None => Ok(None),
    }
}

/// The ids of a relation.
fn refs_cell(alloc: Global, kind: &Kind, tree: &Jv) -> Result<Option<Cell>, AllocError>
    requires { IsCellTree tree.now }
    ensures { IfOk result (λ found. found ≡ option_and_then (λ texts. only_ids (cells.items_in texts)) (cells.texts_of (is_multiple kind.now) tree.now)) }
{
    match texts_given(alloc, kind.is_multiple(), tree)? {
        Some(texts) => {
            let items = items_in(alloc, texts.as_slice())?;
            only_ids(alloc, items.as_slice())
        }
        None => Ok(None),
    }
}

/// The cell of a value that isn't null.
fn given_cell(alloc: Global, kind: &Kind, tree: &Jv) -> Result<Option<Cell>, AllocError>
    requires { IsCellTree tree.now }
    ensures { IfOk result (λ found. found ≡ given_cell kind.now tree.now) }
{
    match kind {
        Kind::Text { .. } => text_cell(alloc, tree),
        Kind::Number { .. } => Ok(number_cell(tree)),
        Kind::Flag => Ok(flag_cell(tree)),
        Kind::Date { .. } => Ok(date_cell(tree)),
        Kind::Select { .. } => picks_cell(alloc, kind, tree),
        Kind::Json { .. } => Ok(Some(Cell::Json(copied_tree(alloc, tree)?))),
        Kind::Relation { .. } => refs_cell(alloc, kind, tree),
    }
}

/// The cell of a value, where a field of this kind accepts it: null is the zero value.
pub fn cell_of(alloc: Global, kind: &Kind, tree: &Jv) -> Result<Option<Cell>, AllocError>
    requires { IsCellTree tree.now }
    ensures { IfOk result (λ found. found ≡ cell_of kind.now tree.now) }
{
    if is_null(tree) {
        Ok(Some(zero_cell(alloc, kind)))
    } else {
        given_cell(alloc, kind, tree)
    }
}
