// What is shown of a record.
ghost use Rattle.std.specs.Prelude.{◌≡◌, ◌≤◌, IfOk, Some, option_map};
ghost use Rattle.std.specs.Option.{option_copied};
ghost use Rattle.pocket_types.specs.Within.{collections_of};
ghost use Rattle.pocket_json.specs.Choosing.{paths_of};
ghost use Rattle.pocket_resolve.specs.Fields.{collection_named};
ghost use Rattle.pocket_gate.specs.Built.{rules_of};
ghost use Rattle.pocket_core.specs.Showing.{cut_by, display_of, displayed, shown_jv};

use pocket_api::Shown;
use pocket_expand::{Names, expand_names, names_of};
use pocket_gate::Rules;
use pocket_json::{FieldPaths, choose_paths, field_paths};
use pocket_tables::Tables;
use pocket_types::{Ask, Collection, Jv, Rec, Steps, Text};
use std::alloc::{AllocError, Global};
use std::sync::ledger::Ledger;

/// What a request asks to be shown of records, its texts read.
#[derive(Drop)]
pub(crate) struct Display {
    pub(crate) names: Names,
    pub(crate) paths: Option<FieldPaths>,
}

fn paths_of(alloc: Global, fields: Option<&Text>) -> Result<Option<FieldPaths>, AllocError>
    ensures { IfOk result (λ paths. paths ≡ option_map paths_of (option_copied fields.entry)) }
{
    match fields {
        Some(text) => Ok(Some(field_paths(alloc, text)?)),
        None => Ok(None),
    }
}

/// What these texts ask to be shown: the names of related records, and the paths of fields.
pub(crate) fn display_of(
    alloc: Global,
    expand: Option<&Text>,
    fields: Option<&Text>,
) -> Result<Display, AllocError>
    ensures { IfOk result (λ display. display ≡ display_of record { expand = option_copied expand.entry; fields = option_copied fields.entry }) }
{
    let names = names_of(alloc, expand)?;
    let paths = paths_of(alloc, fields)?;
    Ok(Display { names, paths })
}

/// A tree cut down to the paths of fields, where there are any.
fn cut_by(alloc: Global, paths: &Option<FieldPaths>, tree: Jv) -> Result<Jv, AllocError>
    ensures { IfOk result (λ cut. cut ≡ cut_by paths.now tree) }
{
    match paths {
        Some(paths) => {
            let cut = choose_paths(alloc, &tree, paths);
            drop(tree);
            cut
        }
        None => Ok(tree),
    }
}

/// A record as its caller is shown it.
pub(crate) fn display_rec<L: Ledger>(
    alloc: Global,
    tables: &Tables,
    rules: &Rules,
    ask: &Ask,
    collection: &Collection,
    display: &Display,
    rec: &Rec,
    steps: &mut Steps<L>,
) -> Result<Jv, AllocError>
    requires rules { rules.now ≡ rules_of (collections_of tables.now.world) }
    requires there { collection_named (collections_of tables.now.world) collection.now.name ≡ Some collection.now }
    ensures tree { IfOk result (λ tree. tree ≡ displayed tables.now.world ask.now collection.now display.now rec.now) }
    ensures steps { steps.old ≤ steps.new }
{
    let tree = expand_names(
        alloc,
        tables,
        rules,
        ask,
        collection,
        rec,
        &display.names,
        steps,
    )?;
    cut_by(alloc, &display.paths, tree)
}

/// A record as its caller is shown it, by the texts of its request.
pub(crate) fn shown_rec<L: Ledger>(
    alloc: Global,
    tables: &Tables,
    rules: &Rules,
    ask: &Ask,
    collection: &Collection,
    shown: &Shown,
    rec: &Rec,
    steps: &mut Steps<L>,
) -> Result<Jv, AllocError>
    requires rules { rules.now ≡ rules_of (collections_of tables.now.world) }
    requires there { collection_named (collections_of tables.now.world) collection.now.name ≡ Some collection.now }
    ensures tree { IfOk result (λ tree. tree ≡ shown_jv tables.now.world ask.now collection.now shown.now rec.now) }
    ensures steps { steps.old ≤ steps.new }
{
    let display = display_of(alloc, shown.expand.as_ref(), shown.fields.as_ref())?;
    let tree = display_rec(alloc, tables, rules, ask, collection, &display, rec, steps);
    drop(display);
    tree
}
