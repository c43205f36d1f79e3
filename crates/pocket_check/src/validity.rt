// What is wrong with a record, by the table of cases.
ghost use Rattle.std.specs.Prelude.{◌≡◌, ◌≤◌, ◌++◌, [], IfOk, IsTrue, Some};
ghost use Rattle.std.specs.List.{cons_option};
ghost use Rattle.pocket_types.specs.Sound.{IsSoundCollection};
ghost use Rattle.pocket_tables.specs.Reads.{IsSingle};
ghost use Rattle.pocket_tables.specs.Worlds.{collection_at};
ghost use Rattle.pocket_check.specs.Validity.{code_of, faults_of, field_fault};

use crate::ranges::{is_above, is_below, is_over, is_too_big, is_unknown, is_zero_cell};
use crate::taken::{is_missing, is_taken};
use pocket_tables::Tables;
use pocket_types::{Cell, Code, Collection, Field, FieldFault, Rec, Seq, Steps};
use std::alloc::{AllocError, Global};
use std::sync::ledger::Ledger;

/// The first case of the table that applies to a field's cell.
fn code_of<L: Ledger>(
    alloc: Global,
    tables: &Tables,
    collection: &Collection,
    rec: &Rec,
    field: &Field,
    cell: &Cell,
    is_zero: bool,
    steps: &mut Steps<L>,
) -> Result<Option<Code>, AllocError>
    requires there { collection_at tables.now.world collection.now.name ≡ Some collection.now }
    requires single { IsTrue field.now.unique → IsSingle collection.now field.now.name }
    ensures code { IfOk result (λ code. code ≡ code_of tables.now.world collection.now rec.now field.now cell.now is_zero) }
    ensures steps { steps.old ≤ steps.new }
{
    if is_over(cell) {
        return Ok(Some(Code::Range));
    }
    if field.required && is_zero {
        return Ok(Some(Code::Required));
    }
    if !is_zero && is_below(&field.kind, cell) {
        return Ok(Some(Code::Min));
    }
    if (!is_zero && is_above(&field.kind, cell)) || is_too_big(alloc, &field.kind, cell)? {
        return Ok(Some(Code::Max));
    }
    if is_unknown(&field.kind, cell) {
        return Ok(Some(Code::Value));
    }
    if is_missing(tables, &field.kind, cell, steps) {
        return Ok(Some(Code::Missing));
    }
    if field.unique && !is_zero && is_taken(alloc, tables, collection, rec, field, cell, steps)? {
        return Ok(Some(Code::Taken));
    }
    Ok(None)
}

/// What is wrong with a field's cell.
fn field_fault<L: Ledger>(
    alloc: Global,
    tables: &Tables,
    collection: &Collection,
    rec: &Rec,
    field: &Field,
    cell: &Cell,
    steps: &mut Steps<L>,
) -> Result<Option<FieldFault>, AllocError>
    requires there { collection_at tables.now.world collection.now.name ≡ Some collection.now }
    requires single { IsTrue field.now.unique → IsSingle collection.now field.now.name }
    ensures fault { IfOk result (λ fault. fault ≡ field_fault tables.now.world collection.now rec.now (field.now, cell.now)) }
    ensures steps { steps.old ≤ steps.new }
{
    let is_zero = is_zero_cell(cell);
    match code_of(alloc, tables, collection, rec, field, cell, is_zero, steps)? {
        Some(code) => {
            let field = field.name.clone()?;
            Ok(Some(FieldFault { field, code }))
        }
        None => Ok(None),
    }
}

/// Adds a fault, where there is one.
fn push_fault(found: &mut Seq<FieldFault>, fault: Option<FieldFault>) -> Result<(), AllocError>
    ensures { IfOk result (λ _. found.new ≡ found.old ++ cons_option fault []) }
{
    match fault {
        Some(fault) => found.push(fault),
        None => Ok(()),
    }
}

/// What is wrong with a record, field by field, in the order of the fields: of each field the first case of the table that applies.
pub fn faults<L: Ledger>(
    alloc: Global,
    tables: &Tables,
    collection: &Collection,
    rec: &Rec,
    steps: &mut Steps<L>,
) -> Result<Seq<FieldFault>, AllocError>
    requires there { collection_at tables.now.world collection.now.name ≡ Some collection.now }
    requires sound { IsSoundCollection collection.now }
    ensures faults { IfOk result (λ found. found ≡ faults_of tables.now.world collection.now rec.now) }
    ensures steps { steps.old ≤ steps.new }
{
    let fields = collection.fields.as_slice();
    let mut found = Seq::new(alloc);
    for (field, cell) in fields.iter().zip(rec.cells.as_slice()) {
        let fault = field_fault(alloc, tables, collection, rec, field, cell, steps)?;
        push_fault(&mut found, fault)?;
    }
    Ok(found)
}
