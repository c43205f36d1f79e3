// Copies of cells and of requests.
ghost use Rattle.std.specs.Prelude.{◌≡◌, IfOk};
ghost use Rattle.pocket_types.specs.declared.requests.Ask.{Ask};

use pocket_ops::copied_tree;
use pocket_types::{Ask, Caller, Cell, Pair, Sent, Seq};
use std::alloc::{AllocError, Global};

/// A copy of a cell.
pub(crate) fn copied_cell(alloc: Global, cell: &Cell) -> Result<Cell, AllocError>
    ensures { IfOk result (λ copy. copy ≡ cell.now) }
{
    match cell {
        Cell::Text(text) => Ok(Cell::Text(text.clone()?)),
        Cell::Num(n) => Ok(Cell::Num(*n)),
        Cell::Flag(flag) => Ok(Cell::Flag(*flag)),
        Cell::Date(moment) => Ok(Cell::Date(*moment)),
        Cell::Picks(items) => Ok(Cell::Picks(items.clone()?)),
        Cell::Json(tree) => Ok(Cell::Json(copied_tree(alloc, tree)?)),
        Cell::Refs(ids) => Ok(Cell::Refs(ids.clone()?)),
    }
}

/// A copy of a caller.
fn copied_caller(caller: &Caller) -> Result<Caller, AllocError>
    ensures { IfOk result (λ copy. copy ≡ caller.now) }
{
    match caller {
        Caller::Guest => Ok(Caller::Guest),
        Caller::Member(name, id) => Ok(Caller::Member(name.clone()?, *id)),
        Caller::Admin => Ok(Caller::Admin),
    }
}

/// A copy of pairs.
fn copied_pairs(alloc: Global, pairs: &Seq<Pair>) -> Result<Seq<Pair>, AllocError>
    ensures { IfOk result (λ copies. copies ≡ pairs.now) }
{
    let mut copies = Seq::new(alloc);
    for pair in pairs.as_slice() {
        let name = pair.name.clone()?;
        let value = pair.value.clone()?;
        copies.push(Pair { name, value })?;
    }
    Ok(copies)
}

/// A copy of a request, with other fields in its body.
pub(crate) fn ask_with(alloc: Global, ask: &Ask, body: Seq<Sent>) -> Result<Ask, AllocError>
    ensures { IfOk result (λ copy. copy ≡ record ask.now { body = body }) }
{
    let caller = copied_caller(&ask.caller)?;
    let headers = copied_pairs(alloc, &ask.headers)?;
    let query = copied_pairs(alloc, &ask.query)?;
    Ok(Ask {
        caller,
        method: ask.method,
        context: ask.context,
        headers,
        query,
        body,
        moment: ask.moment,
    })
}
