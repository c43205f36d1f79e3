// The bodies of creations and updates, and the cells that they make.
ghost use Rattle.std.specs.Prelude.{◌≡◌, ◌≢◌, IfOk, IfSome};
ghost use Rattle.std.specs.Option.{option_copied, option_map_or};
ghost use Rattle.pocket_types.specs.Chains.{GivesAs, refuse_as};
ghost use Rattle.pocket_types.specs.Profile.{IsProfiled};
ghost use Rattle.pocket_types.specs.Sound.{AllFit, IsSoundCollection};
ghost use Rattle.pocket_gate.specs.Rules.{rule_for};
ghost use Rattle.pocket_gate.specs.declared.verdict.Verdict.TheVariants as verdict_is;
ghost use Rattle.pocket_check.specs.Bodies as defs;
ghost use Rattle.pocket_change.specs.Answers.{Gives};
ghost use Rattle.pocket_change.specs.Changes.{of_check};
ghost use Rattle.pocket_change.specs.Plans.{body_given};
ghost use Rattle.pocket_change.specs.declared.fault.ChangeFault.TheVariants as fault;

use crate::copies::copied_cell;
use crate::fault::ChangeFault;
use pocket_check::{CheckFault, given_id, read_body};
use pocket_gate::{Verdict, is_locked_for};
use pocket_meaning::sent_of;
use pocket_types::{Action, Ask, Caller, Cell, Collection, Id, Jv, Rec, Rule, Sent, Seq};
use std::alloc::{AllocError, Global};

/// The fault of a body in the words of a change.
fn told(fault: CheckFault) -> ChangeFault
    ensures { result ≡ of_check fault }
{
    match fault {
        CheckFault::BadBody => ChangeFault::BadBody,
        CheckFault::BadValue(name) => ChangeFault::BadValue(name),
        CheckFault::Memory => ChangeFault::Memory,
    }
}

/// Why nobody but the administrator may do this.
fn locked(collection: &Collection, action: Action) -> ChangeFault
    ensures { result ≢ fault.Memory → result ≡ fault.Denied (verdict_is.Locked collection.now.name action) }
{
    match collection.name.clone() {
        Ok(name) => ChangeFault::Denied(Verdict::Locked(name, action)),
        Err(_) => ChangeFault::Memory,
    }
}

/// The body of a change whose rule isn't locked.
pub(crate) fn body_of<'a>(
    ask: &Ask,
    action: Action,
    collection: &Collection,
    rule: &Rule,
    body: Option<&'a Jv>,
) -> Result<&'a Jv, ChangeFault>
    requires rule { rule.now ≡ rule_for action collection.now }
    requires profile { IfSome body (λ tree. IsProfiled tree.now) }
    ensures profile { IfOk result (λ tree. IsProfiled tree.now) }
    ensures body { GivesAs fault.Memory (λ tree. tree.now) result (body_given ask.now action collection.now (option_copied body.entry)) }
{
    if is_locked_for(&ask.caller, rule) {
        return Err(locked(collection, action));
    }
    match body {
        Some(tree) => Ok(tree),
        None => Err(ChangeFault::BadBody),
    }
}

/// The id that a body gives.
pub(crate) fn id_given(alloc: Global, tree: &Jv) -> Result<Option<Id>, ChangeFault>
    ensures { Gives result (refuse_as of_check (defs.given_id tree.now)) }
{
    match given_id(alloc, tree) {
        Ok(given) => Ok(given),
        Err(fault) => Err(told(fault)),
    }
}

/// The fields that a body sends.
pub(crate) fn fields_sent(
    alloc: Global,
    collection: &Collection,
    caller: &Caller,
    old: Option<&Rec>,
    tree: &Jv,
) -> Result<Seq<Sent>, ChangeFault>
    requires sound { IsSoundCollection collection.now }
    requires profile { IsProfiled tree.now }
    requires fit { IfSome old (λ r. AllFit collection.now.fields r.now.cells) }
    ensures { Gives result (refuse_as of_check (defs.sent caller.now collection.now (option_copied old.entry) tree.now)) }
{
    match read_body(alloc, collection, caller, old, tree) {
        Ok(fields) => Ok(fields),
        Err(fault) => Err(told(fault)),
    }
}

/// A cell that was sent, or else the old one.
fn cell_after(alloc: Global, sent: Option<&Sent>, old: &Cell) -> Result<Cell, AllocError>
    ensures { IfOk result (λ cell. cell ≡ option_map_or (λ s. s.cell) (option_copied sent.entry) old.now) }
{
    match sent {
        Some(sent) => copied_cell(alloc, &sent.cell),
        None => copied_cell(alloc, old),
    }
}

/// Old cells, with those that were sent in their places.
pub(crate) fn cells_with(
    alloc: Global,
    sent: &[Sent],
    collection: &Collection,
    old: &[Cell],
) -> Result<Seq<Cell>, AllocError>
    ensures { IfOk result (λ made. made ≡ defs.with_sent sent.now collection.now old.now) }
{
    let mut made = Vec::new(alloc);
    for (field, cell) in collection.fields.as_slice().iter().zip(old) {
        let cell = cell_after(alloc, sent_of(sent, &field.name), cell)?;
        made.push(cell)?;
    }
    Ok(Seq::from_vec(made))
}
