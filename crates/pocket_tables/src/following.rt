// Deltas that are applied one after the other, and undone by the stack of their inverses.
ghost use Rattle.std.specs.Prelude.{◌≡◌, ◌++◌, ◌∷◌, [], reverse, OnErr, OnOk};
ghost use Rattle.pocket_types.specs.declared.world.World.{World};
ghost use Rattle.pocket_tables.specs.Deltas.{FitsWorld, inverse, world_after};
ghost use Rattle.pocket_tables.specs.Following.{AreReadyInTurn, LeadTo, world_after_all};
ghost use Rattle.pocket_tables.specs.Kept.{KeepsReady};

use crate::tables::Tables;
use pocket_types::Delta;
use std::alloc::{AllocError, Global};

/// Applies deltas that are ready, from the last to the first. It takes no memory.
pub fn go_back(tables: &mut Tables, deltas: Vec<Delta>)
    requires { AreReadyInTurn tables.old (reverse deltas.items) }
    ensures world { tables.new.world ≡ world_after_all (reverse deltas.items) tables.old.world }
    ensures kept { KeepsReady tables.old tables.new }
{
    let mut left = deltas;
    while let Some(delta) = left.pop() {
        let _redone = tables.apply(delta);
    }
}

/// Applies a delta, and puts its inverse on the stack of those that undo it and what was before it. For want of memory the world and
/// the stack stay.
pub fn apply_next(
    alloc: Global,
    tables: &mut Tables,
    inverses: &mut Vec<Delta>,
    delta: Delta,
) -> Result<(), AllocError>
    requires { FitsWorld delta tables.old.world }
    ensures world { OnOk result (tables.new.world ≡ world_after delta tables.old.world) }
    ensures stack { OnOk result (inverses.new.items ≡ inverses.old.items ++ inverse delta tables.old.world ∷ []) }
    ensures err { OnErr result (tables.new.world ≡ tables.old.world) }
    ensures err_stack { OnErr result (inverses.new.items ≡ inverses.old.items) }
    ensures back { (w : World) → LeadTo tables.old (reverse inverses.old.items) w → LeadTo tables.new (reverse inverses.new.items) w }
    ensures kept { KeepsReady tables.old tables.new }
{
    // the inverse has its place before the delta is applied, so that it can't be lost
    inverses.reserve(1)?;
    tables.reserve(alloc, &delta)?;
    inverses.push_reserved(tables.apply(delta));
    Ok(())
}
