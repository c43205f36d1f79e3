// A delta applied to collections, drawers and totals together.
ghost use Rattle.std.specs.Prelude.{◌≡◌, vec_capacity};
ghost use Rattle.pocket_tables.specs.Deltas.{FitsWorld};
ghost use Rattle.pocket_tables.specs.Inside.{AreTables, world_of};
ghost use Rattle.pocket_tables.specs.Swaps.{AreSwapped, CanSwap};
ghost use Rattle.pocket_tables.specs.Tallies.{TellAll};

use crate::drawers::Drawer;
use crate::swaps::swap_all;
use crate::tallies::{tally_after, tally_changed};
use crate::totals::Totals;
use pocket_types::{Collection, Delta};

/// Makes all changes of a delta, carries the totals over, and gives the delta that undoes it.
pub(crate) fn make_changes(
    collections: &mut Vec<Collection>,
    drawers: &mut Vec<Drawer>,
    totals: &mut Totals,
    delta: Delta,
) -> Delta
    requires tables { AreTables collections.old.items drawers.old.items }
    requires told { TellAll totals.old collections.old.items drawers.old.items }
    requires fits { FitsWorld delta (world_of collections.old.items drawers.old.items) }
    requires room { CanSwap collections.old.items drawers.old.items (vec_capacity collections.old) delta }
    ensures swapped { AreSwapped collections.old.items collections.new.items drawers.old.items drawers.new.items delta result }
    ensures capacity { vec_capacity collections.new ≡ vec_capacity collections.old }
    ensures told { TellAll totals.new collections.new.items drawers.new.items }
{
    let leaving = tally_changed(
        collections.as_slice(),
        drawers.as_slice(),
        delta.recs.as_slice(),
    );
    let back = swap_all(collections, drawers, delta);
    let coming = tally_changed(
        collections.as_slice(),
        drawers.as_slice(),
        back.recs.as_slice(),
    );
    *totals = tally_after(
        collections.as_slice(),
        drawers.as_slice(),
        *totals,
        leaving,
        coming,
    );
    back
}
