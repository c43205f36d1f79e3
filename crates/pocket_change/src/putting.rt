// A record put into the tables and taken out again.
ghost use Rattle.std.specs.Prelude.{◌≡◌, Err, IfOk, MatchResult, Ok, OnErr, Some};
ghost use Rattle.pocket_types.specs.Within.{collections_of};
ghost use Rattle.pocket_tables.specs.Deltas.{FitsWorld, inverse, world_after};
ghost use Rattle.pocket_tables.specs.Kept.{IsReady, KeepsReady};
ghost use Rattle.pocket_tables.specs.Worlds.{MayStand, collection_at, rec_at};
ghost use Rattle.pocket_change.specs.Changes.{puts};

use crate::fault::ChangeFault;
use pocket_tables::Tables;
use pocket_tables::laws::{deltas_are_made_at_once, record_changes_fit};
use pocket_types::{Delta, Name, Rec, RecChange, Seq};
use std::alloc::{AllocError, Global};

/// The delta that puts one record.
fn put_of(alloc: Global, collection: &Name, rec: Rec) -> Result<Delta, AllocError>
    ensures { IfOk result (λ d. d ≡ puts collection.now rec) }
{
    let id = rec.id;
    let collection = collection.clone()?;
    let mut recs = Seq::new(alloc);
    recs.push(RecChange {
        collection,
        id,
        after: Some(rec),
    })?;
    Ok(Delta {
        shelves: Seq::new(alloc),
        recs,
    })
}

/// Puts a record in, and gives the delta that takes it out again.
pub(crate) fn put_in(
    alloc: Global,
    tables: &mut Tables,
    collection: &Name,
    rec: Rec,
) -> Result<Delta, AllocError>
    requires { MayStand (collection_at tables.old.world collection.now) rec }
    ensures collections { collections_of tables.new.world ≡ collections_of tables.old.world }
    ensures world { IfOk result (λ _. tables.new.world ≡ world_after (puts collection.now rec) tables.old.world) }
    ensures found { IfOk result (λ _. rec_at tables.new.world collection.now rec.id ≡ Some rec) }
    ensures again { IfOk result (λ back. inverse back tables.new.world ≡ puts collection.now rec) }
    ensures undone { IfOk result (λ back. world_after back tables.new.world ≡ tables.old.world) }
    ensures fits { IfOk result (λ back. FitsWorld back tables.new.world) }
    ensures ready { IfOk result (λ back. IsReady tables.new back) }
    ensures failed { OnErr result (tables.new.world ≡ tables.old.world) }
    ensures kept { KeepsReady tables.old tables.new }
{
    record_changes_fit();
    deltas_are_made_at_once();
    tables.collections();
    let delta = match put_of(alloc, collection, rec) {
        Ok(delta) => delta,
        Err(_) => return Err(AllocError),
    };
    match tables.reserve(alloc, &delta) {
        Ok(()) => Ok(tables.apply(delta)),
        Err(_) => Err(AllocError),
    }
}

/// Takes out what was put in, and gives the delta that puts it in again where it was judged well.
pub(crate) fn take_back(
    tables: &mut Tables,
    back: Delta,
    judged: Result<(), ChangeFault>,
) -> Result<Delta, ChangeFault>
    requires fits { FitsWorld back tables.old.world }
    requires ready { IsReady tables.old back }
    ensures world { tables.new.world ≡ world_after back tables.old.world }
    ensures delta { MatchResult judged (λ _. result ≡ Ok (inverse back tables.old.world)) (λ e. result ≡ Err e) }
    ensures fits { IfOk result (λ d. FitsWorld d tables.new.world) }
    ensures ready { IfOk result (λ d. IsReady tables.new d) }
    ensures kept { KeepsReady tables.old tables.new }
{
    let delta = tables.apply(back);
    match judged {
        Ok(()) => Ok(delta),
        Err(fault) => Err(fault),
    }
}
