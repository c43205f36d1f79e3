// Sums over records: of all, of those that stand where changes are, and of all after a change.
ghost use Rattle.std.specs.Prelude.{◌≡◌, ◌+◌, ◌-◌, ◌<◌, ◌≤◌, ◌^◌, ℕ, All, IfSome, IsSome, sum_by};
ghost use Rattle.pocket_types.specs.Order.{Rises};
ghost use Rattle.pocket_ops.specs.Lengths.{HasOwnNames, held, row_len};
ghost use Rattle.pocket_tables.specs.Drawers.{AreRising, drawer_name, recs_in};
ghost use Rattle.pocket_tables.specs.Tallies.{IsExchange, Tell, TellAll, TellChanged, all_weigh, one_each, standing_weighs};
ghost use Rattle.pocket_tables.specs.Worlds.{name_of};

use crate::drawers::Drawer;
use crate::finding::{collection_under, recs_under};
use crate::reading::rec_among;
use crate::totals::Totals;
use pocket_ops::row_len;
use pocket_types::{Collection, Rec, RecChange};

impl Totals {
    /// No record.
    fn none() -> Totals
        ensures { Tell result 0 0 }
    {
        Totals {
            records: 0,
            bytes: 0,
        }
    }

    /// These and those.
    fn plus(self, other: Totals) -> Totals
        ensures records { result.records ≡ held (self.records + other.records) }
        ensures bytes { result.bytes ≡ held (self.bytes + other.bytes) }
    {
        Totals {
            records: self.records.saturating_add(other.records),
            bytes: self.bytes.saturating_add(other.bytes),
        }
    }
}

/// Totals of one record.
fn of_one(collection: &Collection, rec: &Rec) -> Totals
    requires { HasOwnNames collection.now }
    ensures { Tell result 1 (row_len collection.now rec.now) }
{
    Totals {
        records: 1,
        bytes: row_len(collection, rec),
    }
}

/// Totals of the records of one collection.
fn of_recs(collection: &Collection, recs: &[Rec]) -> Totals
    requires { HasOwnNames collection.now }
    ensures { Tell result (sum_by (one_each collection.now) recs.now) (sum_by (row_len collection.now) recs.now) }
{
    let mut totals = Totals::none();
    for rec in recs {
        totals = totals.plus(of_one(collection, rec));
    }
    totals
}

/// Totals of all records.
pub(crate) fn tally(collections: &[Collection], drawers: &[Drawer]) -> Totals
    requires names { Rises drawer_name drawers.now }
    requires own { All HasOwnNames collections.now }
    ensures { TellAll result collections.now drawers.now }
{
    let mut totals = Totals::none();
    for collection in collections {
        let recs = recs_under(drawers, &collection.name);
        totals = totals.plus(of_recs(collection, recs));
    }
    totals
}

/// Totals of the record that stands where a change is, or of none.
fn of_standing(collections: &[Collection], drawers: &[Drawer], change: &RecChange) -> Totals
    requires names { Rises name_of collections.now }
    requires rising { AreRising drawers.now }
    requires own { All HasOwnNames collections.now }
    ensures { Tell result (standing_weighs one_each collections.now (recs_in drawers.now) change.now) (standing_weighs row_len collections.now (recs_in drawers.now) change.now) }
{
    let Some(collection) = collection_under(collections, &change.collection) else {
        return Totals::none();
    };
    match rec_among(recs_under(drawers, &change.collection), change.id) {
        Some(rec) => of_one(collection, rec),
        None => Totals::none(),
    }
}

/// Totals of the records that stand where changes are.
pub(crate) fn tally_changed(
    collections: &[Collection],
    drawers: &[Drawer],
    changes: &[RecChange],
) -> Totals
    requires names { Rises name_of collections.now }
    requires rising { AreRising drawers.now }
    requires own { All HasOwnNames collections.now }
    ensures { TellChanged result collections.now drawers.now changes.now }
{
    let mut totals = Totals::none();
    for change in changes {
        totals = totals.plus(of_standing(collections, drawers, change));
    }
    totals
}

/// A sum with a part taken out and another one put in. None where the sum is held, so that the rest isn't known.
fn exchanged(sum: u64, leaving: u64, coming: u64) -> Option<u64>
    ensures sum { (stay leave come : ℕ) → sum ≡ held (stay + leave) → leaving ≡ held leave → coming ≡ held come → IfSome result (λ n. n ≡ held (stay + come)) }
    ensures known { sum < 2 ^ 64 - 1 → leaving ≤ sum → IsSome result }
{
    if sum == u64::MAX {
        return None;
    }
    Some(sum.checked_sub(leaving)?.saturating_add(coming))
}

/// Totals with those of some records taken out and those of others put in. None where they are held.
fn exchanged_totals(before: Totals, leaving: Totals, coming: Totals) -> Option<Totals>
    ensures { (records bytes : ℕ) → IsExchange before leaving coming records bytes → IfSome result (λ totals. Tell totals records bytes) }
{
    let records = exchanged(before.records, leaving.records, coming.records)?;
    let bytes = exchanged(before.bytes, leaving.bytes, coming.bytes)?;
    Some(Totals { records, bytes })
}

/// Totals of all records after a change, from those before it and those of the records that left and came. Held sums are made anew.
pub(crate) fn tally_after(
    collections: &[Collection],
    drawers: &[Drawer],
    before: Totals,
    leaving: Totals,
    coming: Totals,
) -> Totals
    requires names { Rises drawer_name drawers.now }
    requires own { All HasOwnNames collections.now }
    requires exchange { IsExchange before leaving coming (all_weigh one_each collections.now (recs_in drawers.now)) (all_weigh row_len collections.now (recs_in drawers.now)) }
    ensures { TellAll result collections.now drawers.now }
{
    match exchanged_totals(before, leaving, coming) {
        Some(totals) => totals,
        None => tally(collections, drawers),
    }
}
