ghost use Rattle.std.specs.Prelude.{◌≡◌, ◌+◌, IfOk, IfSome, OnOk};
ghost use Rattle.std.specs.Option.{option_copied};
ghost use Rattle.pocket_types.specs.Within.{collections_of};
ghost use Rattle.pocket_types.specs.World.{lent_world};
ghost use Rattle.pocket_ops.specs.Lengths.{held};
ghost use Rattle.pocket_tables.specs.Deltas.{FitsWorld, inverse, world_after};
ghost use Rattle.pocket_tables.specs.Kept.{IsReady, KeepsReady};
ghost use Rattle.pocket_tables.specs.Reads.{IsSingle, bytes_of, first_above, matching, records_of, referrers};
ghost use Rattle.pocket_tables.specs.Worlds.{IsTabled, collection_at, rec_at, recs_at};

use crate::applying::make_changes;
use crate::drawers::Drawer;
use crate::finding::{collection_under, recs_under};
use crate::lending::lent_shelves;
use crate::parts::parts_of;
use crate::reading::{next_above, next_match, next_referrer, rec_among};
use crate::reserving::reserve_all;
use crate::tallies::tally;
use crate::totals::Totals;
use pocket_types::{Collection, Delta, Id, LentShelf, Name, Rec, Steps, Value, World};
use std::alloc::{AllocError, Global};
use std::marker::Model;
use std::sync::ledger::Ledger;

/// All collections with their records. Contracts see the world, and the places that are prepared for changes.
#[derive(Drop)]
pub struct Tables {
    // rising by name
    collections: Vec<Collection>,
    // of each name that a collection has, had or was reserved for; rising by name
    drawers: Vec<Drawer>,
    totals: Totals,
}

impl Model for Tables {
    ghost use Rattle.std.specs.Coded.{codes};
    ghost use Rattle.pocket_types.specs.contracts.json.Jv as jv;
    ghost use Rattle.pocket_tables.specs.Inside.{AreKept, view_of};
    ghost use Rattle.pocket_tables.specs.Kept.{Kept};

    ghost Value = { Kept };

    ghost coded = { Prim.hlevel (codes, jv.the_row.coded) };

    ghost view = { view_of };

    ghost invariant = { AreKept };
}

impl Tables {
    /// The tables of a world. Its collections rise by name, the records of each by id, and each record has the shape of its
    /// collection, whose fields have names of their own.
    pub fn build(alloc: Global, world: World) -> Result<Tables, AllocError>
        requires { IsTabled world }
        ensures { IfOk result (λ tables. tables.world ≡ world) }
    {
        let (collections, drawers) = parts_of(alloc, world)?;
        let totals = tally(collections.as_slice(), drawers.as_slice());
        Ok(Tables {
            collections,
            drawers,
            totals,
        })
    }

    /// The record of an id. None exactly where there is no such record. One step.
    pub fn rec<L: Ledger>(&self, collection: &Name, id: Id, steps: &mut Steps<L>) -> Option<&Rec>
        ensures rec { option_copied result ≡ rec_at self.now.world collection.now id }
        ensures steps { steps.new ≡ steps.old + 1 }
    {
        steps.tick();
        rec_among(recs_under(self.drawers.as_slice(), collection), id)
    }

    /// The record with the least id above `after`, or with the least of all. None exactly where there is no such record. One
    /// step.
    pub fn rec_after<L: Ledger>(
        &self,
        collection: &Name,
        after: Option<Id>,
        steps: &mut Steps<L>,
    ) -> Option<&Rec>
        ensures rec { option_copied result ≡ first_above after (recs_at self.now.world collection.now) }
        ensures steps { steps.new ≡ steps.old + 1 }
    {
        steps.tick();
        next_above(recs_under(self.drawers.as_slice(), collection), after)
    }

    /// The record with the least id above `after` among those whose relation `field` holds `target`. None exactly where there is
    /// no such record. One step.
    pub fn referrer_after<L: Ledger>(
        &self,
        collection: &Name,
        field: &Name,
        target: Id,
        after: Option<Id>,
        steps: &mut Steps<L>,
    ) -> Option<&Rec>
        ensures rec { option_copied result ≡ first_above after (referrers self.now.world collection.now field.now target) }
        ensures steps { steps.new ≡ steps.old + 1 }
    {
        steps.tick();
        let recs = recs_under(self.drawers.as_slice(), collection);
        match collection_under(self.collections.as_slice(), collection) {
            Some(collection) => next_referrer(collection, recs, field, target, after),
            None => None,
        }
    }

    /// The record with the least id above `after` among those whose `field` has a value that compares equal to `value`. None
    /// exactly where there is no such record. One step. The field is `id`, `created`, `updated`, `collectionName`, or one that
    /// holds one item at most.
    pub fn match_after<L: Ledger>(
        &self,
        collection: &Name,
        field: &Name,
        value: &Value,
        after: Option<Id>,
        steps: &mut Steps<L>,
    ) -> Option<&Rec>
        requires { IfSome (collection_at self.now.world collection.now) (λ c. IsSingle c field.now) }
        ensures rec { option_copied result ≡ first_above after (matching self.now.world collection.now field.now value.now) }
        ensures steps { steps.new ≡ steps.old + 1 }
    {
        steps.tick();
        let recs = recs_under(self.drawers.as_slice(), collection);
        match collection_under(self.collections.as_slice(), collection) {
            Some(collection) => next_match(collection, recs, field, value, after),
            None => None,
        }
    }

    /// The collections, rising by name. It also tells callers that the world is one that tables can hold.
    pub fn collections(&self) -> &[Collection]
        ensures collections { result.now ≡ collections_of self.now.world }
        ensures tabled { IsTabled self.now.world }
    {
        self.collections.as_slice()
    }

    /// The number of all records, and the bytes of their row texts.
    pub fn totals(&self) -> Totals
        ensures records { result.records ≡ held (records_of self.now.world) }
        ensures bytes { result.bytes ≡ held (bytes_of self.now.world) }
    {
        self.totals
    }

    /// The world, lent shelf by shelf: a pair of references for each collection.
    pub fn lent(&self, alloc: Global) -> Result<Vec<LentShelf<'_>>, AllocError>
        ensures world { IfOk result (λ shelves. lent_world shelves.items ≡ self.now.world) }
        ensures tabled { IsTabled self.now.world }
    {
        lent_shelves(alloc, self.collections.as_slice(), self.drawers.as_slice())
    }

    /// Prepares places for a delta, so that it and then its inverse can be applied without memory. What was ready stays ready.
    pub fn reserve(&mut self, alloc: Global, delta: &Delta) -> Result<(), AllocError>
        requires { FitsWorld delta.now self.old.world }
        ensures world { self.new.world ≡ self.old.world }
        ensures ready { OnOk result (IsReady self.new delta.now) }
        ensures kept { KeepsReady self.old self.new }
    {
        reserve_all(alloc, &mut self.collections, &mut self.drawers, delta)
    }

    /// Makes the change of a delta that is ready, and gives the delta that undoes it, which is ready then. What was ready in some
    /// world is ready there still, so that the inverse of an earlier delta can be applied once the later ones have been undone.
    pub fn apply(&mut self, delta: Delta) -> Delta
        requires fits { FitsWorld delta self.old.world }
        requires ready { IsReady self.old delta }
        ensures world { self.new.world ≡ world_after delta self.old.world }
        ensures inverse { result ≡ inverse delta self.old.world }
        ensures fits { FitsWorld result self.new.world }
        ensures ready { IsReady self.new result }
        ensures undone { world_after result self.new.world ≡ self.old.world }
        ensures kept { KeepsReady self.old self.new }
    {
        make_changes(
            &mut self.collections,
            &mut self.drawers,
            &mut self.totals,
            delta,
        )
    }
}
