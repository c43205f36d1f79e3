// Records that a guard admits, judged as they are met.
ghost use Rattle.std.specs.Prelude.{◌≡◌, ◌&&◌, ◌++◌, IfOk, map, filter, filter_map, option_map};
ghost use Rattle.std.specs.Option.{option_copied};
ghost use Rattle.std.specs.Str.{bytes_eq};
ghost use Rattle.pocket_types.specs.World.{shelf_named, rec_of, lent_shelf, lent_world};
ghost use Rattle.pocket_meaning.specs.Members as member;
ghost use Rattle.pocket_meaning.specs.Related.{shelf_member, held};
ghost use Rattle.pocket_meaning.specs.Seen.{seen};
ghost use Rattle.pocket_plan.specs.Cutting.{passes, view_named};
ghost use Rattle.pocket_plan.specs.Guarding.{open_points_to};
ghost use Rattle.pocket_plan.specs.Guarded.{is_admitted, admitted_of, admitted_under};

use crate::guard::{View, ViewTest};
use crate::guarded::Guarded;
use crate::open_fields::does_point_openly;
use pocket_meaning::{Member, Scene, is_true_in, shelf_in};
use pocket_ops::ids_in;
use pocket_types::{Cell, Field, Id, LentShelf, Name, Rec};
use std::alloc::{AllocError, Global};

/// The view of a collection.
fn view_of<'a>(views: &'a [View], name: &Name) -> Option<&'a View>
    ensures { option_copied result ≡ view_named name.now views.now }
{
    views.iter().find(|view| view.collection == *name)
}

/// Whether a view admits the record of a scene.
#[tactic(auto, unfolding(pocket_meaning::specs::Meaning::holds))]
fn does_pass(alloc: Global, scene: &Scene<'_, '_>, test: &ViewTest) -> Result<bool, AllocError>
    ensures { IfOk result (λ b. b ≡ passes (lent_world scene.now.shelves.now) scene.now.ask.now scene.now.home.now scene.now.rec.now test.now) }
{
    match test {
        ViewTest::All => Ok(true),
        ViewTest::Nobody => Ok(false),
        ViewTest::ByPlan(plan) => is_true_in(alloc, scene, plan.filter()),
    }
}

/// Whether the guard admits a record of a collection.
#[tactic(auto, unfolding(crate::specs::Cutting::admits))]
pub fn does_admit(
    alloc: Global,
    guarded: &Guarded<'_, '_>,
    name: &Name,
    rec: &Rec,
) -> Result<bool, AllocError>
    ensures { IfOk result (λ b. b ≡ is_admitted guarded.now name.now rec.now) }
{
    match view_of(guarded.guard.views.as_slice(), name) {
        Some(view) => {
            let scene = Scene {
                shelves: guarded.scene.shelves,
                ask: guarded.scene.ask,
                home: name,
                rec,
            };
            does_pass(alloc, &scene, &view.test)
        }
        None => Ok(false),
    }
}

/// Whether a record has an id and is admitted.
fn is_wanted(
    alloc: Global,
    guarded: &Guarded<'_, '_>,
    name: &Name,
    rec: &Rec,
    id: Id,
) -> Result<bool, AllocError>
    ensures { IfOk result (λ b. b ≡ (bytes_eq rec.now.id id && is_admitted guarded.now name.now rec.now)) }
{
    if rec.id == id {
        does_admit(alloc, guarded, name, rec)
    } else {
        Ok(false)
    }
}

/// The shelf of a collection, whose records are yet to be judged.
pub fn shelf_of<'a>(guarded: &Guarded<'_, 'a>, name: &Name) -> Option<LentShelf<'a>>
    ensures { option_map (λ s. admitted_of guarded.now (lent_shelf s)) result ≡ shelf_named name.now (admitted_under guarded.now).shelves }
{
    shelf_in(guarded.scene.shelves, name)
}

/// The first admitted record of an id.
pub fn admitted_rec<'a>(
    alloc: Global,
    guarded: &Guarded<'_, 'a>,
    shelf: LentShelf<'a>,
    id: Id,
) -> Result<Option<&'a Rec>, AllocError>
    ensures { IfOk result (λ found. option_copied found ≡ rec_of id (admitted_of guarded.now (lent_shelf shelf.entry)).recs) }
{
    for rec in shelf.recs {
        if is_wanted(alloc, guarded, &shelf.collection.name, rec, id)? {
            return Ok(Some(rec));
        }
    }
    Ok(None)
}

/// Adds the admitted records of a shelf.
pub fn add_admitted<'a>(
    alloc: Global,
    members: &mut Vec<Member<'a>>,
    guarded: &Guarded<'_, 'a>,
    shelf: LentShelf<'a>,
) -> Result<(), AllocError>
    ensures { IfOk result (λ _. map seen members.new.items ≡ map seen members.old.items ++ map (member.Record shelf.entry.collection.now) (admitted_of guarded.now (lent_shelf shelf.entry)).recs) }
{
    for rec in shelf.recs {
        if does_admit(alloc, guarded, &shelf.collection.name, rec)? {
            members.push(Member::Record(shelf.collection, rec))?;
        }
    }
    Ok(())
}

/// Adds the admitted records of a shelf that these ids name, in the ids' order.
pub fn add_named<'a>(
    alloc: Global,
    members: &mut Vec<Member<'a>>,
    guarded: &Guarded<'_, 'a>,
    shelf: LentShelf<'a>,
    ids: &[Id],
) -> Result<(), AllocError>
    ensures { IfOk result (λ _. map seen members.new.items ≡ map seen members.old.items ++ filter_map (shelf_member (admitted_of guarded.now (lent_shelf shelf.entry))) ids.now) }
{
    for id in ids {
        if let Some(rec) = admitted_rec(alloc, guarded, shelf, *id)? {
            members.push(Member::Record(shelf.collection, rec))?;
        }
    }
    Ok(())
}

/// Adds the admitted records of a shelf whose field isn't hidden and refers to the record of a collection and an id.
pub fn add_holders<'a>(
    alloc: Global,
    members: &mut Vec<Member<'a>>,
    guarded: &Guarded<'_, 'a>,
    shelf: LentShelf<'a>,
    field: &Name,
    name: &Name,
    id: Id,
) -> Result<(), AllocError>
    ensures { IfOk result (λ _. map seen members.new.items ≡ map seen members.old.items ++ map (member.Record shelf.entry.collection.now) (filter (open_points_to shelf.entry.collection.now field.now name.now id) (admitted_of guarded.now (lent_shelf shelf.entry)).recs)) }
{
    for rec in shelf.recs {
        if does_point_openly(shelf.collection, rec, field, name, id) {
            let admitted = does_admit(alloc, guarded, &shelf.collection.name, rec)?;
            if admitted {
                members.push(Member::Record(shelf.collection, rec))?;
            }
        }
    }
    Ok(())
}

/// Adds the admitted records that a relation holds.
pub fn add_held<'a>(
    alloc: Global,
    members: &mut Vec<Member<'a>>,
    guarded: &Guarded<'_, 'a>,
    field: &Field,
    cell: &Cell,
) -> Result<(), AllocError>
    ensures { IfOk result (λ _. map seen members.new.items ≡ map seen members.old.items ++ held (admitted_under guarded.now) (field.now, cell.now)) }
{
    if let Some(name) = field.kind.target()
        && let Some(shelf) = shelf_of(guarded, name)
    {
        add_named(alloc, members, guarded, shelf, ids_in(cell))?;
    }
    Ok(())
}
