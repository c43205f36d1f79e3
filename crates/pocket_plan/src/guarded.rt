// What a filter sees under a guard: members are judged as they are met, and hidden fields lead nowhere and have no value.
ghost use Rattle.std.specs.Prelude.{◌≡◌, IfOk, Some, option_map};
ghost use Rattle.std.specs.Option.{option_copied};
ghost use Rattle.pocket_types.specs.World.{lent_world};
ghost use Rattle.pocket_meaning.specs.Seen.{seen};
ghost use Rattle.pocket_plan.specs.Guarding.{open_field_from, open_sent_field};
ghost use Rattle.pocket_plan.specs.Guarded.{guarded_sight_of, sent_under};
ghost use Rattle.pocket_plan.specs.Truth.{plan_truth};

use crate::admitted::{add_admitted, add_held, add_holders, admitted_rec, shelf_of};
use crate::guard::Guard;
use crate::open_fields::{open_field_named, open_field_of};
use pocket_meaning::laws::truth_is_carried_over;
use pocket_meaning::{
    Member, Scene, Sees, add_items, is_true_in, sent_of, shelf_in, value_of_field,
};
use pocket_types::{Ask, Caller, Cell, Field, Modifier, Name, Resolved, Root, Step, Value};
use std::alloc::{AllocError, Global};

/// A scene that is seen through a guard.
#[derive(Clone, Copy, Drop)]
pub struct Guarded<'s, 'w> {
    pub scene: Scene<'s, 'w>,
    pub guard: &'s Guard,
}

/// A field of the home collection that isn't hidden and was sent, with the cell that it will have.
fn sent_from<'a>(scene: &Scene<'_, 'a>, name: &Name) -> Option<(&'a Field, &'a Cell)>
    ensures { option_map (λ x. (x.0.now, x.1.now)) result ≡ open_sent_field (lent_world scene.now.shelves.now) scene.now.home.now scene.now.ask.now.body name.now }
{
    let shelf = shelf_in(scene.shelves, scene.home)?;
    let field = open_field_named(shelf.collection.fields.as_slice(), name)?;
    let sent = sent_of(scene.ask.body.as_slice(), name)?;
    Some((field, &sent.cell))
}

/// A field of a member that isn't hidden, with its cell.
fn field_from<'a>(
    guarded: &Guarded<'_, 'a>,
    from: Member<'a>,
    name: &Name,
) -> Option<(&'a Field, &'a Cell)>
    ensures { option_map (λ x. (x.0.now, x.1.now)) result ≡ open_field_from (sent_under guarded.now) (seen from.entry) name.now }
{
    match from {
        Member::Record(collection, rec) => open_field_of(collection, rec, name),
        Member::Sent => sent_from(&guarded.scene, name),
        _ => None,
    }
}

impl Sees for Guarded<'_, '_> {
    ghost all_seen = { guarded_sight_of };

    fn ask(&self) -> &Ask {
        self.scene.ask
    }

    fn sent_field<'a>(&'a self, name: &Name) -> Option<(&'a Field, &'a Cell)> {
        sent_from(&self.scene, name)
    }

    fn root_members<'a>(
        &'a self,
        alloc: Global,
        root: &Root,
    ) -> Result<Vec<Member<'a>>, AllocError> {
        let mut members = Vec::new(alloc);
        match root {
            Root::Home => {
                if let Some(shelf) = shelf_of(self, self.scene.home) {
                    members.push(Member::Record(shelf.collection, self.scene.rec))?;
                }
            }
            Root::Auth => {
                if let Caller::Member(name, id) = &self.scene.ask.caller
                    && let Some(shelf) = shelf_of(self, name)
                    && let Some(rec) = admitted_rec(alloc, self, shelf, *id)?
                {
                    members.push(Member::Record(shelf.collection, rec))?;
                }
            }
            Root::Body => members.push(Member::Sent)?,
            Root::Look(name, _) => {
                if let Some(shelf) = shelf_of(self, name) {
                    add_admitted(alloc, &mut members, self, shelf)?;
                }
            }
        }
        Ok(members)
    }

    fn step_members<'a>(
        &'a self,
        alloc: Global,
        step: &Step,
        from: Member<'a>,
    ) -> Result<Vec<Member<'a>>, AllocError> {
        let mut members = Vec::new(alloc);
        match step {
            Step::Forward(name) => {
                if let Some((field, cell)) = field_from(self, from, name) {
                    add_held(alloc, &mut members, self, field, cell)?;
                }
            }
            Step::Item(name) => {
                if let Some((_, cell)) = field_from(self, from, name) {
                    add_items(&mut members, cell)?;
                }
            }
            Step::Back(home, name) => {
                if let Member::Record(collection, rec) = from
                    && let Some(shelf) = shelf_of(self, home)
                {
                    add_holders(
                        alloc,
                        &mut members,
                        self,
                        shelf,
                        name,
                        &collection.name,
                        rec.id,
                    )?;
                }
            }
        }
        Ok(members)
    }

    fn field_value(
        &self,
        alloc: Global,
        member: Member<'_>,
        name: &Name,
        modifier: Modifier,
    ) -> Result<Value, AllocError> {
        match member {
            Member::Record(collection, rec) => {
                let found = open_field_of(collection, rec, name);
                value_of_field(alloc, collection, rec, name, found, modifier)
            }
            _ => Ok(Value::Nothing),
        }
    }
}

/// Whether a filter holds of a scene's record in what a guard leaves of the world, the record without its hidden fields.
fn holds_under(
    alloc: Global,
    scene: &Scene<'_, '_>,
    guard: &Guard,
    filter: &Resolved,
) -> Result<bool, AllocError>
    ensures { IfOk result (λ b. b ≡ plan_truth (lent_world scene.now.shelves.now) (Some guard.now) scene.now.ask.now scene.now.home.now scene.now.rec.now filter.now) }
{
    truth_is_carried_over();
    let guarded = Guarded {
        scene: *scene,
        guard,
    };
    is_true_in(alloc, &guarded, filter)
}

/// Whether a filter holds of a scene's record, in the world or in what the guard leaves of it.
#[tactic(auto, unfolding(pocket_meaning::specs::Meaning::holds))]
pub fn holds_in(
    alloc: Global,
    scene: &Scene<'_, '_>,
    guard: Option<&Guard>,
    filter: &Resolved,
) -> Result<bool, AllocError>
    ensures { IfOk result (λ b. b ≡ plan_truth (lent_world scene.now.shelves.now) (option_copied guard.entry) scene.now.ask.now scene.now.home.now scene.now.rec.now filter.now) }
{
    match guard {
        Some(guard) => holds_under(alloc, scene, guard, filter),
        None => is_true_in(alloc, scene, filter),
    }
}
