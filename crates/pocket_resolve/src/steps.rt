// The parts of a path before the last: steps over relations.
ghost use Rattle.std.specs.Prelude.{◌≡◌};
ghost use Rattle.pocket_resolve.specs.Answers.{Gives, GivesAs};
ghost use Rattle.pocket_resolve.specs.Paths as paths;
ghost use Rattle.pocket_resolve.specs.Seen.{setting_of, place_of, moved_to};

use crate::faults::{hidden_field, no_collection, no_field, not_relation};
use crate::fields::{collection_named, field_named};
use crate::names::{cut_at_via, is_built_in};
use crate::places::{Place, Setting, field_at, has_built_in, is_relation_to, place_named};
use pocket_types::{Collection, Field, Part, ResolveFault, Step};
use std::alloc::Global;

const MAX_STEPS: usize = 6;

/// A suffix has no place here.
pub fn no_suffix(setting: &Setting<'_>, part: &Part) -> Result<(), ResolveFault>
    ensures { result ≡ paths.no_suffix (setting_of setting.now) part.now }
{
    match part.suffix {
        Some(_) => Err(ResolveFault::BadModifier(setting.operand)),
        None => Ok(()),
    }
}

/// Refuses a hidden field of a guarded filter.
pub fn may_see(alloc: Global, setting: &Setting<'_>, field: &Field) -> Result<(), ResolveFault>
    ensures { Gives result (paths.may_see (setting_of setting.now) field.now) }
{
    if setting.guarded && field.hidden {
        return Err(hidden_field(alloc, field.name.as_str()));
    }
    Ok(())
}

/// What every step is refused for, once its field is found.
#[tactic(auto, unfolding(crate::specs::Paths::may_step))]
fn may_step(
    alloc: Global,
    setting: &Setting<'_>,
    taken: usize,
    part: &Part,
    field: &Field,
) -> Result<(), ResolveFault>
    ensures { Gives result (paths.may_step (setting_of setting.now) taken part.now field.now) }
{
    no_suffix(setting, part)?;
    if taken >= MAX_STEPS {
        return Err(ResolveFault::TooManySteps);
    }
    may_see(alloc, setting, field)
}

/// A relation of the place.
#[tactic(auto, unfolding(crate::specs::Paths::forward))]
fn forward<'a>(
    alloc: Global,
    setting: &Setting<'a>,
    place: Place<'a>,
    taken: usize,
    part: &Part,
) -> Result<(Step, Place<'a>), ResolveFault>
    ensures { GivesAs moved_to result (paths.forward (setting_of setting.now) (place_of place.entry) taken part.now) }
{
    let name = part.name.as_str();
    if has_built_in(place, name) {
        return Err(not_relation(alloc, name));
    }
    let Some(field) = field_at(setting.collections, place, name) else {
        return Err(no_field(alloc, name));
    };
    let Some(to) = field.kind.target() else {
        return Err(not_relation(alloc, name));
    };
    may_step(alloc, setting, taken, part, field)?;
    let step = Step::Forward(field.name.clone()?);
    Ok((step, place_named(setting.collections, to.as_str())))
}

/// A relation of another collection to the records of the place.
#[tactic(auto, unfolding(crate::specs::Paths::back_relation))]
pub fn back_relation<'a>(
    alloc: Global,
    setting: &Setting<'a>,
    place: Place<'a>,
    from: &str,
    name: &str,
) -> Result<(&'a Collection, &'a Field), ResolveFault>
    ensures { GivesAs (λ found. (found.0.now, found.1.now)) result (paths.back_relation (setting_of setting.now) (place_of place.entry) from.now name.now) }
{
    let Some(collection) = collection_named(setting.collections, from) else {
        return Err(no_collection(alloc, from));
    };
    if is_built_in(name) {
        return Err(not_relation(alloc, name));
    }
    let Some(field) = field_named(collection, name) else {
        return Err(no_field(alloc, name));
    };
    if !is_relation_to(setting.collections, place, &field.kind) {
        return Err(not_relation(alloc, name));
    }
    Ok((collection, field))
}

/// A back relation.
#[tactic(auto, unfolding(crate::specs::Paths::backward))]
fn backward<'a>(
    alloc: Global,
    setting: &Setting<'a>,
    place: Place<'a>,
    taken: usize,
    part: &Part,
    from: &str,
    name: &str,
) -> Result<(Step, Place<'a>), ResolveFault>
    ensures { GivesAs moved_to result (paths.backward (setting_of setting.now) (place_of place.entry) taken part.now from.now name.now) }
{
    let (collection, field) = back_relation(alloc, setting, place, from, name)?;
    may_step(alloc, setting, taken, part, field)?;
    let step = Step::Back(collection.name.clone()?, field.name.clone()?);
    Ok((step, Place::Of(collection)))
}

/// A part before the last.
#[tactic(auto, unfolding(crate::specs::Paths::one_step))]
pub fn one_step<'a>(
    alloc: Global,
    setting: &Setting<'a>,
    place: Place<'a>,
    taken: usize,
    part: &Part,
) -> Result<(Step, Place<'a>), ResolveFault>
    ensures { GivesAs moved_to result (paths.one_step (setting_of setting.now) (place_of place.entry) taken part.now) }
{
    let name = part.name.as_str();
    if let Place::Nowhere = place {
        return Err(no_field(alloc, name));
    }
    match cut_at_via(name) {
        Some((from, field)) => backward(alloc, setting, place, taken, part, from, field),
        None => forward(alloc, setting, place, taken, part),
    }
}
