// The last part of a path: a field, as it is read.
ghost use Rattle.std.specs.Prelude.{◌≡◌, true, IfOk, Ok};
ghost use Rattle.std.specs.Option.{option_copied};
ghost use Rattle.pocket_resolve.specs.Answers.{Gives};
ghost use Rattle.pocket_resolve.specs.Names as names;
ghost use Rattle.pocket_resolve.specs.Paths as paths;
ghost use Rattle.pocket_resolve.specs.Seen.{setting_of, place_of};

use crate::faults::no_field;
use crate::fields::has_letters;
use crate::names::{cut_at_via, is_built_in};
use crate::places::{Place, Setting, field_at};
use crate::steps::{back_relation, may_see, no_suffix};
use pocket_types::{
    Field, Kind, Leaf, Modifier, Name, NameFault, Part, Prefix, ResolveFault, Step, Text,
};
use std::alloc::{AllocError, Global};

/// How a field is read: as it is or under a modifier, or item by item.
#[derive(Clone, Copy)]
pub enum Reading {
    As(Modifier),
    Items,
}

fn only_if(holds: bool, reading: Reading) -> Option<Reading>
    ensures { result ≡ paths.only_if holds reading }
{
    if holds { Some(reading) } else { None }
}

/// The reading of a field of a kind under a suffix.
#[tactic(auto, unfolding(crate::specs::Paths::reading_of))]
pub fn reading_of(any: bool, kind: &Kind, suffix: Option<&Text>) -> Option<Reading>
    ensures { result ≡ paths.reading_of any kind.now (option_copied suffix.entry) }
{
    let multiple = kind.is_multiple();
    let Some(suffix) = suffix else {
        return Some(if any && multiple {
            Reading::Items
        } else {
            Reading::As(Modifier::Plain)
        });
    };
    match suffix.as_str() {
        "length" => only_if(multiple, Reading::As(Modifier::Length)),
        "each" => only_if(multiple, Reading::Items),
        "lower" => only_if(has_letters(kind), Reading::As(Modifier::Lower)),
        _ => None,
    }
}

/// A name that every record has. Each of them is of a name's form.
#[tactic(auto, using(crate::proofs::BuiltIns::built_in_is_name))]
fn built_in_name(alloc: Global, text: &str) -> Result<Name, ResolveFault>
    requires { names.is_built_in text.now ≡ true }
    ensures { Gives result (Ok text.now) }
{
    match Name::read(alloc, text) {
        Ok(name) => Ok(name),
        Err(NameFault::BadName) => unreachable!(),
        Err(NameFault::Memory) => Err(ResolveFault::Memory),
    }
}

/// A field at the end, and how it is read.
#[tactic(auto, unfolding(crate::specs::Paths::field_end))]
fn field_end(
    alloc: Global,
    setting: &Setting<'_>,
    place: Place<'_>,
    part: &Part,
) -> Result<(Name, Reading), ResolveFault>
    ensures { Gives result (paths.field_end (setting_of setting.now) (place_of place.entry) part.now) }
{
    let Some(field) = field_at(setting.collections, place, part.name.as_str()) else {
        return Err(no_field(alloc, part.name.as_str()));
    };
    let Some(reading) = reading_of(setting.any, &field.kind, part.suffix.as_ref()) else {
        return Err(ResolveFault::BadModifier(setting.operand));
    };
    may_see(alloc, setting, field)?;
    Ok((field.name.clone()?, reading))
}

/// A name that every record has, at the end.
#[tactic(auto, unfolding(crate::specs::Paths::built_in_end))]
fn built_in_end(
    alloc: Global,
    setting: &Setting<'_>,
    part: &Part,
) -> Result<(Name, Reading), ResolveFault>
    requires { names.is_built_in part.now.name ≡ true }
    ensures { Gives result (paths.built_in_end (setting_of setting.now) part.now) }
{
    no_suffix(setting, part)?;
    Ok((
        built_in_name(alloc, part.name.as_str())?,
        Reading::As(Modifier::Plain),
    ))
}

/// A back relation at the end, where it is no field.
#[tactic(auto, unfolding(crate::specs::Paths::back_end))]
fn back_end(
    alloc: Global,
    setting: &Setting<'_>,
    place: Place<'_>,
    part: &Part,
    from: &str,
    name: &str,
) -> Result<(Name, Reading), ResolveFault>
    ensures { Gives result (paths.back_end (setting_of setting.now) (place_of place.entry) part.now from.now name.now) }
{
    back_relation(alloc, setting, place, from, name)?;
    Err(no_field(alloc, part.name.as_str()))
}

/// The last part.
#[tactic(auto, unfolding(crate::specs::Paths::path_end))]
pub fn path_end(
    alloc: Global,
    setting: &Setting<'_>,
    place: Place<'_>,
    part: &Part,
) -> Result<(Name, Reading), ResolveFault>
    ensures { Gives result (paths.path_end (setting_of setting.now) (place_of place.entry) part.now) }
{
    let name = part.name.as_str();
    if let Place::Nowhere = place {
        return Err(no_field(alloc, name));
    }
    match cut_at_via(name) {
        Some((from, field)) => back_end(alloc, setting, place, part, from, field),
        None if is_built_in(name) => built_in_end(alloc, setting, part),
        None => field_end(alloc, setting, place, part),
    }
}

/// A prefix with one step more.
fn with_step(mut prefix: Prefix, step: Step) -> Result<Prefix, AllocError>
    ensures { IfOk result (λ longer. longer ≡ paths.with_step prefix step) }
{
    prefix.steps.push(step)?;
    Ok(prefix)
}

/// A field of the records of a prefix, as it is read.
pub fn leaf_read(prefix: Prefix, name: Name, reading: Reading) -> Result<Leaf, AllocError>
    ensures { IfOk result (λ leaf. leaf ≡ paths.leaf_read prefix name reading) }
{
    match reading {
        Reading::As(modifier) => Ok(Leaf::Of {
            prefix,
            field: name,
            modifier,
        }),
        Reading::Items => Ok(Leaf::ItemOf(with_step(prefix, Step::Item(name))?)),
    }
}
