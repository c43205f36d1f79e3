// What a request sends: headers, parts of the query, fields of the body.
ghost use Rattle.std.specs.Prelude.{◌≡◌, IfOk, [], ◌∷◌};
ghost use Rattle.std.specs.Option.{option_copied};
ghost use Rattle.pocket_resolve.specs.Answers.{Gives, GivesAs};
ghost use Rattle.pocket_resolve.specs.Roots as roots;
ghost use Rattle.pocket_resolve.specs.Seen.{setting_of};

use crate::ends::{Reading, reading_of};
use crate::faults::{no_field, not_relation};
use crate::fields::{collection_named, field_named};
use crate::names::is_built_in;
use crate::places::Setting;
use crate::steps::no_suffix;
use pocket_types::{
    Field, Kind, Leaf, Modifier, Name, Part, Prefix, ResolveFault, Root, Seq, Step, Text,
};
use std::alloc::{AllocError, Global};

/// What is taken of a header or a part of the query.
#[tactic(auto, unfolding(crate::specs::Roots::value_modifier))]
fn value_modifier(suffix: Option<&Text>) -> Option<Modifier>
    ensures { result ≡ roots.value_modifier (option_copied suffix.entry) }
{
    let Some(suffix) = suffix else {
        return Some(Modifier::Plain);
    };
    match suffix.as_str() {
        "lower" => Some(Modifier::Lower),
        "isset" => Some(Modifier::Isset),
        _ => None,
    }
}

/// The name behind `headers` or `query`, and what is taken of its value.
#[tactic(auto, unfolding(crate::specs::Roots::value_name))]
fn value_name<'a>(
    alloc: Global,
    setting: &Setting<'_>,
    behind: &str,
    parts: &'a [Part],
) -> Result<(&'a Text, Modifier), ResolveFault>
    ensures { GivesAs (λ found. (found.0.now, found.1)) result (roots.value_name (setting_of setting.now) behind.now parts.now) }
{
    match parts {
        [] => Err(no_field(alloc, behind)),
        [last] => match value_modifier(last.suffix.as_ref()) {
            Some(modifier) => Ok((&last.name, modifier)),
            None => Err(ResolveFault::BadModifier(setting.operand)),
        },
        [part, next, ..] => {
            no_suffix(setting, part)?;
            Err(no_field(alloc, next.name.as_str()))
        }
    }
}

/// A header by its name.
#[tactic(auto, unfolding(crate::specs::Roots::header))]
pub fn header(
    alloc: Global,
    setting: &Setting<'_>,
    behind: &str,
    parts: &[Part],
) -> Result<Leaf, ResolveFault>
    ensures { Gives result (roots.header (setting_of setting.now) behind.now parts.now) }
{
    let (name, modifier) = value_name(alloc, setting, behind, parts)?;
    Ok(Leaf::Header(name.clone()?, modifier))
}

/// A part of the query by its name.
#[tactic(auto, unfolding(crate::specs::Roots::query))]
pub fn query(
    alloc: Global,
    setting: &Setting<'_>,
    behind: &str,
    parts: &[Part],
) -> Result<Leaf, ResolveFault>
    ensures { Gives result (roots.query (setting_of setting.now) behind.now parts.now) }
{
    let (name, modifier) = value_name(alloc, setting, behind, parts)?;
    Ok(Leaf::Query(name.clone()?, modifier))
}

/// A field of the home collection.
fn body_field<'a>(setting: &Setting<'a>, name: &str) -> Option<&'a Field>
    ensures { option_copied result ≡ roots.body_field (setting_of setting.now) name.now }
{
    if is_built_in(name) {
        return None;
    }
    let home = collection_named(setting.collections, setting.home.as_str())?;
    field_named(home, name)
}

/// The reading of a sent field of a kind under a suffix.
#[tactic(auto, unfolding(crate::specs::Roots::body_reading))]
fn body_reading(any: bool, kind: &Kind, suffix: Option<&Text>) -> Option<Reading>
    ensures { result ≡ roots.body_reading any kind.now (option_copied suffix.entry) }
{
    match suffix {
        Some(text) if text.as_str() == "isset" => Some(Reading::As(Modifier::Isset)),
        _ => reading_of(any, kind, suffix),
    }
}

/// A sent field, as it is read.
fn body_leaf(alloc: Global, name: Name, reading: Reading) -> Result<Leaf, AllocError>
    ensures { IfOk result (λ leaf. leaf ≡ roots.body_leaf name reading) }
{
    match reading {
        Reading::As(modifier) => Ok(Leaf::Body(name, modifier)),
        Reading::Items => {
            let mut steps = Seq::new(alloc);
            steps.push(Step::Item(name))?;
            Ok(Leaf::ItemOf(Prefix {
                root: Root::Body,
                steps,
            }))
        }
    }
}

/// A sent field at the end.
#[tactic(auto, unfolding(crate::specs::Roots::sent_end))]
fn sent_end(alloc: Global, setting: &Setting<'_>, part: &Part) -> Result<Leaf, ResolveFault>
    ensures { Gives result (roots.sent_end (setting_of setting.now) part.now) }
{
    let Some(field) = body_field(setting, part.name.as_str()) else {
        return Err(no_field(alloc, part.name.as_str()));
    };
    let Some(reading) = body_reading(setting.any, &field.kind, part.suffix.as_ref()) else {
        return Err(ResolveFault::BadModifier(setting.operand));
    };
    Ok(body_leaf(alloc, field.name.clone()?, reading)?)
}

/// A sent field that another part follows.
#[tactic(auto, unfolding(crate::specs::Roots::sent_on))]
fn sent_on(
    alloc: Global,
    setting: &Setting<'_>,
    part: &Part,
    next: &Part,
) -> Result<Leaf, ResolveFault>
    ensures { Gives result (roots.sent_on (setting_of setting.now) part.now next.now) }
{
    let Some(field) = body_field(setting, part.name.as_str()) else {
        return Err(no_field(alloc, part.name.as_str()));
    };
    if field.kind.target().is_none() {
        return Err(not_relation(alloc, part.name.as_str()));
    }
    no_suffix(setting, part)?;
    Err(no_field(alloc, next.name.as_str()))
}

/// A sent field, behind `body`.
#[tactic(auto, unfolding(crate::specs::Roots::sent_field))]
pub fn sent_field(
    alloc: Global,
    setting: &Setting<'_>,
    behind: &str,
    parts: &[Part],
) -> Result<Leaf, ResolveFault>
    ensures { Gives result (roots.sent_field (setting_of setting.now) behind.now parts.now) }
{
    match parts {
        [] => Err(no_field(alloc, behind)),
        [last] => sent_end(alloc, setting, last),
        [part, next, ..] => sent_on(alloc, setting, part, next),
    }
}
