// Whole paths: how they begin, and where they lead.
ghost use Rattle.std.specs.Prelude.{◌≡◌, IfOk, [], unwrap_or};
ghost use Rattle.std.specs.Option.{option_copied};
ghost use Rattle.pocket_types.specs.declared.resolved.Root.TheVariants as root;
ghost use Rattle.pocket_resolve.specs.Answers.{Gives, GivesAs};
ghost use Rattle.pocket_resolve.specs.Paths as paths;
ghost use Rattle.pocket_resolve.specs.Roots as roots;
ghost use Rattle.pocket_resolve.specs.Seen.{setting_of, place_of};

use crate::answers::with;
use crate::ends::{Reading, leaf_read, path_end};
use crate::faults::{no_collection, no_field};
use crate::fields::collection_named;
use crate::names::{Requested, macro_named, requested_part};
use crate::places::{Place, Setting, place_named};
use crate::sent::{header, query, sent_field};
use crate::steps::{no_suffix, one_step};
use pocket_types::{Leaf, Name, Operand, Part, Prefix, ResolveFault, Root, Seq, Text, Value};
use std::alloc::{AllocError, Global};

/// The end of a path from a place on, behind the part of a name. The prefix takes the steps that lead there.
#[tactic(auto, unfolding(crate::specs::Paths::along))]
fn along<'a>(
    alloc: Global,
    setting: &Setting<'a>,
    behind: &str,
    place: Place<'a>,
    prefix: &mut Prefix,
    parts: &[Part],
) -> Result<(Name, Reading), ResolveFault>
    ensures { GivesAs (λ end. paths.leaf_read prefix.new end.0 end.1) result (paths.along (setting_of setting.now) behind.now (place_of place.entry) prefix.old parts.now) }
{
    match parts {
        [] => Err(no_field(alloc, behind)),
        [last] => path_end(alloc, setting, place, last),
        [part, rest @ ..] => {
            let (step, next) = one_step(alloc, setting, place, prefix.steps.len(), part)?;
            prefix.steps.push(step)?;
            along(alloc, setting, part.name.as_str(), next, prefix, rest)
        }
    }
}

/// A prefix without steps.
fn bare(alloc: Global, root: Root) -> Prefix
    ensures { result ≡ roots.bare root }
{
    Prefix {
        root,
        steps: Seq::new(alloc),
    }
}

/// A path from a root.
fn path_from<'a>(
    alloc: Global,
    setting: &Setting<'a>,
    root: Root,
    behind: &str,
    place: Place<'a>,
    parts: &[Part],
) -> Result<Leaf, ResolveFault>
    ensures { Gives result (paths.along (setting_of setting.now) behind.now (place_of place.entry) (roots.bare root) parts.now) }
{
    let mut prefix = bare(alloc, root);
    let end = along(alloc, setting, behind, place, &mut prefix, parts);
    let (prefix, (name, reading)) = with(prefix, end)?;
    Ok(leaf_read(prefix, name, reading)?)
}

/// Nothing stands behind what has no names.
fn no_part(alloc: Global, parts: &[Part]) -> Result<(), ResolveFault>
    ensures { Gives result (roots.no_part parts.now) }
{
    match parts {
        [] => Ok(()),
        [part, ..] => Err(no_field(alloc, part.name.as_str())),
    }
}

/// A path behind one of the names that stand behind `@request`.
fn request_path(
    alloc: Global,
    setting: &Setting<'_>,
    which: Requested,
    behind: &str,
    parts: &[Part],
) -> Result<Leaf, ResolveFault>
    ensures { Gives result (roots.request_path which (setting_of setting.now) behind.now parts.now) }
{
    match which {
        Requested::Context => {
            no_part(alloc, parts)?;
            Ok(Leaf::Context)
        }
        Requested::Method => {
            no_part(alloc, parts)?;
            Ok(Leaf::Method)
        }
        Requested::Headers => header(alloc, setting, behind, parts),
        Requested::Query => query(alloc, setting, behind, parts),
        Requested::Body => sent_field(alloc, setting, behind, parts),
        Requested::Auth => path_from(alloc, setting, Root::Auth, behind, Place::Caller, parts),
    }
}

/// `@request` and the parts behind it.
#[tactic(auto, unfolding(crate::specs::Roots::of_request))]
fn of_request(
    alloc: Global,
    setting: &Setting<'_>,
    first: &Part,
    parts: &[Part],
) -> Result<Leaf, ResolveFault>
    ensures { Gives result (roots.of_request (setting_of setting.now) first.now parts.now) }
{
    no_suffix(setting, first)?;
    let [second, rest @ ..] = parts else {
        return Err(no_field(alloc, first.name.as_str()));
    };
    let name = second.name.as_str();
    let Some(which) = requested_part(name) else {
        return Err(no_field(alloc, name));
    };
    no_suffix(setting, second)?;
    request_path(alloc, setting, which, name, rest)
}

/// The alias that a suffix is, empty where there is none.
fn alias(alloc: Global, suffix: Option<&Text>) -> Result<Text, AllocError>
    ensures { IfOk result (λ text. text ≡ unwrap_or (option_copied suffix.entry) []) }
{
    match suffix {
        Some(text) => Ok(text.clone()?),
        None => Text::from_str(alloc, ""),
    }
}

/// The root of a look-up into a collection, under an alias.
fn look(alloc: Global, name: &Name, suffix: Option<&Text>) -> Result<Root, AllocError>
    ensures { IfOk result (λ found. found ≡ root.Look name.now (unwrap_or (option_copied suffix.entry) [])) }
{
    let (alias, name) = with(alias(alloc, suffix)?, name.clone())?;
    Ok(Root::Look(name, alias))
}

/// `@collection` and the parts behind it.
#[tactic(auto, unfolding(crate::specs::Roots::of_collection))]
fn of_collection(
    alloc: Global,
    setting: &Setting<'_>,
    first: &Part,
    parts: &[Part],
) -> Result<Leaf, ResolveFault>
    ensures { Gives result (roots.of_collection (setting_of setting.now) first.now parts.now) }
{
    no_suffix(setting, first)?;
    let [second, rest @ ..] = parts else {
        return Err(no_field(alloc, first.name.as_str()));
    };
    let name = second.name.as_str();
    let Some(collection) = collection_named(setting.collections, name) else {
        return Err(no_collection(alloc, name));
    };
    let root = look(alloc, &collection.name, second.suffix.as_ref())?;
    path_from(alloc, setting, root, name, Place::Of(collection), rest)
}

/// A macro.
#[tactic(auto, unfolding(crate::specs::Roots::of_macro))]
fn of_macro(
    alloc: Global,
    setting: &Setting<'_>,
    first: &Part,
    parts: &[Part],
) -> Result<Leaf, ResolveFault>
    ensures { Gives result (roots.of_macro (setting_of setting.now) first.now parts.now) }
{
    let Some(which) = macro_named(first.name.as_str()) else {
        return Err(no_field(alloc, first.name.as_str()));
    };
    no_suffix(setting, first)?;
    no_part(alloc, parts)?;
    Ok(Leaf::Macro(which))
}

/// Whether a path with `@` begins with `request` or `collection`.
fn is_privileged(parts: &[Part]) -> bool
    ensures { result ≡ roots.is_privileged parts.now }
{
    match parts {
        [] => false,
        [first, ..] => first.name.as_str() == "request" || first.name.as_str() == "collection",
    }
}

/// A path behind `@` by its first part.
#[tactic(auto, unfolding(crate::specs::Roots::of_first))]
fn of_first(
    alloc: Global,
    setting: &Setting<'_>,
    first: &Part,
    parts: &[Part],
) -> Result<Leaf, ResolveFault>
    ensures { Gives result (roots.of_first (setting_of setting.now) first.now parts.now) }
{
    let name = first.name.as_str();
    if name == "request" {
        of_request(alloc, setting, first, parts)
    } else if name == "collection" {
        of_collection(alloc, setting, first, parts)
    } else {
        of_macro(alloc, setting, first, parts)
    }
}

/// A path behind `@`.
#[tactic(auto, unfolding(crate::specs::Roots::of_sign))]
fn of_sign(alloc: Global, setting: &Setting<'_>, parts: &[Part]) -> Result<Leaf, ResolveFault>
    ensures { Gives result (roots.of_sign (setting_of setting.now) parts.now) }
{
    match parts {
        [] => Err(no_field(alloc, "")),
        [first, rest @ ..] => of_first(alloc, setting, first, rest),
    }
}

/// A path.
#[tactic(auto, unfolding(crate::specs::Roots::of_path))]
fn of_path(
    alloc: Global,
    setting: &Setting<'_>,
    sign: bool,
    parts: &[Part],
) -> Result<Leaf, ResolveFault>
    ensures { Gives result (roots.of_path (setting_of setting.now) sign parts.now) }
{
    if !sign {
        let home = place_named(setting.collections, setting.home.as_str());
        return path_from(alloc, setting, Root::Home, "", home, parts);
    }
    if setting.guarded && is_privileged(parts) {
        return Err(ResolveFault::SuperuserOnly(setting.operand));
    }
    of_sign(alloc, setting, parts)
}

/// One side of a comparison.
#[tactic(auto, unfolding(crate::specs::Roots::side))]
pub fn side(alloc: Global, setting: &Setting<'_>, operand: &Operand) -> Result<Leaf, ResolveFault>
    ensures { Gives result (roots.side (setting_of setting.now) operand.now) }
{
    match operand {
        Operand::Ident { sign, parts } => of_path(alloc, setting, *sign, parts.as_slice()),
        Operand::Text(text) => Ok(Leaf::Fixed(Value::Text(text.clone()?))),
        Operand::Num(number) => Ok(Leaf::Fixed(Value::Num(*number))),
        Operand::Flag(flag) => Ok(Leaf::Fixed(Value::Flag(*flag))),
        Operand::Null => Ok(Leaf::Fixed(Value::Nothing)),
    }
}
