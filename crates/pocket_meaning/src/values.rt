ghost use Rattle.std.specs.Prelude.{◌≡◌, IfOk, find, is_some, codes, option_map};
ghost use Rattle.std.specs.Option.{option_copied, option_map_or};
ghost use Rattle.std.specs.Str.{bytes_eq};
ghost use Rattle.pocket_types.specs.declared.values.Value.TheVariants as value;
ghost use Rattle.pocket_ops.specs.Cells.{lowered};
ghost use Rattle.pocket_ops.specs.Dates.{date_text as text_of_moment};
ghost use Rattle.pocket_meaning.specs.Choices.{chosen};
ghost use Rattle.pocket_meaning.specs.Seen.{seen, choice_of};
ghost use Rattle.pocket_meaning.specs.Sights.{sent_value, value_of};
ghost use Rattle.pocket_meaning.specs.Values.{modified, value_among, member_value, item_value, context_text, method_text, pair_value};

use crate::choices::member_chosen;
use crate::members::{Chosen, Member};
use crate::related::sent_of;
use crate::sees::Sees;
use pocket_ops::{cell_value, count_value, date_text, field_of, lowered_value, macro_value};
use pocket_types::{
    Cell, Collection, Context, Field, Leaf, Method, Modifier, Moment, Name, Pair, Prefix, Rec,
    Text, Value, copied,
};
use std::alloc::{AllocError, Global};

/// A text as a value.
fn text_value(alloc: Global, text: &str) -> Result<Value, AllocError>
    ensures { IfOk result (λ v. v ≡ value.Text text.now) }
{
    Ok(Value::Text(Text::from_str(alloc, text)?))
}

/// A moment as a value.
fn moment_value(alloc: Global, moment: Moment) -> Result<Value, AllocError>
    ensures { IfOk result (λ v. v ≡ value.Text (text_of_moment moment)) }
{
    match str::from_utf8(&date_text(moment)) {
        Ok(text) => text_value(alloc, text),
        Err(_) => unreachable!(),
    }
}

/// A cell under a modifier.
fn modified_value(
    alloc: Global,
    modifier: Modifier,
    field: &Field,
    cell: &Cell,
) -> Result<Value, AllocError>
    ensures { IfOk result (λ v. v ≡ modified modifier (field.now, cell.now)) }
{
    match modifier {
        Modifier::Length => Ok(count_value(cell)),
        Modifier::Lower => lowered_value(alloc, cell_value(alloc, field, cell)?),
        Modifier::Plain | Modifier::Isset => cell_value(alloc, field, cell),
    }
}

/// A field that was found or not, under a modifier.
fn found_value(
    alloc: Global,
    found: Option<(&Field, &Cell)>,
    modifier: Modifier,
) -> Result<Value, AllocError>
    ensures { IfOk result (λ v. v ≡ option_map_or (modified modifier) (option_map (λ x. (x.0.now, x.1.now)) found.entry) value.Nothing) }
{
    match found {
        Some((field, cell)) => modified_value(alloc, modifier, field, cell),
        None => Ok(Value::Nothing),
    }
}

/// A field of a record: one that every record has, or one of its own, which was found there or not.
pub fn value_of_field(
    alloc: Global,
    collection: &Collection,
    rec: &Rec,
    name: &Name,
    found: Option<(&Field, &Cell)>,
    modifier: Modifier,
) -> Result<Value, AllocError>
    ensures { IfOk result (λ v. v ≡ value_among collection.now rec.now name.now (option_map (λ x. (x.0.now, x.1.now)) found.entry) modifier) }
{
    match name.as_str() {
        "id" => text_value(alloc, rec.id.as_str()),
        "created" => moment_value(alloc, rec.created),
        "updated" => moment_value(alloc, rec.updated),
        "collectionName" => text_value(alloc, collection.name.as_str()),
        _ => found_value(alloc, found, modifier),
    }
}

/// A field of a member, under a modifier.
pub fn member_value_of(
    alloc: Global,
    member: Member<'_>,
    name: &Name,
    modifier: Modifier,
) -> Result<Value, AllocError>
    ensures { IfOk result (λ v. v ≡ member_value (seen member.entry) name.now modifier) }
{
    match member {
        Member::Record(collection, rec) => {
            let found = field_of(collection, rec, name);
            value_of_field(alloc, collection, rec, name, found, modifier)
        }
        _ => Ok(Value::Nothing),
    }
}

fn item_value_of(alloc: Global, member: Member<'_>) -> Result<Value, AllocError>
    ensures { IfOk result (λ v. v ≡ item_value (seen member.entry)) }
{
    match member {
        Member::Item(text) => text_value(alloc, text),
        _ => Ok(Value::Nothing),
    }
}

fn context_name(context: Context) -> &'static str
    ensures { result.now ≡ context_text context }
{
    match context {
        Context::Default => "default",
        Context::Realtime => "realtime",
    }
}

fn method_name(method: Method) -> &'static str
    ensures { result.now ≡ method_text method }
{
    match method {
        Method::Get => "GET",
        Method::Post => "POST",
        Method::Patch => "PATCH",
        Method::Put => "PUT",
        Method::Delete => "DELETE",
    }
}

/// The first pair of a name.
fn pair_named<'a>(pairs: &'a [Pair], name: &Text) -> Option<&'a Pair>
    ensures { option_copied result ≡ find (λ x. bytes_eq x.name name.now) pairs.now }
{
    pairs.iter().find(|pair| pair.name == *name)
}

/// The value of the first pair of a name.
fn first_value(alloc: Global, pairs: &[Pair], name: &Text) -> Result<Value, AllocError>
    ensures { IfOk result (λ v. v ≡ option_map_or (λ x. value.Text x.value) (find (λ x. bytes_eq x.name name.now) pairs.now) value.Nothing) }
{
    match pair_named(pairs, name) {
        Some(pair) => text_value(alloc, pair.value.as_str()),
        None => Ok(Value::Nothing),
    }
}

/// A header or a part of the query, under a modifier.
fn pair_value_of(
    alloc: Global,
    pairs: &[Pair],
    name: &Text,
    modifier: Modifier,
) -> Result<Value, AllocError>
    ensures { IfOk result (λ v. v ≡ pair_value pairs.now name.now modifier) }
{
    match modifier {
        Modifier::Isset => Ok(Value::Flag(pair_named(pairs, name).is_some())),
        Modifier::Lower => lowered_value(alloc, first_value(alloc, pairs, name)?),
        Modifier::Plain | Modifier::Length => first_value(alloc, pairs, name),
    }
}

/// A sent field, under a modifier.
fn sent_value_of<S: Sees>(
    alloc: Global,
    scene: &S,
    name: &Name,
    modifier: Modifier,
) -> Result<Value, AllocError>
    ensures { IfOk result (λ v. v ≡ sent_value (S.all_seen scene.now) name.now modifier) }
{
    match modifier {
        Modifier::Isset => Ok(Value::Flag(sent_of(scene.ask().body.as_slice(), name).is_some())),
        _ => found_value(alloc, scene.sent_field(name), modifier),
    }
}

fn member_at<'w>(choice: &[Chosen<'_, 'w>], prefix: &Prefix) -> Member<'w>
    ensures { seen result ≡ chosen (choice_of choice.now) prefix.now }
{
    member_chosen(choice, &prefix.root, prefix.steps.as_slice())
}

/// The value of a side of a comparison under a choice.
pub fn value_under<S: Sees>(
    alloc: Global,
    scene: &S,
    choice: &[Chosen<'_, '_>],
    side: &Leaf,
) -> Result<Value, AllocError>
    ensures { IfOk result (λ v. v ≡ value_of (S.all_seen scene.now) (chosen (choice_of choice.now)) side.now) }
{
    match side {
        Leaf::Fixed(value) => copied(value),
        Leaf::Of {
            prefix,
            field,
            modifier,
        } => {
            let member = member_at(choice, prefix);
            scene.field_value(alloc, member, field, *modifier)
        }
        Leaf::ItemOf(prefix) => {
            let member = member_at(choice, prefix);
            item_value_of(alloc, member)
        }
        Leaf::Context => text_value(alloc, context_name(scene.ask().context)),
        Leaf::Method => text_value(alloc, method_name(scene.ask().method)),
        Leaf::Header(name, modifier) => pair_value_of(
            alloc,
            scene.ask().headers.as_slice(),
            name,
            *modifier,
        ),
        Leaf::Query(name, modifier) => pair_value_of(
            alloc,
            scene.ask().query.as_slice(),
            name,
            *modifier,
        ),
        Leaf::Body(field, modifier) => sent_value_of(alloc, scene, field, *modifier),
        Leaf::Macro(which) => macro_value(alloc, *which, scene.ask().moment),
    }
}
