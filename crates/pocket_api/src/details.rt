// What refusals tell beside their message.
ghost use Rattle.std.specs.Prelude.{◌≡◌, ◌++◌, ◌∷◌, [], IfOk, OnOk, codes};
ghost use Rattle.pocket_types.specs.Maps.{map_jv, member_of};
ghost use Rattle.pocket_api.specs.FaultWords.{filter_text, resolve_text, rule_fault_text, rule_key};
ghost use Rattle.pocket_api.specs.Refusals.{at_number, broken_rule_jv, data_of, dotted, false_rule, faults_jv, no_data, put_fault, says, slashed, text_jv};

use crate::fault_words::{
    code_text, filter_text, limit_text, resolve_text, rule_fault_text, rule_key,
};
use crate::why::Why;
use pocket_types::{
    Action, FieldFault, FilterFault, Id, Jv, Member, Name, ResolveFault, RuleFault, Seq, Text,
};
use std::alloc::{AllocError, Global};
use std::collections::BTreeMap;

// ---- maps

/// Adds a member.
pub(crate) fn push_member(
    members: &mut Vec<Member>,
    alloc: Global,
    key: &str,
    value: Jv,
) -> Result<(), AllocError>
    ensures { IfOk result (λ _. members.new.items ≡ members.old.items ++ member_of (key.now, value) ∷ []) }
{
    let key = Text::from_str(alloc, key)?;
    members.push(Member { key, value })?;
    Ok(())
}

fn no_data(alloc: Global) -> Jv
    ensures { result ≡ no_data }
{
    Jv::Map(Seq::new(alloc))
}

/// One key with a text.
fn says(alloc: Global, key: &str, text: Text) -> Result<Jv, AllocError>
    ensures { IfOk result (λ tree. tree ≡ says key.now text) }
{
    let mut members = Vec::new(alloc);
    push_member(&mut members, alloc, key, Jv::Text(text))?;
    Ok(Jv::Map(Seq::from_vec(members)))
}

/// One key with a word.
fn says_word(alloc: Global, key: &str, word: &str) -> Result<Jv, AllocError>
    ensures { IfOk result (λ tree. tree ≡ says key.now word.now) }
{
    let text = Text::from_str(alloc, word)?;
    says(alloc, key, text)
}

/// One key with the number of the one that is meant.
fn says_number(alloc: Global, key: &str, number: u32) -> Result<Jv, AllocError>
    ensures { IfOk result (λ tree. tree ≡ says key.now (at_number number)) }
{
    let text = format!(in alloc; "at {number}")?;
    says(alloc, key, Text::from_string(text))
}

// ---- names

/// Two names with a dot between them.
fn dotted(alloc: Global, one: &str, two: &str) -> Result<Text, AllocError>
    ensures { IfOk result (λ text. text ≡ dotted one.now two.now) }
{
    let text = format!(in alloc; "{one}.{two}")?;
    Ok(Text::from_string(text))
}

/// A record's collection and id and a field, with slashes between them.
fn slashed(alloc: Global, collection: &str, id: &str, field: &str) -> Result<Text, AllocError>
    ensures { IfOk result (λ text. text ≡ slashed collection.now id.now field.now) }
{
    let text = format!(in alloc; "{collection}/{id}/{field}")?;
    Ok(Text::from_string(text))
}

// ---- data

fn filter_data(alloc: Global, fault: &FilterFault) -> Result<Jv, AllocError>
    ensures { IfOk result (λ tree. tree ≡ says (codes "filter") (filter_text fault.now)) }
{
    let text = filter_text(alloc, fault)?;
    says(alloc, "filter", text)
}

fn path_data(alloc: Global, fault: &ResolveFault) -> Result<Jv, AllocError>
    ensures { IfOk result (λ tree. tree ≡ says (codes "filter") (resolve_text fault.now)) }
{
    let text = resolve_text(alloc, fault)?;
    says(alloc, "filter", text)
}

fn required_data(alloc: Global, collection: &Name, id: &Id, field: &Name) -> Result<Jv, AllocError>
    ensures { IfOk result (λ tree. tree ≡ says (codes "required") (slashed collection.now id.now field.now)) }
{
    let text = slashed(alloc, collection.as_str(), id.as_str(), field.as_str())?;
    says(alloc, "required", text)
}

fn referenced_data(alloc: Global, collection: &Name, field: &Name) -> Result<Jv, AllocError>
    ensures { IfOk result (λ tree. tree ≡ says (codes "referenced") (dotted collection.now field.now)) }
{
    let text = dotted(alloc, collection.as_str(), field.as_str())?;
    says(alloc, "referenced", text)
}

fn false_rule_data(alloc: Global, action: Action) -> Result<Jv, AllocError>
    ensures { IfOk result (λ tree. tree ≡ (false_rule action).1) }
{
    match action {
        Action::Create => says_word(alloc, "rule", "create"),
        Action::List | Action::View | Action::Update | Action::Delete => Ok(no_data(alloc)),
    }
}

/// The text of a rule's fault.
fn rule_fault_jv(alloc: Global, fault: &RuleFault) -> Result<Jv, AllocError>
    ensures { IfOk result (λ tree. tree ≡ text_jv (rule_fault_text fault.now)) }
{
    Ok(Jv::Text(rule_fault_text(alloc, fault)?))
}

/// The name of a collection's rule.
fn rule_name_jv(alloc: Global, collection: &Name, action: Action) -> Result<Jv, AllocError>
    ensures { IfOk result (λ tree. tree ≡ text_jv (dotted collection.now (rule_key action))) }
{
    Ok(Jv::Text(dotted(alloc, collection.as_str(), rule_key(action))?))
}

fn broken_rule_data(
    alloc: Global,
    collection: &Name,
    action: Action,
    fault: &RuleFault,
) -> Result<Jv, AllocError>
    ensures { IfOk result (λ tree. tree ≡ broken_rule_jv collection.now action fault.now) }
{
    let mut members = Vec::new(alloc);
    push_member(&mut members, alloc, "fault", rule_fault_jv(alloc, fault)?)?;
    push_member(
        &mut members,
        alloc,
        "rule",
        rule_name_jv(alloc, collection, action)?,
    )?;
    Ok(Jv::Map(Seq::from_vec(members)))
}

/// Puts a fault among those found; of equal fields the later one counts.
#[tactic(auto, unfolding(pocket_types::specs::Maps::put))]
fn put_fault(
    found: &mut BTreeMap<Text, Jv>,
    alloc: Global,
    fault: &FieldFault,
) -> Result<(), AllocError>
    ensures { OnOk result (found.new.entries ≡ put_fault found.old.entries fault.now) }
{
    let key = Text::from_str(alloc, fault.field.as_str())?;
    let code = Text::from_str(alloc, code_text(fault.code))?;
    drop(found.insert(key, Jv::Text(code))?);
    Ok(())
}

/// The map of entries.
fn entries_jv(alloc: Global, entries: BTreeMap<Text, Jv>) -> Result<Jv, AllocError>
    ensures { IfOk result (λ tree. tree ≡ map_jv entries.entries) }
{
    let mut members = Vec::new(alloc);
    for (key, value) in entries {
        members.push(Member { key, value })?;
    }
    Ok(Jv::Map(Seq::from_vec(members)))
}

/// Each field with its code.
fn faults_jv(alloc: Global, faults: &[FieldFault]) -> Result<Jv, AllocError>
    ensures { IfOk result (λ tree. tree ≡ faults_jv faults.now) }
{
    let mut found = BTreeMap::new(alloc);
    for fault in faults {
        put_fault(&mut found, alloc, fault)?;
    }
    entries_jv(alloc, found)
}

/// What a refusal for this cause tells beside its message; that of a batch's item is told by `item_jv`.
pub fn data_of(alloc: Global, why: &Why) -> Result<Jv, AllocError>
    ensures { IfOk result (λ tree. tree ≡ data_of why.now) }
{
    match why {
        Why::Done
        | Why::NoRoute
        | Why::NoCollection
        | Why::NoRecord
        | Why::NoClient
        | Why::NotAdmin
        | Why::Locked(_, _)
        | Why::OtherCaller
        | Why::Item(_)
        | Why::KeeperFault
        | Why::HistoryFull(_, _)
        | Why::Memory => Ok(no_data(alloc)),
        Why::RuleFalse(_, action) => false_rule_data(alloc, *action),
        Why::BadFilter(fault) => filter_data(alloc, fault),
        Why::BadPath(fault) => path_data(alloc, fault),
        Why::BadSort(number) => says_number(alloc, "sort", *number),
        Why::BadBody => says_word(alloc, "body", "bad"),
        Why::BadValue(name) => says_word(alloc, name.as_str(), "kind"),
        Why::Invalid(faults) => faults_jv(alloc, faults.as_slice()),
        Why::IdTaken => says_word(alloc, "id", "taken"),
        Why::Required(collection, id, field) => required_data(alloc, collection, id, field),
        Why::Limit(limit) => says_word(alloc, "limit", limit_text(*limit)),
        Why::Shape(place) => says_word(alloc, "shape", place.as_str()),
        Why::NameTaken => says_word(alloc, "name", "taken"),
        Why::BrokenRule(collection, action, fault) => {
            broken_rule_data(alloc, collection, *action, fault)
        }
        Why::Referenced(collection, field) => referenced_data(alloc, collection, field),
        Why::TooManyTopics => says_word(alloc, "subscriptions", "limit"),
        Why::BadTopic(number) => says_number(alloc, "subscriptions", *number),
    }
}
