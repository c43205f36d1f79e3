// The words for faults, codes, limits and rules.
ghost use Rattle.std.specs.Prelude.{◌≡◌, ◌++◌, IfOk, codes};
ghost use Rattle.pocket_api.specs.FaultWords.{at_place, code_text, filter_text, limit_text, resolve_text, rule_fault_text, rule_key};

use pocket_types::{Action, Code, FilterFault, Limit, ResolveFault, RuleFault, Text};
use std::alloc::{AllocError, Global};

/// A fault at a place.
fn at_place(alloc: Global, fault: &str, at: u32) -> Result<Text, AllocError>
    ensures { IfOk result (λ text. text ≡ at_place fault.now at) }
{
    let text = format!(in alloc; "{fault} at {at}")?;
    Ok(Text::from_string(text))
}

/// A fault with a name.
fn with_name(alloc: Global, fault: &str, name: &str) -> Result<Text, AllocError>
    ensures { IfOk result (λ text. text ≡ fault.now ++ name.now) }
{
    let text = format!(in alloc; "{fault}{name}")?;
    Ok(Text::from_string(text))
}

pub(crate) fn filter_text(alloc: Global, fault: &FilterFault) -> Result<Text, AllocError>
    ensures { IfOk result (λ text. text ≡ filter_text fault.now) }
{
    match fault {
        FilterFault::BadByte(at) => at_place(alloc, "parse 1", *at),
        FilterFault::OpenString(at) => at_place(alloc, "parse 2", *at),
        FilterFault::Unexpected(at) => at_place(alloc, "parse 3", *at),
        FilterFault::TooLong => Text::from_str(alloc, "parse 4"),
        FilterFault::TooDeep => Text::from_str(alloc, "parse 5"),
        FilterFault::TooMany => Text::from_str(alloc, "parse 6"),
        FilterFault::NumberRange(at) => at_place(alloc, "parse 7", *at),
        FilterFault::Memory => Text::from_str(alloc, ""),
    }
}

pub(crate) fn resolve_text(alloc: Global, fault: &ResolveFault) -> Result<Text, AllocError>
    ensures { IfOk result (λ text. text ≡ resolve_text fault.now) }
{
    match fault {
        ResolveFault::NoCollection(name) => with_name(alloc, "resolve 1 ", name.as_str()),
        ResolveFault::NoField(name) => with_name(alloc, "resolve 2 ", name.as_str()),
        ResolveFault::NotRelation(name) => with_name(alloc, "resolve 3 ", name.as_str()),
        ResolveFault::BadModifier(at) => at_place(alloc, "resolve 4", *at),
        ResolveFault::TooManySteps => Text::from_str(alloc, "resolve 5"),
        ResolveFault::TooManyPrefixes => Text::from_str(alloc, "resolve 6"),
        ResolveFault::SuperuserOnly(at) => at_place(alloc, "resolve 7", *at),
        ResolveFault::HiddenField(name) => with_name(alloc, "resolve 8 ", name.as_str()),
        ResolveFault::Memory => Text::from_str(alloc, ""),
    }
}

pub(crate) fn rule_fault_text(alloc: Global, fault: &RuleFault) -> Result<Text, AllocError>
    ensures { IfOk result (λ text. text ≡ rule_fault_text fault.now) }
{
    match fault {
        RuleFault::Parse(fault) => filter_text(alloc, fault),
        RuleFault::Resolve(fault) => resolve_text(alloc, fault),
    }
}

pub(crate) fn code_text(code: Code) -> &'static str
    ensures { result.now ≡ code_text code }
{
    match code {
        Code::Kind => "kind",
        Code::Range => "range",
        Code::Required => "required",
        Code::Min => "min",
        Code::Max => "max",
        Code::Value => "value",
        Code::Missing => "missing",
        Code::Taken => "taken",
    }
}

pub(crate) fn limit_text(limit: Limit) -> &'static str
    ensures { result.now ≡ limit_text limit }
{
    match limit {
        Limit::Collections => "collections",
        Limit::Fields => "fields",
        Limit::Records => "records",
        Limit::Record => "record",
        Limit::Store => "store",
        Limit::Tokens => "tokens",
        Limit::Requests => "requests",
    }
}

/// The key of an action's rule in a collection's JSON.
pub(crate) fn rule_key(action: Action) -> &'static str
    ensures { result.now ≡ rule_key action }
{
    match action {
        Action::List => "listRule",
        Action::View => "viewRule",
        Action::Create => "createRule",
        Action::Update => "updateRule",
        Action::Delete => "deleteRule",
    }
}
