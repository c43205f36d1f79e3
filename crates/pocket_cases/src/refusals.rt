// Causes of replies from words, and the replies that they give.
use pocket_api::{
    Reply, ReplyBody, Why, data_of, fixed_bytes, item_jv, refusal_jv, reply_bytes, status_of,
};
use pocket_cases_text::{Trouble, caller_of, in_both_ways, name_of};
use pocket_types::{
    Action, Code, FieldFault, FilterFault, Id, Limit, ResolveFault, RuleFault, Seq, Text,
};
use std::alloc::{AllocError, Global};

// ---- parts of causes

/// The first word, and those behind it.
fn cut(words: &str) -> (&str, &str) {
    words.split_once(' ').unwrap_or((words, ""))
}

fn number_of(word: &str) -> Result<u32, Trouble> {
    Ok(word.parse::<u32>().ok().ok_or("no number")?)
}

fn bytes_number(word: &str) -> Result<u64, Trouble> {
    Ok(word.parse::<u64>().ok().ok_or("no number")?)
}

fn filter_fault_of(words: &str) -> Option<Result<FilterFault, Trouble>> {
    let (fault, place) = cut(words);
    match fault {
        "BadByte" => Some(number_of(place).map(FilterFault::BadByte)),
        "OpenString" => Some(number_of(place).map(FilterFault::OpenString)),
        "Unexpected" => Some(number_of(place).map(FilterFault::Unexpected)),
        "NumberRange" => Some(number_of(place).map(FilterFault::NumberRange)),
        "TooLong" => Some(Ok(FilterFault::TooLong)),
        "TooDeep" => Some(Ok(FilterFault::TooDeep)),
        "TooMany" => Some(Ok(FilterFault::TooMany)),
        _ => None,
    }
}

/// The fault that is one of this name, where such a one is.
fn named_fault(word: &str, name: Text) -> Option<ResolveFault> {
    match word {
        "NoCollection" => Some(ResolveFault::NoCollection(name)),
        "NoField" => Some(ResolveFault::NoField(name)),
        "NotRelation" => Some(ResolveFault::NotRelation(name)),
        "HiddenField" => Some(ResolveFault::HiddenField(name)),
        _ => None,
    }
}

fn resolve_fault_of(alloc: Global, words: &str) -> Result<ResolveFault, Trouble> {
    let (fault, rest) = cut(words);
    match fault {
        "BadModifier" => number_of(rest).map(ResolveFault::BadModifier),
        "SuperuserOnly" => number_of(rest).map(ResolveFault::SuperuserOnly),
        "TooManySteps" => Ok(ResolveFault::TooManySteps),
        "TooManyPrefixes" => Ok(ResolveFault::TooManyPrefixes),
        _ => named_fault(fault, Text::from_str(alloc, rest)?).ok_or(Trouble::Case("no such fault")),
    }
}

fn rule_fault_of(alloc: Global, words: &str) -> Result<RuleFault, Trouble> {
    match filter_fault_of(words) {
        Some(fault) => Ok(RuleFault::Parse(fault?)),
        None => Ok(RuleFault::Resolve(resolve_fault_of(alloc, words)?)),
    }
}

fn action_of(word: &str) -> Result<Action, Trouble> {
    match word {
        "list" => Ok(Action::List),
        "view" => Ok(Action::View),
        "create" => Ok(Action::Create),
        "update" => Ok(Action::Update),
        "delete" => Ok(Action::Delete),
        _ => Err(Trouble::Case("no such action")),
    }
}

fn code_of(word: &str) -> Result<Code, Trouble> {
    match word {
        "kind" => Ok(Code::Kind),
        "range" => Ok(Code::Range),
        "required" => Ok(Code::Required),
        "min" => Ok(Code::Min),
        "max" => Ok(Code::Max),
        "value" => Ok(Code::Value),
        "missing" => Ok(Code::Missing),
        "taken" => Ok(Code::Taken),
        _ => Err(Trouble::Case("no such code")),
    }
}

fn limit_of(word: &str) -> Result<Limit, Trouble> {
    match word {
        "collections" => Ok(Limit::Collections),
        "fields" => Ok(Limit::Fields),
        "records" => Ok(Limit::Records),
        "record" => Ok(Limit::Record),
        "store" => Ok(Limit::Store),
        "tokens" => Ok(Limit::Tokens),
        "requests" => Ok(Limit::Requests),
        _ => Err(Trouble::Case("no such limit")),
    }
}

/// A fault as `FIELD=CODE`.
fn field_fault_of(alloc: Global, word: &str) -> Result<FieldFault, Trouble> {
    let (field, code) = word.split_once('=').ok_or("no code")?;
    let code = code_of(code)?;
    Ok(FieldFault {
        field: name_of(alloc, field)?,
        code,
    })
}

fn field_faults_of(alloc: Global, words: &str) -> Result<Seq<FieldFault>, Trouble> {
    let mut faults = Seq::new(alloc);
    for word in words.split(' ') {
        faults.push(field_fault_of(alloc, word)?)?;
    }
    Ok(faults)
}

// ---- causes

/// The cause of a word alone.
fn plain_why(word: &str) -> Result<Why, Trouble> {
    match word {
        "NoRoute" => Ok(Why::NoRoute),
        "NoCollection" => Ok(Why::NoCollection),
        "NoRecord" => Ok(Why::NoRecord),
        "NoClient" => Ok(Why::NoClient),
        "OtherCaller" => Ok(Why::OtherCaller),
        "BadBody" => Ok(Why::BadBody),
        "IdTaken" => Ok(Why::IdTaken),
        "NameTaken" => Ok(Why::NameTaken),
        "TooManyTopics" => Ok(Why::TooManyTopics),
        "KeeperFault" => Ok(Why::KeeperFault),
        "Memory" => Ok(Why::Memory),
        _ => Err(Trouble::Case("no such cause")),
    }
}

fn required_why(alloc: Global, words: &str) -> Result<Why, Trouble> {
    let (collection, rest) = cut(words);
    let (id, field) = cut(rest);
    let id = Id::read(id).ok_or("no id")?;
    let collection = name_of(alloc, collection)?;
    Ok(Why::Required(collection, id, name_of(alloc, field)?))
}

fn broken_why(alloc: Global, words: &str) -> Result<Why, Trouble> {
    let (collection, rest) = cut(words);
    let (action, fault) = cut(rest);
    let action = action_of(action)?;
    let fault = rule_fault_of(alloc, fault)?;
    Ok(Why::BrokenRule(name_of(alloc, collection)?, action, fault))
}

fn referenced_why(alloc: Global, words: &str) -> Result<Why, Trouble> {
    let (collection, field) = cut(words);
    let collection = name_of(alloc, collection)?;
    Ok(Why::Referenced(collection, name_of(alloc, field)?))
}

fn full_why(words: &str) -> Result<Why, Trouble> {
    let (entries, bytes) = cut(words);
    Ok(Why::HistoryFull(bytes_number(entries)?, bytes_number(bytes)?))
}

fn filter_why(words: &str) -> Result<Why, Trouble> {
    match filter_fault_of(words) {
        Some(fault) => Ok(Why::BadFilter(fault?)),
        None => Err(Trouble::Case("no such fault")),
    }
}

/// A cause with a collection and one of its rules.
fn rule_why(alloc: Global, word: &str, words: &str) -> Result<Why, Trouble> {
    let (collection, action) = cut(words);
    let action = action_of(action)?;
    let collection = name_of(alloc, collection)?;
    Ok(if word == "Locked" {
        Why::Locked(collection, action)
    } else {
        Why::RuleFalse(collection, action)
    })
}

/// A cause with one part, where the word is one of such a cause.
fn part_why(alloc: Global, word: &str, rest: &str) -> Option<Result<Why, Trouble>> {
    match word {
        "BadPath" => Some(resolve_fault_of(alloc, rest).map(Why::BadPath)),
        "BadSort" => Some(number_of(rest).map(Why::BadSort)),
        "BadTopic" => Some(number_of(rest).map(Why::BadTopic)),
        "BadValue" => Some(name_of(alloc, rest).map(Why::BadValue)),
        "Invalid" => Some(field_faults_of(alloc, rest).map(Why::Invalid)),
        "Limit" => Some(limit_of(rest).map(Why::Limit)),
        _ => None,
    }
}

/// The cause that words stand for.
fn why_of(alloc: Global, words: &str) -> Result<Why, Trouble> {
    let (word, rest) = cut(words);
    if let Some(why) = part_why(alloc, word, rest) {
        return why;
    }
    match word {
        "Locked" | "RuleFalse" => rule_why(alloc, word, rest),
        "BadFilter" => filter_why(rest),
        "Required" => required_why(alloc, rest),
        "Shape" => Ok(Why::Shape(Text::from_str(alloc, rest)?)),
        "BrokenRule" => broken_why(alloc, rest),
        "Referenced" => referenced_why(alloc, rest),
        "HistoryFull" => full_why(rest),
        _ => plain_why(word),
    }
}

// ---- replies

/// The reply that refuses a batch for that of its item, as `NUMBER CAUSE`.
fn item_reply(alloc: Global, words: &str) -> Result<Reply, Trouble> {
    let (index, cause) = cut(words);
    let index = number_of(index)?;
    let why = why_of(alloc, cause)?;
    let detail = item_jv(alloc, index, status_of(&why), data_of(alloc, &why)?)?;
    drop(why);
    Ok(Reply::refusal(alloc, Why::Item(index), 400, detail, 5)?)
}

/// The reply to a caller who isn't the administrator.
fn caller_reply(alloc: Global, word: &str) -> Result<Reply, Trouble> {
    let caller = caller_of(alloc, word)?;
    Ok(Reply::not_admin(alloc, &caller, 5)?)
}

/// The reply that words stand for.
fn reply_of(alloc: Global, words: &str) -> Result<Reply, Trouble> {
    let (word, rest) = cut(words);
    match word {
        "done" => Ok(Reply::done(5)),
        "shown" => Ok(Reply::shown(Text::from_str(alloc, rest)?, 5)),
        "Memory" => Ok(Reply::no_memory(5)),
        "NotAdmin" => caller_reply(alloc, rest),
        "Item" => item_reply(alloc, rest),
        _ => Ok(Reply::refused(alloc, why_of(alloc, words)?, 5)?),
    }
}

/// The text of a refusal for this cause, by its tree.
fn refusal_text(alloc: Global, why: &Why) -> Result<Text, AllocError> {
    refusal_jv(alloc, status_of(why), data_of(alloc, why)?)?.print(alloc)
}

/// The status and the text of a reply.
fn told(alloc: Global, reply: &Reply) -> Result<String, AllocError> {
    match &reply.body {
        ReplyBody::Empty => format!(in alloc; "{}", reply.status),
        ReplyBody::Made(text) => format!(in alloc; "{} {}", reply.status, text.as_str()),
        ReplyBody::NoMemory | ReplyBody::NotKept => {
            let text = refusal_text(alloc, &reply.why)?;
            format!(in alloc; "{} {}", reply.status, text.as_str())
        }
    }
}

/// The status and the text of a reply with the place 5.
fn told_there(alloc: Global, reply: &Reply) -> Result<String, Trouble> {
    if reply.at == 5 {
        Ok(told(alloc, reply)?)
    } else {
        Err(Trouble::Case("another place"))
    }
}

/// The status and the text of the reply for a cause.
pub fn why(alloc: Global, words: &str) -> Result<String, Trouble> {
    match reply_of(alloc, words) {
        Ok(reply) => {
            let told = told_there(alloc, &reply);
            drop(reply);
            told
        }
        Err(trouble) => Err(trouble),
    }
}

fn text_of(alloc: Global, bytes: &[u8]) -> Result<String, Trouble> {
    match str::from_utf8(bytes) {
        Ok(text) => Ok(String::from_str(alloc, text)?),
        Err(_) => Err(Trouble::Case("no UTF-8")),
    }
}

/// The bytes of a reply as a text.
fn made_text(alloc: Global, reply: &Reply, close: bool) -> Result<String, Trouble> {
    text_of(alloc, reply_bytes(alloc, reply, close)?.as_slice())
}

/// The bytes of a reply; those that take no memory are the same.
fn bytes_told(alloc: Global, reply: &Reply, close: bool) -> Result<String, Trouble> {
    let made = made_text(alloc, reply, close)?;
    match fixed_bytes(reply, close) {
        Some(bytes) => in_both_ways(alloc, made, text_of(alloc, bytes), "without memory"),
        None => Ok(made),
    }
}

/// The bytes of a reply, `keep` or `close` first.
pub fn bytes(alloc: Global, words: &str) -> Result<String, Trouble> {
    let (end, words) = cut(words);
    match reply_of(alloc, words) {
        Ok(reply) => {
            let told = bytes_told(alloc, &reply, end == "close");
            drop(reply);
            told
        }
        Err(trouble) => Err(trouble),
    }
}
