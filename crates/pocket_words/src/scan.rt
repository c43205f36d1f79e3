// The options that stand among the words of a command, read word by word.
ghost use Rattle.std.specs.Prelude.{◌≡◌, ◌≢◌, MatchResult, None, Some, is_some, map, option_map, true};
ghost use Rattle.std.specs.List.{list_any};
ghost use Rattle.std.specs.Option.{option_copied};
ghost use Rattle.std.specs.String.{string_bytes};
ghost use Rattle.clap.specs.Lexer.{long_of, name_and_value, strip_byte};
ghost use Rattle.pocket_words.specs.Scan as defs;
ghost use Rattle.pocket_words.specs.Seen.{GivesAs, Scans, scan_of, setting_of};
ghost use Rattle.pocket_words.specs.declared.command.WordFault.TheVariants.{BadWords, Memory};

use crate::command::{Verb, WordFault};
use std::alloc::Global;

/// An option that stands among the words; the value of a flag is empty.
#[derive(Clone, Copy)]
pub(crate) struct Setting<'a> {
    pub name: &'a str,
    pub value: &'a str,
}

fn has_value(verb: Verb, name: &str) -> bool
    ensures { result ≡ defs.has_value verb name.now }
{
    match verb {
        Verb::Pipe => matches!(name, "admin" | "store"),
        Verb::Serve => matches!(name, "admin" | "store" | "port" | "workers" | "connections"),
    }
}

fn is_flag(verb: Verb, name: &str) -> bool
    ensures { result ≡ defs.is_flag verb name.now }
{
    match verb {
        Verb::Pipe => name == "sample",
        Verb::Serve => false,
    }
}

/// Whether an option stands among these.
fn has_setting(settings: &[Setting<'_>], name: &str) -> bool
    ensures { result ≡ list_any (defs.is_named name.now) (map setting_of settings.now) }
{
    match settings {
        [] => false,
        [first, rest @ ..] => first.name == name || has_setting(rest, name),
    }
}

// What follows a first hyphen.
fn behind_dash(word: &str) -> Option<&str>
    ensures { option_copied result ≡ strip_byte 45 word.now }
{
    word.strip_prefix('-')
}

// What stands before the first `=`, and what stands behind it if there is one.
fn name_and_value(text: &str) -> (&str, Option<&str>)
    ensures { (result.0.now, option_copied result.1) ≡ name_and_value text.now }
{
    match text.split_once('=') {
        Some((name, value)) => (name, Some(value)),
        None => (text, None),
    }
}

/// `--name` or `--name=value`, as the name and the value.
fn option_in(word: &str) -> Option<(&str, Option<&str>)>
    ensures { option_map (λ p. (p.0.now, option_copied p.1)) result ≡ long_of word.now }
{
    let rest = behind_dash(behind_dash(word)?)?;
    if rest.is_empty() {
        return None;
    }
    Some(name_and_value(rest))
}

/// Adds an option, which may stand once. No option waits for a value then.
fn add<'a>(
    settings: &mut Vec<Setting<'a>>,
    name: &'a str,
    value: &'a str,
) -> Result<Option<&'a str>, WordFault>
    ensures { Scans settings.new.items result (defs.added name.now value.now (map setting_of settings.old.items)) }
{
    if has_setting(settings.as_slice(), name) {
        return Err(WordFault::BadWords);
    }
    settings.push(Setting { name, value })?;
    Ok(None)
}

/// Reads an option with the value that stands in its word, if there is one. Gives its name where it waits for its value.
fn read_option<'a>(
    settings: &mut Vec<Setting<'a>>,
    verb: Verb,
    name: &'a str,
    value: Option<&'a str>,
) -> Result<Option<&'a str>, WordFault>
    ensures { Scans settings.new.items result (defs.name_met verb name.now (option_copied value.entry) (map setting_of settings.old.items)) }
{
    match value {
        Some(value) if has_value(verb, name) => add(settings, name, value),
        Some(_) => Err(WordFault::BadWords),
        None if is_flag(verb, name) => add(settings, name, ""),
        None if has_value(verb, name) => Ok(Some(name)),
        None => Err(WordFault::BadWords),
    }
}

fn has_dash(text: &str) -> bool
    ensures { result ≡ defs.has_dash text.now }
{
    match text.as_bytes() {
        [] => false,
        [first, ..] => *first == b'-',
    }
}

/// Reads the value of an option in a word of its own.
fn read_value<'a>(
    settings: &mut Vec<Setting<'a>>,
    name: &'a str,
    word: &'a str,
) -> Result<Option<&'a str>, WordFault>
    ensures { Scans settings.new.items result (defs.value_met name.now word.now (map setting_of settings.old.items)) }
{
    if has_dash(word) {
        return Err(WordFault::BadWords);
    }
    add(settings, name, word)
}

/// Reads a word: the value for which an option waits, or an option.
#[tactic(auto, unfolding(crate::specs::Scan::next_scan))]
fn read_word<'a>(
    settings: &mut Vec<Setting<'a>>,
    verb: Verb,
    waiting: Option<&'a str>,
    word: &'a str,
) -> Result<Option<&'a str>, WordFault>
    ensures { Scans settings.new.items result (defs.next_scan verb (scan_of settings.old.items waiting.entry) word.now) }
{
    if let Some(name) = waiting {
        return read_value(settings, name, word);
    }
    match option_in(word) {
        Some((name, value)) => read_option(settings, verb, name, value),
        None => Err(WordFault::BadWords),
    }
}

/// The options that words are, in their order.
#[tactic(auto, unfolding(crate::specs::Scan::scanned))]
fn settings_of<'a>(
    alloc: Global,
    verb: Verb,
    words: &'a [String],
) -> Result<Vec<Setting<'a>>, WordFault>
    ensures { GivesAs (λ settings. map setting_of settings.items) result (defs.settings_of verb (map string_bytes words.now)) }
{
    let mut settings = Vec::new(alloc);
    let mut waiting = None;
    for word in words {
        waiting = read_word(&mut settings, verb, waiting, word.as_str())?;
    }
    if waiting.is_some() {
        return Err(WordFault::BadWords);
    }
    Ok(settings)
}

/// Judges the words behind a command's name. They are options, each with its value and each at most once.
pub(crate) fn judge(alloc: Global, verb: Verb, words: &[String]) -> Result<(), WordFault>
    ensures { MatchResult result (λ _. is_some (defs.settings_of verb (map string_bytes words.now)) ≡ true)
        (λ fault. fault ≢ Memory → (fault ≡ BadWords) × (defs.settings_of verb (map string_bytes words.now) ≡ None)) }
{
    match settings_of(alloc, verb, words) {
        Ok(_) => Ok(()),
        Err(fault) => Err(fault),
    }
}
