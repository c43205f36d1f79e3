// What the words of a command line mean.
ghost use Rattle.std.specs.Prelude.{◌≡◌, ◌≤◌, IfOk, IfSome, Some, is_some, map, option_and_then, true};
ghost use Rattle.std.specs.Option.{option_copied};
ghost use Rattle.std.specs.String.{string_bytes};
ghost use Rattle.pocket_words.specs.Scan.{settings_of};
ghost use Rattle.pocket_words.specs.Seen.{Gives, option_twice_copied};
ghost use Rattle.pocket_words.specs.Words as defs;
ghost use Rattle.pocket_words.specs.declared.command.Command.TheVariants as command;
ghost use Rattle.pocket_words.specs.declared.command.Verb.TheVariants.{Pipe, Serve};

use crate::command::{Command, Verb, WordFault};
use crate::forms::{file_of, number_in, token_of};
use crate::parsing::{has_flag, matches, value_of};
use crate::scan::judge;
use pocket_types::Text;
use std::alloc::{AllocError, Global};

#[tactic(auto, unfolding(crate::specs::Words::admin_of))]
fn admin_of(given: Option<&str>) -> Option<&str>
    ensures { option_copied result ≡ defs.admin_of (option_copied given.entry) }
{
    match given {
        Some(text) => token_of(text),
        None => None,
    }
}

#[tactic(auto, unfolding(crate::specs::Words::store_of))]
fn store_of(given: Option<&str>) -> Option<Option<&str>>
    ensures { option_twice_copied result ≡ defs.store_of (option_copied given.entry) }
{
    let Some(text) = given else {
        return Some(None);
    };
    match file_of(text) {
        Some(file) => Some(Some(file)),
        None => None,
    }
}

#[tactic(auto, unfolding(crate::specs::Words::number_of))]
fn number_of(given: Option<&str>, least: u64, most: u64) -> Option<u64>
    ensures value { result ≡ defs.number_of least most (option_copied given.entry) }
    ensures within { IfSome result (λ n. (least ≤ n) × (n ≤ most)) }
{
    match given {
        Some(text) => number_in(text, least, most),
        None => None,
    }
}

#[tactic(auto, unfolding(crate::specs::Words::number_or))]
fn number_or(usual: u64, given: Option<&str>, least: u64, most: u64) -> Option<u64>
    requires { (least ≤ usual) × (usual ≤ most) }
    ensures value { result ≡ defs.number_or usual least most (option_copied given.entry) }
    ensures within { IfSome result (λ n. (least ≤ n) × (n ≤ most)) }
{
    match given {
        Some(text) => number_in(text, least, most),
        None => Some(usual),
    }
}

fn file_text(alloc: Global, file: Option<&str>) -> Result<Option<Text>, AllocError>
    ensures { IfOk result (λ text. text ≡ option_copied file.entry) }
{
    match file {
        Some(file) => Ok(Some(Text::from_str(alloc, file)?)),
        None => Ok(None),
    }
}

fn pipe(
    alloc: Global,
    admin: &str,
    store: Option<&str>,
    sample: bool,
) -> Result<Command, AllocError>
    ensures { IfOk result (λ c. c ≡ command.Pipe admin.now (option_copied store.entry) sample) }
{
    let store = file_text(alloc, store)?;
    let admin = Text::from_str(alloc, admin)?;
    Ok(Command::Pipe {
        admin,
        store,
        sample,
    })
}

#[tactic(auto, unfolding(crate::specs::Words::pipe_with))]
fn pipe_with(
    alloc: Global,
    admin: Option<&str>,
    store: Option<&str>,
    sample: bool,
) -> Result<Command, WordFault>
    ensures { Gives result (defs.pipe_with (option_copied admin.entry) (option_copied store.entry) sample) }
{
    let Some(admin) = admin_of(admin) else {
        return Err(WordFault::BadWords);
    };
    let Some(store) = store_of(store) else {
        return Err(WordFault::BadWords);
    };
    if store.is_some() && sample {
        return Err(WordFault::BadWords);
    }
    Ok(pipe(alloc, admin, store, sample)?)
}

fn serve(
    alloc: Global,
    admin: &str,
    port: u16,
    workers: u32,
    connections: u64,
    store: Option<&str>,
) -> Result<Command, AllocError>
    ensures { IfOk result (λ c. c ≡ command.Serve admin.now port workers connections (option_copied store.entry)) }
{
    let store = file_text(alloc, store)?;
    let admin = Text::from_str(alloc, admin)?;
    Ok(Command::Serve {
        admin,
        port,
        workers,
        connections,
        store,
    })
}

#[tactic(auto, unfolding(crate::specs::Words::serve_with))]
fn serve_with(
    alloc: Global,
    admin: Option<&str>,
    port: Option<&str>,
    workers: Option<&str>,
    connections: Option<&str>,
    store: Option<&str>,
) -> Result<Command, WordFault>
    ensures { Gives result (defs.serve_with (option_copied admin.entry) (option_copied port.entry) (option_copied workers.entry) (option_copied connections.entry) (option_copied store.entry)) }
{
    let Some(admin) = admin_of(admin) else {
        return Err(WordFault::BadWords);
    };
    let Some(port) = number_of(port, 1, 65_535) else {
        return Err(WordFault::BadWords);
    };
    let Some(workers) = number_or(4, workers, 1, 64) else {
        return Err(WordFault::BadWords);
    };
    let Some(connections) = number_or(1_000_000, connections, 1, 1_000_000) else {
        return Err(WordFault::BadWords);
    };
    let Some(store) = store_of(store) else {
        return Err(WordFault::BadWords);
    };
    Ok(serve(
        alloc,
        admin,
        port as u16,
        workers as u32,
        connections,
        store,
    )?)
}

#[tactic(auto, unfolding(crate::specs::Words::load_of))]
fn load_of(words: &[String]) -> Option<Command>
    ensures { result ≡ defs.load_of (map string_bytes words.now) }
{
    let [start, count] = words else {
        return None;
    };
    let start = number_in(start.as_str(), 0, 999_999)?;
    let count = number_in(count.as_str(), 1, 50_000)?;
    Some(Command::Load {
        start: start as u32,
        count: count as u32,
    })
}

#[tactic(auto, unfolding(crate::specs::Words::check_of))]
fn check_of(words: &[String]) -> Option<Command>
    ensures { result ≡ defs.check_of (map string_bytes words.now) }
{
    if words.is_empty() {
        Some(Command::Check)
    } else {
        None
    }
}

/// The command that a definition has, where it has one.
fn or_bad(command: Option<Command>) -> Result<Command, WordFault>
    ensures { Gives result command }
{
    match command {
        Some(command) => Ok(command),
        None => Err(WordFault::BadWords),
    }
}

/// The command of words that are judged good, as clap reads them.
fn read_pipe(alloc: Global, words: &[String]) -> Result<Command, WordFault>
    requires { is_some (settings_of Pipe (map string_bytes words.now)) ≡ true }
    ensures { Gives result (option_and_then defs.pipe_of (settings_of Pipe (map string_bytes words.now))) }
{
    match matches(alloc, Verb::Pipe, words) {
        Ok(found) => {
            let admin = value_of(&found, "admin");
            let store = value_of(&found, "store");
            let sample = has_flag(&found, "sample");
            pipe_with(alloc, admin, store, sample)
        }
        Err(fault) => Err(fault),
    }
}

fn pipe_of(alloc: Global, words: &[String]) -> Result<Command, WordFault>
    ensures { Gives result (option_and_then defs.pipe_of (settings_of Pipe (map string_bytes words.now))) }
{
    match judge(alloc, Verb::Pipe, words) {
        Ok(()) => read_pipe(alloc, words),
        Err(fault) => Err(fault),
    }
}

/// The command of words that are judged good, as clap reads them.
fn read_serve(alloc: Global, words: &[String]) -> Result<Command, WordFault>
    requires { is_some (settings_of Serve (map string_bytes words.now)) ≡ true }
    ensures { Gives result (option_and_then defs.serve_of (settings_of Serve (map string_bytes words.now))) }
{
    match matches(alloc, Verb::Serve, words) {
        Ok(found) => {
            let admin = value_of(&found, "admin");
            let port = value_of(&found, "port");
            let workers = value_of(&found, "workers");
            let connections = value_of(&found, "connections");
            let store = value_of(&found, "store");
            serve_with(alloc, admin, port, workers, connections, store)
        }
        Err(fault) => Err(fault),
    }
}

fn serve_of(alloc: Global, words: &[String]) -> Result<Command, WordFault>
    ensures { Gives result (option_and_then defs.serve_of (settings_of Serve (map string_bytes words.now))) }
{
    match judge(alloc, Verb::Serve, words) {
        Ok(()) => read_serve(alloc, words),
        Err(fault) => Err(fault),
    }
}

/// The command of this name, with the words behind it.
#[tactic(auto, unfolding(crate::specs::Words::command_named))]
fn command_named(alloc: Global, name: &str, words: &[String]) -> Result<Command, WordFault>
    ensures { Gives result (defs.command_named name.now (map string_bytes words.now)) }
{
    match name {
        "pipe" => pipe_of(alloc, words),
        "serve" => serve_of(alloc, words),
        "load" => or_bad(load_of(words)),
        "check" => or_bad(check_of(words)),
        _ => Err(WordFault::BadWords),
    }
}

/// The command that the words behind the program's name give.
#[tactic(auto, unfolding(crate::specs::Words::command_of))]
pub fn read_words(alloc: Global, words: &[String]) -> Result<Command, WordFault>
    ensures { Gives result (defs.command_of (map string_bytes words.now)) }
{
    match words {
        [] => Err(WordFault::BadWords),
        [name, rest @ ..] => command_named(alloc, name.as_str(), rest),
    }
}
