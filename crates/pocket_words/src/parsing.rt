// What clap is told of the commands, and what it finds in words that are judged good.
ghost use Rattle.std.specs.Prelude.{◌≡◌, IfOk, IfErr, Some, codes, false, is_some, map, true};
ghost use Rattle.std.specs.Option.{option_copied};
ghost use Rattle.std.specs.String.{string_bytes};
ghost use Rattle.clap.specs.Matches.{found_of};
ghost use Rattle.clap.specs.Simple.{app_of, matches_of};
ghost use Rattle.clap.specs.Walk.{first_of, one_of, rows_of, rule_of};
ghost use Rattle.pocket_words.specs.Scan.{settings_of};
ghost use Rattle.pocket_words.specs.Told.{app_for, flag_rule, kept_app, option_rule, plain_app};
ghost use Rattle.pocket_words.specs.declared.command.Verb.TheVariants.{Pipe, Serve};
ghost use Rattle.pocket_words.specs.declared.command.WordFault.TheVariants.{Memory};

use crate::command::{Verb, WordFault};
use clap::error::ErrorKind;
use clap::{Arg, ArgAction, ArgMatches, Command};
use std::alloc::{AllocError, Global};

fn option<'a>(alloc: Global, name: &'a str) -> Arg<'a>
    ensures rule { rule_of result ≡ option_rule name.entry.now }
    ensures local { result.global ≡ false }
{
    Arg::new(alloc, name).long(name).action(ArgAction::Set)
}

fn flag<'a>(alloc: Global, name: &'a str) -> Arg<'a>
    ensures rule { rule_of result ≡ flag_rule name.entry.now }
    ensures local { result.global ≡ false }
{
    Arg::new(alloc, name).long(name).action(ArgAction::SetTrue)
}

/// A command to which clap adds no option of its own.
fn plain<'a>(alloc: Global, name: &'a str) -> Command<'a>
    ensures { app_of result ≡ plain_app name.entry.now }
{
    Command::new(alloc, name)
        .no_binary_name(true)
        .disable_help_flag(true)
}

/// A command with the options `--admin` and `--store`.
fn kept<'a>(alloc: Global, name: &'a str) -> Result<Command<'a>, AllocError>
    ensures { IfOk result (λ c. app_of c ≡ kept_app name.entry.now) }
{
    plain(alloc, name)
        .arg(option(alloc, "admin"))?
        .arg(option(alloc, "store"))
}

fn pipe<'a>(alloc: Global) -> Result<Command<'a>, AllocError>
    ensures { IfOk result (λ c. app_of c ≡ app_for Pipe) }
{
    kept(alloc, "pipe")?.arg(flag(alloc, "sample"))
}

fn serve<'a>(alloc: Global) -> Result<Command<'a>, AllocError>
    ensures { IfOk result (λ c. app_of c ≡ app_for Serve) }
{
    kept(alloc, "serve")?
        .arg(option(alloc, "port"))?
        .arg(option(alloc, "workers"))?
        .arg(option(alloc, "connections"))
}

fn told<'a>(alloc: Global, verb: Verb) -> Result<Command<'a>, AllocError>
    ensures { IfOk result (λ c. app_of c ≡ app_for verb) }
{
    match verb {
        Verb::Pipe => pipe(alloc),
        Verb::Serve => serve(alloc),
    }
}

/// What clap finds in words that are judged good. It refuses none of them.
fn parsed<'a>(
    command: Command<'a>,
    verb: Verb,
    words: &'a [String],
) -> Result<ArgMatches<'a>, WordFault>
    requires app { app_of command ≡ app_for verb }
    requires good { is_some (settings_of verb (map string_bytes words.now)) ≡ true }
    ensures found { IfOk result (λ m. rows_of (found_of m) ≡ matches_of (app_for verb) (map string_bytes words.entry.now)) }
    ensures memory { IfErr result (λ fault. fault ≡ Memory) }
{
    match command.try_get_matches_from(words) {
        Ok(matches) => Ok(matches),
        Err(error) => match error.kind() {
            ErrorKind::OutOfMemory => Err(WordFault::Memory),
            _ => unreachable!(),
        },
    }
}

/// The values of the options that stand among words that are judged good.
pub(crate) fn matches<'a>(
    alloc: Global,
    verb: Verb,
    words: &'a [String],
) -> Result<ArgMatches<'a>, WordFault>
    requires { is_some (settings_of verb (map string_bytes words.now)) ≡ true }
    ensures found { IfOk result (λ m. rows_of (found_of m) ≡ matches_of (app_for verb) (map string_bytes words.entry.now)) }
    ensures memory { IfErr result (λ fault. fault ≡ Memory) }
{
    match told(alloc, verb) {
        Ok(command) => parsed(command, verb, words),
        Err(_) => Err(WordFault::Memory),
    }
}

/// The value of an option.
pub(crate) fn value_of<'a>(matches: &ArgMatches<'a>, name: &str) -> Option<&'a str>
    ensures { option_copied result ≡ first_of name.now (rows_of (found_of matches.now)) }
{
    matches.get_str(name)
}

/// Whether a flag stands.
pub(crate) fn has_flag(matches: &ArgMatches<'_>, name: &str) -> bool
    ensures yes { one_of name.now (rows_of (found_of matches.now)) ≡ Some (codes "true") → result ≡ true }
    ensures no { one_of name.now (rows_of (found_of matches.now)) ≡ Some (codes "false") → result ≡ false }
{
    matches.get_flag(name)
}
