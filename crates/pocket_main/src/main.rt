//! The program: `main.rt` reads the words, `keepers.rt` makes the keeper that they name, and `pipe.rt` and `serve.rt`
//! join the host's streams, port, clock and random words to the top calls.
#![tactic(auto)]

ghost use Rattle.std.specs.Prelude.{◌≡◌, ◌⊎◌, Some, map};
ghost use Rattle.std.specs.String.{string_bytes};
ghost use Rattle.pocket_words.specs.Words.{command_of};
ghost use Rattle.pocket_main.specs.Outcomes.{IsOutcomeOf};

mod keepers;
mod outcome;
mod pipe;
mod serve;

use outcome::Outcome;
use pocket::{Command, RunEnd, WordFault, read_words};
use std::io::ErrorKind;
use std::net::{Net, TcpListener, TcpStream};
use std::process::ExitCode;
use std::rt::Env;
use std::sync::Wait;
use std::thread::Threads;
use std::{env, io};

/// The words after the program's name.
fn words_of(rt: &(impl Env + AllocGlobal)) -> io::Result<Vec<String>> {
    let mut words = Vec::new(rt.alloc());
    for word in env::args(rt)?.skip(1) {
        words.push(word)?;
    }
    Ok(words)
}

/// Runs the command that these words give. The load and the check aren't there yet, so theirs are bad words here.
fn run_command<H: Threads + Wait + Sync + Net<Listener = TcpListener, Stream = TcpStream>>(
    rt: &HostRuntime,
    handle: &H,
    words: &[String],
    command: Command,
) -> Outcome
    ensures { IsOutcomeOf (Some command) result }
{
    match command {
        Command::Pipe {
            admin: _,
            store,
            sample,
        } => Outcome::Ended(pipe::run(rt, words, store, sample)),
        Command::Serve {
            admin: _,
            port,
            workers,
            connections,
            store,
        } => serve::run(rt, handle, words, port, workers, connections, store),
        Command::Load { start: _, count: _ } | Command::Check => Outcome::Ended(RunEnd::Words),
    }
}

/// Runs the program with these words. The second handle is the same runtime, as what starts threads and listens.
fn run_words<H: Threads + Wait + Sync + Net<Listener = TcpListener, Stream = TcpStream>>(
    rt: &HostRuntime,
    handle: &H,
    words: &[String],
) -> Outcome
    ensures { (result ≡ Outcome.Ended RunEnd.Memory) ⊎ IsOutcomeOf (command_of (map string_bytes words.now)) result }
{
    match read_words(rt.alloc(), words) {
        Ok(command) => run_command(rt, handle, words, command),
        Err(WordFault::BadWords) => Outcome::Ended(RunEnd::Words),
        Err(WordFault::Memory) => Outcome::Ended(RunEnd::Memory),
    }
}

/// Runs the program with the host's words. One that isn't UTF-8 is a bad one.
fn run<H: Threads + Wait + Sync + Net<Listener = TcpListener, Stream = TcpStream>>(
    rt: &HostRuntime,
    handle: &H,
) -> Outcome {
    match words_of(rt) {
        Ok(words) => run_words(rt, handle, words.as_slice()),
        Err(fault) if fault.kind() == ErrorKind::OutOfMemory => Outcome::Ended(RunEnd::Memory),
        Err(_) => Outcome::Ended(RunEnd::Words),
    }
}

fn main(rt: HostRuntime) -> ExitCode {
    let outcome = run(&rt, &rt);
    ExitCode::from(outcome.report(&rt))
}
