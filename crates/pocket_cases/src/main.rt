//! Tries the libraries below the machine from texts (`pocket_cases_text` says how they are written): each case is a call
//! with its arguments and what has to come of it. One file alone: `rt run && out/pocket_cases data/likeness.txt`.
#![tactic(auto)]

mod askers;
mod calls;
mod filters;
mod gate;
mod outcomes;
mod parts;
mod paths;
mod refusals;
mod requests;
mod rows;
mod schemas;
mod stores;
mod texts;
mod truths;
mod values;

use crate::outcomes::LibraryCalls;
use pocket_cases_text::try_files;
use std::process::ExitCode;

/// Tries the files that the command line names.
fn main(rt: HostRuntime) -> ExitCode {
    try_files(&rt, &LibraryCalls)
}
