//! Tries whole runs from texts: each case of a file is an input, and what has to come of a run over it.
#![tactic(auto)]

mod ends;
mod outcomes;
mod runs;

use crate::outcomes::RunCalls;
use pocket_cases_text::try_files;
use std::process::ExitCode;

/// Tries the files that the command line names.
fn main(rt: HostRuntime) -> ExitCode {
    try_files(&rt, &RunCalls)
}
