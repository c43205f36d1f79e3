// Files of cases tried, and what is printed of them.
use crate::cases::{cases_of, head_of};
use crate::given::Given;
use crate::trouble::Trouble;
use std::alloc::{AllocError, Global};
use std::process::ExitCode;
use std::rt::{Env, Files};
use std::{env, fs, io};

/// The calls that a program knows.
pub trait Calls {
    /// The outcome of a call that is written in a case.
    fn outcome(&self, alloc: Global, given: &Given, case: &str) -> Result<String, Trouble>;
}

/// What came of a file's cases.
#[derive(Drop)]
struct Report {
    cases: u32,
    differing: u32,
    /// Each case that differs, with what came.
    told: String,
}

/// A case as it is written: what is called, and what has to come.
fn sides_of(case: &str) -> (&str, &str) {
    case.rsplit_once(" => ")
        .unwrap_or((case, "nothing is said to come"))
}

/// What came of a call, or why nothing did.
fn told(alloc: Global, outcome: Result<String, Trouble>) -> Result<String, AllocError> {
    match outcome {
        Ok(text) => Ok(text),
        Err(Trouble::Memory) => String::from_str(alloc, "out of memory"),
        Err(Trouble::Case(text)) => format!(in alloc; "no case: {text}"),
    }
}

/// What has to come, with its names spelled out.
fn expected_outcome(alloc: Global, given: &Given, text: &str) -> Result<String, AllocError> {
    match given.text_of(alloc, text) {
        Ok(text) => Ok(text),
        Err(_) => String::from_str(alloc, "no text"),
    }
}

/// Gives the text behind its name to the cases that follow.
fn give(alloc: Global, given: &mut Given, text: &str) -> Result<(), Trouble> {
    let (name, text) = head_of(text);
    let text = given.text_of(alloc, text)?;
    given.set(String::from_str(alloc, name)?, text)
}

impl Report {
    /// Notes what came of a case, and tells it where something else has to come.
    fn note(
        &mut self,
        case: &str,
        came: Result<String, AllocError>,
        expected: Result<String, AllocError>,
    ) -> Result<(), AllocError> {
        let came = came?;
        let expected = expected?;
        self.cases = self.cases.saturating_add(1);
        if came.as_str().trim_end() != expected.as_str().trim_end() {
            self.differing = self.differing.saturating_add(1);
            write!(&mut self.told, "differs: {case}\n  came: {came}\n")?;
        }
        Ok(())
    }
}

/// Tries a case, or gives what it gives to those that follow.
fn try_case<C: Calls>(
    report: &mut Report,
    given: &mut Given,
    alloc: Global,
    calls: &C,
    case: &str,
) -> Result<(), Trouble> {
    if let Some(text) = case.strip_prefix("given ") {
        return give(alloc, given, text);
    }
    let (call, expected) = sides_of(case);
    let came = told(alloc, calls.outcome(alloc, given, call));
    Ok(report.note(case, came, expected_outcome(alloc, given, expected))?)
}

/// Tries all cases of a file.
fn report_of<C: Calls>(alloc: Global, calls: &C, text: &str) -> Result<Report, Trouble> {
    let cases = cases_of(alloc, text)?;
    let mut given = Given::new(alloc);
    let mut report = Report {
        cases: 0,
        differing: 0,
        told: String::new(alloc),
    };
    for case in cases.as_slice() {
        try_case(&mut report, &mut given, alloc, calls, case.as_str())?;
    }
    Ok(report)
}

/// Tries a file of cases and prints what came of it. Whether all came as they have to.
fn try_file<R: Print + AllocGlobal, C: Calls>(
    rt: &R,
    calls: &C,
    name: &str,
    text: &str,
) -> io::Result<bool> {
    let Ok(report) = report_of(rt.alloc(), calls, text) else {
        println!(rt; "{name}: what is given can't be read")?;
        return Ok(false);
    };
    let told = report.told.as_str();
    println!(rt;
        "{name}: {} cases, {} differing",
        report.cases, report.differing
    )?;
    print!(rt; "{told}")?;
    Ok(report.differing == 0)
}

/// The words after the program's name.
fn read_words<R: Env + AllocGlobal>(rt: &R) -> io::Result<Vec<String>> {
    let mut words = Vec::new(rt.alloc());
    for word in env::args(rt)?.skip(1) {
        words.push(word)?;
    }
    Ok(words)
}

/// Tries the files that the command line names. Whether all their cases came as they have to.
fn try_all<R: Print + Env + Files + AllocGlobal, C: Calls>(rt: &R, calls: &C) -> io::Result<bool> {
    let mut all_agree = true;
    for path in read_words(rt)?.as_slice() {
        let text = fs::read_to_string(rt, path.as_str())?;
        let agree = try_file(rt, calls, path.as_str(), text.as_str())?;
        all_agree = all_agree && agree;
    }
    Ok(all_agree)
}

/// Tries the files that the command line names: status 0 where all cases came as they have to, 1 where one differs, and 2 where a file
/// can't be read.
pub fn try_files<R: Print + Eprint + Env + Files + AllocGlobal, C: Calls>(
    rt: &R,
    calls: &C,
) -> ExitCode {
    match try_all(rt, calls) {
        Ok(true) => ExitCode::from(0),
        Ok(false) => ExitCode::from(1),
        Err(fault) => {
            let _ = eprintln!(rt; "cases: {fault}");
            ExitCode::from(2)
        }
    }
}
