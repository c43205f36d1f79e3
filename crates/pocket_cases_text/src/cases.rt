// The cases that stand in a file.
use std::alloc::{AllocError, Global};

/// Adds a line to the last case. What has to come may begin a line of its own.
fn push_line(cases: &mut Vec<String>, line: &str) -> Result<(), AllocError> {
    if let Some(case) = cases.last_mut() {
        case.push_str(if line.starts_with("=> ") { " " } else { "\n" })?;
        case.push_str(line)?;
    }
    Ok(())
}

/// The cases of a file, in its order: a line with those that are indented by two blanks below it. Lines that begin with `#` and empty
/// lines are none.
pub fn cases_of(alloc: Global, text: &str) -> Result<Vec<String>, AllocError> {
    let mut cases = Vec::new(alloc);
    for line in text.lines() {
        if let Some(rest) = line.strip_prefix("  ") {
            push_line(&mut cases, rest)?;
        } else if !line.is_empty() && !line.starts_with('#') {
            cases.push(String::from_str(alloc, line)?)?;
        }
    }
    Ok(cases)
}

/// The first word of a case, and what follows it, on the same line or on those below.
pub fn head_of(text: &str) -> (&str, &str) {
    let (line, below) = text.split_once('\n').unwrap_or((text, ""));
    if line.contains(' ') {
        text.split_once(' ').unwrap_or((text, ""))
    } else {
        (line, below)
    }
}
